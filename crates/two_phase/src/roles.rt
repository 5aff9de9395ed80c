/// The number of the one operation: the update.
pub const THE_UPDATE: u32 = 1;

/// The source among the instances.
pub const SOURCE: u8 = 0;

/// The destination among them.
pub const DESTINATION: u8 = 1;

/// How many instances there are.
pub const INSTANCES: u8 = 2;
