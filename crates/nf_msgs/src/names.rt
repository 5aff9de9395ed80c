use flow_filter::{Name, Sequence};

/// Names in order, which contracts see as the list of their bytes.
pub type Names = Sequence<Name>;
