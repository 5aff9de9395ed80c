use basics::Sequence;
use nf_function::{Function, Units};
use record_table::Table;

/// Numbers of packets.
pub type Numbers = Sequence<u32>;

/// Which instance fails, after how many choices, and which one takes over. The instances go by their places among the names.
#[derive(Clone, Copy, Debug, PartialEq, Eq)]
pub struct Failing {
    pub failed: u8,
    pub to: u8,
    pub after: u64,
}

/// What is left where an instance fails and another takes over.
#[derive(Drop)]
pub struct Promoted<F: Function> {
    /// The records of the instance that takes over.
    pub table: Table<F>,
    /// The units whose records were live at the one that fails, in order.
    pub units: Units,
    /// The packets of these units that were processed and that their records there haven't seen, by number.
    pub lost: Numbers,
    /// Their packets that came and weren't processed, by number.
    pub pending: Numbers,
    /// The lost packets in the order in which they were processed.
    pub order: Numbers,
}
