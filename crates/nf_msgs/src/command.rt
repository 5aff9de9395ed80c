use crate::names::Names;
use basics::{NoMemory, TryCopy};
use flow_filter::{Filter, Name};

/// An order of the operator, under the number of its command.
#[derive(Debug, Drop)]
pub struct Command {
    /// The place among the commands of the script, from 1.
    pub op: u32,
    pub what: Order,
}

/// What an operator asks of the network.
#[derive(Debug, Drop)]
pub enum Order {
    /// Move the state of the matching units from `src` to `dst`, without loss; `keep` also keeps the order of packets.
    Move {
        src: Name,
        dst: Name,
        filter: Filter,
        keep: bool,
    },
    /// Copy the state of the matching units into standby at `dst`, or the all-flows state where no filter is given.
    Copy {
        src: Name,
        dst: Name,
        filter: Option<Filter>,
    },
    /// Let the members share the matching units, the first as their home.
    Share {
        members: Names,
        filter: Filter,
    },
}

impl TryCopy for Command {
    fn copy(&self) -> Result<Self, NoMemory> {
        let what = self.what.copy()?;
        Ok(Command { op: self.op, what })
    }
}

impl TryCopy for Order {
    fn copy(&self) -> Result<Self, NoMemory> {
        match self {
            Order::Move {
                src,
                dst,
                filter,
                keep,
            } => Ok(Order::Move {
                src: src.copy()?,
                dst: dst.copy()?,
                filter: *filter,
                keep: *keep,
            }),
            Order::Copy { src, dst, filter } => Ok(Order::Copy {
                src: src.copy()?,
                dst: dst.copy()?,
                filter: *filter,
            }),
            Order::Share { members, filter } => Ok(Order::Share {
                members: members.copy()?,
                filter: *filter,
            }),
        }
    }
}
