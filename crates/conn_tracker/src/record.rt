ghost use Rattle.std.specs.Prelude.{◌≡◌};
ghost use Rattle.conn_tracker.specs.States.{output_of};

use crate::state::State;
use flow_filter::Direction;
use nf_function::Output;

/// What the tracker keeps of a flow. The widest fields stand first, so that no room is lost between them.
#[derive(Clone, Copy, Debug, PartialEq, Eq)]
pub struct TrackRecord {
    pub packets: u64,
    /// The payload bytes of the packets.
    pub bytes: u64,
    /// The greatest time of a packet, in nanoseconds; 0 means that none is known.
    pub seen: u64,
    pub state: State,
    /// The direction in which the opener's packets go.
    pub opener: Direction,
}

impl TrackRecord {
    /// The output of the packet that left this record.
    pub fn output(&self) -> Output
        ensures { result ≡ output_of self.now }
    {
        Output {
            code: self.state.number(),
            a: 0,
            b: 0,
        }
    }
}
