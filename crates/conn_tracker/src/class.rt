ghost use Rattle.std.specs.Prelude.{◌≡◌};
ghost use Rattle.conn_tracker.specs.Table.{class_of};

use flow_filter::{ACK, FIN, RST, SYN};

/// What the flags of a TCP packet say of its connection.
#[derive(Clone, Copy, Debug, PartialEq, Eq)]
pub enum Class {
    /// RST.
    Rst,
    /// SYN and ACK.
    SynAck,
    /// SYN alone.
    Syn,
    /// FIN.
    Fin,
    /// None of these.
    Other,
}

impl Class {
    /// The first class that holds of the flags.
    pub fn of(flags: u8) -> Class
        ensures { result ≡ class_of flags }
    {
        if flags & RST != 0 {
            Class::Rst
        } else if flags & SYN != 0 && flags & ACK != 0 {
            Class::SynAck
        } else if flags & SYN != 0 {
            Class::Syn
        } else if flags & FIN != 0 {
            Class::Fin
        } else {
            Class::Other
        }
    }
}
