ghost use Rattle.std.specs.Prelude.{◌≡◌};
ghost use Rattle.addr_translator.specs.Passages.{source};

use flow_filter::Packet;

/// An inside host's end that has an outside port: its protocol and its port.
#[derive(Clone, Copy, Debug, PartialEq, Eq, PartialOrd, Ord)]
pub struct Mapping {
    pub proto: u8,
    pub port: u16,
}

impl Mapping {
    /// The end that the packet comes from.
    pub fn source(packet: &Packet) -> Mapping
        ensures { result ≡ source packet.now }
    {
        Mapping {
            proto: packet.proto,
            port: packet.sport,
        }
    }
}
