//! The flows that are worked on, and their packets.
ghost use Rattle.std.specs.Prelude.{◌≡◌, ◌<◌};
ghost use Rattle.speed_parts.specs.Draws.{most_size, numbered_flow};

use flow_filter::{ACK, FIN, Flow, Packet, Prefix, SYN, Site, TCP};

/// The site 10.0.0.0/8.
pub const SITE: Site = Site {
    inside: Prefix {
        bits: 0x0a00_0000,
        len: 8,
    },
    outside: None,
};

/// The flow with a number: one of 65,536 hosts with one of 256 peers. A tenth of the flows have the local port 1024.
pub fn numbered_flow(number: u32) -> Flow
    requires { number < most_size }
    ensures { result ≡ numbered_flow number }
{
    Flow {
        local: 0x0a00_0000 + number % 65_536,
        remote: 0xc000_0200 + number / 65_536,
        lport: 1024 + (number % 10) as u16,
        rport: 443,
        proto: TCP,
    }
}

/// A packet of a flow. The word chooses whether it comes in, and its flags.
pub fn drawn_packet(flow: Flow, word: u64) -> Packet {
    let flags = match word / 4 % 4 {
        0 => SYN,
        3 => FIN | ACK,
        _ => ACK,
    };
    let out = Packet {
        nanos: 0,
        number: 1,
        src: flow.local,
        dst: flow.remote,
        length: 20,
        sport: flow.lport,
        dport: flow.rport,
        proto: flow.proto,
        flags,
        held: 0,
        head: [0; 64],
    };
    if word % 4 != 0 {
        return out;
    }
    Packet {
        src: out.dst,
        dst: out.src,
        sport: out.dport,
        dport: out.sport,
        ..out
    }
}
