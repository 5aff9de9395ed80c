//! The packets of generated captures: what the word of each chooses.
ghost use Rattle.std.specs.Prelude.{◌≡◌, ◌≤◌, ◌<◌};
ghost use Rattle.trace_reader.specs.Generated.{drawn_by, flags_by, local_port, remote_port, local_end, remote_end, source};
ghost use Rattle.trace_reader.specs.Generated.{target, transport_size, captured_size, total_size, payload_lengths};
ghost use Rattle.flow_filter.specs.Limits.{most_hosts};

use flow_filter::{ACK, Direction, FIN, SYN};

/// What a word chooses of a packet.
#[derive(Drop)]
pub(crate) struct Drawn {
    /// The last byte of the address inside.
    host: u8,
    /// The last byte of the address outside, below 64.
    peer: u8,
    direction: Direction,
    pub(crate) transport: Transport,
    /// How many bytes of payload it carries, below 512. None of them is captured.
    pub(crate) payload: u16,
}

/// What stands after the IPv4 header.
#[derive(Clone, Copy, Debug, PartialEq, Eq)]
pub(crate) enum Transport {
    Udp,
    /// The flags of the TCP header.
    Tcp(u8),
}

/// One end of a packet's way.
#[derive(Drop)]
pub(crate) struct End {
    pub(crate) address: [u8; 4],
    pub(crate) port: u16,
}

impl Drawn {
    /// What a word chooses, where there are so many hosts inside.
    #[tactic(auto, unfolding(crate::specs::Generated::drawn_by))]
    pub(crate) fn of(word: u64, hosts: u32) -> Drawn
        requires some { 1 ≤ hosts }
        requires few { hosts ≤ most_hosts }
        ensures value { result ≡ drawn_by hosts word }
        ensures payload { result.payload < payload_lengths }
    {
        Drawn {
            host: (word % u64::from(hosts)) as u8,
            peer: ((word >> 16) % 64) as u8,
            direction: if (word >> 32) % 4 == 0 {
                Direction::In
            } else {
                Direction::Out
            },
            transport: if (word >> 40) % 2 == 0 {
                Transport::Udp
            } else {
                Transport::Tcp(flags_by((word >> 41) % 4))
            },
            payload: ((word >> 48) % 512) as u16,
        }
    }

    /// Where it comes from.
    #[tactic(auto, unfolding(crate::specs::Generated::source))]
    pub(crate) fn source(&self) -> End
        ensures { result ≡ source self.now }
    {
        match self.direction {
            Direction::Out => self.local_end(),
            Direction::In => self.remote_end(),
        }
    }

    /// Where it goes.
    #[tactic(auto, unfolding(crate::specs::Generated::target))]
    pub(crate) fn target(&self) -> End
        ensures { result ≡ target self.now }
    {
        match self.direction {
            Direction::Out => self.remote_end(),
            Direction::In => self.local_end(),
        }
    }

    /// The host.
    fn local_end(&self) -> End
        ensures { result ≡ local_end self.now }
    {
        End {
            address: [10, 0, 0, self.host],
            port: self.transport.local_port(self.peer),
        }
    }

    /// Its peer.
    fn remote_end(&self) -> End
        ensures { result ≡ remote_end self.now }
    {
        End {
            address: [192, 0, 2, self.peer],
            port: self.transport.remote_port(),
        }
    }

    /// How many bytes of it are captured.
    pub(crate) fn captured_size(&self) -> u16
        ensures { result ≡ captured_size self.now }
    {
        20 + self.transport.size()
    }

    /// How many bytes it has.
    pub(crate) fn total_size(&self) -> u16
        requires { self.now.payload < payload_lengths }
        ensures { result ≡ total_size self.now }
    {
        self.captured_size() + self.payload
    }
}

impl Transport {
    /// How many bytes its header has.
    fn size(self) -> u16
        ensures { result ≡ transport_size self }
    {
        match self {
            Transport::Udp => 8,
            Transport::Tcp(_) => 20,
        }
    }

    /// The port of a host that speaks to this peer.
    fn local_port(self, peer: u8) -> u16
        ensures { result ≡ local_port self peer }
    {
        match self {
            Transport::Udp => 50_000 + u16::from(peer),
            Transport::Tcp(_) => 40_000 + u16::from(peer),
        }
    }

    /// The port of a peer.
    fn remote_port(self) -> u16
        ensures { result ≡ remote_port self }
    {
        match self {
            Transport::Udp => 53,
            Transport::Tcp(_) => 443,
        }
    }
}

/// The flags that two bits choose.
fn flags_by(bits: u64) -> u8
    ensures { result ≡ flags_by bits }
{
    match bits {
        0 => SYN,
        3 => FIN | ACK,
        _ => ACK,
    }
}
