/// The protocol number of TCP in an IPv4 header.
pub const TCP: u8 = 6;

/// The protocol number of UDP in an IPv4 header.
pub const UDP: u8 = 17;

/// The flag of a TCP header (RFC 9293) by which the sender has no more data.
pub const FIN: u8 = 1;

/// The flag by which the sender tells its first number.
pub const SYN: u8 = 2;

/// The flag that resets the connection.
pub const RST: u8 = 4;

/// The flag by which something is acknowledged.
pub const ACK: u8 = 16;

/// One TCP or UDP packet of a capture.
///
/// Addresses are the numbers of their four bytes, the first byte highest. The widest fields stand first, so that no room is
/// lost between them.
#[derive(Clone, Copy, Debug, PartialEq, Eq)]
pub struct Packet {
    /// The capture's time stamp, in nanoseconds.
    pub nanos: u64,
    /// The place among the steered packets of the capture, from 1.
    pub number: u32,
    /// The address that sent it.
    pub src: u32,
    /// The address that it goes to.
    pub dst: u32,
    /// How many bytes of payload the packet carried, captured or not.
    pub length: u32,
    /// The port that sent it.
    pub sport: u16,
    /// The port that it goes to.
    pub dport: u16,
    /// [`TCP`] or [`UDP`].
    pub proto: u8,
    /// The flags of the TCP header, and 0 for UDP.
    pub flags: u8,
    /// How many bytes of payload `head` has.
    pub held: u8,
    /// The first `held` bytes of captured payload, and then zeros.
    pub head: [u8; 64],
}
