//! The form of a capture, as its first 24 bytes tell it.
ghost use Rattle.std.specs.Prelude.{◌≡◌, ◌≢◌, ◌≤◌, Err, length};
ghost use Rattle.trace_reader.specs.Limits.{head_size, header_size};
ghost use Rattle.trace_reader.specs.Numbers.{number_in};
ghost use Rattle.trace_reader.specs.Steered.{nanos_of};
ghost use Rattle.trace_reader.specs.Header.{magic_of, link_type_of, form_of};
ghost use Rattle.trace_reader.specs.Opened.{captured_of, is_version};

use crate::fault::TraceFault;
use byteorder::{BigEndian, ByteOrder, LittleEndian};

/// The first number of a file in the pcapng format, which isn't read.
const PCAPNG: u32 = 0x0a0d_0d0a;

/// The version of the pcap format: the number before the point, and the one after it.
pub(crate) const MAJOR: u16 = 2;

pub(crate) const MINOR: u16 = 4;

/// Which byte of a capture's own numbers comes first: the highest or the lowest.
#[derive(Clone, Copy, Debug, PartialEq, Eq)]
pub enum Endian {
    Big,
    Little,
}

/// What the fraction of a time stamp counts.
#[derive(Clone, Copy, Debug, PartialEq, Eq)]
pub enum Fraction {
    Micros,
    Nanos,
}

/// What the magic number says.
#[derive(Clone, Copy, Debug, PartialEq, Eq)]
pub struct Magic {
    pub endian: Endian,
    pub fraction: Fraction,
}

/// What stands around each datagram: an Ethernet header, or nothing.
#[derive(Clone, Copy, Debug, PartialEq, Eq)]
pub enum LinkType {
    Ethernet,
    Raw,
}

/// The form of a capture.
#[derive(Clone, Copy, Debug, PartialEq, Eq)]
pub struct Form {
    pub magic: Magic,
    pub link_type: LinkType,
}

/// The form that the first 24 bytes of a capture state.
#[tactic(auto, unfolding(crate::specs::Header::form_of))]
pub(crate) fn form_of(header: &[u8]) -> Result<Form, TraceFault>
    ensures form { result ≡ form_of header.now }
    ensures unread { result ≢ Err TraceFault.Read }
{
    if header.len() < 4 {
        return Err(TraceFault::Magic);
    }
    let number = BigEndian::read_u32(header);
    if number == PCAPNG {
        return Err(TraceFault::PcapNg);
    }
    let Some(magic) = magic_of(number) else {
        return Err(TraceFault::Magic);
    };
    if header.len() < 24 {
        return Err(TraceFault::Header(header.len() as u64));
    }
    if !is_version(magic, header) {
        return Err(TraceFault::Version);
    }
    let number = (magic.endian.long(&header[20..]) % 0x1_0000) as u16;
    match link_type_of(number) {
        Some(link_type) => Ok(Form { magic, link_type }),
        None => Err(TraceFault::LinkType(number)),
    }
}

/// The byte order and the unit of time that a magic number stands for, read with the highest byte first.
fn magic_of(number: u32) -> Option<Magic>
    ensures { result ≡ magic_of number }
{
    let (endian, fraction) = match number {
        0xa1b2_c3d4 => (Endian::Big, Fraction::Micros),
        0xd4c3_b2a1 => (Endian::Little, Fraction::Micros),
        0xa1b2_3c4d => (Endian::Big, Fraction::Nanos),
        0x4d3c_b2a1 => (Endian::Little, Fraction::Nanos),
        _ => return None,
    };
    Some(Magic { endian, fraction })
}

/// Whether the header gives version 2.4, the only one that is read.
fn is_version(magic: Magic, header: &[u8]) -> bool
    requires { header_size ≤ length header.now }
    ensures { result ≡ is_version magic header.now }
{
    magic.endian.short(&header[4..]) == MAJOR && magic.endian.short(&header[6..]) == MINOR
}

/// The link type that a number of the header stands for, where records of it are read.
fn link_type_of(number: u16) -> Option<LinkType>
    ensures { result ≡ link_type_of number }
{
    match number {
        1 => Some(LinkType::Ethernet),
        101 => Some(LinkType::Raw),
        _ => None,
    }
}

impl Form {
    /// How many bytes of the packet a record has, by its head.
    pub(crate) fn captured(self, head: &[u8]) -> u32
        requires { length head.now ≡ head_size }
        ensures { result ≡ captured_of self head.now }
    {
        self.magic.endian.long(&head[8..])
    }

    /// The time stamp at the head of a record, in nanoseconds.
    pub(crate) fn nanos(self, head: &[u8]) -> u64
        requires { length head.now ≡ head_size }
        ensures { result ≡ nanos_of self head.now }
    {
        let seconds = u64::from(self.magic.endian.long(head));
        let fraction = u64::from(self.magic.endian.long(&head[4..]));
        let unit = match self.magic.fraction {
            Fraction::Micros => 1000,
            Fraction::Nanos => 1,
        };
        seconds * 1_000_000_000 + fraction * unit
    }
}

impl Endian {
    /// The number of the first two bytes.
    fn short(self, bytes: &[u8]) -> u16
        requires { 2 ≤ length bytes.now }
        ensures { result ≡ number_in self 2 bytes.now }
    {
        match self {
            Endian::Big => BigEndian::read_u16(bytes),
            Endian::Little => LittleEndian::read_u16(bytes),
        }
    }

    /// The number of the first four bytes.
    pub(crate) fn long(self, bytes: &[u8]) -> u32
        requires { 4 ≤ length bytes.now }
        ensures { result ≡ number_in self 4 bytes.now }
    {
        match self {
            Endian::Big => BigEndian::read_u32(bytes),
            Endian::Little => LittleEndian::read_u32(bytes),
        }
    }
}
