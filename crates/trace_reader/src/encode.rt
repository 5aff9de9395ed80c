//! The bytes of generated captures. The numbers of the pcap format stand with the lowest byte first, those of a datagram in network order.
ghost use Rattle.std.specs.Prelude.{◌≡◌, ◌≤◌, ◌<◌, ◌+◌, ◌++◌, length, drop};
ghost use Rattle.trace_reader.specs.Generated.{file_header, record_head, ipv4_header, udp_header, tcp_header, record_bytes, payload_lengths};

use crate::drawn::{Drawn, Transport};
use crate::form::{MAJOR, MINOR};
use byteorder::{BigEndian, ByteOrder, LittleEndian};
use flow_filter::{TCP, UDP};

/// No record is longer: 16 bytes at its head, an IPv4 header of 20 and a TCP header of 20.
pub(crate) const LONGEST_RECORD: usize = 56;

/// The magic number of a capture with microseconds.
const MAGIC: u32 = 0xa1b2_c3d4;

/// The most bytes of a packet that a record may have, as the header says.
const SNAP_LENGTH: u32 = 65_535;

/// The link type of packets without a link's header.
const RAW: u32 = 101;

/// The 24 bytes at the head of a capture.
#[tactic(auto, unfolding(crate::specs::Generated::file_header))]
pub(crate) fn file_header() -> [u8; 24]
    ensures { result ≡ file_header }
{
    let mut header = [0; 24];
    LittleEndian::write_u32(&mut header, MAGIC);
    LittleEndian::write_u16(&mut header[4..], MAJOR);
    LittleEndian::write_u16(&mut header[6..], MINOR);
    LittleEndian::write_u32(&mut header[16..], SNAP_LENGTH);
    LittleEndian::write_u32(&mut header[20..], RAW);
    header
}

/// Writes the record of packet `number` to the front of a place, and gives its length.
pub(crate) fn write_record(place: &mut [u8], number: u32, drawn: &Drawn) -> usize
    requires place { length place.old ≡ LONGEST_RECORD }
    requires payload { drawn.now.payload < payload_lengths }
    ensures bytes { place.new ≡ record_bytes number drawn.now ++ drop result place.old }
    ensures size { result ≡ length (record_bytes number drawn.now) }
    ensures fits { result ≤ LONGEST_RECORD }
{
    place[..16].copy_from_slice(&record_head(number, drawn));
    match drawn.transport {
        Transport::Udp => {
            place[16..36].copy_from_slice(&ipv4_header(UDP, drawn));
            place[36..44].copy_from_slice(&udp_header(drawn));
            44
        }
        Transport::Tcp(flags) => {
            place[16..36].copy_from_slice(&ipv4_header(TCP, drawn));
            place[36..56].copy_from_slice(&tcp_header(drawn, flags));
            56
        }
    }
}

/// The head of a record: seconds, microseconds, the captured length and that of the datagram.
#[tactic(auto, unfolding(crate::specs::Generated::record_head))]
fn record_head(number: u32, drawn: &Drawn) -> [u8; 16]
    requires { drawn.now.payload < payload_lengths }
    ensures { result ≡ record_head number drawn.now }
{
    let mut head = [0; 16];
    LittleEndian::write_u32(&mut head, number / 1000);
    LittleEndian::write_u32(&mut head[4..], number % 1000 * 1000);
    LittleEndian::write_u32(&mut head[8..], u32::from(drawn.captured_size()));
    LittleEndian::write_u32(&mut head[12..], u32::from(drawn.total_size()));
    head
}

/// The IPv4 header, without a checksum.
#[tactic(auto, unfolding(crate::specs::Generated::ipv4_header))]
fn ipv4_header(proto: u8, drawn: &Drawn) -> [u8; 20]
    requires { drawn.now.payload < payload_lengths }
    ensures { result ≡ ipv4_header proto drawn.now }
{
    let mut header = [0; 20];
    header[0] = 0x45;
    BigEndian::write_u16(&mut header[2..], drawn.total_size());
    header[8] = 64;
    header[9] = proto;
    header[12..16].copy_from_slice(&drawn.source().address);
    header[16..].copy_from_slice(&drawn.target().address);
    header
}

/// The UDP header, without a checksum.
#[tactic(auto, unfolding(crate::specs::Generated::udp_header))]
fn udp_header(drawn: &Drawn) -> [u8; 8]
    requires { drawn.now.payload < payload_lengths }
    ensures { result ≡ udp_header drawn.now }
{
    let mut header = [0; 8];
    BigEndian::write_u16(&mut header, drawn.source().port);
    BigEndian::write_u16(&mut header[2..], drawn.target().port);
    BigEndian::write_u16(&mut header[4..], 8 + drawn.payload);
    header
}

/// The TCP header, whose sequence numbers, window and checksum are 0.
#[tactic(auto, unfolding(crate::specs::Generated::tcp_header))]
fn tcp_header(drawn: &Drawn, flags: u8) -> [u8; 20]
    ensures { result ≡ tcp_header drawn.now flags }
{
    let mut header = [0; 20];
    BigEndian::write_u16(&mut header, drawn.source().port);
    BigEndian::write_u16(&mut header[2..], drawn.target().port);
    header[12] = 0x50;
    header[13] = flags;
    header
}
