//! What comes before the choices of a journal.
ghost use Rattle.std.specs.Prelude.{◌≡◌, ◌≢◌, ◌≤◌, ◌++◌, length, Err, OnOk, IfOk};
ghost use Rattle.journal_file.specs.Format.{header_size, header_bytes, journal_choices};
ghost use Rattle.journal_file.specs.Reading.{count_of, count_in};

use crate::fault::JournalFault;
use basics::{Bytes, NoMemory};
use byteorder::{BigEndian, ByteOrder};
use nf_function::Kind;
use nf_function::stored::{push_u16, push_u64};
use state_chunk::header::kind_number;

/// How many bytes a header has.
pub(crate) const SIZE: usize = 16;

/// The version of the format.
const VERSION: u16 = 1;

/// The most choices that a journal may have.
const MOST_CHOICES: u64 = 200_000_000;

/// Puts the header of so many choices after other bytes.
#[tactic(auto, unfolding(crate::specs::Format::header_bytes))]
pub(crate) fn push_header(
    bytes: &mut Bytes,
    kind: Kind,
    instances: u8,
    count: u64,
) -> Result<(), NoMemory>
    ensures { OnOk result (bytes.new ≡ bytes.old ++ header_bytes kind instances count) }
{
    bytes.push_bytes(b"ONFJ")?;
    push_u16(bytes, VERSION)?;
    bytes.push_bytes(&[kind_number(kind), instances])?;
    push_u64(bytes, count)
}

/// The number of choices that a journal begins with, or the first fault of its header.
#[tactic(auto, unfolding(crate::specs::Reading::count_of))]
pub(crate) fn count_of(bytes: &[u8], kind: Kind, instances: u8) -> Result<u64, JournalFault>
    ensures value { result ≡ count_of kind instances bytes.now }
    ensures bound { IfOk result (λ count. count ≤ journal_choices) }
    ensures bytes { result ≢ Err JournalFault.Read }
    ensures whole { IfOk result (λ _. header_size ≤ length bytes.now) }
{
    if bytes.len() < SIZE {
        return Err(JournalFault::Short);
    }
    count_in(&bytes[..SIZE], kind, instances)
}

/// The number of choices that a header of 16 bytes tells, or its first fault.
#[tactic(auto, unfolding(crate::specs::Reading::count_in))]
fn count_in(header: &[u8], kind: Kind, instances: u8) -> Result<u64, JournalFault>
    requires { length header.now ≡ header_size }
    ensures value { result ≡ count_in kind instances header.now }
    ensures bytes { result ≢ Err JournalFault.Read }
    ensures bound { IfOk result (λ count. count ≤ journal_choices) }
{
    if !header.starts_with(b"ONFJ") {
        return Err(JournalFault::Magic);
    }
    if BigEndian::read_u16(&header[4..]) != VERSION {
        return Err(JournalFault::Version);
    }
    if header[6] != kind_number(kind) {
        return Err(JournalFault::Kind);
    }
    if header[7] != instances {
        return Err(JournalFault::Count);
    }
    let count = BigEndian::read_u64(&header[8..]);
    if count > MOST_CHOICES {
        return Err(JournalFault::Count);
    }
    Ok(count)
}
