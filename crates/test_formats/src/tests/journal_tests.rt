//! Tests of `journal_file`: journals that are read, from bytes and from a source, and written.
ghost use Rattle.std.specs.Prelude.{[], None};

use crate::tests::outside_tests::to_read;
use actor_net::{Choice, Choices};
use basics::NoMemory;
use journal_file::{JournalFault, read_journal, read_journal_from, write_journal};
use nf_function::Kind;
use nf_io::{Failed, Role, RoleSource, Source};
use std::alloc::Global;
use std::process::Abort;
use std::test::Fail;

/// A move of one unit between two instances of the connection tracker: 38 choices.
static MOVE: [u8; 92] = [
    0x4f, 0x4e, 0x46, 0x4a, 0x00, 0x01, 0x01, 0x02, 0x00, 0x00, 0x00, 0x00, 0x00, 0x00, 0x00, 0x26,
    0x00, 0x00, 0x00, 0x00, 0x01, 0x00, 0x02, 0x01, 0x02, 0x00, 0x01, 0x02, 0x01, 0x02, 0x02, 0x01,
    0x01, 0x02, 0x02, 0x01, 0x01, 0x02, 0x03, 0x01, 0x01, 0x03, 0x03, 0x01, 0x01, 0x03, 0x00, 0x01,
    0x00, 0x01, 0x00, 0x00, 0x00, 0x00, 0x00, 0x00, 0x02, 0x00, 0x01, 0x02, 0x00, 0x01, 0x03, 0x00,
    0x03, 0x00, 0x03, 0x00, 0x03, 0x00, 0x01, 0x03, 0x00, 0x01, 0x01, 0x00, 0x00, 0x01, 0x02, 0x00,
    0x03, 0x00, 0x01, 0x02, 0x01, 0x03, 0x00, 0x03, 0x00, 0x03, 0x00, 0x03,
];

/// The header of [`MOVE`] with these bytes as the last letter and as the low ends of its other parts but the count.
fn header(letter: u8, version: u8, kind: u8, instances: u8) -> [u8; 16] {
    [
        0x4f, 0x4e, 0x46, letter, 0, version, kind, instances, 0, 0, 0, 0, 0, 0, 0, 0x26,
    ]
}

/// The header of [`MOVE`] with these bytes as the low half of its count.
fn counted(count: [u8; 4]) -> [u8; 16] {
    let [a, b, c, d] = count;
    [0x4f, 0x4e, 0x46, 0x4a, 0, 1, 1, 2, 0, 0, 0, 0, a, b, c, d]
}

/// Whether both readers answer this, from bytes and from a source, for the connection tracker and two instances.
fn both_answer(
    alloc: Global,
    header: &[u8],
    rest: &[u8],
    wanted: Option<JournalFault>,
) -> Result<bool, NoMemory> {
    let from_bytes = fault_of_bytes(alloc, header, rest)?;
    let from_source = fault_of_source(alloc, header, rest)?;
    Ok(from_bytes == wanted && from_source == wanted)
}

/// What the reader of bytes answers.
fn fault_of_bytes(
    alloc: Global,
    header: &[u8],
    rest: &[u8],
) -> Result<Option<JournalFault>, NoMemory> {
    let mut whole = Vec::new(alloc);
    whole.extend_from_slice(header)?;
    whole.extend_from_slice(rest)?;
    Ok(read_journal(alloc, &whole, Kind::Conntrack, 2).err())
}

/// What the reader of a source answers.
fn fault_of_source(
    alloc: Global,
    header: &[u8],
    rest: &[u8],
) -> Result<Option<JournalFault>, NoMemory> {
    let mut outside = to_read(alloc, Role::JournalIn, [header, rest, b""], 0, 7)?;
    let mut source = RoleSource {
        outside: &mut outside,
        role: Role::JournalIn,
    };
    Ok(read_journal_from(alloc, &mut source, Kind::Conntrack, 2).err())
}

#[test]
fn a_move_is_read_and_written_again(rt: HostRuntime) -> Result<(), Fail> {
    let choices = read_journal(rt.alloc(), &MOVE, Kind::Conntrack, 2)?;
    see_choices(&rt, &choices);
    let bytes = write_journal(rt.alloc(), Kind::Conntrack, 2, &choices)?;
    assert_eq!(rt; bytes.items(), &MOVE[..]);
    Ok(())
}

/// Looks at the choices of [`MOVE`].
fn see_choices(rt: &impl Abort, choices: &Choices) {
    let fourth = Choice { node: 2, port: 1 };
    let last = Choice { node: 0, port: 3 };
    assert_eq!(rt;
        (choices.len(), choices.iter().nth(3), choices.iter().last()),
        (38, Some(fourth), Some(last))
    );
}

#[test]
fn the_first_fault_of_a_header_is_answered(rt: HostRuntime) -> Result<(), Fail> {
    let headers = [
        (header(0x4b, 2, 2, 3), JournalFault::Magic),
        (header(0x4a, 2, 2, 3), JournalFault::Version),
        (header(0x4a, 1, 2, 3), JournalFault::Kind),
        (header(0x4a, 1, 1, 3), JournalFault::Count),
        (counted([0x0b, 0xeb, 0xc2, 0x01]), JournalFault::Count),
        (counted([0x0b, 0xeb, 0xc2, 0x00]), JournalFault::Short),
    ];
    for (header, fault) in headers {
        assert!(rt;
            both_answer(rt.alloc(), &header, &MOVE[16..], Some(fault))?,
            "{fault}"
        );
    }
    Ok(())
}

#[test]
fn choices_end_exactly(rt: HostRuntime) -> Result<(), Fail> {
    let none = counted([0; 4]);
    let journals: [(&[u8], &[u8], Option<JournalFault>); 6] = [
        (&[0x58; 15], b"", Some(JournalFault::Short)),
        (&MOVE, b"", None),
        (&MOVE[..91], b"", Some(JournalFault::Short)),
        (&MOVE, b"x", Some(JournalFault::Extra)),
        (&none, b"", None),
        (&none, b"x", Some(JournalFault::Extra)),
    ];
    for (header, rest, wanted) in journals {
        assert!(rt;
            both_answer(rt.alloc(), header, rest, wanted)?,
            "{wanted:?}"
        );
    }
    Ok(())
}

/// A source that never ends: the bytes of [`MOVE`] and then others, one with each read.
#[derive(Drop)]
struct Endless {
    taken: usize,
}

impl Source for Endless {
    ghost Rest = { Unit {0} };

    ghost left = { λ _. None };

    ghost faults = { λ _. 0 };

    ghost IsOpen = { λ _. Unit {0} };

    ghost loan = { λ _. 0 };

    ghost rest = { λ _. tt };

    ghost ahead = { λ _. [] };

    fn read(&mut self, buf: &mut [u8]) -> Result<usize, Failed> {
        if buf.is_empty() {
            return Ok(0);
        }
        buf[0] = MOVE.get(self.taken).copied().unwrap_or(b'x');
        self.taken = self.taken.saturating_add(1);
        Ok(1)
    }

    fn at_hand(&self) -> &[u8] {
        &[]
    }

    fn skip(&mut self, _count: usize) {}
}

#[test]
fn no_byte_after_the_fault_is_taken(rt: HostRuntime) -> Result<(), Fail> {
    let faults = [
        (Kind::Conntrack, JournalFault::Extra, 93),
        (Kind::Nat, JournalFault::Kind, 16),
    ];
    for (kind, fault, taken) in faults {
        let mut endless = Endless { taken: 0 };
        let answer = read_journal_from(rt.alloc(), &mut endless, kind, 2).err();
        assert_eq!(rt; (answer, endless.taken), (Some(fault), taken));
    }
    Ok(())
}
