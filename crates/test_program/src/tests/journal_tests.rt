//! Tests of runs that write or read a journal, and of summaries.
ghost use Rattle.std.specs.Prelude.{◌≡◌, None};
ghost use Rattle.nf_io.specs.declared.outside.Role.{Role as TheRole};
ghost use Rattle.nf_io.specs.Memory.{seen_in};

use crate::tests::common::{HEADER, ONE_PACKET, RECORD, outside_of, seen_beside};
use basics::{NoMemory, Text};
use nf_io::{MemoryOutside, Role};
use std::alloc::Global;
use std::test::Fail;

/// The choices of the schedule `first` for one instance and [`RECORD`]: the packet, the end, End at the controller, Finish at the
/// switch, the packet at the instance, its cell at the switch, Stop at the instance, and Final at the controller.
static JOURNAL: [u8; 32] = [
    b'O', b'N', b'F', b'J', 0, 1, 1, 1, 0, 0, 0, 0, 0, 0, 0, 8, //
    0, 0, 0, 0, 1, 0, 0, 1, 2, 0, 0, 2, 2, 0, 1, 2,
];

/// What is seen of a command over [`RECORD`] with a journal J, and the journal that was written. The first write to a role that is given fails.
fn journaled(
    alloc: Global,
    command: &str,
    journal: &[u8],
    failing: Option<Role>,
) -> Result<(Text, Text), NoMemory> {
    let mut outside = outside_of(alloc, &[&HEADER, &RECORD])?;
    journaled_over(alloc, command, journal, failing, &mut outside)
}

/// The same over an outside with that capture.
fn journaled_over(
    alloc: Global,
    command: &str,
    journal: &[u8],
    failing: Option<Role>,
    outside: &mut MemoryOutside,
) -> Result<(Text, Text), NoMemory>
    requires { (role : TheRole) → (seen_in outside.old role).name ≡ None }
{
    outside.put(Role::JournalIn, journal)?;
    if let Some(role) = failing {
        outside.fail(role, 1)?;
    }
    let line = format!(in alloc;
        "opennf {command} --instances a --inside 10.0.0.0/24 --journal J T"
    )?;
    seen_beside(alloc, line.as_str(), outside, Role::JournalOut)
}

#[test]
fn a_run_and_its_audit_report_the_same(rt: HostRuntime) -> Result<(), Fail> {
    let summary =
        "0|opennf report 1\nfunction conntrack instances 1 window 256\ntrace packets 1 skipped 0 whole\nlive a 1\ntally a 1\nend\n|";
    let rows: [(&str, &[u8], &[u8], &str); 4] = [
        ("sim conntrack", b"", &JOURNAL, ONE_PACKET),
        ("audit conntrack", &JOURNAL, b"", ONE_PACKET),
        ("sim conntrack --summary", b"", &JOURNAL, summary),
        ("audit conntrack --summary", &JOURNAL, b"", summary),
    ];
    for (command, given, written, wanted) in rows {
        let (text, journal) = journaled(rt.alloc(), command, given, None)?;
        assert_eq!(rt; text.items(), wanted.as_bytes(), "{command}");
        assert_eq!(rt; journal.items(), written, "{command}");
    }
    Ok(())
}

/// A byte of [`JOURNAL`] that is changed, and what is seen of the journal that is left.
static SPOILED: [(usize, u8, &str); 8] = [
    (0, b'X', "2||opennf: journal: magic\n"),
    (5, 2, "2||opennf: journal: version\n"),
    (6, 2, "2||opennf: journal: kind\n"),
    (7, 3, "2||opennf: journal: count\n"),
    (15, 9, "2||opennf: journal: short\n"),
    (15, 7, "2||opennf: journal: extra\n"),
    (16, 1, "3||opennf: not a run at step 1\n"),
    (24, 1, "3||opennf: not a run at step 5\n"),
];

#[test]
fn each_fault_of_a_journal_has_its_line(rt: HostRuntime) -> Result<(), Fail> {
    for (place, byte, wanted) in SPOILED {
        let mut journal = JOURNAL;
        journal[place] = byte;
        let (text, _written) = journaled(rt.alloc(), "audit conntrack", &journal, None)?;
        assert_eq!(rt; text.items(), wanted.as_bytes());
    }
    Ok(())
}

#[test]
fn a_journal_that_cannot_be_written_leaves_no_report(rt: HostRuntime) -> Result<(), Fail> {
    let failing = Some(Role::JournalOut);
    let (text, _written) = journaled(rt.alloc(), "sim conntrack", b"", failing)?;
    assert_eq!(rt;
        text.items(),
        b"5||opennf: write fault journal\n".as_slice()
    );
    Ok(())
}
