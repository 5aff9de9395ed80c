//! Tests of failovers in the run that a journal tells.
ghost use Rattle.std.specs.Prelude.{◌≡◌, ◌≤◌, None};
ghost use Rattle.nf_io.specs.declared.outside.Role.{Role as TheRole};
ghost use Rattle.nf_io.specs.Memory.{seen_in};

use crate::tests::common::{HEADER, RECORD, outcome_of, outside_of, told};
use actor_net::{Choice, Choices};
use basics::{NoMemory, Text};
use nf_io::{MemoryOutside, Role};
use std::alloc::Global;
use std::test::Fail;

/// What comes before the choices of a journal of the tracker and two instances, up to the last byte of their number.
static FRONT: [u8; 15] = [b'O', b'N', b'F', b'J', 0, 1, 1, 2, 0, 0, 0, 0, 0, 0, 0];

/// Puts a journal of choices, each a node and its port, into an outside.
fn put_journal(choices: &[u8], outside: &mut MemoryOutside) -> Result<(), NoMemory>
    ensures { (role : TheRole) → (seen_in outside.new role).name ≡ (seen_in outside.old role).name }
{
    outside.put(Role::JournalIn, &FRONT)?;
    outside.put(Role::JournalIn, &[(choices.len() / 2 % 256) as u8])?;
    outside.put(Role::JournalIn, choices)
}

/// A record without a time, of the same packet of 10.0.0.1 as [`RECORD`].
fn untimed() -> [u8; 64] {
    let mut record = RECORD;
    record[0] = 0;
    record
}

/// What is seen of the command for so many such packets, three at most, a script, a journal and the words after `--failed`, and its choices.
fn failed(
    alloc: Global,
    packets: usize,
    script: &str,
    choices: &[u8],
    more: &str,
) -> Result<(Text, Choices), NoMemory>
    requires { packets ≤ 3 }
{
    let record = untimed();
    let pieces: [&[u8]; 4] = [&HEADER, &record, &record, &record];
    let mut outside = outside_of(alloc, &pieces[..packets + 1])?;
    failed_over(alloc, script, choices, more, &mut outside)
}

/// The same over an outside with the capture.
fn failed_over(
    alloc: Global,
    script: &str,
    choices: &[u8],
    more: &str,
    outside: &mut MemoryOutside,
) -> Result<(Text, Choices), NoMemory>
    requires { (role : TheRole) → (seen_in outside.old role).name ≡ None }
{
    outside.put(Role::Script, script.as_bytes())?;
    put_journal(choices, outside)?;
    let line = format!(in alloc;
        "opennf fail conntrack --instances a,b --inside 10.0.0.0/24 --journal J T S --failed {more}"
    )?;
    let outcome = outcome_of(alloc, line.as_str(), outside)?;
    let text = told(alloc, &outcome, outside)?;
    Ok((text, outcome.choices))
}

/// A copy is done after the first of three packets, the second is processed, and the third has come.
static COPIED: [u8; 28] = [
    0, 0, 2, 0, 0, 2, 0, 0, 1, 0, 2, 1, 1, 2, 3, 1, 1, 3, 0, 1, 0, 0, 0, 0, 2, 0, 0, 0,
];

#[test]
fn a_copy_lags_by_one_packet_and_another_is_open(rt: HostRuntime) -> Result<(), Fail> {
    let script = "at 1 copy a b any\nat 1 settle\n";
    let more = "a --to b --after 14";
    let (text, choices) = failed(rt.alloc(), 3, script, &COPIED, more)?;
    let wanted =
        "0|opennf failover 1\nfunction conntrack instances 2 window 256\ntrace packets 3 skipped 0 whole\nfail a after 14\n\
         promote udp 10.0.0.1:5000 192.0.2.9:53 to b single out packets 1 bytes 20\nlost 2\nopen 3\n\
         caught udp 10.0.0.1:5000 192.0.2.9:53 b single out packets 3 bytes 60\nend\n|";
    assert_eq!(rt; text.items(), wanted.as_bytes());
    assert_eq!(rt; choices.len(), 14);
    Ok(())
}

#[test]
fn the_choices_are_the_first_of_the_journal(rt: HostRuntime) -> Result<(), Fail> {
    let more = "a --to b --after 2";
    let (text, choices) = failed(rt.alloc(), 1, "", &[0, 0, 2, 0, 3, 0], more)?;
    let wanted =
        "0|opennf failover 1\nfunction conntrack instances 2 window 256\ntrace packets 1 skipped 0 whole\nfail a after 2\n\
         gone udp 10.0.0.1:5000 192.0.2.9:53\nlost 1\n\
         caught udp 10.0.0.1:5000 192.0.2.9:53 b single out packets 1 bytes 20\nend\n|";
    assert_eq!(rt; text.items(), wanted.as_bytes());
    let taken = [Choice { node: 0, port: 0 }, Choice { node: 2, port: 0 }];
    assert_eq!(rt; choices.to_vec(rt.alloc())?.as_slice(), taken.as_slice());
    Ok(())
}

/// Choices of journals and words that come to a bad end, and what is seen of them.
static BAD_ENDS: [([u8; 4], &str, &str); 5] = [
    (
        [0, 0, 2, 0],
        "a --to b --after 3",
        "3||opennf: not a run at step 3\n",
    ),
    (
        [0, 0, 3, 0],
        "a --to b --after 2",
        "3||opennf: not a run at step 2\n",
    ),
    ([0, 0, 2, 0], "a --to a --after 2", "1||opennf: bad words\n"),
    ([0, 0, 2, 0], "a --to c --after 2", "1||opennf: bad words\n"),
    (
        [0, 0, 2, 0],
        "a --to b --after 2 --summary",
        "1||opennf: bad words\n",
    ),
];

#[test]
fn each_bad_end_of_a_failover_has_its_line(rt: HostRuntime) -> Result<(), Fail> {
    for (choices, more, wanted) in BAD_ENDS {
        let (text, taken) = failed(rt.alloc(), 1, "", &choices, more)?;
        assert_eq!(rt; text.items(), wanted.as_bytes());
        assert_eq!(rt; taken.len(), 0);
    }
    Ok(())
}
