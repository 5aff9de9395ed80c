//! Tests of the command `gen`.
ghost use Rattle.std.specs.Prelude.{◌≡◌, ◌≤◌, None};
ghost use Rattle.nf_io.specs.declared.outside.Role.{Role as TheRole};
ghost use Rattle.nf_io.specs.Memory.{seen_in};

use crate::tests::common::{outside_of, seen_beside};
use basics::{NoMemory, Text};
use nf_io::{MemoryOutside, Role};
use std::alloc::Global;
use std::test::Fail;

/// The capture of 3 packets and one host that is drawn from 7, as `bench/make_capture.py` makes it: a TCP packet with SYN that comes in, a UDP
/// packet that goes out, and one that comes in.
static CAPTURE: [u8; 168] = [
    0xd4, 0xc3, 0xb2, 0xa1, 2, 0, 4, 0, 0, 0, 0, 0, 0, 0, 0, 0, 0xff, 0xff, 0, 0, 101, 0, 0, 0, //
    0, 0, 0, 0, 0xe8, 3, 0, 0, 40, 0, 0, 0, 0xf3, 1, 0, 0, //
    0x45, 0, 1, 0xf3, 0, 0, 0, 0, 0x40, 6, 0, 0, 192, 0, 2, 50, 10, 0, 0, 0, //
    1, 0xbb, 0x9c, 0x72, 0, 0, 0, 0, 0, 0, 0, 0, 0x50, 2, 0, 0, 0, 0, 0, 0, //
    0, 0, 0, 0, 0xd0, 7, 0, 0, 28, 0, 0, 0, 104, 0, 0, 0, //
    0x45, 0, 0, 104, 0, 0, 0, 0, 0x40, 17, 0, 0, 10, 0, 0, 0, 192, 0, 2, 60, //
    0xc3, 0x8c, 0, 53, 0, 84, 0, 0, //
    0, 0, 0, 0, 0xb8, 11, 0, 0, 28, 0, 0, 0, 180, 0, 0, 0, //
    0x45, 0, 0, 180, 0, 0, 0, 0, 0x40, 17, 0, 0, 192, 0, 2, 49, 10, 0, 0, 0, //
    0, 53, 0xc3, 0x81, 0, 160, 0, 0,
];

/// What is seen of the command that makes it, and the capture that was written, where one write to a role fails, if the number of that write isn't 0,
/// and each write takes at most `most` bytes.
fn made(alloc: Global, role: Role, failing: u64, most: usize) -> Result<(Text, Text), NoMemory>
    requires { 1 ≤ most }
{
    let mut outside = outside_of(alloc, &[])?;
    outside.piece(most);
    made_over(alloc, role, failing, &mut outside)
}

/// The same over an outside where that write is made to fail.
fn made_over(
    alloc: Global,
    role: Role,
    failing: u64,
    outside: &mut MemoryOutside,
) -> Result<(Text, Text), NoMemory>
    requires { (role : TheRole) → (seen_in outside.old role).name ≡ None }
{
    outside.fail(role, failing)?;
    let line = "opennf gen 7 --packets 3 --hosts 1 T";
    seen_beside(alloc, line, outside, Role::TraceOut)
}

#[test]
fn the_capture_and_its_line_are_written(rt: HostRuntime) -> Result<(), Fail> {
    let (text, capture) = made(rt.alloc(), Role::Report, 0, usize::MAX)?;
    assert_eq!(rt; capture.items(), CAPTURE.as_slice());
    assert_eq!(rt;
        text.items(),
        b"0|gen number 7 packets 3 hosts 1\n|".as_slice()
    );
    Ok(())
}

#[test]
fn a_capture_that_cannot_be_written_leaves_a_front(rt: HostRuntime) -> Result<(), Fail> {
    let (text, capture) = made(rt.alloc(), Role::TraceOut, 3, 30)?;
    assert_eq!(rt; capture.items(), &CAPTURE[..54]);
    assert_eq!(rt;
        text.items(),
        b"5||opennf: write fault capture\n".as_slice()
    );
    Ok(())
}
