//! Tests of `nf_function`: the tally, units in order, and numbers in stored bytes.

use basics::{Bytes, NoMemory};
use flow_filter::Flow;
use nf_function::stored::{first_u16, first_u32, first_u64, push_u16, push_u32, push_u64};
use nf_function::{Tally, Unit};
use std::test::Fail;

#[test]
fn a_tally_counts_by_instance_and_merges_by_slot(rt: HostRuntime) {
    let mut mine = Tally::zero();
    mine.count(1);
    mine.count(1);
    mine.slots[15] = u64::MAX;
    mine.count(15);
    let mut theirs = Tally::zero();
    theirs.count(0);
    theirs.count(1);
    mine.merge(&theirs);
    let mut wanted = [0; 16];
    wanted[0] = 1;
    wanted[1] = 2;
    wanted[15] = u64::MAX;
    assert_eq!(rt; mine.slots, wanted);
}

#[test]
fn numbers_are_stored_with_their_highest_byte_first(rt: HostRuntime) -> Result<(), Fail> {
    let mut bytes = Bytes::open(rt.alloc());
    push_three(&mut bytes, 0x0102, 0x0304_0506, 0x0708_090a_0b0c_0d0e)?;
    assert_eq!(rt;
        (bytes.items(), first_three(bytes.items())),
        (
            b"\x01\x02\x03\x04\x05\x06\x07\x08\x09\x0a\x0b\x0c\x0d\x0e".as_slice(),
            Some((0x0102, 0x0304_0506, 0x0708_090a_0b0c_0d0e, None))
        )
    );
    Ok(())
}

/// Stores three numbers, one after another.
fn push_three(bytes: &mut Bytes, two: u16, four: u32, eight: u64) -> Result<(), NoMemory> {
    push_u16(bytes, two)?;
    push_u32(bytes, four)?;
    push_u64(bytes, eight)
}

/// The three numbers that stand first, and what is read of two bytes after them.
fn first_three(bytes: &[u8]) -> Option<(u16, u32, u64, Option<(u16, &[u8])>)> {
    let (two, rest) = first_u16(bytes)?;
    let (four, rest) = first_u32(rest)?;
    let (eight, rest) = first_u64(rest)?;
    Some((two, four, eight, first_u16(rest)))
}

#[test]
fn units_stand_by_protocol_and_ends(rt: HostRuntime) -> Result<(), Fail> {
    let web = Flow {
        local: 9,
        remote: 1,
        lport: 1,
        rport: 1,
        proto: 6,
    };
    let lookup = Flow {
        local: 1,
        proto: 17,
        ..web
    };
    let mut units = vec![in rt.alloc(); Unit::Host(0), Unit::Flow(lookup), Unit::Flow(web)]?;
    units.sort()?;
    assert_eq!(rt;
        units.as_slice(),
        [Unit::Flow(web), Unit::Flow(lookup), Unit::Host(0)].as_slice()
    );
    Ok(())
}
