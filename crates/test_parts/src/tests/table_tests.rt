//! Tests of an instance's records: which imports are refused, and what is then live or stands by.
use basics::NoMemory;
use conn_tracker::{Conntrack, State, TrackRecord};
use flow_filter::{Direction, Filter, Flow};
use nf_function::{Chunk, ChunkBytes, Chunks, Packed, Scope, ShortBody, Unit, Units};
use record_table::{ImportFault, Table};
use std::alloc::Global;
use std::process::Abort;
use std::test::Fail;
use test_packets::{FLOW, SITE, packet};

/// The unit of the packets of the host 10.0.0.H.
fn unit(host: u8) -> Unit {
    Unit::Flow(Flow {
        local: SITE.inside.bits + u32::from(host),
        ..FLOW
    })
}

/// The record that so many of these packets leave.
fn record(packets: u64) -> TrackRecord {
    TrackRecord {
        packets,
        bytes: packets.saturating_mul(20),
        seen: 0,
        state: State::Single,
        opener: Direction::Out,
    }
}

/// A table whose live records are those that packets of these hosts leave.
fn table(alloc: Global, hosts: &[u8]) -> Result<Table<Conntrack>, NoMemory> {
    let mut table = Table::open(alloc);
    for host in hosts {
        step_on(&mut table, *host)?;
    }
    Ok(table)
}

/// Steps a table on a packet of a host.
fn step_on(table: &mut Table<Conntrack>, host: u8) -> Result<(), NoMemory> {
    table.step(&SITE, &packet(1, host, 5000), true)?;
    Ok(())
}

/// The chunks of the records that packets of these hosts leave.
fn chunks(alloc: Global, hosts: &[u8]) -> Result<Chunks, NoMemory> {
    table(alloc, hosts)?.select(&Filter::ANY)
}

/// The live record of a host's unit, or else the one that stands by.
fn found(table: &Table<Conntrack>, host: u8, live: bool) -> Option<TrackRecord> {
    table.record(&unit(host), live).copied()
}

/// The three numbers of a refusal by the limit, and zeros for another refusal.
fn refused(taken: Result<(), ImportFault>) -> Option<(u32, u32, u32)> {
    let fault = taken.err()?;
    let numbers = numbers_of(&fault);
    drop(fault);
    Some(numbers)
}

fn numbers_of(fault: &ImportFault) -> (u32, u32, u32) {
    match fault {
        ImportFault::Limit {
            held,
            coming,
            limit,
            ..
        } => (*held, *coming, *limit),
        _ => (0, 0, 0),
    }
}

/// The refusal of the chunks of these hosts, of so many that are to come.
fn imported(
    alloc: Global,
    kept: &mut Table<Conntrack>,
    hosts: &[u8],
    total: u32,
    limit: u32,
) -> Result<Option<(u32, u32, u32)>, Fail> {
    let coming = chunks(alloc, hosts)?;
    if coming.items().len() != hosts.len() || coming.items().len() > total as usize {
        return Err("other chunks".into());
    }
    Ok(refused(kept.import(coming, total, limit)))
}

#[test]
fn chunks_come_where_all_that_are_to_come_have_room(rt: HostRuntime) -> Result<(), Fail> {
    let mut kept = table(rt.alloc(), &[1, 2])?;
    assert_imported(&rt, rt.alloc(), &mut kept)
}

/// Asserts which chunks a table with records of the hosts 1 and 2 takes in.
fn assert_imported(
    rt: &impl Abort,
    alloc: Global,
    kept: &mut Table<Conntrack>,
) -> Result<(), Fail> {
    assert_eq!(rt; imported(alloc, kept, &[3, 4, 5], 3, 4)?, Some((2, 3, 4)));
    assert_eq!(rt; imported(alloc, kept, &[3], 4, 5)?, Some((2, 4, 5)));
    assert_eq!(rt; kept.live_count(), 2);
    assert_eq!(rt; imported(alloc, kept, &[3, 4, 5], 3, 5)?, None);
    assert_eq!(rt;
        kept.units(true)?.items(),
        [unit(1), unit(2), unit(3), unit(4), unit(5)].as_slice()
    );
    Ok(())
}

/// A chunk that holds the numbers of the record that the first packet of a flow leaves.
fn first_record(alloc: Global, flow: Flow) -> Result<Chunks, NoMemory> {
    let mut chunks = Chunks::open(alloc);
    let body = ShortBody {
        third: 1,
        fourth: 20,
        last: 0,
        first: 8,
        second: 0,
    };
    chunks.push(Chunk {
        scope: Scope::PerFlow,
        unit: Some(Unit::Flow(flow)),
        bytes: ChunkBytes::packed(Packed {
            body,
            flow,
            version: 1,
            kind: 1,
            scope: 1,
        }),
    })?;
    Ok(chunks)
}

/// Whether a table refuses chunks, the first of them as a bad one.
fn is_bad(taken: Result<(), ImportFault>) -> bool {
    matches!(taken, Err(ImportFault::Bad { index: 0, .. }))
}

#[test]
fn a_chunk_of_numbers_is_taken_or_refused_as_its_bytes_are(rt: HostRuntime) -> Result<(), Fail> {
    let mut kept = table(rt.alloc(), &[2])?;
    let ping = first_record(rt.alloc(), Flow { proto: 1, ..FLOW })?;
    let coming = first_record(rt.alloc(), FLOW)?;
    assert!(rt; is_bad(kept.restore(ping)));
    assert!(rt; !is_bad(kept.restore(coming)));
    assert_eq!(rt;
        kept.record(&Unit::Flow(FLOW), true).copied(),
        Some(record(1))
    );
    Ok(())
}

#[test]
fn a_newer_live_record_stays_and_an_older_one_goes(rt: HostRuntime) -> Result<(), Fail> {
    let coming = chunks(rt.alloc(), &[1, 2, 2])?;
    let mut kept = table(rt.alloc(), &[1, 1, 2])?;
    assert_newest(&rt, &mut kept, coming);
    Ok(())
}

/// Asserts that a table with two packets of host 1 and one of host 2 keeps the newest records.
fn assert_newest(rt: &impl Abort, kept: &mut Table<Conntrack>, coming: Chunks) {
    assert_eq!(rt; refused(kept.restore(coming)), None);
    assert_eq!(rt; found(kept, 1, true), Some(record(2)));
    assert_eq!(rt; found(kept, 2, true), Some(record(2)));
}

#[test]
fn records_that_stand_by_are_apart(rt: HostRuntime) -> Result<(), Fail> {
    let alloc = rt.alloc();
    let coming = chunks(alloc, &[1, 1, 2])?;
    let mut kept = table(alloc, &[1])?;
    assert_apart(&rt, &mut kept, coming);
    Ok(())
}

/// Asserts that a table with a record of host 1 keeps it where it lets chunks of later records stand by.
fn assert_apart(rt: &impl Abort, kept: &mut Table<Conntrack>, coming: Chunks) {
    assert_eq!(rt; refused(kept.set_standby(coming)), None);
    assert_eq!(rt; found(kept, 1, true), Some(record(1)));
    assert_eq!(rt; found(kept, 1, false), Some(record(2)));
    assert_eq!(rt; found(kept, 2, true), None);
}

#[test]
fn units_are_selected_in_order_and_removed(rt: HostRuntime) -> Result<(), Fail> {
    let mut kept = table(rt.alloc(), &[9, 2, 5])?;
    assert_selected(&rt, &kept)?;
    assert_removed(&rt, rt.alloc(), &mut kept)
}

/// Asserts that a table has live records of the hosts 2, 5 and 9, and gives them in this order.
fn assert_selected(rt: &impl Abort, table: &Table<Conntrack>) -> Result<(), NoMemory> {
    assert_eq!(rt; table.select(&Filter::ANY)?.items().len(), 3);
    assert_eq!(rt;
        table.units(true)?.items(),
        [unit(2), unit(5), unit(9)].as_slice()
    );
    Ok(())
}

/// Asserts that the record of host 5 can be removed, and that two are left.
fn assert_removed(
    rt: &impl Abort,
    alloc: Global,
    table: &mut Table<Conntrack>,
) -> Result<(), Fail> {
    assert_eq!(rt; removed(alloc, table, unit(5))?, 1);
    assert_eq!(rt; table.live_count(), 2);
    Ok(())
}

/// How many live records are removed where those of one unit are.
fn removed(alloc: Global, table: &mut Table<Conntrack>, unit: Unit) -> Result<u32, NoMemory> {
    let mut gone = Units::open(alloc);
    gone.push(unit)?;
    Ok(table.remove(&gone))
}
