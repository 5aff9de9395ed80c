//! The tracker's table: its steps, and its chunks.
ghost use Rattle.std.specs.Prelude.{◌<◌, ◌≤◌};
ghost use Rattle.speed_parts.specs.Draws.{most_size};

use crate::draws::{SITE, drawn_packet, numbered_flow};
use crate::fault::Fault;
use crate::words::MOST_SIZE;
use basics::NoMemory;
use conn_tracker::Conntrack;
use flow_filter::Filter;
use rand_core::SeedableRng;
use rand_core::utils::NextWord;
use rand_xoshiro::SplitMix64;
use record_table::Table;
use std::alloc::Global;

/// The flows with the local port 1024, which are a tenth of all.
const TENTH: Filter = Filter {
    proto: None,
    local: None,
    lport: Some(1024),
    remote: None,
    rport: None,
};

/// The sum of the outputs' codes where a table with so many flows steps so many packets of them.
pub fn step_packets(alloc: Global, flows: u32, packets: u64) -> Result<u64, Fault>
    requires { (0 < flows) × (flows ≤ most_size) }
{
    let mut table = filled(alloc, flows)?;
    let mut words = SplitMix64::seed_from_u64(7);
    let mut sum: u64 = 0;
    for _packet in 0..packets {
        let word = words.next_word();
        let number = (word % u64::from(flows)) as u32;
        let packet = drawn_packet(numbered_flow(number), word / 0x1_0000_0000);
        let stepped = table.step(&SITE, &packet, true)?;
        sum = sum.wrapping_add(u64::from(stepped.output.code));
    }
    Ok(sum)
}

/// How many chunks come where those of a tenth of so many flows are selected so many times.
pub fn select_chunks(alloc: Global, flows: u32, times: u64) -> Result<u64, Fault>
    requires { flows ≤ most_size }
{
    let table = filled(alloc, flows)?;
    let mut sum: u64 = 0;
    for _time in 0..times {
        let chunks = table.select(&TENTH)?;
        sum = sum.wrapping_add(chunks.items().len() as u64);
    }
    Ok(sum)
}

/// How many records new tables have, where each takes such chunks in.
pub fn import_chunks(alloc: Global, flows: u32, times: u64) -> Result<u64, Fault>
    requires { flows ≤ most_size }
{
    let table = filled(alloc, flows)?;
    let mut sum: u64 = 0;
    for _time in 0..times {
        sum = sum.wrapping_add(u64::from(taken_in(alloc, &table)?));
    }
    Ok(sum)
}

/// How many records a new table has after it took the chunks of such flows in.
fn taken_in(alloc: Global, table: &Table<Conntrack>) -> Result<u32, Fault> {
    let chunks = table.select(&TENTH)?;
    let Ok(total) = u32::try_from(chunks.items().len()) else {
        return Err(Fault::Refused);
    };
    let mut new: Table<Conntrack> = Table::open(alloc);
    match new.import(chunks, total, MOST_SIZE) {
        Ok(()) => Ok(new.live_count()),
        Err(_) => Err(Fault::Refused),
    }
}

/// A table with the records of so many flows, each after one packet.
fn filled(alloc: Global, flows: u32) -> Result<Table<Conntrack>, NoMemory>
    requires { flows ≤ most_size }
{
    let mut table: Table<Conntrack> = Table::open(alloc);
    for number in 0..flows {
        table.step(&SITE, &drawn_packet(numbered_flow(number), 1), true)?;
    }
    Ok(table)
}
