//! What several of these tests use: packets, and the report of a run.
ghost use Rattle.std.specs.Prelude.{◌≡◌, All, IfOk, length, map};
ghost use Rattle.std.specs.List.{range_with_len};
ghost use Rattle.net_world.specs.Input.{IsSteered};

use actor_net::World;
use basics::{NoMemory, Text};
use conn_tracker::Conntrack;
use flow_filter::{ACK, Packets, SYN, Site};
use nf_function::Kind;
use std::alloc::Global;
use std::test::Fail;
use strong_share::{StrongHead, StrongNode, report_strong};
use test_packets::{outward, reverse, two_names};
use test_scenes::captured;

/// The three packets by which a connection is set up.
pub fn handshake(alloc: Global, site: Site) -> Result<Packets, NoMemory>
    ensures steered { IfOk result (All (IsSteered site)) }
    ensures numbers { IfOk result (λ packets. map (λ p. p.number) packets ≡ range_with_len 1 (length packets)) }
{
    let mut packets = Packets::open(alloc);
    packets.push(captured(alloc, site, outward(1, SYN))?)?;
    packets.push(captured(alloc, site, reverse(outward(2, SYN | ACK)))?)?;
    packets.push(captured(alloc, site, outward(3, ACK))?)?;
    Ok(packets)
}

/// So many packets that the host inside sends.
pub fn sent(alloc: Global, site: Site, count: u32) -> Result<Packets, NoMemory>
    ensures steered { IfOk result (All (IsSteered site)) }
    ensures numbers { IfOk result (λ packets. map (λ p. p.number) packets ≡ range_with_len 1 (length packets)) }
{
    let mut packets = Packets::open(alloc);
    for before in 0..count {
        packets.push(captured(alloc, site, outward(before + 1, ACK))?)?;
    }
    Ok(packets)
}

/// The report of a world with the members a and b.
pub fn reported(
    alloc: Global,
    window: u32,
    packets: u32,
    world: &World<StrongNode<Conntrack>>,
) -> Result<Text, Fail> {
    let (a, b) = two_names(alloc, b'b')?;
    let head = StrongHead {
        kind: Kind::Conntrack,
        names: Vec::from_array(alloc, [a, b])?,
        window,
        packets,
        skipped: 0,
        cut: false,
    };
    Ok(report_strong(alloc, &head, world)?)
}
