ghost use Rattle.std.specs.Prelude.{◌≡◌, ◌++◌, ◌==◌, ℕ, All, IsSome, List, find, map, IfOk, OnOk};
ghost use Rattle.trace_reader.specs.Records.{AreNumbered};
ghost use Rattle.nf_msgs.specs.declared.msg.Msg.{Msg as AMessage};
ghost use Rattle.nf_msgs.specs.declared.note.Note.{Note as ANote};
ghost use Rattle.actor_net.specs.Network.{Network};
ghost use Rattle.net_world.specs.declared.node.Node.{Node as ANode};
ghost use Rattle.net_world.specs.Input.{packets};
ghost use Rattle.net_world.specs.Jobs.{job_of};
ghost use Rattle.standby_failover.specs.Failover.{HasCaughtUp, IsLeft, IsPromoted, failover_of};
ghost use Rattle.standby_failover.specs.Stepping.{after_packets, packet_among};

use crate::packets::packet_at;
use crate::promoted::Promoted;
use basics::NoMemory;
use flow_filter::{CapturedPacket, Packets, Site};
use net_world::Config;
use nf_function::Function;
use record_table::Table;

/// The records once each affected unit has caught up: they are stepped, live, on the lost packets in the order in which these were
/// processed, and then on those that are pending.
pub fn catch_up<F: Function>(
    promoted: Promoted<F>,
    config: &Config,
    trace: &Packets,
) -> Result<Table<F>, NoMemory>
    requires numbered { AreNumbered 1 trace.now }
    requires known { All (λ n. IsSome (find (λ p. p.number == n) trace.now)) (promoted.order ++ promoted.pending) }
    ensures live { IfOk result (λ table. table.live
        ≡ after_packets F.semantics config.now.site promoted.table.live (map (packet_among trace.now) (promoted.order ++ promoted.pending))) }
    ensures standby { IfOk result (λ table. table.standby ≡ promoted.table.standby) }

    // With what was promoted in a world of a run, and the packets of its input.
    ensures caught { (items : List AMessage) (world : Network (ANode F.row.Denot F.Record) AMessage ANote) (failed to : ℕ)
        → let x = failover_of (job_of F.semantics config.now items) world failed to in
        IsLeft x → IsPromoted x promoted → packets items ≡ trace.now → IfOk result (HasCaughtUp x) }
{
    let Promoted {
        mut table,
        order,
        pending,
        ..
    } = promoted;
    step_both(
        &mut table,
        &config.site,
        trace.items(),
        order.items(),
        pending.items(),
    )?;
    Ok(table)
}

/// Steps live records on packets, by their numbers in one list and then in another.
fn step_both<F: Function>(
    table: &mut Table<F>,
    site: &Site,
    packets: &[CapturedPacket],
    first: &[u32],
    second: &[u32],
) -> Result<(), NoMemory>
    requires numbered { AreNumbered 1 packets.now }
    requires known { All (λ n. IsSome (find (λ p. p.number == n) packets.now)) (first.now ++ second.now) }
    ensures live { OnOk result
        (table.new.live ≡ after_packets F.semantics site.now table.old.live (map (packet_among packets.now) (first.now ++ second.now))) }
    ensures standby { OnOk result (table.new.standby ≡ table.old.standby) }
{
    step_all(table, site, packets, first)?;
    step_all(table, site, packets, second)
}

/// Steps live records on packets, by their numbers.
fn step_all<F: Function>(
    table: &mut Table<F>,
    site: &Site,
    packets: &[CapturedPacket],
    numbers: &[u32],
) -> Result<(), NoMemory>
    requires numbered { AreNumbered 1 packets.now }
    requires known { All (λ n. IsSome (find (λ p. p.number == n) packets.now)) numbers.now }
    ensures live { OnOk result (table.new.live ≡ after_packets F.semantics site.now table.old.live (map (packet_among packets.now) numbers.now)) }
    ensures standby { OnOk result (table.new.standby ≡ table.old.standby) }
{
    for number in numbers {
        let Some(packet) = packet_at(packets, *number) else {
            unreachable!();
        };
        table.step(site, &packet, true)?;
    }
    Ok(())
}
