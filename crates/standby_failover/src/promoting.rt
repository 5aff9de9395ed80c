//! What stands by where an instance fails: the records that are promoted, and the packets that they lack.
ghost use Rattle.std.specs.Prelude.{◌≡◌, ◌≢◌, ◌<◌, ◌⊎◌, ◌++◌, ◌==◌, ℕ, All, IsSome, find, length, take, IfOk, MatchResult};
ghost use Rattle.trace_reader.specs.Records.{AreNumbered};
ghost use Rattle.net_world.specs.Input.{packets, IsInput};
ghost use Rattle.net_world.specs.Jobs.{job_of};
ghost use Rattle.net_world.specs.Start.{started_with};
ghost use Rattle.net_world.specs.Tables.{table_at};
ghost use Rattle.standby_failover.specs.Causes.{IsFailCause, IsReached, first_of, world_after};
ghost use Rattle.standby_failover.specs.Failover.{Failover, IsLeft, IsPromoted, failover_of};
ghost use Rattle.standby_failover.specs.Scenes.{AreAffected};

use crate::packets::packets_of;
use crate::promoted::{Failing, Promoted};
use crate::replay::{table_of, world_after};
use crate::scene::{Affected, Scene};
use actor_net::Choices;
use basics::NoMemory;
use flow_filter::Packets;
use net_world::{Config, into_table, log_of};
use nf_function::Function;
use nf_msgs::Msg;
use nf_net::AuditFault;
use record_table::Table;
use std::alloc::Global;

/// What is left where an instance of a network fails after the first so many choices, and another takes over. Of the choices these alone are then left;
/// where it fails, these or all of them.
///
/// The instances go by their places among the names. A unit whose record is on its way in a message isn't affected.
pub fn promote<F: Function>(
    alloc: Global,
    config: &Config,
    items: Vec<Msg>,
    choices: &mut Choices,
    after: u64,
    failed: u8,
    to: u8,
) -> Result<Promoted<F>, AuditFault>
    requires input { IsInput F.semantics.kind config.now items.items }
    requires numbered { AreNumbered 1 (packets items.items) }
    requires failed { failed < length config.now.names }
    requires to { to < length config.now.names }
    requires two { failed ≢ to }
    ensures reached { IfOk result (λ _. IsReached {F = F.row.Denot} F.semantics (started_with alloc config.now items.items) (first_of choices.old after)) }

    // What the words of the next clause speak of: the records that stand by are those of so many packets, and of no other number of them.
    ensures left { let world = world_after F.semantics (started_with alloc config.now items.items) (first_of choices.old after) in
        IfOk result (λ _. IsLeft {F = F.row.Denot} (failover_of (job_of F.semantics config.now items.items) world failed to)) }
    ensures promoted { let world = world_after F.semantics (started_with alloc config.now items.items) (first_of choices.old after) in
        IfOk result (IsPromoted {F = F.row.Denot} (failover_of (job_of F.semantics config.now items.items) world failed to)) }

    // What [`crate::catch_up`] asks: the numbers are those of packets of the input.
    ensures known { IfOk result (λ promoted. All (λ n. IsSome (find (λ p. p.number == n) (packets items.items))) (promoted.order ++ promoted.pending)) }
    ensures choices { MatchResult result (λ _. choices.new ≡ take after choices.old)
        (λ _. (choices.new ≡ choices.old) ⊎ (choices.new ≡ take after choices.old)) }
    ensures not_a_run { (step : ℕ) → result ≡ Err (AuditFault.NotARun step)
        → IsFailCause {F = F.row.Denot} F.semantics (started_with alloc config.now items.items) (first_of choices.old after) step }
{
    let trace = packets_of(alloc, items.as_slice())?;
    let failing = Failing { failed, to, after };
    promote_with(alloc, config, items, &trace, choices, &failing)
}

/// The same, where the packets of the input are at hand. Of the choices the first so many are left in every case.
pub fn promote_with<F: Function>(
    alloc: Global,
    config: &Config,
    items: Vec<Msg>,
    trace: &Packets,
    choices: &mut Choices,
    failing: &Failing,
) -> Result<Promoted<F>, AuditFault>
    requires input { IsInput F.semantics.kind config.now items.items }
    requires trace { trace.now ≡ packets items.items }
    requires numbered { AreNumbered 1 trace.now }
    requires failed { failing.now.failed < length config.now.names }
    requires to { failing.now.to < length config.now.names }
    requires two { failing.now.failed ≢ failing.now.to }
    ensures reached { IfOk result
        (λ _. IsReached {F = F.row.Denot} F.semantics (started_with alloc config.now items.items) (first_of choices.old failing.now.after)) }
    ensures left { let world = world_after F.semantics (started_with alloc config.now items.items) (first_of choices.old failing.now.after) in
        IfOk result (λ _. IsLeft {F = F.row.Denot} (failover_of (job_of F.semantics config.now items.items) world failing.now.failed failing.now.to)) }
    ensures promoted { let world = world_after F.semantics (started_with alloc config.now items.items) (first_of choices.old failing.now.after) in
        IfOk result (IsPromoted {F = F.row.Denot} (failover_of (job_of F.semantics config.now items.items) world failing.now.failed failing.now.to)) }
    ensures known { IfOk result (λ promoted. All (λ n. IsSome (find (λ p. p.number == n) (packets items.items))) (promoted.order ++ promoted.pending)) }
    ensures choices { choices.new ≡ take failing.now.after choices.old }
    ensures not_a_run { (step : ℕ) → result ≡ Err (AuditFault.NotARun step)
        → IsFailCause {F = F.row.Denot} F.semantics (started_with alloc config.now items.items) (first_of choices.old failing.now.after) step }
{
    let world = world_after::<F>(alloc, config, items, choices, failing.after)?;
    let scene = Scene {
        site: config.site,
        packets: trace.items(),
        log: log_of(&world),
        failed: table_of(&world, failing.failed),
        to: table_of(&world, failing.to),
    };
    let affected = scene.affected(alloc);
    let table = into_table(world, failing.to)?;
    let affected = affected?;
    let promoted = promoted_from(table, affected)?;
    Ok(promoted)
}

/// What is promoted at an instance with these records, by the affected units and their packets.
fn promoted_from<F: Function>(table: Table<F>, affected: Affected) -> Result<Promoted<F>, NoMemory>
    ensures { (x : Failover F.row.Denot F.Record) → table ≡ table_at x.world x.to → IsLeft x → x.failed ≢ x.to → AreAffected x affected
        → IfOk result (IsPromoted x) }
{
    let mut table = table;
    table.promote(&affected.units)?;
    let Affected {
        units,
        lost,
        pending,
        order,
    } = affected;
    Ok(Promoted {
        table,
        units,
        lost,
        pending,
        order,
    })
}
