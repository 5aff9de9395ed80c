//! The configuration and the input of a run, made of the words' values, the script and the packets.
ghost use Rattle.std.specs.Prelude.{◌≡◌, ◌<◌, ◌≤◌, ◌^◌, true, All, length, map, IfOk};
ghost use Rattle.nf_function.specs.Units.{is_transport};
ghost use Rattle.trace_reader.specs.Records.{AreNumbered};
ghost use Rattle.op_script.specs.Reading.{script_view};
ghost use Rattle.op_script.specs.Printing.{IsScript, SplitsNone};
ghost use Rattle.op_script.specs.Items.{items};
ghost use Rattle.net_world.specs.Input.{IsInput, ends_last};
ghost use Rattle.net_world.specs.Length.{IsShort};
ghost use Rattle.command_words.specs.Values.{names_of};
ghost use Rattle.run_input.specs.Settings.{config_of};
ghost use Rattle.flow_filter.specs.Limits.{most_packets};

use crate::setting::Setting;
use basics::NoMemory;
use command_words::InstanceWords;
use flow_filter::{Filter, Sequence};
use net_world::Config;
use nf_msgs::Msg;
use op_script::{PacketItems, Script, items};
use std::alloc::Global;

/// The configuration and the input of a run.
pub fn input_of(
    alloc: Global,
    setting: &Setting<'_>,
    script: &Script,
    packets: PacketItems,
) -> Result<(Config, Vec<Msg>), NoMemory>
    requires script { IsScript (names_of setting.now.instances.now.rows.items) (script_view script.now) }
    requires whole { SplitsNone setting.now.kind (script_view script.now) }
    requires numbers { AreNumbered 1 packets }
    requires steered { All (λ packet. is_transport packet.proto ≡ true) packets }
    ensures config { IfOk result (λ made. made.0 ≡ config_of setting.now script.now.routes.items) }
    ensures items { IfOk result (λ made. made.1.items ≡ items packets script.now.lines.items) }
    ensures input { IfOk result (λ made. IsInput setting.now.kind made.0 made.1.items) }
    ensures last { IfOk result (λ made. ends_last made.1.items ≡ true) }
    ensures short { length packets ≤ most_packets → IfOk result (λ made. IsShort made.1.items) }
{
    let config = config_of(alloc, *setting, script.routes.as_slice())?;
    let items = items(alloc, packets, script)?;
    Ok((config, items))
}

/// What the network is made of: what the words say, and the routes.
fn config_of(
    alloc: Global,
    setting: Setting<'_>,
    routes: &[(Filter, u8)],
) -> Result<Config, NoMemory>
    ensures config { IfOk result (λ config. config ≡ config_of setting.entry routes.now) }
    ensures site { setting.entry.site.inside.bits < 2 ^ 32 }
{
    let rows = setting.instances.rows.as_slice();
    Ok(Config {
        names: setting.instances.names(alloc)?,
        limits: Sequence::from_vec(limits_of(alloc, rows)?),
        marked: Sequence::from_vec(old_readers(alloc, rows)?),
        site: setting.site,
        window: setting.window,
        routes: Sequence::from_vec(Vec::from_slice(alloc, routes)?),
    })
}

/// How many records each instance takes.
fn limits_of(alloc: Global, rows: &[InstanceWords]) -> Result<Vec<u32>, NoMemory>
    ensures { IfOk result (λ limits. limits.items ≡ map (λ row. row.limit) rows.now) }
{
    rows.iter().map(|row| row.limit).collect(alloc)
}

/// Which instances read chunks of version 1 alone.
fn old_readers(alloc: Global, rows: &[InstanceWords]) -> Result<Vec<bool>, NoMemory>
    ensures { IfOk result (λ old. old.items ≡ map (λ row. row.reads_old) rows.now) }
{
    rows.iter().map(|row| row.reads_old).collect(alloc)
}
