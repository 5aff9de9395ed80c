//! Reading what a run of the network is given: the script, and then the capture.
ghost use Rattle.std.specs.Prelude.{◌≡◌, ◌≤◌, ◌+◌, true, All, Some, IfOk, MatchResult, length, take, drop};
ghost use Rattle.std.specs.Option.{ForSome};
ghost use Rattle.nf_io.specs.declared.outside.Role.TheVariants.{Trace as TraceRole, Script as ScriptRole};
ghost use Rattle.nf_io.specs.Meaning.{CanRead};
ghost use Rattle.nf_io.specs.Transfers.{HasUptoCause};
ghost use Rattle.trace_reader.specs.Answers.{AnswersTrace, HasReadCause};
ghost use Rattle.flow_filter.specs.Limits.{most_instances, most_packets};
ghost use Rattle.trace_reader.specs.Records.{AreNumbered, capture_of};
ghost use Rattle.trace_reader.specs.Steered.{is_steered_proto};
ghost use Rattle.flow_filter.specs.Packet.{IsInRange};
ghost use Rattle.op_script.specs.Printing.{IsScript, SplitsNone};
ghost use Rattle.op_script.specs.Reading.{script_of, script_view};
ghost use Rattle.command_words.specs.Values.{names_of};
ghost use Rattle.command_words.specs.RequestViews.{network_view};
ghost use Rattle.call_files.specs.Phases.{CanBegin, HasInputs, HasScript, InputsBound, InputsFail, OnlyRead, ReadAlone, ScriptFails, ScriptRead, scenario_of};

use crate::status::Status;
use command_words::NetworkRequest;
use flow_filter::{Bytes, Name};
use nf_function::Kind;
use nf_io::{Outside, Role, RoleSource, UptoFault, read_upto};
use op_script::{LONGEST_SCRIPT, Script, read_script};
use run_input::CapturedItems;
use std::alloc::Global;
use trace_reader::{Trace, TraceFault, read_trace};

/// The most bytes of a script that are read, but for the one that shows that it is longer.
const MOST_BYTES: u64 = LONGEST_SCRIPT as u64;

/// What a run of the network is given.
#[derive(Drop)]
pub struct Inputs {
    pub script: Script,
    pub trace: CapturedItems,
}

/// Reads the script, if the words name one, and then the capture.
pub fn read_inputs<O: Outside>(
    alloc: Global,
    asked: &NetworkRequest<'_>,
    outside: &mut O,
) -> Result<Inputs, Status>
    requires { InputsBound (network_view asked.now) (O.seen outside.old) }
    ensures only { OnlyRead (O.seen outside.old) (O.seen outside.new) }
    ensures sound { IfOk result (λ inputs. CanBegin (network_view asked.now) (scenario_of asked.now.site inputs)) }

    // The inputs are those that are given, or the status has its cause.
    ensures given { MatchResult result
        (λ inputs. HasInputs (network_view asked.now) (O.seen outside.old) (O.seen outside.new) (scenario_of asked.now.site inputs))
        (InputsFail (network_view asked.now) (O.seen outside.old) (O.seen outside.new)) }
{
    let script = read_commands(alloc, asked, outside)?;
    let trace = read_capture(alloc, outside)?;
    Ok(Inputs { script, trace })
}

/// Reads the script, if the words name one.
fn read_commands<O: Outside>(
    alloc: Global,
    asked: &NetworkRequest<'_>,
    outside: &mut O,
) -> Result<Script, Status>
    requires { InputsBound (network_view asked.now) (O.seen outside.old) }
    ensures alone { ReadAlone ScriptRole (O.seen outside.old) (O.seen outside.new) }
    ensures right { IfOk result (λ script. IsScript (names_of asked.now.instances.rows.items) (script_view script)) }
    ensures whole { IfOk result (λ script. SplitsNone asked.now.kind (script_view script)) }

    // The script is the one that is given, or the status has its cause.
    ensures said { MatchResult result
        (λ script. HasScript (network_view asked.now) (O.seen outside.old) (O.seen outside.new) script)
        (InputsFail (network_view asked.now) (O.seen outside.old) (O.seen outside.new)) }
{
    if asked.script.is_none() {
        return Ok(Script {
            routes: Vec::new(alloc),
            lines: Vec::new(alloc),
        });
    }
    let names = asked.instances.names(alloc)?;
    read_said(alloc, asked.kind, names.items(), outside)
}

/// Reads the script, for a function and the instances with these names.
pub fn read_said<O: Outside>(
    alloc: Global,
    kind: Kind,
    names: &[Name],
    outside: &mut O,
) -> Result<Script, Status>
    requires named { CanRead ScriptRole (O.seen outside.old ScriptRole) }
    requires few { length names.now ≤ most_instances }
    ensures alone { ReadAlone ScriptRole (O.seen outside.old) (O.seen outside.new) }
    ensures right { IfOk result (λ script. IsScript names.now (script_view script)) }
    ensures whole { IfOk result (λ script. SplitsNone kind (script_view script)) }

    // The script is what its bytes are read as, or the status has its cause.
    ensures said { MatchResult result
        (ScriptRead (script_of kind names.now) (O.seen outside.old) (O.seen outside.new))
        (ScriptFails (script_of kind names.now) (O.seen outside.old) (O.seen outside.new)) }
{
    let bytes = match read_script_bytes(alloc, outside, MOST_BYTES) {
        Ok(bytes) => bytes,
        Err(fault) => return Err(Status::of_reading(Role::Script, fault)),
    };
    let script = read_script(alloc, bytes.items(), kind, names)?;
    Ok(script)
}

/// Reads the capture, for a run of the network.
pub fn read_capture<O: Outside>(alloc: Global, outside: &mut O) -> Result<CapturedItems, TraceFault>
    requires { CanRead TraceRole (O.seen outside.old TraceRole) }
    ensures trace { ForSome (O.seen outside.old TraceRole).left (λ bytes.
        AnswersTrace (capture_of bytes) (O.seen outside.new TraceRole).left result) }
    ensures numbers { IfOk result (λ trace. AreNumbered 1 trace.packets) }
    ensures steered { IfOk result (λ trace. All (λ packet. is_steered_proto packet.proto ≡ true) trace.packets) }
    ensures few { IfOk result (λ trace. length trace.packets ≤ most_packets) }
    ensures cause { HasReadCause (O.seen outside.old TraceRole).faults (O.seen outside.new TraceRole).faults result }
    ensures alone { ReadAlone TraceRole (O.seen outside.old) (O.seen outside.new) }
{
    let mut source = RoleSource {
        outside,
        role: Role::Trace,
    };
    CapturedItems::read(alloc, &mut source)
}

/// Reads the capture, for a command whose packets are its whole input.
pub fn read_packets<O: Outside>(alloc: Global, outside: &mut O) -> Result<Trace, TraceFault>
    requires { CanRead TraceRole (O.seen outside.old TraceRole) }
    ensures trace { ForSome (O.seen outside.old TraceRole).left (λ bytes.
        AnswersTrace (capture_of bytes) (O.seen outside.new TraceRole).left result) }
    ensures numbers { IfOk result (λ trace. AreNumbered 1 trace.packets) }
    ensures steered { IfOk result (λ trace. All (λ packet. is_steered_proto packet.proto ≡ true) trace.packets) }
    ensures in_range { IfOk result (λ trace. All IsInRange trace.packets) }
    ensures few { IfOk result (λ trace. length trace.packets ≤ most_packets) }
    ensures cause { HasReadCause (O.seen outside.old TraceRole).faults (O.seen outside.new TraceRole).faults result }
    ensures only { OnlyRead (O.seen outside.old) (O.seen outside.new) }
    ensures alone { ReadAlone TraceRole (O.seen outside.old) (O.seen outside.new) }
{
    let mut source = RoleSource {
        outside,
        role: Role::Trace,
    };
    read_trace(alloc, &mut source)
}

/// Reads the script, or one byte more than `most` of one that is longer.
fn read_script_bytes<O: Outside>(
    alloc: Global,
    outside: &mut O,
    most: u64,
) -> Result<Bytes, UptoFault>
    requires { CanRead ScriptRole (O.seen outside.old ScriptRole) }
    ensures bytes { ForSome (O.seen outside.old ScriptRole).left (λ bytes. IfOk result (λ found.
        (found ≡ take (most + 1) bytes) × ((O.seen outside.new ScriptRole).left ≡ Some (drop (most + 1) bytes)))) }
    ensures cause { HasUptoCause (O.seen outside.old ScriptRole).faults (O.seen outside.new ScriptRole).faults result }
    ensures alone { ReadAlone ScriptRole (O.seen outside.old) (O.seen outside.new) }
{
    let mut source = RoleSource {
        outside,
        role: Role::Script,
    };
    read_upto(alloc, &mut source, most)
}
