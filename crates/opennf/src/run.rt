ghost use Rattle.std.specs.Prelude.{◌≡◌, Option, None, map, string_bytes};
ghost use Rattle.std.specs.Process.{exit_status};
ghost use Rattle.nf_io.specs.declared.outside.Role.{Role as TheRole};
ghost use Rattle.nf_io.specs.Meaning.{as_named};
ghost use Rattle.command_words.specs.Requests.{Asked, request_of};
ghost use Rattle.opennf.specs.Program.{ForGiven, EndsAs};

use actor_threads::OpenGate;
use nf_io::{Outside, Process};
use opennf_calls::{opennf_top, opennf_unread};
use std::process::ExitCode;
use std::sync::Wait;
use std::thread::Threads;

/// Does what the program's arguments ask for. What it gives is the number of the status.
pub fn program<R: AllocGlobal + Threads + Wait + Sync, O: Outside + Process>(
    rt: &R,
    outside: &mut O,
) -> ExitCode
    requires { (role : TheRole) → (O.seen outside.old role).name ≡ None }
    ensures { ForGiven (O.given outside.old) (λ words.
        EndsAs (request_of words) (as_named (O.shown outside.old) (O.seen outside.old) (O.seen outside.new)) (O.seen outside.new) (exit_status result)) }
{
    match outside.arguments() {
        Ok(words) => run(rt, words.as_slice(), outside),
        Err(_) => refuse(rt, outside),
    }
}

/// Does what the words ask for.
fn run<R: AllocGlobal + Threads + Wait + Sync, O: Outside>(
    rt: &R,
    words: &[String],
    outside: &mut O,
) -> ExitCode
    requires { (role : TheRole) → (O.seen outside.old role).name ≡ None }
    ensures { EndsAs (request_of (map string_bytes words.now))
        (as_named (O.shown outside.old) (O.seen outside.old) (O.seen outside.new)) (O.seen outside.new) (exit_status result) }
{
    let outcome = opennf_top(rt, rt.alloc(), words, outside, &OpenGate);
    ExitCode::from(outcome.status.number())
}

/// Answers that no memory was left to take the words.
fn refuse<R: AllocGlobal, O: Outside>(rt: &R, outside: &mut O) -> ExitCode
    requires { (role : TheRole) → (O.seen outside.old role).name ≡ None }
    ensures { (request : Option Asked) → EndsAs request
        (as_named (O.shown outside.old) (O.seen outside.old) (O.seen outside.new)) (O.seen outside.new) (exit_status result) }
{
    ExitCode::from(opennf_unread(rt.alloc(), outside).status.number())
}
