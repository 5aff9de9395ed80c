//! The top calls: the words are read once, files are bound, and what the words ask for is done. A further command that starts no threads
//! has a further line in `bind_files` of `call_files` and in `do_calm`.
ghost use Rattle.std.specs.Prelude.{◌≡◌, ℕ, List, true, false, Option, Some, None, map, codes, string_bytes};
ghost use Rattle.nf_io.specs.declared.outside.Role.{Role as TheRole};
ghost use Rattle.nf_io.specs.Meaning.{Meaning, Shown, as_named};
ghost use Rattle.command_words.specs.Requests.{Asked, asks_run, is_command, request_of};
ghost use Rattle.command_words.specs.RequestViews.{network_view, calm_view};
ghost use Rattle.command_words.specs.Views.{Refuses};
ghost use Rattle.call_files.specs.Files.{IsBound};
ghost use Rattle.opennf_calls.specs.Outcome.{HasOutcome};
ghost use Rattle.call_files.specs.Status.{words_status};
ghost use Rattle.opennf_calls.specs.Ended.{HasEnded, Performs};

use crate::audit::audit;
use crate::check::check;
use crate::fail::fail;
use crate::generate::generate;
use crate::published::publish;
use crate::run::run;
use crate::sim::simulate;
use crate::strong::share;
use actor_threads::Gate;
use call_files::{Outcome, Status, bind_files, bind_run, line, put};
use command_words::{
    ArgumentsFault, CalmRequest, NetworkRequest, Request, parse_calm, parse_command, parse_run,
};
use nf_io::{Outside, Role};
use std::alloc::Global;
use std::sync::Wait;
use std::thread::Threads;

/// All that the program does: reads what the words name, does what they ask for, and writes what comes of it.
///
/// The words are the program's arguments, with its name first.
pub fn opennf_top<R: Threads + Wait + Sync, O: Outside, G: Gate>(
    rt: &R,
    alloc: Global,
    words: &[String],
    outside: &mut O,
    gate: &G,
) -> Outcome
    requires { (role : TheRole) → (O.seen outside.old role).name ≡ None }
    ensures { HasOutcome (request_of (map string_bytes words.now))
        (as_named (O.shown outside.old) (O.seen outside.old) (O.seen outside.new)) (O.seen outside.new) result }
{
    let request = match parse_command(alloc, words) {
        Ok(request) => request,
        Err(fault) => return refuse(alloc, fault, outside),
    };
    match request {
        Request::Run(asked) => tell(perform_run(rt, alloc, &asked, outside, gate), outside),
        Request::Calm(asked) => tell(perform_calm(alloc, &asked, outside), outside),
    }
}

/// All that the program does where the words have the command that starts threads. It may wait for them.
pub fn opennf_run<R: Threads + Wait + Sync, O: Outside, G: Gate>(
    rt: &R,
    alloc: Global,
    words: &[String],
    outside: &mut O,
    gate: &G,
) -> Outcome
    requires unnamed { (role : TheRole) → (O.seen outside.old role).name ≡ None }
    requires command { is_command (codes "run") (map string_bytes words.now) ≡ true }
    ensures { HasOutcome (request_of (map string_bytes words.now))
        (as_named (O.shown outside.old) (O.seen outside.old) (O.seen outside.new)) (O.seen outside.new) result }
{
    match parse_run(alloc, words) {
        Ok(asked) => tell(perform_run(rt, alloc, &asked, outside, gate), outside),
        Err(fault) => refuse(alloc, fault, outside),
    }
}

/// All that the program does where the words have no command that starts threads. It always returns.
pub fn opennf_calm<O: Outside>(alloc: Global, words: &[String], outside: &mut O) -> Outcome
    requires unnamed { (role : TheRole) → (O.seen outside.old role).name ≡ None }
    requires command { is_command (codes "run") (map string_bytes words.now) ≡ false }
    ensures { HasOutcome (request_of (map string_bytes words.now))
        (as_named (O.shown outside.old) (O.seen outside.old) (O.seen outside.new)) (O.seen outside.new) result }
{
    match parse_calm(alloc, words) {
        Ok(asked) => tell(perform_calm(alloc, &asked, outside), outside),
        Err(fault) => refuse(alloc, fault, outside),
    }
}

/// The end where no memory was left to take the words.
pub fn opennf_unread<O: Outside>(alloc: Global, outside: &mut O) -> Outcome
    requires { (role : TheRole) → (O.seen outside.old role).name ≡ None }
    ensures { (request : Option Asked) → HasOutcome request
        (as_named (O.shown outside.old) (O.seen outside.old) (O.seen outside.new)) (O.seen outside.new) result }
{
    refuse(alloc, ArgumentsFault::NoMemory, outside)
}

/// Binds the files of a run by threads, and runs the network.
fn perform_run<R: Threads + Wait + Sync, O: Outside, G: Gate>(
    rt: &R,
    alloc: Global,
    asked: &NetworkRequest<'_>,
    outside: &mut O,
    gate: &G,
) -> Outcome
    requires { (role : TheRole) → (O.seen outside.old role).name ≡ None }
    ensures { HasEnded (Some (asks_run (network_view asked.now)))
        (as_named (O.shown outside.old) (O.seen outside.old) (O.seen outside.new)) (O.seen outside.new) result }
{
    match bind_run(asked, Role::JournalOut, outside) {
        Ok(()) => run(rt, alloc, asked, outside, gate),
        Err(_) => Outcome::without_run(alloc, Status::NoMemory),
    }
}

/// Binds the files that a command names, and does what it asks for.
fn perform_calm<O: Outside>(alloc: Global, asked: &CalmRequest<'_>, outside: &mut O) -> Outcome
    requires { (role : TheRole) → (O.seen outside.old role).name ≡ None }
    ensures { HasEnded (Some (calm_view asked.now)) (as_named (O.shown outside.old) (O.seen outside.old) (O.seen outside.new)) (O.seen outside.new) result }
{
    match bind_files(asked, outside) {
        Ok(()) => do_calm(alloc, asked, outside),
        Err(_) => Outcome::without_run(alloc, Status::NoMemory),
    }
}

/// Does what a command asks for, whose files are bound.
fn do_calm<O: Outside>(alloc: Global, asked: &CalmRequest<'_>, outside: &mut O) -> Outcome
    requires { IsBound (calm_view asked.now) (O.seen outside.old) }
    ensures { Performs (calm_view asked.now) (O.seen outside.old) (O.seen outside.new) result }
{
    match asked {
        CalmRequest::Sim(asked, schedule) => simulate(alloc, asked, *schedule, outside),
        CalmRequest::Audit(asked) => audit(alloc, asked, outside),
        CalmRequest::Fail(asked) => fail(alloc, asked, outside),
        CalmRequest::Check(asked) => Outcome::without_run(alloc, check(alloc, asked, outside)),
        CalmRequest::Gen(asked) => Outcome::without_run(alloc, generate(alloc, asked, outside)),
        CalmRequest::Published(asked, schedule) => publish(alloc, asked, *schedule, outside),
        CalmRequest::Strong(asked, schedule) => share(alloc, asked, *schedule, outside),
    }
}

/// The end of words that aren't a command.
fn refuse<O: Outside>(alloc: Global, fault: ArgumentsFault, outside: &mut O) -> Outcome
    requires { (role : TheRole) → (O.seen outside.old role).name ≡ None }
    ensures { (request : Option Asked) → Refuses fault request
        → HasOutcome request (as_named (O.shown outside.old) (O.seen outside.old) (O.seen outside.new)) (O.seen outside.new) result }
{
    tell(Outcome::without_run(alloc, status_of(fault)), outside)
}

/// The status of words that aren't a command.
fn status_of(fault: ArgumentsFault) -> Status
    ensures { result ≡ words_status fault }
{
    match fault {
        ArgumentsFault::Usage => Status::Usage,
        ArgumentsFault::NoMemory => Status::NoMemory,
    }
}

/// Puts the line of an end to the standard error. A failing standard error changes no status.
fn tell<O: Outside>(outcome: Outcome, outside: &mut O) -> Outcome
    ensures { (request : Option Asked) (shown : TheRole → List ℕ → Shown) (before : TheRole → Meaning)
        → HasEnded request (as_named shown before (O.seen outside.old)) (O.seen outside.old) outcome
        → HasOutcome request (as_named shown before (O.seen outside.new)) (O.seen outside.new) result }
{
    let _ = put(outside, Role::Errors, line(&outcome.status).as_bytes());
    outcome
}
