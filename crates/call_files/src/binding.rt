//! Binding the files that the words name to their roles. A further command that starts no threads has a further line in [`bind_files`].
ghost use Rattle.std.specs.Prelude.{◌≡◌, ◌⊎◌, ℕ, List, true, Option, Some, None, option_map, OnOk, OnErr};
ghost use Rattle.nf_io.specs.declared.outside.Role.{Role as TheRole};
ghost use Rattle.nf_io.specs.Meaning.{CanBind};
ghost use Rattle.command_words.specs.RequestViews.{network_view, calm_view};
ghost use Rattle.call_files.specs.Command.{is_journal, with_journal};
ghost use Rattle.call_files.specs.Files.{IsBound, MayBind};
ghost use Rattle.call_files.specs.Phases.{Binds, Named};

use basics::NoMemory;
use command_words::{CalmRequest, NetworkRequest};
use nf_io::{Outside, Role};

/// Binds each file that a command names to its role.
pub fn bind_files<O: Outside>(asked: &CalmRequest<'_>, outside: &mut O) -> Result<(), NoMemory>
    requires { (role : TheRole) → (O.seen outside.old role).name ≡ None }
    ensures bound { OnOk result (IsBound (calm_view asked.now) (O.seen outside.new)) }
    ensures names { MayBind (Some (calm_view asked.now)) (O.seen outside.new) }
    ensures binds { Binds (O.shown outside.old) (O.seen outside.old) (O.seen outside.new) }
{
    match asked {
        CalmRequest::Sim(asked, _) => bind_run(asked, Role::JournalOut, outside),
        CalmRequest::Audit(asked) => bind_run(&asked.network, Role::JournalIn, outside),
        CalmRequest::Fail(asked) => bind_run(&asked.network, Role::JournalIn, outside),
        CalmRequest::Check(asked) => bind_file(outside, Role::Script, Some(asked.script)),
        CalmRequest::Gen(asked) => bind_file(outside, Role::TraceOut, Some(asked.trace)),
        CalmRequest::Published(asked, _) => bind_file(outside, Role::Trace, Some(asked.trace)),
        CalmRequest::Strong(asked, _) => bind_file(outside, Role::Trace, Some(asked.trace)),
    }
}

/// Binds the files of a run of the network. Its journal goes to a role that is given.
pub fn bind_run<O: Outside>(
    asked: &NetworkRequest<'_>,
    journal: Role,
    outside: &mut O,
) -> Result<(), NoMemory>
    requires unnamed { (role : TheRole) → (O.seen outside.old role).name ≡ None }
    requires journal { is_journal journal ≡ true }
    ensures bound { OnOk result ((role : TheRole) → (O.seen outside.new role).name ≡ with_journal (network_view asked.now) journal role) }
    ensures names { (role : TheRole)
        → ((O.seen outside.new role).name ≡ None) ⊎ ((O.seen outside.new role).name ≡ with_journal (network_view asked.now) journal role) }
    ensures binds { Binds (O.shown outside.old) (O.seen outside.old) (O.seen outside.new) }
{
    bind_file(outside, Role::Trace, Some(asked.trace))?;
    bind_file(outside, Role::Script, asked.script)?;
    bind_file(outside, journal, asked.journal)
}

/// Binds a file to a role, if there is one.
fn bind_file<O: Outside>(outside: &mut O, role: Role, file: Option<&str>) -> Result<(), NoMemory>
    requires { CanBind role (O.seen outside.old role) }
    ensures ok { OnOk result (Named role (option_map (λ t. t.now) file.entry) (O.seen outside.old) (O.seen outside.new)) }
    ensures err { OnErr result (Named role None (O.seen outside.old) (O.seen outside.new)) }
    ensures binds { Binds (O.shown outside.old) (O.seen outside.old) (O.seen outside.new) }
    ensures shown { (other : TheRole) (name : List ℕ) → O.shown outside.new other name ≡ O.shown outside.old other name }
{
    match file {
        Some(name) => outside.bind(role, name),
        None => Ok(()),
    }
}
