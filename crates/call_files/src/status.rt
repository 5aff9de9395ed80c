//! How a run of the program ended, with the number that it ends with and the words that tell it.
ghost use Rattle.std.specs.Prelude.{◌≡◌, ◌≤◌, length};
ghost use Rattle.call_files.specs.Status.{trace_kind_name, exit_number, journal_kind_name, role_name, script_kind_name, reading_status};
ghost use Rattle.call_files.specs.Status.{journal_status, making_status, script_status, trace_status};
ghost use Rattle.call_files.specs.declared.status.Status.TheVariants.{NoMemory as OutOfMemory};
ghost use Rattle.call_files.specs.LineRoom.{trace_kind_room, role_room, script_kind_room, journal_kind_room};

use basics::NoMemory;
use journal_file::JournalFault;
use nf_io::{Role, UptoFault};
use op_script::{ScriptFault, ScriptKind};
use trace_reader::{MakeFault, TraceFault};

/// What is wrong with a capture.
#[derive(Clone, Copy, Debug, PartialEq, Eq)]
pub enum TraceKind {
    /// It doesn't begin as a capture.
    Magic,
    /// It is a pcapng file.
    PcapNg,
    /// Its version isn't 2.4.
    Version,
    /// Its link type, which is given, isn't Ethernet or raw IP.
    LinkType(u16),
    /// A record has more captured bytes, whose number is given, than any record may have.
    RecordLength(u32),
    /// It has more bytes or packets than are read.
    TooLong,
    /// It ends within its header.
    Header,
}

/// What is wrong with a journal.
#[derive(Clone, Copy, Debug, PartialEq, Eq)]
pub enum JournalKind {
    /// It doesn't begin as a journal.
    Magic,
    /// Its version isn't 1.
    Version,
    /// It is of another function.
    Kind,
    /// It is of another number of instances, or has too many choices.
    Count,
    /// It ends within its header or its choices.
    Short,
    /// Bytes come after its choices.
    Extra,
}

/// How a run of the program ended.
#[derive(Clone, Copy, Debug, PartialEq, Eq)]
pub enum Status {
    /// The command did its work and wrote all.
    Ok,
    /// The words aren't a command.
    Usage,
    /// A line of the script, from 1, breaks a rule, or the whole does where the line is 0.
    BadScript { line: u32, kind: ScriptKind },
    /// The capture breaks a rule at a byte.
    BadTrace { offset: u64, kind: TraceKind },
    /// The journal breaks a rule.
    BadJournal { kind: JournalKind },
    /// The journal's choices aren't a run as the command asks: the choice of this step, from 1, can't be taken, or is missing.
    NotARun { step: u64 },
    /// A file couldn't be read.
    ReadFault { role: Role },
    /// A file couldn't be written.
    WriteFault { role: Role },
    /// Memory ran out.
    NoMemory,
}

impl Status {
    /// The status of a file that can't be read whole.
    pub fn of_reading(role: Role, fault: UptoFault) -> Status
        ensures { result ≡ reading_status role fault }
    {
        match fault {
            UptoFault::Failed => Status::ReadFault { role },
            UptoFault::NoMemory => Status::NoMemory,
        }
    }

    /// The number that the program ends with.
    pub fn number(&self) -> u8
        ensures { result ≡ exit_number self.now }
    {
        match self {
            Status::Ok => 0,
            Status::Usage => 1,
            Status::BadScript { .. } => 2,
            Status::BadTrace { .. } => 2,
            Status::BadJournal { .. } => 2,
            Status::NotARun { .. } => 3,
            Status::ReadFault { .. } => 4,
            Status::WriteFault { .. } => 5,
            Status::NoMemory => 6,
        }
    }
}

/// The status of a capture that can't be read.
impl From<TraceFault> for Status {
    ghost from_gives = { λ fault status. status ≡ trace_status fault };

    fn from(fault: TraceFault) -> Self {
        match fault {
            TraceFault::Magic => bad_trace(0, TraceKind::Magic),
            TraceFault::PcapNg => bad_trace(0, TraceKind::PcapNg),
            TraceFault::Version => bad_trace(4, TraceKind::Version),
            TraceFault::LinkType(number) => bad_trace(20, TraceKind::LinkType(number)),
            TraceFault::RecordLength { offset, n } => bad_trace(offset, TraceKind::RecordLength(n)),
            TraceFault::TooLong { offset } => bad_trace(offset, TraceKind::TooLong),
            TraceFault::Header(length) => bad_trace(length, TraceKind::Header),
            TraceFault::Read => Status::ReadFault { role: Role::Trace },
            TraceFault::NoMemory => Status::NoMemory,
        }
    }
}

/// The status of a capture that can't be made.
impl From<MakeFault> for Status {
    ghost from_gives = { λ fault status. status ≡ making_status fault };

    fn from(fault: MakeFault) -> Self {
        match fault {
            MakeFault::Write => Status::WriteFault {
                role: Role::TraceOut,
            },
            MakeFault::NoMemory => Status::NoMemory,
        }
    }
}

/// The status of a journal that can't be read.
impl From<JournalFault> for Status {
    ghost from_gives = { λ fault status. status ≡ journal_status fault };

    fn from(fault: JournalFault) -> Self {
        match fault {
            JournalFault::Magic => bad_journal(JournalKind::Magic),
            JournalFault::Version => bad_journal(JournalKind::Version),
            JournalFault::Kind => bad_journal(JournalKind::Kind),
            JournalFault::Count => bad_journal(JournalKind::Count),
            JournalFault::Short => bad_journal(JournalKind::Short),
            JournalFault::Extra => bad_journal(JournalKind::Extra),
            JournalFault::Read => Status::ReadFault {
                role: Role::JournalIn,
            },
            JournalFault::NoMemory => Status::NoMemory,
        }
    }
}

/// The status of a script that can't be read.
impl From<ScriptFault> for Status {
    ghost from_gives = { λ fault status. status ≡ script_status fault };

    fn from(fault: ScriptFault) -> Self {
        match fault {
            ScriptFault::Bad { line, kind } => Status::BadScript { line, kind },
            ScriptFault::NoMemory => Status::NoMemory,
        }
    }
}

impl From<NoMemory> for Status {
    ghost from_gives = { λ _ status. status ≡ OutOfMemory };

    fn from(_error: NoMemory) -> Self {
        Status::NoMemory
    }
}

impl TraceKind {
    /// What the error line says of the kind, before its number where it has one.
    pub fn name(self) -> &'static str
        ensures value { result.now ≡ trace_kind_name self }
        ensures short { length result.now ≤ trace_kind_room }
    {
        match self {
            TraceKind::Magic => "magic",
            TraceKind::PcapNg => "pcapng",
            TraceKind::Version => "version",
            TraceKind::LinkType(_) => "link type ",
            TraceKind::RecordLength(_) => "record length ",
            TraceKind::TooLong => "too long",
            TraceKind::Header => "header",
        }
    }
}

/// What the error line calls a role.
pub fn role_name(role: Role) -> &'static str
    ensures value { result.now ≡ role_name role }
    ensures short { length result.now ≤ role_room }
{
    match role {
        Role::Trace => "trace",
        Role::Script => "script",
        Role::JournalIn | Role::JournalOut => "journal",
        Role::Report => "report",
        Role::TraceOut => "capture",
        Role::Errors => "errors",
    }
}

/// What the error line calls a rule that a script breaks.
pub fn script_kind_name(kind: ScriptKind) -> &'static str
    ensures value { result.now ≡ script_kind_name kind }
    ensures short { length result.now ≤ script_kind_room }
{
    match kind {
        ScriptKind::Word => "word",
        ScriptKind::Order => "order",
        ScriptKind::Filter => "filter",
        ScriptKind::SplitsUnit => "splits unit",
        ScriptKind::SameInstance => "same instance",
        ScriptKind::TooMany => "too many",
        ScriptKind::Name => "name",
        ScriptKind::NotUtf8 => "not utf8",
    }
}

/// What the error line calls what is wrong with a journal.
pub fn journal_kind_name(kind: JournalKind) -> &'static str
    ensures value { result.now ≡ journal_kind_name kind }
    ensures short { length result.now ≤ journal_kind_room }
{
    match kind {
        JournalKind::Magic => "magic",
        JournalKind::Version => "version",
        JournalKind::Kind => "kind",
        JournalKind::Count => "count",
        JournalKind::Short => "short",
        JournalKind::Extra => "extra",
    }
}

/// The status of a capture that breaks a rule at a byte.
fn bad_trace(offset: u64, kind: TraceKind) -> Status
    ensures { result ≡ Status.BadTrace offset kind }
{
    Status::BadTrace { offset, kind }
}

/// The status of a journal that breaks a rule.
fn bad_journal(kind: JournalKind) -> Status
    ensures { result ≡ Status.BadJournal kind }
{
    Status::BadJournal { kind }
}
