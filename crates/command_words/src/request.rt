//! What the words of the command line ask for.
ghost use Rattle.std.specs.Prelude.{◌≤◌, ◌<◌, ◌≢◌, IsSome, length, ◌≡◌, false};
ghost use Rattle.flow_filter.specs.FilterText.{fields_of};
ghost use Rattle.flow_filter.specs.Limits.{most_instances, most_window};
ghost use Rattle.nf_function.specs.Units.{splits};
ghost use Rattle.command_words.specs.declared.request.TheConstants.{MOST_PACKETS, MOST_HOSTS};
ghost use Rattle.command_words.specs.declared.strong.TheConstants.{FEWEST_MEMBERS};

use actor_net::Schedule;
use flow_filter::{Filter, Name, Sequence, Site};
use nf_function::Kind;

/// The most packets of a generated capture.
pub const MOST_PACKETS: u32 = 1_000_000;

/// The most hosts of a generated capture.
pub const MOST_HOSTS: u32 = 256;

/// What the words say of one instance.
#[derive(Debug, Drop)]
pub struct InstanceWords {
    pub name: Name,
    /// How many live records it takes in by moves.
    pub limit: u32,
    /// Whether it reads chunks of version 1 alone.
    pub reads_old: bool,
}

/// What the words say of the instances: 1 to 16 of them.
#[derive(Debug, Drop)]
pub struct Instances {
    pub rows: Vec<InstanceWords>,
    ghost some: { 1 ≤ length rows.items },
    ghost few: { length rows.items ≤ most_instances },
}

/// What `sim` and `run` ask for.
#[derive(Debug, Drop)]
pub struct NetworkRequest<'a> {
    pub kind: Kind,
    pub instances: Instances,
    pub site: Site,
    /// How many packets may be under way.
    pub window: u32,
    /// The file of the run's choices.
    pub journal: Option<&'a str>,
    /// Whether the report has counts in place of the lines of packets and records.
    pub summary: bool,
    /// The capture's file.
    pub trace: &'a str,
    /// The script's file.
    pub script: Option<&'a str>,
    ghost window_in_range: { (1 ≤ window) × (window ≤ most_window) },
}

/// What `audit` asks for. The journal's file is given.
#[derive(Debug, Drop)]
pub struct Auditing<'a> {
    pub network: NetworkRequest<'a>,
    ghost has_journal: { IsSome network.journal },
}

/// What `fail` asks for. The journal's file is given. The instances go by their places in the list.
#[derive(Debug, Drop)]
pub struct FailRequest<'a> {
    pub network: NetworkRequest<'a>,
    /// The instance that fails.
    pub failed: u8,
    /// The one that takes over.
    pub to: u8,
    /// After how many choices of the journal it fails.
    pub after: u64,
    ghost has_journal: { IsSome network.journal },
    ghost has_failed: { failed < length network.instances.rows.items },
    ghost has_to: { to < length network.instances.rows.items },
    ghost two: { failed ≢ to },
}

/// What `check` asks for.
#[derive(Debug, Drop)]
pub struct Checking<'a> {
    pub kind: Kind,
    pub instances: Instances,
    /// The script's file.
    pub script: &'a str,
}

/// What `gen` asks for.
#[derive(Debug, Drop)]
pub struct Generating<'a> {
    /// What the capture is drawn from.
    pub number: u64,
    /// How many packets it has.
    pub packets: u32,
    /// How many hosts are inside.
    pub hosts: u32,
    /// The file of the capture, which is written.
    pub trace: &'a str,
    ghost packets_in_range: { (1 ≤ packets) × (packets ≤ MOST_PACKETS) },
    ghost hosts_in_range: { (1 ≤ hosts) × (hosts ≤ MOST_HOSTS) },
}

/// What `published` asks for: a two-phase update.
#[derive(Debug, Drop)]
pub struct Publishing<'a> {
    pub kind: Kind,
    pub site: Site,
    /// How many packets may be under way.
    pub window: u32,
    /// After how many packets the move is asked for.
    pub at: u32,
    /// What is moved.
    pub filter: Filter,
    /// The capture's file.
    pub trace: &'a str,
    ghost window_in_range: { (1 ≤ window) × (window ≤ most_window) },
    ghost whole: { splits kind (fields_of filter) ≡ false },
}

/// What `strong` asks for: strong sharing by these members.
#[derive(Debug, Drop)]
pub struct StrongRequest<'a> {
    pub kind: Kind,
    /// The members' names, in order.
    pub names: Sequence<Name>,
    pub site: Site,
    /// How many packets may be under way.
    pub window: u32,
    /// What they share.
    pub filter: Filter,
    /// The capture's file.
    pub trace: &'a str,
    ghost some: { FEWEST_MEMBERS ≤ length names },
    ghost few: { length names ≤ most_instances },
    ghost window_in_range: { (1 ≤ window) × (window ≤ most_window) },
    ghost whole: { splits kind (fields_of filter) ≡ false },
}

/// What the words ask for: a run by threads, or something that always comes to its end.
#[derive(Debug, Drop)]
pub enum Request<'a> {
    /// A run by threads over a capture.
    Run(NetworkRequest<'a>),
    /// What needs no threads.
    Calm(CalmRequest<'a>),
}

/// What the words ask for, where it needs no threads.
#[derive(Debug, Drop)]
pub enum CalmRequest<'a> {
    /// A simulated run over a capture, which picks its next step by the schedule.
    Sim(NetworkRequest<'a>, Schedule),
    /// The run that a journal tells, again.
    Audit(Auditing<'a>),
    /// What is left where an instance fails in the middle of such a run.
    Fail(FailRequest<'a>),
    /// The canonical text of a script.
    Check(Checking<'a>),
    /// A generated capture.
    Gen(Generating<'a>),
    /// A two-phase update, which picks its next step by the schedule.
    Published(Publishing<'a>, Schedule),
    /// Strong sharing, which picks its next step by the schedule.
    Strong(StrongRequest<'a>, Schedule),
}
