//! The forms of the commands: which places, options and flags the words of each may have. A further command has a further table here.
ghost use Rattle.std.specs.Prelude.{◌≡◌, map};
ghost use Rattle.command_words.specs.Arguments.{arguments_of};

/// What an argument is, and whether it must be there.
#[derive(Clone, Copy, Debug)]
pub enum ArgumentKind {
    /// A place.
    Positional,
    /// A place that may be there.
    OptionalPositional,
    /// An option with a value.
    Required,
    /// An option with a value that may be there.
    Optional,
    /// An option without a value, that may be there.
    Flag,
}

/// What the words after a command look like.
#[derive(Clone, Copy, Debug)]
pub enum Form {
    /// Those after `run`, and after `audit`.
    Run,
    /// Those after `sim`.
    Sim,
    /// Those after `fail`.
    Fail,
    /// Those after `check`.
    Check,
    /// Those after `gen`.
    Gen,
    /// Those after `published`.
    Published,
    /// Those after `strong`.
    Strong,
}

/// What an argument is, and its name.
type Argument = (ArgumentKind, &'static str);

const FUNCTION: Argument = (ArgumentKind::Positional, "function");

const INSTANCES: Argument = (ArgumentKind::Required, "instances");

const INSIDE: Argument = (ArgumentKind::Required, "inside");

const OUTSIDE: Argument = (ArgumentKind::Optional, "outside");

const WINDOW: Argument = (ArgumentKind::Optional, "window");

const SCHEDULE: Argument = (ArgumentKind::Optional, "schedule");

const JOURNAL: Argument = (ArgumentKind::Optional, "journal");

const SUMMARY: Argument = (ArgumentKind::Flag, "summary");

const TRACE: Argument = (ArgumentKind::Positional, "trace");

const SCRIPT: Argument = (ArgumentKind::OptionalPositional, "script");

const TOLD: Argument = (ArgumentKind::Required, "journal");

const FAILED: Argument = (ArgumentKind::Required, "failed");

const TO: Argument = (ArgumentKind::Required, "to");

const AFTER: Argument = (ArgumentKind::Required, "after");

const AT: Argument = (ArgumentKind::Positional, "at");

const FILTER: Argument = (ArgumentKind::Positional, "filter");

const SHARED: Argument = (ArgumentKind::OptionalPositional, "filter");

static RUN: [Argument; 9] = [
    FUNCTION, INSTANCES, INSIDE, OUTSIDE, WINDOW, JOURNAL, SUMMARY, TRACE, SCRIPT,
];

static SIM: [Argument; 10] = [
    FUNCTION, INSTANCES, INSIDE, OUTSIDE, WINDOW, SCHEDULE, JOURNAL, SUMMARY, TRACE, SCRIPT,
];

static FAIL: [Argument; 11] = [
    FUNCTION, INSTANCES, INSIDE, OUTSIDE, WINDOW, TOLD, FAILED, TO, AFTER, TRACE, SCRIPT,
];

static CHECK: [Argument; 3] = [FUNCTION, INSTANCES, (ArgumentKind::Positional, "script")];

static PUBLISHED: [Argument; 8] = [
    FUNCTION, INSIDE, OUTSIDE, WINDOW, SCHEDULE, TRACE, AT, FILTER,
];

static STRONG: [Argument; 8] = [
    FUNCTION, INSTANCES, INSIDE, OUTSIDE, WINDOW, SCHEDULE, TRACE, SHARED,
];

static GEN: [Argument; 4] = [
    (ArgumentKind::Positional, "number"),
    (ArgumentKind::Required, "packets"),
    (ArgumentKind::Required, "hosts"),
    TRACE,
];

impl Form {
    /// Its arguments, by their names.
    pub fn arguments(self) -> &'static [(ArgumentKind, &'static str)]
        ensures { map (λ e. (e.0, e.1.now)) result.now ≡ arguments_of self }
    {
        match self {
            Form::Run => RUN.as_slice(),
            Form::Sim => SIM.as_slice(),
            Form::Fail => FAIL.as_slice(),
            Form::Check => CHECK.as_slice(),
            Form::Gen => GEN.as_slice(),
            Form::Published => PUBLISHED.as_slice(),
            Form::Strong => STRONG.as_slice(),
        }
    }
}
