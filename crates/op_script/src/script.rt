ghost use Rattle.std.specs.Prelude.{◌<◌, ◌^◌, All};
ghost use Rattle.std.specs.Option.{ForSome};
ghost use Rattle.flow_filter.specs.Filter.{IsFilter};
ghost use Rattle.op_script.specs.LineFilters.{what_filter};

use flow_filter::Filter;
use nf_msgs::Command;

/// What an operator wants of a run.
#[derive(Debug, Drop)]
pub struct Script {
    /// The initial rules in file order: which flows go to the instance at this place.
    pub routes: Vec<(Filter, u8)>,
    /// What happens after which packet, in file order.
    pub lines: Vec<Line>,
    ghost routes_in_range: { All (λ route. IsFilter route.0) routes.items },
}

/// Something that happens after the packet with the number `at`, or before the first where it is 0.
#[derive(Debug, Drop)]
pub struct Line {
    pub at: u32,
    pub what: What,
    ghost at_in_range: { at < 2 ^ 32 },
    ghost filter_in_range: { ForSome (what_filter what) IsFilter },
}

/// What happens.
#[derive(Debug, Drop)]
pub enum What {
    Command(Command),
    /// Further input waits until every earlier command is answered.
    Settle,
}
