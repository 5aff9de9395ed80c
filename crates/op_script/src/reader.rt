use crate::script::Line;
use flow_filter::Filter;
use std::marker::Model;

/// What the lines of a script say so far.
#[derive(Debug, Drop)]
pub struct Reader {
    pub routes: Vec<(Filter, u8)>,
    pub lines: Vec<Line>,
    /// How many of the lines are commands.
    pub commands: u32,
    /// The greatest point of the trace so far, where a line named one.
    pub last: Option<u32>,
}

impl Model for Reader {
    ghost use Rattle.std.specs.Prelude.{◌≡◌, All, map};
    ghost use Rattle.flow_filter.specs.Filter.{IsFilter};
    ghost use Rattle.op_script.specs.Reading.{State, line_view};
    ghost use Rattle.op_script.specs.ReadingSteps.{command_count, route_view};

    ghost Value = { State };

    ghost view = { λ r. record { routes = map route_view r.routes.items; lines = map line_view r.lines.items; last = r.last } };

    ghost invariant = { λ r. (r.commands ≡ command_count (map line_view r.lines.items)) × All (λ route. IsFilter route.0) r.routes.items };
}
