ghost use Rattle.std.specs.Prelude.{◌≤◌};
ghost use Rattle.flow_filter.specs.Limits.{most_window};

use command_words::Instances;
use flow_filter::Site;
use nf_function::Kind;

/// What the words say of a run.
#[derive(Clone, Copy, Debug)]
pub struct Setting<'a> {
    /// Which function the instances run.
    pub kind: Kind,
    pub instances: &'a Instances,
    pub site: Site,
    /// How many packets may be under way.
    pub window: u32,
    ghost window_in_range: { (1 ≤ window) × (window ≤ most_window) },
}
