//! That what the words say of a site and of a filter is in the ranges of its types.
ghost use Rattle.std.specs.Prelude.{◌<◌, ◌^◌};
ghost use Rattle.flow_filter.specs.Filter.{IsFilter};

use flow_filter::{Filter, Site};

/// The numbers of a site and of a filter, as those of every value of their types.
pub(crate) fn are_in_range(_site: Site, _filter: Filter)
    ensures site { _site.inside.bits < 2 ^ 32 }
    ensures filter { IsFilter _filter }
{}
