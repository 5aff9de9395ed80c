ghost use Rattle.std.specs.Prelude.{◌≡◌, if◌then◌else◌, Some, None, OnOk, OnErr};
ghost use Rattle.flow_filter.specs.Flow.{flow_eq};
ghost use Rattle.flow_filter.specs.declared.flow.Flow.{Flow as EachFlow};
ghost use Rattle.switch_rules.specs.Spans.{span, widened, next_in};

use crate::mask::Mask;
use crate::target::Target;
use basics::NoMemory;
use flow_filter::Flow;
use std::alloc::Global;
use unit_map::UnitMap;

/// Where the filters stand that have one mask and take flows from one target: for what a filter says of the mask's fields, the
/// places from the first such filter's to the last's.
#[derive(Drop)]
pub struct SpanGroup {
    pub mask: Mask,
    pub from: Target,
    pub spans: UnitMap<Flow, Span>,
}

/// The places from the first to the last, both among them.
#[derive(Clone, Copy, Debug)]
pub struct Span {
    pub first: usize,
    pub last: usize,
}

impl SpanGroup {
    /// A group without spans. This takes no memory.
    pub(crate) fn open(alloc: Global, mask: Mask, from: Target) -> SpanGroup
        ensures mask { result.mask ≡ mask }
        ensures from { result.from ≡ from }
        ensures spans { (key : EachFlow) → span result key ≡ None }
    {
        SpanGroup {
            mask,
            from,
            spans: UnitMap::open(alloc),
        }
    }

    /// Widens the span of a masked flow by a place.
    pub(crate) fn note(&mut self, key: Flow, place: usize) -> Result<(), NoMemory>
        ensures mask { self.new.mask ≡ self.old.mask }
        ensures from { self.new.from ≡ self.old.from }
        ensures spans { OnOk result ((k : EachFlow) → span self.new k ≡ (if flow_eq key k then Some (widened (span self.old key) place) else span self.old k)) }
        ensures err { OnErr result ((k : EachFlow) → span self.new k ≡ span self.old k) }
    {
        let widened = match self.spans.get(&key) {
            Some(span) => Span {
                first: span.first.min(place),
                last: span.last.max(place),
            },
            None => Span {
                first: place,
                last: place,
            },
        };
        self.spans.insert(key, widened)?;
        Ok(())
    }

    /// The first place from one on that the flow's span holds, where the group is that of its target.
    pub(crate) fn next(&self, flow: &Flow, target: Target, place: usize) -> Option<usize>
        ensures { result ≡ next_in self.now flow.now target place }
    {
        if self.from != target {
            return None;
        }
        let span = self.spans.get(&self.mask.masked(flow))?;
        (place <= span.last).then_some(span.first.max(place))
    }
}
