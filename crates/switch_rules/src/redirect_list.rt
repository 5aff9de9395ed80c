//! Redirects one after another, with what tells which of them a flow can pass over.
ghost use Rattle.std.specs.Prelude.{◌≡◌, ◌≤◌, ◌+◌, ◌++◌, ◌∷◌, [], true, drop, length, slice_get, All, IfSome, OnOk, OnErr};
ghost use Rattle.std.specs.Option.{ForSome};
ghost use Rattle.flow_filter.specs.Filter.{IsFilter};
ghost use Rattle.switch_rules.specs.Rules.{target_after};
ghost use Rattle.switch_rules.specs.Spans.{AreNoted};
ghost use Rattle.switch_rules.specs.Sections.{IsAlike, target_after_sections};

use crate::redirect::Redirect;
use crate::section::Section;
use crate::spans::Spans;
use crate::target::Target;
use basics::NoMemory;
use flow_filter::Flow;
use std::alloc::Global;
use std::marker::Model;

/// So many sections are gone through before the spans are asked which comes next, and so many more for each group of these. After each
/// answer it is twice as many.
const NEAR: usize = 8;

const NEAR_FOR_EACH_GROUP: usize = 4;

/// Redirects in the order in which they were installed, which contracts see as their list.
///
/// A flow pays for the sections that may take it, and for some near each of them, and at most for all.
#[derive(Drop)]
pub struct RedirectList {
    sections: Vec<Section>,
    spans: Spans,
}

impl Model for RedirectList {
    ghost use Rattle.std.specs.Prelude.{List};
    ghost use Rattle.std.specs.List.{flat_map};
    ghost use Rattle.switch_rules.specs.Rules.{Redirect};
    ghost use Rattle.switch_rules.specs.Spans.{AreNoted};

    ghost Value = { List Redirect };

    ghost view = { λ r. flat_map (λ section. section) r.sections.items };

    ghost invariant = { λ r. AreNoted r.spans r.sections.items };
}

impl RedirectList {
    /// No redirects yet. This takes no memory.
    pub(crate) fn open(alloc: Global) -> Self
        ensures { result ≡ [] }
    {
        RedirectList {
            sections: Vec::new(alloc),
            spans: Spans::open(alloc),
        }
    }

    /// Adds a redirect after the others.
    pub(crate) fn push(&mut self, redirect: Redirect) -> Result<(), NoMemory>
        ensures ok { OnOk result (self.new ≡ self.old ++ redirect ∷ []) }
        ensures err { OnErr result (self.new ≡ self.old) }
        ensures filter { IsFilter redirect.filter }
    {
        match last_alike(&self.sections, &redirect) {
            Some(last) => {
                self.spans.note(last, &redirect.filter, redirect.from)?;
                self.sections[last].push(redirect)
            }
            None => {
                let next = self.sections.len();
                self.spans.note(next, &redirect.filter, redirect.from)?;
                let section = Section::open(*self.sections.allocator(), redirect);
                self.sections.push(section)?;
                Ok(())
            }
        }
    }

    /// Whether there are none.
    #[inline(always)]
    pub(crate) fn is_empty(&self) -> bool
        ensures { result ≡ true → self.now ≡ [] }
    {
        self.sections.is_empty()
    }

    /// The target of a flow after all of them, which had this target before.
    pub(crate) fn target_after(&self, flow: &Flow, before: Target) -> Target
        ensures { result ≡ target_after self.now flow.now before }
    {
        target_by_spans(&self.sections, &self.spans, *flow, before)
    }
}

/// The place of the last section, where its redirects match the same flows as this one.
fn last_alike(sections: &[Section], redirect: &Redirect) -> Option<usize>
    ensures last { IfSome result (λ last. last + 1 ≡ length sections.now) }
    ensures alike { IfSome result (λ last. ForSome (slice_get sections.now last) (λ section. All (IsAlike redirect.now) section)) }
{
    let last = sections.last()?;
    if last.is_alike(redirect) {
        Some(sections.len() - 1)
    } else {
        None
    }
}

/// The target of a flow after sections, which had this target before. The spans tell which sections are passed over.
fn target_by_spans(sections: &[Section], spans: &Spans, flow: Flow, before: Target) -> Target
    requires { AreNoted spans.now sections.now }
    ensures { result ≡ target_after_sections sections.now flow before }
{
    let mut near = spans
        .groups()
        .saturating_mul(NEAR_FOR_EACH_GROUP)
        .saturating_add(NEAR);
    let mut target = before;
    let mut place = 0;
    while place < sections.len() {
        let end = place.saturating_add(near).min(sections.len());
        target = target_after_sections(&sections[place..end], flow, target);
        place = next_place(sections, spans, flow, target, end);
        near = near.saturating_mul(2);
    }
    target
}

/// The place of a section from one on that may take a flow from its target, or the number of sections where none does.
fn next_place(
    sections: &[Section],
    spans: &Spans,
    flow: Flow,
    target: Target,
    place: usize,
) -> usize
    requires { AreNoted spans.now sections.now }
    ensures later { place ≤ result }
    ensures same { target_after_sections (drop result sections.now) flow target ≡ target_after_sections (drop place sections.now) flow target }
{
    if place >= sections.len() {
        return place;
    }
    match spans.next(&flow, target, place) {
        Some(next) => next,
        None => sections.len(),
    }
}

/// The target of a flow after sections, one after another.
fn target_after_sections(sections: &[Section], flow: Flow, before: Target) -> Target
    ensures { result ≡ target_after_sections sections.now flow before }
{
    sections.iter().fold(before, |target, section| section.target_after(flow, target))
}
