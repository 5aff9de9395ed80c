ghost use Rattle.std.specs.Prelude.{◌≡◌, ◌&&◌, is_none, if◌then◌else◌, Some, None, OnOk, IfOk};
ghost use Rattle.flow_filter.specs.Flow.{flow_eq};
ghost use Rattle.flow_filter.specs.declared.flow.Flow.{Flow as EachFlow};
ghost use Rattle.switch_rules.specs.Masks.{masked};
ghost use Rattle.switch_rules.specs.Groups.{entry};

use crate::mask::Mask;
use crate::target::Target;
use basics::NoMemory;
use flow_filter::Flow;
use std::alloc::Global;
use unit_map::UnitMap;

/// The rules of one mask, by their masked flows.
#[derive(Drop)]
pub struct Group {
    pub mask: Mask,
    pub entries: UnitMap<Flow, Placed>,
}

/// A rule's place in the list, from 0, and its target.
#[derive(Clone, Copy, Debug, PartialEq, Eq)]
pub struct Placed {
    pub place: u32,
    pub target: Target,
}

impl Group {
    /// A group with one entry.
    pub(crate) fn of(
        alloc: Global,
        mask: Mask,
        key: Flow,
        placed: Placed,
    ) -> Result<Group, NoMemory>
        ensures mask { IfOk result (λ group. group.mask ≡ mask) }
        ensures entries { IfOk result (λ group. (k : EachFlow) → entry group k ≡ (if flow_eq key k then Some placed else None)) }
    {
        let mut entries = UnitMap::open(alloc);
        entries.insert(key, placed)?;
        Ok(Group { mask, entries })
    }

    /// Adds an entry, where none stands at the masked flow.
    pub(crate) fn add(&mut self, key: Flow, placed: Placed) -> Result<(), NoMemory>
        ensures mask { self.new.mask ≡ self.old.mask }
        ensures entries { OnOk result ((k : EachFlow) → entry self.new k ≡ (if flow_eq key k && is_none (entry self.old key)
            then Some placed else entry self.old k)) }
    {
        if self.entries.get(&key).is_none() {
            self.entries.insert(key, placed)?;
        }
        Ok(())
    }

    /// The entry that a flow meets.
    #[inline(always)]
    pub(crate) fn find(&self, flow: &Flow) -> Option<Placed>
        ensures { result ≡ entry self.now (masked self.now.mask flow.now) }
    {
        self.entries.get(&self.mask.masked(flow)).copied()
    }
}
