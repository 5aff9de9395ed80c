//! What is looked at of the world in which an instance fails.
ghost use Rattle.std.specs.Prelude.{◌≡◌, ◌&&◌, [], not, IfOk, OnOk};
ghost use Rattle.std.specs.Option.{option_copied};
ghost use Rattle.std.specs.FinMap as finite;
ghost use Rattle.trace_reader.specs.Records.{AreNumbered};
ghost use Rattle.standby_failover.specs.Failover.{lost_in_order, open_packets};
ghost use Rattle.standby_failover.specs.Scenes.{AreAffected, IsSceneOf, Stopped, affects, failover_in, has_seen_more, is_marked};

use crate::numbers::{came_among, is_marked, processed};
use crate::packets::packet_at;
use crate::promoted::Numbers;
use basics::NoMemory;
use flow_filter::{CapturedPacket, Site, flow_of};
use nf_function::{Function, Units};
use nf_msgs::Note;
use record_table::Table;
use std::alloc::Global;

/// What is looked at of the world in which an instance fails.
#[derive(Drop)]
pub(crate) struct Scene<'a, F: Function> {
    pub(crate) site: Site,
    /// The packets of the input, which are numbered from 1.
    pub(crate) packets: &'a [CapturedPacket],
    pub(crate) log: &'a [Note],
    /// The records of the instance that fails.
    pub(crate) failed: &'a Table<F>,
    /// The records of the one that takes over.
    pub(crate) to: &'a Table<F>,
}

/// The affected units, and their packets as [`crate::Promoted`] has them.
#[derive(Drop)]
pub(crate) struct Affected {
    pub(crate) units: Units,
    pub(crate) lost: Numbers,
    pub(crate) pending: Numbers,
    pub(crate) order: Numbers,
}

impl<F: Function> Scene<'_, F> {
    /// The affected units and their packets.
    pub(crate) fn affected(&self, alloc: Global) -> Result<Affected, NoMemory>
        requires { AreNumbered 1 self.now.packets.now }
        ensures { (v : Stopped F.row.Denot F.Record) → IsSceneOf F.semantics v self.now
            → IfOk result (AreAffected (failover_in F.semantics v)) }
    {
        let units = self.failed.units(true)?;
        let order = self.lost_in_order(alloc)?;
        let lost = came_among(alloc, self.log, order.items())?;
        let pending = self.pending(alloc)?;
        Ok(Affected {
            units,
            lost,
            pending,
            order,
        })
    }

    /// The lost packets in the order in which they were processed.
    ///
    /// The packets of an affected unit make its record again, one after another, up to the one that stands by. Those after them are lost.
    fn lost_in_order(&self, alloc: Global) -> Result<Numbers, NoMemory>
        requires { AreNumbered 1 self.now.packets.now }
        ensures { (v : Stopped F.row.Denot F.Record) → IsSceneOf F.semantics v self.now
            → IfOk result (λ order. order ≡ lost_in_order (failover_in F.semantics v)) }
    {
        let mut again = Table::<F>::open(alloc);
        let mut order = Numbers::open(alloc);
        self.push_lost(&mut again, &mut order)?;
        Ok(order)
    }

    /// Puts the numbers of these packets into a list, and makes the records of the others again, from none.
    fn push_lost(&self, again: &mut Table<F>, order: &mut Numbers) -> Result<(), NoMemory>
        requires numbered { AreNumbered 1 self.now.packets.now }
        requires again { again.old.live ≡ finite.empty }
        requires order { order.old ≡ [] }
        ensures { (v : Stopped F.row.Denot F.Record) → IsSceneOf F.semantics v self.now
            → OnOk result (order.new ≡ lost_in_order (failover_in F.semantics v)) }
    {
        for note in self.log {
            let Note::Processed { number, .. } = note else {
                continue;
            };
            let Some(packet) = packet_at(self.packets, *number) else {
                continue;
            };
            let (flow, direction) = flow_of(&self.site, &packet);
            let unit = F::unit(&flow);
            if self.failed.record(&unit, true).is_none() {
                continue;
            }
            if has_seen_more::<F>(self.to.record(&unit, false), again.record(&unit, true)) {
                again.step_along(&self.site, flow, direction, &packet, true)?;
            } else {
                order.push(*number)?;
            }
        }
        Ok(())
    }

    /// The packets of affected units that came and weren't processed, by number.
    fn pending(&self, alloc: Global) -> Result<Numbers, NoMemory>
        requires { AreNumbered 1 self.now.packets.now }
        ensures { (v : Stopped F.row.Denot F.Record) → IsSceneOf F.semantics v self.now
            → IfOk result (λ found. found ≡ open_packets (failover_in F.semantics v)) }
    {
        let marks = processed(alloc, self.log)?;
        let mut found = Numbers::open(alloc);
        for note in self.log {
            let Note::Arrived(number) = note else {
                continue;
            };
            if self.is_open(marks.as_slice(), *number) {
                found.push(*number)?;
            }
        }
        Ok(found)
    }

    /// Whether the packet with a number is open, by the marks of those that were processed.
    fn is_open(&self, marks: &[bool], number: u32) -> bool
        requires { AreNumbered 1 self.now.packets.now }
        ensures { result ≡ (not (is_marked marks.now number) && affects F.semantics self.now number) }
    {
        !is_marked(marks, number) && self.affects(number)
    }

    /// Whether the packet with a number is of an affected unit.
    fn affects(&self, number: u32) -> bool
        requires { AreNumbered 1 self.now.packets.now }
        ensures { result ≡ affects F.semantics self.now number }
    {
        match packet_at(self.packets, number) {
            Some(packet) => {
                let (flow, _direction) = flow_of(&self.site, &packet);
                self.failed.record(&F::unit(&flow), true).is_some()
            }
            None => false,
        }
    }
}

/// Whether a record that stands by has seen more than one that is made again of the packets that it saw.
fn has_seen_more<F: Function>(standing: Option<&F::Record>, again: Option<&F::Record>) -> bool
    ensures { result ≡ has_seen_more F.semantics (option_copied standing.entry) (option_copied again.entry) }
{
    match (standing, again) {
        (None, _) => false,
        (Some(_), None) => true,
        (Some(standing), Some(again)) => F::newer(standing, again),
    }
}
