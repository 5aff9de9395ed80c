//! The enabled choices of a world by their places, in order of (node, port).
ghost use Rattle.std.specs.Prelude.{◌≡◌, ◌<◌, ◌-◌, length, slice_get};
ghost use Rattle.actor_net.specs.Schedules.{ports_below, enabled_choices};

use super::World;
use crate::actor::Actor;
use crate::choice::Choice;

impl<A: Actor> World<A> {
    /// How many choices are enabled.
    pub(crate) fn count_enabled(&self) -> usize
        ensures { result ≡ length (enabled_choices A.is_ready self.now) }
    {
        let held = self.links.count();
        if self.input_ready() { held + 1 } else { held }
    }

    /// The enabled choice at a place from 0, in order of (node, port).
    #[inline(always)]
    pub(crate) fn nth_enabled(&self, place: usize) -> Option<Choice>
        ensures { result ≡ slice_get (enabled_choices A.is_ready self.now) place }
    {
        let nodes = self.nodes.len() as u8;
        let mut left = place;
        for node in 0..nodes {
            let count = self.count_of(node);
            if left < count {
                return self.nth_of(node, left);
            }
            left -= count;
        }
        None
    }

    /// The last of the enabled choices, in order of (node, port).
    #[inline(always)]
    pub(crate) fn last_enabled(&self) -> Option<Choice>
        ensures { result ≡ slice_get (enabled_choices A.is_ready self.now) (length (enabled_choices A.is_ready self.now) - 1) }
    {
        if self.links.count() == 0 {
            return self.input_ready().then_some(Choice { node: 0, port: 0 });
        }
        let nodes = self.nodes.len() as u8;
        for passed in 0..nodes {
            let node = nodes - 1 - passed;
            if node == 0 {
                return self.last_of(node);
            }
            let count = self.count_of(node);
            if count == 1 {
                // The only one is the first, too, and most come from a low port.
                return self.nth_of(node, 0);
            }
            if count > 0 {
                return self.last_of(node);
            }
        }
        None
    }

    /// The last of a node's enabled choices, in order of ports.
    #[inline(always)]
    fn last_of(&self, node: u8) -> Option<Choice>
        requires { node < length self.now.nodes }
        ensures { result ≡ slice_get (ports_below A.is_ready self.now node (length self.now.nodes))
            (length (ports_below A.is_ready self.now node (length self.now.nodes)) - 1) }
    {
        let nodes = self.nodes.len() as u8;
        for passed in 0..nodes {
            let port = nodes - 1 - passed;
            let choice = Choice { node, port };
            if self.enabled_within(choice) {
                return Some(choice);
            }
        }
        None
    }

    /// How many choices of a node are enabled.
    #[inline]
    fn count_of(&self, node: u8) -> usize
        requires { node < length self.now.nodes }
        ensures { result ≡ length (ports_below A.is_ready self.now node (length self.now.nodes)) }
    {
        let held = self.links.count_to(node);
        if node == 0 && self.input_ready() {
            held + 1
        } else {
            held
        }
    }

    /// The enabled choice of a node at a place from 0, in order of ports.
    #[inline(always)]
    fn nth_of(&self, node: u8, place: usize) -> Option<Choice>
        requires { node < length self.now.nodes }
        ensures { result ≡ slice_get (ports_below A.is_ready self.now node (length self.now.nodes)) place }
    {
        let nodes = self.nodes.len() as u8;
        let mut left = place;
        for port in 0..nodes {
            let choice = Choice { node, port };
            let count = self.enabled_within(choice) as usize;
            if left < count {
                return Some(choice);
            }
            left -= count;
        }
        None
    }
}
