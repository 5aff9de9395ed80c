//! How a worker finds the message of its next step: in the input, in what is kept from before the round, and in what links give.
ghost use Rattle.std.specs.Prelude.{◌≡◌, ◌<◌, false, length, IfNone, IfSome, MatchOption};
ghost use Rattle.actor_threads.specs.Ways.{last_clock};
ghost use Rattle.actor_threads.specs.Work.{is_input_of, Idled, Found, IsQuiet, IsQuietAt};

use super::{MOST_IN_ROW, Worker};
use actor_net::{Actor, Stamped};
use std::sync::Wait;

impl<A: Actor> Worker<A> {
    /// A message for the next step: first the input and what is kept, and then what the take ends give. Once a step was done,
    /// kept lists that were found empty aren't looked at.
    #[inline(always)]
    pub(super) fn look<R: Wait>(&mut self, rt: &R, moved: bool) -> Option<(u8, Stamped<A::Message>)>
        ensures found { MatchOption result (Idled self.old self.new) (λ f. Found A.is_ready self.old self.new f) }
        ensures clock { IfSome result (λ f. self.new.clock < last_clock) }
        ensures quiet { IfNone result (moved ≡ false → IsQuiet A.is_ready self.old) }
    {
        if self.clock >= u64::MAX {
            return None;
        }
        if moved && !self.keeping {
            return self.look_moved(rt);
        }
        if let Some(found) = self.look_kept() {
            return Some(found);
        }
        self.look_taken(rt)
    }

    /// A message for the next step, where nothing but the input may be kept.
    #[inline(always)]
    fn look_moved<R: Wait>(&mut self, rt: &R) -> Option<(u8, Stamped<A::Message>)>
        ensures { MatchOption result (Idled self.old self.new) (λ f. Found A.is_ready self.old self.new f) }
    {
        if self.number == 0 && !self.ins.is_empty() {
            if let Some(item) = self.next_item() {
                return Some((0, item));
            }
        }
        self.look_taken(rt)
    }

    /// The first that can be taken of the input and of what is kept. Where nothing can, it finds out whether something is kept.
    #[cold]
    #[inline(never)]
    fn look_kept(&mut self) -> Option<(u8, Stamped<A::Message>)>
        ensures found { MatchOption result (self.new ≡ self.old) (λ f. Found A.is_ready self.old self.new f) }
        ensures quiet { IfNone result (IsQuiet A.is_ready self.old) }
    {
        for port in 0..self.ins.len() {
            if let Some(message) = self.next_kept(port) {
                return Some((port as u8, message));
            }
        }
        self.see_kept();
        None
    }

    /// Finds out whether something but the input is kept.
    fn see_kept(&mut self)
        ensures { self.new ≡ self.old }
    {
        self.keeping = self
            .ins
            .iter()
            .skip(usize::from(self.number == 0))
            .any(|way| way.keeps());
    }

    /// The next of what is kept at a port.
    fn next_kept(&mut self, port: usize) -> Option<Stamped<A::Message>>
        requires { port < length self.old.ins }
        ensures found { MatchOption result (self.new ≡ self.old) (λ x. Found A.is_ready self.old self.new (port, x)) }
        ensures quiet { IfNone result (IsQuietAt A.is_ready self.old port) }
    {
        if self.is_input(port) {
            self.next_item()
        } else {
            self.next_message(port)
        }
    }

    /// Whether a port is the input: port 0 of node 0.
    #[inline(always)]
    fn is_input(&self, port: usize) -> bool
        ensures { result ≡ is_input_of self.now.number port }
    {
        self.number == 0 && port == 0
    }

    /// The next item of the input, where the node is ready for it.
    #[inline(always)]
    fn next_item(&mut self) -> Option<Stamped<A::Message>>
        requires { (self.old.number ≡ 0) × (0 < length self.old.ins) }
        ensures found { MatchOption result (self.new ≡ self.old) (λ x. Found A.is_ready self.old self.new (0, x)) }
        ensures quiet { IfNone result (IsQuietAt A.is_ready self.old 0) }
    {
        let Some(item) = self.ins[0].first() else {
            return None;
        };
        if !self.node.ready(item) {
            return None;
        }
        self.ins[0].next_kept()
    }

    /// The next of what is kept from another node.
    fn next_message(&mut self, port: usize) -> Option<Stamped<A::Message>>
        requires { (is_input_of self.old.number port ≡ false) × (port < length self.old.ins) }
        ensures found { MatchOption result (self.new ≡ self.old) (λ x. Found A.is_ready self.old self.new (port, x)) }
        ensures quiet { IfNone result (IsQuietAt A.is_ready self.old port) }
    {
        self.ins[port].next_kept()
    }

    /// The next message that a take end gives, with its port.
    #[inline(always)]
    fn look_taken<R: Wait>(&mut self, rt: &R) -> Option<(u8, Stamped<A::Message>)>
        ensures { MatchOption result (Idled self.old self.new) (λ f. Found A.is_ready self.old self.new f) }
    {
        for _ in 0..self.ins.len() {
            let port = self.next_turn();
            if let Some(message) = self.next_taken(rt, port) {
                self.stay(port);
                return Some((port as u8, message));
            }
        }
        None
    }

    /// The port at which the next look begins.
    #[inline(always)]
    fn next_turn(&mut self) -> usize
        requires { 0 < length self.old.ins }
        ensures port { result < length self.old.ins }
        ensures same { self.new ≡ self.old }
    {
        let port = if self.turn < self.ins.len() {
            self.turn
        } else {
            0
        };
        self.turn = port + 1;
        port
    }

    /// Lets the next look begin at a port that gave a message, but for the last of so many.
    #[inline(always)]
    fn stay(&mut self, port: usize)
        ensures { self.new ≡ self.old }
    {
        if self.in_row < MOST_IN_ROW {
            self.in_row += 1;
            self.turn = port;
        } else {
            self.in_row = 0;
        }
    }

    /// The next message from the take end of a port. The input has none.
    #[inline(always)]
    fn next_taken<R: Wait>(&mut self, rt: &R, port: usize) -> Option<Stamped<A::Message>>
        requires { port < length self.old.ins }
        ensures { MatchOption result (Idled self.old self.new) (λ x. Found A.is_ready self.old self.new (port, x)) }
    {
        if self.is_input(port) {
            return None;
        }
        self.end_at(rt, port)
    }

    /// The next message from the take end of a port that isn't the input.
    #[inline(always)]
    fn end_at<R: Wait>(&mut self, rt: &R, port: usize) -> Option<Stamped<A::Message>>
        requires { (is_input_of self.old.number port ≡ false) × (port < length self.old.ins) }
        ensures { MatchOption result (Idled self.old self.new) (λ x. Found A.is_ready self.old self.new (port, x)) }
    {
        self.ins[port].next_taken(rt, &mut self.rooms)
    }
}
