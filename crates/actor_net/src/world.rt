//! Worlds: which choices are enabled, and what each choice leaves of the nodes, the links, the input and the log.
ghost use Rattle.std.specs.Prelude.{◌≡◌, ◌==◌, ◌<◌, ◌*◌, true, false, [], ◌∷◌, length, drop, slice_get, slice_index_or, Some, OnOk, IfOk, IsErrOf};
ghost use Rattle.std.specs.List.{list_all};
ghost use Rattle.actor_net.specs.Network.{Network, node_numbers, IsWorld, is_input, is_enabled, world_next};
ghost use Rattle.actor_net.specs.Network.{is_done, queue_at, without_first, after, links_after, put_on};

mod choices;

use super::actor::Actor;
use super::choice::Choice;
use super::link::Link;
use super::link_table::LinkTable;
use super::outbox::Outbox;
use basics::{NoMemory, Sequence};
use std::alloc::{AllocFailed, Global};
use std::marker::Model;
use thiserror::Error;

/// Nodes, the links between them, the input and the log.
#[derive(Drop)]
pub struct World<A: Actor> {
    nodes: Vec<A>,
    links: LinkTable<A::Message>,
    input: Link<A::Message>,
    // Its notes are the log. Between steps nothing that was sent stands in it.
    outbox: Outbox<A::Message, A::Note>,
}

impl<A: Actor> Model for World<A> {
    ghost use Rattle.std.specs.Prelude.{◌≡◌, [], length};
    ghost use Rattle.actor_net.specs.Network.{Network, IsWorld};

    ghost Value = { Network A A.Message A.Note };

    ghost view = { λ w. record { nodes = w.nodes.items; links = w.links.lists; input = w.input; log = w.outbox.1 } };

    ghost invariant = { λ w. IsWorld (record { nodes = w.nodes.items; links = w.links.lists; input = w.input; log = w.outbox.1 })
        × (w.links.nodes ≡ length w.nodes.items) × (w.outbox.0 ≡ []) };
}

impl<A: Actor> World<A> {
    ghost use Rattle.actor_net.specs.Opening.{opening, world_of};

    /// The world at its start: nothing on a link and nothing noted.
    pub fn start(alloc: Global, nodes: Vec<A>, items: Vec<A::Message>) -> Result<World<A>, NoMemory>
        requires { (0 < length nodes.items) × (length nodes.items < node_numbers) }
        ensures { IfOk result (λ w. w ≡ opening nodes.items items.items) }
    {
        let links = LinkTable::open(alloc, nodes.len())?;
        Ok(World {
            nodes,
            links,
            input: Link::from_vec(items),
            outbox: Outbox::open(alloc),
        })
    }

    /// The world of these parts.
    pub fn from_parts(alloc: Global, parts: Parts<A>) -> Result<World<A>, NoMemory>
        requires { IsWorld (world_of parts) }
        ensures { IfOk result (λ w. w ≡ world_of parts) }
    {
        let links = LinkTable::from_lists(alloc, parts.nodes.items().len(), parts.links)?;
        Ok(World {
            nodes: parts.nodes.into_vec(),
            links,
            input: Link::from_vec(parts.input.into_vec()),
            outbox: Outbox::with_notes(alloc, parts.log.into_vec()),
        })
    }

    /// All that the world holds. It is dropped where memory runs out.
    pub fn parts(self) -> Result<Parts<A>, NoMemory>
        ensures parts { IfOk result (λ parts. world_of parts ≡ self) }
        ensures world { IsWorld self }
    {
        let links = self.links.into_lists()?;
        let (_, log) = self.outbox.parts();
        Ok(Parts {
            nodes: Sequence::from_vec(self.nodes),
            links,
            input: Sequence::from_vec(self.input.into_vec()),
            log: Sequence::from_vec(log),
        })
    }

    /// The nodes.
    pub fn nodes(&self) -> &[A]
        ensures { result.now ≡ self.now.nodes }
    {
        self.nodes.as_slice()
    }

    /// The notes, in the order in which they were made.
    pub fn log(&self) -> &[A::Note]
        ensures { result.now ≡ self.now.log }
    {
        self.outbox.notes()
    }

    /// Whether a choice can be taken.
    #[inline]
    pub fn enabled(&self, choice: Choice) -> bool
        ensures { result ≡ is_enabled A.is_ready self.now choice }
    {
        let nodes = self.nodes.len();
        if (choice.node as usize) < nodes && (choice.port as usize) < nodes {
            self.enabled_within(choice)
        } else {
            false
        }
    }

    /// Whether a choice of a node and a port that are there can be taken.
    #[inline(always)]
    fn enabled_within(&self, choice: Choice) -> bool
        requires { (choice.node < length self.now.nodes) × (choice.port < length self.now.nodes) }
        ensures { result ≡ is_enabled A.is_ready self.now choice }
    {
        if choice.is_input() {
            self.input_ready()
        } else {
            !self.links.is_empty(choice)
        }
    }

    /// Takes one step. Where memory runs out the world is only taken apart afterwards.
    pub fn take(&mut self, choice: Choice) -> Result<(), TakeFault>
        ensures ok { OnOk result (self.new ≡ world_next A.stepped self.old choice) }
        ensures enabled { OnOk result (is_enabled A.is_ready self.old choice ≡ true) }
        ensures not_enabled { IsErrOf result TakeFault.NotEnabled → (is_enabled A.is_ready self.old choice ≡ false) × (self.new ≡ self.old) }
    {
        if !self.enabled(choice) {
            return Err(TakeFault::NotEnabled);
        }
        self.take_enabled(choice)?;
        Ok(())
    }

    /// Takes one step by a choice that can be taken.
    #[inline(always)]
    pub(crate) fn take_enabled(&mut self, choice: Choice) -> Result<(), NoMemory>
        requires { is_enabled A.is_ready self.old choice ≡ true }
        ensures { OnOk result (self.new ≡ world_next A.stepped self.old choice) }
    {
        if choice.is_input() {
            let message = self.take_item(choice);
            return self.step(choice, message);
        }
        let message = self.take_sent(choice);
        self.step(choice, message)
    }

    /// Whether nothing is left to do: no input, no message on a link, and each node has ended.
    pub fn complete(&self) -> bool
        ensures { result ≡ is_done A.has_ended self.now }
    {
        self.input.is_empty() && self.links.all_empty() && all_ended(self.nodes.as_slice())
    }

    /// The item that an enabled choice of the input takes, taken out.
    #[inline(always)]
    fn take_item(&mut self, choice: Choice) -> A::Message
        requires enabled { is_enabled A.is_ready self.old choice ≡ true }
        requires input { is_input choice ≡ true }
        ensures first { queue_at self.old choice ≡ result ∷ drop 1 (queue_at self.old choice) }
        ensures rest { self.new ≡ without_first self.old choice }
    {
        match self.input.pop_for_good() {
            Some(item) => item,
            None => unreachable!(),
        }
    }

    /// The message that an enabled choice of a link takes, taken out.
    #[inline(always)]
    fn take_sent(&mut self, choice: Choice) -> A::Message
        requires enabled { is_enabled A.is_ready self.old choice ≡ true }
        requires link { is_input choice ≡ false }
        ensures first { queue_at self.old choice ≡ result ∷ drop 1 (queue_at self.old choice) }
        ensures rest { self.new ≡ without_first self.old choice }
    {
        match self.links.pop(choice) {
            Some(message) => message,
            None => unreachable!(),
        }
    }

    /// Where the node or a link fails, what is left of what was sent is dropped.
    #[inline(always)]
    fn step(&mut self, choice: Choice, message: A::Message) -> Result<(), NoMemory>
        requires { choice.node < length self.old.nodes }
        ensures { OnOk result
            ((node : A) → slice_get self.old.nodes choice.node ≡ Some node → self.new ≡ after self.old choice.node (A.stepped node choice.port message)) }
    {
        let node = &mut self.nodes[choice.node as usize];
        let Ok(()) = node.step(choice.port, message, &mut self.outbox) else {
            self.outbox.drop_sent();
            return Err(NoMemory);
        };
        deliver(
            self.nodes.len(),
            choice.node,
            &mut self.outbox,
            &mut self.links,
        )
    }

    /// Whether node 0 takes the first item of the input.
    #[inline]
    fn input_ready(&self) -> bool
        ensures { result ≡ is_enabled A.is_ready self.now (record { node = 0; port = 0 }) }
    {
        match self.input.first() {
            Some(item) => self.nodes[0].ready(item),
            None => false,
        }
    }
}

/// All that a world holds, each list from its first. Of n nodes the link from s to r stands at place s * n + r.
#[derive(Drop)]
pub struct Parts<A: Actor> {
    pub nodes: Sequence<A>,
    pub links: Sequence<Sequence<A::Message>>,
    pub input: Sequence<A::Message>,
    pub log: Sequence<A::Note>,
}

/// Why a choice isn't taken.
#[derive(Clone, Copy, Debug, PartialEq, Eq, Error)]
pub enum TakeFault {
    #[error("not enabled")]
    NotEnabled,
    #[error("out of memory")]
    NoMemory,
}

impl From<NoMemory> for TakeFault {
    ghost use Rattle.std.specs.Prelude.{◌≡◌};
    ghost use Rattle.actor_net.specs.declared.world.TakeFault.TheVariants.{NoMemory};

    ghost from_gives = { λ _ e. e ≡ NoMemory };

    fn from(_fault: NoMemory) -> Self {
        TakeFault::NoMemory
    }
}

/// Whether each node has ended.
fn all_ended<A: Actor>(nodes: &[A]) -> bool
    ensures { result ≡ list_all A.has_ended nodes.now }
{
    nodes.iter().all(|node| node.ended())
}

/// Moves what was sent to the ends of its links. What no node takes is dropped, and where memory runs out all that is left.
/// Most steps send one message or none.
#[inline(always)]
fn deliver<M: Drop, N>(
    nodes: usize,
    from: u8,
    outbox: &mut Outbox<M, N>,
    links: &mut LinkTable<M>,
) -> Result<(), NoMemory>
    requires nodes { (from < nodes) × (nodes < node_numbers) }
    requires square { (links.old.nodes ≡ nodes) × (length links.old.lists ≡ nodes * nodes) }
    ensures links { OnOk result (links.new.lists ≡ links_after nodes from outbox.old.0 links.old.lists) }
    ensures outbox { outbox.new ≡ ([], outbox.old.1) }
    ensures count { (links.new.nodes ≡ nodes) × (length links.new.lists ≡ nodes * nodes) }
    ensures loop_link { slice_index_or links.new.lists 0 [] ≡ slice_index_or links.old.lists 0 [] }
{
    let Some((to, message)) = outbox.next_sent() else {
        return Ok(());
    };
    let Ok(()) = put(nodes, from, to, message, links) else {
        outbox.drop_sent();
        return Err(NoMemory);
    };
    if outbox.has_sent() {
        return deliver_rest(nodes, from, outbox, links);
    }
    Ok(())
}

/// Moves what was sent after the first message to the ends of its links.
#[cold]
#[inline(never)]
fn deliver_rest<M: Drop, N>(
    nodes: usize,
    from: u8,
    outbox: &mut Outbox<M, N>,
    links: &mut LinkTable<M>,
) -> Result<(), NoMemory>
    requires nodes { (from < nodes) × (nodes < node_numbers) }
    requires square { (links.old.nodes ≡ nodes) × (length links.old.lists ≡ nodes * nodes) }
    ensures links { OnOk result (links.new.lists ≡ links_after nodes from outbox.old.0 links.old.lists) }
    ensures outbox { outbox.new ≡ ([], outbox.old.1) }
    ensures count { (links.new.nodes ≡ nodes) × (length links.new.lists ≡ nodes * nodes) }
    ensures loop_link { slice_index_or links.new.lists 0 [] ≡ slice_index_or links.old.lists 0 [] }
{
    while let Some((to, message)) = outbox.next_sent() {
        let Ok(()) = put(nodes, from, to, message, links) else {
            outbox.drop_sent();
            return Err(NoMemory);
        };
    }
    Ok(())
}

/// Puts a message that was sent at the end of its link, or drops it.
#[inline(always)]
fn put<M: Drop>(
    nodes: usize,
    from: u8,
    to: u8,
    message: M,
    links: &mut LinkTable<M>,
) -> Result<(), NoMemory>
    requires nodes { (from < nodes) × (nodes < node_numbers) }
    requires square { (links.old.nodes ≡ nodes) × (length links.old.lists ≡ nodes * nodes) }
    ensures links { OnOk result (links.new.lists ≡ put_on nodes from (to, message) links.old.lists) }
    ensures count { (links.new.nodes ≡ nodes) × (length links.new.lists ≡ nodes * nodes) }
    ensures loop_link { slice_index_or links.new.lists 0 [] ≡ slice_index_or links.old.lists 0 [] }
{
    let link = Choice {
        node: to,
        port: from,
    };
    if (to as usize) < nodes && !link.is_input() {
        return links.push(link, message);
    }
    Ok(())
}
