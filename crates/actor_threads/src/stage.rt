//! What a round begins with.
ghost use Rattle.std.specs.Prelude.{◌≡◌, ◌==◌, length, IfOk};
ghost use Rattle.std.specs.List.{list_all};

use crate::merged::Merged;
use actor_net::{Actor, Choices, Link, Parts, World, links_of, lists_of};
use basics::{NoMemory, Sequence};
use std::alloc::Global;
use std::marker::Model;

/// A world between two rounds. The log isn't there, since it is put in order beside the rounds.
#[derive(Drop)]
pub(crate) struct Stage<A: Actor> {
    nodes: Vec<A>,
    links: Vec<Link<A::Message>>,
    input: Link<A::Message>,
}

impl<A: Actor> Model for Stage<A> {
    ghost use Rattle.std.specs.Prelude.{[]};
    ghost use Rattle.actor_net.specs.Network.{Network, IsWorld};

    ghost Value = { Network A A.Message A.Note };

    ghost view = { λ s. record { nodes = s.nodes.items; links = s.links.items; input = s.input; log = [] } };

    ghost invariant = { λ s. IsWorld {N = A.Note} (record { nodes = s.nodes.items; links = s.links.items; input = s.input; log = [] }) };
}

/// All that a stage holds. Of n nodes the link from s to r stands at place s * n + r.
#[derive(Drop)]
pub(crate) struct StageParts<A: Actor> {
    pub(crate) nodes: Vec<A>,
    pub(crate) links: Vec<Link<A::Message>>,
    pub(crate) input: Link<A::Message>,
}

impl<A: Actor> Stage<A> {
    ghost use Rattle.std.specs.Prelude.{◌≡◌, IfOk};
    ghost use Rattle.actor_net.specs.Network.{IsWorld, is_done};
    ghost use Rattle.actor_threads.specs.Round.{stage_of, after_log};

    /// A world without its log, and the log.
    pub(crate) fn open(alloc: Global, world: World<A>) -> Result<(Stage<A>, Vec<A::Note>), NoMemory>
        ensures { IfOk result (λ s. world ≡ after_log s.1.items s.0) }
    {
        let Parts {
            nodes,
            links,
            input,
            log,
        } = world.parts()?;
        let stage = Stage {
            nodes: nodes.into_vec(),
            links: links_of(alloc, links)?,
            input: Link::from_vec(input.into_vec()),
        };
        Ok((stage, log.into_vec()))
    }

    /// The stage of these parts.
    pub(crate) fn from_parts(parts: StageParts<A>) -> Self
        requires { IsWorld (stage_of parts) }
        ensures { result ≡ stage_of parts }
    {
        Stage {
            nodes: parts.nodes,
            links: parts.links,
            input: parts.input,
        }
    }

    /// All that the stage holds.
    pub(crate) fn parts(self) -> StageParts<A>
        ensures parts { stage_of result ≡ self }
        ensures world { IsWorld self }
    {
        StageParts {
            nodes: self.nodes,
            links: self.links,
            input: self.input,
        }
    }

    /// Whether nothing is left to do: no input, no message on a link, and each node has ended.
    pub(crate) fn complete(&self) -> bool
        ensures { result ≡ is_done A.has_ended self.now }
    {
        self.input.is_empty()
            && all_empty(self.links.as_slice())
            && all_ended(self.nodes.as_slice())
    }

    /// The world with this log, and the choices that led to it.
    pub(crate) fn close(
        self,
        alloc: Global,
        merged: Merged<A::Note>,
    ) -> Result<(World<A>, Choices), NoMemory>
        ensures world { IfOk result (λ r. r.0 ≡ after_log merged.log.items self) }
        ensures choices { IfOk result (λ r. r.1 ≡ merged.choices) }
    {
        let parts = Parts {
            nodes: Sequence::from_vec(self.nodes),
            links: lists_of(alloc, self.links)?,
            input: Sequence::from_vec(self.input.into_vec()),
            log: Sequence::from_vec(merged.log),
        };
        Ok((World::from_parts(alloc, parts)?, merged.choices))
    }
}

/// Whether nothing waits on any link.
fn all_empty<M>(links: &[Link<M>]) -> bool
    ensures { result ≡ list_all (λ l. length l == 0) links.now }
{
    links.iter().all(|link| link.is_empty())
}

/// Whether each node has ended.
fn all_ended<A: Actor>(nodes: &[A]) -> bool
    ensures { result ≡ list_all A.has_ended nodes.now }
{
    nodes.iter().all(|node| node.ended())
}
