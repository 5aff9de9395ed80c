//! The links between all pairs of nodes, with counts of those that hold something.
ghost use Rattle.std.specs.Prelude.{◌≡◌, ◌==◌, ◌<◌, ◌+◌, ◌*◌, ◌^◌, [], ◌∷◌, ◌++◌, length, drop, replicate, OnOk, OnErr, IfOk, MatchOption};
ghost use Rattle.std.specs.List.{list_all};
ghost use Rattle.actor_net.specs.Network.{node_numbers};
ghost use Rattle.actor_net.specs.LinkTable.{LinkLists, IsWithin, link_of, with_link, held_below, all_held};

use super::choice::Choice;
use super::link::{Link, links_of, lists_of};
use basics::{NoMemory, Sequence};
use std::alloc::Global;
use std::marker::Model;

/// The links of so many nodes, each named by the choice that takes from it. Contracts see the number of the nodes and the
/// list of each link.
#[derive(Drop)]
pub struct LinkTable<M> {
    links: Vec<Link<M>>,
    // For each node, how many of the links to it hold something.
    counts: Vec<u8>,
    // How many links hold something.
    all: usize,
}

impl<M> Model for LinkTable<M> {
    ghost use Rattle.std.specs.Prelude.{length};
    ghost use Rattle.actor_net.specs.LinkTable.{LinkLists, AreCounts};

    ghost Value = { LinkLists M };

    ghost view = { λ t. record { nodes = length t.counts.items; lists = t.links.items } };

    ghost invariant = { λ t. AreCounts (record { nodes = length t.counts.items; lists = t.links.items }) t.counts.items t.all };
}

impl<M> LinkTable<M> {
    /// Links that hold nothing.
    pub fn open(alloc: Global, nodes: usize) -> Result<Self, NoMemory>
    where
        M: Drop,
        requires { nodes < node_numbers }
        ensures { IfOk result (λ t. t ≡ record { nodes = nodes; lists = replicate (nodes * nodes) [] }) }
    {
        Ok(LinkTable {
            links: empty_links(alloc, nodes * nodes)?,
            counts: Vec::from_elem(alloc, 0, nodes)?,
            all: 0,
        })
    }

    /// The links that hold these lists.
    pub fn from_lists(
        alloc: Global,
        nodes: usize,
        lists: Sequence<Sequence<M>>,
    ) -> Result<Self, NoMemory>
    where
        M: Drop,
        requires nodes { nodes < node_numbers }
        requires square { length lists ≡ nodes * nodes }
        ensures { IfOk result (λ t. t ≡ record { nodes = nodes; lists = lists }) }
    {
        let links = links_of(alloc, lists)?;
        let mut counts = Vec::with_capacity(alloc, nodes)?;
        let mut all = 0;
        for node in 0..nodes as u8 {
            let count = count_to(nodes, node, links.as_slice());
            counts.push(count)?;
            all += count as usize;
        }
        Ok(LinkTable { links, counts, all })
    }

    /// The lists of the links.
    pub fn into_lists(self) -> Result<Sequence<Sequence<M>>, NoMemory>
    where
        M: Drop,
        ensures { IfOk result (λ lists. lists ≡ self.lists) }
    {
        lists_of(*self.links.allocator(), self.links)
    }

    /// Whether a link holds nothing.
    #[inline]
    pub fn is_empty(&self, link: Choice) -> bool
        requires { IsWithin self.now.nodes link }
        ensures { result ≡ (length (link_of self.now link) == 0) }
    {
        let nodes = self.counts.len();
        self.links[link.place(nodes)].is_empty()
    }

    /// How many of the links to a node hold something.
    #[inline(always)]
    pub fn count_to(&self, node: u8) -> usize
        requires { node < self.now.nodes }
        ensures held { result ≡ held_below self.now node self.now.nodes }
        ensures small { result < 2 ^ 8 }
    {
        self.counts[node as usize] as usize
    }

    /// How many links hold something.
    #[inline(always)]
    pub fn count(&self) -> usize
        ensures held { result ≡ all_held self.now self.now.nodes }
        ensures small { result < 2 ^ 16 }
    {
        self.all
    }

    /// Whether no link holds anything.
    pub fn all_empty(&self) -> bool
        ensures { result ≡ list_all (λ l. length l == 0) self.now.lists }
    {
        all_empty(self.links.as_slice())
    }

    /// Takes the first message of a link.
    #[inline(always)]
    pub fn pop(&mut self, link: Choice) -> Option<M>
        requires { IsWithin self.old.nodes link }
        ensures first { MatchOption result (link_of self.old link ≡ []) (λ message. link_of self.old link ≡ message ∷ drop 1 (link_of self.old link)) }
        ensures rest { self.new ≡ with_link self.old link (drop 1 (link_of self.old link)) }
    {
        let place = link.place(self.counts.len());
        let queue = &mut self.links[place];
        let message = queue.pop()?;
        if queue.is_empty() {
            self.counts[link.node as usize] -= 1;
            self.all -= 1;
        }
        Some(message)
    }

    /// Puts a message at the end of a link.
    #[inline(always)]
    pub fn push(&mut self, link: Choice, message: M) -> Result<(), NoMemory>
    where
        M: Drop,
        requires { IsWithin self.old.nodes link }
        ensures ok { OnOk result (self.new ≡ with_link self.old link (link_of self.old link ++ message ∷ [])) }
        ensures err { OnErr result (self.new ≡ self.old) }
    {
        let place = link.place(self.counts.len());
        let queue = &mut self.links[place];
        let was_empty = queue.is_empty();
        queue.push(message)?;
        if was_empty {
            self.counts[link.node as usize] += 1;
            self.all += 1;
        }
        Ok(())
    }
}

/// So many links that hold nothing.
fn empty_links<M: Drop>(alloc: Global, count: usize) -> Result<Vec<Link<M>>, NoMemory>
    ensures { IfOk result (λ links. links.items ≡ replicate count []) }
{
    let mut links = Vec::with_capacity(alloc, count)?;
    for _place in 0..count {
        links.push(Link::open(alloc))?;
    }
    Ok(links)
}

/// How many of the links to a node hold something, counted anew.
fn count_to<M>(nodes: usize, node: u8, links: &[Link<M>]) -> u8
    requires { (node < nodes) × (nodes < node_numbers) × (length links.now ≡ nodes * nodes) }
    ensures { result ≡ held_below (record { nodes = nodes; lists = links.now }) node nodes }
{
    let mut count = 0;
    for port in 0..nodes as u8 {
        if !links[Choice { node, port }.place(nodes)].is_empty() {
            count += 1;
        }
    }
    count
}

/// Whether none of these links holds anything.
fn all_empty<M>(links: &[Link<M>]) -> bool
    ensures { result ≡ list_all (λ l. length l == 0) links.now }
{
    links.iter().all(|link| link.is_empty())
}
