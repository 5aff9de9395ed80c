//! Links: the messages that wait, in the order in which they were sent.
ghost use Rattle.std.specs.Prelude.{◌≡◌, ◌==◌, [], ◌∷◌, ◌++◌, length, drop, IfOk, OnOk, OnErr, MatchOption};

use basics::{NoMemory, Sequence};
use std::alloc::Global;
use std::collections::VecDeque;
use std::marker::Model;

/// The messages of a link or of the input, in order.
#[derive(Drop)]
pub struct Link<M> {
    queue: VecDeque<M>,
}

impl<M> Model for Link<M> {
    ghost use Rattle.std.specs.Prelude.{List};

    ghost Value = { List M };

    ghost view = { λ l. l.queue.items };
}

impl<M> Link<M> {
    /// No messages. This takes no memory.
    pub fn open(alloc: Global) -> Self
        ensures { result ≡ [] }
    {
        Link {
            queue: VecDeque::new(alloc),
        }
    }

    /// These messages, in their order, without a copy.
    pub fn from_vec(messages: Vec<M>) -> Self
        ensures { result ≡ messages.items }
    {
        Link {
            queue: VecDeque::from_vec(messages),
        }
    }

    /// The messages, in their order.
    pub fn into_vec(self) -> Vec<M>
        ensures { result.items ≡ self }
    {
        self.queue.into_vec()
    }

    /// Whether no message is there.
    #[inline(always)]
    pub fn is_empty(&self) -> bool
        ensures { result ≡ (length self.now == 0) }
    {
        self.queue.is_empty()
    }

    /// The message that comes out next, where one is there.
    #[inline(always)]
    pub fn first(&self) -> Option<&M>
        ensures { MatchOption result (self.now ≡ []) (λ x. self.now ≡ x.now ∷ drop 1 self.now) }
    {
        self.queue.front()
    }

    /// Takes the first message, where one is there. The room stays.
    #[inline(always)]
    pub fn pop(&mut self) -> Option<M>
        ensures { MatchOption result ((self.old ≡ []) × (self.new ≡ [])) (λ x. self.old ≡ x ∷ self.new) }
    {
        self.queue.pop_front()
    }

    /// Takes the first message, where one is there. With the last one the room goes back.
    #[inline(always)]
    pub fn pop_for_good(&mut self) -> Option<M>
        ensures { MatchOption result ((self.old ≡ []) × (self.new ≡ [])) (λ x. self.old ≡ x ∷ self.new) }
    {
        let message = self.queue.pop_front();
        if self.queue.is_empty() {
            self.give_back();
        }
        message
    }

    /// Gives back the room that no message takes.
    #[cold]
    #[inline(never)]
    fn give_back(&mut self)
        ensures { self.new ≡ self.old }
    {
        self.queue.shrink_to_fit();
    }

    /// Puts a message after the others.
    #[inline(always)]
    pub fn push(&mut self, message: M) -> Result<(), NoMemory>
    where
        M: Drop,
        ensures ok { OnOk result (self.new ≡ self.old ++ message ∷ []) }
        ensures err { OnErr result (self.new ≡ self.old) }
    {
        if self.queue.len() == self.queue.capacity() {
            self.queue.reserve(1)?;
        }
        self.queue.push_back_reserved(message);
        Ok(())
    }
}

/// Links that hold these lists, in their order.
pub fn links_of<M: Drop>(
    alloc: Global,
    lists: Sequence<Sequence<M>>,
) -> Result<Vec<Link<M>>, NoMemory>
    ensures { IfOk result (λ links. links.items ≡ lists) }
{
    let lists = lists.into_vec();
    let mut links = Vec::with_capacity(alloc, lists.len())?;
    for list in lists {
        links.push(Link::from_vec(list.into_vec()))?;
    }
    Ok(links)
}

/// The lists that links hold, in their order.
pub fn lists_of<M: Drop>(
    alloc: Global,
    links: Vec<Link<M>>,
) -> Result<Sequence<Sequence<M>>, NoMemory>
    ensures { IfOk result (λ lists. lists ≡ links.items) }
{
    let mut lists = Vec::with_capacity(alloc, links.len())?;
    for link in links {
        lists.push(Sequence::from_vec(link.into_vec()))?;
    }
    Ok(Sequence::from_vec(lists))
}
