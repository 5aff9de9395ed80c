//! Choices in order, most of them in one byte.
ghost use Rattle.std.specs.Prelude.{◌≡◌, ◌<◌, ◌≤◌, ◌^◌, ◌++◌, List, [], ◌∷◌, length, take, drop, Decides, option_map, IfOk, None, OnOk, OnErr};
ghost use Rattle.std.specs.List.{flat_map};
ghost use Rattle.std.specs.Iterator.{YieldsFirst, item_count};
ghost use Rattle.actor_net.specs.declared.choice.Choice.{Choice as TheChoice};
ghost use Rattle.actor_net.specs.ChoiceCodes.{code_by, code_of, short_code as short_code_of, short_choice as short_choice_of, first_choice as first_choice_in};

use super::choice::Choice;
use basics::NoMemory;
use std::alloc::Global;
use std::marker::Model;

/// The byte before the node and the port of a choice that has no byte of its own.
const LONG: u8 = 255;

/// Choices in the order in which they are taken. One that takes from or goes to one of the first two nodes, the switch or the controller, takes one
/// byte, where the other node's number is below 63; any other takes three. Contracts see the choices.
#[derive(Debug, Drop)]
pub struct Choices {
    bytes: Vec<u8>,
    count: usize,
}

impl Model for Choices {
    ghost use Rattle.std.specs.Prelude.{List};
    ghost use Rattle.actor_net.specs.declared.choice.Choice.{Choice as TheChoice};
    ghost use Rattle.actor_net.specs.ChoiceCodes.{AreCoded, coded_choices};

    ghost Value = { List TheChoice };

    ghost view = { λ c. coded_choices c.count c.bytes.items };

    ghost invariant = { λ c. AreCoded c.count c.bytes.items };
}

impl Choices {
    /// No choices yet. This takes no memory.
    pub fn open(alloc: Global) -> Self
        ensures { result ≡ [] }
    {
        Choices {
            bytes: Vec::new(alloc),
            count: 0,
        }
    }

    /// No choices yet, with room for so many of one byte.
    pub fn with_capacity(alloc: Global, count: usize) -> Result<Self, NoMemory>
        ensures { IfOk result (λ choices. choices ≡ []) }
    {
        Ok(Choices {
            bytes: Vec::with_capacity(alloc, count)?,
            count: 0,
        })
    }

    /// These choices.
    pub fn from_slice(alloc: Global, list: &[Choice]) -> Result<Self, NoMemory>
        ensures { IfOk result (λ choices. choices ≡ list.now) }
    {
        let mut choices = Choices::with_capacity(alloc, list.len())?;
        for choice in list {
            choices.push(*choice)?;
        }
        Ok(choices)
    }

    /// Puts a choice after the others.
    #[inline(always)]
    pub fn push(&mut self, choice: Choice) -> Result<(), NoMemory>
        ensures ok { OnOk result (self.new ≡ self.old ++ choice ∷ []) }
        ensures err { OnErr result (self.new ≡ self.old) }
    {
        push_code(&mut self.bytes, choice)?;
        self.count += 1;
        Ok(())
    }

    /// Puts other choices after these.
    pub fn append(&mut self, more: &Choices) -> Result<(), NoMemory>
        ensures ok { OnOk result (self.new ≡ self.old ++ more.now) }
        ensures err { OnErr result (self.new ≡ self.old) }
    {
        self.bytes.extend_from_slice(more.bytes.as_slice())?;
        self.count += more.count;
        Ok(())
    }

    /// Leaves the first so many, or all where there are fewer.
    pub fn truncate(&mut self, count: usize)
        ensures { self.new ≡ take count self.old }
    {
        if count >= self.count {
            return;
        }
        let size = front_size(self.bytes.as_slice(), count);
        self.bytes.truncate(size);
        self.count = count;
    }

    /// How many there are.
    pub fn len(&self) -> usize
        ensures value { result ≡ length self.now }
        ensures small { length self.now < 2 ^ 63 }
    {
        self.count
    }

    /// Whether there are none.
    pub fn is_empty(&self) -> bool
        ensures { Decides result (self.now ≡ []) }
    {
        self.count == 0
    }

    /// All of them, to be read in order.
    pub fn iter(&self) -> ChoiceReader<'_>
        ensures choices { result ≡ self.now }
        ensures small { length self.now < 2 ^ 63 }
    {
        ChoiceReader {
            bytes: self.bytes.as_slice(),
            left: self.len(),
        }
    }

    /// All of them, as they are.
    pub fn to_vec(&self, alloc: Global) -> Result<Vec<Choice>, NoMemory>
        ensures { IfOk result (λ list. list.items ≡ self.now) }
    {
        let mut list = Vec::with_capacity(alloc, self.count)?;
        for choice in self.iter() {
            list.push(choice)?;
        }
        Ok(list)
    }
}

/// Choices that are read in order. Contracts see those that are left.
#[derive(Drop)]
pub struct ChoiceReader<'a> {
    bytes: &'a [u8],
    left: usize,
}

impl<'a> Model for ChoiceReader<'a> {
    ghost use Rattle.std.specs.Prelude.{◌≡◌, List, length};
    ghost use Rattle.actor_net.specs.declared.choice.Choice.{Choice as TheChoice};
    ghost use Rattle.actor_net.specs.ChoiceCodes.{coded_choices};

    ghost Value = { List TheChoice };

    ghost view = { λ r. coded_choices r.left r.bytes.now };

    ghost invariant = { λ r. length (coded_choices r.left r.bytes.now) ≡ r.left };
}

impl<'a> Iterator for ChoiceReader<'a> {
    type Item = Choice;

    ghost next_gives = { YieldsFirst (λ s. s) };

    ghost remaining = { item_count (λ s. s) };

    #[inline(always)]
    fn next(&mut self) -> Option<Choice> {
        if self.left == 0 {
            return None;
        }
        let (choice, rest) = first_choice(self.bytes)?;
        self.bytes = rest;
        self.left -= 1;
        Some(choice)
    }
}

/// Puts the bytes of a choice after others.
#[inline(always)]
fn push_code(bytes: &mut Vec<u8>, choice: Choice) -> Result<(), NoMemory>
    ensures ok { OnOk result (bytes.new.items ≡ bytes.old.items ++ code_of choice) }
    ensures err { OnErr result (bytes.new.items ≡ bytes.old.items) }
{
    let Some(byte) = short_code(choice) else {
        return push_long(bytes, choice);
    };
    if bytes.len() == bytes.capacity() {
        bytes.reserve(1)?;
    }
    bytes.push_reserved(byte);
    Ok(())
}

/// Puts a choice that no byte stands for after others.
#[cold]
#[inline(never)]
fn push_long(bytes: &mut Vec<u8>, choice: Choice) -> Result<(), NoMemory>
    ensures ok { OnOk result (bytes.new.items ≡ bytes.old.items ++ code_by choice None) }
    ensures err { OnErr result (bytes.new.items ≡ bytes.old.items) }
{
    bytes.extend_from_slice(&[LONG, choice.node, choice.port])
}

/// The byte that stands for a choice, where one does.
#[inline(always)]
fn short_code(choice: Choice) -> Option<u8>
    ensures { result ≡ short_code_of choice }
{
    if choice.node < 2 && choice.port < 63 {
        Some(choice.node * 64 + choice.port)
    } else if choice.port < 2 && choice.node < 63 {
        Some(128 + choice.port * 64 + choice.node)
    } else {
        None
    }
}

/// The choice that a byte stands for.
#[inline(always)]
fn short_choice(byte: u8) -> Choice
    ensures { result ≡ short_choice_of byte }
{
    if byte < 128 {
        Choice {
            node: byte / 64,
            port: byte % 64,
        }
    } else {
        Choice {
            node: byte % 64,
            port: byte / 64 - 2,
        }
    }
}

/// The first choice that bytes spell, and the bytes after it.
#[inline(always)]
fn first_choice(bytes: &[u8]) -> Option<(Choice, &[u8])>
    ensures { option_map (λ first. (first.0, first.1.now)) result ≡ first_choice_in bytes.now }
{
    let first = *bytes.first()?;
    if first != LONG {
        return Some((short_choice(first), &bytes[1..]));
    }
    if bytes.len() < 3 {
        return None;
    }
    let choice = Choice {
        node: bytes[1],
        port: bytes[2],
    };
    Some((choice, &bytes[3..]))
}

/// How many bytes the first so many choices take.
fn front_size(bytes: &[u8], count: usize) -> usize
    ensures { (cs : List TheChoice) → bytes.now ≡ flat_map code_of cs → take result bytes.now ≡ flat_map code_of (take count cs) }
{
    let mut rest = bytes;
    for _ in 0..count {
        rest = after_first(rest);
    }
    bytes.len() - rest.len()
}

/// The bytes after the first choice.
fn after_first(bytes: &[u8]) -> &[u8]
    ensures after { (cs : List TheChoice) → bytes.now ≡ flat_map code_of cs → result.now ≡ flat_map code_of (drop 1 cs) }
    ensures shorter { length result.now ≤ length bytes.now }
{
    match first_choice(bytes) {
        Some((_choice, rest)) => rest,
        None => bytes,
    }
}
