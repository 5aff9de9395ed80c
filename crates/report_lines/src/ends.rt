//! What ends the lines of packets: their outputs, and the names of instances.
ghost use Rattle.std.specs.Prelude.{◌≡◌, ◌++◌, codes, IfOk, IfSome};
ghost use Rattle.std.specs.Option.{ForSome};
ghost use Rattle.report_lines.specs.Ends.{output_end};

use basics::{NoMemory, Text};
use counted_lines::{Block, LONGEST_END};
use nf_function::{Function, Output};
use std::alloc::Global;
use std::marker::PhantomData;

/// The ends that were made, of each output code the last. Most packets have one of them.
#[derive(Drop)]
pub(crate) struct OutputEnds<F: Function> {
    by_code: Vec<Option<OutputEnd<F>>>,
    alloc: Global,
}

/// What ends the line of an output.
#[derive(Drop)]
struct OutputEnd<F: Function> {
    output: Output,
    end: Block,
    of: PhantomData<F>,
    ghost is_end: { end ≡ output_end F.semantics output },
}

/// How many codes have an end that is kept.
const CODES: usize = 16;

impl<F: Function> OutputEnds<F> {
    /// No ends yet.
    pub(crate) fn open(alloc: Global) -> Result<Self, NoMemory> {
        let mut by_code = Vec::with_capacity(alloc, CODES)?;
        for _code in 0..CODES {
            by_code.push(None)?;
        }
        Ok(OutputEnds { by_code, alloc })
    }

    /// The end that was kept of this output.
    #[inline(always)]
    pub(crate) fn kept(&self, output: &Output) -> Option<&Block>
        ensures { IfSome result (λ block. block.now ≡ output_end F.semantics output.now) }
    {
        let made = self.by_code.get(usize::from(output.code))?.as_ref()?;
        if made.output == *output {
            Some(&made.end)
        } else {
            None
        }
    }

    /// Makes the end of an output and keeps it, or gives none where it is long.
    pub(crate) fn make(&mut self, output: &Output) -> Result<Option<Block>, NoMemory>
        ensures { IfOk result (λ end. IfSome end (λ block. block ≡ output_end F.semantics output.now)) }
    {
        let mut text = Text::open(self.alloc);
        F::push_output(&mut text, output)?;
        if text.items().len() > LONGEST_END {
            return Ok(None);
        }
        let end = Block::line_end(text.items());
        if let Some(place) = self.by_code.get_mut(usize::from(output.code)) {
            *place = Some(OutputEnd {
                output: *output,
                end: end.copy(),
                of: PhantomData,
            });
        }
        Ok(Some(end))
    }
}

/// An instance's name, and what ends the lines of its packets.
#[derive(Drop)]
pub(crate) struct NameEnd<'a> {
    name: &'a [u8],
    /// None where the name is long.
    end: Option<Block>,
    ghost is_end: { ForSome end (λ block. block ≡ codes " " ++ name.now ++ codes "\n") },
}

impl<'a> NameEnd<'a> {
    /// The end of a name.
    pub(crate) fn of(name: &'a [u8]) -> NameEnd<'a>
        ensures { result.name.now ≡ name.entry.now }
    {
        let end = if name.len() <= LONGEST_END {
            Some(Block::line_end(name))
        } else {
            None
        };
        NameEnd { name, end }
    }

    pub(crate) fn name(&self) -> &[u8]
        ensures { result.now ≡ self.now.name.now }
    {
        self.name
    }

    /// What ends the lines, or none where the name is long.
    #[inline(always)]
    pub(crate) fn block(&self) -> Option<&Block>
        ensures { IfSome result (λ block. block.now ≡ codes " " ++ self.now.name.now ++ codes "\n") }
    {
        self.end.as_ref()
    }
}
