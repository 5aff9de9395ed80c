//! The trait of network functions, with what contracts ask of each of them.
ghost use Rattle.std.specs.Prelude.{◌≡◌, ◌++◌, true, false, length, IsOk, IfOk, IfSome, OnOk, OnErr};
ghost use Rattle.flow_filter.specs.Flow.{flow_of};
ghost use Rattle.nf_function.specs.declared.function.BodyFault.TheVariants.{NoMemory as OutOfMemory};
ghost use Rattle.nf_function.specs.Short.{short_bytes};
ghost use Rattle.nf_function.specs.Units.{unit_of};
ghost use Rattle.nf_function.specs.Semantics.{Semantics, kept_after, output_for, is_sound, record_in};
ghost use Rattle.nf_function.specs.Records.{Reads, is_newer, IsRecordOrder, StepsMakeNewer, Laws};

use crate::kind::Kind;
use crate::output::Output;
use crate::short::ShortBody;
use crate::unit::Unit;
use basics::{Bytes, NoMemory, Text};
use flow_filter::{Direction, Flow, Packet, Site, flow_of};
use std::alloc::Global;
use thiserror::Error;

/// A network function: what it keeps of each unit, how each packet changes that, and how it is stored and printed.
pub trait Function {
    /// What is kept of a unit.
    type Record: Drop;

    /// What the function does.
    ghost semantics: { Semantics Self.Record };

    /// Which function it is.
    fn which() -> Kind
        ensures { result ≡ semantics.kind };

    /// The unit of a flow: the flow itself, or its local host.
    final fn unit(flow: &Flow) -> Unit
        ensures { result ≡ unit_of semantics.kind flow.now }
    {
        Self::which().unit_of(flow)
    }

    /// Takes a packet into what is kept of its unit, and gives the output.
    final fn step(
        alloc: Global,
        site: &Site,
        kept: &mut Option<Self::Record>,
        packet: &Packet,
    ) -> Result<Output, NoMemory>
        ensures kept { OnOk result (kept.new ≡ kept_after semantics site.now kept.old packet.now) }
        ensures output { IfOk result (λ output. output ≡ output_for semantics site.now kept.old packet.now) }
        ensures sound { let unit = unit_of semantics.kind (flow_of site.now packet.now).0 in
            is_sound semantics unit kept.old ≡ true → is_sound semantics unit kept.new ≡ true }
        ensures err { OnErr result (kept.new ≡ kept.old) }
        ensures never { semantics.takes_memory ≡ false → IsOk result }
    {
        let (flow, direction) = flow_of(site, packet);
        Self::step_along(alloc, site, flow, direction, kept, packet)
    }

    /// Takes a packet into what is kept of its unit, and gives the output. The packet's flow and the direction in which it goes are
    /// at hand.
    fn step_along(
        alloc: Global,
        site: &Site,
        flow: Flow,
        direction: Direction,
        kept: &mut Option<Self::Record>,
        packet: &Packet,
    ) -> Result<Output, NoMemory>
        requires { (flow, direction) ≡ flow_of site.now packet.now }
        ensures kept { OnOk result (kept.new ≡ kept_after semantics site.now kept.old packet.now) }
        ensures output { IfOk result (λ output. output ≡ output_for semantics site.now kept.old packet.now) }

        // What is valid for its unit stays so.
        ensures sound { is_sound semantics (unit_of semantics.kind flow) kept.old ≡ true → is_sound semantics (unit_of semantics.kind flow) kept.new ≡ true }
        ensures err { OnErr result (kept.new ≡ kept.old) }
        ensures never { semantics.takes_memory ≡ false → IsOk result };

    /// The bytes that a record is stored as.
    final fn write_record(alloc: Global, kept: &Self::Record) -> Result<Bytes, NoMemory>
        ensures { IfOk result (λ bytes. bytes ≡ semantics.body_of kept.now) }
    {
        let room = usize::from(Self::body_length(kept));
        let mut bytes = Bytes::from_vec(Vec::with_capacity(alloc, room)?);
        Self::push_body(&mut bytes, kept)?;
        Ok(bytes)
    }

    /// How many bytes a record is stored as.
    fn body_length(kept: &Self::Record) -> u16
        ensures { result ≡ length (semantics.body_of kept.now) };

    /// Puts the bytes that a record is stored as after others. After a refusal a part of them may stand there.
    fn push_body(bytes: &mut Bytes, kept: &Self::Record) -> Result<(), NoMemory>
        ensures { OnOk result (bytes.new ≡ bytes.old ++ semantics.body_of kept.now) };

    /// The record of the unit that the bytes spell.
    fn read_record(alloc: Global, unit: &Unit, body: &[u8]) -> Result<Self::Record, BodyFault>
        ensures { Reads result (record_in semantics unit.now body.now) };

    /// The numbers that a record is stored as, where two bytes and three numbers spell it.
    fn short_body(kept: &Self::Record) -> Option<ShortBody>
        ensures { IfSome result (λ body. short_bytes body ≡ semantics.body_of kept.now) };

    /// The record of the unit that the bytes of the numbers spell.
    fn read_short(alloc: Global, unit: &Unit, body: &ShortBody) -> Result<Self::Record, BodyFault>
        ensures { Reads result (record_in semantics unit.now (short_bytes body.now)) };

    /// Whether the first record has more packets than the second, or as many and a greater body.
    fn newer(a: &Self::Record, b: &Self::Record) -> bool
        ensures { result ≡ is_newer semantics a.now b.now };

    /// Whether the record holds a time.
    fn is_timed(kept: &Self::Record) -> bool
        ensures { result ≡ semantics.is_timed kept.now };

    /// A copy of the record.
    fn copy(alloc: Global, kept: &Self::Record) -> Result<Self::Record, NoMemory>
        ensures { IfOk result (λ other. other ≡ kept.now) };

    /// The text of an output.
    final fn print_output(alloc: Global, output: &Output) -> Result<Text, NoMemory>
        ensures { IfOk result (λ text. text ≡ semantics.output_text output.now) }
    {
        let mut text = Text::open(alloc);
        Self::push_output(&mut text, output)?;
        Ok(text)
    }

    /// Puts the text of an output after a text.
    fn push_output(text: &mut Text, output: &Output) -> Result<(), NoMemory>
        ensures ok { OnOk result (text.new ≡ text.old ++ semantics.output_text output.now) }
        ensures err { OnErr result (text.new ≡ text.old) };

    /// The text of a record.
    final fn print_record(alloc: Global, kept: &Self::Record) -> Result<Text, NoMemory>
        ensures { IfOk result (λ text. text ≡ semantics.record_text kept.now) }
    {
        let mut text = Text::open(alloc);
        Self::push_record(&mut text, kept)?;
        Ok(text)
    }

    /// Puts the text of a record after a text.
    fn push_record(text: &mut Text, kept: &Self::Record) -> Result<(), NoMemory>
        ensures ok { OnOk result (text.new ≡ text.old ++ semantics.record_text kept.now) }
        ensures err { OnErr result (text.new ≡ text.old) };

    ghost laws: { Laws semantics };
}

/// Why bytes give no record.
#[derive(Clone, Copy, Debug, PartialEq, Eq, Error)]
pub enum BodyFault {
    /// They aren't what a record of the unit is stored as.
    #[error("body")]
    Body,
    /// Memory ran out.
    #[error("no memory")]
    NoMemory,
}

impl From<NoMemory> for BodyFault {
    ghost use Rattle.std.specs.Prelude.{◌≡◌};
    ghost use Rattle.nf_function.specs.declared.function.BodyFault.TheVariants.{NoMemory as OutOfMemory};

    ghost from_gives = { λ _ e. e ≡ OutOfMemory };

    fn from(_e: NoMemory) -> BodyFault {
        BodyFault::NoMemory
    }
}

/// The law of [`Function::newer`]: together with equality it is a total order.
pub fn newer_is_an_order<F: Function>()
    ensures { IsRecordOrder F.semantics }
{}

/// The law of [`Function::step`]: it makes a record newer while its packets are below their greatest number.
pub fn steps_make_newer<F: Function>()
    ensures { StepsMakeNewer F.semantics }
{}
