//! A capture read record by record.
ghost use Rattle.std.specs.Prelude.{◌≡◌, ◌≤◌, None, Ok, Err, drop, IfOk, IfSome, IfNone};
ghost use Rattle.std.specs.Option.{ForSome, ForNone};
ghost use Rattle.trace_reader.specs.Limits.{header_size, most_bytes};
ghost use Rattle.flow_filter.specs.Limits.{most_packets};

use crate::fault::TraceFault;
use crate::form::{Form, form_of};
use crate::record::{Next, bare_at_hand, read_record};
use crate::takes::fill;
use flow_filter::Packet;
use nf_io::Source;

/// Why a reader is at its end.
#[derive(Clone, Copy, Debug, PartialEq, Eq)]
pub enum Stop {
    End,
    Cut,
    Fault(TraceFault),
}

/// Reads a capture record by record. Contracts see its form, the place of the next record, the
/// number of packets given, and the end that it has come to, if any.
#[derive(Debug, Drop)]
pub struct TraceReader {
    form: Form,
    place: u64,
    count: u32,
    stop: Option<Stop>,
    ghost in_file: { place ≤ most_bytes },
    ghost in_count: { count ≤ most_packets },
}

impl TraceReader {
    ghost use Rattle.nf_io.specs.Meaning.{StaysOpen, untouched, Rose};
    ghost use Rattle.trace_reader.specs.declared.record.Next.TheVariants as next;
    ghost use Rattle.trace_reader.specs.Opened.{opened};
    ghost use Rattle.trace_reader.specs.Answers.{HasReadCause, AnswersOpen, AnswersNext, Advances, reading_of, stop_of, answer_of};

    /// Reads the 24 bytes at the head of a capture.
    pub fn open<S: Source>(source: &mut S) -> Result<TraceReader, TraceFault>
        requires { S.IsOpen source.old }
        ensures form { ForSome (S.left source.old) (λ bytes. AnswersOpen (opened bytes) (drop header_size bytes) (S.left source.new) result) }
        ensures start { IfOk result (λ reader. (reader.place ≡ header_size) × (reader.count ≡ 0) × (reader.stop ≡ None)) }
        ensures cause { HasReadCause (S.faults source.old) (S.faults source.new) result }
        ensures stays { StaysOpen S.IsOpen (untouched S.loan S.rest) source.old source.new }
    {
        let mut header = [0; 24];
        let got = fill(source, &mut header)?;
        let form = form_of(&header[..got])?;
        Ok(TraceReader {
            form,
            place: 24,
            count: 0,
            stop: None,
        })
    }

    /// How many packets it has given.
    pub fn packets(&self) -> u32
        ensures value { result ≡ self.now.count }
        ensures few { result ≤ most_packets }
    {
        self.count
    }

    /// Reads the next record. Once there is an end, each call gives it again and reads nothing.
    pub fn next<S: Source>(&mut self, source: &mut S) -> Result<Next, TraceFault>
        requires { S.IsOpen source.old }
        ensures answers { ForNone self.old.stop
            (AnswersNext (reading_of self.old (S.left source.old)) (reading_of self.new (S.left source.new)) result) }
        ensures advances { ForNone self.old.stop
            (Advances (reading_of self.old (S.left source.old)) (reading_of self.new (S.left source.new)) result) }
        ensures form { self.new.form ≡ self.old.form }
        ensures stop { self.new.stop ≡ stop_of result }
        ensures again { ForSome self.old.stop (λ stop. (result ≡ answer_of stop) × (self.new ≡ self.old) × (source.new ≡ source.old)) }
        ensures later { S.faults source.old ≤ S.faults source.new }
        ensures read { self.old.stop ≡ None → result ≡ Err TraceFault.Read → Rose (S.faults source.old) (S.faults source.new) }
        ensures stays { StaysOpen S.IsOpen (untouched S.loan S.rest) source.old source.new }
    {
        if let Some(stop) = self.stop {
            return stop.answer();
        }
        let step = match read_record(self.form, self.place, self.count, source) {
            Ok(step) => step,
            Err(fault) => {
                self.stop = Some(Stop::Fault(fault));
                return Err(fault);
            }
        };
        self.place += step.size;
        match step.next {
            Next::Packet(_) => self.count += 1,
            Next::Skipped => (),
            Next::End => self.stop = Some(Stop::End),
            Next::Cut => self.stop = Some(Stop::Cut),
        }
        Ok(step.next)
    }

    /// Reads the next record where it is at hand whole and is a packet of which no payload was captured. Else it reads nothing.
    #[inline(always)]
    pub(crate) fn next_bare<S: Source>(&mut self, source: &mut S) -> Option<Packet>
        requires { S.IsOpen source.old }
        ensures answers { IfSome result
            (λ packet. AnswersNext (reading_of self.old (S.left source.old)) (reading_of self.new (S.left source.new)) (Ok (next.Packet packet))) }
        ensures advances { IfSome result
            (λ packet. Advances (reading_of self.old (S.left source.old)) (reading_of self.new (S.left source.new)) (Ok (next.Packet packet))) }
        ensures form { self.new.form ≡ self.old.form }
        ensures stop { self.new.stop ≡ self.old.stop }
        ensures unread { IfNone result (self.new ≡ self.old) }
        ensures untouched { IfNone result (source.new ≡ source.old) }
        ensures later { S.faults source.old ≤ S.faults source.new }
        ensures stays { StaysOpen S.IsOpen (untouched S.loan S.rest) source.old source.new }
    {
        let ahead = source.at_hand();
        let (packet, size) = bare_at_hand(self.form, self.place, self.count, ahead)?;
        source.skip(size);
        self.place += size as u64;
        self.count += 1;
        Some(packet)
    }
}

impl Stop {
    ghost use Rattle.trace_reader.specs.Answers.{answer_of};

    /// What a reader answers where it stops: the end, a cut record, or the fault.
    fn answer(self) -> Result<Next, TraceFault>
        ensures { result ≡ answer_of self }
    {
        match self {
            Stop::End => Ok(Next::End),
            Stop::Cut => Ok(Next::Cut),
            Stop::Fault(fault) => Err(fault),
        }
    }
}
