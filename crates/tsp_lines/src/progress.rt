//! A treatment of lines under way: how far it is, and how it ends.
ghost use Rattle.std.specs.Prelude.{◌≡◌, ◌≢◌, ℕ, List, ◌≤◌, ◌<◌, ◌+◌, ◌-◌, ◌^◌, [], ◌++◌, ◌⊎◌};
ghost use Rattle.std.specs.Prelude.{length, take, true, false, IfOk, IfErr, OnOk, OnErr, IfSome};
ghost use Rattle.std.specs.Prelude.{MatchOption, MatchResult};
ghost use Rattle.std.specs.declared.option.Option.{Option};
ghost use Rattle.tsp_io.specs.Streams.{Gives, Grows};
ghost use Rattle.tsp_lines.specs.Lines.{NoFeed, IsOver};
ghost use Rattle.tsp_lines.specs.Meanings.{Breaks, Goes};
ghost use Rattle.tsp_lines.specs.Outputs.{Hands};
ghost use Rattle.tsp_lines.specs.Outcomes.{Comes};
ghost use Rattle.tsp_lines.specs.Readings.{IsNext, IsFill, ends_input, meets_end};
ghost use Rattle.tsp_lines.specs.Faults.{Counts};
ghost use Rattle.tsp_lines.specs.Frames.{Leaves};
ghost use Rattle.tsp_lines.specs.Turns.{only_so, line_sayings, end_sayings, Ends, Stopped};
ghost use Rattle.tsp_lines.specs.Turns.{IsAt, StandsOpen, StaysOpen, StillKeepsUp, TriesHeld};

use crate::next::{Fill, Next};
use crate::output::{Output, Unwritten};
use crate::reader::LineReader;
use crate::refusal::{bad_line, limit_line};
use crate::treat::{Outcome, outcome_of};
use crate::treatment::{Stop, Treatment};
use tsp_io::sink::Sink;
use tsp_io::source::Source;

/// Writes all that is held, and then these words.
fn say<K: Sink>(output: &mut Output, sink: &mut K, words: &[u8]) -> Result<(), Unwritten>
    requires { length words.now ≤ 65536 }
    ensures ok { OnOk result (Hands (K.written sink.old) output.old (K.written sink.new) []
        words.now) }
    ensures err { OnErr result (Breaks (λ w. w ≡ words.now) (K.written sink.old) output.old
        (K.written sink.new) output.new) }
    ensures writes { Counts (K.faults sink.old) (K.faults sink.new)
        (result ≡ Err Unwritten.WriteFault) }
    ensures unwritten { result ≡ Err Unwritten.WriteFault → 0 < length output.new }
{
    output.put(sink, words)?;
    output.flush(sink)
}

/// Writes these words, and ends so.
fn end_with<K: Sink>(output: &mut Output, sink: &mut K, words: &[u8], outcome: Outcome) -> Outcome
    requires short { length words.now ≤ 65536 }
    requires told { (outcome ≡ Outcome.Bad) ⊎ (outcome ≡ Outcome.Limit) }
    ensures ends { Ends (only_so outcome words.now) (K.written sink.old) output.old
        (K.written sink.new) result }
    ensures writes { Counts (K.faults sink.old) (K.faults sink.new) (result ≡ Outcome.WriteFault) }
    ensures kind { (result ≢ Outcome.ReadFault) × (result ≢ Outcome.Ok) }
{
    match say(output, sink, words) {
        Ok(()) => outcome,
        Err(fault) => outcome_of(fault),
    }
}

/// A treatment under way: what was read, what is to be written, and the next line's number, from 1 on.
#[derive(Drop)]
pub(crate) struct Progress {
    reader: LineReader,
    output: Output,
    number: u64,
}

impl Progress {
    /// Before the first line.
    pub(crate) fn new(reader: LineReader, output: Output) -> Progress
        ensures { (result.reader ≡ reader) × (result.output ≡ output) × (result.number ≡ 1) }
    {
        Progress {
            reader,
            output,
            number: 1,
        }
    }

    /// Treats the first line that is held, if it can be treated in its place; false if it can't, and then nothing has
    /// changed.
    #[inline(always)]
    pub(crate) fn try_held<K: Sink, T: Treatment>(
        &mut self,
        sink: &mut K,
        treatment: &mut T,
    ) -> Result<bool, Unwritten>
        requires counted { self.old.number + length self.old.reader.held ≤ self.old.reader.got + 1 }
        requires limit { self.old.reader.limit < 2 ^ 63 }
        ensures tries { (input left written : Option (List ℕ)) → (lines : List (List ℕ))
            → (text : List ℕ) → IsAt T.meaning (StandsOpen T.meaning (T.stands treatment.old)) input
            left written (K.written sink.old) self.old.reader self.old.output self.old.number lines
            text → TriesHeld T.meaning (T.stands treatment.new) input left written
            (K.written sink.new) self.new.reader self.new.output self.new.number lines text result }
        ensures grew { (lines : List (List ℕ)) → (text : List ℕ)
            → StandsOpen T.meaning (T.stands treatment.old) lines → T.meaning.accepts lines text
            → (octets : List ℕ) × Grows (K.written sink.old) (K.written sink.new) octets }
        ensures counted { self.new.number + length self.new.reader.held ≤ self.new.reader.got + 1 }
        ensures smaller { result ≡ Ok true
            → length self.new.reader.held < length self.old.reader.held }
        ensures same { (self.new.reader.got ≡ self.old.reader.got)
            × (self.new.reader.limit ≡ self.old.reader.limit) }
        ensures left { result ≡ Ok false → length self.new.reader.held ≡ length self.old.reader.held }
        ensures writes { Counts (K.faults sink.old) (K.faults sink.new)
            (result ≡ Err Unwritten.WriteFault) }
    {
        if !self.reader.is_within() {
            return Ok(false);
        }
        match treatment.try_front(self.reader.octets(), &mut self.output, sink) {
            Ok(Some(count)) => {
                self.reader.skip(count);
                self.number += 1;
                Ok(true)
            }
            Ok(None) => Ok(false),
            Err(fault) => Err(fault),
        }
    }

    /// The next line. What is held is written before more of the input is read.
    #[inline(always)]
    fn next<S: Source, K: Sink>(&mut self, source: &mut S, sink: &mut K) -> Result<Next, Unwritten>
        requires open { S.ended source.old ≡ false }
        ensures next { IfOk result (λ next. (octets : List ℕ)
            × Gives (S.left source.old) (S.left source.new) octets
            × (self.new.reader.got ≡ self.old.reader.got + length octets)
            × IsNext self.new.reader (self.old.reader.held ++ octets) next) }
        ensures hands { Hands (K.written sink.old) self.old.output (K.written sink.new)
            self.new.output [] }
        ensures flushed { (source.new ≡ source.old) ⊎ (self.new.output ≡ []) }
        ensures kept { IfErr result (λ _. source.new ≡ source.old) }
        ensures failed { result ≡ Ok Next.Failed → self.new.output ≡ [] }
        ensures same { (self.new.number ≡ self.old.number)
            × (self.new.reader.limit ≡ self.old.reader.limit)
            × (self.new.reader.got ≤ self.new.reader.limit + 1) }
        ensures reads { Counts (S.faults source.old) (S.faults source.new)
            (result ≡ Ok Next.Failed) }
        ensures writes { Counts (K.faults sink.old) (K.faults sink.new)
            (result ≡ Err Unwritten.WriteFault) }
        ensures unwritten { result ≡ Err Unwritten.WriteFault → 0 < length self.new.output }
        ensures over { IfOk result (λ next. ends_input next ≡ true → IsOver (S.left source.new)) }
        ensures ended { IfOk result (λ next. S.ended source.new ≡ ends_input next) }
    {
        if let Some(next) = self.reader.next_held() {
            return Ok(next);
        }
        self.output.flush(sink)?;
        Ok(self.reader.next(source))
    }

    /// Writes what stopped the treatment.
    fn stop<K: Sink>(&mut self, sink: &mut K, stop: Stop) -> Outcome
        ensures stops { Stopped self.old.number (K.written sink.old) self.old.output
            (K.written sink.new) self.new.output stop result }
        ensures writes { Counts (K.faults sink.old) (K.faults sink.new)
            ((result ≡ Outcome.WriteFault) × (stop ≢ Stop.WriteFault)) }
        ensures kind { (result ≢ Outcome.ReadFault) × (result ≢ Outcome.Ok) }
        ensures same { (self.new.reader ≡ self.old.reader) × (self.new.number ≡ self.old.number) }
    {
        match stop {
            Stop::Bad(cause) => {
                let words = bad_line(self.number, cause.words());
                end_with(&mut self.output, sink, words.as_slice(), Outcome::Bad)
            }
            Stop::Limit => {
                let words = limit_line(self.number);
                end_with(&mut self.output, sink, words.as_slice(), Outcome::Limit)
            }
            Stop::WriteFault => Outcome::WriteFault,
            Stop::OutOfMemory => Outcome::OutOfMemory,
        }
    }

    /// Treats the line last read; None where it is accepted.
    #[inline(never)]
    fn treat<K: Sink, T: Treatment>(&mut self, sink: &mut K, treatment: &mut T) -> Option<Outcome>
        requires short { length self.old.reader.line ≤ 1024 }
        requires feedless { NoFeed self.old.reader.line }
        requires counted { self.old.number < 2 ^ 64 - 1 }
        ensures treats { (lines : List (List ℕ)) → (text : List ℕ) → T.stands treatment.old lines
            → T.meaning.accepts lines text → ¬ T.meaning.full lines
            → MatchOption result (Goes T.meaning (T.stands treatment.new) lines text
            self.old.reader.line (K.written sink.old) self.old.output (K.written sink.new)
            self.new.output) (λ outcome. Ends (line_sayings T.meaning lines text self.old.number
            self.old.reader.line) (K.written sink.old) self.old.output (K.written sink.new)
            outcome) }
        ensures number { result ≡ None → self.new.number ≡ self.old.number + 1 }
        ensures same { self.new.reader ≡ self.old.reader }
        ensures writes { Counts (K.faults sink.old) (K.faults sink.new)
            (result ≡ Some Outcome.WriteFault) }
        ensures kind { (result ≢ Some Outcome.ReadFault) × (result ≢ Some Outcome.Ok) }
    {
        match treatment.treat(self.reader.line(), &mut self.output, sink) {
            Ok(()) => {
                self.number += 1;
                None
            }
            Err(stop) => Some(self.stop(sink, stop)),
        }
    }

    /// Refuses a line of more than 1,024 octets.
    fn refuse_long<K: Sink, T: Treatment>(&mut self, sink: &mut K, treatment: &mut T) -> Outcome
        ensures ends { (lines : List (List ℕ)) → (text : List ℕ) → (line : List ℕ)
            → T.stands treatment.old lines → T.meaning.accepts lines text → ¬ T.meaning.full lines
            → NoFeed line → 1024 < length line → self.old.reader.start ≡ take 8 line
            → Ends (line_sayings T.meaning lines text self.old.number line) (K.written sink.old)
            self.old.output (K.written sink.new) result }
        ensures same { self.new.reader ≡ self.old.reader }
        ensures writes { Counts (K.faults sink.old) (K.faults sink.new)
            (result ≡ Outcome.WriteFault) }
        ensures kind { (result ≢ Outcome.ReadFault) × (result ≢ Outcome.Ok) }
    {
        let cause = treatment.refuse_long(self.reader.start());
        self.stop(sink, Stop::Bad(cause))
    }

    /// Ends the treatment where the input ends.
    fn finish<K: Sink, T: Treatment>(&mut self, sink: &mut K, treatment: &mut T) -> Outcome
        ensures ends { (lines : List (List ℕ)) → (text : List ℕ) → T.stands treatment.old lines
            → T.meaning.accepts lines text
            → Ends (end_sayings T.meaning lines self.old.number) (K.written sink.old)
            self.old.output (K.written sink.new) result }
        ensures same { self.new.reader ≡ self.old.reader }
        ensures writes { Counts (K.faults sink.old) (K.faults sink.new)
            (result ≡ Outcome.WriteFault) }
        ensures kind { result ≢ Outcome.ReadFault }
    {
        if let Err(stop) = treatment.end(&mut self.output, sink) {
            return self.stop(sink, stop);
        }
        match self.output.flush(sink) {
            Ok(()) => Outcome::Ok,
            Err(fault) => outcome_of(fault),
        }
    }

    /// Whether the input goes on. What is held is written before more of it is read.
    fn peek<S: Source, K: Sink>(&mut self, source: &mut S, sink: &mut K) -> Result<Fill, Unwritten>
        requires open { S.ended source.old ≡ false }
        ensures fills { IfOk result (λ fill. ((octets : List ℕ)
            × Gives (S.left source.old) (S.left source.new) octets
            × (self.new.reader.held ≡ self.old.reader.held ++ octets)
            × (self.new.reader.got ≡ self.old.reader.got + length octets))
            × IsFill fill self.new.reader.held) }
        ensures fits { IfOk result (λ _. (self.new.reader.got ≤ self.new.reader.limit + 1)
            × (length self.new.reader.held ≤ 65536)) }
        ensures kept { IfErr result (λ _. source.new ≡ source.old) }
        ensures hands { Hands (K.written sink.old) self.old.output (K.written sink.new)
            self.new.output [] }
        ensures flushed { IfOk result (λ _. self.new.output ≡ []) }
        ensures same { (self.new.number ≡ self.old.number)
            × (self.new.reader.limit ≡ self.old.reader.limit) }
        ensures reads { Counts (S.faults source.old) (S.faults source.new)
            (result ≡ Ok Fill.NotRead) }
        ensures writes { Counts (K.faults sink.old) (K.faults sink.new)
            (result ≡ Err Unwritten.WriteFault) }
        ensures unwritten { result ≡ Err Unwritten.WriteFault → 0 < length self.new.output }
        ensures over { result ≡ Ok Fill.Over → IsOver (S.left source.new) }
        ensures ended { IfOk result (λ fill. S.ended source.new ≡ meets_end fill) }
    {
        match self.output.flush(sink) {
            Ok(()) => Ok(self.reader.peek(source)),
            Err(fault) => Err(fault),
        }
    }

    /// Ends a treatment that allows no further line: well where the input is at its end, else past the limit.
    pub(crate) fn close<S: Source, K: Sink, T: Treatment>(
        &mut self,
        source: &mut S,
        sink: &mut K,
        treatment: &mut T,
    ) -> Outcome
        requires open { S.ended source.old ≡ false }
        requires full { (lines : List (List ℕ)) → T.stands treatment.old lines
            → T.meaning.full lines }
        ensures closes { (input : Option (List ℕ)) → (written : Option (List ℕ))
            → (lines : List (List ℕ)) → (text : List ℕ)
            → IsAt T.meaning (T.stands treatment.old) input (S.left source.old) written
            (K.written sink.old) self.old.reader self.old.output self.old.number lines text
            → Comes T.meaning self.old.reader.limit input (S.left source.new) written
            (K.written sink.new) result }
        ensures keeps_up { StillKeepsUp T.meaning (T.stands treatment.old) self.old.reader
            self.old.output self.old.number (S.left source.old) (S.left source.new)
            (K.written sink.old) (K.written sink.new) }
        ensures leaves { Leaves S.Source K.Sink source.old source.new sink.old sink.new result }
    {
        match self.peek(source, sink) {
            Ok(Fill::More) => self.stop(sink, Stop::Limit),
            Ok(Fill::Over) => self.finish(sink, treatment),
            Ok(Fill::NotRead) => Outcome::ReadFault,
            Err(fault) => outcome_of(fault),
        }
    }

    /// Reads and treats the next line; None where the treatment goes on.
    pub(crate) fn turn<S: Source, K: Sink, T: Treatment>(
        &mut self,
        source: &mut S,
        sink: &mut K,
        treatment: &mut T,
    ) -> Option<Outcome>
        requires open { S.ended source.old ≡ false }
        requires counted { self.old.number + length self.old.reader.held ≤ self.old.reader.got + 1 }
        requires limit { self.old.reader.limit < 2 ^ 63 }
        ensures turns { (input : Option (List ℕ)) → (written : Option (List ℕ))
            → (lines : List (List ℕ)) → (text : List ℕ)
            → IsAt T.meaning (StandsOpen T.meaning (T.stands treatment.old)) input
            (S.left source.old) written (K.written sink.old) self.old.reader self.old.output self.old.number lines text
            → MatchOption result ((more : List (List ℕ)) × (longer : List ℕ)
            × IsAt T.meaning (T.stands treatment.new) input (S.left source.new) written
            (K.written sink.new) self.new.reader self.new.output self.new.number more longer)
            (Comes T.meaning self.old.reader.limit input (S.left source.new) written
            (K.written sink.new)) }
        ensures keeps_up { StillKeepsUp T.meaning (StandsOpen T.meaning (T.stands treatment.old))
            self.old.reader self.old.output self.old.number (S.left source.old) (S.left source.new)
            (K.written sink.old) (K.written sink.new) }
        ensures leaves { MatchOption result (StaysOpen S.Source K.Sink source.old source.new sink.old
            sink.new self.old.reader self.new.reader self.new.number)
            (Leaves S.Source K.Sink source.old source.new sink.old sink.new) }
    {
        let next = match self.next(source, sink) {
            Ok(next) => next,
            Err(fault) => return Some(outcome_of(fault)),
        };
        match next {
            Next::Line => self.treat(sink, treatment),
            Next::Last => match self.treat(sink, treatment) {
                Some(outcome) => Some(outcome),
                None => Some(self.finish(sink, treatment)),
            },
            Next::Long | Next::LongLast => Some(self.refuse_long(sink, treatment)),
            Next::End => Some(self.finish(sink, treatment)),
            Next::Limit => Some(self.stop(sink, Stop::Limit)),
            Next::Failed => Some(Outcome::ReadFault),
        }
    }
}
