//! What a command does with lines.
ghost use Rattle.std.specs.Prelude.{◌≡◌, ◌≢◌, ℕ, ◌≤◌, ◌<◌, ◌++◌, ◌∷◌, [], length, take, List};
ghost use Rattle.std.specs.Prelude.{IfOk, IfSome, MatchBool, MatchResult};
ghost use Rattle.tsp_io.specs.Counts.{Rose};
ghost use Rattle.tsp_lines.specs.Lines.{NoFeed};
ghost use Rattle.tsp_lines.specs.Meanings.{Meaning, BreaksOff, Goes, Tried, StopsAt, Closes, StopsAtEnd, stop_of};

use crate::cause::Cause;
use crate::output::{Output, Unwritten};
use tsp_io::sink::Sink;

/// Why a treatment ends early.
#[derive(Drop)]
pub enum Stop {
    /// The line, or the end of the input, is refused.
    Bad(Cause),
    /// The line is past a limit of the command's own.
    Limit,
    /// A write failed.
    WriteFault,
    /// Out of memory.
    OutOfMemory,
}

impl From<Unwritten> for Stop {
    ghost from_gives = { λ fault stop. stop ≡ stop_of fault };

    fn from(fault: Unwritten) -> Stop {
        match fault {
            Unwritten::WriteFault => Stop::WriteFault,
            Unwritten::OutOfMemory => Stop::OutOfMemory,
        }
    }
}

/// A command of lines: it takes one line after the other, and puts their output into an `Output`.
pub trait Treatment {
    /// The meaning of the command: which lines it accepts after which, and their output.
    ghost meaning: { Meaning };

    /// The treatment stands for these lines: it is in the state after them, and all were accepted.
    ghost stands: { Self → List (List ℕ) → Type 0 };

    /// Whether no further line is allowed. It is asked before each line; where it is true, the first octet
    /// of another line passes a limit.
    fn is_full(&self) -> bool
        ensures { (lines : List (List ℕ)) → stands self.now lines
            → MatchBool result (meaning.full lines) (¬ meaning.full lines) };

    /// Treats the first line of some octets as `treat` does, if its line feed is among them, it is of a frequent kind
    /// and nothing refuses it; gives how many octets it has with its line feed. With `Ok(None)` nothing has changed,
    /// and the line comes to `treat`; with an error a part of its output was put, and no further call follows. (So no
    /// line feed is searched, and what this gives is small: a `Stop` isn't, and each call that may give one clears and
    /// moves it.)
    #[inline(always)]
    fn try_front<K: Sink>(
        &mut self,
        octets: &[u8],
        output: &mut Output,
        sink: &mut K,
    ) -> Result<Option<usize>, Unwritten>
        ensures tries { (lines : List (List ℕ)) → (text : List ℕ) → stands self.old lines
            → meaning.accepts lines text → ¬ meaning.full lines
            → MatchResult result (Tried meaning (stands self.new) lines text octets.now
            (K.written sink.old) output.old (K.written sink.new) output.new)
            (λ _. BreaksOff meaning lines text octets.now (K.written sink.old) output.old
            (K.written sink.new) output.new) }
        ensures within { IfOk result (λ front. IfSome front (λ count. (0 < count)
            × (count ≤ length octets.now))) }
        ensures later { K.faults sink.old ≤ K.faults sink.new }
        ensures cause { result ≡ Err Unwritten.WriteFault
            → Rose (K.faults sink.old) (K.faults sink.new) × (0 < length output.new) }
        ensures still { result ≢ Err Unwritten.WriteFault → K.faults sink.new ≡ K.faults sink.old }
    {
        Ok(None)
    }

    /// Treats a line, which comes without its line feed: puts its output into `output`, or says why not.
    ///
    /// With `Bad` and `Limit` nothing of its output was put, with `WriteFault` and `OutOfMemory` a part of it.
    /// After any of them the treatment gets no further call. A write that fails must end the call.
    fn treat<K: Sink>(&mut self, line: &[u8], output: &mut Output, sink: &mut K) -> Result<(), Stop>
        requires short { length line.now ≤ 1024 }
        requires feedless { NoFeed line.now }
        ensures treats { (lines : List (List ℕ)) → (text : List ℕ) → stands self.old lines
            → meaning.accepts lines text → ¬ meaning.full lines
            → MatchResult result (λ _. Goes meaning (stands self.new) lines text line.now
            (K.written sink.old) output.old (K.written sink.new) output.new)
            (λ stop. StopsAt meaning lines text line.now (K.written sink.old) output.old
            (K.written sink.new) output.new stop) }
        ensures later { K.faults sink.old ≤ K.faults sink.new }
        ensures cause { result ≡ Err Stop.WriteFault → Rose (K.faults sink.old) (K.faults sink.new)
            × (0 < length output.new) }
        ensures still { result ≢ Err Stop.WriteFault → K.faults sink.new ≡ K.faults sink.old };

    /// The cause for which a line of more than 1,024 octets is refused; `start` is its first 8 octets.
    fn refuse_long(&mut self, start: &[u8]) -> Cause
        ensures { (lines : List (List ℕ)) → (text : List ℕ) → (line : List ℕ)
            → stands self.old lines → meaning.accepts lines text → ¬ meaning.full lines
            → NoFeed line → 1024 < length line → start.now ≡ take 8 line
            → meaning.refuses lines line result };

    /// Ends the treatment at the end of the input: puts the last output, or says why the input may not end here.
    /// A write that fails must end the call.
    fn end<K: Sink>(&mut self, output: &mut Output, sink: &mut K) -> Result<(), Stop>
        ensures ends { (lines : List (List ℕ)) → (text : List ℕ) → stands self.old lines
            → meaning.accepts lines text
            → MatchResult result (λ _. Closes meaning lines (K.written sink.old) output.old
            (K.written sink.new) output.new) (λ stop. StopsAtEnd meaning lines (K.written sink.old)
            output.old (K.written sink.new) output.new stop) }
        ensures later { K.faults sink.old ≤ K.faults sink.new }
        ensures cause { result ≡ Err Stop.WriteFault → Rose (K.faults sink.old) (K.faults sink.new)
            × (0 < length output.new) }
        ensures still { result ≢ Err Stop.WriteFault → K.faults sink.new ≡ K.faults sink.old };
}
