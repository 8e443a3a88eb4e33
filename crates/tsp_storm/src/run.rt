//! The command: makes a schedule, runs it, and says what came of it.
ghost use Rattle.std.specs.Prelude.{◌≡◌, ◌≢◌, ◌≤◌, ◌<◌, ◌⊎◌, List, ℕ, length, MatchResult};
ghost use Rattle.tsp_io.specs.Counts.{Rose};
ghost use Rattle.tsp_io.specs.Streams.{Grows};
ghost use Rattle.tsp_storm.specs.Answers.{StormsAs, IsStormAnswer, AgreesWithAnswer, HasEventRoom, IsTextPart, SumsUp, HaltsStorm, SaysText};
ghost use Rattle.tsp_storm.specs.declared.run.StormEnd.{StormEnd};
ghost use Rattle.tsp_args.specs.Storms.{IsStorm};

use crate::counts::Counts;
use crate::making::{Making, Stopped};
use crate::summary::Summary;
use std::alloc::Global;
use tsp_args::storm::StormWords;
use tsp_io::sink::Sink;
use tsp_lines::output::{Unwritten, write_all};
use tsp_lines::refusal::limit_line;

/// How a storm ends.
#[derive(Clone, Copy, PartialEq, Eq, Debug)]
pub enum StormEnd {
    /// All events happened, and the summary was written.
    Done,
    /// There was no room for an event, and its number was written.
    Limit,
    /// A write failed.
    WriteFault,
    /// There was no memory.
    OutOfMemory,
}

/// Runs a whole schedule, and counts. (A call of its own: as a part of the code of all commands it was slower.)
#[inline(never)]
fn run(alloc: Global, words: &StormWords) -> Result<Summary, Stopped>
    requires { IsStorm words.now }
    ensures { MatchResult result (SumsUp words.now) (HaltsStorm words.now) }
{
    let Ok(mut making) = Making::begin(alloc, words) else {
        return Err(Stopped::OutOfMemory);
    };
    let mut counts = Counts::new();
    for _ in 0..words.events {
        match making.step(words) {
            Ok(()) => counts.add_all(making.acts()),
            Err(stop) => return Err(stop),
        }
    }
    Ok(Summary {
        events: words.events,
        posted: making.posted(),
        counts,
    })
}

/// Writes a text, and then answers with this end; with another one where not all of it was written.
fn say<K: Sink>(sink: &mut K, text: &[u8], end: StormEnd) -> StormEnd
    ensures says { SaysText text.now end (K.written sink.old) (K.written sink.new) result }
    ensures later { K.faults sink.old ≤ K.faults sink.new }
    ensures write { result ≡ StormEnd.WriteFault → (end ≡ StormEnd.WriteFault)
        ⊎ Rose (K.faults sink.old) (K.faults sink.new) }
    ensures still { result ≢ StormEnd.WriteFault → K.faults sink.new ≡ K.faults sink.old }
{
    match write_all(sink, text) {
        Ok(()) => end,
        Err(cut) => match cut.fault {
            Unwritten::WriteFault => StormEnd::WriteFault,
            Unwritten::OutOfMemory => StormEnd::OutOfMemory,
        },
    }
}

/// Makes a schedule from a number, runs it, and writes the summary of its run in one line: the numbers of
/// events, of datagrams posted and taken, of clock corrections, and of times that a node became master.
///
/// That run keeps the promises (`specs/Kept.antt`): in it no datagram is forged or taken too late, and the boots'
/// words and the nodes' names differ. One promise asks for more, that who acknowledges a date has taken
/// it: no port may begin 32,768 sends in one life of its node, as none does where fewer than 32,768
/// datagrams are posted.
///
/// An event for which there is no room ends it with `Limit` and the line `limit E`, where E is the event's
/// number, from 1 on. `WriteFault` comes only where the sink's count of faults rose in this call.
pub fn storm<K: Sink>(alloc: Global, words: &StormWords, sink: &mut K) -> StormEnd
    requires { IsStorm words.now }
    ensures ends { StormsAs words.now (K.written sink.old) (K.written sink.new) result }
    ensures answers { (end : StormEnd) (text : List ℕ) → IsStormAnswer words.now end text
        → AgreesWithAnswer end text (K.written sink.old) (K.written sink.new) result }
    ensures complete { HasEventRoom words.now → ¬ Rose (K.faults sink.old) (K.faults sink.new)
        → (result ≡ StormEnd.Done) ⊎ (result ≡ StormEnd.OutOfMemory) }
    ensures later { K.faults sink.old ≤ K.faults sink.new }
    ensures write { result ≡ StormEnd.WriteFault → Rose (K.faults sink.old) (K.faults sink.new) }
    ensures still { result ≢ StormEnd.WriteFault → K.faults sink.new ≡ K.faults sink.old }
{
    match run(alloc, words) {
        Ok(summary) => say(sink, summary.text().as_slice(), StormEnd::Done),
        Err(Stopped::Limit(number)) => { say(sink, limit_line(number).as_slice(), StormEnd::Limit) }
        Err(Stopped::OutOfMemory) => StormEnd::OutOfMemory,
    }
}
