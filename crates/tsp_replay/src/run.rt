//! The replay of a whole input.
ghost use Rattle.std.specs.Prelude.{◌≡◌, false};
ghost use Rattle.tsp_lines.specs.Frames.{Accepts};
ghost use Rattle.tsp_lines.specs.declared.limits.TheConstants.{MOST_INPUT};
ghost use Rattle.tsp_replay.specs.Meaning.{IsScheduleText, replaying};

use crate::replay::Replay;
use std::alloc::Global;
use tsp_io::sink::Sink;
use tsp_io::source::Source;
use tsp_lines::limits::MOST_INPUT;
use tsp_lines::treat::{Outcome, treat_all};

/// Reads a schedule, and writes the trace of its run.
///
/// The first line that is refused ends it with `bad LINE CAUSE`: `header`, `line`, `after-end`, or the words
/// of the event's fault, such as `not-up 0`. Where the input ends too soon, LINE is one more than the
/// number of lines, and the cause `header` or `no-end`. An event past a limit (200,000 events, 1,000,000
/// posts) and an input of more than 64 MiB end it with `limit LINE`. Where the input is the text of a
/// schedule of which no event is refused, the outcome is `Ok`, unless a read or a write fails or out of
/// memory.
pub fn replay<S: Source, K: Sink>(alloc: Global, source: &mut S, sink: &mut K) -> Outcome
    requires open { S.ended source.old ≡ false }
    ensures { Accepts S.Source K.Sink replaying IsScheduleText MOST_INPUT source.old source.new
        sink.old sink.new result }
{
    let mut replay = Replay::new(alloc);
    treat_all(alloc, MOST_INPUT, source, sink, &mut replay)
}
