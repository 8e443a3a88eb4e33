//! The lines of a traced step.
ghost use Rattle.std.specs.Prelude.{◌≡◌, ◌<◌, ◌+◌, ◌^◌, ◌||◌, length, IfErr, Err, OnOk};
ghost use Rattle.tsp_io.specs.Streams.{Grows};
ghost use Rattle.tsp_query.specs.Faults.{Counts};
ghost use Rattle.tsp_daemon.specs.Ends.{TellsUntil};
ghost use Rattle.tsp_daemon.specs.Posts.{line_of, act_lines};

use crate::end::ServeEnd;
use crate::sends::posts_by;
use arrayvec::ArrayVec;
use tsp_base::act::Placed;
use tsp_io::sink::Sink;
use tsp_lines::output::{Unwritten, write_all};
use tsp_script::trace::placed_text;

/// The line of an act of a turn, with its line feed.
fn line_of(turn: u64, tick: u64, number: u64, placed: &Placed) -> ArrayVec<u8, 1025>
    ensures { result.items ≡ line_of turn tick number placed.now }
{
    let text = placed_text(turn, 0, tick, number, placed);
    let mut line: ArrayVec<u8, 1025> = ArrayVec::new();
    let _ = line.try_extend_from_slice(text.as_slice());
    let _ = line.try_push(b'\n');
    line
}

/// Writes a line, in one write if the sink takes it whole. Fails if a write fails, or if out of
/// memory; then only its beginning may be written.
fn tell_line<K: Sink>(sink: &mut K, line: &[u8]) -> Result<(), ServeEnd>
    ensures ok { OnOk result (Grows (K.written sink.old) (K.written sink.new) line.now) }
    ensures err { IfErr result (TellsUntil line.now (K.written sink.old) (K.written sink.new)) }
    ensures write { Counts (K.faults sink.old) (K.faults sink.new)
        (result ≡ Err ServeEnd.WriteFault) }
{
    match write_all(sink, line) {
        Ok(()) => Ok(()),
        Err(cut) => match cut.fault {
            Unwritten::WriteFault => Err(ServeEnd::WriteFault),
            Unwritten::OutOfMemory => Err(ServeEnd::OutOfMemory),
        },
    }
}

/// Writes the lines of the acts of a turn; the first post among them has the number `first`. Fails
/// as `tell_line` does.
pub(crate) fn tell<K: Sink>(
    sink: &mut K,
    turn: u64,
    tick: u64,
    first: u64,
    acts: &[Placed],
) -> Result<(), ServeEnd>
    requires few { first + length acts.now < 2 ^ 64 }
    ensures ok { OnOk result (Grows (K.written sink.old) (K.written sink.new)
        (act_lines turn tick first acts.now)) }
    ensures err { IfErr result (TellsUntil (act_lines turn tick first acts.now) (K.written sink.old)
        (K.written sink.new)) }
    ensures write { Counts (K.faults sink.old) (K.faults sink.new)
        (result ≡ Err ServeEnd.WriteFault) }
{
    let mut number = first;
    for placed in acts {
        if let Err(end) = tell_line(sink, line_of(turn, tick, number, placed).as_slice()) {
            return Err(end);
        }
        number += posts_by(&placed.act);
    }
    Ok(())
}

/// Whether a step is shown: the trace was on before it, or is on after it.
pub(crate) fn is_shown(before: bool, after: bool) -> bool
    ensures { result ≡ (before || after) }
{
    before || after
}
