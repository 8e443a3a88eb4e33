//! Writes the lines of an event's acts.
ghost use Rattle.std.specs.Prelude.{◌≡◌, ◌≢◌, ◌≤◌, ◌<◌, ◌++◌, ℕ, List, [], length, OnOk, OnErr, MatchResult};
ghost use Rattle.tsp_io.specs.Counts.{Rose};
ghost use Rattle.tsp_lines.specs.Outputs.{Hands};
ghost use Rattle.tsp_replay.specs.Stages.{told_at, told_by, HandsBeginning};
ghost use Rattle.tsp_replay.specs.Traces.{lines_text};

use crate::line_text::LineText;
use crate::replayed::Replayed;
use tsp_io::sink::Sink;
use tsp_lines::output::{Output, Unwritten};
use tsp_lines::treatment::Stop;
use tsp_run::line::Line;
use tsp_schedule::run::Run;
use tsp_schedule::stage::Stage;

/// The lines of the last event's acts; none where the last line wasn't an event.
pub(crate) fn told(stage: &Stage<Replayed>) -> &[Line]
    ensures { result.now ≡ told_at stage.now }
{
    match stage {
        Stage::Running(run) => told_by(run),
        _ => &[],
    }
}

/// The same, after the header.
fn told_by(run: &Run<Replayed>) -> &[Line]
    ensures { result.now ≡ told_by run.now }
{
    if run.over {
        return &[];
    }
    run.handler.world.acts()
}

/// Puts the lines of the last event's acts into `output`, each of which is made in `text`.
pub(crate) fn tell_stage<K: Sink>(
    stage: &Stage<Replayed>,
    text: &mut LineText,
    output: &mut Output,
    sink: &mut K,
) -> Result<(), Stop>
    ensures tells { MatchResult result (λ _. Hands (K.written sink.old) output.old
        (K.written sink.new) output.new (lines_text (told_at stage.now)))
        (HandsBeginning (lines_text (told_at stage.now)) (K.written sink.old) output.old
        (K.written sink.new) output.new) }
    ensures later { K.faults sink.old ≤ K.faults sink.new }
    ensures cause { result ≡ Err Stop.WriteFault → Rose (K.faults sink.old) (K.faults sink.new)
        × (0 < length output.new) }
    ensures still { result ≢ Err Stop.WriteFault → K.faults sink.new ≡ K.faults sink.old }
{
    match tell(told(stage), text, output, sink) {
        Ok(()) => Ok(()),
        Err(Unwritten::WriteFault) => Err(Stop::WriteFault),
        Err(Unwritten::OutOfMemory) => Err(Stop::OutOfMemory),
    }
}

/// Puts lines of the trace into `output`, each of which is made in `text`; where it fails, the beginning of them.
pub(crate) fn tell<K: Sink>(
    lines: &[Line],
    text: &mut LineText,
    output: &mut Output,
    sink: &mut K,
) -> Result<(), Unwritten>
    ensures ok { OnOk result (Hands (K.written sink.old) output.old (K.written sink.new) output.new
        (lines_text lines.now)) }
    ensures err { OnErr result ((part : List ℕ) × (rest : List ℕ)
        × (lines_text lines.now ≡ part ++ rest) × Hands (K.written sink.old) output.old
        (K.written sink.new) output.new part) }
    ensures later { K.faults sink.old ≤ K.faults sink.new }
    ensures cause { result ≡ Err Unwritten.WriteFault → Rose (K.faults sink.old) (K.faults sink.new)
        × (0 < length output.new) }
    ensures still { result ≢ Err Unwritten.WriteFault → K.faults sink.new ≡ K.faults sink.old }
{
    for line in lines {
        text.write(line);
        output.put_line(sink, text.octets())?;
    }
    Ok(())
}
