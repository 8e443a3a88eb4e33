//! The replay as a treatment of lines.
ghost use Rattle.std.specs.Prelude.{◌≡◌};

use crate::line_text::LineText;
use crate::replayed::Replayed;
use crate::tell::{tell, tell_stage, told};
use std::alloc::Global;
use tsp_io::sink::Sink;
use tsp_lines::cause::Cause;
use tsp_lines::output::{Output, Unwritten};
use tsp_lines::treatment::{Stop, Treatment};
use tsp_schedule::stage::Stage;

/// Takes a schedule's lines, and gives the trace of its run.
#[derive(Drop)]
pub struct Replay {
    alloc: Global,
    stage: Stage<Replayed>,
    /// Where a line of the trace is made.
    text: LineText,
}

impl Replay {
    /// Before the first line. Takes no memory.
    pub fn new(alloc: Global) -> Replay
        ensures { result.stage ≡ Stage.Untitled }
    {
        Replay {
            alloc,
            stage: Stage::Untitled,
            text: LineText::new(),
        }
    }
}

impl Treatment for Replay {
    ghost use Rattle.tsp_replay.specs.Meaning.{replaying};
    ghost use Rattle.tsp_replay.specs.Stages.{ReplayStands};

    ghost meaning = { replaying };

    ghost stands = { λ r lines. ReplayStands r.stage lines };

    fn is_full(&self) -> bool {
        false
    }

    #[inline(always)]
    fn try_front<K: Sink>(
        &mut self,
        octets: &[u8],
        output: &mut Output,
        sink: &mut K,
    ) -> Result<Option<usize>, Unwritten> {
        let Some(count) = self.stage.try_front(octets) else {
            return Ok(None);
        };
        match tell(told(&self.stage), &mut self.text, output, sink) {
            Ok(()) => Ok(Some(count)),
            Err(fault) => Err(fault),
        }
    }

    fn treat<K: Sink>(&mut self, line: &[u8], out: &mut Output, sink: &mut K) -> Result<(), Stop> {
        match self.stage.advance(self.alloc, line) {
            Ok(()) => tell_stage(&self.stage, &mut self.text, out, sink),
            Err(stop) => Err(stop),
        }
    }

    fn refuse_long(&mut self, start: &[u8]) -> Cause {
        self.stage.refuse_long(start)
    }

    fn end<K: Sink>(&mut self, output: &mut Output, sink: &mut K) -> Result<(), Stop> {
        match self.stage.lacks() {
            None => Ok(()),
            Some(cause) => Err(Stop::Bad(cause)),
        }
    }
}
