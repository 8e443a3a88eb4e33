//! The treatment of a whole input.
ghost use Rattle.std.specs.Prelude.{◌≡◌, ◌<◌, ◌^◌, [], false};
ghost use Rattle.tsp_lines.specs.Frames.{Treats};
ghost use Rattle.tsp_lines.specs.Turns.{outcome_of};

use crate::output::{Output, Unwritten};
use crate::progress::Progress;
use crate::reader::LineReader;
use crate::treatment::Treatment;
use std::alloc::Global;
use tsp_io::sink::Sink;
use tsp_io::source::Source;

/// How the treatment of an input ends.
#[derive(Clone, Copy, PartialEq, Eq, Debug)]
pub enum Outcome {
    /// The input was read to its end, and all its lines were accepted.
    Ok,
    /// A line, or the input's end, was refused.
    Bad,
    /// A read failed.
    ReadFault,
    /// A write failed.
    WriteFault,
    /// A limit was passed.
    Limit,
    /// Out of memory.
    OutOfMemory,
}

/// How a treatment ends where output isn't written.
pub(crate) fn outcome_of(fault: Unwritten) -> Outcome
    ensures { result ≡ outcome_of fault }
{
    match fault {
        Unwritten::WriteFault => Outcome::WriteFault,
        Unwritten::OutOfMemory => Outcome::OutOfMemory,
    }
}

/// Treats all lines of an input, each as soon as its line feed was read, and writes its output before more
/// is read.
///
/// At a refused line it writes `bad LINE CAUSE` and ends; at a limit, `limit LINE`. An input of more than
/// `limit` octets is treated up to the line with the first octet past the limit, and nothing after that
/// octet is read. `ReadFault` comes only where the source's count of faults rose in this call, `WriteFault`
/// only where the sink's did, and a count that rose ends the call so. With `Ok`, `Bad` and `Limit` the whole
/// output was written, with any other outcome the beginning of it.
pub fn treat_all<S: Source, K: Sink, T: Treatment>(
    alloc: Global,
    limit: u64,
    source: &mut S,
    sink: &mut K,
    treatment: &mut T,
) -> Outcome
    requires open { S.ended source.old ≡ false }
    requires limit { limit < 2 ^ 63 }
    requires begin { T.stands treatment.old [] }
    requires nothing { T.meaning.accepts [] [] }
    ensures { Treats S.Source K.Sink T.meaning limit source.old source.new sink.old sink.new
        result }
{
    let (Ok(reader), Ok(output)) = (LineReader::new(alloc, limit), Output::new(alloc)) else {
        return Outcome::OutOfMemory;
    };
    let mut progress = Progress::new(reader, output);
    loop {
        if treatment.is_full() {
            return progress.close(source, sink, treatment);
        }
        match progress.try_held(sink, treatment) {
            Ok(true) => continue,
            Ok(false) => {}
            Err(fault) => return outcome_of(fault),
        }
        if let Some(outcome) = progress.turn(source, sink, treatment) {
            return outcome;
        }
    }
}
