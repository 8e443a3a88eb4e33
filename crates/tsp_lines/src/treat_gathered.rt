//! The treatment of an input that is read whole first.
ghost use Rattle.std.specs.Prelude.{◌≡◌, ◌<◌, ◌^◌, [], false};
ghost use Rattle.tsp_lines.specs.Frames.{TreatsGathered};

use crate::gather::{Ungathered, gather};
use crate::treat::{Outcome, treat_all};
use crate::treatment::Treatment;
use std::alloc::Global;
use tsp_io::sink::Sink;
use tsp_io::source::Source;

/// Reads an input to its end, or up to the first octet past the limit, and then treats its lines.
///
/// It ends as `treat_all` does, except that no line is treated and nothing is written where a read fails. The
/// octets are held in memory, at most one more than the limit.
pub fn treat_gathered<S: Source, K: Sink, T: Treatment>(
    alloc: Global,
    limit: u64,
    source: &mut S,
    sink: &mut K,
    treatment: &mut T,
) -> Outcome
    requires open { S.ended source.old ≡ false }
    requires limit { limit < 2 ^ 63 }
    requires begin { T.stands treatment.old [] }
    requires nothing { T.meaning.accepts [] [] }
    ensures { TreatsGathered S.Source K.Sink T.meaning limit source.old source.new sink.old
        sink.new result }
{
    match gather(alloc, limit, source) {
        Ok(mut gathered) => treat_all(alloc, limit, &mut gathered, sink, treatment),
        Err(Ungathered::ReadFault) => Outcome::ReadFault,
        Err(Ungathered::OutOfMemory) => Outcome::OutOfMemory,
    }
}
