//! The conversion of a whole input.
ghost use Rattle.std.specs.Prelude.{◌≡◌, false};
ghost use Rattle.tsp_lines.specs.Frames.{Accepts};
ghost use Rattle.tsp_lines.specs.declared.limits.TheConstants.{MOST_INPUT};
ghost use Rattle.tsp_convert.specs.Shows.{AreHexLines, show_meaning};
ghost use Rattle.tsp_convert.specs.Packs.{AreMessageLines, pack_meaning};

use crate::pack::Pack;
use crate::show::Show;
use std::alloc::Global;
use tsp_io::sink::Sink;
use tsp_io::source::Source;
use tsp_lines::limits::MOST_INPUT;
use tsp_lines::treat::{Outcome, treat_all};

/// Reads lines of hexadecimal, and writes the message line of each one's datagram.
///
/// The first line that isn't a datagram in hexadecimal ends it with `bad LINE CAUSE`: `hex` where it isn't
/// hexadecimal, else the word of the datagram's fault, such as `short`. An input of more than 64 MiB ends
/// it with `limit LINE`. Where every line is a datagram, the outcome is `Ok`, unless a read or a write
/// fails or out of memory.
pub fn show<S: Source, K: Sink>(alloc: Global, source: &mut S, sink: &mut K) -> Outcome
    requires open { S.ended source.old ≡ false }
    ensures { Accepts S.Source K.Sink show_meaning AreHexLines MOST_INPUT source.old source.new
        sink.old sink.new result }
{
    treat_all(alloc, MOST_INPUT, source, sink, &mut Show::new())
}

/// Reads message lines, and writes the octets of each one's datagram in hexadecimal.
///
/// The first line that isn't a datagram's message line ends it with `bad LINE message`. An input of more
/// than 64 MiB ends it with `limit LINE`. Where every line is one, the outcome is `Ok`, unless a read or a
/// write fails or out of memory.
pub fn pack<S: Source, K: Sink>(alloc: Global, source: &mut S, sink: &mut K) -> Outcome
    requires open { S.ended source.old ≡ false }
    ensures { Accepts S.Source K.Sink pack_meaning AreMessageLines MOST_INPUT source.old source.new
        sink.old sink.new result }
{
    treat_all(alloc, MOST_INPUT, source, sink, &mut Pack::new())
}
