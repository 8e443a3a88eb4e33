//! The averaging of a whole input.
ghost use Rattle.std.specs.Prelude.{◌≡◌, false};
ghost use Rattle.tsp_lines.specs.Frames.{Accepts};
ghost use Rattle.tsp_lines.specs.declared.limits.TheConstants.{MOST_INPUT};
ghost use Rattle.tsp_icmp_command.specs.Meaning.{averaging, AreExchangeLines};

use crate::averaging::Averaging;
use std::alloc::Global;
use tsp_io::sink::Sink;
use tsp_io::source::Source;
use tsp_lines::limits::MOST_INPUT;
use tsp_lines::treat::{Outcome, treat_all};

/// Reads at most 1,000 lines of exchanges, and writes a line for each; then the group of the own clock and
/// the other clocks, each by its difference with the shortest round trip, and the corrections to its mean.
///
/// A line has a name, the octets of a request and of its reply in hexadecimal, and when the reply came,
/// in milliseconds since midnight UT. The first other line ends it with `bad LINE CAUSE`: `record`, or
/// `request` or `reply` with the word of the message's fault. The first octet of line 1,001 ends it with
/// `limit 1001`, and an input of more than 64 MiB with `limit LINE`. Where every line is an exchange, the
/// outcome is `Ok`, unless a read or a write fails or out of memory.
pub fn average<S: Source, K: Sink>(alloc: Global, source: &mut S, sink: &mut K) -> Outcome
    requires open { S.ended source.old ≡ false }
    ensures { Accepts S.Source K.Sink averaging AreExchangeLines MOST_INPUT source.old source.new
        sink.old sink.new result }
{
    treat_all(alloc, MOST_INPUT, source, sink, &mut Averaging::new(alloc))
}
