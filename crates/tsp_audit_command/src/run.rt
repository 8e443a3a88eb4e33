//! The audit of a whole input.
ghost use Rattle.std.specs.Prelude.{◌≡◌, false};
ghost use Rattle.tsp_audit_command.specs.Meaning.{IsAuditText, auditing};
ghost use Rattle.tsp_lines.specs.Answers.{Answers};
ghost use Rattle.tsp_lines.specs.Frames.{Completes, TreatsGathered};
ghost use Rattle.tsp_lines.specs.declared.limits.TheConstants.{MOST_INPUT};

use crate::check::Check;
use std::alloc::Global;
use tsp_io::sink::Sink;
use tsp_io::source::Source;
use tsp_lines::limits::MOST_INPUT;
use tsp_lines::treat::Outcome;
use tsp_lines::treat_gathered::treat_gathered;

/// Reads a schedule, and after its `end` the lines of a trace that some program claims for it. Writes the verdict:
/// `holds`, or `fails Dn E`, where E is the number, from 1, of the first event up to which a part fails, and n that of
/// the least part that fails up to it (12 to 16, see `Verdict` of `tsp_audit`). Either is answered with `Ok`.
///
/// The input is read to its end, or to the first octet past 64 MiB, before a line is treated; so where a read fails,
/// nothing is written. The first line that can't follow those before it ends the audit with `bad LINE CAUSE`. CAUSE is
/// that of a replay within the schedule. After it, it is `line` where the line is none of a trace, and `history` where
/// it doesn't fit or an event before its own lacks something. Where an event lacks something at the end of the input,
/// LINE is one more than the number of the last line. A 17th node, a 20,001st event, a 20,001st claimed line and a line
/// past 64 MiB end the audit with `limit LINE`. The answers are `Bad` and `Limit`.
///
/// Where the input keeps these limits, and is a schedule and claimed lines that all fit, of which no event lacks
/// anything, the answer is `Ok`, unless a read fails (`ReadFault`), a write fails (`WriteFault`), or memory is refused
/// (`OutOfMemory`).
pub fn check<S: Source, K: Sink>(alloc: Global, source: &mut S, sink: &mut K) -> Outcome
    requires open { S.ended source.old ≡ false }
    ensures treats { TreatsGathered S.Source K.Sink auditing MOST_INPUT source.old source.new sink.old
        sink.new result }
    ensures answers { Answers auditing MOST_INPUT (S.left source.old) (K.written sink.old)
        (K.written sink.new) result }
    ensures complete { Completes S.Source K.Sink IsAuditText MOST_INPUT source.old source.new
        sink.old sink.new result }
{
    treat_gathered(alloc, MOST_INPUT, source, sink, &mut Check::new(alloc))
}
