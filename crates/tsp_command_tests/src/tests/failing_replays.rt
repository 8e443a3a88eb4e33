//! A replay in which each read and each write fails once.
ghost use Rattle.std.specs.Prelude.{◌≡◌, false};

use std::alloc::{AllocError, Global};
use std::process::Abort;
use tsp_io::memory::{MemorySink, MemorySource};
use tsp_io::source::Source;
use tsp_lines::treat::Outcome;
use tsp_replay::run::replay;

/// A schedule of one node that boots and answers a stranger's stamp request: 130 octets, of which the
/// header's lines are the first 39, and the boot's the next 14.
const SCHEDULE: &str = "\
tsp-schedule 1
drift 0
node a 0 1000 m
at 0 boot 0 5
at 20 bytes 0 - 80010000000000000000000100000000000000020000000000000000
end
";

/// The trace of the boot.
const BOOTED: &str = "\
1 0 0 0 boot
1 0 0 0 become starting
1 0 0 0 arm quiet 80000000
";

/// The trace of the schedule.
const TRACE: &str = "\
1 0 0 0 boot
1 0 0 0 become starting
1 0 0 0 arm quiet 80000000
2 0 0 20 took - request 1 2
2 0 0 20 post 0 - reply 5 1 2 1020
";

/// Whether a replay of this source, where these writes fail, has this outcome and text.
fn comes<S: Source>(
    alloc: Global,
    source: &mut S,
    writes: &[u32],
    outcome: Outcome,
    written: &str,
) -> Result<bool, AllocError>
    requires { S.ended source.old ≡ false }
{
    let mut sink = MemorySink::new(alloc, writes)?;
    let came = replay(alloc, source, &mut sink);
    Ok(came == outcome && sink.written() == written.as_bytes())
}

/// The same of the schedule, in reads of at most 40 octets, where these reads fail.
fn replays(
    alloc: Global,
    reads: &[u32],
    writes: &[u32],
    outcome: Outcome,
    written: &str,
) -> Result<bool, AllocError> {
    let mut source = MemorySource::new(alloc, SCHEDULE.as_bytes(), reads)?.in_pieces(40);
    comes(alloc, &mut source, writes, outcome, written)
}

/// The reads give 40, 40, 40 and 10 octets, and then the end. The output of the lines that were read is
/// written before a read fails.
#[test]
fn each_read_fails(rt: HostRuntime) {
    for (failing, outcome, written) in [
        (0, Outcome::ReadFault, ""),
        (1, Outcome::ReadFault, ""),
        (2, Outcome::ReadFault, BOOTED),
        (3, Outcome::ReadFault, BOOTED),
        (4, Outcome::ReadFault, TRACE),
        (5, Outcome::Ok, TRACE),
    ] {
        let right = replays(rt.alloc(), &[failing], &[], outcome, written);
        assert!(rt; right == Ok(true), "read {failing}");
    }
}

/// The output of the lines of one read is one write.
#[test]
fn each_write_fails(rt: HostRuntime) {
    for (failing, outcome, written) in [
        (0, Outcome::WriteFault, ""),
        (1, Outcome::WriteFault, BOOTED),
        (2, Outcome::Ok, TRACE),
    ] {
        let right = replays(rt.alloc(), &[], &[failing], outcome, written);
        assert!(rt; right == Ok(true), "write {failing}");
    }
}
