//! Storms whose summaries other programs gave.
ghost use Rattle.tsp_args.specs.Storms.{IsStorm};

use std::alloc::{AllocError, Global};
use tsp_args::storm::StormWords;
use tsp_io::memory::MemorySink;
use tsp_storm::run::{StormEnd, storm};

/// How a storm ends, where its writes with these numbers fail, and whether it writes this line.
fn ends(
    alloc: Global,
    words: &StormWords,
    failing: &[u32],
    line: &[u8],
) -> Result<(StormEnd, bool), AllocError>
    requires { IsStorm words.now }
{
    let mut sink = MemorySink::new(alloc, failing)?;
    let end = storm(alloc, words, &mut sink);
    Ok((end, sink.written() == line))
}

/// Whether a storm ends well and writes this line.
fn writes(
    alloc: Global,
    seed: u64,
    nodes: u32,
    events: u32,
    line: &[u8],
) -> Result<bool, AllocError> {
    if nodes == 0 || nodes > 64 || events == 0 || events > 200_000 {
        return Ok(false);
    }
    let words = StormWords {
        seed,
        nodes,
        events,
    };
    let (end, same) = ends(alloc, &words, &[], line)?;
    Ok(end == StormEnd::Done && same)
}

/// Seeds, nodes and events, and the lines of their storms.
const STORMS: &[(u64, u32, u32, &str)] = &[
    (1, 1, 1, "events 1 posted 0 took 0 corrects 0 masters 0\n"),
    (
        5,
        64,
        64,
        "events 64 posted 0 took 0 corrects 0 masters 0\n",
    ),
    (
        5,
        64,
        30,
        "events 30 posted 0 took 0 corrects 0 masters 0\n",
    ),
    (
        7,
        3,
        3000,
        "events 3000 posted 362 took 362 corrects 0 masters 0\n",
    ),
    (
        11,
        16,
        5000,
        "events 5000 posted 618 took 618 corrects 0 masters 0\n",
    ),
    (
        u64::MAX,
        5,
        2000,
        "events 2000 posted 281 took 281 corrects 0 masters 0\n",
    ),
    (
        7,
        3,
        60000,
        "events 60000 posted 7439 took 7467 corrects 1 masters 1\n",
    ),
];

/// Two programs that were written from the rules alone gave these lines.
#[test]
fn storms_sum_up_as_elsewhere(rt: HostRuntime) {
    for (seed, nodes, events, line) in STORMS {
        assert!(rt;
            writes(rt.alloc(), *seed, *nodes, *events, line.as_bytes()) == Ok(true),
            "{line}"
        );
    }
}

/// A write that fails ends a storm, and nothing is written.
#[test]
fn a_failed_write_ends_a_storm(rt: HostRuntime) {
    let words = StormWords {
        seed: 1,
        nodes: 1,
        events: 1,
    };
    assert!(rt; ends(rt.alloc(), &words, &[0], b"") == Ok((StormEnd::WriteFault, true)));
}
