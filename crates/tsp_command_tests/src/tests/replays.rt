//! Replays of schedules whose traces and refusals were worked out by hand.

use std::alloc::{AllocError, Global};
use std::process::Abort;
use tsp_io::memory::{MemorySink, MemorySource};
use tsp_lines::treat::Outcome;
use tsp_replay::run::replay;

/// Whether a replay of this input ends so, and what it writes ends with these words.
fn ends(alloc: Global, input: &str, outcome: Outcome, last: &str) -> Result<bool, AllocError> {
    let mut source = MemorySource::new(alloc, input.as_bytes(), &[])?;
    let mut sink = MemorySink::new(alloc, &[])?;
    let came = replay(alloc, &mut source, &mut sink);
    Ok(came == outcome && sink.written().ends_with(last.as_bytes()))
}

/// Whether a replay of this input is refused, and writes just this.
fn is_refused(alloc: Global, input: &str, written: &str) -> Result<bool, AllocError> {
    let mut source = MemorySource::new(alloc, input.as_bytes(), &[])?;
    let mut sink = MemorySink::new(alloc, &[])?;
    let came = replay(alloc, &mut source, &mut sink);
    Ok(came == Outcome::Bad && sink.written() == written.as_bytes())
}

/// A follower that is corrected, too soon again, hears the first correction once more, and is corrected
/// in time and by a step.
const CORRECTS: &str = "\
tsp-schedule 1
drift 0
node a 0 0 s
node b 0 0 s
at 0 boot 0 7
at 5 turn 0
at 80000000 turn 0
at 81000000 bytes 0 1 0601000000000000000000006200
at 82000000 bytes 0 1 0101000700000000000027106200
at 82500000 bytes 0 1 0101000800000000000000016200
at 82999999 bytes 0 1 0101000700000000000027106200
at 83000000 bytes 0 1 0101000800000000000000016200
at 84000000 bytes 0 1 0501000900000064000000006200
end
";

/// The trace of that schedule from the first correction on: a repeat is acknowledged and moves no clock.
const CORRECTED: &str = "\
5 0 0 82000000 took 1 adjtime 7 10000 b
5 0 0 82000000 correct 10000 slew 82000000
5 0 0 82000000 arm elect 382000007
5 0 0 82000000 post 2 1 ack 7 a
6 0 0 82500000 took 1 adjtime 8 1 b
7 0 0 82999999 took 1 adjtime 7 10000 b
7 0 0 82999999 post 3 1 ack 7 a
8 0 0 83000000 took 1 adjtime 8 1 b
8 0 0 83000000 correct 1 slew 83005000
8 0 0 83000000 arm elect 383000007
8 0 0 83000000 post 4 1 ack 8 a
9 0 0 84000000 took 1 settime 9 100000000 b
9 0 0 84000000 correct 15989999 step 100000000
9 0 0 84000000 arm elect 384000007
9 0 0 84000000 post 5 1 ack 9 a
";

/// A node that two candidates ask for its backing, and that boots again.
const HOLDS: &str = "\
tsp-schedule 1
drift 0
node a 0 0 s
node b 0 0 s
node c 0 0 s
at 0 boot 0 0
at 80000000 turn 0
at 85000000 turn 0
at 90000000 bytes 0 1 0801800000000000000000006200
at 149999999 bytes 0 2 0801800000000000000000006300
at 150000000 bytes 0 2 0801800000000000000000006300
at 151000000 boot 0 1
at 160000000 bytes 0 1 0801800000000000000000006200
end
";

/// The trace of that schedule from the search's end on: the second candidate is backed when the hold is
/// over, and none in the quiet time.
const HELD: &str = "\
3 0 0 85000000 ring search
3 0 0 85000000 arm elect 385000000
4 0 0 90000000 took 1 election 32768 b
4 0 0 90000000 back 1
4 0 0 90000000 arm elect 390000000
4 0 0 90000000 post 2 1 accept 32768 a
5 0 0 149999999 took 2 election 32768 c
5 0 0 149999999 post 3 2 refuse 32768 a
6 0 0 150000000 took 2 election 32768 c
6 0 0 150000000 back 2
6 0 0 150000000 arm elect 450000000
6 0 0 150000000 post 4 2 accept 32768 a
7 0 0 151000000 boot
7 0 0 151000000 become starting
7 0 0 151000000 arm quiet 231000000
8 0 0 160000000 took 1 election 32768 b
";

/// A node that joins two networks, follows a master on each and is corrected on the lower port alone;
/// the last event is on a port that it doesn't have.
const JOINS: &str = "\
tsp-schedule 1
drift 0
node g 0 0 s
node a 0 0 s
node b 0 0 s
net 0 1
net 0 2
at 0 boot 0 7
at 80000000 turn 0
at 81000000 bytes 0/1 2 0601000000000000000000006200
at 82000000 bytes 0 1 0601000000000000000000006100
at 83000000 bytes 0/1 2 0101000700000000000000016200
at 84000000 bytes 0 1 01010007000000000000000a6100
at 84000000 bytes 0/2 1 00
";

/// The end of what is written of that.
const JOINED: &str = "\
5 0 1 83000000 took 2 adjtime 7 1 b
6 0 0 84000000 took 1 adjtime 7 10 a
6 0 0 84000000 correct 10 slew 84000000
6 0 0 84000000 arm elect 384000007
6 0 0 84000000 post 4 1 ack 7 g
bad 14 no-node 0 3
";

/// Replays whose trace ends so.
const TRACES: &[(&str, Outcome, &str)] = &[
    (CORRECTS, Outcome::Ok, CORRECTED),
    (HOLDS, Outcome::Ok, HELD),
    (JOINS, Outcome::Bad, JOINED),
];

/// Each has its trace.
#[test]
fn replays_end(rt: HostRuntime) {
    for (input, outcome, last) in TRACES {
        let right = ends(rt.alloc(), input, *outcome, last);
        assert!(rt; right == Ok(true), "{last}");
    }
}

/// Schedules that are refused, with what is written of each. `strict` is the third line of the second version, and of
/// no other.
const REFUSED: &[(&str, &str)] = &[
    ("", "bad 1 header\n"),
    (
        "tsp-schedule 1\ndrift 0\nnode a 0 1000 m\nat 0 boot 0 5\nat 10 take 0\nend\n",
        "1 0 0 0 boot\n1 0 0 0 become starting\n1 0 0 0 arm quiet 80000000\nbad 5 no-datagram 0 0\n",
    ),
    (
        "tsp-schedule 1\ndrift 0\nnode a 0 0 m\nat 5 boot 0 1\nat 4 turn 0\n",
        "1 0 0 5 boot\n1 0 0 5 become starting\n1 0 0 5 arm quiet 80000005\nbad 5 time-back 4 5\n",
    ),
    (
        "tsp-schedule 1\ndrift 0\nnode a 0 0 m\nat 5 boot 0 1\nat 5 turn 1\n",
        "1 0 0 5 boot\n1 0 0 5 become starting\n1 0 0 5 arm quiet 80000005\nbad 5 no-node 1 1\n",
    ),
    (
        "tsp-schedule 1\ndrift 0\nnode a 0 0 m\nat 5 turn 0\n",
        "bad 4 not-up 0\n",
    ),
    (
        "tsp-schedule 1\ndrift 0\nnode a 0 0 m\nend\nend\n",
        "bad 5 after-end\n",
    ),
    ("tsp-schedule 1\ndrift 0\nnode a 0 0 m\n", "bad 4 no-end\n"),
    ("tsp-schedule 2\ndrift 0\nstrict\n", "bad 4 header\n"),
    ("tsp-schedule 2\ndrift 0\nnode a 0 0 m\n", "bad 3 header\n"),
    ("tsp-schedule 1\ndrift 0\nstrict\n", "bad 3 header\n"),
    (
        "tsp-schedule 1\ndrift 0\nnode a 0 0 m\nstrict\n",
        "bad 4 line\n",
    ),
];

/// Each is refused where it should be.
#[test]
fn schedules_are_refused(rt: HostRuntime) {
    for (input, written) in REFUSED {
        let right = is_refused(rt.alloc(), input, written);
        assert!(rt; right == Ok(true), "{written}");
    }
}

/// The lines of networks come after those of the nodes. The numbers of a network are ascending and of
/// nodes that there are, each node is in at most 4, and a header with networks ends only if each node
/// is in one.
const PLACES: &[(&str, &str)] = &[
    ("net 0\n", "bad 3 header\n"),
    ("node a 0 0 m\nnet\n", "bad 4 line\n"),
    ("node a 0 0 m\nnet 1\n", "bad 4 header\n"),
    ("node a 0 0 m\nnode b 0 0 m\nnet 1 0\n", "bad 5 header\n"),
    ("node a 0 0 m\nnet 0\nnode b 0 0 m\n", "bad 5 header\n"),
    (
        "node a 0 0 m\nnet 0\nnet 0\nnet 0\nnet 0\nnet 0\n",
        "bad 8 header\n",
    ),
    ("node a 0 0 m\nnode b 0 0 m\nnet 0\n", "bad 6 header\n"),
    ("node a 0 0 m\nnode b 0 0 m\nnet 0\nend\n", "bad 6 header\n"),
    ("node a 0 0 m\nnet 0\n", "bad 5 no-end\n"),
    ("node a 0 0 m\nnet 0\nend\nnet 0\n", "bad 6 after-end\n"),
    ("node a 0 0 m\nat 0 bytes 0/1 - 00\n", "bad 4 no-node 0 1\n"),
    ("node a 0 0 m\nat 0 bytes 0/1 7 00\n", "bad 4 no-node 0 1\n"),
    ("node a 0 0 m\nat 0 bytes 0/0 - 00\n", "bad 4 line\n"),
    ("node a 0 0 m\nat 0 bytes 0/256 - 00\n", "bad 4 line\n"),
    ("node a 0 0 m\nat 0 bytes 0 - 00\n", "bad 4 not-up 0\n"),
];

/// Whether these lines after the first two are refused with these words.
fn are_refused(alloc: Global, lines: &str, written: &str) -> Result<bool, AllocError> {
    let input = format!(in alloc; "tsp-schedule 1\ndrift 0\n{lines}")?;
    is_refused(alloc, input.as_str(), written)
}

/// Lines out of their place are refused.
#[test]
fn networks_have_their_place(rt: HostRuntime) {
    for (lines, written) in PLACES {
        let right = are_refused(rt.alloc(), lines, written);
        assert!(rt; right == Ok(true), "{written}");
    }
}

/// A schedule whose fourth line begins so and has 1,100 octets.
fn long_line(alloc: Global, start: &str) -> Result<String, AllocError> {
    let mut input = String::from_str(alloc, "tsp-schedule 1\ndrift 0\nnode a 0 1000 m\n")?;
    input.push_str(start)?;
    for _ in start.len()..1100 {
        input.push('a')?;
    }
    input.push('\n')?;
    Ok(input)
}

/// Whether a line of 1,100 octets that begins so is refused with these words.
fn is_refused_long(alloc: Global, start: &str, written: &str) -> Result<bool, AllocError> {
    let input = long_line(alloc, start)?;
    is_refused(alloc, input.as_str(), written)
}

/// A line of 1,100 octets after a node's line is refused where it ends.
#[test]
fn long_lines_are_refused(rt: HostRuntime) {
    for (start, written) in [
        ("node ", "bad 4 header\n"),
        ("net ", "bad 4 header\n"),
        ("nodes", "bad 4 line\n"),
        ("nets", "bad 4 line\n"),
    ] {
        assert!(rt; is_refused_long(rt.alloc(), start, written) == Ok(true));
    }
}

/// A header with so many nodes, and this behind it.
fn header(alloc: Global, nodes: u32, end: &str) -> Result<String, AllocError> {
    let mut text = String::from_str(alloc, "tsp-schedule 1\ndrift 5\n")?;
    for node in 0..nodes {
        text.push_str(format!(in alloc; "node n{node} 0 0 s\n")?.as_str())?;
    }
    text.push_str(end)?;
    Ok(text)
}

/// A header has at most 64 nodes, and may have so many.
#[test]
fn a_65th_node_is_refused(rt: HostRuntime) -> Result<(), AllocError> {
    for (nodes, end, outcome, last) in [
        (65, "", Outcome::Bad, "bad 67 header\n"),
        (64, "end\n", Outcome::Ok, ""),
    ] {
        let text = header(rt.alloc(), nodes, end)?;
        assert!(rt; ends(rt.alloc(), text.as_str(), outcome, last)?);
    }
    Ok(())
}
