//! Inputs that were worked out by hand, or by two other programs.

use std::alloc::Global;
use std::process::Abort;
use tsp_icmp_command::average;
use tsp_io::memory::{MemorySink, MemorySource};
use tsp_lines::treat::Outcome;

/// Whether the input has this outcome, with this written.
fn averages(alloc: Global, input: &[u8], outcome: Outcome, written: &[u8]) -> bool {
    let Ok(mut source) = MemorySource::new(alloc, input, &[]) else {
        return false;
    };
    let Ok(mut sink) = MemorySink::new(alloc, &[]) else {
        return false;
    };
    average(alloc, &mut source, &mut sink) == outcome && sink.written() == written
}

/// One exchange, none, and lines that aren't exchanges.
const LINES: &[(&[u8], Outcome, &[u8])] = &[
    (
        b"b 0d00ef1400010002000003e80000000000000000 0e00e25c00010002000003e8000005dc000005dc 1801\n",
        Outcome::Ok,
        b"b 100 402\ngroup 1 0 0 0\ncorrect b -100000\n",
    ),
    (
        b"b 0d00ef1500010002000003e80000000000000000 0e00e25c00010002000003e8000005dc000005dc 1801\n",
        Outcome::Bad,
        b"bad 1 request checksum\n",
    ),
    (b"", Outcome::Ok, b"group 1 0 0 0\n"),
    (b"\n", Outcome::Bad, b"bad 1 record\n"),
    (
        b"b  0e00e25c00010002000003e8000005dc000005dc 1801",
        Outcome::Bad,
        b"bad 1 record\n",
    ),
    (
        b"b 0d00ef1400010002000003e80000000000000000 0e00e25c00010002000003e8000005dc000005dc 86400000",
        Outcome::Bad,
        b"bad 1 record\n",
    ),
    (
        b"b 0d00ef1400010002000003e80000000000000000 0e00e25c00010002000003e8000005dc000005dc 43201000",
        Outcome::Ok,
        b"b late\ngroup 1 0 0 0\n",
    ),
    (
        b"b 0d00ef1400010002000003e80000000000000000 0e00e25b00010003000003e8000005dc000005dc 1801",
        Outcome::Ok,
        b"b unlike\ngroup 1 0 0 0\n",
    ),
    (
        b"b 0d0072fc00010002800000000000000000000000 0e0071f200010002800000000000000500000005 1801",
        Outcome::Ok,
        b"b no-time\ngroup 1 0 0 0\n",
    ),
    (
        b"b 0e00e25c00010002000003e8000005dc000005dc 0e00e25c00010002000003e8000005dc000005dc 1801",
        Outcome::Bad,
        b"bad 1 request kind\n",
    ),
];

/// Each of them has its outcome and its text.
#[test]
fn takes_lines_of_exchanges(rt: HostRuntime) {
    for (input, outcome, written) in LINES {
        assert!(rt; averages(rt.alloc(), input, *outcome, written));
    }
}

/// Seven exchanges with four clocks: two other programs gave this output.
#[test]
fn agrees_with_other_programs(rt: HostRuntime) {
    let input =
        b"host-1 0d0089e213750225051a4e690000000000000000 0e00e57513750225051a4e69051a4c9c051a4c9c 85610980\n\
a 0d00f01c953a2d7602f33d3f0000000000000000 0e005d44953a2d7602f33d3f02f345f902f345f9 49496032\n\
c 0d004746bc0a8ff703795c3e0000000000000000 0e008187bc0a8ff703795c3e03795ee603795ee6 58285701\n\
b 0d0050b327ebef0c020189530000000000000000 0e003cba27ebef0c020189530201877b0201877b 33655232\n\
a 0d00b55f6b3349f002ac85d00000000000000000 0e009c486b3349f002ac85d002ac895f02ac895f 44861194\n\
a 0d00050997c25778015cfd5f0000000000000000 0e0015fd97c25778015cfd5f015cf5a9015cf5a9 22872234\n\
c 0d003cc2c2d924f303fdca730000000000000000 0e00b2d2c2d924f303fdca7303fdc07a03fdc07a 66964456\n";
    let written = b"host-1 -906 447\n\
a 1898 338\n\
c 389 293\n\
b -526 56\n\
a 754 158\n\
a -2395 423\n\
c -2739 188\n\
group 1 0 0 0\n\
correct host-1 906000\n\
correct a -754000\n\
correct c 2739000\n\
correct b 526000\n";
    assert!(rt; averages(rt.alloc(), input, Outcome::Ok, written));
}

/// The same octets a thousand times, and these after them.
fn repeated(alloc: Global, piece: &[u8], rest: &[u8]) -> Option<Vec<u8>> {
    let mut octets = Vec::new(alloc);
    for _ in 0..1000 {
        octets.extend_from_slice(piece).ok()?;
    }
    octets.extend_from_slice(rest).ok()?;
    Some(octets)
}

/// A line of one clock, and its output.
const LINE: &[u8] =
    b"b 0d00ef1400010002000003e80000000000000000 0E00E25C00010002000003E8000005DC000005DC 1801\n";

const AVERAGED: &[u8] = b"b 100 402\n";

/// Whether 1,000 lines of one clock and then these octets have this outcome, with these words after the
/// output of the 1,000 lines.
fn follow(alloc: Global, octets: &[u8], outcome: Outcome, words: &[u8]) -> bool {
    match (
        repeated(alloc, LINE, octets),
        repeated(alloc, AVERAGED, words),
    ) {
        (Some(input), Some(written)) => averages(alloc, &input, outcome, &written),
        _ => false,
    }
}

/// A thousand lines are taken, and the first octet of another is past the limit.
#[test]
fn takes_a_thousand_lines(rt: HostRuntime) {
    let alloc = rt.alloc();
    assert!(rt;
        follow(
            alloc,
            b"",
            Outcome::Ok,
            b"group 1 0 0 0\ncorrect b -100000\n"
        )
    );
    assert!(rt; follow(alloc, b"z", Outcome::Limit, b"limit 1001\n"));
    assert!(rt; follow(alloc, b"\n", Outcome::Limit, b"limit 1001\n"));
}
