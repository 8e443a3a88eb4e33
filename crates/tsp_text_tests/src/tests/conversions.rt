//! Lines that were worked out by hand from the layout of the datagrams.
use arrayvec::ArrayVec;
use std::alloc::Global;
use tsp_convert::run::{pack, show};
use tsp_io::memory::{MemorySink, MemorySource};
use tsp_lines::treat::Outcome;

/// Whether `pack`, or else `show`, ends with this outcome on the input, and writes this.
fn comes(alloc: Global, packs: bool, input: &[u8], outcome: Outcome, written: &[u8]) -> bool {
    let Ok(mut source) = MemorySource::new(alloc, input, &[]) else {
        return false;
    };
    let Ok(mut sink) = MemorySink::new(alloc, &[]) else {
        return false;
    };
    let ended = if packs {
        pack(alloc, &mut source, &mut sink)
    } else {
        show(alloc, &mut source, &mut sink)
    };
    ended == outcome && sink.written() == written
}

/// A line: the digits, and then the fill again and again, up to so many octets.
fn filled(digits: &str, fill: &str, octets: usize) -> ArrayVec<u8, 2048> {
    let mut line = ArrayVec::new();
    let _ = line.try_extend_from_slice(digits.as_bytes());
    for _ in digits.len() / 2..octets {
        let _ = line.try_extend_from_slice(fill.as_bytes());
    }
    let _ = line.try_push(b'\n');
    line
}

/// An ACK without a name, up to the name's end.
const LETTERS: &str = "020100000000000000000000";

/// Digits, what fills their line up to so many octets, how `show` ends on it, and what it writes. The last line is too
/// long.
const SPELLINGS: &[(&str, &str, usize, Outcome, &str)] = &[
    (
        "0101000700000000000004d2616c70686100",
        "00",
        76,
        Outcome::Ok,
        "adjtime 7 1234 alpha\n",
    ),
    (
        "0101000700000000000004D2616C70686100",
        "00",
        18,
        Outcome::Ok,
        "adjtime 7 1234 alpha\n",
    ),
    (
        "0101000700000000000004d2616c70686100",
        "ee",
        268,
        Outcome::Ok,
        "adjtime 7 1234 alpha\n",
    ),
    (
        "0101000700000000000004d2616c70686100",
        "ee",
        269,
        Outcome::Bad,
        "bad 1 long\n",
    ),
    (
        "01010000ffffffff000f423f",
        "00",
        13,
        Outcome::Ok,
        "adjtime 0 -1 %\n",
    ),
    (
        "0101000000000000ffffffff",
        "00",
        13,
        Outcome::Ok,
        "adjtime 0 -1 %\n",
    ),
    (
        "0101000080000000ffffffff",
        "00",
        13,
        Outcome::Bad,
        "bad 1 time\n",
    ),
    (
        "010100008000000000000000",
        "00",
        13,
        Outcome::Ok,
        "adjtime 0 -2147483648000000 %\n",
    ),
    (
        "010100007fffffff000f423f",
        "00",
        13,
        Outcome::Ok,
        "adjtime 0 2147483647999999 %\n",
    ),
    (
        "0101000000000000000f4240",
        "00",
        13,
        Outcome::Bad,
        "bad 1 time\n",
    ),
    ("0101", "00", 12, Outcome::Bad, "bad 1 short\n"),
    ("0102", "00", 13, Outcome::Bad, "bad 1 version\n"),
    ("0001", "00", 13, Outcome::Bad, "bad 1 kind\n"),
    ("1901", "00", 13, Outcome::Bad, "bad 1 kind\n"),
    ("8201", "00", 13, Outcome::Bad, "bad 1 kind\n"),
    (LETTERS, "61", 268, Outcome::Bad, "bad 1 name-too-long\n"),
    (LETTERS, "61", 267, Outcome::Bad, "bad 1 no-end\n"),
    (LETTERS, "61", 76, Outcome::Bad, "bad 1 no-end\n"),
    (LETTERS, "61", 75, Outcome::Bad, "bad 1 no-end\n"),
    ("8001", "00", 27, Outcome::Bad, "bad 1 stamp-length\n"),
    ("80010001", "00", 28, Outcome::Bad, "bad 1 reserved\n"),
    ("8001", "00", 513, Outcome::Bad, "bad 1 hex\n"),
];

/// Octets of a message or a stamp, with their length, and octets that aren't a datagram.
#[test]
fn shows_what_octets_spell(rt: HostRuntime) {
    for (digits, fill, octets, outcome, written) in SPELLINGS {
        let line = filled(digits, fill, *octets);
        assert!(rt;
            comes(
                rt.alloc(),
                false,
                line.as_slice(),
                *outcome,
                written.as_bytes()
            ),
            "{written}"
        );
    }
}

/// Inputs of `pack`, or else of `show`: none, with lines that it refuses, and with more than one line; how it ends on
/// them, and what it writes.
const LINES: &[(bool, &str, Outcome, &str)] = &[
    (false, "", Outcome::Ok, ""),
    (false, "\n", Outcome::Bad, "bad 1 short\n"),
    (false, "0101\n", Outcome::Bad, "bad 1 short\n"),
    (false, "zz\n", Outcome::Bad, "bad 1 hex\n"),
    (
        false,
        "02010000000000000000000000a\n",
        Outcome::Bad,
        "bad 1 hex\n",
    ),
    (
        false,
        "02010003000000000000000000",
        Outcome::Ok,
        "ack 3 %\n",
    ),
    (
        false,
        "02010003000000000000000000\n0D01000400000000000000006200\n",
        Outcome::Ok,
        "ack 3 %\nquit 4 b\n",
    ),
    (
        false,
        "02010003000000000000000000\n02010003000000000000000000 \n",
        Outcome::Bad,
        "ack 3 %\nbad 2 hex\n",
    ),
    (true, "", Outcome::Ok, ""),
    (true, "\n", Outcome::Bad, "bad 1 message\n"),
    (
        true,
        "adjtime 7 01 alpha\n",
        Outcome::Bad,
        "bad 1 message\n",
    ),
    (
        true,
        "request 10 2\nrequest 10\n",
        Outcome::Bad,
        "80010000000000000000000a00000000000000020000000000000000\nbad 2 message\n",
    ),
];

/// Whether `pack` refuses a long line, and writes a message without a name as 76 octets.
fn packs(alloc: Global) -> bool {
    let long = filled("ack 1 a", "aa", 520);
    let octets = filled("13010003", "00", 76);
    octets.len() == 153
        && comes(
            alloc,
            true,
            long.as_slice(),
            Outcome::Bad,
            b"bad 1 message\n",
        )
        && comes(alloc, true, b"msite 3 %", Outcome::Ok, octets.as_slice())
}

/// Inputs end as their rows say.
#[test]
fn converts_lines_in_turn(rt: HostRuntime) {
    for (packs, input, outcome, written) in LINES {
        assert!(rt;
            comes(
                rt.alloc(),
                *packs,
                input.as_bytes(),
                *outcome,
                written.as_bytes()
            ),
            "{written}"
        );
    }
    assert!(rt; packs(rt.alloc()));
}

/// Whether `show` makes this line of these octets, and `pack` the octets of the line.
fn converts(alloc: Global, hex: &[u8], line: &[u8]) -> bool {
    comes(alloc, false, hex, Outcome::Ok, line) && comes(alloc, true, line, Outcome::Ok, hex)
}

/// Whether a name of so many letters makes octets of this size.
fn converts_name(alloc: Global, count: usize, size: usize) -> bool {
    let mut line = ArrayVec::<u8, 512>::new();
    let mut hex = ArrayVec::<u8, 1024>::new();
    let _ = line.try_extend_from_slice(b"adjtime 7 1234 ");
    let _ = hex.try_extend_from_slice(b"0101000700000000000004d2");
    for _ in 0..count {
        let _ = line.try_push(b'a');
        let _ = hex.try_extend_from_slice(b"61");
    }
    for _ in count..size {
        let _ = hex.try_extend_from_slice(b"00");
    }
    let _ = line.try_push(b'\n');
    let _ = hex.try_push(b'\n');
    converts(alloc, hex.as_slice(), line.as_slice())
}

/// Names on both sides of the length from which a message has 268 octets, of which 12 stand before the name.
#[test]
fn converts_long_names(rt: HostRuntime) {
    for (count, size) in &[(63, 76 - 12), (64, 268 - 12), (255, 268 - 12)] {
        assert!(rt; converts_name(rt.alloc(), *count, *size));
    }
}

/// Lines, the digits of their octets up to the first that is 0 as all behind it, and how many octets they are.
const CONVERTED: &[(&str, &str, usize)] = &[
    (
        "adjtime 4660 50331650000005 b\n",
        "01011234030000020000000562",
        76,
    ),
    ("ack 4660 b\n", "02011234000000000000000062", 76),
    ("masterreq 4660 b\n", "03011234000000000000000062", 76),
    ("masterack 4660 b\n", "04011234000000000000000062", 76),
    (
        "settime 4660 50331650000005 b\n",
        "05011234030000020000000562",
        76,
    ),
    ("masterup 4660 b\n", "06011234000000000000000062", 76),
    ("slaveup 4660 b\n", "07011234000000000000000062", 76),
    ("election 4660 b\n", "08011234000000000000000062", 76),
    ("accept 4660 b\n", "09011234000000000000000062", 76),
    ("refuse 4660 b\n", "0a011234000000000000000062", 76),
    ("conflict 4660 b\n", "0b011234000000000000000062", 76),
    ("resolve 4660 b\n", "0c011234000000000000000062", 76),
    ("quit 4660 b\n", "0d011234000000000000000062", 76),
    (
        "date 4660 50331650000005 b\n",
        "0e011234030000020000000562",
        76,
    ),
    (
        "datereq 4660 50331650000005 b\n",
        "0f011234030000020000000562",
        76,
    ),
    ("dateack 4660 b\n", "10011234000000000000000062", 76),
    ("traceon 4660 b\n", "11011234000000000000000062", 76),
    ("traceoff 4660 b\n", "12011234000000000000000062", 76),
    ("msite 4660 b\n", "13011234000000000000000062", 76),
    ("msitereq 4660 b\n", "14011234000000000000000062", 76),
    ("test 4660 b\n", "15011234000000000000000062", 76),
    (
        "setdate 4660 50331650000005 b\n",
        "16011234030000020000000562",
        76,
    ),
    (
        "setdatereq 4660 50331650000005 b\n",
        "17011234030000020000000562",
        76,
    ),
    ("loop 4660 3 b\n", "18011234030000000000000062", 76),
    (
        "request 1 2\n",
        "8001000000000000000000010000000000000002",
        28,
    ),
    (
        "reply 5 1 2 1020\n",
        "810100050000000000000001000000000000000200000000000003fc",
        28,
    ),
];

/// Each type of message and both stamps, in their written octets and as lines.
#[test]
fn converts_each_type(rt: HostRuntime) {
    for (line, digits, octets) in CONVERTED {
        let hex = filled(digits, "00", *octets);
        assert!(rt;
            converts(rt.alloc(), hex.as_slice(), line.as_bytes()),
            "{line}"
        );
    }
}
