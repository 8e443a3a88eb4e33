//! The commands that read lines, arguments that are no command's, and calls that fail.
use crate::status::Status;
use crate::tests::{Row, comes, writes};
use std::alloc::AllocError;
use std::process::Abort;
use tsp_io::memory::MemorySource;

/// A schedule of one node that boots, answers a stranger's stamp, and is turned.
const ANSWERS: &str = "\
tsp-schedule 1
drift 0
node a 0 1000 m
at 0 boot 0 5
at 20 bytes 0 - 80010000000000000000000100000000000000020000000000000000
at 30 turn 0
end
";

/// The trace of the boot.
const BOOTED: &str = "1 0 0 0 boot\n1 0 0 0 become starting\n1 0 0 0 arm quiet 80000000\n";

/// The trace of that schedule.
const TRACE: &str = "1 0 0 0 boot\n1 0 0 0 become starting\n1 0 0 0 arm quiet 80000000\n\
    2 0 0 20 took - request 1 2\n2 0 0 20 post 0 - reply 5 1 2 1020\n";

/// A datagram in hexadecimal, and its message line.
const DIGITS: &str = "0101000700000000000004d2616c706861000000000000000000000000000000000000000000\
    0000000000000000000000000000000000000000000000000000000000000000000000000000\n";

const MESSAGE: &str = "adjtime 7 1234 alpha\n";

/// A replay of that schedule.
const REPLAY: Row = Row {
    words: &["replay"],
    input: ANSWERS,
    reads: &[],
    writes: &[],
    status: Status::Ok,
    written: TRACE,
};

/// Words that are no command's, replays, conversions, and calls that fail.
const ROWS: &[Row] = &[
    Row {
        words: &[],
        status: Status::Usage,
        written: "usage\n",
        ..REPLAY
    },
    Row {
        words: &["replay", "x"],
        status: Status::Usage,
        written: "usage\n",
        ..REPLAY
    },
    REPLAY,
    Row {
        reads: &[0],
        status: Status::ReadFault,
        written: "",
        ..REPLAY
    },
    Row {
        writes: &[0],
        status: Status::WriteFault,
        written: "",
        ..REPLAY
    },
    Row {
        words: &["show"],
        input: DIGITS,
        written: MESSAGE,
        ..REPLAY
    },
    Row {
        words: &["pack"],
        input: MESSAGE,
        written: DIGITS,
        ..REPLAY
    },
    Row {
        words: &["icmp"],
        input: "host-1 0d00eb74cb21e91d01dd516e0000000000000000 0e0040c2cb21e91d01dd516e01dd52fc01dd52fc 31282321\n",
        written: "host-1 -3 403\ngroup 2 -3000 3000 -1500\ncorrect host-1 1500\n",
        ..REPLAY
    },
];

/// Each of them ends as its row says.
#[test]
fn commands_end(rt: HostRuntime) {
    for row in ROWS {
        assert!(rt; comes(rt.alloc(), row) == Ok(true), "{}", row.written);
    }
}

/// The first read gives the first four lines of the schedule, 53 octets, and the second one fails: what
/// those lines write is written, and no more.
#[test]
fn a_failed_read_ends_the_replay(rt: HostRuntime) -> Result<(), AllocError> {
    let alloc = rt.alloc();
    let mut source = MemorySource::new(alloc, ANSWERS.as_bytes(), &[1])?.in_pieces(53);
    let row = Row {
        status: Status::ReadFault,
        written: BOOTED,
        ..REPLAY
    };
    assert!(rt; writes(alloc, &row, &mut source)?);
    Ok(())
}
