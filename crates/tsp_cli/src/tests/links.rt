//! Runs of the program over a link and a ticker in memory: daemons, and questions to one.
use crate::status::Status;
use crate::tests::run_unread;
use std::alloc::{AllocError, Global};
use std::process::Abort;
use tsp_base::place::{PeerId, Place};
use tsp_io::memory::MemorySink;
use tsp_io::memory_link::MemoryLink;
use tsp_io::memory_ticker::MemoryTicker;

/// A stranger's stamp request with word 1 and counter 2.
const REQUEST: &[u8] = &[
    0x80, 1, 0, 0, 0, 0, 0, 0, 0, 0, 0, 1, 0, 0, 0, 0, 0, 0, 0, 2, 0, 0, 0, 0, 0, 0, 0, 0,
];

/// Its answer: ticket 2, the same word and counter, and the reading 1020.
const REPLY: &[u8] = &[
    0x81, 1, 0, 2, 0, 0, 0, 0, 0, 0, 0, 1, 0, 0, 0, 0, 0, 0, 0, 2, 0, 0, 0, 0, 0, 0, 3, 0xfc,
];

/// A stranger's TRACEON with number 2 and the name `x`.
const TRACE_ON: &[u8] = &[17, 1, 0, 2, 0, 0, 0, 0, 0, 0, 0, 0, b'x', 0];

/// The first line that a TRACEON shows.
const FIRST: &str = "1 0 0 20 took - traceon 2 x\n";

/// What a TRACEON shows.
const SHOWN: &str = "1 0 0 20 took - traceon 2 x\n1 0 0 20 trace on\n1 0 0 20 post 0 - ack 2 a\n";

/// An acknowledgment of number 2 in the name `a`.
const ACK: &[u8] = &[2, 1, 0, 2, 0, 0, 0, 0, 0, 0, 0, 0, b'a', 0];

/// The arguments of a daemon of one turn, and of one of two.
const ONE: &[&str] = &["serve", "127.0.0.1:525", "a", "m", "1"];

const TWO: &[&str] = &["serve", "127.0.0.1:525", "a", "m", "2"];

/// A wall clock.
#[derive(Clone, Copy, PartialEq, Eq)]
enum Wall {
    /// A thousand microseconds.
    Usual,
    /// -2^31 seconds.
    Early,
    /// 2^31 seconds.
    Late,
}

/// The arguments, the calls of the link and the writes that fail, the datagram that comes with its
/// sender, and the wall clock. A run gives its status, its text, how many sends were tried, and how
/// many readings are left.
#[derive(Clone, Copy)]
struct Row {
    words: &'static [&'static str],
    calls: &'static [u32],
    writes: &'static [u32],
    from: Place,
    comes: &'static [u8],
    wall: Wall,
    status: Status,
    text: &'static str,
    tried: usize,
    left: usize,
}

/// Three readings, a wall clock, and the word 2.
fn ticker_at(alloc: Global, wall: Wall) -> Result<MemoryTicker, AllocError> {
    match wall {
        Wall::Usual => MemoryTicker::new(alloc, &[0, 10, 20], 1000, 2),
        Wall::Early => MemoryTicker::new(alloc, &[0, 10, 20], -2_147_483_648_000_000, 2),
        Wall::Late => MemoryTicker::new(alloc, &[0, 10, 20], 2_147_483_648_000_000, 2),
    }
}

/// Whether so many sends were tried, each of them the answer where a request came.
fn is_sent(link: &MemoryLink, tried: usize, comes: &[u8]) -> bool {
    for sent in 0..link.tried() {
        if comes == REQUEST && link.tried_octets(sent) != REPLY {
            return false;
        }
    }
    link.tried() == tried
}

/// Whether the run over these ends as the row says, with its text.
fn tells(
    alloc: Global,
    row: &Row,
    sink: &mut MemorySink,
    link: &mut MemoryLink,
    ticker: &mut MemoryTicker,
) -> Result<bool, AllocError> {
    let status = run_unread(alloc, row.words, sink, link, ticker)?;
    Ok(status == row.status && sink.written() == row.text.as_bytes())
}

/// The same, with a sink whose writes fail as the row says.
fn is_told(
    alloc: Global,
    row: &Row,
    link: &mut MemoryLink,
    ticker: &mut MemoryTicker,
) -> Result<bool, AllocError> {
    let mut sink = MemorySink::new(alloc, row.writes)?;
    tells(alloc, row, &mut sink, link, ticker)
}

/// Whether it also leaves so many readings of this ticker.
fn leaves(
    alloc: Global,
    row: &Row,
    link: &mut MemoryLink,
    ticker: &mut MemoryTicker,
) -> Result<bool, AllocError> {
    Ok(is_told(alloc, row, link, ticker)? && ticker.left() == row.left)
}

/// The same, with the row's wall clock.
fn is_timed(alloc: Global, row: &Row, link: &mut MemoryLink) -> Result<bool, AllocError> {
    let mut ticker = ticker_at(alloc, row.wall)?;
    leaves(alloc, row, link, &mut ticker)
}

/// Whether the run over this link comes to what the row says.
fn goes(alloc: Global, row: &Row, link: &mut MemoryLink) -> Result<bool, AllocError> {
    link.arrive(row.from, row.comes)?;
    Ok(is_timed(alloc, row, link)? && is_sent(link, row.tried, row.comes))
}

/// Whether the run comes to what the row says; the source, whose first read would fail, isn't read.
fn row_passes(alloc: Global, row: &Row) -> Result<bool, AllocError> {
    let mut link = MemoryLink::new(alloc, row.calls)?;
    goes(alloc, row, &mut link)
}

/// A daemon of one turn that answers a stranger's request and shows nothing.
const DAEMON: Row = Row {
    words: ONE,
    calls: &[],
    writes: &[],
    from: Place::Stranger,
    comes: REQUEST,
    wall: Wall::Usual,
    status: Status::Ok,
    text: "",
    tried: 1,
    left: 0,
};

/// One whose trace is turned on.
const SHOWING: Row = Row {
    comes: TRACE_ON,
    text: SHOWN,
    ..DAEMON
};

/// One whose wall clock is out of its range.
const UNTIMELY: Row = Row {
    wall: Wall::Late,
    status: Status::Bad,
    text: "bad wall\n",
    tried: 0,
    left: 2,
    ..DAEMON
};

/// A date that is passed on.
const DATE: Row = Row {
    words: &["date", "127.0.0.1:525", "0"],
    from: Place::Peer(PeerId(0)),
    comes: ACK,
    text: "date forwarded\n",
    ..DAEMON
};

/// A request is answered and nothing shown; a step that turns the trace on is shown. A send that
/// fails is a lost datagram. A bind or a receive that fails ends the daemon, and so does a write,
/// after what was written. A wall clock lies strictly between -2^31 and 2^31 seconds. A date goes out and
/// is passed on. A storm touches neither link nor ticker.
const ROWS: &[Row] = &[
    DAEMON,
    Row {
        calls: &[2],
        ..DAEMON
    },
    SHOWING,
    Row {
        calls: &[2],
        ..SHOWING
    },
    Row {
        calls: &[0],
        status: Status::LinkFault,
        tried: 0,
        left: 3,
        ..DAEMON
    },
    Row {
        calls: &[1],
        status: Status::LinkFault,
        tried: 0,
        left: 1,
        ..DAEMON
    },
    Row {
        words: TWO,
        calls: &[3],
        status: Status::LinkFault,
        ..DAEMON
    },
    Row {
        writes: &[1],
        status: Status::WriteFault,
        text: FIRST,
        ..SHOWING
    },
    Row {
        wall: Wall::Early,
        ..UNTIMELY
    },
    UNTIMELY,
    Row {
        writes: &[0],
        status: Status::WriteFault,
        text: "",
        ..UNTIMELY
    },
    DATE,
    Row {
        words: &["storm", "1", "1", "1"],
        text: "events 1 posted 0 took 0 corrects 0 masters 0\n",
        tried: 0,
        left: 3,
        ..DATE
    },
];

/// Daemons, questions and a storm end as their rows say.
#[test]
fn runs_end(rt: HostRuntime) {
    for row in ROWS {
        assert!(rt; row_passes(rt.alloc(), row) == Ok(true), "{}", row.text);
    }
}
