//! Questions over links in memory: what is sent, and what is written for the answer.

use std::alloc::{AllocError, Global};
use std::process::Abort;
use tsp_args::query::Query;
use tsp_base::micros::Micros;
use tsp_base::place::{PeerId, Place};
use tsp_io::addr::Addr;
use tsp_io::memory::MemorySink;
use tsp_io::memory_link::MemoryLink;
use tsp_io::memory_ticker::MemoryTicker;
use tsp_query::command::ask;
use tsp_query::exit::QueryExit;

/// The daemon that is asked.
pub const DAEMON: Place = Place::Peer(PeerId(0));

/// An ACK with number 2 and the name `a`.
pub const ACK: &[u8] = &[2, 1, 0, 2, 0, 0, 0, 0, 0, 0, 0, 0, b'a', 0];

/// An ACK with number 3 and the name `a`.
pub const NAMED: &[u8] = &[2, 1, 0, 3, 0, 0, 0, 0, 0, 0, 0, 0, b'a', 0];

/// An ACK with number 3 and the empty name.
const NAMELESS: &[u8] = &[2, 1, 0, 3, 0, 0, 0, 0, 0, 0, 0, 0, 0];

/// A DATEACK with number 2 and the name `a`.
pub const DATED: &[u8] = &[16, 1, 0, 2, 0, 0, 0, 0, 0, 0, 0, 0, b'a', 0];

/// The reply with ticket 5, word 2, counter 0 and reading 1,000,500.
pub const REPLY: &[u8] = &[
    0x81, 1, 0, 5, 0, 0, 0, 0, 0, 0, 0, 2, 0, 0, 0, 0, 0, 0, 0, 0, 0, 0, 0, 0, 0, 0x0f, 0x44, 0x34,
];

/// A question by the type of its datagram, with the ticker's word, the datagram that comes, and the
/// calls of the link and the writes that fail. A run of it gives its end, the text that was written,
/// and how many sends were tried.
#[derive(Clone, Copy)]
struct Row {
    kind: u8,
    word: u64,
    from: Place,
    comes: &'static [u8],
    calls: &'static [u32],
    writes: &'static [u32],
    end: QueryExit,
    text: &'static str,
    tried: usize,
}

/// A question for the master that an ACK answers from the daemon, where no call fails.
const ASKED: Row = Row {
    kind: 19,
    word: 2,
    from: DAEMON,
    comes: ACK,
    calls: &[],
    writes: &[],
    end: QueryExit::LinkFault,
    text: "",
    tried: 1,
};

/// The question that sends a datagram of this type; a date is 100 seconds.
pub fn query_of(kind: u8) -> Query {
    match kind {
        17 => Query::Trace(true),
        18 => Query::Trace(false),
        19 => Query::Msite,
        21 => Query::Election,
        22 => match Micros::of(100_000_000) {
            Some(time) => Query::Date(time),
            None => Query::Election,
        },
        _ => Query::ClockDiff,
    }
}

/// Whether so many sends were tried, each of a datagram of this type to the daemon.
fn is_sent(link: &MemoryLink, tried: usize, kind: u8) -> bool {
    if link.tried() != tried {
        return false;
    }
    if tried == 0 {
        return true;
    }
    link.tried_to(0) == DAEMON && link.tried_octets(0).first() == Some(&kind)
}

/// Whether a question over this link ends as its row says, with the row's text.
fn asks(alloc: Global, row: &Row, link: &mut MemoryLink) -> Result<bool, AllocError> {
    let mut sink = MemorySink::new(alloc, row.writes)?;
    let mut ticker = MemoryTicker::new(alloc, &[0, 1_000_000, 1_000_801], 0, row.word)?;
    let daemon = Addr {
        ip: [127, 0, 0, 1],
        port: 525,
    };
    let end = ask(daemon, &query_of(row.kind), &mut sink, link, &mut ticker);
    Ok(end == row.end && sink.written() == row.text.as_bytes())
}

/// The same over a link whose calls fail as the row says, and whether it sends as it is to.
fn row_passes(alloc: Global, row: &Row) -> Result<bool, AllocError> {
    let mut link = MemoryLink::new(alloc, row.calls)?;
    if !row.comes.is_empty() {
        link.arrive(row.from, row.comes)?;
    }
    Ok(asks(alloc, row, &mut link)? && is_sent(&link, row.tried, row.kind))
}

/// A question for the master by a daemon that knows one.
const MASTER: Row = Row {
    word: 3,
    comes: NAMED,
    end: QueryExit::Answered,
    text: "master a\n",
    ..ASKED
};

/// Each question has its line, and the empty name means that there is no master. A stranger's datagram is no answer.
/// A bind, a send, a receive or a write that fails ends the question without a line.
const ROWS: &[Row] = &[
    MASTER,
    Row {
        comes: NAMELESS,
        text: "no master\n",
        ..MASTER
    },
    Row {
        comes: &[],
        end: QueryExit::NoAnswer,
        text: "no answer\n",
        ..MASTER
    },
    Row {
        kind: 128,
        comes: REPLY,
        end: QueryExit::Answered,
        text: "clockdiff 100 401\n",
        ..ASKED
    },
    Row {
        kind: 17,
        end: QueryExit::Answered,
        text: "trace on\n",
        ..ASKED
    },
    Row {
        kind: 18,
        end: QueryExit::Answered,
        text: "trace off\n",
        ..ASKED
    },
    Row {
        kind: 21,
        end: QueryExit::Answered,
        text: "election heard\n",
        ..ASKED
    },
    Row {
        kind: 22,
        end: QueryExit::Answered,
        text: "date forwarded\n",
        ..ASKED
    },
    Row {
        kind: 22,
        comes: DATED,
        end: QueryExit::Answered,
        text: "date set\n",
        ..ASKED
    },
    Row {
        from: Place::Stranger,
        end: QueryExit::NoAnswer,
        text: "no answer\n",
        ..ASKED
    },
    Row {
        calls: &[0],
        tried: 0,
        ..ASKED
    },
    Row {
        calls: &[1],
        ..ASKED
    },
    Row {
        calls: &[2],
        ..ASKED
    },
    Row {
        writes: &[0],
        end: QueryExit::WriteFault,
        ..ASKED
    },
];

/// Each question ends as its row says.
#[test]
fn lines_say_what_came(rt: HostRuntime) {
    for row in ROWS {
        assert!(rt; row_passes(rt.alloc(), row) == Ok(true), "{}", row.text);
    }
}
