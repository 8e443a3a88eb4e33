//! Questions over links and tickers in memory, worked out by hand.
use crate::tests::questions::{ACK, DAEMON, DATED, NAMED, REPLY, query_of};
use std::alloc::{AllocError, Global};
use std::process::Abort;
use tsp_args::query::Query;
use tsp_base::place::Place;
use tsp_io::memory_link::MemoryLink;
use tsp_io::memory_ticker::MemoryTicker;
use tsp_query::query::{QueryEnd, clockdiff, election, msite, setdate, trace};

/// How a question is to end.
#[derive(Clone, Copy)]
enum Wanted {
    Master(&'static [u8]),
    Diff(i64, i64),
    Heard,
    Date(bool),
    NoAnswer,
    LinkFault,
}

/// A question by the type of its datagram, the calls of the link that fail, how many receives get nothing
/// first, the datagram that comes then with its sender, how the question ends, and how many of the three
/// readings are left.
type Row = (
    u8,
    &'static [u32],
    usize,
    Place,
    &'static [u8],
    Wanted,
    usize,
);

/// The master's name is that in the ACK; a datagram with another number, or none, is no answer. An ACK of
/// the daemon is an answer, a stranger's isn't; the ninth arrival isn't received. A trace is turned on or
/// off. A send or a receive that fails ends a question. A reply that came after 801 microseconds: 100 ahead, give
/// or take 401. A date that is acknowledged was passed on, and one that a DATEACK answers was set.
const ROWS: &[Row] = &[
    (19, &[], 0, DAEMON, ACK, Wanted::Master(b"a"), 0),
    (19, &[], 0, DAEMON, NAMED, Wanted::NoAnswer, 0),
    (19, &[], 0, DAEMON, &[], Wanted::NoAnswer, 0),
    (21, &[], 0, DAEMON, ACK, Wanted::Heard, 0),
    (21, &[], 0, Place::Stranger, ACK, Wanted::NoAnswer, 0),
    (21, &[], 7, DAEMON, ACK, Wanted::Heard, 0),
    (21, &[], 8, DAEMON, ACK, Wanted::NoAnswer, 0),
    (17, &[], 0, DAEMON, ACK, Wanted::Heard, 0),
    (18, &[], 0, DAEMON, ACK, Wanted::Heard, 0),
    (17, &[0], 0, DAEMON, ACK, Wanted::LinkFault, 1),
    (17, &[1], 0, DAEMON, ACK, Wanted::LinkFault, 1),
    (128, &[], 0, DAEMON, REPLY, Wanted::Diff(100, 401), 0),
    (22, &[], 0, DAEMON, ACK, Wanted::Date(false), 0),
    (22, &[], 0, DAEMON, DATED, Wanted::Date(true), 0),
];

/// Asks over this link, with this ticker.
fn put(query: &Query, link: &mut MemoryLink, ticker: &mut MemoryTicker) -> QueryEnd {
    match query {
        Query::Trace(on) => trace(*on, link, ticker),
        Query::Date(time) => setdate(*time, link, ticker),
        Query::Msite => msite(link, ticker),
        Query::Election => election(link, ticker),
        Query::ClockDiff => clockdiff(link, ticker),
    }
}

/// Whether a question ended so.
fn is_end(end: &QueryEnd, wanted: Wanted) -> bool {
    match (end, wanted) {
        (QueryEnd::Master(name), Wanted::Master(octets)) => name.octets() == octets,
        (QueryEnd::Diff(diff, err), Wanted::Diff(ahead, off)) => *diff == ahead && *err == off,
        (QueryEnd::Heard, Wanted::Heard) => true,
        (QueryEnd::Date(date), Wanted::Date(set)) => *date == set,
        (QueryEnd::NoAnswer, Wanted::NoAnswer) => true,
        (QueryEnd::LinkFault, Wanted::LinkFault) => true,
        _ => false,
    }
}

/// Whether one datagram of this type was sent to the daemon: a message is numbered 2 and named by the
/// client, and that of a date has its time.
fn is_sent(link: &MemoryLink, kind: u8) -> bool {
    if link.tried() != 1 || link.tried_to(0) != DAEMON {
        return false;
    }
    let mut wanted = [0; 76];
    wanted[..19].copy_from_slice(&[
        kind, 1, 0, 2, 0, 0, 0, 0, 0, 0, 0, 0, b't', b'i', b'm', b'e', b'd', b'c', 0,
    ]);
    if kind == 22 {
        wanted[7] = 100;
    }
    kind == 128 || link.tried_octets(0) == wanted.as_slice()
}

/// Lets the datagram of a row arrive.
fn arrive(row: &Row, link: &mut MemoryLink) -> Result<(), AllocError> {
    for _ in 0..row.2 {
        link.nothing()?;
    }
    if row.4.is_empty() {
        return Ok(());
    }
    link.arrive(row.3, row.4)
}

/// Whether the question of a row, over a link whose calls fail as the row says, ends and sends as it is to.
fn row_passes(alloc: Global, row: &Row) -> Result<bool, AllocError> {
    let mut link = MemoryLink::new(alloc, row.1)?;
    arrive(row, &mut link)?;
    let mut ticker = MemoryTicker::new(alloc, &[0, 1_000_000, 1_000_801], 0, 2)?;
    let end = put(&query_of(row.0), &mut link, &mut ticker);
    Ok(is_end(&end, row.5) && ticker.left() == row.6 && is_sent(&link, row.0))
}

/// Each question, its answers, and what is none.
#[test]
fn questions_are_answered(rt: HostRuntime) {
    for row in ROWS {
        assert!(rt; row_passes(rt.alloc(), row) == Ok(true), "{}", row.0);
    }
}
