//! Runs of a daemon on two networks over a link and a ticker in memory, whose traces and datagrams
//! were worked out by hand.
use crate::status::Status;
use crate::tests::run_unread;
use std::alloc::{AllocError, Global};
use std::process::Abort;
use tsp_base::place::{PeerId, Place};
use tsp_io::memory::MemorySink;
use tsp_io::memory_link::MemoryLink;
use tsp_io::memory_ticker::MemoryTicker;

/// Peer 1 on the first network, and peer 2 on the second.
const A: Place = Place::Peer(PeerId(1));

const B: Place = Place::Peer(PeerId(2));

/// A daemon of six turns on two networks, with one peer on each.
const WORDS: &[&str] = &[
    "serve",
    "127.0.0.1:525",
    "g",
    "s",
    "6",
    "127.0.0.1:526",
    "+",
    "127.0.0.1:527",
];

/// The ticks: one for the boot, and two for each turn.
const TICKS: &[u64] = &[
    0, 0, 10, 20, 80000000, 80000000, 81000000, 81000000, 82000000, 82000000, 83000000, 83000000,
    84000000,
];

/// What comes in each turn: the trace is turned on; both networks are silent; each has a master;
/// the one on the second corrects the clock in vain, and then the one on the first does.
const COMES: &[Option<(Place, &[u8])>] = &[
    Some((
        Place::Stranger,
        &[17, 1, 0, 2, 0, 0, 0, 0, 0, 0, 0, 0, b'x', 0],
    )),
    None,
    Some((B, &[6, 1, 0, 0, 0, 0, 0, 0, 0, 0, 0, 0, b'b', 0])),
    Some((A, &[6, 1, 0, 0, 0, 0, 0, 0, 0, 0, 0, 0, b'a', 0])),
    Some((B, &[1, 1, 0, 7, 0, 0, 0, 0, 0, 0, 0, 1, b'b', 0])),
    Some((A, &[1, 1, 0, 7, 0, 0, 0, 0, 0, 0, 0, 10, b'a', 0])),
];

/// What is shown of it.
const SHOWN: &str = "\
1 0 0 10 took - traceon 2 x
1 0 0 10 trace on
1 0 0 10 post 0 - ack 2 g
2 0 0 80000000 ring quiet
2 0 0 80000000 become loose
2 0 0 80000000 arm search 85000000
2 0 0 80000000 post 1 1 masterreq 0 g
2 0 1 80000000 ring quiet
2 0 1 80000000 become loose
2 0 1 80000000 arm search 85000000
2 0 1 80000000 post 2 2 masterreq 0 g
3 0 1 81000000 took 2 masterup 0 b
3 0 1 81000000 become follow 2
3 0 1 81000000 arm elect 381000007
3 0 1 81000000 post 3 2 slaveup 7 g
4 0 0 82000000 took 1 masterup 0 a
4 0 0 82000000 become follow 1
4 0 0 82000000 arm elect 382000007
4 0 0 82000000 post 4 1 slaveup 7 g
5 0 1 83000000 took 2 adjtime 7 1 b
6 0 0 84000000 took 1 adjtime 7 10 a
6 0 0 84000000 correct 10 slew 84001000
6 0 0 84000000 arm elect 384000007
6 0 0 84000000 post 5 1 ack 7 g
";

/// What is sent: the acknowledgment of the trace, a request to each network for its master, a word
/// to each of the two, and the acknowledgment of the correction.
const SENT: &[(Place, &[u8])] = &[
    (
        Place::Stranger,
        &[2, 1, 0, 2, 0, 0, 0, 0, 0, 0, 0, 0, b'g', 0],
    ),
    (A, &[3, 1, 0, 0, 0, 0, 0, 0, 0, 0, 0, 0, b'g', 0]),
    (B, &[3, 1, 0, 0, 0, 0, 0, 0, 0, 0, 0, 0, b'g', 0]),
    (B, &[7, 1, 0, 7, 0, 0, 0, 0, 0, 0, 0, 0, b'g', 0]),
    (A, &[7, 1, 0, 7, 0, 0, 0, 0, 0, 0, 0, 0, b'g', 0]),
    (A, &[2, 1, 0, 7, 0, 0, 0, 0, 0, 0, 0, 0, b'g', 0]),
];

/// Lets this come over the link, one turn after the other.
fn arrive(link: &mut MemoryLink, comes: &[Option<(Place, &[u8])>]) -> Result<(), AllocError> {
    for one in comes {
        match one {
            Some((from, octets)) => link.arrive(*from, octets)?,
            None => link.nothing()?,
        }
    }
    Ok(())
}

/// Whether octets are those of a message whose spelling begins so: zeros follow, up to 76.
fn begins(octets: &[u8], front: &[u8]) -> bool {
    octets.len() == 76
        && octets.starts_with(front)
        && octets.iter().skip(front.len()).all(|octet| *octet == 0)
}

/// Whether just these sends were tried.
fn has_sent(link: &MemoryLink, sent: &[(Place, &[u8])]) -> bool {
    for (i, (to, octets)) in sent.iter().enumerate() {
        if i >= link.tried() {
            return false;
        }
        if link.tried_to(i) != *to || !begins(link.tried_octets(i), octets) {
            return false;
        }
    }
    link.tried() == sent.len()
}

/// Whether a daemon of two networks over these ends well, and shows what it is to show.
fn tells(
    alloc: Global,
    sink: &mut MemorySink,
    link: &mut MemoryLink,
    ticker: &mut MemoryTicker,
) -> Result<bool, AllocError> {
    let status = run_unread(alloc, WORDS, sink, link, ticker)?;
    Ok(status == Status::Ok && sink.written() == SHOWN.as_bytes())
}

/// The same, with a sink of its own; it also uses up the ticks.
fn is_shown(
    alloc: Global,
    link: &mut MemoryLink,
    ticker: &mut MemoryTicker,
) -> Result<bool, AllocError> {
    let mut sink = MemorySink::new(alloc, &[])?;
    Ok(tells(alloc, &mut sink, link, ticker)? && ticker.left() == 0)
}

/// The same, with a ticker of its own.
fn is_served(alloc: Global, link: &mut MemoryLink) -> Result<bool, AllocError> {
    let mut ticker = MemoryTicker::new(alloc, TICKS, 1000, 7)?;
    is_shown(alloc, link, &mut ticker)
}

/// Whether it is served and sends over this link what it is to.
fn goes(alloc: Global, link: &mut MemoryLink) -> Result<bool, AllocError> {
    arrive(link, COMES)?;
    Ok(is_served(alloc, link)? && has_sent(link, SENT))
}

/// The same, with a link of its own.
fn row_passes(alloc: Global) -> Result<bool, AllocError> {
    let mut link = MemoryLink::new(alloc, &[])?;
    goes(alloc, &mut link)
}

/// Each peer's datagrams come on the network that has it, and each port's acts are shown with its
/// number: the lowest port that follows steers the clock.
#[test]
fn two_networks_are_served(rt: HostRuntime) {
    assert!(rt; row_passes(rt.alloc()) == Ok(true));
}
