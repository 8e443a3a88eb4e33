//! A station, through each of its calls.

use crate::tests::acts::are_told;
use crate::tests::node::{Node, PORT};
use crate::tests::station::Step::{
    Acknowledged, Answered, Asks, Corrects, Dated, Dates, Repeats, Stands, Warns,
};
use std::alloc::{AllocError, Global};
use std::test::Fail;
use tsp_base::at::At;
use tsp_base::desk::Desk;
use tsp_base::kind::Kind;
use tsp_base::micros::Micros;
use tsp_base::place::PeerId;
use tsp_base::role::Role;

/// What a station is told to do, or that it hears.
#[derive(Clone, Copy)]
enum Step {
    /// It becomes a candidate.
    Stands,
    /// It begins ELECTIONs at this tick.
    Asks(u32),
    /// It begins a CONFLICT to its first peer at this tick.
    Warns(u32),
    /// It begins a SETDATEREQ of this time to its first peer, at tick 100.
    Dates(i64),
    /// It begins an ADJTIME of this time to its first peer, with the number 7, at tick 100.
    Corrects(i64),
    /// It hears an ACK of this peer and number.
    Acknowledged(u32, u16),
    /// It hears another answer of this peer and number, an ACCEPT say.
    Answered(u32, u16),
    /// It hears a DATEACK of this peer and number.
    Dated(u32, u16),
    /// It repeats, at this tick, the first due send to a peer after this one.
    Repeats(Option<u32>, u32),
}

/// A step, its acts as texts of a trace, the number of the next send, and when the next repeat is due.
type Row = (Step, &'static [&'static str], u16, Option<u64>);

/// Begins a send to the first peer.
fn begins(node: &mut Node, step: Step) -> Result<(), AllocError> {
    node.pad.reserve(1)?;
    let Some(first) = node.peer_at(0) else {
        return Ok(());
    };
    let (station, pad) = (&mut node.station, &mut node.pad);
    match step {
        Warns(tick) => station.begin(Kind::Conflict, first, tick as u64, PORT, pad),
        Dates(time) => {
            if let Some(time) = Micros::of(time) {
                station.begin_timed(Kind::SetDateReq, first, time, 100, PORT, pad);
            }
        }
        Corrects(time) => {
            if let Some(time) = Micros::of(time) {
                let at = At {
                    tick: 100,
                    port: PORT,
                };
                station.begin_correction(Kind::AdjTime, first, 7, time, at, pad);
            }
        }
        _ => {}
    }
    Ok(())
}

/// Lets the station go through a step, and says whether it did anything by its own answer.
fn goes(node: &mut Node, step: Step) -> Result<bool, AllocError> {
    node.pad.clear();
    node.pad.reserve(node.station.peers().len() + 2)?;
    let (station, pad) = (&mut node.station, &mut node.pad);
    Ok(match step {
        Stands => {
            station.become_role(Role::Candidate, PORT, pad);
            true
        }
        Asks(tick) => {
            station.begin_to_others(Kind::Election, tick as u64, PORT, pad);
            true
        }
        Acknowledged(peer, number) => station.acknowledge(PeerId(peer), number, PORT, pad),
        Answered(peer, number) => station.answered(PeerId(peer), number, PORT, pad),
        Dated(peer, number) => station.dated(PeerId(peer), number, PORT, pad),
        Repeats(after, tick) => station
            .repeat_next(after.map(PeerId), tick as u64, PORT, pad)
            .is_some(),
        _ => {
            begins(node, step)?;
            true
        }
    })
}

/// Goes through steps one after the other. The index of the first row that goes wrong.
fn first_wrong(node: &mut Node, rows: &[Row]) -> Result<Option<usize>, Fail> {
    for (i, (step, acts, next, least)) in rows.iter().enumerate() {
        let did = goes(node, *step)?;
        let is_told = are_told(node.pad.acts(), acts) && did != acts.is_empty();
        let is_next = node.station.next_number() == *next && node.station.sends.least() == *least;
        if !is_told || !is_next {
            return Ok(Some(i));
        }
    }
    Ok(None)
}

/// Lets peer 2 of three go through steps.
fn tried(alloc: Global, rows: &[Row]) -> Result<Option<usize>, Fail> {
    let mut node = Node::new(alloc, PeerId(2), &[PeerId(1), PeerId(2), PeerId(4)])?;
    first_wrong(&mut node, rows)
}

/// Two ELECTIONs begin, and then a CONFLICT in place of the first. An ACK doesn't answer an ELECTION, and an
/// ACCEPT no CONFLICT. Both sends are due a second after they began, and are posted again.
const SENDS: [Row; 11] = [
    (Stands, &["become candidate"], 32_775, None),
    (
        Asks(100),
        &["post 0 1 election 32775 a", "post 0 4 election 32776 a"],
        32_777,
        Some(1_000_100),
    ),
    (
        Warns(200),
        &["post 0 1 conflict 32777 a"],
        32_778,
        Some(1_000_100),
    ),
    (Acknowledged(4, 32_776), &[], 32_778, Some(1_000_100)),
    (Answered(1, 32_777), &[], 32_778, Some(1_000_100)),
    (Answered(4, 32_775), &[], 32_778, Some(1_000_100)),
    (
        Repeats(None, 1_000_199),
        &["post 0 4 election 32776 a"],
        32_778,
        Some(1_000_200),
    ),
    (Repeats(Some(4), 1_000_199), &[], 32_778, Some(1_000_200)),
    (
        Repeats(None, 1_000_200),
        &["post 0 1 conflict 32777 a"],
        32_778,
        Some(2_000_100),
    ),
    (Answered(4, 32_776), &["acked 4"], 32_778, Some(2_000_200)),
    (Acknowledged(1, 32_777), &["acked 1"], 32_778, None),
];

/// An ACK doesn't answer a date, and a DATEACK no correction.
const TIMES: [Row; 6] = [
    (
        Dates(-7),
        &["post 0 1 setdatereq 32775 -7 a"],
        32_776,
        Some(1_000_100),
    ),
    (Acknowledged(1, 32_775), &[], 32_776, Some(1_000_100)),
    (Dated(1, 32_775), &["acked 1"], 32_776, None),
    (
        Corrects(-7),
        &["post 0 1 adjtime 7 -7 a"],
        32_776,
        Some(1_000_100),
    ),
    (Dated(1, 7), &[], 32_776, Some(1_000_100)),
    (Acknowledged(1, 7), &["acked 1"], 32_776, None),
];

/// Runs of steps, each of a new node.
const RUNS: [&[Row]; 2] = [&SENDS, &TIMES];

#[test]
fn sends_until_answered(rt: HostRuntime) -> Result<(), Fail> {
    for (run, rows) in RUNS.iter().enumerate() {
        let wrong = tried(rt.alloc(), rows)?;
        assert!(rt; wrong.is_none(), "row {wrong:?} of run {run}");
    }
    Ok(())
}
