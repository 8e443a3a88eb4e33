//! A candidate that becomes master, one that is refused, one that is too late, and one that finds a master.

use crate::tests::acts::are_told;
use crate::tests::candidate::Step::{Hears, Rings, Stands};
use crate::tests::node::{Node, PORT};
use std::alloc::{AllocError, Global};
use std::test::Fail;
use tsp_base::desk::Desk;
use tsp_base::kind::Kind;
use tsp_base::message::{Body, Message};
use tsp_base::name::Name;
use tsp_base::place::PeerId;
use tsp_base::role::Role;
use tsp_candidate::candidature::stand;
use tsp_candidate::ring::candidate_ring;
use tsp_candidate::take::candidate_take;

/// What a port does, or hears.
#[derive(Clone, Copy)]
enum Step {
    /// It stands for election.
    Stands,
    /// It looks at its Window alarm.
    Rings,
    /// A message of this kind and number comes from the other peer, whose name is `b`.
    Hears(Kind, u16),
}

/// A step at a tick, and its acts as texts of a trace.
type Row = (u32, Step, &'static [&'static str]);

/// The first candidature.
const STANDS: Row = (
    400_000_000,
    Stands,
    &[
        "become candidate",
        "back 2",
        "arm window 405000000",
        "post 0 1 election 32775 a",
    ],
);

/// Lets the node hear a message of its first peer, whose name is `b`.
fn hears(node: &mut Node, tick: u32, kind: Kind, number: u16) -> Result<(), AllocError> {
    let name = Name::of(b"b").unwrap_or(Name::empty());
    let message = Message::of(kind, number, Body::Nothing, name);
    if let (Some(m), Some(other)) = (message, node.peer_at(0)) {
        node.pad.reserve(5)?;
        candidate_take(
            &mut node.station,
            &mut node.last,
            &node.clock,
            tick as u64,
            other,
            &m,
            PORT,
            &mut node.pad,
        );
    }
    Ok(())
}

/// Lets the node go through a step.
fn goes(node: &mut Node, tick: u32, step: Step) -> Result<(), AllocError> {
    node.pad.clear();
    node.pad.reserve(node.station.peers().len() + 3)?;
    match step {
        Stands => stand(&mut node.station, tick as u64, PORT, &mut node.pad),
        Rings => candidate_ring(&mut node.station, tick as u64, PORT, &mut node.pad),
        Hears(kind, number) => hears(node, tick, kind, number)?,
    }
    Ok(())
}

/// Goes through steps one after the other. The index of the first row whose texts aren't those of its step's
/// acts.
fn first_wrong(node: &mut Node, rows: &[Row]) -> Result<Option<usize>, Fail> {
    for (i, (tick, step, acts)) in rows.iter().enumerate() {
        goes(node, *tick, *step)?;
        if !are_told(node.pad.acts(), acts) {
            return Ok(Some(i));
        }
    }
    Ok(None)
}

/// Lets peer 2 of two, where elections are strict or aren't, go through steps. What goes wrong, the port's role at the
/// end, and whether it then knows its master's name.
fn tried(alloc: Global, strict: bool, rows: &[Row]) -> Result<(Option<usize>, Role, bool), Fail> {
    let mut node = Node::new(alloc, PeerId(2), &[PeerId(1), PeerId(2)])?;
    node.station.me.strict = strict;
    let wrong = first_wrong(&mut node, rows)?;
    let is_named = node.last.name().octets() == b"b".as_slice();
    Ok((wrong, node.station.role, is_named))
}

/// A candidate that is accepted: an ACCEPT of another number counts for nothing.
const ACCEPTED: [Row; 3] = [
    STANDS,
    (400_000_001, Hears(Kind::Accept, 32_774), &[]),
    (
        400_000_002,
        Hears(Kind::Accept, 32_775),
        &["acked 1", "backer 1"],
    ),
];

/// A candidate that nobody refuses.
const LEADS: [Row; 3] = [
    STANDS,
    (
        400_000_001,
        Hears(Kind::Election, 40_000),
        &["post 0 1 refuse 40000 a"],
    ),
    (
        406_000_000,
        Rings,
        &[
            "ring window",
            "become master",
            "arm round 646000000",
            "post 0 1 masterup 0 a",
        ],
    ),
];

/// A candidate that is refused.
const REFUSED: [Row; 3] = [
    STANDS,
    (400_000_001, Hears(Kind::Refuse, 32_776), &[]),
    (
        400_000_002,
        Hears(Kind::Refuse, 32_775),
        &["acked 1", "become loose", "arm elect 700000009"],
    ),
];

/// A candidate that is too late, and stands again.
const LATE: [Row; 3] = [
    STANDS,
    (
        406_000_001,
        Rings,
        &["late window", "become loose", "arm elect 706000008"],
    ),
    (
        706_000_008,
        Stands,
        &[
            "become candidate",
            "back 2",
            "arm window 711000008",
            "post 0 1 election 32776 a",
        ],
    ),
];

/// A candidate that finds a master.
const FOLLOWS: [Row; 3] = [
    STANDS,
    (400_000_001, Hears(Kind::Ack, 32_775), &[]),
    (
        400_000_002,
        Hears(Kind::MasterUp, 0),
        &[
            "become follow 1",
            "arm elect 700000009",
            "post 0 1 slaveup 7 a",
        ],
    ),
];

/// One of two isn't a majority, and two of two are one.
const STRICT: [Row; 5] = [
    STANDS,
    (
        405_000_000,
        Rings,
        &["ring window", "become loose", "arm elect 705000007"],
    ),
    (
        706_000_000,
        Stands,
        &[
            "become candidate",
            "back 2",
            "arm window 711000000",
            "post 0 1 election 32776 a",
        ],
    ),
    (
        706_000_001,
        Hears(Kind::Accept, 32_776),
        &["acked 1", "backer 1"],
    ),
    (
        711_000_000,
        Rings,
        &[
            "ring window",
            "become master",
            "arm round 951000000",
            "post 0 1 masterup 0 a",
        ],
    ),
];

/// Whether elections are strict, a candidate's steps, its role at the end, and whether it then knows its master's name.
const RUNS: [(bool, &[Row], Role, bool); 6] = [
    (false, &ACCEPTED, Role::Candidate, false),
    (false, &LEADS, Role::Master, false),
    (false, &REFUSED, Role::Loose, false),
    (false, &LATE, Role::Candidate, false),
    (false, &FOLLOWS, Role::Follow(PeerId(1)), true),
    (true, &STRICT, Role::Master, false),
];

#[test]
fn candidates_win_and_give_way(rt: HostRuntime) -> Result<(), Fail> {
    for (run, (strict, rows, role, named)) in RUNS.iter().enumerate() {
        let (wrong, last, is_named) = tried(rt.alloc(), *strict, rows)?;
        assert!(rt; wrong.is_none(), "row {wrong:?} of run {run}");
        assert!(rt; last == *role && is_named == *named, "run {run}");
    }
    Ok(())
}
