//! A follower that is corrected, hears the correction again, and is corrected once more; and a port that is
//! asked to back two candidates.
ghost use Rattle.std.specs.Prelude.{◌≤◌, IfOk};
ghost use Rattle.tsp_base.specs.Frames.{IsTick};

use crate::tests::acts::are_told;
use crate::tests::node::{Node, PORT};
use crate::tests::slave::Told::{Plain, Timed};
use std::alloc::{AllocError, Global};
use std::test::Fail;
use tsp_base::alarm::Alarm;
use tsp_base::desk::Desk;
use tsp_base::kind::Kind;
use tsp_base::message::{Body, Message};
use tsp_base::micros::Micros;
use tsp_base::name::Name;
use tsp_base::place::PeerId;
use tsp_base::role::Role;
use tsp_slave::ring::slave_ring;
use tsp_slave::take::slave_take;

/// The places of two peers among the port's.
const MASTER: usize = 1;

const OTHER: usize = 2;

/// A message of a kind and a number, without a body or with a time.
#[derive(Clone, Copy)]
enum Told {
    Plain(Kind, u16),
    Timed(Kind, u16, i64),
}

/// At this tick the port takes this message of the peer at this place; its acts as texts of a trace, and
/// what the clock shows then.
type Row = (u32, usize, Told, &'static [&'static str], i64);

/// What the port does when it begins to follow its master at tick 81,000,000.
const FOLLOWS: [&str; 3] = [
    "become follow 1",
    "arm elect 381000007",
    "post 0 1 slaveup 7 a",
];

/// The message of a peer whose name is `b`.
fn message(told: Told) -> Option<Message> {
    let name = Name::of(b"b").ok()?;
    match told {
        Plain(kind, number) => Message::of(kind, number, Body::Nothing, name),
        Timed(kind, number, time) => Message::of(kind, number, Body::Time(Micros::of(time)?), name),
    }
}

/// Peer 0 of three, which may not be master, and whose quiet time has just ended.
fn node(alloc: Global) -> Result<Node, Fail>
    ensures { IfOk result (λ n. n.clock.at ≤ 0) }
{
    let mut node = Node::new(alloc, PeerId(0), &[PeerId(0), PeerId(1), PeerId(2)])?;
    node.station.me.may = false;
    node.pad.reserve(node.station.peers().len() + 3)?;
    slave_ring(
        &mut node.station,
        Alarm::Quiet,
        80_000_000,
        PORT,
        &mut node.pad,
    );
    Ok(node)
}

/// Lets the node take a message of the peer at a place.
fn takes(node: &mut Node, tick: u64, place: usize, m: &Message) -> Result<(), AllocError>
    requires tick { IsTick tick }
    requires later { node.old.clock.at ≤ tick }
    ensures clock { node.new.clock.at ≤ tick }
{
    node.pad.clear();
    node.pad.reserve(5)?;
    if let Some(from) = node.peer_at(place) {
        slave_take(
            &mut node.station,
            &mut node.last,
            &mut node.clock,
            tick,
            from,
            m,
            PORT,
            &mut node.pad,
        );
    }
    Ok(())
}

/// Lets the port take messages one after the other. The index of the first row whose texts aren't those of
/// the acts, or whose tick is before that of the row before it.
fn first_wrong(node: &mut Node, rows: &[Row]) -> Result<Option<usize>, Fail>
    requires { node.old.clock.at ≤ 0 }
{
    let mut before = 0;
    for (i, (tick, place, told, acts, shown)) in rows.iter().enumerate() {
        if *tick < before {
            return Ok(Some(i));
        }
        before = *tick;
        let Some(m) = message(*told) else {
            return Ok(Some(i));
        };
        takes(node, before as u64, *place, &m)?;
        if !are_told(node.pad.acts(), acts) || node.clock.shown(before as u64) != *shown {
            return Ok(Some(i));
        }
    }
    Ok(None)
}

/// Whether the node has just begun to search for a master.
fn searches(node: &Node) -> bool {
    are_told(
        node.pad.acts(),
        &[
            "ring quiet",
            "become loose",
            "arm search 85000000",
            "post 0 1 masterreq 0 a",
            "post 0 2 masterreq 0 a",
        ],
    )
}

/// What a port has come to: its role, whether its master is called `b`, the tick of its last correction, when its
/// Elect alarm is due, and whether it may back peer 2 at tick 141,000,000.
type End = (Role, bool, Option<u64>, Option<u64>, bool);

/// What the node's port has come to.
fn end_of(node: &Node) -> End {
    let station = &node.station;
    (
        station.role,
        node.last.name().octets() == b"b".as_slice(),
        node.last.tick(),
        station.alarms.at(Alarm::Elect),
        station.hold.may_back(141_000_000, PeerId(2)),
    )
}

/// Lets a new node take messages. Whether it searched before, what goes wrong, and what its port has come to.
fn tried(alloc: Global, rows: &[Row]) -> Result<(bool, Option<usize>, End), Fail> {
    let mut node = node(alloc)?;
    let searched = searches(&node);
    let wrong = first_wrong(&mut node, rows)?;
    Ok((searched, wrong, end_of(&node)))
}

/// The port hears of its master, and follows it.
const MEETS: Row = (
    81_000_000,
    MASTER,
    Plain(Kind::MasterUp, 0),
    &FOLLOWS,
    81_000_000,
);

/// What a follower takes whose clock is corrected.
const CORRECTIONS: [Row; 6] = [
    MEETS,
    (
        82_000_000,
        MASTER,
        Timed(Kind::AdjTime, 7, 10_000),
        &[
            "correct 10000 slew 82000000",
            "arm elect 382000007",
            "post 0 1 ack 7 a",
        ],
        82_000_000,
    ),
    (
        82_500_000,
        MASTER,
        Timed(Kind::AdjTime, 7, 10_000),
        &["post 0 1 ack 7 a"],
        82_502_500,
    ),
    (
        82_999_999,
        MASTER,
        Timed(Kind::AdjTime, 8, 1),
        &[],
        83_004_998,
    ),
    (
        83_000_000,
        MASTER,
        Timed(Kind::AdjTime, 8, 1),
        &[
            "correct 1 slew 83005000",
            "arm elect 383000007",
            "post 0 1 ack 8 a",
        ],
        83_005_000,
    ),
    (
        84_000_000,
        MASTER,
        Timed(Kind::SetTime, 9, 100_000_000),
        &[
            "correct 15989999 step 100000000",
            "arm elect 384000007",
            "post 0 1 ack 9 a",
        ],
        100_000_000,
    ),
];

/// What a follower takes from a peer that is no master of its own.
const REPORTS: [Row; 6] = [
    MEETS,
    // A CONFLICT begins to the master, and no second one while it is open.
    (
        82_000_000,
        OTHER,
        Plain(Kind::MasterAck, 0),
        &["post 0 1 conflict 32775 a"],
        82_000_000,
    ),
    (82_000_001, OTHER, Plain(Kind::MasterUp, 0), &[], 82_000_001),
    (
        82_000_002,
        MASTER,
        Plain(Kind::Ack, 32_775),
        &["acked 1"],
        82_000_002,
    ),
    (
        82_000_003,
        OTHER,
        Plain(Kind::MasterUp, 0),
        &["post 0 1 conflict 32776 a"],
        82_000_003,
    ),
    // A QUIT is noted and acknowledged, and a follower stays with its master.
    (
        83_000_000,
        OTHER,
        Plain(Kind::Quit, 40_000),
        &["quit 2", "post 0 2 ack 40000 a"],
        83_000_000,
    ),
];

/// The port backs the first candidate that asks it.
const BACKS: Row = (
    81_000_000,
    OTHER,
    Plain(Kind::Election, 40_000),
    &["back 2", "arm elect 381000007", "post 0 2 accept 40000 a"],
    81_000_000,
);

/// What a port takes from two candidates.
const CANDIDATES: [Row; 4] = [
    BACKS,
    (
        140_999_999,
        MASTER,
        Plain(Kind::Election, 50_000),
        &["post 0 1 refuse 50000 a"],
        140_999_999,
    ),
    (
        140_999_999,
        MASTER,
        Plain(Kind::Ack, 50_000),
        &[],
        140_999_999,
    ),
    (
        141_000_000,
        MASTER,
        Plain(Kind::Election, 50_001),
        &["back 1", "arm elect 441000007", "post 0 1 accept 50001 a"],
        141_000_000,
    ),
];

/// A port that follows its master.
const FOLLOWER: Role = Role::Follow(PeerId(1));

/// What a port takes, and what it comes to.
const RUNS: [(&[Row], End); 4] = [
    (
        &CORRECTIONS,
        (FOLLOWER, true, Some(84_000_000), Some(384_000_007), true),
    ),
    (&REPORTS, (FOLLOWER, true, None, Some(381_000_007), true)),
    (
        &[BACKS],
        (Role::Loose, false, None, Some(381_000_007), true),
    ),
    (
        &CANDIDATES,
        (Role::Loose, false, None, Some(441_000_007), false),
    ),
];

#[test]
fn follows_and_backs(rt: HostRuntime) -> Result<(), Fail> {
    for (run, (rows, end)) in RUNS.iter().enumerate() {
        let (searched, wrong, last) = tried(rt.alloc(), rows)?;
        assert!(rt; searched && wrong.is_none(), "row {wrong:?} of run {run}");
        assert!(rt; last == *end, "end of run {run}");
    }
    Ok(())
}
