//! A master that asks who else is master, and sends away those who say so.
ghost use Rattle.std.specs.Prelude.{◌≡◌, ◌≤◌, length};
ghost use Rattle.tsp_base.specs.Pad.{spare_of};

use crate::tests::acts::are_told;
use crate::tests::node::{Node, PORT};
use crate::tests::resolve::Step::{Answers, Forgets, Leads, Rings, Starts};
use std::alloc::{AllocError, Global};
use std::test::Fail;
use tsp_base::desk::Desk;
use tsp_base::place::PeerId;
use tsp_base::role::Role;
use tsp_resolve::resolve::Resolve;

/// What a port does, or hears.
#[derive(Clone, Copy)]
enum Step {
    /// It is master.
    Leads,
    /// It asks at this tick who else is master.
    Starts(u32),
    /// The first peer answers that it is a master, where the port is one.
    Answers,
    /// At this tick the time for answers is over.
    Rings(u32),
    /// It forgets who answered.
    Forgets,
}

/// A step, and its acts as texts of a trace.
type Row = (Step, &'static [&'static str]);

/// The first peer is found to be a rival.
fn answers(node: &mut Node, resolve: &mut Resolve)
    requires many { length resolve.old.marks ≡ length node.old.station.peers }
    requires room { 1 ≤ spare_of node.old.pad }
    ensures many { length resolve.new.marks ≡ length node.new.station.peers }
{
    if let (Role::Master, Some(first)) = (node.station.role, node.peer_at(0)) {
        resolve.rival(&node.station, first, PORT, &mut node.pad);
    }
}

/// Lets a node go through a step.
fn goes(node: &mut Node, resolve: &mut Resolve, step: Step) -> Result<(), AllocError>
    requires many { length resolve.old.marks ≡ length node.old.station.peers }
    ensures many { length resolve.new.marks ≡ length node.new.station.peers }
{
    node.pad.clear();
    node.pad.reserve(node.station.peers().len() + 1)?;
    let (station, pad) = (&mut node.station, &mut node.pad);
    match step {
        Leads => station.become_role(Role::Master, PORT, pad),
        Starts(tick) => resolve.start(station, tick as u64, PORT, pad),
        Answers => answers(node, resolve),
        Rings(tick) => resolve.ring(station, tick as u64, PORT, pad),
        Forgets => resolve.clear(),
    }
    Ok(())
}

/// Goes through steps one after the other. The index of the first row whose texts aren't those of its step's
/// acts.
fn first_wrong(node: &mut Node, resolve: &mut Resolve, rows: &[Row]) -> Result<Option<usize>, Fail>
    requires many { length resolve.old.marks ≡ length node.old.station.peers }
{
    for (i, (step, acts)) in rows.iter().enumerate() {
        goes(node, resolve, *step)?;
        if !are_told(node.pad.acts(), acts) {
            return Ok(Some(i));
        }
    }
    Ok(None)
}

/// Lets a new node, which knows of no rivals, go through steps.
fn tried_at(alloc: Global, node: &mut Node, rows: &[Row]) -> Result<Option<usize>, Fail> {
    let mut resolve = Resolve::new(alloc, node.station.peers())?;
    first_wrong(node, &mut resolve, rows)
}

/// Lets peer 2 of three go through steps.
fn tried(alloc: Global, rows: &[Row]) -> Result<Option<usize>, Fail> {
    let mut node = Node::new(alloc, PeerId(2), &[PeerId(1), PeerId(2), PeerId(4)])?;
    tried_at(alloc, &mut node, rows)
}

/// What the node asks the others at tick 100.
const STARTS: Row = (
    Starts(100),
    &[
        "arm resolve 5000100",
        "post 0 1 resolve 0 a",
        "post 0 4 resolve 0 a",
    ],
);

/// A rival that answers once is sent away.
const RIVAL: [Row; 6] = [
    (Leads, &["become master"]),
    STARTS,
    (Starts(200), &[]),
    (Answers, &["rival 1"]),
    (Answers, &[]),
    (Rings(6_000_100), &["ring resolve", "post 0 1 quit 32775 a"]),
];

/// A rival that is forgotten is sent nothing.
const FORGOTTEN: [Row; 5] = [
    (Leads, &["become master"]),
    STARTS,
    (Answers, &["rival 1"]),
    (Forgets, &[]),
    (Rings(5_000_100), &["ring resolve"]),
];

/// Runs of steps, each of a new node.
const RUNS: [&[Row]; 2] = [&RIVAL, &FORGOTTEN];

#[test]
fn sends_rivals_away(rt: HostRuntime) -> Result<(), Fail> {
    for (run, rows) in RUNS.iter().enumerate() {
        let wrong = tried(rt.alloc(), rows)?;
        assert!(rt; wrong.is_none(), "row {wrong:?} of run {run}");
    }
    Ok(())
}
