//! What a port answers to clients, in each of its roles.

use crate::tests::acts::are_told;
use crate::tests::clients::Step::{Follows, Leads, Loosens, Names, Says, Tests, Traces};
use crate::tests::node::{Node, PORT};
use std::alloc::{AllocError, Global};
use std::test::Fail;
use tsp_base::desk::Desk;
use tsp_base::name::Name;
use tsp_base::place::{PeerId, Place};
use tsp_base::role::Role;
use tsp_clients::candidature::take_test;
use tsp_clients::naming::{name_master, say_master};
use tsp_clients::tracing::turn_trace;
use tsp_slave::follow::follow;

/// What a stranger asks a port for by a message of a number, or what the port becomes.
#[derive(Clone, Copy)]
enum Step {
    /// Which master it knows of.
    Names(u16),
    /// Whether it is master.
    Says(u16),
    /// That it turns the node's trace on or off.
    Traces(bool, u16),
    /// That it stands for election, at this tick.
    Tests(u32, u16),
    /// It follows the other peer, whose name is `b`, from tick 80,000,000 on.
    Follows,
    /// It follows nobody.
    Loosens,
    /// It is master.
    Leads,
}

/// A step, its acts as texts of a trace, and whether the node's own trace is on then.
type Row = (Step, &'static [&'static str], bool);

/// Lets the node follow its second peer, whose name is `b`.
fn follows(node: &mut Node) -> Result<(), AllocError> {
    let name = Name::of(b"b").unwrap_or(Name::empty());
    if let Some(other) = node.peer_at(1) {
        node.pad.reserve(3)?;
        follow(
            &mut node.station,
            &mut node.last,
            &node.clock,
            80_000_000,
            other,
            &name,
            PORT,
            &mut node.pad,
        );
    }
    Ok(())
}

/// Lets the node go through a step; its trace is on or off.
fn goes(node: &mut Node, tracing: &mut bool, step: Step) -> Result<(), AllocError> {
    node.pad.clear();
    node.pad.reserve(node.station.peers().len() + 4)?;
    let from = Place::Stranger;
    let (station, pad) = (&mut node.station, &mut node.pad);
    match step {
        Names(number) => name_master(station, &node.last, from, number, PORT, pad),
        Says(number) => say_master(station, from, number, PORT, pad),
        Traces(on, number) => turn_trace(station, tracing, on, from, number, PORT, pad),
        Tests(tick, number) => take_test(station, tick as u64, from, number, PORT, pad),
        Follows => follows(node)?,
        Loosens => station.become_role(Role::Loose, PORT, pad),
        Leads => station.become_role(Role::Master, PORT, pad),
    }
    Ok(())
}

/// Goes through steps one after the other, where the trace is off at first. The index of the first row whose
/// texts aren't those of its step's acts, or after which the trace is as it should not be.
fn first_wrong(node: &mut Node, rows: &[Row]) -> Result<Option<usize>, Fail> {
    let mut tracing = false;
    for (i, (step, acts, traces)) in rows.iter().enumerate() {
        goes(node, &mut tracing, *step)?;
        if !are_told(node.pad.acts(), acts) || tracing != *traces {
            return Ok(Some(i));
        }
    }
    Ok(None)
}

/// Lets peer 0 of two go through steps.
fn tried(alloc: Global, rows: &[Row]) -> Result<Option<usize>, Fail> {
    let mut node = Node::new(alloc, PeerId(0), &[PeerId(0), PeerId(1)])?;
    first_wrong(&mut node, rows)
}

/// A port that knows no master, one that follows, and one that leads.
const NAMES: [Row; 7] = [
    (Names(1), &["post 0 - ack 1 %"], false),
    (
        Follows,
        &[
            "become follow 1",
            "arm elect 380000007",
            "post 0 1 slaveup 7 a",
        ],
        false,
    ),
    (Names(2), &["post 0 - ack 2 b"], false),
    (Says(3), &[], false),
    (Leads, &["become master"], false),
    (Names(4), &["post 0 - ack 4 a"], false),
    (Says(5), &["post 0 - ack 5 a"], false),
];

/// A node's trace is turned on and off.
const TRACES: [Row; 2] = [
    (Traces(true, 6), &["trace on", "post 0 - ack 6 a"], true),
    (Traces(false, 7), &["trace off", "post 0 - ack 7 a"], false),
];

/// It may stand for election 300 seconds after its boot.
const STANDS: [Row; 4] = [
    (Tests(79_000_000, 1), &[], false),
    (Loosens, &["become loose"], false),
    (Tests(299_999_999, 2), &["post 0 - ack 2 a"], false),
    (
        Tests(300_000_000, 3),
        &[
            "post 0 - ack 3 a",
            "become candidate",
            "back 0",
            "arm window 305000000",
            "post 0 1 election 32775 a",
        ],
        false,
    ),
];

/// Runs of steps, each of a new node.
const RUNS: [&[Row]; 3] = [&NAMES, &TRACES, &STANDS];

#[test]
fn answers_clients(rt: HostRuntime) -> Result<(), Fail> {
    for (run, rows) in RUNS.iter().enumerate() {
        let wrong = tried(rt.alloc(), rows)?;
        assert!(rt; wrong.is_none(), "row {wrong:?} of run {run}");
    }
    Ok(())
}
