//! A node of one port, from its boot on: a worked schedule in which it holds one of two candidates.
ghost use Rattle.std.specs.Prelude.{◌≤◌, IfOk};
ghost use Rattle.tsp_base.specs.Frames.{IsTick};
ghost use Rattle.tsp_node.specs.NodeStands.{clock_at};

use crate::tests::acts::are_told;
use std::alloc::Global;
use std::test::Fail;
use tsp_base::act::Placed;
use tsp_base::desk::Desk;
use tsp_base::input::Input;
use tsp_base::name::Name;
use tsp_base::pad::Pad;
use tsp_base::place::{PeerId, Place, Port};
use tsp_base::role::Role;
use tsp_codec::read;
use tsp_node::{Config, Node};

/// The only port of a node.
const PORT: Port = Port(0);

/// The node's wall clock at its tick 0, in microseconds. Nothing corrects it here.
const WALL: i64 = 1_000_000;

/// An ELECTION with the number 32,768 of a node called `b`, and of one called `c`.
const FROM_B: [u8; 14] = [8, 1, 0x80, 0, 0, 0, 0, 0, 0, 0, 0, 0, b'b', 0];

const FROM_C: [u8; 14] = [8, 1, 0x80, 0, 0, 0, 0, 0, 0, 0, 0, 0, b'c', 0];

/// A look at the timers, a step with octets, and octets that were read before, of this peer.
#[derive(Clone, Copy)]
enum Given {
    Turn,
    Step(u32),
    Take(u32),
}

/// At this tick the node is given this; the acts that a trace then has, and the tick at which the node is due next.
type Row = (u32, Given, &'static [&'static str], u64);

const ROWS: [Row; 5] = [
    (
        80_000_000,
        Given::Turn,
        &[
            "ring quiet",
            "become loose",
            "arm search 85000000",
            "post 0 1 masterreq 0 a",
            "post 0 2 masterreq 0 a",
        ],
        85_000_000,
    ),
    (
        85_000_000,
        Given::Turn,
        &["ring search", "arm elect 385000000"],
        385_000_000,
    ),
    (
        90_000_000,
        Given::Step(1),
        &[
            "took 1 election 32768 b",
            "back 1",
            "arm elect 390000000",
            "post 0 1 accept 32768 a",
        ],
        390_000_000,
    ),
    (
        149_999_999,
        Given::Take(2),
        &["took 2 election 32768 c", "post 0 2 refuse 32768 a"],
        390_000_000,
    ),
    (
        150_000_000,
        Given::Take(2),
        &[
            "took 2 election 32768 c",
            "back 2",
            "arm elect 450000000",
            "post 0 2 accept 32768 a",
        ],
        450_000_000,
    ),
];

/// What these peers say.
fn octets_of(peer: u32) -> &'static [u8] {
    if peer == 1 { &FROM_B } else { &FROM_C }
}

/// Gives the node what a row has, with the acts on the pad alone.
fn give(node: &mut Node, tick: u64, given: Given, pad: &mut Pad) -> Result<(), Fail>
    requires tick { IsTick tick }
    requires later { clock_at node.old ≤ tick }
    ensures clock { IfOk result (λ _. clock_at node.new ≤ tick) }
{
    pad.clear();
    pad.reserve(node.room())?;
    match given {
        Given::Turn => node.turn(tick, pad),
        Given::Step(peer) => {
            let from = Place::Peer(PeerId(peer));
            let octets = octets_of(peer);
            node.step(
                tick,
                &Input::Bytes {
                    port: PORT,
                    from,
                    octets,
                },
                pad,
            );
        }
        Given::Take(peer) => {
            let taken = read(octets_of(peer));
            node.take(tick, Place::Peer(PeerId(peer)), &taken, pad);
        }
    }
    Ok(())
}

/// Gives the node one row after the other, and reads its clock after each. The index of the first row whose acts,
/// due tick or clock are others, or whose tick is below the one before.
fn first_wrong(node: &mut Node, pad: &mut Pad, rows: &[Row]) -> Result<Option<usize>, Fail>
    requires { clock_at node.old ≤ 0 }
{
    let mut before = 0;
    for (i, (tick, given, texts, due)) in rows.iter().enumerate() {
        if *tick < before {
            return Ok(Some(i));
        }
        before = *tick;
        let tick = before as u64;
        give(node, tick, *given, pad)?;
        let is_shown = node.shown(tick) == WALL + tick as i64;
        if !are_told(pad.acts(), texts) || node.due() != *due || !is_shown {
            return Ok(Some(i));
        }
    }
    Ok(None)
}

/// Peer 0 of three, called `a`, which may not be master.
fn config_of(alloc: Global) -> Result<Config, Fail> {
    let peers = [PeerId(0), PeerId(1), PeerId(2)];
    let name = Name::of(b"a")?;
    Ok(Config::new(alloc, name, PeerId(0), &peers, false, false)?)
}

/// The node as it boots.
fn booted(alloc: Global, pad: &mut Pad) -> Result<Node, Fail>
    ensures clock { IfOk result (λ node. clock_at node ≤ 0) }
{
    pad.reserve(3)?;
    let config = config_of(alloc)?;
    Ok(Node::boot(alloc, &config, 0, WALL, 0, pad)?)
}

/// Whether a node has just booted with these acts.
fn has_booted(node: &Node, acts: &[Placed]) -> bool {
    are_told(acts, &["boot", "become starting", "arm quiet 80000000"])
        && node.due() == 80_000_000
        && node.role() == Role::Starting
        && !node.tracing()
}

/// The index of the first row that goes wrong right after a boot, and whether the boot and the last role are right.
fn holds(node: &mut Node, pad: &mut Pad) -> Result<(Option<usize>, bool), Fail>
    requires { clock_at node.old ≤ 0 }
{
    let row_passes = has_booted(node, pad.acts());
    let wrong = first_wrong(node, pad, &ROWS)?;
    Ok((wrong, row_passes && node.role() == Role::Loose))
}

/// The same of a new node.
fn tried(alloc: Global) -> Result<(Option<usize>, bool), Fail> {
    let mut pad = Pad::new(alloc);
    let mut node = booted(alloc, &mut pad)?;
    holds(&mut node, &mut pad)
}

#[test]
fn a_node_holds_one_candidate(rt: HostRuntime) -> Result<(), Fail> {
    assert_eq!(rt; tried(rt.alloc())?, (None, true));
    Ok(())
}
