//! Examples of the tree and of sends, and a count of rounds that only the tree can finish in time.
ghost use Rattle.std.specs.Prelude.{◌≡◌, ◌^◌, ◌≤◌, ◌<◌, length, IfOk};
ghost use Rattle.tsp_base.specs.Words.{IsAscending};
ghost use Rattle.tsp_sends.specs.Slots.{peers_of};

use std::alloc::{AllocError, Global};
use tsp_base::kind::Kind;
use tsp_base::message::{Body, Message};
use tsp_base::name::Name;
use tsp_base::place::PeerId;
use tsp_sends::{Due, Sends, Tree};

/// The peers below a number.
fn peers_below(alloc: Global, count: u32) -> Result<Vec<PeerId>, AllocError>
    ensures count { IfOk result (λ v. length v.items ≡ count) }
    ensures ascending { IfOk result (λ v. IsAscending v.items) }
{
    let mut peers = Vec::new(alloc);
    for number in 0..count {
        peers.push(PeerId(number))?;
    }
    Ok(peers)
}

/// Begins a CONFLICT with this number to the peer at a place.
fn begin(sends: &mut Sends, peers: &[PeerId], place: usize, number: u16, tick: u64)
    requires peers { peers_of sends.old ≡ peers.now }
    requires place { place < length peers.now }
    requires tick { tick ≤ 2 ^ 61 }
    ensures { peers_of sends.new ≡ peers.now }
{
    let message = Message::new(Kind::Conflict, number, Body::Nothing, Name::empty());
    sends.begin(peers[place], message, tick);
}

/// The peer and the number of a repeat.
fn repeat_of(due: Option<Due>) -> Option<(u32, u16)> {
    match due {
        Some(Due::Again(peer, message)) => Some((peer.0, message.number())),
        _ => None,
    }
}

/// The peer and the kind of a send that is given up.
fn loss_of(due: Option<Due>) -> Option<(u32, Kind)> {
    match due {
        Some(Due::Gave(peer, kind)) => Some((peer.0, kind)),
        _ => None,
    }
}

/// Whether a tree of five places finds the first due place from each of three on, and its least deadline, and how
/// often it looked.
fn finds_first_due(tree: &mut Tree) -> bool
    requires { length tree.old.deadlines ≡ 5 }
{
    tree.put(0, Some(9));
    tree.put(2, Some(4));
    tree.put(3, Some(4));
    for (from, place) in [(0, Some(2)), (3, Some(3)), (4, None)] {
        if tree.first_due(from, 8) != place {
            return false;
        }
    }
    tree.least() == Some(4) && tree.looks() <= 6 * 8
}

#[test]
fn the_tree_finds_the_first_due_place(rt: HostRuntime) -> Result<(), AllocError> {
    let mut tree = Tree::new(rt.alloc(), 5)?;
    assert!(rt; finds_first_due(&mut tree));
    Ok(())
}

/// Whether an ACK of another number leaves a send alone, and one of its number ends it.
fn ends_one(sends: &mut Sends, peers: &[PeerId]) -> bool
    requires peers { peers_of sends.old ≡ peers.now }
    requires three { length peers.now ≡ 3 }
    ensures peers { peers_of sends.new ≡ peers.now }
{
    begin(sends, peers, 1, 9, 0);
    !sends.ack(PeerId(5), 8) && sends.ack(PeerId(5), 9)
}

/// Whether two sends are repeated when they are due.
fn repeats_two(sends: &mut Sends, peers: &[PeerId]) -> bool
    requires peers { peers_of sends.old ≡ peers.now }
    requires three { length peers.now ≡ 3 }
{
    begin(sends, peers, 0, 7, 100);
    begin(sends, peers, 2, 8, 0);
    let is_begun = sends.least() == Some(1_000_000)
        && sends.kind(PeerId(9)) == Some(Kind::Conflict)
        && sends.kind(PeerId(5)).is_none();
    for (after, tick, again) in [
        (None, 1_000_099, Some((9, 8))),
        (None, 2_000_000, Some((1, 7))),
        (Some(PeerId(1)), 2_000_000, Some((9, 8))),
        (None, 2_000_000, None),
    ] {
        if repeat_of(sends.due(after, tick)) != again {
            return false;
        }
    }
    is_begun
}

/// Whether both are given up: the send to peer 9 was posted three times, and the one to peer 1 began too long ago.
fn gives_up_two(sends: &mut Sends) -> bool {
    for (after, tick, peer) in [(Some(PeerId(1)), 3_000_000, 9), (None, 4_000_101, 1)] {
        if loss_of(sends.due(after, tick)) != Some((peer, Kind::Conflict)) {
            return false;
        }
    }
    sends.least().is_none()
}

#[test]
fn sends_are_repeated_and_given_up(rt: HostRuntime) -> Result<(), AllocError> {
    let peers = [PeerId(1), PeerId(5), PeerId(9)];
    let mut sends = Sends::new(rt.alloc(), &peers)?;
    let steps = [
        ends_one(&mut sends, &peers),
        repeats_two(&mut sends, &peers),
        gives_up_two(&mut sends),
    ];
    sends.clear();
    assert_eq!(rt; steps, [true, true, true]);
    Ok(())
}

#[test]
fn many_peers_cost_little(rt: HostRuntime) {
    let peers = peers_below(rt.alloc(), 200_000).expect(&rt, "memory");
    let mut sends = Sends::new(rt.alloc(), &peers).expect(&rt, "memory");
    for place in 0..199_999 {
        begin(&mut sends, &peers, place, 1, 500_000);
    }
    for _round in 0..4_000_000 {
        begin(&mut sends, &peers, 199_999, 2, 0);
        assert_eq!(rt; repeat_of(sends.due(None, 1_000_000)), Some((199_999, 2)));
    }
}
