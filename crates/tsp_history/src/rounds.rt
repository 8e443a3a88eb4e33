//! Facts of a port's round: its exchanges and its samples.
ghost use Rattle.std.specs.Prelude.{◌≡◌, ◌<◌, ◌≤◌, ◌^◌, ◌-ℤ◌, pos, true, List, ◌∷◌};
ghost use Rattle.std.specs.Prelude.{None, length, get_or, IfSome};
ghost use Rattle.tsp_base.specs.History.{Line, of, dids, view};
ghost use Rattle.tsp_base.specs.RoundFacts.{best, exchange, is_going};
ghost use Rattle.tsp_base.specs.NodeFacts.{target};
ghost use Rattle.tsp_promises.specs.StepFacts.{closed};
ghost use Rattle.tsp_history.specs.Changes.{BeginsOn, place_by};
ghost use Rattle.tsp_history.specs.Clocks.{IsSmall, IsSumOf, IsTrip, KeepsClock};
ghost use Rattle.tsp_history.specs.Histories.{line_of, history_of};
ghost use Rattle.tsp_history.specs.Notes.{Told};
ghost use Rattle.tsp_history.specs.Posts.{IsPost};
ghost use Rattle.tsp_history.specs.Rounds.{Asked, Bests, better_of, IsSampleOf, SeenBy, TripsTell};
ghost use Rattle.tsp_history.specs.Rounds.{sampled_at, start_of, trip_at};

use crate::brief::Brief;
use crate::change::Change;
use crate::clocks::target_at;
use crate::line::HistoryLine;
use crate::notes::port_at;
use tsp_base::alarm::Alarm;
use tsp_base::place::{PeerId, Place, Port};
use tsp_base::stamp::Stamp;

/// The best sample of a peer, and where it stands.
#[derive(Clone, Copy)]
pub struct Best {
    /// The index of its line among the history's, from 0.
    pub index: usize,
    /// How far the peer's clock is ahead of the own one, in microseconds.
    pub diff: i64,
    /// By how much diff may be wrong, in microseconds.
    pub err: i64,
    /// Its round trip, in microseconds.
    pub trip: i128,
}

/// Whether a port's round goes on after a line, where `was` says so before it.
pub(crate) fn is_going_after(line: &HistoryLine, node: u32, port: Port, was: bool) -> bool
    ensures { (before : List Line) → was ≡ is_going (view port (of node before))
        → result ≡ is_going (view port (of node (line_of line.now ∷ before))) }
{
    if line.node != node {
        return was;
    }
    match line.act.brief() {
        Brief::Boot => false,
        Brief::Become(_) | Brief::Ring(Alarm::Close) | Brief::Late(Alarm::Close) | Brief::Abandon =>
            was && line.port.0 != port.0,
        Brief::Arm(Alarm::Close, _) => was || line.port.0 == port.0,
        _ => was,
    }
}

/// Whether a round of a node's port goes on.
pub fn is_going(lines: &[HistoryLine], node: u32, port: Port) -> bool
    requires told { Told lines.now }
    ensures { result ≡ is_going (view port (of node (history_of lines.now))) }
{
    port_at(lines, node, port).is_going
}

/// What a line does to the last Close of a port's step.
fn close_change(line: &HistoryLine, node: u32, port: Port) -> Change
    ensures place { (before : List Line) → closed (view port (of node (line_of line.now ∷ before)))
        ≡ place_by result true (line_of line.now).did (view port (of node before))
        (closed (view port (of node before))) }
    ensures begins { result ≡ Change.Begins → BeginsOn line.now node port }
{
    if line.node != node {
        return Change::Keeps;
    }
    match line.act.brief() {
        Brief::Mark => Change::Ends,
        Brief::Close(_, _, _, _) => {
            if line.port.0 == port.0 {
                Change::Begins
            } else {
                Change::Keeps
            }
        }
        _ => Change::Keeps,
    }
}

/// The index of the last Close in the step that a node's port is in, if there is one.
pub fn closed_at(lines: &[HistoryLine], node: u32, port: Port) -> Option<usize>
    ensures { SeenBy lines.now node port (closed (view port (of node (history_of lines.now))))
        result }
{
    let mut left = lines.len();
    while left > 0 {
        left -= 1;
        match close_change(&lines[left], node, port) {
            Change::Keeps => {}
            Change::Ends => return None,
            Change::Begins => return Some(left),
        }
    }
    None
}

/// What a line does to the open exchange with a peer that has this counter in its request.
fn exchange_change(line: &HistoryLine, node: u32, port: Port, p: PeerId, counter: u64) -> Change
    ensures place { (before : List Line)
        → exchange p counter (view port (of node (line_of line.now ∷ before)))
        ≡ place_by result true (line_of line.now).did (view port (of node before))
        (exchange p counter (view port (of node before))) }
    ensures begins { result ≡ Change.Begins → BeginsOn line.now node port }
    ensures posts { result ≡ Change.Begins → IsPost line.now }
{
    if line.node != node {
        return Change::Keeps;
    }
    let brief = line.act.brief();
    if let Brief::Boot = brief {
        return Change::Ends;
    }
    if line.port.0 != port.0 {
        return Change::Keeps;
    }
    match brief {
        Brief::Become(_)
        | Brief::Arm(Alarm::Close, _)
        | Brief::Ring(Alarm::Close)
        | Brief::Late(Alarm::Close)
        | Brief::Abandon => Change::Ends,
        Brief::PostStamp(Place::Peer(q), Stamp::Request { counter: c, .. }) => {
            if q.0 == p.0 && c == counter {
                Change::Begins
            } else {
                Change::Keeps
            }
        }
        Brief::Sample(peer, c, _, _, _) => {
            if peer.0 == p.0 && c == counter {
                Change::Ends
            } else {
                Change::Keeps
            }
        }
        _ => Change::Keeps,
    }
}

/// The clock's target, in microseconds, at the last request of a node's port to a peer with this
/// counter in the request, as long as that exchange is open; else None.
pub fn asked_at(
    lines: &[HistoryLine],
    node: u32,
    port: Port,
    p: PeerId,
    counter: u64,
) -> Option<i128>
    requires few { length lines.now < 2 ^ 32 }
    requires told { Told lines.now }
    ensures asked { Asked (exchange p counter (view port (of node (history_of lines.now)))) result }
    ensures small { IfSome result IsSmall }
{
    let mut left = lines.len();
    while left > 0 {
        left -= 1;
        let line = &lines[left];
        match exchange_change(line, node, port, p, counter) {
            Change::Keeps => {}
            Change::Ends => return None,
            Change::Begins => return Some(target_of(line)),
        }
    }
    None
}

/// The target of a line's node after it, in microseconds.
fn target_of(line: &HistoryLine) -> i128
    requires { IsSumOf 4294967295 line.now.note.node.clock.moved }
    ensures target { (before : List Line) → KeepsClock line.now.node before line.now.note.node.clock
        → result ≡ target (dids (of line.now.node before)) line.now.tick }
    ensures small { IsSmall result }
{
    line.note.node.clock.target(line.tick)
}

/// The time from a start to now, or from 0 where there is no start.
fn since(now: i128, start: Option<i128>) -> i128
    requires now { IsSmall now }
    requires start { IfSome start IsSmall }
    ensures time { result ≡ now -ℤ start_of start }
    ensures small { IsTrip result }
{
    match start {
        Some(start) => now - start,
        None => now,
    }
}

/// The round trip of a Sample that stands after these lines, in microseconds; 0 at another line.
pub fn trip_of(lines: &[HistoryLine], line: &HistoryLine) -> i128
    requires few { length lines.now < 2 ^ 32 }
    requires told { Told lines.now }
    ensures trip { result ≡ trip_at (line_of line.now) (history_of lines.now) }
    ensures small { IsTrip result }
{
    match line.act.brief() {
        Brief::Sample(peer, counter, _, _, _) => {
            let asked = asked_at(lines, line.node, line.port, peer, counter);
            since(target_at(lines, line.node, line.tick), asked)
        }
        _ => 0,
    }
}

/// What a line does to the best sample of a peer: it keeps it, is one more, or leaves none, since a
/// round begins, a role, or a life.
fn sample_change(line: &HistoryLine, node: u32, port: Port, p: PeerId) -> Change
    ensures keeps { result ≡ Change.Keeps → (before : List Line)
        → best p (view port (of node (line_of line.now ∷ before)))
        ≡ best p (view port (of node before)) }
    ensures ends { result ≡ Change.Ends → (before : List Line)
        → best p (view port (of node (line_of line.now ∷ before))) ≡ None }
    ensures begins { result ≡ Change.Begins → IsSampleOf line.now node port p }
{
    if line.node != node {
        return Change::Keeps;
    }
    let here = line.port.0 == port.0;
    match line.act.brief() {
        Brief::Boot => Change::Ends,
        Brief::Become(_) | Brief::Arm(Alarm::Close, _) => {
            if here { Change::Ends } else { Change::Keeps }
        }
        Brief::Sample(peer, _, _, _, _) => {
            if here && peer.0 == p.0 {
                Change::Begins
            } else {
                Change::Keeps
            }
        }
        _ => Change::Keeps,
    }
}

/// The sample at a line with this index and round trip.
fn sample_at(line: &HistoryLine, index: usize, trip: i128) -> Best
    ensures { result ≡ sampled_at line.now index trip }
{
    match line.act.brief() {
        Brief::Sample(_, _, diff, err, _) => Best {
            index,
            diff,
            err,
            trip,
        },
        _ => Best {
            index,
            diff: 0,
            err: 0,
            trip,
        },
    }
}

/// Of two samples the one of the less round trip, and the earlier where they are equal.
fn better(early: Best, late: Option<Best>) -> Best
    ensures { result ≡ better_of early late }
{
    match late {
        Some(late) if late.trip < early.trip => late,
        _ => early,
    }
}

/// The round trip at an index, in microseconds; 0 where there is none.
fn trip_in(trips: &[i128], index: usize) -> i128
    ensures { result ≡ get_or trips.now index (pos 0) }
{
    if index < trips.len() { trips[index] } else { 0 }
}

/// The best sample of a peer in a port's round, if there is one, where the round trips of these lines
/// stand at their indices.
pub fn best_at(
    lines: &[HistoryLine],
    trips: &[i128],
    node: u32,
    port: Port,
    p: PeerId,
) -> Option<Best>
    ensures { TripsTell (history_of lines.now) trips.now
        → Bests lines.now node port (best p (view port (of node (history_of lines.now)))) result }
{
    let mut best = None;
    let mut left = lines.len();
    while left > 0 {
        left -= 1;
        let line = &lines[left];
        match sample_change(line, node, port, p) {
            Change::Keeps => {}
            Change::Ends => return best,
            Change::Begins => {
                best = Some(better(sample_at(line, left, trip_in(trips, left)), best));
            }
        }
    }
    best
}
