//! Whether each measurement errs by at most half its round trip.
ghost use Rattle.std.specs.Prelude.{◌≡◌, ◌≤◌, ◌<◌, ◌^◌, ◌-ℤ◌, List, length, take, MatchBool, MatchOption};
ghost use Rattle.tsp_base.specs.History.{Line, of, view};
ghost use Rattle.tsp_promises.specs.Measured.{MeasuredAt, ReadBy, TripAt, TripOf};
ghost use Rattle.tsp_base.specs.Samples.{half_down, half_up};
ghost use Rattle.tsp_promises.specs.Setting.{Setting};
ghost use Rattle.tsp_audit.specs.Measuring.{IsWithinError, MeasuresAt, Replies, RepliesAt, RepliesTo};
ghost use Rattle.tsp_audit.specs.Parts.{PartHolds, Measuring, MeasuresWell};
ghost use Rattle.tsp_audit.specs.Settings.{HasClocks, Timely};
ghost use Rattle.tsp_history.specs.Clocks.{IsSmall, IsTrip};
ghost use Rattle.tsp_history.specs.Histories.{line_of, history_of};
ghost use Rattle.tsp_history.specs.Notes.{Told};

use crate::brought::came_at;
use crate::clock::clock_at;
use crate::nearness::is_near;
use crate::premises::Premises;
use tsp_base::header::Header;
use tsp_base::place::{PeerId, Place};
use tsp_base::stamp::Stamp;
use tsp_history::brief::Brief;
use tsp_history::clocks::target_at;
use tsp_history::line::HistoryLine;
use tsp_history::rounds::{asked_at, is_going};

/// Whether a line is a peer's, and posts a reply to a node.
fn replies_to(post: &HistoryLine, peer: PeerId, node: u32) -> bool
    ensures { MatchBool result (RepliesTo (line_of post.now) peer node)
        (RepliesTo (line_of post.now) peer node → ⊥) }
{
    match post.act.brief() {
        Brief::PostStamp(Place::Peer(to), Stamp::Reply(_)) => {
            post.node == peer.0 && to.0 == node
        }
        _ => false,
    }
}

/// The index of the line, among these before it, at which a peer posts the reply that a line's step takes.
fn reply_at(lines: &[HistoryLine], line: &HistoryLine, peer: PeerId) -> Option<usize>
    requires { Told lines.now }
    ensures { MatchOption result ((post : Line) (older : List Line)
        → Replies (line_of line.now) (history_of lines.now) peer post older
        → ⊥) (λ i. RepliesAt lines.now (line_of line.now) peer i) }
{
    match came_at(lines, line) {
        None => None,
        Some(index) => {
            if replies_to(&lines[index], peer, line.node) {
                Some(index)
            } else {
                None
            }
        }
    }
}

/// How far one clock, or one time, lies ahead of another, in microseconds.
#[tactic(auto, using(std::proofs::lemmas::Int::ints))]
fn gap(ahead: i128, own: i128) -> i128
    requires ahead { IsSmall ahead }
    requires own { IsSmall own }
    ensures gap { result ≡ ahead -ℤ own }
    ensures small { IsTrip result }
{
    ahead - own
}

/// Whether one clock is ahead of another by diff, give or take err; all in microseconds.
fn stands_ahead(diff: i64, err: i64, ahead: i128, own: i128) -> bool
    requires ahead { IsSmall ahead }
    requires own { IsSmall own }
    ensures { MatchBool result (IsWithinError diff err ahead own) (IsWithinError diff err ahead own → ⊥) }
{
    is_near(i128::from(diff), gap(ahead, own), i128::from(err))
}

/// Whether a Sample of a peer has a reading from which diff errs by at most err, where these lines
/// stand before it.
fn has_reading(
    header: &Header,
    lines: &[HistoryLine],
    line: &HistoryLine,
    peer: PeerId,
    diff: i64,
    err: i64,
) -> bool
    requires few { length lines.now < 2 ^ 32 }
    requires told { Told lines.now }
    ensures { (setting : Setting) → HasClocks header.now setting → Timely (history_of lines.now)
        → MatchBool result (ReadBy setting (line_of line.now) (history_of lines.now) peer diff err)
        (ReadBy setting (line_of line.now) (history_of lines.now) peer diff err → ⊥) }
{
    match reply_at(lines, line, peer) {
        None => false,
        Some(index) => {
            let post = &lines[index];
            let then = &lines[..index + 1];
            let ahead = clock_at(header, then, peer.0, post.at);
            let own = clock_at(header, then, line.node, post.at);
            stands_ahead(diff, err, ahead, own)
        }
    }
}

/// Whether a Sample errs by at most its err, where these lines stand before it.
fn errs_little(header: &Header, lines: &[HistoryLine], line: &HistoryLine) -> bool
    requires few { length lines.now < 2 ^ 32 }
    requires told { Told lines.now }
    ensures { (setting : Setting) → HasClocks header.now setting → Timely (history_of lines.now)
        → MatchBool result (MeasuredAt setting (line_of line.now) (history_of lines.now))
        (MeasuredAt setting (line_of line.now) (history_of lines.now) → ⊥) }
{
    match line.act.brief() {
        Brief::Sample(peer, _, diff, err, _) => {
            has_reading(header, lines, line, peer, diff, err)
        }
        _ => true,
    }
}

/// Half of a time, rounded down.
fn half_down(time: i128) -> i128
    ensures { result ≡ half_down time }
{
    time.div_euclid(2)
}

/// Half of a time, rounded up.
#[tactic(auto, using(std::proofs::lemmas::Int::ints))]
fn half_up(time: i128) -> i128
    requires { IsTrip time }
    ensures { result ≡ half_up time }
{
    -half_down(-time)
}

/// Whether two numbers are the same.
fn is_same(number: i64, other: i128) -> bool
    ensures { MatchBool result (number ≡ other) (number ≡ other → ⊥) }
{
    i128::from(number) == other
}

/// Whether err is half of the time from a start to now, rounded up; all in microseconds.
fn is_half(err: i64, now: i128, start: i128) -> bool
    requires now { IsSmall now }
    requires start { IsSmall start }
    ensures { MatchBool result (err ≡ half_up (now -ℤ start)) (err ≡ half_up (now -ℤ start) → ⊥) }
{
    is_same(err, half_up(gap(now, start)))
}

/// Whether a Sample under this counter ends an exchange with a peer whose trip takes twice err,
/// where these lines stand before it.
fn ends_exchange(
    lines: &[HistoryLine],
    line: &HistoryLine,
    peer: PeerId,
    counter: u64,
    err: i64,
) -> bool
    requires few { length lines.now < 2 ^ 32 }
    requires told { Told lines.now }
    ensures { MatchBool result
        (TripOf (line_of line.now) (view line.now.port (of line.now.node (history_of lines.now)))
        peer counter err)
        (TripOf (line_of line.now) (view line.now.port (of line.now.node (history_of lines.now)))
        peer counter err → ⊥) }
{
    if !is_going(lines, line.node, line.port) {
        return false;
    }
    match asked_at(lines, line.node, line.port, peer, counter) {
        None => false,
        Some(start) => is_half(err, target_at(lines, line.node, line.tick), start),
    }
}

/// Whether the err of a Sample is half its round trip, where these lines stand before it.
fn trips_well(lines: &[HistoryLine], line: &HistoryLine) -> bool
    requires few { length lines.now < 2 ^ 32 }
    requires told { Told lines.now }
    ensures { MatchBool result (TripAt (line_of line.now) (history_of lines.now))
        (TripAt (line_of line.now) (history_of lines.now) → ⊥) }
{
    match line.act.brief() {
        Brief::Sample(peer, counter, _, err, _) => ends_exchange(lines, line, peer, counter, err),
        _ => true,
    }
}

/// Whether a line keeps that each measurement errs by at most half its round trip, where these
/// lines stand before it.
fn measures(header: &Header, lines: &[HistoryLine], line: &HistoryLine) -> bool
    requires few { length lines.now < 2 ^ 32 }
    requires told { Told lines.now }
    ensures { (setting : Setting) → HasClocks header.now setting → Timely (history_of lines.now)
        → MatchBool result (MeasuresAt setting (line_of line.now) (history_of lines.now))
        (MeasuresAt setting (line_of line.now) (history_of lines.now) → ⊥) }
{
    if !trips_well(lines, line) {
        return false;
    }
    errs_little(header, lines, line)
}

/// Whether each measurement errs by at most half its round trip in all lines, where it is so in
/// those before `from`.
fn keeps_measuring(header: &Header, lines: &[HistoryLine], from: usize) -> bool
    requires from { from ≤ length lines.now }
    requires few { length lines.now < 2 ^ 32 }
    requires told { Told lines.now }
    ensures { (setting : Setting) → HasClocks header.now setting → Timely (history_of lines.now)
        → MeasuresWell setting (history_of (take from lines.now))
        → MatchBool result (MeasuresWell setting (history_of lines.now))
        (MeasuresWell setting (history_of lines.now) → ⊥) }
{
    for i in from..lines.len() {
        if !measures(header, &lines[..i], &lines[i]) {
            return false;
        }
    }
    true
}

/// Whether each measurement errs by at most half its round trip in all lines, where the premises
/// ask for it; else true. It is so in those before `from`.
pub(crate) fn keeps_measuring_if(
    header: &Header,
    premises: Premises,
    lines: &[HistoryLine],
    from: usize,
) -> bool
    requires from { from ≤ length lines.now }
    requires few { length lines.now < 2 ^ 32 }
    requires told { Told lines.now }
    ensures { (setting : Setting) → HasClocks header.now setting → Timely (history_of lines.now)
        → PartHolds premises setting Measuring (history_of (take from lines.now))
        → MatchBool result (PartHolds premises setting Measuring (history_of lines.now))
        (PartHolds premises setting Measuring (history_of lines.now) → ⊥) }
{
    if premises.honest && premises.words {
        keeps_measuring(header, lines, from)
    } else {
        true
    }
}
