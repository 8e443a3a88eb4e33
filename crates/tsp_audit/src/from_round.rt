//! What a Correct came of, if that is a round: if a Close of a master sent it, as an ADJTIME.
ghost use Rattle.std.specs.Prelude.{◌<◌, List, length, MatchBool, MatchOption};
ghost use Rattle.tsp_audit.specs.Agreeing.{FromRoundAs, IsFromNoRound};
ghost use Rattle.tsp_audit.specs.FromRounds.{BegunAt, HasNoRound, IsAdjusting, RoundAs, TakesNone, TakesThen};
ghost use Rattle.tsp_base.specs.History.{Line, dids, of, view};
ghost use Rattle.tsp_history.specs.Histories.{deed_of, line_of, history_of};
ghost use Rattle.tsp_history.specs.Notes.{Told};
ghost use Rattle.tsp_promises.specs.StepFacts.{closed};
ghost use Rattle.tsp_history.specs.Rounds.{SeenAt, TripsTell};

use crate::once::takes_send;
use crate::round_correction::RoundCorrection;
use tsp_base::kind::Kind;
use tsp_base::place::{PeerId, Port};
use tsp_history::brief::Brief;
use tsp_history::counts::counts_at;
use tsp_history::line::{HistoryLine, Why};
use tsp_history::posts::post_at;
use tsp_history::rounds::{best_at, closed_at};

/// The true time, in microseconds, at which something was posted, among these lines, that the step
/// of a later line takes.
fn reading_of(lines: &[HistoryLine], line: &HistoryLine) -> Option<u64>
    requires { Told lines.now }
    ensures { MatchOption result (TakesNone (history_of lines.now) (line_of line.now))
        (λ t. TakesThen (history_of lines.now) (line_of line.now) t) }
{
    let Why::Came(number) = line.why else {
        return None;
    };
    match post_at(lines, number) {
        None => None,
        Some(index) => Some(lines[index].at),
    }
}

/// The values remembered of the Close at this index, where these lines stand before the first post
/// of a send to a node: with its best sample of that node, if this has a reading.
fn sampled_round(
    lines: &[HistoryLine],
    trips: &[i128],
    close: usize,
    first: &HistoryLine,
    node: u32,
) -> Option<RoundCorrection>
    requires told { Told lines.now }
    requires below { close < length lines.now }
    ensures { TripsTell (history_of lines.now) trips.now
        → SeenAt lines.now first.now.node first.now.port
        (closed (view first.now.port (of first.now.node (history_of lines.now)))) close
        → MatchOption result (HasNoRound first.now.node first.now.port node (history_of lines.now))
        (λ c. RoundAs first.now.node first.now.port node (history_of lines.now) c) }
{
    let past = &lines[..close];
    let Some(best) = best_at(past, trips, first.node, first.port, PeerId(node)) else {
        return None;
    };
    if best.index >= close {
        return None;
    }
    match reading_of(&past[..best.index], &past[best.index]) {
        None => None,
        Some(at) => {
            let counts = counts_at(&lines[..close + 1], first.node);
            Some(RoundCorrection {
                master: first.node,
                close,
                lives: counts.lives,
                corrects: counts.corrects,
                at,
                err: best.err,
            })
        }
    }
}

/// What began a send to a node, if that is a Close of its step that had a sample of the node, where
/// these lines stand before its first post.
fn round_of(
    lines: &[HistoryLine],
    trips: &[i128],
    first: &HistoryLine,
    node: u32,
) -> Option<RoundCorrection>
    requires { Told lines.now }
    ensures { TripsTell (history_of lines.now) trips.now
        → MatchOption result (HasNoRound first.now.node first.now.port node (history_of lines.now))
        (λ c. RoundAs first.now.node first.now.port node (history_of lines.now) c) }
{
    match closed_at(lines, first.node, first.port) {
        None => None,
        Some(close) => {
            if close < lines.len() {
                sampled_round(lines, trips, close, first, node)
            } else {
                None
            }
        }
    }
}

/// Whether a line posts an ADJTIME.
fn is_adjusting(line: &HistoryLine) -> bool
    ensures { MatchBool result (IsAdjusting (deed_of line.now.act))
        (IsAdjusting (deed_of line.now.act) → ⊥) }
{
    match line.act.brief() {
        Brief::PostMessage(_, kind, _, _) => kind == Kind::AdjTime,
        _ => false,
    }
}

/// The index of the first post of the send of which a line's Correct takes a post, if that is an ADJTIME.
fn begun(lines: &[HistoryLine], line: &HistoryLine) -> Option<usize>
    requires { Told lines.now }
    ensures { MatchOption result (IsFromNoRound (line_of line.now) (history_of lines.now))
        (λ i. BegunAt lines.now (line_of line.now) i) }
{
    let Some(number) = takes_send(lines, line) else {
        return None;
    };
    match post_at(lines, number) {
        None => None,
        Some(index) => {
            if is_adjusting(&lines[index]) {
                Some(index)
            } else {
                None
            }
        }
    }
}

/// What a line's Correct came of, if that is a round, where these lines stand before it, with their
/// round trips.
pub(crate) fn correction_at(
    lines: &[HistoryLine],
    trips: &[i128],
    line: &HistoryLine,
) -> Option<RoundCorrection>
    requires { Told lines.now }
    ensures { TripsTell (history_of lines.now) trips.now
        → MatchOption result (IsFromNoRound (line_of line.now) (history_of lines.now))
        (λ c. FromRoundAs (line_of line.now) (history_of lines.now) c) }
{
    match begun(lines, line) {
        None => None,
        Some(index) => round_of(&lines[..index], trips, &lines[index], line.node),
    }
}
