//! How a line changes what is remembered of its node.
ghost use Rattle.std.specs.Prelude.{◌≡◌, ◌≤◌, ◌<◌, ◌^◌, ℕ, ℤ, List, [], ◌∷◌, length, true, MatchBool};
ghost use Rattle.tsp_audit.specs.Agreeing.{FirstIs, NodeIs};
ghost use Rattle.tsp_audit.specs.Changes.{IsCorrect, LeavesState};
ghost use Rattle.tsp_base.specs.declared.act.Act.TheVariants.{Boot};
ghost use Rattle.tsp_base.specs.History.{Acts, Line, from_act};
ghost use Rattle.tsp_base.specs.NodeFacts.{all_corrects_after, lives_after};
ghost use Rattle.tsp_history.specs.Histories.{deed_of, line_of, history_of};
ghost use Rattle.tsp_history.specs.Notes.{Told};
ghost use Rattle.tsp_history.specs.Rounds.{TripsTell};

use crate::from_round::correction_at;
use crate::round_correction::NodeState;
use tsp_history::brief::Brief;
use tsp_history::clocks::moved_at;
use tsp_history::counts::counts_at;
use tsp_history::line::HistoryLine;

/// What is remembered of a node before any line.
pub(crate) fn blank() -> NodeState
    ensures { (n : ℕ) → NodeIs n [] result }
{
    NodeState {
        moved: 0,
        lives: 0,
        corrects: 0,
        after: None,
        from_round: None,
    }
}

/// Whether a line is a Boot.
fn is_boot(line: &HistoryLine) -> bool
    ensures { MatchBool result (deed_of line.now.act ≡ Acts Boot) ((n : ℕ)
        → lives_after (deed_of line.now.act) n ≡ n) }
{
    matches!(line.act.brief(), Brief::Boot)
}

/// Whether a line is a Correct.
fn is_correct(line: &HistoryLine) -> bool
    ensures { MatchBool result (IsCorrect (deed_of line.now.act)) ((n : ℕ)
        → all_corrects_after (deed_of line.now.act) n ≡ n) }
{
    matches!(line.act.brief(), Brief::Correct(_, _, _))
}

/// Whether a line is neither a Boot nor a Correct, so that it changes nothing of what is remembered.
pub(crate) fn leaves_state(line: &HistoryLine) -> bool
    ensures { result ≡ true → LeavesState (deed_of line.now.act) }
{
    if is_boot(line) {
        return false;
    }
    if is_correct(line) {
        return false;
    }
    true
}

/// What is remembered of a node after a Boot of it.
fn booted(upto: &[HistoryLine], line: &HistoryLine, was: NodeState) -> NodeState
    requires { Told upto.now }
    ensures { (before : List Line) → history_of upto.now ≡ line_of line.now ∷ before
        → deed_of line.now.act ≡ Acts Boot → NodeIs line.now.node before was
        → NodeIs line.now.node (line_of line.now ∷ before) result }
{
    NodeState {
        moved: 0,
        lives: counts_at(upto, line.node).lives,
        from_round: None,
        ..was
    }
}

/// What is remembered of a line's node after it, where these lines stand before it, with their
/// round trips and the index of the newest act among them; `upto` are the lines up to and with it.
pub(crate) fn state_after(
    upto: &[HistoryLine],
    before: &[HistoryLine],
    trips: &[i128],
    line: &HistoryLine,
    last: Option<usize>,
    was: NodeState,
) -> NodeState
    requires few { length upto.now < 2 ^ 32 }
    requires told { Told upto.now }
    requires past { Told before.now }
    ensures is { history_of upto.now ≡ line_of line.now ∷ history_of before.now
        → TripsTell (history_of before.now) trips.now
        → FirstIs (from_act (history_of before.now)) last
        → NodeIs line.now.node (history_of before.now) was
        → NodeIs line.now.node (line_of line.now ∷ history_of before.now) result }
    ensures same { LeavesState (deed_of line.now.act) → result ≡ was }
{
    if is_boot(line) {
        return booted(upto, line, was);
    }
    if is_correct(line) {
        return NodeState {
            moved: moved_at(upto, line.node),
            lives: was.lives,
            corrects: counts_at(upto, line.node).corrects,
            after: last,
            from_round: correction_at(before, trips, line),
        };
    }
    was
}
