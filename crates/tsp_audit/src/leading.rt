//! Whether only masters correct.
ghost use Rattle.std.specs.Prelude.{◌≡◌, ◌≤◌, List, ◌∷◌, length, take, MatchBool};
ghost use Rattle.tsp_base.specs.History.{Line};
ghost use Rattle.tsp_promises.specs.OnlyMaster.{LeadsAt, OnlyMaster};
ghost use Rattle.tsp_audit.specs.Leading.{closing, must_lead};
ghost use Rattle.tsp_history.specs.Changes.{told_or};
ghost use Rattle.tsp_history.specs.Histories.{line_of, history_of, deed_of};
ghost use Rattle.tsp_history.specs.Notes.{Told};

use tsp_base::role::Role;
use tsp_history::brief::Brief;
use tsp_history::line::HistoryLine;
use tsp_history::scans::role_at;

/// Whether the newest act is a Close, after this line; None where this line doesn't decide it.
fn closing_told(line: &HistoryLine) -> Option<bool>
    ensures { (before : List Line) → closing (line_of line.now ∷ before)
        ≡ told_or result (closing before) }
{
    match line.act.brief() {
        Brief::Mark => None,
        Brief::Close(_, _, _, _) => Some(true),
        _ => Some(false),
    }
}

/// Whether the newest act is a Close.
fn closes_last(lines: &[HistoryLine]) -> bool
    ensures { result ≡ closing (history_of lines.now) }
{
    let mut left = lines.len();
    while left > 0 {
        left -= 1;
        if let Some(told) = closing_told(&lines[left]) {
            return told;
        }
    }
    false
}

/// Whether the port of a line must be a master, where these stand before it.
fn must_lead(lines: &[HistoryLine], line: &HistoryLine) -> bool
    ensures { result ≡ must_lead (deed_of line.now.act) (closing (history_of lines.now)) }
{
    match line.act.brief() {
        Brief::PostMessage(_, kind, _, _) => kind.is_correction(),
        Brief::Close(_, _, _, _) => true,
        Brief::Correct(_, _, _) => closes_last(lines),
        _ => false,
    }
}

/// Whether a line is a master's where it must be, where these stand before it.
fn leads(lines: &[HistoryLine], line: &HistoryLine) -> bool
    requires { Told lines.now }
    ensures { MatchBool result (LeadsAt (line_of line.now) (history_of lines.now))
        (LeadsAt (line_of line.now) (history_of lines.now) → ⊥) }
{
    if must_lead(lines, line) {
        match role_at(lines, line.node, line.port) {
            Role::Master => true,
            _ => false,
        }
    } else {
        true
    }
}

/// Whether only masters correct in all lines, where it is so in those before `from`.
pub(crate) fn keeps_leading(lines: &[HistoryLine], from: usize) -> bool
    requires from { from ≤ length lines.now }
    requires told { Told lines.now }
    ensures { OnlyMaster (history_of (take from lines.now))
        → MatchBool result (OnlyMaster (history_of lines.now)) (OnlyMaster (history_of lines.now)
        → ⊥) }
{
    for i in from..lines.len() {
        if !leads(&lines[..i], &lines[i]) {
            return false;
        }
    }
    true
}
