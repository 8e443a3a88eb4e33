//! What is posted and taken.
ghost use Rattle.std.specs.Prelude.{◌≡◌, ◌≤◌, List, ◌∷◌, length, is_some, MatchBool, MatchOption};
ghost use Rattle.tsp_base.specs.History.{Line, of, view, dids};
ghost use Rattle.tsp_base.specs.PortFacts.{acting};
ghost use Rattle.tsp_base.specs.Takings.{heard, posted};
ghost use Rattle.tsp_history.specs.Changes.{told_or};
ghost use Rattle.tsp_history.specs.Histories.{line_of, history_of};
ghost use Rattle.tsp_history.specs.Notes.{Told};
ghost use Rattle.tsp_history.specs.Posts.{IsPost, PostsAt};

use crate::brief::Brief;
use crate::line::HistoryLine;
use tsp_base::place::Port;

/// Whether a line posts.
fn is_post(line: &HistoryLine) -> bool
    ensures { MatchBool result (IsPost line.now) ((before : List Line)
        → posted (dids (line_of line.now ∷ before)) ≡ posted (dids before)) }
{
    matches!(
        line.act.brief(),
        Brief::PostMessage(_, _, _, _) | Brief::PostStamp(_, _)
    )
}

/// How many datagrams these lines post.
pub(crate) fn posted_in(lines: &[HistoryLine]) -> u64
    requires told { Told lines.now }
    ensures posted { result ≡ posted (dids (history_of lines.now)) }
    ensures few { result ≤ length lines.now }
{
    let count = lines.len();
    if count == 0 {
        return 0;
    }
    let last = &lines[count - 1];
    last.note.posted
}

/// The index of the line that posts the datagram with this number, if there is one.
pub fn post_at(lines: &[HistoryLine], number: u64) -> Option<usize>
    requires told { Told lines.now }
    ensures { MatchOption result (posted (dids (history_of lines.now)) ≤ number)
        (λ i. PostsAt lines.now number i) }
{
    if posted_in(lines) <= number {
        return None;
    }
    let mut left = lines.len();
    while left > 0 {
        left -= 1;
        let line = &lines[left];
        if is_post(line) && line.note.posted - 1 == number {
            return Some(left);
        }
    }
    None
}

/// Whether a node's step has taken something after this line; None where this line doesn't decide it.
fn taken_told(line: &HistoryLine, node: u32) -> Option<bool>
    ensures { (before : List Line)
        → is_some (heard (dids (of node (line_of line.now ∷ before))))
        ≡ told_or result (is_some (heard (dids (of node before)))) }
{
    if line.node != node {
        return None;
    }
    match line.act.brief() {
        Brief::Mark => Some(false),
        Brief::TookMessage(_, _, _, _) | Brief::TookStamp(_, _) | Brief::TookBad(_, _) => {
            Some(true)
        }
        _ => None,
    }
}

/// Whether the step that a node is in has taken something.
pub fn has_taken(lines: &[HistoryLine], node: u32) -> bool
    ensures { result ≡ is_some (heard (dids (of node (history_of lines.now)))) }
{
    let mut left = lines.len();
    while left > 0 {
        left -= 1;
        if let Some(told) = taken_told(&lines[left], node) {
            return told;
        }
    }
    false
}

/// Whether a port's step has taken something, or an alarm of it was handled, after this line; None
/// where this line doesn't decide it.
fn acting_told(line: &HistoryLine, node: u32, port: Port) -> Option<bool>
    ensures { (before : List Line) → acting (view port (of node (line_of line.now ∷ before)))
        ≡ told_or result (acting (view port (of node before))) }
{
    if line.node != node {
        return None;
    }
    match line.act.brief() {
        Brief::Mark => Some(false),
        Brief::TookMessage(_, _, _, _)
        | Brief::TookStamp(_, _)
        | Brief::TookBad(_, _)
        | Brief::Ring(_)
        | Brief::Late(_) => {
            if line.port.0 == port.0 {
                Some(true)
            } else {
                None
            }
        }
        _ => None,
    }
}

/// Whether the step that a port is in has taken something, or an alarm of it was handled: what it
/// posts from here on is no repeat.
pub fn is_acting(lines: &[HistoryLine], node: u32, port: Port) -> bool
    ensures { result ≡ acting (view port (of node (history_of lines.now))) }
{
    let mut left = lines.len();
    while left > 0 {
        left -= 1;
        if let Some(told) = acting_told(&lines[left], node, port) {
            return told;
        }
    }
    false
}
