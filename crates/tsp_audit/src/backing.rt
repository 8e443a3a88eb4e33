//! Whether nodes back one candidate within the hold.
ghost use Rattle.std.specs.Prelude.{◌≡◌, ◌≤◌, ◌&&◌, ℕ, List, ◌∷◌, length, take, MatchBool, None};
ghost use Rattle.tsp_audit.specs.Backing.{Settled, concerns, Backs, deed_backs, is_stand, post_backs};
ghost use Rattle.tsp_base.specs.History.{Line, of, view};
ghost use Rattle.tsp_promises.specs.OneBack.{BacksAt, HoldsAt, OneBack};
ghost use Rattle.tsp_promises.specs.StepFacts.{backed, is_unbacked};
ghost use Rattle.tsp_history.specs.Histories.{deed_of, line_of, history_of};

use tsp_base::kind::Kind;
use tsp_base::place::{PeerId, Place, Port};
use tsp_base::role::Role;
use tsp_history::brief::Brief;
use tsp_history::line::HistoryLine;
use tsp_history::scans::is_held;

/// Whom the step of a node's port has backed last after a line, where it was `was` before.
fn backed_after(line: &HistoryLine, node: u32, port: Port, was: Option<PeerId>) -> Option<PeerId>
    ensures { (before : List Line) → was ≡ backed (view port (of node before))
        → result ≡ backed (view port (of node (line_of line.now ∷ before))) }
{
    if line.node != node {
        return was;
    }
    match line.act.brief() {
        Brief::Mark => None,
        Brief::Back(p) => { if line.port.0 == port.0 { Some(p) } else { was } }
        _ => was,
    }
}

/// Whom the step of a node's port has backed last.
fn backed_at(lines: &[HistoryLine], node: u32, port: Port) -> Option<PeerId>
    ensures { result ≡ backed (view port (of node (history_of lines.now))) }
{
    let mut backed = None;
    for line in lines {
        backed = backed_after(line, node, port, backed);
    }
    backed
}

/// Whether a node's port is an unbacked candidate after a line, where it was `was` before.
fn is_unbacked_after(line: &HistoryLine, node: u32, port: Port, was: bool) -> bool
    ensures { (before : List Line) → was ≡ is_unbacked (view port (of node before))
        → result ≡ is_unbacked (view port (of node (line_of line.now ∷ before))) }
{
    if line.node != node {
        return was;
    }
    match line.act.brief() {
        Brief::Mark => false,
        Brief::Become(Role::Candidate) => { if line.port.0 == port.0 { true } else { was } }
        Brief::Back(p) => {
            if line.port.0 == port.0 && p.0 == node {
                false
            } else {
                was
            }
        }
        _ => was,
    }
}

/// Whether a node's port became a candidate in its step and hasn't yet backed itself.
fn is_unbacked_at(lines: &[HistoryLine], node: u32, port: Port) -> bool
    ensures { result ≡ is_unbacked (view port (of node (history_of lines.now))) }
{
    let mut unbacked = false;
    for line in lines {
        unbacked = is_unbacked_after(line, node, port, unbacked);
    }
    unbacked
}

/// Whether a line is no Back for another candidate than its port holds, where these stand before it.
fn holds(lines: &[HistoryLine], line: &HistoryLine) -> bool
    ensures { MatchBool result (HoldsAt (line_of line.now) (history_of lines.now))
        (HoldsAt (line_of line.now) (history_of lines.now) → ⊥) }
{
    match line.act.brief() {
        Brief::Back(p) => is_held(lines, line.node, line.port, line.tick, p),
        _ => true,
    }
}

/// Whether a line makes a port of this node a candidate; `None` means every node.
fn stands(line: &HistoryLine, node: Option<u32>) -> bool
    ensures { result ≡ is_stand (line_of line.now) && concerns node line.now.node }
{
    if let Some(node) = node
        && line.node != node
    {
        return false;
    }
    matches!(line.act.brief(), Brief::Become(Role::Candidate))
}

/// Whether no port of this node is an unbacked candidate, where none was before `from`; `None` means every node.
fn settles(lines: &[HistoryLine], from: usize, node: Option<u32>) -> bool
    requires { from ≤ length lines.now }
    ensures { Settled node (history_of (take from lines.now))
        → MatchBool result (Settled node (history_of lines.now))
        (Settled node (history_of lines.now) → ⊥) }
{
    for i in from..lines.len() {
        let line = &lines[i];
        if stands(line, node) && is_unbacked_at(lines, line.node, line.port) {
            return false;
        }
    }
    true
}

/// Whether a post's addressee was backed, if it is accepted, and whether the port backed itself, if
/// it asks for votes.
fn may_post(lines: &[HistoryLine], line: &HistoryLine, to: Place, kind: Kind) -> bool
    ensures { let seen = view line.now.port (of line.now.node (history_of lines.now)) in
        result ≡ post_backs kind to (backed seen) (is_unbacked seen) }
{
    match kind {
        Kind::Accept => match to {
            Place::Peer(p) => match backed_at(lines, line.node, line.port) {
                Some(q) => q.0 == p.0,
                None => false,
            },
            Place::Stranger => false,
        },
        Kind::Election => !is_unbacked_at(lines, line.node, line.port),
        _ => true,
    }
}

/// Whether a line that is no mark keeps to whom its step has backed, where these stand before it.
fn votes(lines: &[HistoryLine], line: &HistoryLine) -> bool
    ensures { let seen = view line.now.port (of line.now.node (history_of lines.now)) in
        result ≡ deed_backs (deed_of line.now.act) (backed seen) (is_unbacked seen) }
{
    match line.act.brief() {
        Brief::PostMessage(to, kind, _, _) => may_post(lines, line, to, kind),
        _ => true,
    }
}

/// Whether a line keeps to whom its step has backed, where these stand before it, and before `from`
/// no candidate was unbacked.
fn backs(lines: &[HistoryLine], from: usize, line: &HistoryLine) -> bool
    requires { from ≤ length lines.now }
    ensures { Settled None (history_of (take from lines.now))
        → MatchBool result (BacksAt (line_of line.now) (history_of lines.now))
        (BacksAt (line_of line.now) (history_of lines.now) → ⊥) }
{
    if line.act.is_mark() {
        settles(lines, from, Some(line.node))
    } else {
        votes(lines, line)
    }
}

/// Whether a line keeps the promise about backing, where these stand before it.
fn is_backing(lines: &[HistoryLine], from: usize, line: &HistoryLine) -> bool
    requires { from ≤ length lines.now }
    ensures { Settled None (history_of (take from lines.now))
        → MatchBool result (Backs (line_of line.now) (history_of lines.now))
        (Backs (line_of line.now) (history_of lines.now) → ⊥) }
{
    holds(lines, line) && backs(lines, from, line)
}

/// Whether nobody backs two candidates within the hold in all lines, where it is so in those before `from`.
pub(crate) fn keeps_backing(lines: &[HistoryLine], from: usize) -> bool
    requires { from ≤ length lines.now }
    ensures { OneBack (history_of (take from lines.now))
        → MatchBool result (OneBack (history_of lines.now)) (OneBack (history_of lines.now) → ⊥) }
{
    for i in from..lines.len() {
        if !is_backing(&lines[..i], from, &lines[i]) {
            return false;
        }
    }
    settles(lines, from, None)
}
