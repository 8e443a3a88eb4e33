//! Roles and holds.
ghost use Rattle.std.specs.Prelude.{◌≡◌, ℕ, List, ◌∷◌, MatchBool};
ghost use Rattle.tsp_base.specs.History.{Line, of, view};
ghost use Rattle.tsp_base.specs.PortFacts.{role};
ghost use Rattle.tsp_promises.specs.Everywhere.{Everywhere};
ghost use Rattle.tsp_history.specs.Histories.{line_of, history_of};
ghost use Rattle.tsp_history.specs.Holding.{HoldsApart};
ghost use Rattle.tsp_history.specs.Notes.{Told};

use crate::brief::Brief;
use crate::line::HistoryLine;
use crate::notes::port_at;
use crate::ticks::is_far;
use tsp_base::constants::HOLD;
use tsp_base::place::{PeerId, Port};
use tsp_base::role::Role;

/// The role of a node's port after a line, where it was `was` before.
pub(crate) fn role_after(line: &HistoryLine, node: u32, port: Port, was: Role) -> Role
    ensures { (before : List Line) → was ≡ role (view port (of node before))
        → result ≡ role (view port (of node (line_of line.now ∷ before))) }
{
    if line.node != node {
        return was;
    }
    match line.act.brief() {
        Brief::Boot => Role::Starting,
        Brief::Become(role) => { if line.port.0 == port.0 { role } else { was } }
        _ => was,
    }
}

/// The role of a node's port.
pub fn role_at(lines: &[HistoryLine], node: u32, port: Port) -> Role
    requires told { Told lines.now }
    ensures { result ≡ role (view port (of node (history_of lines.now))) }
{
    port_at(lines, node, port).role
}

/// Whether a line is no Back of the port for another candidate than p, or lies `HOLD`, 60,000,000
/// ticks, or more before this tick.
fn is_apart(line: &HistoryLine, node: u32, port: Port, tick: u64, p: PeerId) -> bool
    ensures { MatchBool result (HoldsApart node port tick p (line_of line.now))
        (HoldsApart node port tick p (line_of line.now) → ⊥) }
{
    if line.node != node || line.port != port {
        return true;
    }
    match line.act.brief() {
        Brief::Back(q) => q == p || is_far(line.tick, HOLD, tick),
        _ => true,
    }
}

/// Whether a Back of p at this tick keeps the hold: each Back of the port for another candidate lies
/// `HOLD` ticks or more before it, whatever boots came between.
pub fn is_held(lines: &[HistoryLine], node: u32, port: Port, tick: u64, p: PeerId) -> bool
    ensures { MatchBool result (Everywhere (λ other older. HoldsApart node port tick p other)
        (history_of lines.now)) (Everywhere (λ other older. HoldsApart node port tick p other)
        (history_of lines.now) → ⊥) }
{
    for line in lines {
        if !is_apart(line, node, port, tick, p) {
            return false;
        }
    }
    true
}
