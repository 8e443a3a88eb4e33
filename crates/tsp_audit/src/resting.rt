//! Whether an ADJTIME rests on a sample.
ghost use Rattle.std.specs.Prelude.{◌≡◌, true, is_some, MatchBool};
ghost use Rattle.tsp_audit.specs.Resting.{RestsOn};
ghost use Rattle.tsp_promises.specs.Agreed.{RestsOnSample};
ghost use Rattle.tsp_base.specs.History.{of, view};
ghost use Rattle.tsp_history.specs.Histories.{line_of, history_of};
ghost use Rattle.tsp_history.specs.Rounds.{TripsTell};

use tsp_base::kind::Kind;
use tsp_base::place::{PeerId, Place, Port};
use tsp_history::brief::Brief;
use tsp_history::line::HistoryLine;
use tsp_history::posts::is_acting;
use tsp_history::rounds::{best_at, closed_at};

/// Whether the last Close of a port's step, if there is one, had a sample of a peer.
fn has_sample(lines: &[HistoryLine], trips: &[i128], node: u32, port: Port, p: PeerId) -> bool
    ensures { TripsTell (history_of lines.now) trips.now
        → MatchBool result (RestsOn p (view port (of node (history_of lines.now))))
        (RestsOn p (view port (of node (history_of lines.now))) → ⊥) }
{
    match closed_at(lines, node, port) {
        None => true,
        Some(close) => {
            if close < lines.len() {
                best_at(&lines[..close], trips, node, port, p).is_some()
            } else {
                true
            }
        }
    }
}

/// Whether an ADJTIME that a Close begins rests on a sample of its addressee, where these lines
/// stand before it, with their round trips.
pub(crate) fn rests(lines: &[HistoryLine], trips: &[i128], line: &HistoryLine) -> bool
    ensures { TripsTell (history_of lines.now) trips.now
        → MatchBool result (RestsOnSample (line_of line.now)
        (view line.now.port (of line.now.node (history_of lines.now))))
        (RestsOnSample (line_of line.now)
        (view line.now.port (of line.now.node (history_of lines.now))) → ⊥) }
{
    match line.act.brief() {
        Brief::PostMessage(Place::Peer(p), kind, _, _) => {
            if kind != Kind::AdjTime || !is_acting(lines, line.node, line.port) {
                return true;
            }
            has_sample(lines, trips, line.node, line.port, p)
        }
        _ => true,
    }
}
