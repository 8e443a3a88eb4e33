//! Which message a line's step brings.
ghost use Rattle.std.specs.Prelude.{◌≡◌, ◌<◌, ◌^◌, List, length, MatchBool, MatchOption};
ghost use Rattle.tsp_base.specs.History.{Line};
ghost use Rattle.tsp_promises.specs.Once.{Brings};
ghost use Rattle.tsp_audit.specs.Acting.{BringsAt, CameAt, IsUnposted, PostsTo};
ghost use Rattle.tsp_history.specs.Histories.{deed_of, line_of, history_of};
ghost use Rattle.tsp_history.specs.Notes.{Told};

use tsp_base::place::Place;
use tsp_history::brief::Brief;
use tsp_history::line::{HistoryLine, Why};
use tsp_history::posts::post_at;

/// The index of the line, among these before it, that posts the datagram which a line's step takes.
pub(crate) fn came_at(lines: &[HistoryLine], line: &HistoryLine) -> Option<usize>
    requires { Told lines.now }
    ensures { MatchOption result (IsUnposted (line_of line.now) (history_of lines.now))
        (λ i. CameAt lines.now (line_of line.now) i) }
{
    match line.why {
        Why::Came(number) => post_at(lines, number),
        _ => None,
    }
}

/// Whether a line posts a message to a node.
fn posts_to(line: &HistoryLine, node: u32) -> bool
    ensures { MatchBool result (PostsTo (deed_of line.now.act) node) (PostsTo (deed_of line.now.act)
        node → ⊥) }
{
    match line.act.brief() {
        Brief::PostMessage(Place::Peer(p), _, _, _) => p.0 == node,
        _ => false,
    }
}

/// The index of the line, among these before it, that posts the message which a line's step brings
/// to its node.
pub(crate) fn brought(lines: &[HistoryLine], line: &HistoryLine) -> Option<usize>
    requires { Told lines.now }
    ensures { MatchOption result ((post : Line) (older : List Line)
        → Brings (line_of line.now) (history_of lines.now) post older
        → ⊥) (λ i. BringsAt lines.now (line_of line.now) i) }
{
    match came_at(lines, line) {
        None => None,
        Some(index) => {
            if posts_to(&lines[index], line.node) {
                Some(index)
            } else {
                None
            }
        }
    }
}
