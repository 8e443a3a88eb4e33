//! Which send a numbered message belongs to.
ghost use Rattle.std.specs.Prelude.{◌≡◌, List, ◌∷◌, true, false};
ghost use Rattle.tsp_base.specs.History.{Line, of, view};
ghost use Rattle.tsp_base.specs.PortFacts.{acting};
ghost use Rattle.tsp_base.specs.SendFacts.{begun_to, open_to};
ghost use Rattle.tsp_history.specs.Changes.{BeginsOn, place_by};
ghost use Rattle.tsp_history.specs.Histories.{line_of, history_of};
ghost use Rattle.tsp_history.specs.Notes.{Told};
ghost use Rattle.tsp_history.specs.PostedPlaces.{IsPostAt};
ghost use Rattle.tsp_history.specs.Posts.{IsPost};

use crate::brief::Brief;
use crate::change::Change;
use crate::line::HistoryLine;
use crate::posts::is_acting;
use tsp_base::place::{PeerId, Place, Port};

/// What a line does to the last send of a node's port to a peer that began; with `is_open`, only to
/// the send that is open. It begins one if its step acts.
fn send_change(line: &HistoryLine, node: u32, port: Port, p: PeerId, is_open: bool) -> Change
    ensures begun { (before : List Line) → is_open ≡ false
        → begun_to p (view port (of node (line_of line.now ∷ before)))
        ≡ place_by result (acting (view port (of node before))) (line_of line.now).did
        (view port (of node before)) (begun_to p (view port (of node before))) }
    ensures opened { (before : List Line) → is_open ≡ true
        → open_to p (view port (of node (line_of line.now ∷ before)))
        ≡ place_by result (acting (view port (of node before))) (line_of line.now).did
        (view port (of node before)) (open_to p (view port (of node before))) }
    ensures begins { result ≡ Change.Begins → BeginsOn line.now node port }
    ensures posts { result ≡ Change.Begins → IsPost line.now }
{
    if line.node != node {
        return Change::Keeps;
    }
    let here = line.port.0 == port.0;
    match line.act.brief() {
        Brief::Boot => Change::Ends,
        Brief::Become(_) => {
            if is_open && here {
                Change::Ends
            } else {
                Change::Keeps
            }
        }
        Brief::Acked(c) | Brief::Gave(c) => {
            if is_open && here && c.0 == p.0 {
                Change::Ends
            } else {
                Change::Keeps
            }
        }
        Brief::PostMessage(Place::Peer(c), kind, _, _) => {
            if here && c.0 == p.0 && kind.is_numbered() {
                Change::Begins
            } else {
                Change::Keeps
            }
        }
        _ => Change::Keeps,
    }
}

/// The number of the datagram with which the last send of a node's port to a peer began since the
/// boot; with `is_open`, only the send that is open.
fn send_begun_to(
    lines: &[HistoryLine],
    node: u32,
    port: Port,
    p: PeerId,
    is_open: bool,
) -> Option<u64>
    requires told { Told lines.now }
    ensures begun { is_open ≡ false → IsPostAt node port (history_of lines.now)
        (begun_to p (view port (of node (history_of lines.now)))) result }
    ensures opened { is_open ≡ true → IsPostAt node port (history_of lines.now)
        (open_to p (view port (of node (history_of lines.now)))) result }
{
    let mut left = lines.len();
    while left > 0 {
        left -= 1;
        let line = &lines[left];
        match send_change(line, node, port, p, is_open) {
            Change::Keeps => {}
            Change::Ends => return None,
            Change::Begins => {
                if is_acting(&lines[..left], node, port) {
                    return Some(line.note.posted - 1);
                }
            }
        }
    }
    None
}

/// The number of the datagram with which the last send of a node's port to a peer began since the boot.
pub fn begun_to(lines: &[HistoryLine], node: u32, port: Port, p: PeerId) -> Option<u64>
    requires told { Told lines.now }
    ensures { IsPostAt node port (history_of lines.now)
        (begun_to p (view port (of node (history_of lines.now)))) result }
{
    send_begun_to(lines, node, port, p, false)
}

/// The number of the datagram with which the open send of a node's port to a peer began, if one is open.
pub fn open_to(lines: &[HistoryLine], node: u32, port: Port, p: PeerId) -> Option<u64>
    requires told { Told lines.now }
    ensures { IsPostAt node port (history_of lines.now)
        (open_to p (view port (of node (history_of lines.now)))) result }
{
    send_begun_to(lines, node, port, p, true)
}
