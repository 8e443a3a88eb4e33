//! The last line of a node.
ghost use Rattle.std.specs.Prelude.{◌≡◌, [], MatchOption};
ghost use Rattle.tsp_history.specs.Histories.{history_of};
ghost use Rattle.tsp_history.specs.Notes.{LastAt, Quiet};

use crate::line::HistoryLine;

/// The index of a node's last line, if it has one.
pub(crate) fn last_of(lines: &[HistoryLine], node: u32) -> Option<usize>
    ensures { MatchOption result (Quiet node [] (history_of lines.now))
        (λ i. LastAt lines.now node i) }
{
    let mut left = lines.len();
    while left > 0 {
        left -= 1;
        let line = &lines[left];
        if line.node == node {
            return Some(left);
        }
    }
    None
}
