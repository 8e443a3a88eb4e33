//! How often a node has booted and corrected its clock.
ghost use Rattle.std.specs.Prelude.{◌≡◌, ◌≤◌, ◌<◌, ◌^◌, ℕ, List, [], ◌∷◌, length};
ghost use Rattle.tsp_base.specs.History.{Line, dids, of};
ghost use Rattle.tsp_base.specs.NodeFacts.{all_corrects, lives};
ghost use Rattle.tsp_history.specs.Histories.{line_of, history_of};
ghost use Rattle.tsp_history.specs.Notes.{AreCounted, Told};

use crate::brief::Brief;
use crate::line::HistoryLine;
use crate::notes::node_at;

/// How often a node has booted, and how often it has corrected its clock over all its lives.
#[derive(Clone, Copy)]
pub struct Counts {
    /// How often it has booted.
    pub lives: usize,
    /// How often it has corrected its clock.
    pub corrects: usize,
}

impl Counts {
    /// The counts of a node that hasn't booted.
    pub(crate) fn new() -> Counts
        ensures { (node : ℕ) → AreCounted node [] result }
    {
        Counts {
            lives: 0,
            corrects: 0,
        }
    }
}

/// The counts of a node after a line, where they are `was` before it.
pub(crate) fn counts_after(line: &HistoryLine, node: u32, was: Counts) -> Counts
    requires lives { was.lives < 2 ^ 32 }
    requires corrects { was.corrects < 2 ^ 32 }
    ensures { (before : List Line) → AreCounted node before was
        → AreCounted node (line_of line.now ∷ before) result }
{
    if line.node != node {
        return was;
    }
    match line.act.brief() {
        Brief::Boot => Counts {
            lives: was.lives + 1,
            ..was
        },
        Brief::Correct(_, _, _) => Counts {
            corrects: was.corrects + 1,
            ..was
        },
        _ => was,
    }
}

/// How often a node has booted, and corrected its clock over all its lives.
pub fn counts_at(lines: &[HistoryLine], node: u32) -> Counts
    requires told { Told lines.now }
    ensures lives { result.lives ≡ lives (dids (of node (history_of lines.now))) }
    ensures corrects { result.corrects ≡ all_corrects (dids (of node (history_of lines.now))) }
{
    node_at(lines, node).counts
}
