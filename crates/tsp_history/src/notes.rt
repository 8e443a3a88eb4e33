//! What is known after each line of a history, so that a later line needs no scan of it.
ghost use Rattle.std.specs.Prelude.{◌≡◌, ◌<◌, ◌^◌, ◌+◌, ◌-◌, ◌≤◌, ℕ, List, [], ◌∷◌, length};
ghost use Rattle.tsp_base.specs.History.{Line, dids};
ghost use Rattle.tsp_base.specs.Takings.{posted};
ghost use Rattle.tsp_history.specs.Histories.{line_of, history_of};
ghost use Rattle.tsp_history.specs.Clocks.{IsSumOf};
ghost use Rattle.tsp_history.specs.Notes.{IsOwnLine, NodeKnown, NoteIs, PortKnown, Told};

use crate::brief::Brief;
use crate::clocks::{Clock, clock_after, latest_after};
use crate::counts::{Counts, counts_after};
use crate::line::HistoryLine;
use crate::newest::last_of;
use crate::posts::posted_in;
use crate::rounds::is_going_after;
use crate::scans::role_after;
use tsp_base::place::Port;
use tsp_base::role::Role;

/// What is known of a node.
#[derive(Clone, Copy)]
pub struct NodeNote {
    /// Its clock.
    pub(crate) clock: Clock,
    /// How often it has booted and corrected its clock.
    pub(crate) counts: Counts,
    /// The greatest tick of a correction of its present life, if there is one.
    pub(crate) latest: Option<u64>,
}

/// What is known of a node's port.
#[derive(Clone, Copy)]
pub struct PortNote {
    /// Its role.
    pub(crate) role: Role,
    /// Whether a round goes on.
    pub(crate) is_going: bool,
}

/// What is known after a line.
#[derive(Clone, Copy)]
pub struct Note {
    /// How many datagrams were posted over all nodes so far.
    pub(crate) posted: u64,
    /// What is known of the line's node.
    pub(crate) node: NodeNote,
    /// What is known of the line's port.
    pub(crate) port: PortNote,
}

impl NodeNote {
    /// What is known of a node before any line.
    pub(crate) fn new() -> NodeNote
        ensures { (node : ℕ) → NodeKnown node [] result }
    {
        NodeNote {
            clock: Clock::new(),
            counts: Counts::new(),
            latest: None,
        }
    }
}

impl PortNote {
    /// What is known of a port before any line.
    pub(crate) fn new() -> PortNote
        ensures { (node : ℕ) (port : Port) → PortKnown node port [] result }
    {
        PortNote {
            role: Role::Starting,
            is_going: false,
        }
    }
}

impl Note {
    /// What is known before any line.
    pub fn new() -> Note
        ensures posted { result.posted ≡ 0 }
        ensures node { (node : ℕ) → NodeKnown node [] result.node }
        ensures port { (node : ℕ) (port : Port) → PortKnown node port [] result.port }
    {
        Note {
            posted: 0,
            node: NodeNote::new(),
            port: PortNote::new(),
        }
    }
}

/// What is known of a line's node after it, where this is known before.
fn node_after(line: &HistoryLine, was: NodeNote) -> NodeNote
    requires moved { IsSumOf 4294967294 was.clock.moved }
    requires lives { was.counts.lives < 2 ^ 32 }
    requires corrects { was.counts.corrects < 2 ^ 32 }
    ensures { (before : List Line) → NodeKnown line.now.node before was
        → NodeKnown line.now.node (line_of line.now ∷ before) result }
{
    NodeNote {
        clock: clock_after(line, line.node, was.clock),
        counts: counts_after(line, line.node, was.counts),
        latest: latest_after(line, line.node, was.latest),
    }
}

/// What is known of a line's port after it, where this is known before.
fn port_after(line: &HistoryLine, was: PortNote) -> PortNote
    ensures { (before : List Line) → PortKnown line.now.node line.now.port before was
        → PortKnown line.now.node line.now.port (line_of line.now ∷ before) result }
{
    PortNote {
        role: role_after(line, line.node, line.port, was.role),
        is_going: is_going_after(line, line.node, line.port, was.is_going),
    }
}

/// What is known of a node after these lines.
pub(crate) fn node_at(lines: &[HistoryLine], node: u32) -> NodeNote
    requires told { Told lines.now }
    ensures { NodeKnown node (history_of lines.now) result }
{
    match last_of(lines, node) {
        Some(index) => {
            let last = &lines[index];
            last.note.node
        }
        None => NodeNote::new(),
    }
}

/// Whether a line is one of a node's port, or a boot of the node: others leave what is known of the port.
fn is_own(line: &HistoryLine, node: u32, port: Port) -> bool
    ensures { IsOwnLine line.now node port result }
{
    if line.node != node {
        return false;
    }
    match line.act.brief() {
        Brief::Boot => true,
        _ => line.port.0 == port.0,
    }
}

/// What is known of a node's port after these lines.
pub(crate) fn port_at(lines: &[HistoryLine], node: u32, port: Port) -> PortNote
    requires told { Told lines.now }
    ensures { PortKnown node port (history_of lines.now) result }
{
    let mut left = lines.len();
    while left > 0 {
        left -= 1;
        let line = &lines[left];
        if is_own(line, node, port) {
            return line.note.port;
        }
    }
    PortNote::new()
}

/// How many datagrams a line posts.
fn posts(line: &HistoryLine) -> u64
    ensures few { result ≤ 1 }
    ensures posted { (before : List Line)
        → posted (dids (line_of line.now ∷ before)) ≡ posted (dids before) + result }
{
    match line.act.brief() {
        Brief::PostMessage(_, _, _, _) => 1,
        Brief::PostStamp(_, _) => 1,
        _ => 0,
    }
}

/// What is known after a line that stands behind these.
pub(crate) fn note_behind(lines: &[HistoryLine], line: &HistoryLine) -> Note
    requires few { length lines.now < 2 ^ 32 - 2 }
    requires told { Told lines.now }
    ensures { NoteIs (line_of line.now) (history_of lines.now) result }
{
    Note {
        posted: posted_in(lines) + posts(line),
        node: node_after(line, node_at(lines, line.node)),
        port: port_after(line, port_at(lines, line.node, line.port)),
    }
}
