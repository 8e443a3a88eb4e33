//! Whether clocks that one round corrected agree, line by line.
ghost use Rattle.std.specs.Prelude.{◌≡◌, ◌≤◌, ◌<◌, ◌+◌, ◌-◌, ◌^◌, ℕ, [], ◌∷◌, ◌++◌, List, length};
ghost use Rattle.std.specs.Prelude.{get_or, take, vec_len, vec_capacity, true, MatchBool, IfOk};
ghost use Rattle.std.specs.Prelude.{None, MatchOption, OnOk};
ghost use Rattle.tsp_base.specs.History.{Line, from_act};
ghost use Rattle.tsp_promises.specs.Agreed.{Agreed, AgreedAt};
ghost use Rattle.tsp_promises.specs.Setting.{Setting};
ghost use Rattle.tsp_history.specs.declared.line.HistoryLine.{HistoryLine as NotedValue};
ghost use Rattle.tsp_history.specs.Histories.{deed_of, line_of, history_of};
ghost use Rattle.tsp_history.specs.Notes.{Told};
ghost use Rattle.tsp_history.specs.Rounds.{TripsTell};
ghost use Rattle.tsp_audit.specs.Agreeing.{AgreementIs, AllAgree, AllAre, AllBounded, AreBlank};
ghost use Rattle.tsp_audit.specs.Agreeing.{FirstIs, Numbered, SettledAt, StillSettled};
ghost use Rattle.tsp_audit.specs.Changes.{LeavesState};
ghost use Rattle.tsp_audit.specs.Settings.{HasClocks, Timely};

use crate::nearness::{all_agree, settles};
use crate::resting::rests;
use crate::round_correction::NodeState;
use crate::standing::MOST_NODES;
use crate::states::{blank, leaves_state, state_after};
use std::alloc::{AllocError, Global};
use tsp_base::header::Header;
use tsp_history::brief::Brief;
use tsp_history::line::HistoryLine;
use tsp_history::rounds::trip_of;

/// What is remembered of a history to decide whether clocks agree.
#[derive(Drop)]
pub(crate) struct AgreementTracker {
    /// The round trip of each line, in microseconds; 0 where it is no Sample.
    pub(crate) trips: Vec<i128>,
    /// The index of the newest act.
    pub(crate) last: Option<usize>,
    /// What is remembered of each node.
    pub(crate) nodes: Vec<NodeState>,
    /// A true time, in microseconds, from which on all clocks are known to agree until one is moved.
    pub(crate) settled: Option<u64>,
}

/// What is remembered of this many nodes before any line.
fn blanks(alloc: Global, count: usize) -> Result<Vec<NodeState>, AllocError>
    ensures { IfOk result (λ states. AreBlank count states.items) }
{
    let mut states = Vec::new(alloc);
    for _ in 0..count {
        states.push(blank())?;
    }
    Ok(states)
}

/// Changes what is remembered of a line's node, where these lines stand before it, with their round
/// trips and the index of the newest act among them; `upto` are the lines up to and with it.
fn note_node(
    nodes: &mut Vec<NodeState>,
    upto: &[HistoryLine],
    before: &[HistoryLine],
    trips: &[i128],
    line: &HistoryLine,
    last: Option<usize>,
)
    requires few { length upto.now < 2 ^ 32 }
    requires told { Told upto.now }
    requires past { Told before.now }
    ensures nodes { history_of upto.now ≡ line_of line.now ∷ history_of before.now
        → TripsTell (history_of before.now) trips.now
        → FirstIs (from_act (history_of before.now)) last
        → AllAre (history_of before.now) nodes.old.items
        → AllAre (line_of line.now ∷ history_of before.now) nodes.new.items }
    ensures many { length nodes.new.items ≡ length nodes.old.items }
    ensures same { LeavesState (deed_of line.now.act) → nodes.new.items ≡ nodes.old.items }
{
    let node = line.node as usize;
    if node < nodes.len() {
        let state = state_after(upto, before, trips, line, last, nodes[node]);
        nodes[node] = state;
    }
}

/// Puts a round trip behind the others; there is to be room for it.
fn note_trip(trips: &mut Vec<i128>, trip: i128)
    ensures items { vec_len trips.old < vec_capacity trips.old
        → trips.new.items ≡ trips.old.items ++ trip ∷ [] }
    ensures len { vec_len trips.new ≤ vec_len trips.old + 1 }
    ensures capacity { vec_capacity trips.new ≡ vec_capacity trips.old }
{
    if trips.len() < trips.capacity() {
        trips.push_reserved(trip);
    }
}

/// The index of the newest act after the line with this index, where `was` is that before it.
fn newest(line: &HistoryLine, index: usize, was: Option<usize>) -> Option<usize>
    ensures { (h : List Line) → index ≡ length h → FirstIs (from_act h) was
        → FirstIs (from_act (line_of line.now ∷ h)) result }
{
    match line.act.brief() {
        Brief::Mark => was,
        _ => Some(index),
    }
}

/// The true time at which clocks were seen to settle, after a line, where `was` is that before it;
/// none where the line moves a clock.
fn settled_after(line: &HistoryLine, was: Option<u64>) -> Option<u64>
    ensures { StillSettled line.now was result }
{
    if leaves_state(line) { was } else { None }
}

/// Whether clocks that settled, if they did, are known to agree at a true time, in microseconds.
fn is_known(settled: Option<u64>, at: u64) -> bool
    ensures { result ≡ true → MatchOption settled ⊥ (λ t. t ≤ at) }
{
    match settled {
        Some(time) => time <= at,
        None => false,
    }
}

impl AgreementTracker {
    ghost use Rattle.std.specs.Prelude.{ℕ, List};
    ghost use Rattle.tsp_audit.specs.Agreeing.{AgreementIs, Numbered, SettledAt};
    ghost use Rattle.tsp_audit.specs.Settings.{HasClocks, Timely};
    ghost use Rattle.tsp_promises.specs.Agreed.{Agreed, AgreedAt};
    ghost use Rattle.tsp_base.specs.History.{Line};
    ghost use Rattle.tsp_promises.specs.Setting.{Setting};
    ghost use Rattle.tsp_history.specs.Histories.{line_of, history_of};
    ghost use Rattle.tsp_history.specs.Notes.{Told};
    ghost use Rattle.tsp_history.specs.declared.line.HistoryLine.{HistoryLine as NotedValue};

    /// Nothing has happened to so many nodes. Takes memory for them; fails only if out of memory.
    pub(crate) fn new(alloc: Global, count: usize) -> Result<AgreementTracker, AllocError>
        requires { count ≤ 64 }
        ensures { IfOk result (λ agreement. AgreementIs count [] agreement
            × (agreement.settled ≡ None)) }
    {
        match blanks(alloc, count) {
            Ok(nodes) => Ok(AgreementTracker {
                trips: Vec::new(alloc),
                last: None,
                nodes,
                settled: None,
            }),
            Err(refused) => Err(refused),
        }
    }

    /// Makes room for so many lines more. Fails only if out of memory; either way the tracker stands for what it did.
    pub(crate) fn make_room(&mut self, count: usize) -> Result<(), AllocError>
        ensures room { OnOk result (vec_len self.new.trips + count ≤ vec_capacity self.new.trips) }
        ensures agreement { (nodes : ℕ) (h : List Line) → AgreementIs nodes h self.old
            → AgreementIs nodes h self.new }
        ensures settled { self.new.settled ≡ self.old.settled }
        ensures nodes { self.new.nodes.items ≡ self.old.nodes.items }
    {
        self.trips.reserve(count)
    }

    /// Takes in the line with this index, behind those before it; there is to be room for it.
    fn note(&mut self, lines: &[HistoryLine], index: usize)
        requires few { length lines.now < 2 ^ 32 }
        requires told { Told lines.now }
        requires below { index < length lines.now }
        ensures agreement { (count : ℕ) → vec_len self.old.trips < vec_capacity self.old.trips
            → AgreementIs count (history_of (take index lines.now)) self.old
            → AgreementIs count (history_of (take (index + 1) lines.now)) self.new }
        ensures len { vec_len self.new.trips ≤ vec_len self.old.trips + 1 }
        ensures capacity { vec_capacity self.new.trips ≡ vec_capacity self.old.trips }
        ensures same { (line : NotedValue) → get_or lines.now index line ≡ line
            → LeavesState (deed_of line.act) → self.new.nodes.items ≡ self.old.nodes.items }
    {
        let line = &lines[index];
        let before = &lines[..index];
        let trip = trip_of(before, line);
        note_node(
            &mut self.nodes,
            &lines[..index + 1],
            before,
            self.trips.as_slice(),
            line,
            self.last,
        );
        note_trip(&mut self.trips, trip);
        self.last = newest(line, index, self.last);
    }

    /// The true time at which clocks settled, if one is known, after it was seen whether they do at
    /// this one, unless they did before.
    fn settled_by(&self, header: &Header, at: u64, was: Option<u64>) -> Option<u64>
        ensures { SettledAt header.now was self.now.nodes.items
            → SettledAt header.now result self.now.nodes.items }
    {
        if is_known(was, at) || self.nodes.len() > MOST_NODES {
            return was;
        }
        if settles(header, at, self.nodes.as_slice()) {
            Some(at)
        } else {
            was
        }
    }

    /// Whether the clocks of all nodes agree at a true time, in microseconds, where they are known to
    /// have settled at another, if they did.
    fn agree_at(&self, header: &Header, at: u64, settled: Option<u64>) -> bool
        requires few { length self.now.nodes.items ≤ 64 }
        ensures { (setting : Setting) → HasClocks header.now setting → at ≤ 1000000000000000
            → AllBounded self.now.nodes.items → SettledAt header.now settled self.now.nodes.items
            → MatchBool result (AllAgree header.now at 0 self.now.nodes.items)
            (AllAgree header.now at 0 self.now.nodes.items → ⊥) }
    {
        if is_known(settled, at) {
            return true;
        }
        all_agree(header, at, 0, self.nodes.as_slice())
    }

    /// Whether a line that was taken in keeps the promise that clocks agree, where these lines
    /// stand before it, and clocks are known to have settled at this time, if they did.
    fn agrees(
        &self,
        header: &Header,
        before: &[HistoryLine],
        line: &HistoryLine,
        settled: Option<u64>,
    ) -> bool
        ensures { (setting : Setting) (count : ℕ) → HasClocks header.now setting
            → line.now.at ≤ 1000000000000000
            → Numbered count (line_of line.now ∷ history_of before.now)
            → AgreementIs count (line_of line.now ∷ history_of before.now) self.now
            → SettledAt header.now settled self.now.nodes.items
            → MatchBool result (AgreedAt setting (line_of line.now) (history_of before.now))
            (AgreedAt setting (line_of line.now) (history_of before.now) → ⊥) }
    {
        if !rests(before, self.trips.as_slice(), line) {
            return false;
        }
        if line.act.is_mark() {
            return true;
        }
        if self.nodes.len() > MOST_NODES {
            return false;
        }
        self.agree_at(header, line.at, settled)
    }

    /// Whether clocks agree in all lines, where they do in those before `from`, for which the
    /// tracker stands; there is to be room for the others. It stands for all lines after that,
    /// where the answer is yes.
    pub(crate) fn keeps_agreeing(
        &mut self,
        header: &Header,
        lines: &[HistoryLine],
        from: usize,
    ) -> bool
        requires from { from ≤ length lines.now }
        requires few { length lines.now < 2 ^ 32 }
        requires told { Told lines.now }
        ensures keeps { (setting : Setting) (count : ℕ) → HasClocks header.now setting
            → Timely (history_of lines.now) → Numbered count (history_of lines.now)
            → vec_len self.old.trips + (length lines.now - from) ≤ vec_capacity self.old.trips
            → AgreementIs count (history_of (take from lines.now)) self.old
            → SettledAt header.now self.old.settled self.old.nodes.items
            → Agreed setting (history_of (take from lines.now))
            → MatchBool result (Agreed setting (history_of lines.now))
            (Agreed setting (history_of lines.now) → ⊥) }
        ensures agreement { (count : ℕ) → result ≡ true
            → vec_len self.old.trips + (length lines.now - from) ≤ vec_capacity self.old.trips
            → AgreementIs count (history_of (take from lines.now)) self.old
            → AgreementIs count (history_of lines.now) self.new }
        ensures settled { result ≡ true → SettledAt header.now self.old.settled self.old.nodes.items
            → SettledAt header.now self.new.settled self.new.nodes.items }
    {
        let mut settled = self.settled;
        for i in from..lines.len() {
            self.note(lines, i);
            let line = &lines[i];
            settled = self.settled_by(header, line.at, settled_after(line, settled));
            if !self.agrees(header, &lines[..i], line, settled) {
                return false;
            }
        }
        self.settled = settled;
        true
    }
}
