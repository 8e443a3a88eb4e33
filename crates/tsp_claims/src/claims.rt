//! The lines that are claimed of a schedule's events, as far as they fit.
ghost use Rattle.std.specs.Prelude.{◌≡◌, ◌≤◌, ◌<◌, ◌+◌, ◌^◌, ◌↔◌, ◌∷◌, [], true, IsTrue, length};
ghost use Rattle.std.specs.Prelude.{vec_len, slice_get, option_copied, IfOk, MatchOption};
ghost use Rattle.tsp_base.specs.Headers.{is_whole};
ghost use Rattle.tsp_run.specs.Networks.{numbers_below};

use crate::audit_fault::AuditFault;
use crate::booted::none_booted;
use crate::claimed::Claimed;
use crate::tally::Tally;
use std::alloc::{AllocError, Global};
use tsp_base::act::Act;
use tsp_base::event::Event;
use tsp_base::header::Header;
use tsp_base::members::Members;
use tsp_base::trace::Line2;
use tsp_history::clocks::moved_at;
use tsp_history::history::History;
use tsp_history::line::HistoryLine;
use tsp_networks::all_nodes;

/// The claimed lines of some events, event by event: all fit the schedule.
#[derive(Drop)]
pub struct Claims {
    /// The nodes' clocks, names and networks.
    pub(crate) header: Header,
    /// The network of all nodes, which they are on where the header names none.
    pub(crate) one: Vec<Members>,
    /// Whether each node has booted.
    pub(crate) up: Vec<bool>,
    /// The claimed lines and the marks of their steps, the oldest first.
    pub(crate) lines: History,
    /// The claimed posts, each at the index that is its number, from 0.
    pub(crate) posts: Vec<Claimed>,
    /// How many events were taken in.
    pub(crate) events: u64,
    /// How many lines are claimed of the events that were taken in.
    pub(crate) told: u64,
    /// What the lines come to that were counted of the next event.
    pub(crate) tally: Tally,
    ghost places: { vec_len up ≡ length header.nodes },
    ghost one_is: { one.items ≡ numbers_below (length header.nodes) ∷ [] },
    ghost few_events: { events ≤ 20000 },
    ghost few_told: { told ≤ 20000 },
    ghost few_lines: { length lines.lines ≤ told + events },
}

impl Claims {
    ghost use Rattle.tsp_base.specs.Headers.{HeaderValue};
    ghost use Rattle.tsp_run.specs.Run.{event_at};
    ghost use Rattle.tsp_history.specs.Histories.{history_of};
    ghost use Rattle.tsp_history.specs.Notes.{Told};
    ghost use Rattle.tsp_claims.specs.ClaimedHistory.{Claim, base_of, claimed, posts_of};
    ghost use Rattle.tsp_claims.specs.Fitting.{Fit, FitsNext, Misfit, counted, lacks, untold};
    ghost use Rattle.tsp_claims.specs.Listed.{NamesNode};
    ghost use Rattle.tsp_claims.specs.Stands.{ClaimsStand, TakesIn, claim_of};
    ghost use Rattle.std.specs.Prelude.{List, OnErr, OnOk, ℕ};

    /// Nothing is claimed. The header has 1 to 16 nodes, and each is in a network if it names any.
    /// Takes memory for the nodes; fails only if out of memory, and then drops the header.
    pub fn new(alloc: Global, header: Header) -> Result<Claims, AllocError>
        requires some { 1 ≤ length header.nodes }
        requires few { length header.nodes ≤ 16 }
        requires whole { is_whole header ≡ true }
        ensures stand { IfOk result (λ claims. ClaimsStand header [] claims) }
        ensures counted { IfOk result (λ claims. claims.tally ≡ untold) }
    {
        let one = all_nodes(alloc, header.nodes().len() as u32)?;
        let up = none_booted(alloc, header.nodes().len())?;
        Ok(Claims {
            header,
            one,
            up,
            lines: History::new(alloc),
            posts: Vec::new(alloc),
            events: 0,
            told: 0,
            tally: Tally::new(),
        })
    }

    /// Takes in an event and the lines that are claimed of it: Ok exactly where they fit and memory
    /// isn't refused. The time is at most 10^15 microseconds, the node that the event names exists,
    /// and with this event there are at most 20,000 events and 20,000 lines. `History` has the
    /// index, from 0, of the first line that doesn't fit, or the number of lines where all fit but
    /// the event lacks something. After either fault the claims are what they were.
    pub fn event(&mut self, e: &Event, acts: &[Line2]) -> Result<(), AuditFault>
        requires time { event_at e.now ≤ 1000000000000000 }
        requires node { NamesNode (length self.old.header.nodes) e.now }
        requires events { self.old.events < 20000 }
        requires lines { self.old.told + length acts.now ≤ 20000 }
        ensures { (header : HeaderValue) (claims : List Claim) → ClaimsStand header claims self.old
            → TakesIn header claims e.now acts.now result self.new }
    {
        let step = self.acting(e);
        if let Some(index) = self.misfit(e, step, acts) {
            return Err(AuditFault::History(index));
        }
        if self.take_in(e, step, acts).is_err() {
            return Err(AuditFault::OutOfMemory);
        }
        Ok(())
    }

    /// The index of the first of an event's lines that doesn't fit; or how many there are, where all
    /// fit and the event lacks something; None where they fit. The limits are those of `event`.
    pub fn first_misfit(&self, e: &Event, acts: &[Line2]) -> Option<usize>
        requires time { event_at e.now ≤ 1000000000000000 }
        requires node { NamesNode (length self.now.header.nodes) e.now }
        requires events { self.now.events < 20000 }
        requires lines { self.now.told + length acts.now ≤ 20000 }
        ensures { (header : HeaderValue) (claims : List Claim) → ClaimsStand header claims self.now
            → MatchOption result (Fit header claims e.now acts.now)
            (λ i. Misfit header claims e.now acts.now i) }
    {
        let step = self.acting(e);
        self.misfit(e, step, acts)
    }

    /// Takes in an event and lines that fit it: the caller must know that they do, they aren't
    /// asked. The limits are those of `event`. No line of the next event is counted then. Fails only
    /// if out of memory, and then the claims are what they were.
    pub fn add(&mut self, e: &Event, acts: &[Line2]) -> Result<(), AllocError>
        requires time { event_at e.now ≤ 1000000000000000 }
        requires node { NamesNode (length self.old.header.nodes) e.now }
        requires events { self.old.events < 20000 }
        requires lines { self.old.told + length acts.now ≤ 20000 }
        requires fit { (header : HeaderValue) × (before : List Claim)
            × ClaimsStand header before self.old × Fit header before e.now acts.now }
        ensures taken { (header : HeaderValue) (claims : List Claim)
            → ClaimsStand header claims self.old
            → OnOk result (ClaimsStand header (claim_of e.now acts.now ∷ claims) self.new) }
        ensures refused { (header : HeaderValue) (claims : List Claim)
            → ClaimsStand header claims self.old
            → OnErr result (ClaimsStand header claims self.new) }
        ensures counted { OnOk result (self.new.tally ≡ untold) }
        ensures kept { OnErr result (self.new.tally ≡ self.old.tally) }
    {
        let step = self.acting(e);
        self.take_in(e, step, acts)
    }

    /// Counts a line of the next event, with this act.
    pub fn count(&mut self, act: &Act)
        requires { self.old.tally.posts < 2 ^ 32 }
        ensures counted { self.new.tally ≡ counted self.old.tally act.now }
        ensures stand { (header : HeaderValue) (claims : List Claim)
            → ClaimsStand header claims self.old → ClaimsStand header claims self.new }
    {
        self.tally.count(act);
    }

    /// Whether the next event, if it is this one, lacks what it needs with the lines that were counted.
    pub fn lacks(&self, e: &Event) -> bool
        ensures { result ≡ lacks e.now self.now.tally }
    {
        self.tally.lacks(e)
    }

    /// Whether a line fits as the next one of an event, behind the lines that were counted.
    pub fn fits(&self, e: &Event, line: &Line2) -> bool
        requires time { event_at e.now ≤ 1000000000000000 }
        requires node { NamesNode (length self.now.header.nodes) e.now }
        requires events { self.now.events < 20000 }
        ensures { (header : HeaderValue) (claims : List Claim) → ClaimsStand header claims self.now
            → IsTrue result ↔ FitsNext header claims e.now self.now.tally line.now }
    {
        self.fits_in(e, self.acting(e), self.tally, line)
    }

    /// What a node's clock shows more than its tick, in microseconds: its wall, and the amounts of
    /// its claimed corrections since its last boot.
    pub fn base(&self, node: u32) -> i128
        requires { node < length self.now.header.nodes }
        ensures { (header : HeaderValue) (claims : List Claim) → ClaimsStand header claims self.now
            → result ≡ base_of header claims node }
    {
        i128::from(self.line(node).wall) + moved_at(self.lines.lines(), node)
    }

    /// The claimed post with this number, from 0; None exactly where at most that many posts are claimed.
    pub fn post(&self, k: u64) -> Option<&Claimed>
        ensures { (header : HeaderValue) (claims : List Claim) → ClaimsStand header claims self.now
            → option_copied result ≡ slice_get (posts_of header claims) k }
    {
        self.posts.get(k as usize)
    }

    /// The claimed posts, in order.
    pub fn posts(&self) -> &[Claimed]
        ensures { (header : HeaderValue) (claims : List Claim) → ClaimsStand header claims self.now
            → result.now ≡ posts_of header claims }
    {
        self.posts.as_slice()
    }

    /// The claimed lines and the marks of their steps, the oldest first.
    pub fn lines(&self) -> &[HistoryLine]
        ensures lines { (header : HeaderValue) (claims : List Claim)
            → ClaimsStand header claims self.now → history_of result.now ≡ claimed header claims }
        ensures few { length result.now ≤ 40000 }
        ensures told { Told result.now }
    {
        self.lines.lines()
    }

    /// The nodes' clocks, names and networks.
    pub fn header(&self) -> &Header
        ensures { result.now ≡ self.now.header }
    {
        &self.header
    }

    /// How many events were taken in.
    pub fn events(&self) -> u64
        ensures { result ≡ self.now.events }
    {
        self.events
    }

    /// How many lines are claimed of the events that were taken in.
    pub fn told(&self) -> u64
        ensures { result ≡ self.now.told }
    {
        self.told
    }
}
