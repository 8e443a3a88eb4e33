//! The page on which a daemon says what its clock is.
ghost use Rattle.std.specs.Prelude.{◌≡◌, ℕ, ◌≤◌, ◌+◌, ◌-◌, ◌^◌, ◌-ℤ◌, min, nat_abs, [], ◌∷◌, false, Option, None, Some};
ghost use Rattle.std.specs.Option.{option_map};
ghost use Rattle.tsp_gateway.specs.GatewayStands.{GatewayStands};
ghost use Rattle.tsp_io.specs.Boards.{views_left};
ghost use Rattle.tsp_io.specs.declared.origin.Origin.{Origin};
ghost use Rattle.tsp_page.specs.Halves.{daemon_octets};
ghost use Rattle.tsp_rules.specs.NodeRows.{NodePast};
ghost use Rattle.tsp_daemon.specs.Pages.{Page as PageValue, Stays, Turns};
ghost use Rattle.tsp_daemon.specs.Pages.{NotesMarks, OnlyMarks, OnlyPages};
ghost use Rattle.tsp_daemon.specs.Pages.{blank_page, half_after, half_alive, half_marks};
ghost use Rattle.tsp_daemon.specs.Pages.{least_after, marks_begun, moment_after};
ghost use Rattle.tsp_daemon.specs.Pages.{offset_of, steps_in, views_after};
ghost use Rattle.tsp_daemon.specs.Pages.{page_begun, page_from, page_with};
ghost use Rattle.tsp_daemon.specs.Pages.{sequence_after, sequence_mark};

use crate::asked::{asked_now, tune};
use crate::changes::{change_page, steps_in};
use crate::half::{
    counted_from, first_half, least_after, master_in, offset_of, rank_in, shown_at, target_then,
};
use std::marker::Model;
use tsp_base::act::Placed;
use tsp_gateway::Gateway;
use tsp_io::origin::Origin;
use tsp_io::ticker::Ticker;
use tsp_page::daemon_half::DaemonHalf;
use tsp_page::layout::{DAEMON_AT, DAEMON_FIELDS_AT};

/// After so many ticks a daemon says again that it is alive.
const SILENT: u64 = 1_000_000;

/// What stands on a daemon's page, by what the daemon has written there.
#[derive(Drop)]
pub(crate) struct Page {
    /// The daemon's half.
    half: DaemonHalf,
    /// The number with which it was written: an even one.
    sequence: u64,
    /// How far the clock's target was ahead of the ticks when the daemon began.
    offset: i64,
}

impl Model for Page {
    ghost use Rattle.tsp_daemon.specs.Pages.{IsPage, Page as PageValue};

    ghost Value = { PageValue };

    ghost view = { λ p. record { half = p.half; sequence = p.sequence; offset = p.offset } };

    ghost invariant = { λ p. IsPage (record {
      half = p.half;
      sequence = p.sequence;
      offset = p.offset;
    }) };
}

impl Page {
    /// The page before the first write of a daemon that begins at this tick.
    fn blank(origin: Origin, node: &Gateway, tick: u64) -> Page
        ensures { (past : NodePast) → GatewayStands past node.now
            → result ≡ blank_page origin past tick }
    {
        let half = first_half(origin, node, tick);
        Page {
            half,
            sequence: half.life.wrapping_mul(2),
            offset: offset_of(node),
        }
    }

    /// By how much the clock's target was moved since the daemon began.
    fn moved(&self, node: &Gateway) -> i64
        ensures { (past : NodePast) → GatewayStands past node.now
            → result ≡ offset_of past -ℤ self.now.offset }
    {
        offset_of(node) - self.offset
    }

    /// How often the clock was stepped since then, with these acts.
    fn steps(&self, acts: &[Placed]) -> u64
        ensures { result ≡ min (self.now.half.steps + steps_in acts.now) (2 ^ 64 - 1) }
    {
        self.half.steps.saturating_add(steps_in(acts))
    }

    /// The half after a turn at a tick, with acts that change it, and with the least that it may show.
    fn half_after(&self, node: &Gateway, acts: &[Placed], tick: u64, least: i64) -> DaemonHalf
        ensures past { (past : NodePast) (moment : ℕ) → GatewayStands past node.now
            → least ≡ least_after acts.now moment self.now.half
            → result ≡ half_after past acts.now tick moment self.now }
        ensures tick { result.tick ≤ 2 ^ 61 }
        ensures target { nat_abs result.target ≤ 2 ^ 61 + 2 ^ 51 }
        ensures rest { nat_abs result.rest ≤ 2 ^ 61 + 2 ^ 52 }
    {
        let standing = node.standing();
        DaemonHalf {
            life: self.half.life,
            counter: self.half.counter,
            origin: self.half.origin,
            origin_tick: self.half.origin_tick,
            rate: self.half.rate,
            tick: node.corrected(),
            target: target_then(node),
            rest: node.left(),
            least,
            moved: self.moved(node),
            steps: self.steps(acts),
            rank: rank_in(standing),
            master: master_in(standing),
            alive: tick,
        }
    }

    /// The half after a turn at a tick that changes nothing else, written at this moment: from then on ticks
    /// are counted from another origin, if there is one.
    fn half_alive(&self, tick: u64, moment: u64, tuned: Option<Origin>) -> DaemonHalf
        requires moment { moment ≤ 2 ^ 61 }
        ensures value { result ≡ half_alive tick moment tuned self.now }
        ensures corrected { result.tick ≤ 2 ^ 61 }
        ensures target { nat_abs result.target ≤ 2 ^ 61 + 2 ^ 51 }
        ensures rest { nat_abs result.rest ≤ 2 ^ 61 + 2 ^ 52 }
    {
        let mut half = counted_from(tuned, &self.half);
        half.least = shown_at(&self.half, moment);
        half.alive = tick;
        half
    }

    /// Writes the sequence, odd: from now on no reader takes what stands there.
    fn open<T: Ticker>(&self, ticker: &mut T)
        ensures marks { NotesMarks (sequence_mark (sequence_after 1 self.now) ∷ [])
            (T.marks ticker.old) (T.marks ticker.new) }
        ensures only { OnlyMarks T.Ticker ticker.old ticker.new }
    {
        let octets = self.sequence.wrapping_add(1).to_le_bytes();
        ticker.mark(DAEMON_AT as u64, &octets);
    }

    /// Writes the half, and the sequence, even again.
    fn close<T: Ticker>(&mut self, half: DaemonHalf, ticker: &mut T)
        requires tick { half.tick ≤ 2 ^ 61 }
        requires target { nat_abs half.target ≤ 2 ^ 61 + 2 ^ 51 }
        requires rest { nat_abs half.rest ≤ 2 ^ 61 + 2 ^ 52 }
        ensures page { self.new ≡ page_with half self.old }
        ensures marks { NotesMarks ((72, daemon_octets half) ∷ sequence_mark
            (sequence_after 2 self.old) ∷ []) (T.marks ticker.old) (T.marks ticker.new) }
        ensures only { OnlyMarks T.Ticker ticker.old ticker.new }
    {
        ticker.mark(DAEMON_FIELDS_AT as u64, half.octets().as_slice());
        self.half = half;
        self.sequence = self.sequence.wrapping_add(2);
        ticker.mark(DAEMON_AT as u64, &self.sequence.to_le_bytes());
    }

    /// Writes the half as it is.
    fn appear<T: Ticker>(&mut self, ticker: &mut T)
        ensures page { self.new ≡ page_with self.old.half self.old }
        ensures marks { NotesMarks (half_marks self.old.half self.old) (T.marks ticker.old)
            (T.marks ticker.new) }
        ensures only { OnlyMarks T.Ticker ticker.old ticker.new }
    {
        self.open(ticker);
        let half = self.half;
        self.close(half, ticker);
    }

    /// Writes the half after a turn with acts that change it. The least that may be shown is what the
    /// half before it shows now, when no reader takes that any more.
    fn change<T: Ticker>(&mut self, node: &Gateway, tick: u64, acts: &[Placed], ticker: &mut T)
        ensures page { (past : NodePast) (delay : ℕ) → GatewayStands past node.now
            → T.delay_is ticker.old ≡ Some delay
            → self.new ≡ page_with (half_after past acts.now tick
            (moment_after delay (T.last ticker.old)) self.old) self.old }
        ensures marks { (past : NodePast) (delay : ℕ) → GatewayStands past node.now
            → T.delay_is ticker.old ≡ Some delay
            → NotesMarks (half_marks (half_after past acts.now tick
            (moment_after delay (T.last ticker.old)) self.old) self.old) (T.marks ticker.old)
            (T.marks ticker.new) }
        ensures only { OnlyMarks T.Ticker ticker.old ticker.new }
    {
        self.open(ticker);
        let least = least_after(acts, ticker.moment(), &self.half);
        let half = self.half_after(node, acts, tick, least);
        self.close(half, ticker);
    }

    /// Writes that the daemon is alive, and counts from now on at the rate that the look's half asks for, if
    /// it does. The moment from which it does so is one at which no reader takes the half before it any more.
    fn stay<T: Ticker>(&mut self, tick: u64, ticker: &mut T)
        ensures stays { Stays T.Ticker tick self.old self.new ticker.old ticker.new }
        ensures views { T.views ticker.new ≡ option_map views_left (T.views ticker.old) }
        ensures only { OnlyPages T.Ticker ticker.old ticker.new }
    {
        let asked = asked_now(self.half.life, ticker);
        self.open(ticker);
        let moment = ticker.moment();
        let tuned = tune(asked, moment, ticker);
        let half = self.half_alive(tick, moment, tuned);
        self.close(half, ticker);
    }

    /// Writes what a turn at a tick, with these acts, makes of the page: the half that they change, or
    /// that the daemon is alive, if that wasn't said for a second.
    fn turn<T: Ticker>(&mut self, node: &Gateway, tick: u64, acts: &[Placed], ticker: &mut T)
        ensures turns { Turns T.Ticker node.now acts.now tick self.old self.new ticker.old ticker.new }
        ensures views { T.views ticker.new
            ≡ option_map (λ views. views_after acts.now tick self.old views) (T.views ticker.old) }
        ensures only { OnlyPages T.Ticker ticker.old ticker.new }
    {
        if change_page(acts) {
            self.change(node, tick, acts, ticker);
        } else if tick.saturating_sub(self.half.alive) >= SILENT {
            self.stay(tick, ticker);
        }
    }
}

/// Writes the page of a daemon that begins, if its ticker has a board and knows from where its ticks are
/// counted.
pub(crate) fn begin<T: Ticker>(node: &Gateway, ticker: &mut T) -> Option<Page>
    ensures page { (past : NodePast) (origin : Option Origin) (delay : ℕ)
        → GatewayStands past node.now → T.origin_is ticker.old ≡ Some origin
        → T.delay_is ticker.old ≡ Some delay
        → result ≡ page_begun (page_from (T.boarded ticker.old) origin past
        (moment_after delay (T.last ticker.old))) }
    ensures marks { (past : NodePast) (origin : Option Origin) (delay : ℕ)
        → GatewayStands past node.now → T.origin_is ticker.old ≡ Some origin
        → T.delay_is ticker.old ≡ Some delay
        → NotesMarks (marks_begun (page_from (T.boarded ticker.old) origin past
        (moment_after delay (T.last ticker.old)))) (T.marks ticker.old) (T.marks ticker.new) }
    ensures only { OnlyMarks T.Ticker ticker.old ticker.new }
    ensures alone { T.boarded ticker.old ≡ false → result ≡ None }
{
    if !ticker.has_board() {
        return None;
    }
    match ticker.origin() {
        Some(origin) => {
            let mut page = Page::blank(origin, node, ticker.moment());
            page.appear(ticker);
            Some(page)
        }
        None => None,
    }
}

/// Writes what a turn at a tick, with these acts, makes of the page, if there is one.
pub(crate) fn show<T: Ticker>(
    page: &mut Option<Page>,
    node: &Gateway,
    tick: u64,
    acts: &[Placed],
    ticker: &mut T,
)
    ensures turns { (p : PageValue) → page.old ≡ Some p → (now : PageValue)
        × (page.new ≡ Some now)
        × Turns T.Ticker node.now acts.now tick p now ticker.old ticker.new
        × (T.views ticker.new
        ≡ option_map (λ views. views_after acts.now tick p views) (T.views ticker.old)) }
    ensures alone { page.old ≡ None → (page.new ≡ None) × (ticker.new ≡ ticker.old) }
    ensures only { OnlyPages T.Ticker ticker.old ticker.new }
{
    if let Some(page) = page {
        page.turn(node, tick, acts, ticker);
    }
}
