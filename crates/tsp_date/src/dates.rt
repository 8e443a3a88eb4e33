//! What a port remembers of dates.
ghost use Rattle.std.specs.Prelude.{◌≡◌, ℕ, ◌==◌, true, None, Some, [], ◌∷◌, if◌then◌else◌, length};
ghost use Rattle.std.specs.Prelude.{map, position, slice_set, IfOk};
ghost use Rattle.tsp_base.specs.declared.act.Act.TheVariants.{Boot};
ghost use Rattle.tsp_base.specs.declared.constants.TheConstants.{REUSE};
ghost use Rattle.tsp_base.specs.declared.place.PeerId.{PeerId};
ghost use Rattle.tsp_base.specs.History.{Past};
ghost use Rattle.tsp_base.specs.Hold.{is_past};
ghost use Rattle.tsp_base.specs.Peers.{is_among};
ghost use Rattle.tsp_base.specs.Rows.{grown};
ghost use Rattle.tsp_rules.specs.DateRows.{is_last};
ghost use Rattle.tsp_date.specs.declared.dates.Dated.{Dated};
ghost use Rattle.tsp_date.specs.Dates.{dating_in, idle, last_in, peers_of};

use std::alloc::{AllocError, Global};
use std::boxed::BoxedSlice;
use std::marker::Model;
use tsp_base::constants::{DATEHOLD, REUSE};
use tsp_base::place::PeerId;

/// A date that was set here, and that a peer had passed on.
#[derive(Clone, Copy)]
pub(crate) struct Date {
    /// The tick at which it was set.
    pub(crate) at: u64,
    /// The sequence number of the message that passed it on.
    pub(crate) number: u16,
}

/// A peer, and the last date that it passed on and that was set here since the boot.
#[derive(Clone, Copy)]
pub(crate) struct Dated {
    /// Which peer.
    pub(crate) peer: PeerId,
    /// Its last date; None before one.
    pub(crate) last: Option<Date>,
}

/// What a port remembers of dates: the last one of each peer, and the tick at which the port itself last
/// began to pass one on to its master.
#[derive(Drop)]
pub struct Dates {
    dated: BoxedSlice<Dated>,
    asked: Option<u64>,
}

impl Model for Dates {
    ghost use Rattle.std.specs.Box.{boxed_slice_items};
    ghost use Rattle.tsp_date.specs.Dates.{DatesValue};

    ghost Value = { DatesValue };

    ghost view = { λ d. record { dated = boxed_slice_items d.dated; asked = d.asked } };
}

/// Each peer, without a date.
fn idle_peers(alloc: Global, peers: &[PeerId]) -> Result<Vec<Dated>, AllocError>
    ensures { IfOk result (λ v. v.items ≡ map idle peers.now) }
{
    peers
        .iter()
        .map(|peer| Dated {
            peer: *peer,
            last: None,
        })
        .collect(alloc)
}

/// Where a peer stands among these; None where it doesn't.
fn place_of(dated: &[Dated], peer: PeerId) -> Option<usize>
    ensures { result ≡ position (λ (d : Dated). d.peer.0 == peer.0) dated.now }
{
    dated.iter().position(|d| d.peer.0 == peer.0)
}

impl Dates {
    ghost use Rattle.tsp_date.specs.DateStands.{DatesStand};

    /// What a port with these peers remembers at its boot: nothing.
    ///
    /// Fails only if out of memory. No later call takes memory.
    pub fn new(alloc: Global, peers: &[PeerId]) -> Result<Dates, AllocError>
        ensures peers { IfOk result (λ d. peers_of d.dated ≡ peers.now) }
        ensures stands { IfOk result (λ d. (x : ℕ) (past : Past) → past.peers ≡ peers.now
            → DatesStand (grown x past (Boot ∷ [])) d) }
    {
        let dated = idle_peers(alloc, peers)?;
        Ok(Dates {
            dated: dated.into_boxed_slice(),
            asked: None,
        })
    }

    /// Whether the peer's last date has this number, and was set less than `DATEHOLD` ticks, 45 seconds, ago.
    pub(crate) fn is_last(&self, peer: PeerId, number: u16, tick: u64) -> bool
        ensures { result ≡ is_last number tick (last_in self.now.dated peer) }
    {
        match self.last(peer) {
            None => false,
            Some(date) => date.number == number && tick.saturating_sub(date.at) < DATEHOLD,
        }
    }

    /// The last date of a peer.
    fn last(&self, peer: PeerId) -> Option<Date>
        ensures { dating_in result ≡ last_in self.now.dated peer }
    {
        match place_of(self.dated.as_slice(), peer) {
            None => None,
            Some(place) => self.dated[place].last,
        }
    }

    /// Notes that this peer's date was set at this tick, under this number.
    pub(crate) fn set(&mut self, peer: PeerId, tick: u64, number: u16)
        requires { is_among peer (peers_of self.old.dated) ≡ true }
        ensures last { (q : PeerId)
            → last_in self.new.dated q ≡ (if peer.0 == q.0 then Some
            (record { at = tick; number = number }) else last_in self.old.dated q) }
        ensures peers { peers_of self.new.dated ≡ peers_of self.old.dated }
        ensures asked { self.new.asked ≡ self.old.asked }
    {
        if let Some(place) = place_of(self.dated.as_slice(), peer) {
            let last = Some(Date { at: tick, number });
            let peer = self.dated[place].peer;
            self.dated[place] = Dated { peer, last };
        }
    }

    /// Whether the port began to pass no date on for at least `REUSE` ticks, 70 seconds.
    pub(crate) fn is_rested(&self, tick: u64) -> bool
        ensures { result ≡ is_past self.now.asked REUSE tick }
    {
        is_past(self.asked, REUSE, tick)
    }

    /// Notes that the port began to pass a date on at this tick.
    pub(crate) fn ask(&mut self, tick: u64)
        ensures { self.new ≡ record self.old { asked = Some tick } }
    {
        self.asked = Some(tick);
    }
}

/// Whether `at` lies at least `long` ticks before `tick`, or is None.
pub(crate) fn is_past(at: Option<u64>, long: u64, tick: u64) -> bool
    ensures { result ≡ is_past at long tick }
{
    match at {
        None => true,
        Some(at) => at <= tick && tick - at >= long,
    }
}
