//! Whether claimed lines fit.
ghost use Rattle.std.specs.Prelude.{◌≡◌, ◌≤◌, ◌<◌, ◌+◌, ◌↔◌, ◌^◌, IsTrue, length, slice_get, MatchOption};
ghost use Rattle.tsp_claims.specs.ClaimedHistory.{step_at, taker};
ghost use Rattle.tsp_claims.specs.Fitting.{ActMayStand, AllFit, FitsAfter, LineMayStand, Misfits};
ghost use Rattle.tsp_claims.specs.Fitting.{TakesClaimedPost, TakingFits, begins_with_boot, untold};
ghost use Rattle.tsp_claims.specs.Listed.{up_in};
ghost use Rattle.tsp_claims.specs.Steps.{ActsIn, step_by};
ghost use Rattle.tsp_run.specs.Run.{step_tick};

use crate::acting::Acting;
use crate::claims::Claims;
use crate::kinds::{is_numbered, is_posted};
use crate::tally::Tally;
use tsp_base::act::{Act, Placed};
use tsp_base::datagram::Taken;
use tsp_base::event::Event;
use tsp_base::place::{PeerId, Place, Port};
use tsp_base::trace::Line2;

/// Whether an event is a boot.
fn begins_with_boot(e: &Event) -> bool
    ensures { result ≡ begins_with_boot e.now }
{
    match e {
        Event::Boot { .. } => true,
        _ => false,
    }
}

impl Claims {
    /// Whether what was taken on a port, as from somebody, is the claimed post with this number,
    /// which reaches that port.
    fn takes_post(&self, k: u64, port: Port, from: Place, taken: &Taken) -> bool
        ensures { IsTrue result ↔ TakesClaimedPost (slice_get self.now.posts.items k)
            (taker self.now.header self.now.posts.items (up_in self.now.up.items) k) port from
            taken.now }
    {
        match (self.posts.get(k as usize), self.taker(k)) {
            (Some(post), Some(address)) => {
                port == address.port
                    && from == Place::Peer(PeerId(post.node))
                    && is_posted(&post.placed, taken)
            }
            _ => false,
        }
    }

    /// Whether what was taken on a port, as from somebody, is what an event brings.
    fn took_fits(&self, e: &Event, port: Port, from: Place, taken: &Taken) -> bool
        ensures { IsTrue result ↔ TakingFits self.now.header self.now.posts.items
            (up_in self.now.up.items) e.now port from taken.now }
    {
        match e {
            Event::Boot { .. } => false,
            Event::Turn { .. } => false,
            Event::Take { datagram, .. } => self.takes_post(*datagram, port, from, taken),
            Event::Bytes {
                port: on_port,
                from: sender,
                ..
            } => port == *on_port && from == *sender,
        }
    }

    /// Whether an act may stand next in an event.
    fn act_fits(&self, e: &Event, tally: Tally, placed: &Placed) -> bool
        ensures { IsTrue result ↔ ActMayStand self.now.header self.now.posts.items
            (up_in self.now.up.items) e.now tally placed.now.port placed.now.act }
    {
        let wants_boot = begins_with_boot(e) && !tally.begun;
        match &placed.act {
            Act::Boot => wants_boot && placed.port.0 == 0,
            Act::Took(from, taken) => {
                !wants_boot && !tally.took && self.took_fits(e, placed.port, *from, taken)
            }
            _ => !wants_boot,
        }
    }

    /// Whether a line fits as the next one of an event in this step.
    fn fits_at(&self, e: &Event, step: Acting, tally: Tally, line: &Line2) -> bool
        requires events { self.now.events < 20000 }
        requires tick { step.tick ≡ step_tick self.now.header (step_by step) }
        ensures { IsTrue result ↔ LineMayStand self.now.header self.now.posts.items
            (up_in self.now.up.items) (self.now.events + 1) e.now tally (step_by step) line.now }
    {
        line.event == self.events + 1
            && line.node == step.node
            && line.tick == step.tick
            && (line.placed.port.0 as usize) < self.ports(step.node)
            && is_numbered(
                self.posts.len() as u64,
                tally.posts,
                &line.placed.act,
                line.number,
            )
            && self.act_fits(e, tally, &line.placed)
    }

    /// Whether a line fits as the next one of an event at which a node acts in this step, if one does.
    pub(crate) fn fits_in(
        &self,
        e: &Event,
        step: Option<Acting>,
        tally: Tally,
        line: &Line2,
    ) -> bool
        requires events { self.now.events < 20000 }
        requires step { ActsIn self.now.header (step_at self.now.header self.now.posts.items
            (up_in self.now.up.items) e.now) step }
        ensures { IsTrue result ↔ FitsAfter self.now.header self.now.posts.items
            (up_in self.now.up.items) (self.now.events + 1) e.now tally line.now }
    {
        match step {
            Some(step) => self.fits_at(e, step, tally, line),
            None => false,
        }
    }

    /// The index of the first line that doesn't fit in an event at which a node acts in this step,
    /// or their number where the event lacks something.
    pub(crate) fn misfit(&self, e: &Event, step: Option<Acting>, lines: &[Line2]) -> Option<usize>
        requires events { self.now.events < 20000 }
        requires few { length lines.now ≤ 20000 }
        requires step { ActsIn self.now.header (step_at self.now.header self.now.posts.items
            (up_in self.now.up.items) e.now) step }
        ensures { MatchOption result
            (AllFit (FitsAfter self.now.header self.now.posts.items (up_in self.now.up.items)
            (self.now.events + 1)) e.now untold lines.now)
            (λ i. Misfits (FitsAfter self.now.header self.now.posts.items (up_in self.now.up.items)
            (self.now.events + 1)) e.now untold lines.now i) }
    {
        let mut tally = Tally::new();
        for (i, line) in lines.iter().enumerate() {
            if !self.fits_in(e, step, tally, line) {
                return Some(i);
            }
            tally.count(&line.placed.act);
        }
        if tally.lacks(e) {
            Some(lines.len())
        } else {
            None
        }
    }
}
