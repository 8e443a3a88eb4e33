//! The hold: whom a port has backed, and when it may back a candidate or stand for election again.
ghost use Rattle.std.specs.Prelude.{◌≡◌, Some, None};
ghost use Rattle.tsp_base.specs.Hold.{may_back, may_stand};

use crate::constants::{ELECT_MIN, HOLD};
use crate::place::PeerId;
use std::marker::Model;

/// The last backing and the last Quit since a boot, with their ticks.
#[derive(Drop)]
pub struct Hold {
    boot: u64,
    back: Option<(u64, PeerId)>,
    quit: Option<u64>,
}

impl Model for Hold {
    ghost use Rattle.tsp_base.specs.Hold.{Held};

    ghost Value = { Held };

    ghost view = { λ h. record { boot = h.boot; back = h.back; quit = h.quit } };
}

impl Hold {
    /// The hold right after a boot at this tick: nobody was backed since.
    pub fn new(boot: u64) -> Hold
        ensures { result ≡ record { boot = boot; back = None; quit = None } }
    {
        Hold {
            boot,
            back: None,
            quit: None,
        }
    }

    /// Whether a peer may be backed: true exactly where the last backing was of it, or is `HOLD` ticks or more
    /// ago, or there was none.
    pub fn may_back(&self, tick: u64, p: PeerId) -> bool
        ensures { result ≡ may_back self.now tick p }
    {
        match self.back {
            None => true,
            Some((at, q)) => q.0 == p.0 || (at <= tick && tick - at >= HOLD),
        }
    }

    /// Notes that a peer is backed at this tick.
    pub fn back(&mut self, tick: u64, p: PeerId)
        ensures { self.new ≡ record self.old { back = Some (tick, p) } }
    {
        self.back = Some((tick, p));
    }

    /// Notes a QUIT that was taken at this tick.
    pub fn quit(&mut self, tick: u64)
        ensures { self.new ≡ record self.old { quit = Some tick } }
    {
        self.quit = Some(tick);
    }

    /// Whether the port may stand for election: true exactly where the boot and the last QUIT, if there was
    /// one, are `ELECT_MIN` ticks or more ago, and it may back itself.
    pub fn may_stand(&self, tick: u64, own: PeerId) -> bool
        ensures { result ≡ may_stand self.now tick own }
    {
        let rested = match self.quit {
            None => true,
            Some(at) => at <= tick && tick - at >= ELECT_MIN,
        };
        self.boot <= tick && tick - self.boot >= ELECT_MIN && rested && self.may_back(tick, own)
    }
}
