//! What a follower remembers.
ghost use Rattle.std.specs.Prelude.{◌≡◌, [], ◌∷◌, ℕ, None, Some};
ghost use Rattle.tsp_base.specs.declared.act.Act.TheVariants.{Boot};
ghost use Rattle.tsp_base.specs.declared.constants.TheConstants.{GAP};
ghost use Rattle.tsp_base.specs.History.{Past};
ghost use Rattle.tsp_base.specs.Hold.{is_past};
ghost use Rattle.tsp_base.specs.Rows.{grown};
ghost use Rattle.tsp_rules.specs.SlaveRows.{is_by};

use std::marker::Model;
use tsp_base::constants::GAP;
use tsp_base::name::Name;
use tsp_base::place::PeerId;

/// A correction that was taken: who sent it, and its number.
#[derive(Clone, Copy)]
pub(crate) struct Correction {
    /// The master.
    pub(crate) from: PeerId,
    /// Its number: the ticket that the clock had then, 0 to 32,767.
    pub(crate) number: u16,
}

/// What a port remembers since the boot: the tick at which the node's clock was last corrected, which message
/// did it if it came to this port, and the name of the master that was followed last. All ports of a node
/// have one clock.
#[derive(Drop)]
pub struct Last {
    tick: Option<u64>,
    taken: Option<Correction>,
    name: Name,
}

impl Model for Last {
    ghost use Rattle.tsp_slave.specs.Lasts.{LastValue, correcting_in};

    ghost Value = { LastValue };

    ghost view = { λ l. record { tick = l.tick; taken = correcting_in l.taken; name = l.name } };
}

impl Last {
    ghost use Rattle.tsp_slave.specs.Lasts.{Remembers, correcting_in};

    /// Nothing is remembered of a life that has just begun.
    pub fn new() -> Last
        ensures value { result ≡ record { tick = None; taken = None; name = [] } }
        ensures stands { (x : ℕ) (past : Past) → Remembers (grown x past (Boot ∷ [])) result }
    {
        Last {
            tick: None,
            taken: None,
            name: Name::empty(),
        }
    }

    /// The tick of the last correction of the node's clock; None exactly where there was none since the boot.
    pub fn tick(&self) -> Option<u64>
        ensures { result ≡ self.now.tick }
    {
        self.tick
    }

    /// The name that was kept of the master followed last; empty before one.
    pub fn name(&self) -> &Name
        ensures { result.now ≡ self.now.name }
    {
        &self.name
    }

    /// Notes a correction of the node's clock that no message of a master to this port made.
    pub fn moved(&mut self, tick: u64)
        ensures { self.new ≡ record { tick = Some tick; taken = None; name = self.old.name } }
    {
        self.tick = Some(tick);
        self.taken = None;
    }

    /// Notes a correction that a master's message made.
    pub(crate) fn took(&mut self, tick: u64, correction: Correction)
        ensures { self.new ≡ record {
          tick = Some tick;
          taken = correcting_in (Some correction);
          name = self.old.name;
        } }
    {
        self.tick = Some(tick);
        self.taken = Some(correction);
    }

    /// Keeps a master's name.
    pub(crate) fn keep_name(&mut self, name: &Name)
        ensures { self.new ≡ record self.old { name = name.now } }
    {
        self.name = name.copy();
    }

    /// Whether this is the correction that was taken last: of the same sender, with the same number.
    pub(crate) fn is_repeat(&self, correction: Correction) -> bool
        ensures { result ≡ is_by correction.from correction.number self.now.taken }
    {
        match self.taken {
            None => false,
            Some(last) => last.from.0 == correction.from.0 && last.number == correction.number,
        }
    }

    /// Whether the last correction, if there was one, is `GAP` ticks or more ago.
    pub(crate) fn is_rested(&self, tick: u64) -> bool
        ensures { result ≡ is_past self.now.tick GAP tick }
    {
        match self.tick {
            None => true,
            Some(at) => at <= tick && tick - at >= GAP,
        }
    }
}
