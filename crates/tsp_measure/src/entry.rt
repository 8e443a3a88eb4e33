//! What a master knows of one peer.
ghost use Rattle.std.specs.Prelude.{◌≡◌};
ghost use Rattle.tsp_base.specs.declared.constants.TheConstants.{REUSE};
ghost use Rattle.tsp_base.specs.Hold.{is_past};
ghost use Rattle.tsp_measure.specs.Slaves.{idle_entry, changed_by, may_correct_by, is_settled_by};

use tsp_base::constants::REUSE;
use tsp_base::place::PeerId;

/// What a master knows of one peer.
#[derive(Clone, Copy, PartialEq, Eq, Debug)]
pub struct Entry {
    /// Which peer.
    pub peer: PeerId,
    /// Whether it is a slave.
    pub joined: bool,
    /// Whether the last round measures it.
    pub measured: bool,
    /// The tick at which a correction was last posted to it since the boot, repeats included.
    pub posted: Option<u64>,
    /// The number of the last correction that began to it since the boot, 0 to 32,767; 0 before one.
    pub number: u16,
    /// Whether that correction was acknowledged.
    pub acked: bool,
}

/// What changes what a master knows of a peer. Ticks are those of the node's counter; numbers are 0 to 32,767.
#[derive(Clone, Copy)]
pub enum Change {
    /// The peer joins the slaves.
    Join,
    /// The round that begins measures it.
    Measure,
    /// A correction was posted to it at this tick.
    Post(u64),
    /// A correction began to it at this tick, with this number.
    Begin(u64, u16),
    /// It acknowledged the last correction.
    Acknowledge,
}

impl Entry {
    /// A peer of which nothing is known.
    pub(crate) fn idle(peer: PeerId) -> Entry
        ensures { result ≡ idle_entry peer }
    {
        Entry {
            peer,
            joined: false,
            measured: false,
            posted: None,
            number: 0,
            acked: false,
        }
    }

    /// What is known of the peer after a change.
    pub(crate) fn changed(self, change: Change) -> Entry
        ensures { result ≡ changed_by change self }
    {
        let mut entry = self;
        match change {
            Change::Join => entry.joined = true,
            Change::Measure => entry.measured = true,
            Change::Post(tick) => entry.posted = Some(tick),
            Change::Begin(tick, number) => {
                entry.posted = Some(tick);
                entry.number = number;
                entry.acked = false;
            }
            Change::Acknowledge => entry.acked = true,
        }
        entry
    }

    /// Whether no correction was posted to the peer for `REUSE` ticks.
    fn is_rested(&self, tick: u64) -> bool
        ensures { result ≡ is_past self.now.posted REUSE tick }
    {
        match self.posted {
            None => true,
            Some(at) => at <= tick && tick - at >= REUSE,
        }
    }

    /// Whether a correction with this number, 0 to 32,767, may begin at this tick of the node's counter: none
    /// was posted for `REUSE` ticks, or the last one was acknowledged and this is the next number (after
    /// 32,767 comes 0).
    pub fn may_correct(&self, number: u16, tick: u64) -> bool
        ensures { result ≡ may_correct_by self.now number tick }
    {
        let next = (u32::from(self.number) + 1) % 32768;
        self.is_rested(tick) || self.acked && u32::from(number) == next
    }

    /// Whether no correction is on its way to the peer any more, or the last one was acknowledged.
    pub(crate) fn is_settled(&self, tick: u64) -> bool
        ensures { result ≡ is_settled_by self.now tick }
    {
        self.is_rested(tick) || self.acked
    }
}
