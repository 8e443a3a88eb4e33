//! The slot of a peer.
ghost use Rattle.std.specs.Prelude.{◌≡◌};
ghost use Rattle.std.specs.Option.{option_map, option_and_then};
ghost use Rattle.tsp_sends.specs.Slots.{empty_slot, deadline_in, kind_of, has_number};
ghost use Rattle.tsp_sends.specs.Repeating.{repeated, kept};

use crate::due::Due;
use crate::sending::Sending;
use tsp_base::kind::Kind;
use tsp_base::place::PeerId;

/// A peer, and the open send to it, if there is one.
#[derive(Drop)]
pub(crate) struct Slot {
    pub(crate) peer: PeerId,
    pub(crate) sending: Option<Sending>,
}

impl Slot {
    /// The slot of a peer to whom no send is open.
    pub(crate) fn new(peer: PeerId) -> Slot
        ensures { result ≡ empty_slot peer }
    {
        Slot {
            peer,
            sending: None,
        }
    }

    /// The tick from which the open send is due; None where none is open.
    pub(crate) fn deadline(&self) -> Option<u64>
        ensures { result ≡ deadline_in self.now }
    {
        match &self.sending {
            Some(sending) => Some(sending.deadline()),
            None => None,
        }
    }

    /// The kind of the open send.
    pub(crate) fn kind(&self) -> Option<Kind>
        ensures { result ≡ kind_of self.now.sending }
    {
        match &self.sending {
            Some(sending) => Some(sending.kind()),
            None => None,
        }
    }

    /// Whether a send with this number is open.
    pub(crate) fn has_number(&self, number: u16) -> bool
        ensures { result ≡ has_number number self.now.sending }
    {
        match &self.sending {
            Some(sending) => sending.number() == number,
            None => false,
        }
    }

    /// Posts the open send again, or gives it up; None where none is open.
    pub(crate) fn repeat(&mut self, tick: u64) -> Option<Due>
        ensures due { result ≡ option_map (repeated self.old.peer tick) self.old.sending }
        ensures peer { self.new.peer ≡ self.old.peer }
        ensures sending { self.new.sending ≡ option_and_then (kept tick) self.old.sending }
    {
        let mut sending = self.sending.take()?;
        if sending.is_given_up(tick) {
            return Some(Due::Gave(self.peer, sending.kind()));
        }
        let message = sending.repeat();
        self.sending = Some(sending);
        Some(Due::Again(self.peer, message))
    }
}
