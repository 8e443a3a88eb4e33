//! Why an event of an audited schedule is refused. The faults are those of `EventFault`, with what they name.
ghost use Rattle.std.specs.Prelude.{◌≡◌, ◌≤◌, ℕ, [], length, Some};
ghost use Rattle.tsp_audit_command.specs.Listings.{no_room, refusal_at, wants_up};
ghost use Rattle.tsp_claims.specs.Listed.{up_in};
ghost use Rattle.tsp_run.specs.Networks.{networks};
ghost use Rattle.tsp_run.specs.Refusals.{down, no_node, scene};

use crate::listing::Listing;
use tsp_base::event::{Event, EventFault};
use tsp_base::members::Members;
use tsp_claims::booted::has_booted;
use tsp_networks::networks_of;
use tsp_networks::refusals::{down_at, first_of, no_node, time_back, time_of};

/// The most events that an audited schedule may have.
const MOST_EVENTS: u64 = 20_000;

/// `Limit` where there are 20,000 events already: it has their number, and 0 for posts, which aren't counted here.
fn no_room(events: u64) -> Option<EventFault>
    ensures { result ≡ no_room events }
{
    if events >= MOST_EVENTS {
        Some(EventFault::Limit(events, 0))
    } else {
        None
    }
}

impl Listing {
    /// The networks: those of the header, or that of all nodes where it names none.
    fn networks(&self) -> &[Members]
        ensures networks { result.now ≡ networks self.now.header }
        ensures few { length result.now ≤ 64 }
    {
        networks_of(&self.header, self.one.as_slice())
    }

    /// `NoNode` where the event names a node, a port or a sender that doesn't exist. A take names none.
    fn absent(&self, e: &Event) -> Option<EventFault>
        ensures { result ≡ no_node (scene self.now.header []) e.now }
    {
        no_node(self.header.nodes().len() as u32, self.networks(), e)
    }

    /// `NotUp` where this node hasn't booted.
    fn down_at(&self, n: u32) -> Option<EventFault>
        ensures { result ≡ down (up_in self.now.up.items) (Some n) }
    {
        down_at(has_booted(self.up.as_slice(), n), n)
    }

    /// `NotUp` where the node of a turn or of octets hasn't booted. A boot and a take are never refused so.
    fn down(&self, e: &Event) -> Option<EventFault>
        ensures { result ≡ down (up_in self.now.up.items) (wants_up e.now) }
    {
        match e {
            Event::Turn { node, .. } => self.down_at(*node),
            Event::Bytes { node, .. } => self.down_at(*node),
            Event::Boot { .. } => None,
            Event::Take { .. } => None,
        }
    }

    /// The first cause for which an event is refused, if it is, in this order: its time is before that of the newest
    /// event, it names what doesn't exist, its node hasn't booted, there is room for no more.
    pub(crate) fn refusal(&self, e: &Event) -> Option<EventFault>
        ensures { result ≡ refusal_at self.now.header self.now.last (length self.now.events.items)
            (up_in self.now.up.items) e.now }
    {
        let later = first_of(self.down(e), no_room(self.events.len() as u64));
        let absent = first_of(self.absent(e), later);
        first_of(time_back(time_of(e), self.last), absent)
    }
}
