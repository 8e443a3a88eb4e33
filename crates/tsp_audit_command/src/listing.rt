//! The events of a schedule that is to be audited.
ghost use Rattle.std.specs.Prelude.{◌≡◌, ◌≤◌, ◌∷◌, [], true, List, length, vec_len, IfOk};
ghost use Rattle.tsp_base.specs.Headers.{is_whole};
ghost use Rattle.tsp_audit_command.specs.Listings.{AreListed, AreListed_prop as is-prop};
ghost use Rattle.tsp_run.specs.Networks.{numbers_below};

use std::alloc::{AllocError, Global};
use tsp_audit::small_event::SmallEvent;
use tsp_base::event::{Event, EventFault};
use tsp_base::header::Header;
use tsp_base::members::Members;
use tsp_claims::booted::{none_booted, wake};
use tsp_networks::all_nodes;
use tsp_networks::refusals::time_of;
use tsp_schedule::handler::EventHandler;

/// The header of a schedule, and its events so far: at most 20,000, none of which is refused.
#[derive(Drop)]
pub(crate) struct Listing {
    /// Where memory comes from.
    pub(crate) alloc: Global,
    /// The header: the drift, whether elections are strict, and the nodes' clocks, names and networks.
    pub(crate) header: Header,
    /// One network with all nodes: theirs where the header names none.
    pub(crate) one: Vec<Members>,
    /// Whether each node has booted, by its number.
    pub(crate) up: Vec<bool>,
    /// The events, the oldest first.
    pub(crate) events: Vec<SmallEvent>,
    /// The true time of the newest event, in microseconds; 0 where there is none.
    pub(crate) last: u64,
    ghost some: { 1 ≤ length header.nodes },
    ghost whole: { is_whole header ≡ true },
    ghost places: { vec_len up ≡ length header.nodes },
    ghost one_is: { one.items ≡ numbers_below (length header.nodes) ∷ [] },
    ghost listed: { AreListed (length header.nodes) events.items } by { is-prop (length header.nodes) events.items },
}

impl Listing {
    ghost use Rattle.tsp_audit_command.specs.Stands.{ListingStands};

    /// Before the first event. Takes memory for the nodes; fails only if out of memory, and then
    /// drops the header.
    fn new(alloc: Global, header: Header) -> Result<Listing, AllocError>
        requires some { 1 ≤ length header.nodes }
        requires whole { is_whole header ≡ true }
        ensures { IfOk result (λ listing. ListingStands header [] listing) }
    {
        let one = all_nodes(alloc, header.nodes().len() as u32)?;
        let up = none_booted(alloc, header.nodes().len())?;
        Ok(Listing {
            alloc,
            header,
            one,
            up,
            events: Vec::new(alloc),
            last: 0,
        })
    }
}

impl EventHandler for Listing {
    ghost use Rattle.tsp_audit_command.specs.Listings.{refused_next};
    ghost use Rattle.tsp_audit_command.specs.Stands.{ListingStands};

    ghost refused = { refused_next };

    ghost stands = { ListingStands };

    fn begin(alloc: Global, header: Header) -> Result<Listing, AllocError> {
        Listing::new(alloc, header)
    }

    fn event(&mut self, e: &Event) -> Result<(), EventFault> {
        if let Some(fault) = self.refusal(e) {
            return Err(fault);
        }
        let Ok(event) = SmallEvent::of(self.alloc, e) else {
            return Err(EventFault::OutOfMemory);
        };
        if self.events.push(event).is_err() {
            return Err(EventFault::OutOfMemory);
        }
        wake(&mut self.up, e);
        self.last = time_of(e);
        Ok(())
    }
}
