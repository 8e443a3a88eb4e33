//! The world of a replay, as a handler of a schedule's events.

use std::alloc::{AllocError, Global};
use tsp_base::event::{Event, EventFault};
use tsp_base::header::Header;
use tsp_base::place::{Place, Port};
use tsp_base::plain::Plain;
use tsp_networks::parcel::Parcel;
use tsp_schedule::handler::EventHandler;
use tsp_world::world::World;

/// The world of a replay.
#[derive(Drop)]
pub struct Replayed {
    /// The nodes, and the lines of the last event.
    pub world: World,
    /// What posted datagrams are taken in.
    pub parcel: Parcel,
}

impl EventHandler for Replayed {
    ghost use Rattle.tsp_replay.specs.Schedules.{refused};
    ghost use Rattle.tsp_replay.specs.Stages.{stands};

    ghost refused = { refused };

    ghost stands = { stands };

    fn begin(alloc: Global, header: Header) -> Result<Replayed, AllocError> {
        let world = World::new(alloc, header)?;
        Ok(Replayed {
            world,
            parcel: Parcel::new(),
        })
    }

    fn event(&mut self, e: &Event) -> Result<(), EventFault> {
        self.world.event(e)
    }

    fn plain(&mut self, plain: &Plain) -> Result<(), EventFault> {
        match plain {
            Plain::Boot { at, node, word } => self.world.boot(*at, *node, *word),
            Plain::Turn { at, node } => self.world.turn(*at, *node),
            Plain::Take { at, datagram } => self.world.take(*at, *datagram, &mut self.parcel),
        }
    }

    fn bytes(
        &mut self,
        at: u64,
        node: u32,
        port: Port,
        from: Place,
        octets: &[u8],
    ) -> Result<(), EventFault> {
        self.world.bytes(at, node, port, from, octets)
    }
}
