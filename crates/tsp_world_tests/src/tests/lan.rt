//! Nodes on networks whose time passes.
ghost use Rattle.std.specs.Prelude.{◌≤◌};
ghost use Rattle.tsp_run.specs.Run.{event_at};

use std::alloc::{AllocError, Global};
use tsp_base::act::Act;
use tsp_base::event::Event;
use tsp_base::header::{Header, NodeLine};
use tsp_base::name::Name;
use tsp_base::place::{PeerId, Place};
use tsp_base::role::Role;
use tsp_run::line::Line;
use tsp_world::world::World;

/// How long a datagram is on its way, in microseconds.
const FLIGHT: u64 = 300;

/// From one look of a node at its timers to the next, in microseconds.
const LOOK: u64 = 500_000;

/// The last time of a schedule, in microseconds.
const END: u64 = 1_000_000_000_000_000;

/// A datagram on its way.
#[derive(Clone, Copy)]
struct Flight {
    number: u64,
    lands: u64,
    from: u32,
    to: u32,
}

/// How many nodes there are at most.
const MOST: usize = 4;

/// Nodes without drift, and what they did so far.
#[derive(Drop)]
pub(crate) struct Lan {
    world: World,
    /// The clocks' offsets at a boot.
    walls: &'static [i64],
    /// The time of the last event.
    now: u64,
    /// When the next node looks at its timers, and which one that is.
    look: u64,
    next: u32,
    /// The datagrams in the order in which they arrive, and how many of them have.
    flights: Vec<Flight>,
    landed: usize,
    /// The node that hears nobody, and that nobody hears.
    apart: Option<u32>,
    /// Of each node: its role on its first port, and how far its clock was moved since its boot.
    roles: [Role; MOST],
    moved: [i64; MOST],
    /// How many events were refused.
    refused: u32,
}

/// Adds networks to a header; false where one is refused.
fn add_all(header: &mut Header, nets: &[&[u32]]) -> bool {
    for net in nets {
        if header.net(net).is_err() {
            return false;
        }
    }
    true
}

/// A header with this drift, of nodes with these wall clocks, in microseconds, on these networks. Of the rates
/// the first is the first node's, and so on, and where there is none it is 0. The first `leaders` nodes may be
/// master.
pub(crate) fn header_of(
    alloc: Global,
    drift: u32,
    rates: &[i32],
    walls: &[i64],
    leaders: usize,
    nets: &[&[u32]],
) -> Option<Header>
    requires { drift ≤ 1000 }
{
    let mut header = Header::new(alloc, drift, false);
    for (node, wall) in walls.iter().enumerate() {
        let rate = rates.get(node).copied().unwrap_or(0);
        let line = NodeLine {
            name: Name::empty(),
            rate,
            wall: *wall,
            may: node < leaders,
        };
        header.push(line).ok()?;
    }
    if !add_all(&mut header, nets) {
        return None;
    }
    Some(header)
}

/// The world of a header that is whole and has some nodes.
pub(crate) fn world_of(alloc: Global, header: Header) -> Option<World> {
    if header.nodes().is_empty() || !header.whole() {
        return None;
    }
    World::new(alloc, header).ok()
}

impl Lan {
    /// Nodes with these wall clocks, in microseconds, all on one network. They haven't booted, and all may be
    /// master.
    pub(crate) fn of(alloc: Global, walls: &'static [i64]) -> Option<Lan> {
        Lan::on(alloc, walls, walls.len(), &[])
    }

    /// Nodes with these wall clocks on these networks, of which the first `leaders` may be master.
    pub(crate) fn on(
        alloc: Global,
        walls: &'static [i64],
        leaders: usize,
        nets: &[&[u32]],
    ) -> Option<Lan> {
        let header = header_of(alloc, 0, &[], walls, leaders, nets)?;
        let world = world_of(alloc, header)?;
        Some(Lan {
            world,
            walls,
            now: 0,
            look: LOOK,
            next: 0,
            flights: Vec::new(alloc),
            landed: 0,
            apart: None,
            roles: [Role::Starting; MOST],
            moved: [0; MOST],
            refused: 0,
        })
    }

    /// Boots a node with a word.
    pub(crate) fn boot(&mut self, node: u32, word: u64) {
        self.happens(&Event::Boot {
            at: self.now,
            node,
            word,
        });
    }

    /// Boots all nodes, each with its own word.
    pub(crate) fn boot_all(&mut self) {
        for node in 0..MOST as u32 {
            if (node as usize) < self.walls.len() {
                self.boot(node, u64::from(node) * 10_000_000);
            }
        }
    }

    /// Lets so many seconds pass.
    pub(crate) fn run(&mut self, seconds: u64) {
        let end = self.now.saturating_add(seconds.saturating_mul(1_000_000));
        for _ in 0..200_000 {
            if self.look > end {
                return;
            }
            self.step();
        }
    }

    /// The next event: a datagram arrives, or a node looks at its timers.
    pub(crate) fn step(&mut self) {
        match self.flights.get(self.landed) {
            Some(flight) if flight.lands <= self.look => {
                let flight = *flight;
                self.landed = self.landed.saturating_add(1);
                self.land(flight);
            }
            _ => self.look_at_next(),
        }
    }

    /// A datagram arrives, unless its sender or its addressee is cut off.
    fn land(&mut self, flight: Flight) {
        if self.apart == Some(flight.from) || self.apart == Some(flight.to) {
            return;
        }
        self.happens(&Event::Take {
            at: flight.lands,
            datagram: flight.number,
        });
    }

    /// The next node looks at its timers.
    fn look_at_next(&mut self) {
        self.happens(&Event::Turn {
            at: self.look,
            node: self.next,
        });
        self.next = self.next.saturating_add(1);
        if self.next as usize >= self.walls.len() {
            self.next = 0;
            self.look = self.look.saturating_add(LOOK);
        }
    }

    /// Lets an event happen, and notes its acts.
    fn happens(&mut self, event: &Event) {
        let (Event::Boot { at, .. }
        | Event::Turn { at, .. }
        | Event::Take { at, .. }
        | Event::Bytes { at, .. }) = event;
        if *at > END || self.world.event(event).is_err() {
            self.refused = self.refused.saturating_add(1);
            return;
        }
        self.now = *at;
        for i in 0..self.world.acts().len() {
            self.note(i);
        }
    }

    /// Notes an act of the last event.
    fn note(&mut self, i: usize) {
        let noted = match self.world.acts().get(i) {
            Some(line) => {
                note_node(&mut self.roles, &mut self.moved, line);
                note_post(&mut self.flights, self.now, line)
            }
            None => Ok(()),
        };
        if noted.is_err() {
            self.refused = self.refused.saturating_add(1);
        }
    }

    /// From now on this node hears nobody, and nobody hears it.
    pub(crate) fn cut(&mut self, node: u32) {
        self.apart = Some(node);
    }

    /// From now on every node hears every other.
    pub(crate) fn join(&mut self) {
        self.apart = None;
    }

    /// The lines of the last event.
    pub(crate) fn acts(&self) -> &[Line] {
        self.world.acts()
    }

    /// The role of a node on its first port; None where there is no such node.
    pub(crate) fn role(&self, node: u32) -> Option<Role> {
        self.roles.get(node as usize).copied()
    }

    /// How many nodes are master of their first network.
    pub(crate) fn masters(&self) -> usize {
        let mut count = 0usize;
        for role in &self.roles {
            if *role == Role::Master {
                count = count.saturating_add(1);
            }
        }
        count
    }

    /// The first node that is master of its first network.
    pub(crate) fn master(&self) -> Option<u32> {
        for node in 0..self.roles.len() {
            if self.roles[node] == Role::Master {
                return u32::try_from(node).ok();
            }
        }
        None
    }

    /// How many nodes follow this one on their first network.
    pub(crate) fn followers(&self, master: u32) -> usize {
        let mut count = 0usize;
        for role in &self.roles {
            if *role == Role::Follow(PeerId(master)) {
                count = count.saturating_add(1);
            }
        }
        count
    }

    /// How far the clocks of all nodes are apart at most, in microseconds.
    pub(crate) fn spread(&self) -> u64 {
        let (mut least, mut most) = (i64::MAX, i64::MIN);
        for (wall, moved) in self.walls.iter().zip(&self.moved) {
            let offset = wall.saturating_add(*moved);
            least = least.min(offset);
            most = most.max(offset);
        }
        most.abs_diff(least)
    }

    /// How many events were refused.
    pub(crate) fn refused(&self) -> u32 {
        self.refused
    }
}

/// Notes a boot, a role on the first port or a correction.
fn note_node(roles: &mut [Role], moved: &mut [i64], line: &Line) {
    let node = line.node as usize;
    match &line.placed.act {
        Act::Boot => {
            if let Some(moved) = moved.get_mut(node) {
                *moved = 0;
            }
        }
        Act::Become(role) if line.placed.port.0 == 0 => {
            if let Some(held) = roles.get_mut(node) {
                *held = *role;
            }
        }
        Act::Correct { amount, .. } => {
            if let Some(moved) = moved.get_mut(node) {
                *moved = moved.saturating_add(*amount);
            }
        }
        _ => {}
    }
}

/// Puts a datagram for a peer that is posted at this time on its way.
fn note_post(flights: &mut Vec<Flight>, now: u64, line: &Line) -> Result<(), AllocError> {
    if let (Act::Post(Place::Peer(to), _), Some(number)) = (&line.placed.act, line.number) {
        flights.push(Flight {
            number,
            lands: now.saturating_add(FLIGHT),
            from: line.node,
            to: to.0,
        })?;
    }
    Ok(())
}
