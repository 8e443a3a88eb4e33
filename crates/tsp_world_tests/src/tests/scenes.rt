//! Scenes: nodes, what happens to them, and what comes of it.
ghost use Rattle.std.specs.Prelude.{◌≤◌, IfSome};
ghost use Rattle.tsp_run.specs.Run.{event_at};

use crate::tests::lan::{header_of, world_of};
use std::alloc::Global;
use tsp_base::act::Act;
use tsp_base::alarm::Alarm;
use tsp_base::datagram::{Datagram, Taken};
use tsp_base::event::{Event, EventFault};
use tsp_base::octets::Octets;
use tsp_base::place::{Place, Port};
use tsp_base::role::Role;
use tsp_base::stamp::Stamp;
use tsp_run::line::Line;
use tsp_world::world::World;

/// A request for a clock's stamp, with the word 1 and the counter 2.
const REQUEST: [u8; 28] = [
    0x80, 1, 0, 0, 0, 0, 0, 0, 0, 0, 0, 1, 0, 0, 0, 0, 0, 0, 0, 2, 0, 0, 0, 0, 0, 0, 0, 0,
];

/// What an event does.
#[derive(Clone, Copy)]
pub(crate) enum What {
    /// This node boots with this word.
    Boot(u32, u64),
    /// This node looks at its timers.
    Turn(u32),
    /// This datagram is taken.
    Take(u64),
    /// The request reaches this node on this port, and seems to come from here.
    Ask(u32, u8, Place),
}

/// The event that does this at a true time.
fn event_of(at: u32, what: What) -> Option<Event>
    ensures { IfSome result (λ e. event_at e ≤ 1000000000000000) }
{
    let at = at as u64;
    match what {
        What::Boot(node, word) => Some(Event::Boot { at, node, word }),
        What::Turn(node) => Some(Event::Turn { at, node }),
        What::Take(datagram) => Some(Event::Take { at, datagram }),
        What::Ask(node, port, from) => {
            let octets = Octets::of(&REQUEST)?;
            let port = Port(port);
            Some(Event::Bytes {
                at,
                node,
                port,
                from,
                octets,
            })
        }
    }
}

/// Lets this happen, and says why it can't.
fn happens(world: &mut World, at: u32, what: What) -> Option<EventFault> {
    match event_of(at, what) {
        Some(event) => world.event(&event).err(),
        None => None,
    }
}

/// A stamp: the request, or the reply to it with this ticket and reading.
pub(crate) type Gram = Option<(u16, i64)>;

/// What a node does.
#[derive(Clone, Copy)]
pub(crate) enum Did {
    Boots,
    Starts,
    /// It arms the alarm of its quiet time.
    Arms(u64),
    Took(Place, Gram),
    /// It posts a datagram with this number.
    Posts(u64, Place, Gram),
}

/// Whether a datagram is this stamp.
fn is_stamp(datagram: &Datagram, gram: Gram) -> bool {
    let wanted = match gram {
        Some((ticket, reading)) => Stamp::reply(ticket, 1, 2, reading),
        None => Some(Stamp::Request {
            word: 1,
            counter: 2,
        }),
    };
    match datagram {
        Datagram::Stamp(stamp) => Some(*stamp) == wanted,
        Datagram::Message(_) => false,
    }
}

/// Whether an act, whose post has this number, is what a node does.
fn is_act(act: &Act, number: Option<u64>, did: Did) -> bool {
    match (act, did) {
        (Act::Boot, Did::Boots) => number.is_none(),
        (Act::Become(role), Did::Starts) => number.is_none() && *role == Role::Starting,
        (Act::Arm(alarm, at), Did::Arms(then)) => {
            number.is_none() && *alarm == Alarm::Quiet && *at == then
        }
        (Act::Took(from, Taken::Good(datagram)), Did::Took(place, gram)) => {
            number.is_none() && *from == place && is_stamp(datagram, gram)
        }
        (Act::Post(to, datagram), Did::Posts(k, place, gram)) => {
            number == Some(k) && *to == place && is_stamp(datagram, gram)
        }
        _ => false,
    }
}

/// A line: its port, and what the node does there.
pub(crate) type Row = (u8, Did);

/// What comes of what happens.
#[derive(Clone, Copy)]
pub(crate) enum Outcome {
    /// It is refused for this cause.
    Refused(EventFault),
    /// It happens. What its node does isn't said.
    Happens,
    /// It happens, and no node does anything.
    Nothing,
    /// It happens as the event with this number, and this node does this at its tick.
    Does(u64, u32, u64, &'static [Row]),
}

fn is_line(line: &Line, event: u64, node: u32, tick: u64, row: &Row) -> bool {
    let (port, did) = *row;
    (line.event, line.node, line.tick) == (event, node, tick)
        && line.placed.port == Port(port)
        && is_act(&line.placed.act, line.number, did)
}

/// Whether exactly these lines are given.
fn tells(world: &World, event: u64, node: u32, tick: u64, rows: &[Row]) -> bool {
    for (line, row) in world.acts().iter().zip(rows) {
        if !is_line(line, event, node, tick, row) {
            return false;
        }
    }
    world.acts().len() == rows.len()
}

/// Whether this came of what happened last.
fn came(world: &World, fault: Option<EventFault>, outcome: Outcome) -> bool {
    match outcome {
        Outcome::Refused(cause) => fault == Some(cause),
        Outcome::Happens => fault.is_none(),
        Outcome::Nothing => fault.is_none() && world.acts().is_empty(),
        Outcome::Does(event, node, tick, rows) => {
            fault.is_none() && tells(world, event, node, tick, rows)
        }
    }
}

/// What happens when, and what comes of it.
pub(crate) type Step = (u32, What, Outcome);

/// Lets steps happen one after the other. The index of the first of which something else comes.
fn first_wrong(world: &mut World, steps: &[Step]) -> Option<usize> {
    for (i, (at, what, outcome)) in steps.iter().enumerate() {
        let fault = happens(world, *at, *what);
        if !came(world, fault, *outcome) {
            return Some(i);
        }
    }
    None
}

/// Nodes, what happens to them, and what comes of it.
pub(crate) struct Scene {
    pub(crate) drift: u32,
    pub(crate) rates: &'static [i32],
    pub(crate) walls: &'static [i64],
    pub(crate) nets: &'static [&'static [u32]],
    pub(crate) steps: &'static [Step],
    /// How many events aren't refused.
    pub(crate) events: u64,
    /// When each datagram is posted.
    pub(crate) posts: &'static [u64],
}

/// Whether datagrams are posted at these times, and no other ones.
fn has_posts(world: &World, posts: &[u64]) -> bool {
    for (k, at) in posts.iter().enumerate() {
        if world.posted_at(k as u64) != Some(*at) {
            return false;
        }
    }
    let count = posts.len() as u64;
    world.posted() == count && world.posted_at(count).is_none()
}

/// Whether the steps come in this world, and what should come of all.
fn come_in(world: &mut World, scene: &Scene) -> bool {
    first_wrong(world, scene.steps).is_none()
        && world.events() == scene.events
        && has_posts(world, scene.posts)
}

/// Whether a scene comes; None where it has no world.
pub(crate) fn comes(alloc: Global, scene: &Scene) -> Option<bool> {
    if scene.drift > 1000 {
        return None;
    }
    let walls = scene.walls;
    let header = header_of(
        alloc,
        scene.drift,
        scene.rates,
        walls,
        walls.len(),
        scene.nets,
    )?;
    let mut world = world_of(alloc, header)?;
    Some(come_in(&mut world, scene))
}
