//! A node among slaves that answer all of its posts.
ghost use Rattle.std.specs.Prelude.{◌≤◌};
ghost use Rattle.tsp_base.specs.Frames.{IsTick};
ghost use Rattle.tsp_node.specs.NodeStands.{clock_at};

use crate::slave::Slave;
use std::alloc::{AllocError, Global};
use tsp_base::act::{Act, Placed};
use tsp_base::datagram::Taken;
use tsp_base::desk::Desk;
use tsp_base::name::Name;
use tsp_base::pad::Pad;
use tsp_base::place::{PeerId, Place};
use tsp_node::{BootFault, Config, Node};

/// The greatest number of steps without octets until a round has closed. An election takes some tens.
const LOOKS: u32 = 200;

/// The last tick at which a step is taken.
const LAST: u64 = 1 << 60;

/// How long an answer takes, in microseconds.
const TRIP: u64 = 100;

/// An answer on its way.
#[derive(Drop)]
struct Letter {
    from: PeerId,
    taken: Taken,
}

/// A node, the desk on which it puts its acts, and its slaves: peer n is slave n - 1.
#[derive(Drop)]
pub struct Network {
    node: Node,
    pad: Pad,
    tick: u64,
    slaves: Vec<Slave>,
    ghost later: { clock_at node ≤ tick },
    ghost last: { IsTick tick },
}

impl Network {
    /// A node that boots, as peer 0, among so many peers, 1,000 at most.
    pub fn new(alloc: Global, count: u32) -> Result<Network, BootFault> {
        let mut pad = Pad::new(alloc);
        let (Ok(config), Ok(slaves), Ok(())) = (
            config_of(alloc, count),
            slaves_of(alloc, count),
            pad.reserve(3),
        ) else {
            return Err(BootFault::OutOfMemory);
        };
        let node = Node::boot(alloc, &config, 0, 0, 1, &mut pad)?;
        Ok(Network {
            node,
            pad,
            tick: 0,
            slaves,
        })
    }

    /// Runs until a round has closed and its corrections were answered; says whether one did.
    pub fn run_round(&mut self, alloc: Global) -> Result<bool, AllocError> {
        for _ in 0..LOOKS {
            let due = self.node.due();
            self.step(due, None)?;
            let closed = self.pad.acts().iter().any(is_close);
            let mail = self.answers(alloc)?;
            let tick = self.tick.saturating_add(TRIP);
            for letter in &mail {
                self.step(tick, Some(letter))?;
            }
            if closed {
                return Ok(true);
            }
        }
        Ok(false)
    }

    /// A step at a tick, with an answer or without one. It does nothing at a tick that is over or too far ahead.
    fn step(&mut self, tick: u64, letter: Option<&Letter>) -> Result<(), AllocError> {
        if tick < self.tick || tick > LAST {
            return Ok(());
        }
        self.pad.clear();
        self.pad.reserve(self.node.room())?;
        self.tick = tick;
        match letter {
            None => self.node.turn(tick, &mut self.pad),
            Some(letter) => self.node.take(
                tick,
                Place::Peer(letter.from),
                &letter.taken,
                &mut self.pad,
            ),
        }
        Ok(())
    }

    /// The slaves' answers to what the last step posted.
    fn answers(&mut self, alloc: Global) -> Result<Vec<Letter>, AllocError> {
        let time = i64::try_from(self.tick).unwrap_or(i64::MAX);
        let mut mail = Vec::new(alloc);
        for placed in self.pad.acts() {
            if let Some(letter) = answer(self.slaves.as_mut_slice(), placed, time) {
                mail.push(letter)?;
            }
        }
        Ok(mail)
    }
}

/// What the slave to whom an act posts answers to it.
fn answer(slaves: &mut [Slave], placed: &Placed, time: i64) -> Option<Letter> {
    let Act::Post(Place::Peer(peer), datagram) = &placed.act else {
        return None;
    };
    let place = (peer.0 as usize).checked_sub(1)?;
    let taken = slaves.get_mut(place)?.answer(datagram, time)?;
    Some(Letter { from: *peer, taken })
}

/// Whether a round closes by this act.
fn is_close(placed: &Placed) -> bool {
    matches!(placed.act, Act::Close { .. })
}

/// A node that may be master, as peer 0 of so many.
fn config_of(alloc: Global, count: u32) -> Result<Config, AllocError> {
    let mut peers = Vec::new(alloc);
    for number in 0..count {
        peers.push(PeerId(number))?;
    }
    Config::new(
        alloc,
        Name::empty(),
        PeerId(0),
        peers.as_slice(),
        true,
        false,
    )
}

/// The slaves among so many peers; their clocks are up to 9 milliseconds apart.
fn slaves_of(alloc: Global, count: u32) -> Result<Vec<Slave>, AllocError> {
    let mut slaves = Vec::new(alloc);
    for number in 1..count {
        let offset = i64::from(number % 10) * 1_000;
        slaves.push(Slave { offset, ticket: 1 })?;
    }
    Ok(slaves)
}
