//! Acts: what a node took, what it posted, and each change of its state.
ghost use Rattle.std.specs.Prelude.{◌≡◌};

use crate::alarm::Alarm;
use crate::datagram::{Datagram, Taken};
use crate::place::{PeerId, Place, Port};
use crate::role::Role;

/// One act. A history is a list of acts; nothing else happens to a node.
#[derive(Drop)]
pub enum Act {
    /// The node boots.
    Boot,
    /// Octets from somebody reached the node.
    Took(Place, Taken),
    /// A datagram is sent.
    Post(Place, Datagram),
    /// The role changes.
    Become(Role),
    /// This port backs a candidate, itself or a peer: it gives it its vote.
    Back(PeerId),
    /// A peer backs the candidature of this port.
    Backer(PeerId),
    /// This port took a QUIT: the peer asks it to stop leading.
    Quit(PeerId),
    /// An alarm is armed for a tick.
    Arm(Alarm, u64),
    /// An armed alarm is handled in time: at most `SLACK` ticks after the tick that it was armed for.
    Ring(Alarm),
    /// An armed alarm is handled too late: more than `SLACK` ticks after the tick that it was armed for.
    Late(Alarm),
    /// A slave joins the master's table.
    Join(PeerId),
    /// A slave leaves the master's table.
    Leave(PeerId),
    /// Another master was found.
    Rival(PeerId),
    /// The open send to this peer was acknowledged, and ends.
    Acked(PeerId),
    /// The open send to this peer is given up.
    Gave(PeerId),
    /// A clock was measured; diff and err are microseconds.
    Sample {
        /// Whose clock.
        peer: PeerId,
        /// The request's counter.
        counter: u64,
        /// How far it is ahead of this node's clock; negative where it is behind.
        diff: i64,
        /// By how much diff may be wrong.
        err: i64,
        /// The number that its next correction must have, 0 to 32,767.
        ticket: u16,
    },
    /// A round closes with the group of clocks that agree; lo, width and mean are microseconds.
    Close {
        /// How many clocks the group has. This node's own counts too where it agrees with them.
        count: u32,
        /// The least of their differences.
        lo: i64,
        /// The greatest of their differences less the least.
        width: i64,
        /// Their mean, rounded down; 0 where another port of the node leads its clock.
        mean: i64,
    },
    /// The clock is corrected; amount and shown are microseconds.
    Correct {
        /// By how much the target moves.
        amount: i64,
        /// Whether the shown clock steps.
        stepped: bool,
        /// The shown clock right after.
        shown: i64,
    },
    /// A round is given up.
    Abandon,
    /// Tracing is turned on or off.
    Trace(bool),
}

impl Act {
    /// The same act again.
    pub fn copy(&self) -> Act
        ensures { result ≡ self.now }
    {
        match self {
            Act::Boot => Act::Boot,
            Act::Took(from, taken) => Act::Took(*from, taken.copy()),
            Act::Post(to, datagram) => Act::Post(*to, datagram.copy()),
            Act::Become(role) => Act::Become(*role),
            Act::Back(p) => Act::Back(*p),
            Act::Backer(p) => Act::Backer(*p),
            Act::Quit(p) => Act::Quit(*p),
            Act::Arm(alarm, at) => Act::Arm(*alarm, *at),
            Act::Ring(alarm) => Act::Ring(*alarm),
            Act::Late(alarm) => Act::Late(*alarm),
            Act::Join(p) => Act::Join(*p),
            Act::Leave(p) => Act::Leave(*p),
            Act::Rival(p) => Act::Rival(*p),
            Act::Acked(p) => Act::Acked(*p),
            Act::Gave(p) => Act::Gave(*p),
            Act::Sample {
                peer,
                counter,
                diff,
                err,
                ticket,
            } => Act::Sample {
                peer: *peer,
                counter: *counter,
                diff: *diff,
                err: *err,
                ticket: *ticket,
            },
            Act::Close {
                count,
                lo,
                width,
                mean,
            } => Act::Close {
                count: *count,
                lo: *lo,
                width: *width,
                mean: *mean,
            },
            Act::Correct {
                amount,
                stepped,
                shown,
            } => Act::Correct {
                amount: *amount,
                stepped: *stepped,
                shown: *shown,
            },
            Act::Abandon => Act::Abandon,
            Act::Trace(on) => Act::Trace(*on),
        }
    }
}

/// An act on a port.
#[derive(Drop)]
pub struct Placed {
    /// The port on which it is done.
    pub port: Port,
    /// The act.
    pub act: Act,
}

impl Placed {
    /// The same act on the same port again.
    pub fn copy(&self) -> Placed
        ensures { result ≡ self.now }
    {
        Placed {
            port: self.port,
            act: self.act.copy(),
        }
    }
}
