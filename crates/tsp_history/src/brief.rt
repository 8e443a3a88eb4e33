//! Acts without the names in their messages.

use tsp_base::alarm::Alarm;
use tsp_base::datagram::DecodeFault;
use tsp_base::kind::Kind;
use tsp_base::message::Body;
use tsp_base::place::{PeerId, Place};
use tsp_base::role::Role;
use tsp_base::stamp::Stamp;

/// A mark, or an act but for the name of the message that it took or posted. It takes little room, so
/// that it is cheap to hand on.
#[derive(Clone, Copy)]
pub enum Brief {
    /// No act: the mark where a step begins.
    Mark,
    /// The node boots.
    Boot,
    /// A message from somebody reached the node: its kind, its number, and what it carries.
    TookMessage(Place, Kind, u16, Body),
    /// A clock stamp from somebody reached the node.
    TookStamp(Place, Stamp),
    /// Octets from somebody reached the node that aren't a valid datagram.
    TookBad(Place, DecodeFault),
    /// A message is sent: its kind, its number, and what it carries.
    PostMessage(Place, Kind, u16, Body),
    /// A clock stamp is sent.
    PostStamp(Place, Stamp),
    /// The role changes.
    Become(Role),
    /// The port backs a candidate.
    Back(PeerId),
    /// A peer backs the candidature of the port.
    Backer(PeerId),
    /// The port took a QUIT.
    Quit(PeerId),
    /// An alarm is armed for a tick.
    Arm(Alarm, u64),
    /// An armed alarm is handled in time.
    Ring(Alarm),
    /// An armed alarm is handled too late.
    Late(Alarm),
    /// A slave joins the master's table.
    Join(PeerId),
    /// A slave leaves the master's table.
    Leave(PeerId),
    /// Another master was found.
    Rival(PeerId),
    /// The open send to this peer was acknowledged.
    Acked(PeerId),
    /// The open send to this peer is given up.
    Gave(PeerId),
    /// A clock was measured: whose, the request's counter, how far it is ahead of this node's clock, by
    /// how much that may be wrong, both in microseconds, and the number that its next correction must
    /// have, 0 to 32,767.
    Sample(PeerId, u64, i64, i64, u16),
    /// A round closes: how many clocks the group has, the least of their differences, the greatest less
    /// the least, and their mean, all three in microseconds.
    Close(u32, i64, i64, i64),
    /// The clock is corrected: by how much the target moves, whether the shown clock steps, and what it
    /// shows right after; amounts are in microseconds.
    Correct(i64, bool, i64),
    /// A round is given up.
    Abandon,
    /// Tracing is turned on or off.
    Trace(bool),
}
