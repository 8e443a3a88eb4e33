//! Theorems about a trace's lines: writing and reading undo each other. Nothing here runs in the program.
ghost use Rattle.std.specs.Prelude.{◌≡◌, ◌<◌, ◌^◌, Ok};
ghost use Rattle.tsp_script.specs.ActLines.{IsAct, IsLine2, IsNumberOf, IsRole, IsTaken};
ghost use Rattle.tsp_script.specs.Schedules.{IsPlace};
ghost use Rattle.tsp_script.specs.Traces.{trace_text};

use crate::act_reader::act_of;
use crate::line_fault::LineFault;
use crate::messages::message_text;
use crate::trace::act_text;
use tsp_base::act::Act;
use tsp_base::datagram::Taken;
use tsp_base::place::{PeerId, Place};
use tsp_base::role::Role;
use tsp_base::trace::Line2;

/// A peer's number is in its range.
fn peer_in_range(peer: PeerId)
    ensures { peer.0 < 2 ^ 32 }
{
    let _number = peer.0;
}

/// A place is in its range.
fn place_in_range(place: Place)
    ensures { IsPlace place }
{
    match place {
        Place::Peer(peer) => peer_in_range(peer),
        Place::Stranger => {}
    }
}

/// A role is in its range.
fn role_in_range(role: Role)
    ensures { IsRole role }
{
    match role {
        Role::Follow(peer) => peer_in_range(peer),
        Role::Starting | Role::Loose | Role::Candidate | Role::Master => {}
    }
}

/// What was taken is in its range.
fn taken_in_range(taken: &Taken)
    ensures { IsTaken taken.now }
{
    match taken {
        Taken::Good(datagram) => {
            let _text = message_text(datagram);
        }
        Taken::Bad(_) => {}
    }
}

/// The parts of an act are in their ranges.
fn act_in_range(act: &Act)
    ensures { IsAct act.now }
{
    match act {
        Act::Took(from, taken) => {
            place_in_range(*from);
            taken_in_range(taken);
        }
        Act::Post(to, datagram) => {
            place_in_range(*to);
            let _text = message_text(datagram);
        }
        Act::Become(role) => role_in_range(*role),
        Act::Back(peer) => peer_in_range(*peer),
        Act::Backer(peer) => peer_in_range(*peer),
        Act::Quit(peer) => peer_in_range(*peer),
        Act::Join(peer) => peer_in_range(*peer),
        Act::Leave(peer) => peer_in_range(*peer),
        Act::Rival(peer) => peer_in_range(*peer),
        Act::Acked(peer) => peer_in_range(*peer),
        Act::Gave(peer) => peer_in_range(*peer),
        Act::Arm(_, at) => {
            let _at = *at;
        }
        Act::Sample {
            peer,
            counter,
            diff,
            err,
            ticket,
        } => {
            peer_in_range(*peer);
            let _read = (*counter, *diff, *err, *ticket);
        }
        Act::Close {
            count,
            lo,
            width,
            mean,
        } => {
            let _read = (*count, *lo, *width, *mean);
        }
        Act::Correct { amount, shown, .. } => {
            let _read = (*amount, *shown);
        }
        Act::Boot | Act::Ring(_) | Act::Late(_) | Act::Abandon | Act::Trace(_) => {}
    }
}

/// A line's values are in their ranges.
fn line_in_range(line: &Line2)
    requires { IsNumberOf line.now.placed.act line.now.number }
    ensures { IsLine2 line.now }
{
    act_in_range(&line.placed.act);
    let _event = line.event;
    let _node = line.node;
    let _port = line.placed.port.0;
    let _tick = line.tick;
}

/// Writes a trace's line and reads it: the same values come back. The number must be 0 for every act but a
/// post.
pub fn act_comes_back(line: &Line2) -> Result<Line2, LineFault>
    requires { IsNumberOf line.now.placed.act line.now.number }
    ensures { result ≡ Ok line.now }
{
    line_in_range(line);
    act_of(act_text(line).as_slice())
}

/// Values that are written as the same line of a trace are equal.
pub fn one_line_one_act(one: &Line2, other: &Line2)
    requires one { IsNumberOf one.now.placed.act one.now.number }
    requires other { IsNumberOf other.now.placed.act other.now.number }
    requires same { trace_text one.now.event one.now.node one.now.tick one.now.number
        one.now.placed ≡ trace_text other.now.event other.now.node other.now.tick other.now.number
        other.now.placed }
    ensures { one.now ≡ other.now }
{
    line_in_range(one);
    line_in_range(other);
    let text = act_text(one);
    let _read = act_of(text.as_slice());
}
