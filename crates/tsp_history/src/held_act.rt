//! Acts that are held, each in little room.
ghost use Rattle.std.specs.Prelude.{◌≡◌, List, ℕ, [], true, is_none, None, Some, IfOk};
ghost use Rattle.tsp_base.specs.Messages.{body_fits};
ghost use Rattle.tsp_base.specs.Names.{IsName};
ghost use Rattle.tsp_history.specs.HeldActs.{IsBrief, IsSilentAct, act_of, posted_datagram, held_message};

use crate::brief::Brief;
use std::alloc::{AllocError, Global};
use std::marker::Model;
use tsp_base::act::Act;
use tsp_base::datagram::{Datagram, Taken};
use tsp_base::kind::Kind;
use tsp_base::message::{Body, Message};
use tsp_base::name::Name;

/// An act, or none, as a mark has. It takes memory of its own for the name of a message alone, and only
/// where that isn't empty.
#[derive(Drop)]
pub struct HeldAct {
    brief: Brief,
    name: Vec<u8>,
}

impl Model for HeldAct {
    ghost use Rattle.std.specs.Prelude.{Option};
    ghost use Rattle.tsp_base.specs.declared.act.Act.{Act};
    ghost use Rattle.tsp_history.specs.HeldActs.{IsBrief, act_of};

    ghost Value = { Option Act };

    ghost view = { λ h. act_of h.brief h.name.items };

    ghost invariant = { λ h. IsBrief h.brief h.name.items };
}

/// An act that neither took nor posted, as it is held; at another one this says nothing.
fn silent(act: &Act) -> Brief
    ensures act { IsSilentAct act.now → act_of result [] ≡ Some act.now }
    ensures whole { IsBrief result [] }
{
    match act {
        Act::Become(role) => Brief::Become(*role),
        Act::Back(p) => Brief::Back(*p),
        Act::Backer(p) => Brief::Backer(*p),
        Act::Quit(p) => Brief::Quit(*p),
        Act::Join(p) => Brief::Join(*p),
        Act::Leave(p) => Brief::Leave(*p),
        Act::Rival(p) => Brief::Rival(*p),
        Act::Acked(p) => Brief::Acked(*p),
        Act::Gave(p) => Brief::Gave(*p),
        Act::Arm(alarm, at) => Brief::Arm(*alarm, *at),
        Act::Ring(alarm) => Brief::Ring(*alarm),
        Act::Late(alarm) => Brief::Late(*alarm),
        Act::Sample {
            peer: p,
            counter,
            diff,
            err,
            ticket,
        } => Brief::Sample(*p, *counter, *diff, *err, *ticket),
        Act::Correct {
            amount,
            stepped,
            shown,
        } => Brief::Correct(*amount, *stepped, *shown),
        Act::Close {
            count,
            lo,
            width,
            mean,
        } => Brief::Close(*count, *lo, *width, *mean),
        Act::Abandon => Brief::Abandon,
        Act::Trace(on) => Brief::Trace(*on),
        _ => Brief::Boot,
    }
}

/// An act but for the name of its message, and that name; empty where there is none.
fn parts(act: &Act) -> (Brief, &[u8])
    ensures act { act_of result.0 result.1.now ≡ Some act.now }
    ensures whole { IsBrief result.0 result.1.now }
{
    match act {
        Act::Took(from, Taken::Good(Datagram::Message(m))) => (
            Brief::TookMessage(*from, m.kind(), m.number(), m.body()),
            m.name().octets(),
        ),
        Act::Took(from, Taken::Good(Datagram::Stamp(stamp))) => {
            (Brief::TookStamp(*from, *stamp), b"")
        }
        Act::Took(from, Taken::Bad(fault)) => (Brief::TookBad(*from, *fault), b""),
        Act::Post(to, Datagram::Message(m)) => (
            Brief::PostMessage(*to, m.kind(), m.number(), m.body()),
            m.name().octets(),
        ),
        Act::Post(to, Datagram::Stamp(stamp)) => (Brief::PostStamp(*to, *stamp), b""),
        _ => (silent(act), b""),
    }
}

/// The message of this kind and number, with this body and name.
fn message(kind: Kind, number: u16, body: Body, name: &[u8]) -> Datagram
    requires fits { body_fits kind body ≡ true }
    requires name { IsName name.now }
    ensures { result ≡ Datagram.Message (held_message kind number body name.now) }
{
    Datagram::Message(Message::new(kind, number, body, Name::new(name)))
}

impl HeldAct {
    /// No act. Takes no memory.
    pub fn mark(alloc: Global) -> HeldAct
        ensures { result ≡ None }
    {
        HeldAct {
            brief: Brief::Mark,
            name: Vec::new(alloc),
        }
    }

    /// An act. Fails only if out of memory.
    pub fn of(alloc: Global, act: &Act) -> Result<HeldAct, AllocError>
        ensures { IfOk result (λ h. h ≡ Some act.now) }
    {
        let (brief, name) = parts(act);
        let name = Vec::from_slice(alloc, name)?;
        Ok(HeldAct { brief, name })
    }

    /// The act but for the name of its message. An act has one brief ([`crate::laws::one_brief`]).
    pub fn brief(&self) -> Brief
        ensures act { (name : List ℕ) × (self.now ≡ act_of result name) }
    {
        self.brief
    }

    /// Whether it is no act.
    pub fn is_mark(&self) -> bool
        ensures { result ≡ is_none self.now }
    {
        matches!(self.brief, Brief::Mark)
    }

    /// The datagram that it posts; none where it posts none.
    pub fn datagram(&self) -> Option<Datagram>
        ensures { result ≡ posted_datagram self.now }
    {
        match self.brief {
            Brief::PostMessage(_, kind, number, body) => {
                Some(message(kind, number, body, self.name.as_slice()))
            }
            Brief::PostStamp(_, stamp) => Some(Datagram::Stamp(stamp)),
            _ => None,
        }
    }
}
