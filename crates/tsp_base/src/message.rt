//! Messages of the Time Synchronization Protocol.
ghost use Rattle.std.specs.Prelude.{◌≡◌, ◌≤◌, ◌<◌, ◌↔◌, length, IsSome, IfSome, true};
ghost use Rattle.tsp_base.specs.Messages.{body_fits};

use crate::kind::Kind;
use crate::micros::Micros;
use crate::name::Name;
use std::marker::Model;

/// What a message carries beside its number and its name.
#[derive(Clone, Copy, PartialEq, Eq, Debug)]
pub enum Body {
    /// Nothing.
    Nothing,
    /// A time, in the kinds that carry one: ADJTIME, SETTIME and the four that set a date.
    Time(Micros),
    /// A hop count, in LOOP.
    Hops(u8),
}

/// A message. Its body is always the one that its kind carries.
#[derive(Drop)]
pub struct Message {
    kind: Kind,
    number: u16,
    body: Body,
    name: Name,
}

impl Model for Message {
    ghost use Rattle.std.specs.Prelude.{◌≡◌, true};
    ghost use Rattle.tsp_base.specs.Messages.{MessageValue, body_fits};

    ghost Value = { MessageValue };

    ghost view = { λ m. record { kind = m.kind; number = m.number; body = m.body; name = m.name } };

    ghost invariant = { λ m. body_fits m.kind m.body ≡ true };
}

impl Message {
    /// A message; None exactly where the body isn't the one that the kind carries.
    pub fn of(kind: Kind, number: u16, body: Body, name: Name) -> Option<Message>
        ensures variant { IsSome result ↔ (body_fits kind body ≡ true) }
        ensures value { IfSome result (λ m. m ≡ record {
          kind = kind;
          number = number;
          body = body;
          name = name;
        }) }
    {
        if fits(kind, &body) {
            Some(Message {
                kind,
                number,
                body,
                name,
            })
        } else {
            None
        }
    }

    /// A message, where the body is known to be the one that the kind carries.
    pub fn new(kind: Kind, number: u16, body: Body, name: Name) -> Message
        requires { body_fits kind body ≡ true }
        ensures { result ≡ record { kind = kind; number = number; body = body; name = name } }
    {
        Message {
            kind,
            number,
            body,
            name,
        }
    }

    /// What it asks or says.
    pub fn kind(&self) -> Kind
        ensures { result ≡ self.now.kind }
    {
        self.kind
    }

    /// The sequence number.
    pub fn number(&self) -> u16
        ensures { result ≡ self.now.number }
    {
        self.number
    }

    /// The time or the hops that it carries, if its kind does.
    pub fn body(&self) -> Body
        ensures body { result ≡ self.now.body }
        ensures fits { body_fits self.now.kind self.now.body ≡ true }
    {
        self.body
    }

    /// The sender's name, in most kinds.
    pub fn name(&self) -> &Name
        ensures { result.now ≡ self.now.name }
    {
        &self.name
    }

    /// The same message again.
    pub fn copy(&self) -> Message
        ensures { result ≡ self.now }
    {
        Message {
            kind: self.kind,
            number: self.number,
            body: self.body,
            name: self.name.copy(),
        }
    }
}

#[tactic(auto, unfolding(crate::specs::Messages::body_fits))]
fn fits(kind: Kind, body: &Body) -> bool
    ensures { result ≡ body_fits kind body.now }
{
    match body {
        Body::Time(_) => kind.carries_time(),
        Body::Hops(_) => kind.carries_hops(),
        Body::Nothing => !kind.carries_time() && !kind.carries_hops(),
    }
}
