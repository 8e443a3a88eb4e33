//! A datagram as a node takes it, put together in a place that is kept.
ghost use Rattle.std.specs.Prelude.{◌≡◌, true};
ghost use Rattle.tsp_base.specs.Messages.{body_fits};
ghost use Rattle.tsp_base.specs.Names.{IsName};
ghost use Rattle.tsp_base.specs.declared.datagram.Datagram.{Datagram};
ghost use Rattle.tsp_base.specs.declared.datagram.Taken.TheVariants.{Good};
ghost use Rattle.tsp_base.specs.declared.stamp.Stamp.{Stamp as StampValue};

use std::marker::Model;
use tsp_base::datagram::{Datagram, Taken};
use tsp_base::kind::Kind;
use tsp_base::message::{Body, Message};
use tsp_base::name::Name;
use tsp_base::stamp::Stamp;

/// A datagram, as it is taken. Its place is used again for the next one, since a datagram takes much room, which isn't
/// cleared anew each time then. Stamps and messages each have a place of their own.
#[derive(Drop)]
pub struct Parcel {
    stamp: Taken,
    message: Taken,
    /// Whether it is the stamp that is taken.
    has_stamp: bool,
}

impl Model for Parcel {
    ghost use Rattle.std.specs.Prelude.{◌≡◌, true, if◌then◌else◌};
    ghost use Rattle.tsp_base.specs.declared.datagram.Taken.{Taken as TakenValue};
    ghost use Rattle.tsp_networks.specs.Parcels.{is_message, is_stamp};

    ghost Value = { TakenValue };

    ghost view = { λ p. if p.has_stamp then p.stamp else p.message };

    ghost invariant = { λ p. (is_stamp p.stamp ≡ true) × (is_message p.message ≡ true) };
}

impl Parcel {
    /// A request with the word 0.
    pub fn new() -> Parcel
        ensures { result ≡ Good (Datagram.Stamp (StampValue.Request 0 0)) }
    {
        let stamp = Stamp::Request {
            word: 0,
            counter: 0,
        };
        let message = Message::new(Kind::Quit, 0, Body::Nothing, Name::empty());
        Parcel {
            stamp: Taken::Good(Datagram::Stamp(stamp)),
            message: Taken::Good(Datagram::Message(message)),
            has_stamp: true,
        }
    }

    /// Makes it this stamp.
    #[inline(always)]
    pub fn put_stamp(&mut self, stamp: Stamp)
        ensures { self.new ≡ Good (Datagram.Stamp stamp) }
    {
        self.has_stamp = true;
        match &mut self.stamp {
            Taken::Good(datagram) => match datagram {
                Datagram::Stamp(place) => *place = stamp,
                Datagram::Message(_) => unreachable!(),
            },
            Taken::Bad(_) => unreachable!(),
        }
    }

    /// Makes it the message with this name.
    #[inline(always)]
    pub fn put_message(&mut self, kind: Kind, number: u16, body: Body, name: &[u8])
        requires name { IsName name.now }
        requires body { body_fits kind body ≡ true }
        ensures { self.new ≡ Good (Datagram.Message (record {
          kind = kind;
          number = number;
          body = body;
          name = name.now;
        })) }
    {
        self.has_stamp = false;
        match &mut self.message {
            Taken::Good(datagram) => match datagram {
                Datagram::Message(place) => {
                    *place = Message::new(kind, number, body, Name::new(name));
                }
                Datagram::Stamp(_) => unreachable!(),
            },
            Taken::Bad(_) => unreachable!(),
        }
    }

    /// The datagram, as it is taken.
    #[inline(always)]
    pub fn taken(&self) -> &Taken
        ensures { result.now ≡ self.now }
    {
        if self.has_stamp {
            &self.stamp
        } else {
            &self.message
        }
    }
}
