//! How a station's numbered sends begin.
ghost use Rattle.std.specs.Prelude.{◌≡◌, ◌+◌, ◌%◌, ◌≤◌, true, length, Some, [], ◌∷◌, ◌++◌};
ghost use Rattle.tsp_base.specs.declared.act.Act.TheVariants.{Post};
ghost use Rattle.tsp_base.specs.declared.datagram.Datagram.TheVariants.{Message as MessageOf};
ghost use Rattle.tsp_base.specs.declared.place.Place.TheVariants.{Peer};
ghost use Rattle.tsp_base.specs.Rows.{bare, timed, placed, posts_time};
ghost use Rattle.tsp_base.specs.SendFacts.{is_correction, is_set_date_request};
ghost use Rattle.tsp_rules.specs.SendRows.{begins, begins_timed, begins_to_others};
ghost use Rattle.tsp_sends.specs.Slots.{SetsOnly};
ghost use Rattle.tsp_acks.specs.Calls.{Contains, IsTick, Performs, Uses, UsesAtMost, ChangesSends};
ghost use Rattle.tsp_acks.specs.Openings.{is_bare_send};

use crate::station::Station;
use tsp_base::act::Act;
use tsp_base::at::At;
use tsp_base::datagram::Datagram;
use tsp_base::desk::Desk;
use tsp_base::kind::Kind;
use tsp_base::message::{Body, Message};
use tsp_base::micros::Micros;
use tsp_base::place::{PeerId, Place, Port};

impl Station {
    ghost use Rattle.tsp_acks.specs.Stands.{StandsActing, own_number};

    /// Begins an ELECTION, a CONFLICT or a QUIT to one of the peers, with the port's next own
    /// number. It replaces the open send to that peer. Before it in the step, an alarm must have
    /// been handled or a datagram taken.
    pub fn begin<D: Desk>(&mut self, kind: Kind, p: PeerId, tick: u64, port: Port, desk: &mut D)
        requires room { 1 ≤ D.spare desk.old }
        requires kind { is_bare_send kind ≡ true }
        requires peer { Contains self.old.peers p }
        requires tick { IsTick tick }
        ensures row { Performs StandsActing StandsActing (begins kind p) tick port self.old
            self.new (D.acts desk.old) (D.acts desk.new) }
        ensures sends { SetsOnly p
            (Some (record {
              began = tick;
              posts = 1;
              message = bare kind (own_number self.old)
                  self.old.me.name;
            })) self.old.sends self.new.sends }
        ensures rest { ChangesSends self.old self.new }
        ensures begun { self.new.begun ≡ (self.old.begun + 1) % 32768 }
        ensures room { Uses 1 D.spare D.acts desk.old desk.new }
    {
        let message = Message::new(kind, self.next_number(), Body::Nothing, self.me.name.copy());
        self.open(p, message, tick, port, desk);
        self.begun = (self.begun + 1) % 32768;
    }

    /// Begins a SETDATEREQ with a time to one of the peers, as [`Station::begin`] does.
    pub fn begin_timed<D: Desk>(
        &mut self,
        kind: Kind,
        p: PeerId,
        time: Micros,
        tick: u64,
        port: Port,
        desk: &mut D,
    )
        requires room { 1 ≤ D.spare desk.old }
        requires kind { is_set_date_request kind ≡ true }
        requires peer { Contains self.old.peers p }
        requires tick { IsTick tick }
        ensures row { Performs StandsActing StandsActing (begins_timed kind p time) tick port
            self.old self.new (D.acts desk.old) (D.acts desk.new) }
        ensures sends { SetsOnly p
            (Some (record {
              began = tick;
              posts = 1;
              message = timed kind (own_number self.old) time
                  self.old.me.name;
            })) self.old.sends self.new.sends }
        ensures rest { ChangesSends self.old self.new }
        ensures begun { self.new.begun ≡ (self.old.begun + 1) % 32768 }
        ensures room { Uses 1 D.spare D.acts desk.old desk.new }
    {
        let message = Message::new(
            kind,
            self.next_number(),
            Body::Time(time),
            self.me.name.copy(),
        );
        self.open(p, message, tick, port, desk);
        self.begun = (self.begun + 1) % 32768;
    }

    /// Begins an ADJTIME or a SETTIME to one of the peers, under the number that the peer's ticket gave. It
    /// replaces the open send to that peer. The caller checks that a correction may begin. Before it in the
    /// step, an alarm must have been handled or a datagram taken.
    pub fn begin_correction<D: Desk>(
        &mut self,
        kind: Kind,
        p: PeerId,
        number: u16,
        time: Micros,
        at: At,
        desk: &mut D,
    )
        requires room { 1 ≤ D.spare desk.old }
        requires kind { is_correction kind ≡ true }
        requires peer { Contains self.old.peers p }
        requires tick { IsTick at.tick }
        ensures row { Performs StandsActing StandsActing (posts_time p kind number time) at.tick
            at.port self.old self.new (D.acts desk.old) (D.acts desk.new) }
        ensures sends { SetsOnly p
            (Some (record {
              began = at.tick;
              posts = 1;
              message = timed kind number time
                  self.old.me.name;
            })) self.old.sends self.new.sends }
        ensures rest { ChangesSends self.old self.new }
        ensures begun { self.new.begun ≡ self.old.begun }
        ensures room { Uses 1 D.spare D.acts desk.old desk.new }
    {
        let message = Message::new(kind, number, Body::Time(time), self.me.name.copy());
        self.open(p, message, at.tick, at.port, desk);
    }

    /// Begins a send to each other peer, ascending, each with its own number.
    pub fn begin_to_others<D: Desk>(&mut self, kind: Kind, tick: u64, port: Port, desk: &mut D)
        requires room { length self.old.peers ≤ D.spare desk.old }
        requires kind { is_bare_send kind ≡ true }
        requires tick { IsTick tick }
        ensures row { Performs StandsActing StandsActing (begins_to_others kind) tick port
            self.old self.new (D.acts desk.old) (D.acts desk.new) }
        ensures rest { ChangesSends self.old self.new }
        ensures room { UsesAtMost (length self.old.peers) D.spare D.acts desk.old desk.new }
    {
        for place in 0..self.peers.as_slice().len() {
            let p = self.peers.as_slice()[place];
            if p.0 != self.me.own.0 {
                self.begin(kind, p, tick, port, desk);
            }
        }
    }

    /// Posts a message to one of the peers, and opens its send.
    fn open<D: Desk>(&mut self, p: PeerId, message: Message, tick: u64, port: Port, desk: &mut D)
        requires room { 1 ≤ D.spare desk.old }
        requires peer { Contains self.old.peers p }
        requires tick { IsTick tick }
        ensures acts { D.acts desk.new ≡ D.acts desk.old ++ placed port
            (Post (Peer p) (MessageOf message) ∷ []) }
        ensures sends { SetsOnly p (Some (record { began = tick; posts = 1; message = message }))
            self.old.sends self.new.sends }
        ensures rest { ChangesSends self.old self.new }
        ensures begun { self.new.begun ≡ self.old.begun }
        ensures room { Uses 1 D.spare D.acts desk.old desk.new }
    {
        let datagram = Datagram::Message(message.copy());
        desk.put(port, Act::Post(Place::Peer(p), datagram));
        self.sends.begin(p, message, tick);
    }
}
