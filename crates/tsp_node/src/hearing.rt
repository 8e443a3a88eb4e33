//! What a port does with a message, by who handles its kind, and with a stamp reply.
ghost use Rattle.std.specs.Prelude.{◌≡◌, ℕ, ◌+◌, ◌*◌, ◌≤◌, length};
ghost use Rattle.tsp_base.specs.declared.datagram.Datagram.TheVariants.{Message as MessageOf};
ghost use Rattle.tsp_base.specs.declared.datagram.Taken.TheVariants.{Good};
ghost use Rattle.tsp_base.specs.declared.stamp.Stamp.TheVariants.{Reply};
ghost use Rattle.tsp_base.specs.Frames.{IsTick, UsesAtMost};
ghost use Rattle.tsp_base.specs.History.{Past};
ghost use Rattle.tsp_base.specs.Performs.{Performs};
ghost use Rattle.tsp_base.specs.Rows.{either_by, nothing};
ghost use Rattle.tsp_rules.specs.Answers.{from_peer, is_left, peer_replies, peer_says, handles_kind};
ghost use Rattle.tsp_slave.specs.Corrections.{TellsCorrection};
ghost use Rattle.tsp_node.specs.declared.audience.Audience.TheVariants.{OfDates, OfSends};
ghost use Rattle.tsp_node.specs.NodeStands.{PortStands, PortTook, TakeStands, TookStands, port_with, traced_with};

use crate::audience::{Audience, audience_of};
use crate::part::Part;
use crate::terms::TakeTerms;
use tsp_base::at::At;
use tsp_base::desk::Desk;
use tsp_base::message::Message;
use tsp_base::place::{PeerId, Place, Port};
use tsp_base::stamp::Stamp;
use tsp_clock::clock::Clock;
use tsp_date::take::date_take;

impl Part {
    ghost use Rattle.tsp_base.specs.PortFacts.{Received};
    ghost use Rattle.tsp_base.specs.Stamps.{ReplyValue};
    ghost use Rattle.tsp_clock.specs.Clocks.{ClockValue};
    ghost use Rattle.tsp_node.specs.Audiences.{audience_of, heard_from};

    /// Handles a message, by who handles its kind, and says whether that corrected the clock.
    pub(crate) fn hear<D: Desk>(
        &mut self,
        clock: &mut Clock,
        tracing: &mut bool,
        terms: TakeTerms,
        from: Place,
        m: &Message,
        desk: &mut D,
    ) -> bool
        requires room { 2 * length self.old.station.peers + 10 ≤ D.spare desk.old }
        requires tick { IsTick terms.at.tick }
        requires later { clock.old.at ≤ terms.at.tick }
        ensures row { Performs (TookStands (record { from = from; taken = Good (MessageOf m.now) }))
            TakeStands (either_by (is_left terms.steer m.now.kind) nothing
            (handles_kind terms.charge from m.now m.now.kind)) terms.at.tick terms.at.port
            (traced_with self.old clock.old tracing.old)
            (traced_with self.new clock.new tracing.new) (D.acts desk.old) (D.acts desk.new) }
        ensures corrects { (past : Past)
            → TookStands (record { from = from; taken = Good (MessageOf m.now) }) past
            (traced_with self.old clock.old tracing.old)
            → TellsCorrection result terms.at.port (D.acts desk.old) (D.acts desk.new) }
        ensures peers { self.new.station.peers ≡ self.old.station.peers }
        ensures clock { clock.new.at ≤ terms.at.tick }
        ensures room { UsesAtMost (2 * length self.old.station.peers + 10)
            D.spare D.acts desk.old desk.new }
    {
        let At { tick, port } = terms.at;
        match audience_of(m.kind()) {
            Audience::OfClients => {
                self.answer(tracing, tick, from, m, port, desk);
                false
            }
            Audience::OfDates => self.hear_date(clock, terms.charge, terms.at, from, m, desk),
            Audience::OfNode => false,
            Audience::OfRoles => self.hear_peer(clock, terms, from, m, desk),
            Audience::OfSends => {
                self.hear_ack(from, m, port, desk);
                false
            }
        }
    }

    /// Handles a message that sets the date, passes one on or says that one was set. Says whether the clock was
    /// set.
    fn hear_date<D: Desk>(
        &mut self,
        clock: &mut Clock,
        charge: bool,
        at: At,
        from: Place,
        m: &Message,
        desk: &mut D,
    ) -> bool
        requires room { 2 * length self.old.station.peers + 2 ≤ D.spare desk.old }
        requires tick { IsTick at.tick }
        requires later { clock.old.at ≤ at.tick }
        requires audience { audience_of m.now.kind ≡ OfDates }
        ensures row { Performs (PortTook (record { from = from; taken = Good (MessageOf m.now) }))
            PortStands (handles_kind charge from m.now m.now.kind) at.tick at.port
            (port_with self.old clock.old) (port_with self.new clock.new) (D.acts desk.old)
            (D.acts desk.new) }
        ensures corrects { (past : Past)
            → PortTook (record { from = from; taken = Good (MessageOf m.now) }) past
            (port_with self.old clock.old)
            → TellsCorrection result at.port (D.acts desk.old) (D.acts desk.new) }
        ensures peers { self.new.station.peers ≡ self.old.station.peers }
        ensures clock { clock.new.at ≤ at.tick }
        ensures room { UsesAtMost (2 * length self.old.station.peers + 2)
            D.spare D.acts desk.old desk.new }
    {
        let At { tick, port } = at;
        let corrected = date_take(
            &mut self.station,
            &mut self.master,
            &mut self.dates,
            clock,
            self.last.tick(),
            tick,
            from,
            m,
            charge,
            port,
            desk,
        );
        if corrected {
            self.last.moved(tick);
        }
        corrected
    }

    /// Handles an ACK of a peer, in the same way in every role: it ends the send that it answers.
    fn hear_ack<D: Desk>(&mut self, from: Place, m: &Message, port: Port, desk: &mut D)
        requires room { 1 ≤ D.spare desk.old }
        requires audience { audience_of m.now.kind ≡ OfSends }
        ensures row { (took : Received) (x : ℕ) (clock : ClockValue)
            → Performs (PortTook took) PortStands (from_peer from (peer_says m.now)) x port
            (port_with self.old clock) (port_with self.new clock) (D.acts desk.old)
            (D.acts desk.new) }
        ensures peers { self.new.station.peers ≡ self.old.station.peers }
        ensures room { UsesAtMost 1 D.spare D.acts desk.old desk.new }
    {
        if let Some(p) = self.heard(from) {
            let station = &mut self.station;
            self.master.acknowledge(station, p, m.number(), port, desk);
        }
    }

    /// Handles a stamp reply of a peer: to a master it gives a sample of the peer's clock. Requests are answered
    /// elsewhere (`reply`).
    pub(crate) fn hear_stamp<D: Desk>(
        &mut self,
        clock: &Clock,
        tick: u64,
        from: Place,
        stamp: &Stamp,
        port: Port,
        desk: &mut D,
    )
        requires room { 1 ≤ D.spare desk.old }
        requires tick { IsTick tick }
        requires later { clock.now.at ≤ tick }
        ensures row { (took : Received) (r : ReplyValue) → stamp.now ≡ Reply r
            → Performs (PortTook took) PortStands (from_peer from (peer_replies r)) tick port
            (port_with self.old clock.now) (port_with self.new clock.now) (D.acts desk.old)
            (D.acts desk.new) }
        ensures peers { self.new.station.peers ≡ self.old.station.peers }
        ensures room { UsesAtMost 1 D.spare D.acts desk.old desk.new }
    {
        let Some(p) = self.heard(from) else {
            return;
        };
        if self.leads() {
            self.master
                .reply(&self.station, clock, tick, p, stamp, port, desk);
        }
    }

    /// The sender, where the port heeds it: it is one of its peers, and the quiet time is over.
    pub(crate) fn heard(&self, from: Place) -> Option<PeerId>
        ensures { result ≡ heard_from self.now.station from }
    {
        let Place::Peer(p) = from else {
            return None;
        };
        if self.station.hears(p) { Some(p) } else { None }
    }
}
