//! What a port answers to clients, whoever asks.
ghost use Rattle.std.specs.Prelude.{◌≡◌, Bool, ◌+◌, ◌≤◌, length};
ghost use Rattle.tsp_base.specs.declared.datagram.Datagram.TheVariants.{Message as MessageOf};
ghost use Rattle.tsp_base.specs.declared.datagram.Taken.TheVariants.{Good};
ghost use Rattle.tsp_base.specs.Frames.{IsTick, UsesAtMost};
ghost use Rattle.tsp_base.specs.Performs.{Performs};
ghost use Rattle.tsp_base.specs.PortFacts.{Received};
ghost use Rattle.tsp_rules.specs.Answers.{handles_kind};
ghost use Rattle.tsp_rules.specs.CommonRows.{tests};
ghost use Rattle.tsp_clock.specs.Clocks.{ClockValue};
ghost use Rattle.tsp_node.specs.declared.audience.Audience.TheVariants.{OfClients};
ghost use Rattle.tsp_node.specs.Audiences.{audience_of};
ghost use Rattle.tsp_node.specs.NodeStands.{PortStands, PortTook, TakeStands, TookStands, port_with, traced_with};

use crate::part::Part;
use tsp_base::desk::Desk;
use tsp_base::kind::Kind;
use tsp_base::message::Message;
use tsp_base::place::{Place, Port};
use tsp_clients::candidature::take_test;
use tsp_clients::naming::{name_master, say_master};
use tsp_clients::tracing::turn_trace;

impl Part {
    /// Answers a client's message: MSITE, MSITEREQ, TRACEON, TRACEOFF and TEST.
    pub(crate) fn answer<D: Desk>(
        &mut self,
        tracing: &mut bool,
        tick: u64,
        from: Place,
        m: &Message,
        port: Port,
        desk: &mut D,
    )
        requires room { length self.old.station.peers + 4 ≤ D.spare desk.old }
        requires tick { IsTick tick }
        requires audience { audience_of m.now.kind ≡ OfClients }
        ensures row { (charge : Bool) (clock : ClockValue)
            → Performs (TookStands (record { from = from; taken = Good (MessageOf m.now) }))
            TakeStands (handles_kind charge from m.now m.now.kind) tick port
            (traced_with self.old clock tracing.old) (traced_with self.new clock tracing.new)
            (D.acts desk.old) (D.acts desk.new) }
        ensures peers { self.new.station.peers ≡ self.old.station.peers }
        ensures room { UsesAtMost (length self.old.station.peers + 4)
            D.spare D.acts desk.old desk.new }
    {
        let number = m.number();
        match m.kind() {
            Kind::Msite => name_master(&self.station, &self.last, from, number, port, desk),
            Kind::MsiteReq => say_master(&self.station, from, number, port, desk),
            Kind::TraceOn => turn_trace(&self.station, tracing, true, from, number, port, desk),
            Kind::TraceOff => turn_trace(&self.station, tracing, false, from, number, port, desk),
            _ => self.test(tick, from, number, port, desk),
        }
    }

    /// Answers a TEST, and stands for election where the port may.
    fn test<D: Desk>(&mut self, tick: u64, from: Place, number: u16, port: Port, desk: &mut D)
        requires room { length self.old.station.peers + 4 ≤ D.spare desk.old }
        requires tick { IsTick tick }
        ensures row { (r : Received) (clock : ClockValue)
            → Performs (PortTook r) PortStands (tests from number) tick port
            (port_with self.old clock) (port_with self.new clock) (D.acts desk.old)
            (D.acts desk.new) }
        ensures peers { self.new.station.peers ≡ self.old.station.peers }
        ensures room { UsesAtMost (length self.old.station.peers + 4)
            D.spare D.acts desk.old desk.new }
    {
        let led = self.leads();
        take_test(&mut self.station, tick, from, number, port, desk);
        self.part_from(led);
    }
}
