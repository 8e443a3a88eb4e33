//! The due sends and the due alarms of a node, port by port.
ghost use Rattle.std.specs.Prelude.{◌≡◌, ◌≢◌, ◌≤◌, ◌<◌, ◌+◌, ◌*◌, ℕ, Option, true, false, not, length, Some, slice_get};
ghost use Rattle.tsp_base.specs.declared.alarm.Alarm.TheVariants.{Close, Probe};
ghost use Rattle.tsp_base.specs.declared.alarm.TheConstants.Alarm.{ALL};
ghost use Rattle.tsp_base.specs.Frames.{IsTick, UsesAtMost};
ghost use Rattle.tsp_rules.specs.Answers.{rings};
ghost use Rattle.tsp_rules.specs.GateRows.{alarm_on, alarms_on, all_ports, turns_on};
ghost use Rattle.tsp_rules.specs.NodePerforms.{PerformsAll};
ghost use Rattle.tsp_rules.specs.NodeRows.{for_ports, on, reading_all};
ghost use Rattle.tsp_rules.specs.SendRows.{due_sends};
ghost use Rattle.tsp_rules.specs.Guards.{is_over};
ghost use Rattle.tsp_node.specs.declared.part.Part.{Part};
ghost use Rattle.tsp_node.specs.Dues.{IsPartDue};
ghost use Rattle.tsp_gateway.specs.Dues.{HasProbed};
ghost use Rattle.tsp_gateway.specs.GatewayStands.{GatewayBegun, GatewayStands, GatewayTurning, clock_at, port_at};
ghost use Rattle.tsp_gateway.specs.Rooms.{alarm_room, alarms_room, peers_at, ports_in};
ghost use Rattle.tsp_gateway.specs.Rooms.{room_of_ports, turn_room, turns_room};

use crate::gateway::{Gateway, port_at};
use crate::leading::Asked;
use tsp_base::alarm::Alarm;
use tsp_base::desk::Desk;

impl Gateway {
    /// For every port in turn: repeats its due sends, and then handles its due alarms. Most turns end at once:
    /// nothing is due.
    #[inline(always)]
    pub(crate) fn turn_ports<D: Desk>(&mut self, tick: u64, desk: &mut D)
        requires room { room_of_ports (ports_in self.old) ≤ D.spare desk.old }
        requires tick { IsTick tick }
        requires later { clock_at self.old ≤ tick }
        ensures row { PerformsAll GatewayBegun GatewayStands
            (reading_all all_ports (for_ports turns_on)) tick self.old self.new (D.acts desk.old)
            (D.acts desk.new) }
        ensures ports { ports_in self.new ≡ ports_in self.old }
        ensures clock { clock_at self.new ≤ tick }
        ensures room { UsesAtMost (turns_room (ports_in self.old))
            D.spare D.acts desk.old desk.new }
    {
        for q in 0..self.ports.len() {
            if !self.is_idle(q, tick) {
                self.turn_port(q, tick, desk);
            }
        }
    }

    /// Repeats the due sends and then handles the due alarms of a port. It is kept out of the loop of ports.
    #[inline(never)]
    fn turn_port<D: Desk>(&mut self, q: usize, tick: u64, desk: &mut D)
        requires port { q < length (ports_in self.old) }
        requires room { turn_room (peers_at q (ports_in self.old)) ≤ D.spare desk.old }
        requires tick { IsTick tick }
        requires later { clock_at self.old ≤ tick }
        ensures row { PerformsAll (GatewayTurning q) (GatewayTurning (q + 1)) (turns_on (port_at q))
            tick self.old self.new (D.acts desk.old) (D.acts desk.new) }
        ensures ports { ports_in self.new ≡ ports_in self.old }
        ensures clock { clock_at self.new ≤ tick }
        ensures room { UsesAtMost (turn_room (peers_at q (ports_in self.old)))
            D.spare D.acts desk.old desk.new }
    {
        self.send(q, tick, desk);
        self.ring_alarms(q, tick, desk);
    }

    /// Whether neither a send nor an alarm of a port is due.
    fn is_idle(&self, q: usize, tick: u64) -> bool
        requires { q < length (ports_in self.now) }
        ensures { (part : Part) → slice_get self.now.ports.items q ≡ Some part
            → (due : Option ℕ) × IsPartDue part due × (result ≡ not (is_over due tick)) }
    {
        self.ports[q].rests(tick)
    }

    /// Handles the due alarms of a port, each when its turn comes.
    fn ring_alarms<D: Desk>(&mut self, q: usize, tick: u64, desk: &mut D)
        requires port { q < length (ports_in self.old) }
        requires room { alarms_room ALL (peers_at q (ports_in self.old)) + 8 ≤ D.spare desk.old }
        requires tick { IsTick tick }
        requires later { clock_at self.old ≤ tick }
        ensures row { PerformsAll (GatewayTurning (q + 1)) (GatewayTurning (q + 1))
            (alarms_on (port_at q)) tick self.old self.new (D.acts desk.old) (D.acts desk.new) }
        ensures ports { ports_in self.new ≡ ports_in self.old }
        ensures clock { clock_at self.new ≤ tick }
        ensures room { UsesAtMost (alarms_room ALL (peers_at q (ports_in self.old)))
            D.spare D.acts desk.old desk.new }
    {
        for alarm in &Alarm::ALL {
            self.ring_alarm(q, *alarm, tick, desk);
        }
    }

    /// Handles one alarm of a port where it is due: those of a round touch other ports, or wait for them. A
    /// Close comes after its Probe.
    fn ring_alarm<D: Desk>(&mut self, q: usize, alarm: Alarm, tick: u64, desk: &mut D)
        requires order { alarm ≡ Close → HasProbed q tick self.old }
        requires port { q < length (ports_in self.old) }
        requires room { alarm_room alarm (peers_at q (ports_in self.old)) + 8 ≤ D.spare desk.old }
        requires tick { IsTick tick }
        requires later { clock_at self.old ≤ tick }
        ensures row { PerformsAll (GatewayTurning (q + 1)) (GatewayTurning (q + 1))
            (alarm_on (port_at q) alarm) tick self.old self.new (D.acts desk.old)
            (D.acts desk.new) }
        ensures over { alarm ≡ Probe → HasProbed q tick self.new }
        ensures ports { ports_in self.new ≡ ports_in self.old }
        ensures clock { clock_at self.new ≤ tick }
        ensures room { UsesAtMost (alarm_room alarm (peers_at q (ports_in self.old)))
            D.spare D.acts desk.old desk.new }
    {
        match alarm {
            Alarm::Probe => self.probe(q, tick, desk),
            Alarm::Close => self.close(q, tick, desk),
            Alarm::Round => {
                let wait = self.any_other(q, Asked::Goes);
                self.ring(q, alarm, wait, tick, desk)
            }
            _ => self.ring(q, alarm, false, tick, desk),
        }
    }

    /// Repeats the due sends of a port.
    #[tactic(auto, using(crate::proofs::AnyLemmas::places, crate::proofs::AnyLemmas::ports_few))]
    fn send<D: Desk>(&mut self, q: usize, tick: u64, desk: &mut D)
        requires port { q < length (ports_in self.old) }
        requires room { 2 * peers_at q (ports_in self.old) + 16 ≤ D.spare desk.old }
        requires tick { IsTick tick }
        ensures row { PerformsAll (GatewayTurning q) (GatewayTurning (q + 1))
            (on (port_at q) due_sends) tick self.old self.new (D.acts desk.old) (D.acts desk.new) }
        ensures ports { ports_in self.new ≡ ports_in self.old }
        ensures clock { clock_at self.new ≡ clock_at self.old }
        ensures room { UsesAtMost (2 * peers_at q (ports_in self.old))
            D.spare D.acts desk.old desk.new }
    {
        self.ports[q].sends(tick, port_at(q), desk);
    }

    /// Handles one alarm of a port where it is due, but no Close: it leaves the other ports alone. `wait` says
    /// whether a Round that is in time is put off.
    #[tactic(auto, using(crate::proofs::AnyLemmas::places, crate::proofs::AnyLemmas::ports_few))]
    pub(crate) fn ring<D: Desk>(
        &mut self,
        q: usize,
        alarm: Alarm,
        wait: bool,
        tick: u64,
        desk: &mut D,
    )
        requires alarm { alarm ≢ Close }
        requires port { q < length (ports_in self.old) }
        requires room { 2 * peers_at q (ports_in self.old) + 16 ≤ D.spare desk.old }
        requires tick { IsTick tick }
        requires later { clock_at self.old ≤ tick }
        ensures row { PerformsAll (GatewayTurning (q + 1)) (GatewayTurning (q + 1))
            (on (port_at q) (rings true wait alarm)) tick self.old self.new (D.acts desk.old)
            (D.acts desk.new) }
        ensures over { alarm ≡ Probe → HasProbed q tick self.new }
        ensures ports { ports_in self.new ≡ ports_in self.old }
        ensures clock { clock_at self.new ≤ tick }
        ensures room { UsesAtMost (2 * peers_at q (ports_in self.old) + 4)
            D.spare D.acts desk.old desk.new }
    {
        let _ = self.ports[q].ring(&mut self.clock, alarm, true, wait, tick, port_at(q), desk);
    }
}
