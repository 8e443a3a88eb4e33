//! The alarms of a port's round, which affect the other ports of its node.
ghost use Rattle.std.specs.Prelude.{◌≡◌, ℕ, ◌≤◌, ◌<◌, ◌+◌, ◌*◌, ◌&&◌, nat_le, not};
ghost use Rattle.std.specs.Prelude.{length, is_some};
ghost use Rattle.tsp_base.specs.declared.alarm.Alarm.TheVariants.{Close, Probe};
ghost use Rattle.tsp_base.specs.Alarms.{deadline};
ghost use Rattle.tsp_base.specs.Frames.{IsTick, UsesAtMost};
ghost use Rattle.tsp_rules.specs.GateRows.{alarm_on, is_last_probe};
ghost use Rattle.tsp_rules.specs.NodePerforms.{PerformsAll};
ghost use Rattle.tsp_rules.specs.NodeRows.{NodePast, on_port};
ghost use Rattle.tsp_rules.specs.Guards.{is_due, is_in_time};
ghost use Rattle.tsp_gateway.specs.Dues.{HasProbed};
ghost use Rattle.tsp_gateway.specs.GatewayStands.{GatewayStands, GatewayTurning, clock_at, port_at};
ghost use Rattle.tsp_gateway.specs.Rooms.{peers_at, ports_in};

use crate::gateway::{Gateway, port_at};
use tsp_base::alarm::Alarm;
use tsp_base::alarms::Alarms;
use tsp_base::desk::Desk;

/// Whether a round is going, and its last Probe is over.
fn asks_no_more(alarms: &Alarms) -> bool
    ensures { result ≡ (is_some (deadline alarms.now Close) && not
        (is_some (deadline alarms.now Probe))) }
{
    alarms.at(Alarm::Close).is_some() && alarms.at(Alarm::Probe).is_none()
}

impl Gateway {
    /// Handles a port's Probe where it is due. Where the node has several ports, it posts a LOOP to each
    /// other peer of the port after the last Probe of a round.
    pub(crate) fn probe<D: Desk>(&mut self, q: usize, tick: u64, desk: &mut D)
        requires port { q < length (ports_in self.old) }
        requires room { 3 * peers_at q (ports_in self.old) + 16 ≤ D.spare desk.old }
        requires tick { IsTick tick }
        requires later { clock_at self.old ≤ tick }
        ensures row { PerformsAll (GatewayTurning (q + 1)) (GatewayTurning (q + 1))
            (alarm_on (port_at q) Probe) tick self.old self.new (D.acts desk.old)
            (D.acts desk.new) }
        ensures over { HasProbed q tick self.new }
        ensures ports { ports_in self.new ≡ ports_in self.old }
        ensures clock { clock_at self.new ≤ tick }
        ensures room { UsesAtMost (3 * peers_at q (ports_in self.old) + 4)
            D.spare D.acts desk.old desk.new }
    {
        let rung = self.probe_rings(q, tick);
        self.ring(q, Alarm::Probe, false, tick, desk);
        if rung && self.ends_probes(q) {
            self.send_loops(q, desk);
        }
    }

    /// Whether a port's Probe is due and in time.
    fn probe_rings(&self, q: usize, tick: u64) -> bool
        requires { q < length (ports_in self.now) }
        ensures { (past : NodePast) → GatewayStands past self.now
            → result ≡ (is_due Probe tick (on_port (port_at q) past) && is_in_time Probe tick
            (on_port (port_at q) past)) }
    {
        let station = self.ports[q].station();
        station.is_due(Alarm::Probe, tick) && station.is_in_time(Alarm::Probe, tick)
    }

    /// Whether the last Probe of a port's round is over, at a node of several ports.
    fn ends_probes(&self, q: usize) -> bool
        requires { q < length (ports_in self.now) }
        ensures { (past : NodePast) → GatewayStands past self.now
            → result ≡ (is_last_probe (on_port (port_at q) past) && nat_le 2 (length past.ports)) }
    {
        asks_no_more(&self.ports[q].station().alarms) && self.ports.len() >= 2
    }

    /// Handles a port's Close where it is due: it moves the clock where the port leads it, and then the
    /// rounds of the other ports are given up. The caller handles a due Probe before.
    #[tactic(auto, using(crate::proofs::AnyLemmas::places, crate::proofs::AnyLemmas::ports_few))]
    pub(crate) fn close<D: Desk>(&mut self, q: usize, tick: u64, desk: &mut D)
        requires port { q < length (ports_in self.old) }
        requires room { 2 * peers_at q (ports_in self.old) + 16 ≤ D.spare desk.old }
        requires tick { IsTick tick }
        requires later { clock_at self.old ≤ tick }
        requires order { HasProbed q tick self.old }
        ensures row { PerformsAll (GatewayTurning (q + 1)) (GatewayTurning (q + 1))
            (alarm_on (port_at q) Close) tick self.old self.new (D.acts desk.old)
            (D.acts desk.new) }
        ensures ports { ports_in self.new ≡ ports_in self.old }
        ensures clock { clock_at self.new ≤ tick }
        ensures room { UsesAtMost (2 * peers_at q (ports_in self.old) + 8)
            D.spare D.acts desk.old desk.new }
    {
        let own = self.leads_clock(q);
        let clock = &mut self.clock;
        if self.ports[q].ring(clock, Alarm::Close, own, false, tick, port_at(q), desk) {
            self.upset(q, false, tick, desk);
        }
    }
}
