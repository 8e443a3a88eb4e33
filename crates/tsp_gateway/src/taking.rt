//! What a gateway does with octets that it takes on one of its ports.
ghost use Rattle.std.specs.Prelude.{◌≡◌, ◌≢◌, ◌≤◌, ◌<◌, ◌+◌, ◌*◌, true, length};
ghost use Rattle.tsp_base.specs.declared.act.Act.TheVariants.{Took};
ghost use Rattle.tsp_base.specs.declared.datagram.Datagram.TheVariants.{Message as MessageOf};
ghost use Rattle.tsp_base.specs.declared.datagram.Taken.TheVariants.{Good};
ghost use Rattle.tsp_base.specs.Frames.{UsesAtMost};
ghost use Rattle.tsp_rules.specs.GateRows.{takes_message, takes_on};
ghost use Rattle.tsp_rules.specs.NodePerforms.{PerformsAll};
ghost use Rattle.tsp_gateway.specs.GateInputs.{HoldsNoMessage};
ghost use Rattle.tsp_gateway.specs.GatewayStands.{ComesAt, GatewayStands, clock_at, port_at};
ghost use Rattle.tsp_gateway.specs.Rooms.{peers_sum, peers_at, ports_in};

use crate::gateway::{Gateway, port_at};
use tsp_base::act::Act;
use tsp_base::datagram::{Datagram, Taken};
use tsp_base::desk::Desk;
use tsp_base::kind::Kind;
use tsp_base::message::Message;
use tsp_base::place::Place;

impl Gateway {
    ghost use Rattle.tsp_base.specs.Rows.{puts};
    ghost use Rattle.tsp_rules.specs.Answers.{takes};
    ghost use Rattle.tsp_rules.specs.NodeRows.{on};

    /// Takes, on a port, what was read of octets from `from`.
    #[inline(always)]
    pub(crate) fn take_in<D: Desk>(
        &mut self,
        tick: u64,
        q: usize,
        from: Place,
        taken: &Taken,
        desk: &mut D,
    )
        requires port { q < length (ports_in self.old) }
        requires room { 2 * peers_at q (ports_in self.old) + peers_sum
            (ports_in self.old) + 24 ≤ D.spare desk.old }
        requires tick { ComesAt tick self.old }
        ensures row { PerformsAll GatewayStands GatewayStands (takes_on (port_at q) from taken.now)
            tick self.old self.new (D.acts desk.old) (D.acts desk.new) }
        ensures ports { ports_in self.new ≡ ports_in self.old }
        ensures clock { clock_at self.new ≤ tick }
        ensures room { UsesAtMost
            (2 * peers_at q (ports_in self.old) + peers_sum (ports_in self.old) + 24)
            D.spare D.acts desk.old desk.new }
    {
        match taken {
            Taken::Good(Datagram::Message(m)) => match m.kind() {
                Kind::Loop => {
                    self.note(tick, q, from, taken, desk);
                    if self.hears(q, from) {
                        self.judge_loop(q, m, tick, desk);
                    }
                }
                _ => self.take_message(tick, q, from, m, taken, desk),
            },
            _ => self.take_other(tick, q, from, taken, desk),
        }
    }

    /// Takes a message that isn't a LOOP. Where that corrects the clock, the rounds of the other ports are
    /// given up; where it was a date, the port's own too.
    #[tactic(auto, using(crate::proofs::AnyLemmas::places, crate::proofs::AnyLemmas::ports_few))]
    fn take_message<D: Desk>(
        &mut self,
        tick: u64,
        q: usize,
        from: Place,
        m: &Message,
        taken: &Taken,
        desk: &mut D,
    )
        requires is { taken.now ≡ Good (MessageOf m.now) }
        requires port { q < length (ports_in self.old) }
        requires room { 2 * peers_at q (ports_in self.old) + 24 ≤ D.spare desk.old }
        requires tick { ComesAt tick self.old }
        ensures row { PerformsAll GatewayStands GatewayStands (takes_message (port_at q) from m.now)
            tick self.old self.new (D.acts desk.old) (D.acts desk.new) }
        ensures ports { ports_in self.new ≡ ports_in self.old }
        ensures clock { clock_at self.new ≤ tick }
        ensures room { UsesAtMost (2 * peers_at q (ports_in self.old) + 24)
            D.spare D.acts desk.old desk.new }
    {
        let steer = self.steers(q);
        let charge = self.in_charge(q);
        let clock = &mut self.clock;
        let tracing = &mut self.tracing;
        let port = port_at(q);
        let corrected = self.ports[q].take(
            clock, tracing, steer, charge, tick, from, taken, port, desk,
        );
        if corrected {
            self.upset(q, m.kind().sets_date(), tick, desk);
        }
    }

    /// Puts the Took of octets, and does nothing else with them.
    #[tactic(auto, using(crate::proofs::AnyLemmas::ports_few))]
    fn note<D: Desk>(&mut self, tick: u64, q: usize, from: Place, taken: &Taken, desk: &mut D)
        requires port { q < length (ports_in self.old) }
        requires room { 1 ≤ D.spare desk.old }
        ensures row { PerformsAll GatewayStands GatewayStands
            (on (port_at q) (puts (Took from taken.now))) tick self.old self.new (D.acts desk.old)
            (D.acts desk.new) }
        ensures ports { ports_in self.new ≡ ports_in self.old }
        ensures clock { clock_at self.new ≡ clock_at self.old }
        ensures room { UsesAtMost 1 D.spare D.acts desk.old desk.new }
    {
        desk.put(port_at(q), Act::Took(from, taken.copy()));
    }

    /// Takes octets that aren't a message: a stamp, or no datagram. They don't correct the clock.
    #[inline(always)]
    #[tactic(auto, using(crate::proofs::AnyLemmas::places, crate::proofs::AnyLemmas::ports_few))]
    fn take_other<D: Desk>(&mut self, tick: u64, q: usize, from: Place, taken: &Taken, desk: &mut D)
        requires other { HoldsNoMessage taken.now }
        requires port { q < length (ports_in self.old) }
        requires room { 2 * peers_at q (ports_in self.old) + 24 ≤ D.spare desk.old }
        requires tick { ComesAt tick self.old }
        ensures row { PerformsAll GatewayStands GatewayStands
            (on (port_at q) (takes true true from taken.now)) tick self.old self.new
            (D.acts desk.old) (D.acts desk.new) }
        ensures ports { ports_in self.new ≡ ports_in self.old }
        ensures clock { clock_at self.new ≤ tick }
        ensures room { UsesAtMost (2 * peers_at q (ports_in self.old) + 24)
            D.spare D.acts desk.old desk.new }
    {
        // Only a message asks which port steers the clock, and which is in charge of the date.
        let steer = true;
        let charge = true;
        let clock = &mut self.clock;
        let tracing = &mut self.tracing;
        let port = port_at(q);
        let _ = self.ports[q].take(clock, tracing, steer, charge, tick, from, taken, port, desk);
    }
}
