//! What a correction of the clock by one port does to the others.
ghost use Rattle.std.specs.Prelude.{◌≡◌, ◌≤◌, ◌<◌, ℕ, length};
ghost use Rattle.tsp_base.specs.Frames.{UsesAtMost};
ghost use Rattle.tsp_rules.specs.NodePerforms.{PerformsAll};
ghost use Rattle.tsp_rules.specs.NodeRows.{NodePast, abandons_on, for_ports, reading_all};
ghost use Rattle.tsp_gateway.specs.GatewayStands.{GatewayStands, clock_at, port_at};
ghost use Rattle.tsp_gateway.specs.Rooms.{ports_in};
ghost use Rattle.tsp_gateway.specs.Untold.{Untold, is_upset, upset_ports};

use crate::gateway::{Gateway, port_at};
use tsp_base::desk::Desk;

/// Whether a correction by port `q` ends the round of port `r`: that is another port, or `whole` is true.
fn is_upset(whole: bool, q: usize, r: usize) -> bool
    ensures { result ≡ is_upset whole q (port_at r) }
{
    whole || r != q
}

impl Gateway {
    /// Notes at the other ports that this one has corrected the clock at this tick, and gives up their
    /// rounds; where `whole` is true, its own too.
    pub(crate) fn upset<D: Desk>(&mut self, q: usize, whole: bool, tick: u64, desk: &mut D)
        requires room { length (ports_in self.old) ≤ D.spare desk.old }
        ensures row { (x : ℕ)
            → PerformsAll (Untold q tick) GatewayStands (reading_all (upset_ports whole (port_at q))
            (for_ports abandons_on)) x self.old self.new (D.acts desk.old) (D.acts desk.new) }
        ensures ports { ports_in self.new ≡ ports_in self.old }
        ensures clock { clock_at self.new ≡ clock_at self.old }
        ensures room { UsesAtMost (length (ports_in self.old)) D.spare D.acts desk.old desk.new }
    {
        self.tell(q, tick);
        self.abandon_each(q, whole, desk);
    }

    /// Notes at the other ports that this one has corrected the clock at this tick.
    fn tell(&mut self, q: usize, tick: u64)
        ensures stands { (past : NodePast) → Untold q tick past self.old
            → GatewayStands past self.new }
        ensures ports { ports_in self.new ≡ ports_in self.old }
        ensures clock { clock_at self.new ≡ clock_at self.old }
    {
        for r in 0..self.ports.len() {
            if r != q {
                self.ports[r].moved(tick);
            }
        }
    }

    /// Gives up the rounds of the other ports; where `whole` is true, this one's too.
    fn abandon_each<D: Desk>(&mut self, q: usize, whole: bool, desk: &mut D)
        requires room { length (ports_in self.old) ≤ D.spare desk.old }
        ensures row { (x : ℕ)
            → PerformsAll GatewayStands GatewayStands (reading_all (upset_ports whole (port_at q))
            (for_ports abandons_on)) x self.old self.new (D.acts desk.old) (D.acts desk.new) }
        ensures ports { ports_in self.new ≡ ports_in self.old }
        ensures clock { clock_at self.new ≡ clock_at self.old }
        ensures room { UsesAtMost (length (ports_in self.old)) D.spare D.acts desk.old desk.new }
    {
        for r in 0..self.ports.len() {
            if is_upset(whole, q, r) {
                self.abandon(r, desk);
            }
        }
    }

    /// Gives up the round of a port, where one is going.
    #[tactic(auto, using(crate::proofs::AnyLemmas::places, crate::proofs::AnyLemmas::ports_few))]
    fn abandon<D: Desk>(&mut self, r: usize, desk: &mut D)
        requires port { r < length (ports_in self.old) }
        requires room { 1 ≤ D.spare desk.old }
        ensures row { (x : ℕ) → PerformsAll GatewayStands GatewayStands (abandons_on (port_at r)) x
            self.old self.new (D.acts desk.old) (D.acts desk.new) }
        ensures ports { ports_in self.new ≡ ports_in self.old }
        ensures clock { clock_at self.new ≡ clock_at self.old }
        ensures room { UsesAtMost 1 D.spare D.acts desk.old desk.new }
    {
        self.ports[r].abandon(port_at(r), desk);
    }
}
