//! How a gateway boots.
ghost use Rattle.std.specs.Prelude.{◌≡◌, ◌≤◌, ◌<◌, ◌*◌, ℤ, true, length, [], ◌∷◌, IfOk, IfErr, vec_capacity};
ghost use Rattle.tsp_base.specs.declared.act.Act.TheVariants.{Boot};
ghost use Rattle.tsp_base.specs.declared.place.PeerId.{PeerId};
ghost use Rattle.tsp_base.specs.Frames.{IsTick, UsesAtMost};
ghost use Rattle.tsp_base.specs.Joins.{first_port};
ghost use Rattle.tsp_rules.specs.GateRows.{all_ports, boots_on};
ghost use Rattle.tsp_rules.specs.NodePerforms.{PerformsAll};
ghost use Rattle.tsp_rules.specs.NodeRows.{NodePast, for_ports, reading_all, spread};
ghost use Rattle.tsp_rules.specs.Guards.{is_clock_value};
ghost use Rattle.tsp_gateway.specs.GateConfigs.{AreGatePorts, GateBootsNot, UnbootedNode, peers_of_ports};
ghost use Rattle.tsp_gateway.specs.GatewayStands.{GatewayStands, clock_at, port_at};
ghost use Rattle.tsp_gateway.specs.PartsFresh.{AreFresh};
ghost use Rattle.tsp_gateway.specs.Rooms.{ports_in};

use crate::config::GateConfig;
use crate::gateway::{Gateway, port_at};
use std::alloc::{AllocError, Global};
use tsp_base::desk::Desk;
use tsp_clock::clock::Clock;
use tsp_node::{BootFault, Part};

/// The state of each port of a node that boots, in memory for four ports. Fails only if out of memory.
fn parts_of(
    alloc: Global,
    config: &GateConfig,
    tick: u64,
    word: u64,
) -> Result<Vec<Part>, AllocError>
    requires { AreGatePorts config.now.ports }
    ensures fresh { IfOk result (λ parts. AreFresh config.now word tick parts.items) }
    ensures memory { IfOk result (λ parts. vec_capacity parts ≡ 4) }
{
    let mut parts = Vec::with_capacity(alloc, 4)?;
    for q in 0..config.ports() {
        let part = Part::new(alloc, config.me(q, word), config.peers(q), tick)?;
        parts.push_reserved(part);
    }
    Ok(parts)
}

impl Gateway {
    /// A node right after its Boot, or why it doesn't boot.
    pub(crate) fn new(
        alloc: Global,
        config: &GateConfig,
        tick: u64,
        wall: i64,
        word: u64,
    ) -> Result<Gateway, BootFault>
        requires ports { 1 ≤ length config.now.ports }
        requires tick { IsTick tick }
        ensures stands { IfOk result (λ g. (past : NodePast)
            → UnbootedNode config.now word wall past tt
            → GatewayStands (spread tick past (record { port = first_port; act = Boot } ∷ [])) g) }
        ensures ok { IfOk result (λ g. AreGatePorts config.now.ports × (is_clock_value wall ≡ true)
            × (ports_in g ≡ peers_of_ports config.now.ports) × (clock_at g ≡ tick)) }
        ensures err { IfErr result (λ fault. GateBootsNot config.now wall fault) }
    {
        if !config.are_ports() {
            return Err(BootFault::Peers);
        }
        let Ok(clock) = Clock::boot(tick, wall, word) else {
            return Err(BootFault::Range);
        };
        let Ok(ports) = parts_of(alloc, config, tick, word) else {
            return Err(BootFault::OutOfMemory);
        };
        Ok(Gateway {
            clock,
            tracing: false,
            ports,
        })
    }

    /// Goes on right after the Boot on every port: Starting, until the quiet time ends.
    pub(crate) fn begin_all<D: Desk>(&mut self, tick: u64, desk: &mut D)
        requires tick { IsTick tick }
        requires room { 2 * length (ports_in self.old) ≤ D.spare desk.old }
        ensures row { PerformsAll GatewayStands GatewayStands
            (reading_all all_ports (for_ports boots_on)) tick self.old self.new (D.acts desk.old)
            (D.acts desk.new) }
        ensures ports { ports_in self.new ≡ ports_in self.old }
        ensures clock { clock_at self.new ≡ clock_at self.old }
        ensures room { UsesAtMost (2 * length (ports_in self.old))
            D.spare D.acts desk.old desk.new }
    {
        for q in 0..self.ports.len() {
            self.begin(q, tick, desk);
        }
    }

    /// Goes on right after the Boot on a port.
    #[tactic(auto, using(crate::proofs::AnyLemmas::places, crate::proofs::AnyLemmas::ports_few))]
    fn begin<D: Desk>(&mut self, q: usize, tick: u64, desk: &mut D)
        requires port { q < length (ports_in self.old) }
        requires tick { IsTick tick }
        requires room { 2 ≤ D.spare desk.old }
        ensures row { PerformsAll GatewayStands GatewayStands (boots_on (port_at q)) tick self.old
            self.new (D.acts desk.old) (D.acts desk.new) }
        ensures ports { ports_in self.new ≡ ports_in self.old }
        ensures clock { clock_at self.new ≡ clock_at self.old }
        ensures room { UsesAtMost 2 D.spare D.acts desk.old desk.new }
    {
        self.ports[q].begin(tick, port_at(q), desk);
    }
}
