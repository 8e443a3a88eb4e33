//! A node on several networks.
ghost use Rattle.std.specs.Prelude.{◌≡◌, ◌≤◌, ◌*◌, true, length, [], ◌∷◌, IfOk, IfErr, OnErr, vec_len, vec_capacity};
ghost use Rattle.tsp_base.specs.Frames.{IsTick, UsesAtMost};
ghost use Rattle.tsp_rules.specs.GateRows.{boots_all};
ghost use Rattle.tsp_rules.specs.NodePerforms.{PerformsAll};
ghost use Rattle.tsp_rules.specs.Guards.{is_clock_value};
ghost use Rattle.tsp_gateway.specs.GateConfigs.{AreGatePorts, GateBootsNot, UnbootedNode, peers_of_ports};

use crate::config::GateConfig;
use std::alloc::Global;
use tsp_base::act::Act;
use tsp_base::desk::Desk;
use tsp_base::place::Port;
use tsp_clock::clock::Clock;
use tsp_node::{BootFault, Part};

/// A node that has booted: its clock, whether its trace is on, and the state of each of its 1 to 4 ports.
pub struct Gateway {
    pub(crate) clock: Clock,
    pub(crate) tracing: bool,
    pub(crate) ports: Vec<Part>,
    ghost some: { 1 ≤ vec_len ports },
    ghost few: { vec_len ports ≤ 4 },
    ghost memory: { vec_capacity ports ≡ 4 },
}

// Not derived, so that whoever drops a node relies on this, and doesn't take its parts apart once more.
impl Drop for Gateway {
    fn drop(self) {
        let Gateway {
            clock: _,
            tracing: _,
            ports: _,
        } = self;
    }
}

/// The port on which a node boots.
pub(crate) const FIRST: Port = Port(0);

/// The port with this number.
pub(crate) fn port_at(q: usize) -> Port
    requires { q ≤ 4 }
    ensures { result ≡ record { 0 = q } }
{
    Port(q as u8)
}

impl Gateway {
    ghost use Rattle.tsp_gateway.specs.GatewayStands.{GatewayStands, clock_at};
    ghost use Rattle.tsp_gateway.specs.Rooms.{ports_in};

    /// Boots a node with a word, at a tick and a wall clock (microseconds since 1970): puts Boot, and
    /// Become(Starting) and Arm(Quiet) on each of its ports. `Peers` comes exactly where one of the ports
    /// isn't allowed, else `Range` exactly where the wall clock isn't strictly between -2^31 and 2^31
    /// seconds. Else it fails only if out of memory. Where it fails, nothing is put.
    pub fn boot<D: Desk>(
        alloc: Global,
        config: &GateConfig,
        tick: u64,
        wall: i64,
        word: u64,
        desk: &mut D,
    ) -> Result<Gateway, BootFault>
        requires ports { 1 ≤ length config.now.ports }
        requires room { 3 * length config.now.ports ≤ D.spare desk.old }
        requires tick { IsTick tick }
        ensures row { IfOk result (λ g. PerformsAll (UnbootedNode config.now word wall)
            GatewayStands boots_all tick tt g (D.acts desk.old) (D.acts desk.new)) }
        ensures ok { IfOk result (λ g. AreGatePorts config.now.ports × (is_clock_value wall ≡ true)
            × (ports_in g ≡ peers_of_ports config.now.ports) × (clock_at g ≡ tick)) }
        ensures err { IfErr result (λ fault. GateBootsNot config.now wall fault) }
        ensures refused { OnErr result (D.acts desk.new ≡ D.acts desk.old) }
        ensures room { UsesAtMost (3 * length config.now.ports) D.spare D.acts desk.old desk.new }
    {
        let mut gateway = Gateway::new(alloc, config, tick, wall, word)?;
        desk.put(FIRST, Act::Boot);
        gateway.begin_all(tick, desk);
        Ok(gateway)
    }
}
