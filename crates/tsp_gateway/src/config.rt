//! The configuration of a gateway.
ghost use Rattle.std.specs.Prelude.{◌≡◌, ◌<◌, ◌≤◌, ◌↔◌, true, length, [], ◌∷◌, ◌++◌};
ghost use Rattle.std.specs.Prelude.{slice_index_or, IfOk, OnOk, OnErr, IfErr};
ghost use Rattle.tsp_rules.specs.NodeRows.{PortSetup};
ghost use Rattle.tsp_node.specs.Configs.{IsPortSetup};
ghost use Rattle.tsp_gateway.specs.GateConfigs.{AreGatePorts};
ghost use Rattle.tsp_gateway.specs.declared.fault.PortFault.TheVariants.{Full};

use crate::fault::PortFault;
use std::alloc::{AllocError, Global};
use std::marker::Model;
use tsp_acks::me::Me;
use tsp_base::name::Name;
use tsp_base::place::PeerId;
use tsp_node::is_port;

/// The configuration of a port: the node's own number on its network, and all peers there.
#[derive(Drop)]
pub struct PortConfig {
    own: PeerId,
    peers: Vec<PeerId>,
}

impl Model for PortConfig {
    ghost use Rattle.tsp_rules.specs.NodeRows.{PortSetup};

    ghost Value = { PortSetup };

    ghost view = { λ c. record { own = c.own; peers = c.peers.items } };
}

/// The configuration of a gateway, for all its lives: its host name, whether it may be master, whether a
/// candidate needs more than half of a port's peers to win, and its ports, at most 4, in their order.
#[derive(Drop)]
pub struct GateConfig {
    alloc: Global,
    name: Name,
    may: bool,
    strict: bool,
    ports: Vec<PortConfig>,
}

impl Model for GateConfig {
    ghost use Rattle.std.specs.Prelude.{◌≤◌, length};
    ghost use Rattle.tsp_gateway.specs.GateConfigs.{GateConfigValue};

    ghost Value = { GateConfigValue };

    ghost view = { λ c. record {
      name = c.name;
      may = c.may;
      strict = c.strict;
      ports = c.ports.items;
    } };

    ghost invariant = { λ c. length c.ports.items ≤ 4 };
}

impl GateConfig {
    /// A configuration without ports. Fails only if out of memory.
    pub fn new(alloc: Global, name: Name, may: bool, strict: bool) -> Result<GateConfig, AllocError>
        ensures { IfOk result (λ c. c ≡ record {
          name = name;
          may = may;
          strict = strict;
          ports = [];
        }) }
    {
        let ports = Vec::with_capacity(alloc, 4)?;
        Ok(GateConfig {
            alloc,
            name,
            may,
            strict,
            ports,
        })
    }

    /// Adds a port, with the node's own number and all peers there. The number must be among the peers, at
    /// most 1,000 in ascending order; that is checked at the boot. `Full` comes exactly where there are 4
    /// ports already. Else it fails only if out of memory. A refusal changes nothing.
    pub fn port(&mut self, own: PeerId, peers: &[PeerId]) -> Result<(), PortFault>
        ensures ok { OnOk result ((length self.old.ports < 4)
            × (self.new ≡ record self.old {
              ports = self.old.ports ++ record {
                own = own;
                peers = peers.now;
              } ∷ [];
            })) }
        ensures full { IfErr result (λ fault. (fault ≡ Full) ↔ (length self.old.ports ≡ 4)) }
        ensures kept { OnErr result (self.new ≡ self.old) }
    {
        if self.ports.len() >= 4 {
            return Err(PortFault::Full);
        }
        let Ok(peers) = Vec::from_slice(self.alloc, peers) else {
            return Err(PortFault::OutOfMemory);
        };
        let Ok(()) = self.ports.push(PortConfig { own, peers }) else {
            return Err(PortFault::OutOfMemory);
        };
        Ok(())
    }

    /// How many ports it has.
    pub(crate) fn ports(&self) -> usize
        ensures value { result ≡ length self.now.ports }
        ensures few { result ≤ 4 }
    {
        self.ports.len()
    }

    /// All peers of a port.
    pub(crate) fn peers(&self, q: usize) -> &[PeerId]
        requires { q < length self.now.ports }
        ensures { (d : PortSetup) → result.now ≡ (slice_index_or self.now.ports q d).peers }
    {
        self.ports[q].peers.as_slice()
    }

    /// Whether these ports are allowed: on each at most 1,000 peers, strictly ascending, the own
    /// number among them.
    pub(crate) fn are_ports(&self) -> bool
        ensures value { (result ≡ true) ↔ AreGatePorts self.now.ports }
        ensures few { length self.now.ports ≤ 4 }
    {
        for q in 0..self.ports.len() {
            if !self.ports[q].is_port() {
                return false;
            }
        }
        true
    }

    /// Who the node is on a port after a boot with this word.
    pub(crate) fn me(&self, q: usize, word: u64) -> Me
        requires { q < length self.now.ports }
        ensures { (d : PortSetup)
            → result ≡ record {
              own = (slice_index_or self.now.ports q d).own;
              name = self.now.name;
              word = word;
              may = self.now.may;
              strict = self.now.strict;
            } }
    {
        Me {
            own: self.ports[q].own,
            name: self.name.copy(),
            word,
            may: self.may,
            strict: self.strict,
        }
    }
}

impl PortConfig {
    /// Whether this port is allowed: at most 1,000 peers, strictly ascending, the own number among them.
    fn is_port(&self) -> bool
        ensures { (result ≡ true) ↔ IsPortSetup self.now }
    {
        is_port(self.own, self.peers.as_slice())
    }
}
