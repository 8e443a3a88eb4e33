//! The configuration of a node with one port.
ghost use Rattle.std.specs.Prelude.{◌≡◌, ◌↔◌, true, IfOk};
ghost use Rattle.tsp_base.specs.Peers.{IsAscending};
ghost use Rattle.tsp_node.specs.Configs.{IsPort, IsPortSetup};

use std::alloc::{AllocError, Global};
use std::marker::Model;
use tsp_acks::me::Me;
use tsp_base::name::Name;
use tsp_base::place::PeerId;

/// The configuration of a node, for all its lives: its host name, its own number, all peers, whether it may be
/// master, and whether a candidate needs more than half of the peers to win.
#[derive(Drop)]
pub struct Config {
    name: Name,
    own: PeerId,
    peers: Vec<PeerId>,
    may: bool,
    strict: bool,
}

impl Model for Config {
    ghost use Rattle.tsp_node.specs.Configs.{ConfigValue};

    ghost Value = { ConfigValue };

    ghost view = { λ c. record {
      name = c.name;
      own = c.own;
      peers = c.peers.items;
      may = c.may;
      strict = c.strict;
    } };
}

impl Config {
    /// A configuration. `own` must be among the peers, at most 1,000 in ascending order; that is checked at the
    /// boot. Fails only if out of memory.
    pub fn new(
        alloc: Global,
        name: Name,
        own: PeerId,
        peers: &[PeerId],
        may: bool,
        strict: bool,
    ) -> Result<Config, AllocError>
        ensures { IfOk result (λ c. c ≡ record {
          name = name;
          own = own;
          peers = peers.now;
          may = may;
          strict = strict;
        }) }
    {
        let Ok(peers) = Vec::from_slice(alloc, peers) else {
            return Err(AllocError);
        };
        Ok(Config {
            name,
            own,
            peers,
            may,
            strict,
        })
    }

    /// All peers.
    pub(crate) fn peers(&self) -> &[PeerId]
        ensures { result.now ≡ self.now.peers }
    {
        self.peers.as_slice()
    }

    /// Whether these peers are allowed: at most 1,000, strictly ascending, the own number among them.
    pub(crate) fn is_port(&self) -> bool
        ensures { (result ≡ true) ↔ IsPort self.now }
    {
        is_port(self.own, self.peers.as_slice())
    }

    /// Who the node is after a boot with this word.
    pub(crate) fn me(&self, word: u64) -> Me
        ensures { result ≡ record {
          own = self.now.own;
          name = self.now.name;
          word = word;
          may = self.now.may;
          strict = self.now.strict;
        } }
    {
        Me {
            own: self.own,
            name: self.name.copy(),
            word,
            may: self.may,
            strict: self.strict,
        }
    }
}

/// Whether a port may have this own number and these peers: at most 1,000 peers, strictly ascending, the own
/// number among them.
pub fn is_port(own: PeerId, peers: &[PeerId]) -> bool
    ensures { (result ≡ true) ↔ IsPortSetup (record { own = own; peers = peers.now }) }
{
    if peers.len() > 1000 || !is_ascending(peers) {
        return false;
    }
    peers.contains(&own)
}

/// Whether peers are strictly ascending.
fn is_ascending(peers: &[PeerId]) -> bool
    ensures { (result ≡ true) ↔ IsAscending peers.now }
{
    peers.is_sorted_by(|p, q| p.0 < q.0)
}
