//! The configurations of a schedule's nodes.
ghost use Rattle.std.specs.Prelude.{◌≡◌, [], ◌∷◌, ◌++◌, length, vec_len, replicate, None, IfOk, OnOk};
ghost use Rattle.tsp_run.specs.Networks.{networks, ports_on};
ghost use Rattle.tsp_world.specs.Configs.{configs_below};

use std::alloc::{AllocError, Global};
use tsp_base::header::{Header, NodeLine};
use tsp_base::members::Members;
use tsp_base::place::PeerId;
use tsp_gateway::GateConfig;
use tsp_networks::peers_of;

/// The configuration of each node of a header, in order, on these networks. Fails only if out of memory.
pub(crate) fn configs_of(
    alloc: Global,
    header: &Header,
    nets: &[Members],
) -> Result<Vec<GateConfig>, AllocError>
    requires nets { nets.now ≡ networks header.now }
    ensures { IfOk result (λ v. v.items ≡ configs_below header.now (length header.now.nodes)) }
{
    let mut configs = Vec::new(alloc);
    for (number, line) in header.nodes().iter().enumerate() {
        let config = config_of(alloc, line, header.strict(), number as u32, nets)?;
        configs.push(config)?;
    }
    Ok(configs)
}

/// The configuration of a node on these networks. Fails only if out of memory.
fn config_of(
    alloc: Global,
    line: &NodeLine,
    strict: bool,
    number: u32,
    nets: &[Members],
) -> Result<GateConfig, AllocError>
    ensures { IfOk result (λ c. c ≡ record {
      name = line.now.name;
      may = line.now.may;
      strict = strict;
      ports = ports_on number nets.now;
    }) }
{
    let mut config = GateConfig::new(alloc, line.name.copy(), line.may, strict)?;
    for net in nets {
        join(alloc, &mut config, number, net)?;
    }
    Ok(config)
}

/// Adds a port on a network, where the node is on it. Fails only if out of memory, since a node is on at most
/// 4 networks.
fn join(
    alloc: Global,
    config: &mut GateConfig,
    number: u32,
    net: &Members,
) -> Result<(), AllocError>
    ensures { OnOk result (config.new ≡ record config.old {
      ports = config.old.ports ++ ports_on
          number (net.now ∷ []);
    }) }
{
    if !net.numbers().contains(&number) {
        return Ok(());
    }
    let peers = peers_of(alloc, net)?;
    match config.port(PeerId(number), peers.as_slice()) {
        Ok(()) => Ok(()),
        Err(_) => Err(AllocError),
    }
}

/// So many places, in none of which anything stands. Fails only if out of memory.
pub(crate) fn places_of<T: Drop>(alloc: Global, count: usize) -> Result<Vec<Option<T>>, AllocError>
    ensures places { IfOk result (λ v. v.items ≡ replicate count None) }
    ensures len { IfOk result (λ v. vec_len v ≡ count) }
{
    let mut places = Vec::new(alloc);
    for _ in 0..count {
        places.push(None)?;
    }
    Ok(places)
}
