//! The daemon's node, as its arguments set it up.
ghost use Rattle.std.specs.Prelude.{◌≡◌, ◌≤◌, ◌+◌, ◌*◌, [], ◌∷◌, ◌++◌, length, IfOk, IfErr, OnOk, true, false};
ghost use Rattle.tsp_base.specs.Frames.{IsTick};
ghost use Rattle.tsp_gateway.specs.GatewayStands.{GatewayStands, clock_at};
ghost use Rattle.tsp_gateway.specs.Rooms.{ports_in, room_of_ports};
ghost use Rattle.tsp_daemon.specs.Nodes.{port_peers, numbered_setup, may_be, is_strict, daemon_config, first_past};
ghost use Rattle.tsp_rules.specs.Guards.{is_clock_value};
ghost use Rattle.tsp_args.specs.Ports.{all_peers};
ghost use Rattle.tsp_args.specs.Serves.{IsServe};

use std::alloc::{AllocError, Global};
use tsp_args::serve::{Candidacy, ServeWords};
use tsp_base::desk::Desk;
use tsp_base::pad::Pad;
use tsp_base::place::PeerId;
use tsp_gateway::{GateConfig, Gateway};
use tsp_io::addr::Addr;
use tsp_node::BootFault;

/// Why the node doesn't boot.
#[derive(Clone, Copy)]
pub(crate) enum Unbooted {
    /// The wall clock isn't more than -2^31 and less than 2^31 seconds.
    BadWall,
    /// Out of memory.
    OutOfMemory,
}

/// The addresses to bind with: the daemon's own, and those of its peers in their order. Fails only
/// if out of memory.
pub(crate) fn addrs_of(alloc: Global, words: &ServeWords) -> Result<Vec<Addr>, AllocError>
    ensures { IfOk result (λ addrs. addrs.items ≡ words.now.local ∷ all_peers words.now.ports) }
{
    let peers = words.ports.peers(alloc)?;
    let mut addrs = Vec::new(alloc);
    addrs.push(words.local)?;
    addrs.extend_from_slice(peers.as_slice())?;
    Ok(addrs)
}

/// The peers of a port that come after `done` peers of earlier ports: the daemon itself, which is
/// peer 0, and `count` more. Fails only if out of memory.
fn port_peers(alloc: Global, done: u32, count: u32) -> Result<Vec<PeerId>, AllocError>
    requires { done + count ≤ 999 }
    ensures { IfOk result (λ peers. peers.items ≡ port_peers done count) }
{
    let mut peers = Vec::new(alloc);
    peers.push(PeerId(0))?;
    for more in 0..count {
        peers.push(PeerId(done + 1 + more))?;
    }
    Ok(peers)
}

/// Gives the node one port more, with `count` peers, which come after `done` of earlier ports.
/// Fails only if out of memory: a daemon has 4 ports at most.
fn join(alloc: Global, config: &mut GateConfig, done: u32, count: u32) -> Result<(), AllocError>
    requires { done + count ≤ 999 }
    ensures { OnOk result (config.new ≡ record config.old {
      ports = config.old.ports ++ numbered_setup
          done count ∷ [];
    }) }
{
    let peers = port_peers(alloc, done, count)?;
    match config.port(PeerId(0), peers.as_slice()) {
        Ok(()) => Ok(()),
        Err(_) => Err(AllocError),
    }
}

/// Whether a node may be master.
fn may_be(candidacy: Candidacy) -> bool
    ensures { result ≡ may_be candidacy }
{
    match candidacy {
        Candidacy::Never => false,
        Candidacy::Plain => true,
        Candidacy::Strict => true,
    }
}

/// Whether a candidate needs more than half of the peers.
fn is_strict(candidacy: Candidacy) -> bool
    ensures { result ≡ is_strict candidacy }
{
    match candidacy {
        Candidacy::Never => false,
        Candidacy::Plain => false,
        Candidacy::Strict => true,
    }
}

/// What the node is set up with. Fails only if out of memory.
fn config_of(alloc: Global, words: &ServeWords) -> Result<GateConfig, AllocError>
    requires { length (all_peers words.now.ports) ≤ 999 }
    ensures { IfOk result (λ config. config ≡ daemon_config words.now) }
{
    let may = may_be(words.candidacy);
    let strict = is_strict(words.candidacy);
    let mut config = GateConfig::new(alloc, words.name.copy(), may, strict)?;
    let mut done = 0;
    for port in 0..words.ports.count() {
        let count = words.ports.get(port).len() as u32;
        join(alloc, &mut config, done, count)?;
        done += count;
    }
    Ok(config)
}

/// A node that boots at this tick, with this wall clock (microseconds since 1970) and this word.
pub(crate) fn boot(
    alloc: Global,
    words: &ServeWords,
    tick: u64,
    wall: i64,
    word: u64,
) -> Result<Gateway, Unbooted>
    requires serve { IsServe words.now }
    requires tick { IsTick tick }
    ensures stands { IfOk result (λ node. GatewayStands (first_past words.now tick wall word)
        node) }
    ensures room { IfOk result (λ node. room_of_ports (ports_in node) ≤ 24 * 1003 + 4 * 256) }
    ensures clock { IfOk result (λ node. clock_at node ≡ tick) }
    ensures wall { IfOk result (λ node. is_clock_value wall ≡ true) }
    ensures cause { IfErr result (λ fault. fault ≡ Unbooted.BadWall → is_clock_value wall ≡ false) }
{
    let Ok(config) = config_of(alloc, words) else {
        return Err(Unbooted::OutOfMemory);
    };
    let mut pad = Pad::new(alloc);
    if pad.reserve(12).is_err() {
        return Err(Unbooted::OutOfMemory);
    }
    match Gateway::boot(alloc, &config, tick, wall, word, &mut pad) {
        Ok(node) => Ok(node),
        Err(BootFault::Range) => Err(Unbooted::BadWall),
        Err(BootFault::OutOfMemory) => Err(Unbooted::OutOfMemory),
        Err(BootFault::Peers) => unreachable!(),
    }
}
