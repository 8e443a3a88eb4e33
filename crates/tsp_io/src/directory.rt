//! Who has which address.
ghost use Rattle.std.specs.Prelude.{◌≡◌, [], ◌∷◌, ◌++◌, length, List, slice_get, IfOk, OnOk, nat_eq};
ghost use Rattle.std.specs.HashMap.{get};
ghost use Rattle.tsp_io.specs.Directories.{AreNumbers, FitsKey, IsAddressPlace, key_of};
ghost use Rattle.tsp_io.specs.declared.addr.Addr.{Addr};

use crate::addr::Addr;
use std::alloc::{AllocError, Global};
use std::collections::HashMap;
use std::marker::Model;
use tsp_base::place::{PeerId, Place};

/// The addresses of a link's peers, the first of which is that of peer 0, and at the key of each address the
/// lowest number of a peer that has it.
#[derive(Drop)]
pub(crate) struct Directory {
    peers: Vec<Addr>,
    numbers: HashMap<u64, u32>,
}

impl Model for Directory {
    ghost use Rattle.std.specs.Prelude.{List, nat_eq};
    ghost use Rattle.std.specs.HashMap.{get};
    ghost use Rattle.tsp_io.specs.Directories.{AreNumbers};
    ghost use Rattle.tsp_io.specs.declared.addr.Addr.{Addr};

    ghost Value = { List Addr };

    ghost view = { λ d. d.peers.items };

    ghost invariant = { λ d. AreNumbers d.peers.items (get nat_eq d.numbers) };
}

impl Directory {
    /// Nobody has an address.
    pub(crate) fn new(alloc: Global) -> Directory
        ensures { result ≡ [] }
    {
        Directory {
            peers: Vec::new(alloc),
            numbers: HashMap::new(alloc),
        }
    }

    /// The peers with these addresses: the first is that of peer 0, and so on. Fails only if out of memory, or if
    /// there are more than 2^32 peers.
    pub(crate) fn of(alloc: Global, peers: &[Addr]) -> Result<Directory, AllocError>
        ensures { IfOk result (λ directory. directory ≡ peers.now) }
    {
        let numbers = numbers_of(alloc, peers)?;
        let peers = Vec::from_slice(alloc, peers)?;
        Ok(Directory { peers, numbers })
    }

    /// Who has this address: the peer with the lowest number that does, or else a stranger.
    pub(crate) fn place_of(&self, addr: Addr) -> Place
        ensures { IsAddressPlace self.now addr result }
    {
        match self.numbers.get(&key_of(addr)) {
            Some(number) => Place::Peer(PeerId(*number)),
            None => Place::Stranger,
        }
    }

    /// The address of the peer with this number; None if there is no such peer.
    pub(crate) fn addr_of(&self, peer: PeerId) -> Option<Addr>
        ensures { result ≡ slice_get self.now peer.0 }
    {
        self.peers.get(peer.0 as usize).copied()
    }
}

/// The address as one number: its octets, and below them its port.
fn key_of(addr: Addr) -> u64
    ensures key { result ≡ key_of addr }
    ensures address { FitsKey addr }
{
    u64::from(u32::from_be_bytes(addr.ip)) * 65_536 + u64::from(addr.port)
}

/// At the key of each address the lowest number of a peer that has it. Fails only if out of memory, or if there
/// are more than 2^32 peers.
fn numbers_of(alloc: Global, peers: &[Addr]) -> Result<HashMap<u64, u32>, AllocError>
    ensures { IfOk result (λ numbers. AreNumbers peers.now (get nat_eq numbers)) }
{
    let mut numbers = HashMap::new(alloc);
    for at in 0..peers.len() {
        let Ok(number) = u32::try_from(at) else {
            return Err(AllocError);
        };
        note(&mut numbers, peers[at], number)?;
    }
    Ok(numbers)
}

/// Notes that the next peer has this address and this number, unless a peer before it has the address. Fails only
/// if out of memory.
fn note(numbers: &mut HashMap<u64, u32>, addr: Addr, number: u32) -> Result<(), AllocError>
    ensures { OnOk result ((peers : List Addr) → number ≡ length peers
        → AreNumbers peers (get nat_eq numbers.old)
        → AreNumbers (peers ++ addr ∷ []) (get nat_eq numbers.new)) }
{
    let key = key_of(addr);
    if !numbers.contains_key(&key) {
        numbers.insert(key, number)?;
    }
    Ok(())
}
