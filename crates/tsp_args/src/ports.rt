//! The peers of a daemon's ports as arguments.
ghost use Rattle.std.specs.Prelude.{◌≡◌, ◌<◌, ◌≤◌, ℕ, List, [], ◌∷◌, ◌++◌, length, map, All};
ghost use Rattle.std.specs.Prelude.{Contains, IfOk, IfSome, Ok, Some, MatchResult, MatchBool};
ghost use Rattle.std.specs.Prelude.{slice_get, string_bytes, codes};
ghost use Rattle.tsp_io.specs.declared.addr.Addr.{Addr};
ghost use Rattle.tsp_args.specs.Addrs.{addr_text, IsAddr};
ghost use Rattle.tsp_args.specs.Ports.{peer_words, all_peers, IsPeerWord, AllDiffer, ArePeers, ServeOne, ArePorts};

use crate::addrs::addr_of;
use std::alloc::{AllocError, Global};
use std::marker::Model;
use std::mem;
use tsp_io::addr::Addr;

/// The peers of a daemon's ports: one to four ports, each with its own peers, or none.
#[derive(Drop)]
pub struct Ports {
    done: Vec<Vec<Addr>>,
    last: Vec<Addr>,
}

impl Model for Ports {
    ghost use Rattle.std.specs.Prelude.{List, [], ◌∷◌, ◌++◌, map};
    ghost use Rattle.tsp_io.specs.declared.addr.Addr.{Addr};

    ghost Value = { List (List Addr) };

    ghost view = { λ p. map (λ v. v.items) p.done.items ++ p.last.items ∷ [] };
}

impl Ports {
    /// One port without peers.
    fn new(alloc: Global) -> Ports
        ensures { result ≡ [] ∷ [] }
    {
        Ports {
            done: Vec::new(alloc),
            last: Vec::new(alloc),
        }
    }

    /// One more peer of the last port.
    fn add(&mut self, peer: Addr) -> Result<(), AllocError>
        ensures words { IfOk result (λ _. peer_words self.new ≡ peer_words self.old ++ addr_text
            peer ∷ []) }
        ensures peers { IfOk result (λ _. all_peers self.new ≡ all_peers self.old ++ peer ∷ []) }
        ensures some { 1 ≤ length self.new }
    {
        self.last.push(peer)?;
        Ok(())
    }

    /// One more port, without peers.
    fn next(&mut self, alloc: Global) -> Result<(), AllocError>
        ensures words { IfOk result (λ _. peer_words self.new ≡ peer_words self.old ++ codes
            "+" ∷ []) }
        ensures peers { IfOk result (λ _. all_peers self.new ≡ all_peers self.old) }
        ensures some { 1 ≤ length self.new }
    {
        let last = mem::replace(&mut self.last, Vec::new(alloc));
        self.done.push(last)?;
        Ok(())
    }

    /// Takes an argument: a plus begins the next port, an address is one more peer of the last one. The
    /// answer is false where it is neither.
    fn take(&mut self, alloc: Global, word: &str) -> Result<bool, AllocError>
        ensures words { IfOk result
            (λ took. MatchBool took (peer_words self.new ≡ peer_words self.old ++ word.now ∷ [])
            (¬ IsPeerWord word.now)) }
        ensures peers { ArePeers self.old → IfOk result (λ _. ArePeers self.new) }
    {
        if word == "+" {
            self.next(alloc)?;
            return Ok(true);
        }
        let Some(peer) = addr_of(word.as_bytes()) else {
            return Ok(false);
        };
        self.add(peer)?;
        Ok(true)
    }

    /// How many ports there are.
    pub fn count(&self) -> usize
        ensures { result ≡ length self.now }
    {
        self.done.len() + 1
    }

    /// The peers of the port with this number; they are counted from 0.
    pub fn get(&self, port: usize) -> &[Addr]
        requires { port < length self.now }
        ensures { slice_get self.now port ≡ Some result.now }
    {
        match self.done.get(port) {
            Some(peers) => peers.as_slice(),
            None => self.last.as_slice(),
        }
    }

    /// All peers of all ports, in their order. Fails only if out of memory.
    pub fn peers(&self, alloc: Global) -> Result<Vec<Addr>, AllocError>
        ensures { IfOk result (λ peers. peers.items ≡ all_peers self.now) }
    {
        let mut peers = Vec::new(alloc);
        for port in self.done.as_slice() {
            peers.extend_from_slice(port.as_slice())?;
        }
        peers.extend_from_slice(self.last.as_slice())?;
        Ok(peers)
    }
}

/// The ports of these arguments, however many there are and whoever their peers are.
fn read(alloc: Global, words: &[String]) -> Result<Option<Ports>, AllocError>
    ensures found { IfOk result (λ r. IfSome r (λ ports. ArePeers ports
        × (map string_bytes words.now ≡ peer_words ports))) }
    ensures reads { (ports : List (List Addr)) → ArePeers ports
        → map string_bytes words.now ≡ peer_words ports → IfOk result (λ r. r ≡ Some ports) }
{
    let mut ports = Ports::new(alloc);
    for word in words {
        if !ports.take(alloc, word.as_str())? {
            return Ok(None);
        }
    }
    Ok(Some(ports))
}

/// Whether no two of the addresses are the same.
fn all_differ(addrs: &[Addr]) -> bool
    ensures { MatchBool result (AllDiffer addrs.now) (¬ AllDiffer addrs.now) }
{
    let mut left = addrs;
    while let Some((first, rest)) = left.split_first() {
        if rest.contains(first) {
            return false;
        }
        left = rest;
    }
    true
}

/// Whether a daemon with this address may have so many ports with these peers together.
fn serve_one(local: Addr, count: usize, peers: &[Addr]) -> bool
    ensures { MatchBool result (ServeOne local count peers.now) (¬ ServeOne local count peers.now) }
{
    if count > 4 || peers.len() > 999 {
        return false;
    }
    if peers.contains(&local) {
        return false;
    }
    all_differ(peers)
}

/// The ports of a daemon with this address; None exactly where the arguments aren't the ports of one.
pub(crate) fn ports_of(
    alloc: Global,
    local: Addr,
    words: &[String],
) -> Result<Option<Ports>, AllocError>
    ensures found { IfOk result (λ r. IfSome r (λ ports. ArePorts local ports
        × (map string_bytes words.now ≡ peer_words ports))) }
    ensures reads { (ports : List (List Addr)) → ArePorts local ports
        → map string_bytes words.now ≡ peer_words ports → IfOk result (λ r. r ≡ Some ports) }
{
    let Some(ports) = read(alloc, words)? else {
        return Ok(None);
    };
    let peers = ports.peers(alloc)?;
    if serve_one(local, ports.count(), peers.as_slice()) {
        Ok(Some(ports))
    } else {
        Ok(None)
    }
}
