//! Which networks the nodes of a schedule are on, by which ports, and what is posted on them.
//!
//! A header names its networks; where it names none, all nodes are on one. [`networks_of`] gives them;
//! [`all_nodes`] makes that one network. [`address_of`] says where a datagram goes that a port posts, and
//! [`room_of`] how many acts a node's step may put. [`refusals`] has the causes for which an event of
//! the schedule is refused by its time, by what it names and by who is up, and [`limits`] how many events
//! and posts there may be.
//!
//! A step puts its acts on a [`sheet::Sheet`], each in its line of the trace. [`tell::tell`] completes the
//! lines, and adds what they post to the [`posts::Posts`], numbered from 0. A name may have 255 octets but
//! mostly has few, so the octets of all names are in one list, and each post has the place of its own. A post's
//! datagram is put together again in a [`parcel::Parcel`], which whoever takes it hands over.
//!
//! ```
//! let all = all_nodes(alloc, header.nodes().len() as u32)?;
//! let nets = networks_of(&header, all.as_slice());
//! // Node 0 posts to peer 1 on its first port.
//! if let Some(address) = address_of(nets, 0, Port(0), Place::Peer(PeerId(1))) {
//!     arrives(address.node, address.port);
//! }
//! ```
//!
//! # What is proved
//!
//! In parentheses are the contracts, clauses and definitions that say it.
//!
//! - Which networks nodes are on, by how many ports, and where a datagram goes that a port posts
//!   (`networks_of`, `port_count`, `address_of`).
//! - That time goes back, that what an event names isn't there and that a node is down, each as the cause
//!   that it is (`time_back`, `no_node`, `down_at`).
//! - Posts are given back under their numbers as they were put, whatever their names (`items` of `push`,
//!   `way`, `pack`), as many as room was made for (`spare` of `push`, `room`, `kept` of `reserve`).
//!
//! # What is only tested
//!
//! - A node between two networks.
//! - Rows of the causes.
//! - Messages with an empty, a short and the longest name, and a stamp.
//!
//! # What is neither proved nor tested
//!
//! - How much memory posts take.
#![tactic(auto)]

ghost use Rattle.std.specs.Prelude.{◌≡◌, ◌≤◌, [], ◌∷◌, length, vec_len, true, IfOk};
ghost use Rattle.tsp_base.specs.Headers.{has_member};
ghost use Rattle.tsp_networks.specs.Rooms.{AreRooms};
ghost use Rattle.tsp_run.specs.Networks.{networks, numbers_below, peers_on, ports_on, room};
ghost use Rattle.tsp_run.specs.Networks.{address_of, network_at, port_at};

use std::alloc::{AllocError, Global};
use tsp_base::header::Header;
use tsp_base::members::Members;
use tsp_base::place::{PeerId, Place, Port};
use tsp_rules::room::room_for;
use tsp_run::address::Address;

mod head;
pub mod limits;
pub mod parcel;
pub mod posts;
pub mod refusals;
pub mod sheet;
pub mod tell;
pub mod way;

/// One network of so many nodes, at most 64. Fails only if out of memory.
pub fn all_nodes(alloc: Global, count: u32) -> Result<Vec<Members>, AllocError>
    requires { count ≤ 64 }
    ensures { IfOk result (λ v. v.items ≡ numbers_below count ∷ []) }
{
    let mut numbers = Vec::new(alloc);
    for number in 0..count {
        numbers.push(number)?;
    }
    let mut one = Vec::new(alloc);
    match Members::of(numbers.as_slice()) {
        Some(members) => one.push(members)?,
        None => unreachable!(),
    }
    Ok(one)
}

/// The networks of a header: those that it names, or `one`, of all nodes, where it names none.
pub fn networks_of<'a>(header: &'a Header, one: &'a [Members]) -> &'a [Members]
    requires { one.now ≡ numbers_below (length header.now.nodes) ∷ [] }
    ensures networks { result.now ≡ networks header.now }
    ensures few { length result.now ≤ 64 }
{
    let nets = header.nets();
    if nets.is_empty() { one } else { nets }
}

/// Whether a node is on a network.
fn has(net: &Members, n: u32) -> bool
    ensures { result ≡ has_member n net.now }
{
    let numbers = net.numbers();
    if is_in_place(numbers, n) {
        return true;
    }
    numbers.contains(&n)
}

/// Whether a number is the one at its own place, as each is in a network of all nodes: then it needn't be sought.
fn is_in_place(numbers: &[u32], n: u32) -> bool
    ensures { result ≡ true → has_member n numbers.now ≡ true }
{
    match numbers.get(n as usize) {
        Some(m) => *m == n,
        None => false,
    }
}

/// The members of a network, as the peers of a port on it. Fails only if out of memory.
pub fn peers_of(alloc: Global, net: &Members) -> Result<Vec<PeerId>, AllocError>
    ensures { IfOk result (λ v. v.items ≡ peers_on net.now) }
{
    let mut peers = Vec::new(alloc);
    let numbers = net.numbers();
    for number in numbers {
        peers.push(PeerId(*number))?;
    }
    Ok(peers)
}

/// How many ports a node has.
pub fn port_count(nets: &[Members], n: u32) -> usize
    requires { length nets.now ≤ 64 }
    ensures count { result ≡ length (ports_on n nets.now) }
    ensures few { result ≤ 64 }
{
    let mut count = 0;
    for net in nets {
        if has(net, n) {
            count += 1;
        }
    }
    count
}

/// How many acts a node puts in a step at most.
pub fn room_of(nets: &[Members], n: u32) -> u64
    requires { length nets.now ≤ 64 }
    ensures room { result ≡ room (ports_on n nets.now) }
    ensures few { result ≤ 200000 }
{
    let mut room = 0;
    for net in nets {
        if has(net, n) {
            room += room_for(net.numbers().len()) as u64;
        }
    }
    room
}

/// How many acts a step of each of so many nodes may put, in order, on these networks. Fails only if out of memory.
pub fn rooms_of(alloc: Global, count: u32, nets: &[Members]) -> Result<Vec<u64>, AllocError>
    requires { length nets.now ≤ 64 }
    ensures rooms { IfOk result (λ v. AreRooms nets.now v.items) }
    ensures all { IfOk result (λ v. vec_len v ≡ count) }
{
    let mut rooms = Vec::new(alloc);
    for node in 0..count {
        rooms.push(room_of(nets, node))?;
    }
    Ok(rooms)
}

/// The port by which node `n` is on the network of a port of node `from`. None if it isn't on that network, or if
/// there is no such port.
fn port_beside(nets: &[Members], from: u32, port: Port, n: u32) -> Option<u8>
    requires { length nets.now ≤ 64 }
    ensures { result ≡ port_at n (network_at from port nets.now) nets.now }
{
    let mut passed: u8 = 0;
    let mut beside: u8 = 0;
    for net in nets {
        let is_there = has(net, n);
        if has(net, from) {
            if passed == port.0 {
                return if is_there { Some(beside) } else { None };
            }
            passed += 1;
        }
        if is_there {
            beside += 1;
        }
    }
    None
}

/// Where a datagram goes that a node posts on a port: to its addressee's port on the same network. None where
/// the addressee isn't a node of that network.
pub fn address_of(nets: &[Members], from: u32, port: Port, to: Place) -> Option<Address>
    requires { length nets.now ≤ 64 }
    ensures { result ≡ address_of nets.now from port to }
{
    match to {
        Place::Peer(p) => {
            let on = port_beside(nets, from, port, p.0)?;
            Some(Address {
                node: p.0,
                port: Port(on),
            })
        }
        Place::Stranger => None,
    }
}
