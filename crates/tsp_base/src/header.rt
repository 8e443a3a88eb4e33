//! The header of a schedule: the nodes, their clocks and their networks.
ghost use Rattle.std.specs.Prelude.{◌≡◌, ◌≤◌, ◌<◌, ◌↔◌, length, [], ◌∷◌, ◌++◌, IsTrue, nat_lt};
ghost use Rattle.std.specs.List.{list_any, list_all};
ghost use Rattle.tsp_base.specs.Headers.{IsHeader, Pushes, KeepsDrift, AddsNet, IsNet, Joins, nets_with};
ghost use Rattle.tsp_base.specs.Headers.{has_member, all_joined, is_whole};

use crate::constants::SCHEDULE_END;
use crate::members::{Members, is_ascending};
use crate::name::Name;
use std::alloc::Global;
use std::marker::Model;
use thiserror::Error;

/// One node of a schedule.
#[derive(Drop)]
pub struct NodeLine {
    /// Its name.
    pub name: Name,
    /// How many microseconds its tick counter gains in a second of true time.
    pub rate: i32,
    /// Its wall clock at true time 0, in microseconds.
    pub wall: i64,
    /// Whether it may be master.
    pub may: bool,
}

/// Why a header refuses a node or a network. Where several causes apply, it is the first in this list.
#[derive(Clone, Copy, PartialEq, Eq, Debug, Error)]
pub enum HeaderFault {
    /// The header has 64 nodes already.
    #[error("a schedule has at most 64 nodes")]
    Full,
    /// The rate's magnitude is above the drift.
    #[error("the rate is above the drift")]
    Rate,
    /// The wall clock's magnitude is above 10^15.
    #[error("the wall clock is out of its range")]
    Wall,
    /// The header has 64 networks already.
    #[error("a schedule has at most 64 networks")]
    Nets,
    /// The numbers are no network (none, not strictly ascending, or of no node), or one of the nodes is in 4
    /// networks already.
    #[error("a network joins nodes of the schedule in ascending order, each at most four times")]
    Net,
    /// Out of memory.
    #[error("out of memory")]
    OutOfMemory,
}

/// The bound of all clocks' drift (parts in a million), whether elections are strict, at most 64 nodes, and
/// at most 64 networks of them. Where no network is named, all nodes are on one.
#[derive(Drop)]
pub struct Header {
    drift: u32,
    strict: bool,
    nodes: Vec<NodeLine>,
    nets: Vec<Members>,
}

impl Model for Header {
    ghost use Rattle.tsp_base.specs.Headers.{HeaderValue, IsHeader};

    ghost Value = { HeaderValue };

    ghost view = { λ h. record {
      drift = h.drift;
      strict = h.strict;
      nodes = h.nodes.items;
      nets = h.nets.items;
    } };

    ghost invariant = { λ h. IsHeader (record {
      drift = h.drift;
      strict = h.strict;
      nodes = h.nodes.items;
      nets = h.nets.items;
    }) };
}

impl Header {
    /// A header without nodes and networks. Takes no memory.
    pub fn new(alloc: Global, drift: u32, strict: bool) -> Header
        requires { drift ≤ 1000 }
        ensures { result ≡ record { drift = drift; strict = strict; nodes = []; nets = [] } }
    {
        Header {
            drift,
            strict,
            nodes: Vec::new(alloc),
            nets: Vec::new(alloc),
        }
    }

    /// Adds a node. `Full` comes where 64 are there already, else `Rate` where the rate's magnitude is above the
    /// drift, else `Wall` where the wall clock's magnitude is above 10^15. Else it fails only if out of memory. A
    /// refusal changes nothing.
    pub fn push(&mut self, line: NodeLine) -> Result<(), HeaderFault>
        requires { self.old.nets ≡ [] }
        ensures { Pushes self.old line result self.new }
    {
        let _name = line.name.octets();
        if self.nodes.len() >= 64 {
            return Err(HeaderFault::Full);
        }
        if line.rate.unsigned_abs() > self.drift {
            return Err(HeaderFault::Rate);
        }
        if line.wall.unsigned_abs() > SCHEDULE_END {
            return Err(HeaderFault::Wall);
        }
        match self.nodes.push(line) {
            Ok(()) => Ok(()),
            Err(_) => Err(HeaderFault::OutOfMemory),
        }
    }

    /// Adds a network of these nodes. `Nets` comes where 64 are there already, else `Net` where the list is
    /// empty, isn't strictly ascending, has a number that no node has, or would put a node into a fifth
    /// network. Else it fails only if out of memory. A refusal changes nothing.
    pub fn net(&mut self, nodes: &[u32]) -> Result<(), HeaderFault>
        ensures { AddsNet self.old nodes.now result self.new }
    {
        if self.nets.len() >= 64 {
            return Err(HeaderFault::Nets);
        }
        if !joins(self.nodes.len(), self.nets.as_slice(), nodes) {
            return Err(HeaderFault::Net);
        }
        let Some(members) = Members::of(nodes) else {
            return Err(HeaderFault::Net);
        };
        match self.nets.push(members) {
            Ok(()) => Ok(()),
            Err(_) => Err(HeaderFault::OutOfMemory),
        }
    }

    /// The drift, in parts in a million, at most 1,000.
    pub fn drift(&self) -> u32
        ensures drift { result ≡ self.now.drift }
        ensures small { result ≤ 1000 }
    {
        self.drift
    }

    /// Whether a candidate wins only with a majority of its network.
    pub fn strict(&self) -> bool
        ensures { result ≡ self.now.strict }
    {
        self.strict
    }

    /// The nodes in the order of their lines.
    pub fn nodes(&self) -> &[NodeLine]
        ensures nodes { result.now ≡ self.now.nodes }
        ensures valid { IsHeader self.now }
    {
        self.nodes.as_slice()
    }

    /// The networks in the order of their lines. Where there is none, all nodes are on one network.
    pub fn nets(&self) -> &[Members]
        ensures nets { result.now ≡ self.now.nets }
        ensures valid { IsHeader self.now }
    {
        self.nets.as_slice()
    }

    /// Whether there is no network, or each node is in one.
    pub fn whole(&self) -> bool
        ensures { result ≡ is_whole self.now }
    {
        self.nets.is_empty() || are_joined(self.nodes.len(), self.nets.as_slice())
    }
}

/// Whether these are numbers of a network among so many nodes.
fn is_net(nodes: usize, numbers: &[u32]) -> bool
    ensures { IsTrue result ↔ IsNet nodes numbers.now }
{
    !numbers.is_empty() && is_ascending(numbers) && numbers.iter().all(|n| (*n as usize) < nodes)
}

/// How many of the networks a node is in.
fn count_nets(nets: &[Members], node: u32) -> usize
    ensures { result ≡ nets_with node nets.now }
{
    nets.iter()
        .filter(|net| net.numbers().contains(&node))
        .count()
}

/// Whether each of the nodes is in fewer than 4 of the networks.
fn are_free(nets: &[Members], numbers: &[u32]) -> bool
    ensures { result ≡ list_all (λ n. nat_lt (nets_with n nets.now) 4) numbers.now }
{
    numbers.iter().all(|&node| count_nets(nets, node) < 4)
}

/// Whether one network more may join these of so many nodes.
fn joins(nodes: usize, nets: &[Members], numbers: &[u32]) -> bool
    ensures { IsTrue result ↔ Joins nodes nets.now numbers.now }
{
    is_net(nodes, numbers) && are_free(nets, numbers)
}

/// Whether a node is in one of the networks.
fn is_joined(nets: &[Members], node: u32) -> bool
    ensures { result ≡ list_any (has_member node) nets.now }
{
    nets.iter().any(|net| net.numbers().contains(&node))
}

/// Whether each of so many nodes is in one of the networks.
fn are_joined(nodes: usize, nets: &[Members]) -> bool
    requires { nodes ≤ 64 }
    ensures { result ≡ all_joined nodes nets.now }
{
    for node in 0..nodes as u32 {
        if !is_joined(nets, node) {
            return false;
        }
    }
    true
}
