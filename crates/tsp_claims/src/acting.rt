//! Who acts at an event, and what it takes.
ghost use Rattle.std.specs.Prelude.{◌≡◌, ◌≤◌, ◌<◌, ◌^◌, true, length, vec_len, slice_get, IfSome};
ghost use Rattle.tsp_base.specs.Headers.{KeepsDrift};
ghost use Rattle.tsp_base.specs.Ticks.{tick_at};
ghost use Rattle.tsp_run.specs.Networks.{networks, ports_on};
ghost use Rattle.tsp_run.specs.Run.{boot_step, event_at};
ghost use Rattle.tsp_run.specs.Setup.{node_line};
ghost use Rattle.tsp_claims.specs.ClaimedHistory.{post_goes, step_at, taker};
ghost use Rattle.tsp_claims.specs.Listed.{NamesNode, up_in};
ghost use Rattle.tsp_claims.specs.Steps.{ActsIn, step_by};

use crate::booted::has_booted;
use crate::claims::Claims;
use tsp_base::drift::tick_at;
use tsp_base::event::Event;
use tsp_base::header::NodeLine;
use tsp_base::members::Members;
use tsp_history::brief::Brief;
use tsp_history::line::Why;
use tsp_networks::{address_of, networks_of, port_count};
use tsp_run::address::Address;

/// A step in which a node acts.
#[derive(Clone, Copy)]
pub(crate) struct Acting {
    /// The true time, in microseconds.
    pub(crate) at: u64,
    /// The node.
    pub(crate) node: u32,
    /// Why it acts.
    pub(crate) why: Why,
    /// Its tick: microseconds by its own counter.
    pub(crate) tick: u64,
}

impl Claims {
    /// The networks: those of the header, or that of all nodes where it names none.
    fn networks(&self) -> &[Members]
        ensures networks { result.now ≡ networks self.now.header }
        ensures few { length result.now ≤ 64 }
    {
        networks_of(&self.header, self.one.as_slice())
    }

    /// How many ports a node has.
    pub(crate) fn ports(&self, node: u32) -> usize
        ensures { result ≡ length (ports_on node (networks self.now.header)) }
    {
        port_count(self.networks(), node)
    }

    /// The line of a node in the header.
    pub(crate) fn line(&self, node: u32) -> &NodeLine
        requires node { node < length self.now.header.nodes }
        ensures line { result.now ≡ node_line self.now.header node }
        ensures kept { KeepsDrift 1000 result.now }
    {
        &self.header.nodes()[node as usize]
    }

    /// The tick of a node at a true time: microseconds by its own counter.
    fn tick(&self, node: u32, at: u64) -> u64
        requires node { node < length self.now.header.nodes }
        requires time { at ≤ 1000000000000000 }
        ensures tick { result ≡ tick_at (node_line self.now.header node).rate at }
        ensures small { result ≤ 2 ^ 50 }
    {
        tick_at(self.line(node).rate, at)
    }

    /// Where the claimed post with this number goes; None where it isn't there, or its addressee
    /// isn't a node of the network on which it is posted.
    fn address(&self, k: u64) -> Option<Address>
        ensures { result ≡ post_goes (networks self.now.header) (slice_get self.now.posts.items k) }
    {
        let post = self.posts.get(k as usize)?;
        match post.placed.brief() {
            Brief::PostMessage(to, _, _, _) | Brief::PostStamp(to, _) => {
                address_of(self.networks(), post.node, post.placed.port(), to)
            }
            _ => None,
        }
    }

    /// Who takes the claimed post with this number: its addressee, if that has booted.
    pub(crate) fn taker(&self, k: u64) -> Option<Address>
        ensures taker { result ≡ taker self.now.header self.now.posts.items
            (up_in self.now.up.items) k }
        ensures node { IfSome result (λ a. a.node < vec_len self.now.up) }
    {
        let address = self.address(k)?;
        if has_booted(self.up.as_slice(), address.node) {
            Some(address)
        } else {
            None
        }
    }

    /// The step of a node at a true time.
    fn step(&self, at: u64, node: u32, why: Why) -> Acting
        requires node { node < length self.now.header.nodes }
        requires time { at ≤ 1000000000000000 }
        ensures { result ≡ record {
          at = at;
          node = node;
          why = why;
          tick = tick_at (node_line self.now.header node).rate at;
        } }
    {
        Acting {
            at,
            node,
            why,
            tick: self.tick(node, at),
        }
    }

    /// The step of a boot.
    fn boot(&self, at: u64, node: u32, word: u64) -> Acting
        requires node { node < length self.now.header.nodes }
        requires time { at ≤ 1000000000000000 }
        ensures step { step_by result ≡ boot_step self.now.header at node word }
        ensures tick { result.tick ≡ tick_at (node_line self.now.header node).rate at }
        ensures node { result.node ≡ node }
    {
        let wall = self.line(node).wall + self.tick(node, at) as i64;
        self.step(at, node, Why::Booted(word, wall))
    }

    /// The step in which an event lets a node act; None where it lets nobody.
    pub(crate) fn acting(&self, e: &Event) -> Option<Acting>
        requires time { event_at e.now ≤ 1000000000000000 }
        requires node { NamesNode (length self.now.header.nodes) e.now }
        ensures { ActsIn self.now.header (step_at self.now.header self.now.posts.items
            (up_in self.now.up.items) e.now) result }
    {
        match e {
            Event::Boot { at, node, word } => Some(self.boot(*at, *node, *word)),
            Event::Turn { at, node } => Some(self.step(*at, *node, Why::Turned)),
            Event::Take { at, datagram } => {
                let address = self.taker(*datagram)?;
                Some(self.step(*at, address.node, Why::Came(*datagram)))
            }
            Event::Bytes { at, node, .. } => Some(self.step(*at, *node, Why::Handed)),
        }
    }
}
