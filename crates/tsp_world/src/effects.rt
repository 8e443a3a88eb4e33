//! What an event of a world does that nothing refuses: one of its nodes acts, or none.
ghost use Rattle.std.specs.Prelude.{◌≡◌, ◌≤◌, ◌<◌, ◌+◌, ◌^◌, ◌+ℤ◌, pos, true, length, vec_len};
ghost use Rattle.std.specs.Prelude.{slice_get, Some, OnOk, OnErr};
ghost use Rattle.tsp_base.specs.declared.event.Event.{Event};
ghost use Rattle.tsp_base.specs.Headers.{KeepsDrift};
ghost use Rattle.tsp_base.specs.Ticks.{tick_at};
ghost use Rattle.tsp_rules.specs.GateRows.{GotOn, answers_all};
ghost use Rattle.tsp_rules.specs.Guards.{is_clock_value};
ghost use Rattle.tsp_run.specs.Networks.{networks, ports_on, room};
ghost use Rattle.tsp_run.specs.Refusals.{Allowed};
ghost use Rattle.tsp_run.specs.Run.{goes_to};
ghost use Rattle.tsp_run.specs.Setup.{node_line};
ghost use Rattle.tsp_networks.specs.Sheets.{acts_on};
ghost use Rattle.tsp_world.specs.WorldStands.{scene_of, IsReady, CanStep, CanNote, Notes, Passes};
ghost use Rattle.tsp_world.specs.WorldStands.{HappensInWorld, HappensBy, Idles, RestsFor, Stays};

use crate::step;
use crate::world::World;
use std::alloc::AllocError;
use tsp_base::datagram::Taken;
use tsp_base::drift::tick_at;
use tsp_base::header::NodeLine;
use tsp_base::place::{PeerId, Place, Port};
use tsp_gateway::Gateway;
use tsp_networks::parcel::Parcel;
use tsp_networks::tell::tell;
use tsp_node::BootFault;
use tsp_run::address::Address;

/// The wall clock of a node at a tick, in microseconds.
fn wall_at(line: &NodeLine, tick: u64) -> i64
    requires line { KeepsDrift 1000 line.now }
    requires tick { tick ≤ 2 ^ 50 }
    ensures wall { result ≡ line.now.wall +ℤ pos tick }
    ensures range { is_clock_value result ≡ true }
{
    line.wall + tick as i64
}

impl World {
    /// The line of a node in the header.
    fn line(&self, node: u32) -> &NodeLine
        requires node { node < vec_len self.now.nodes }
        ensures line { result.now ≡ node_line self.now.header node }
        ensures kept { KeepsDrift 1000 result.now }
    {
        &self.header.nodes()[node as usize]
    }

    /// The tick of a node at a true time.
    fn tick(&self, node: u32, at: u64) -> u64
        requires node { node < vec_len self.now.nodes }
        requires time { at ≤ 1000000000000000 }
        ensures tick { result ≡ tick_at (node_line self.now.header node).rate at }
        ensures small { result ≤ 2 ^ 50 }
    {
        tick_at(self.line(node).rate, at)
    }

    /// A node boots. Fails only if out of memory, and then changes nothing that the world stands for.
    pub(crate) fn start(&mut self, at: u64, node: u32, word: u64) -> Result<(), AllocError>
        requires ready { IsReady (room (ports_on node (networks self.old.header))) self.old }
        requires able { CanStep at node self.old }
        requires node { node < vec_len self.old.nodes }
        ensures happens { OnOk result (HappensInWorld (Event.Boot at node word) self.old self.new) }
        ensures kept { OnErr result (Stays self.old self.new) }
    {
        let tick = self.tick(node, at);
        let wall = wall_at(self.line(node), tick);
        let config = &self.configs[node as usize];
        match Gateway::boot(self.alloc, config, tick, wall, word, &mut self.desk) {
            Ok(booted) => {
                self.last = at;
                self.dues[node as usize] = None;
                self.nodes[node as usize] = Some(booted);
                self.note(node, tick);
                Ok(())
            }
            Err(BootFault::OutOfMemory) => Err(AllocError),
            Err(BootFault::Peers) => unreachable!(),
            Err(BootFault::Range) => unreachable!(),
        }
    }

    /// Whether a turn of a node that is up does nothing now, since nothing is due. When something is due is looked
    /// up only where it isn't known since the node's last step.
    #[inline(always)]
    pub(crate) fn idles(&mut self, at: u64, node: u32) -> bool
        requires node { node < vec_len self.old.nodes }
        requires time { at ≤ 1000000000000000 }
        ensures stands { Stays self.old self.new }
        ensures same { scene_of self.new ≡ scene_of self.old }
        ensures header { self.new.header ≡ self.old.header }
        ensures idles { result ≡ true → Idles at node self.new }
    {
        match self.dues[node as usize] {
            Some(due) => self.is_before(at, node, due),
            None => {
                let due = self.due(node);
                self.is_before(at, node, due)
            }
        }
    }

    /// Whether a node's tick at a true time is before this one. A counter gains less than a 512th, so mostly its tick
    /// needn't be known.
    #[inline(always)]
    fn is_before(&self, at: u64, node: u32, tick: u64) -> bool
        requires node { node < vec_len self.now.nodes }
        requires time { at ≤ 1000000000000000 }
        ensures { result ≡ true → tick_at (node_line self.now.header node).rate at < tick }
    {
        let line = self.line(node);
        at + at / 512 < tick || tick_at(line.rate, at) < tick
    }

    /// The tick before which a turn of a node does nothing, which is kept from now on; 0 where the node isn't up.
    #[inline(always)]
    fn due(&mut self, node: u32) -> u64
        requires node { node < vec_len self.old.nodes }
        ensures stands { Stays self.old self.new }
        ensures same { scene_of self.new ≡ scene_of self.old }
        ensures header { self.new.header ≡ self.old.header }
        ensures due { RestsFor node result self.new }
    {
        let due = match &self.nodes[node as usize] {
            Some(gateway) => gateway.deadline(),
            None => 0,
        };
        self.dues[node as usize] = Some(due);
        due
    }

    /// A node looks at its timers.
    #[inline(always)]
    pub(crate) fn look(&mut self, at: u64, node: u32)
        requires ready { IsReady (room (ports_on node (networks self.old.header))) self.old }
        requires able { CanStep at node self.old }
        requires node { node < vec_len self.old.nodes }
        ensures { HappensInWorld (Event.Turn at node) self.old self.new }
    {
        let tick = self.tick(node, at);
        self.last = at;
        self.dues[node as usize] = None;
        let place = &mut self.nodes[node as usize];
        step::turn(place, tick, &mut self.desk);
        self.note(node, tick);
    }

    /// A posted datagram reaches its addressee at this address, in a parcel. What is written for a datagram always
    /// reads as the same datagram, so nothing needs to be written or read.
    pub(crate) fn deliver(&mut self, at: u64, k: u64, address: Address, parcel: &mut Parcel)
        requires ready { IsReady (room (ports_on address.node (networks self.old.header)))
            self.old }
        requires time { at ≤ 1000000000000000 }
        requires goes { goes_to (networks self.old.header) (slice_get self.old.sent.items k) ≡ Some
            address }
        requires allowed { Allowed (scene_of self.old) (Event.Take at k) }
        ensures { HappensInWorld (Event.Take at k) self.old self.new }
    {
        let Some(way) = self.sent.way(k) else {
            unreachable!()
        };
        let from = Place::Peer(PeerId(way.from));
        self.sent.pack(k, parcel);
        self.receive(at, address.node, address.port, from, parcel.taken());
    }

    /// A node takes on a port what was read of octets.
    #[inline(always)]
    pub(crate) fn receive(&mut self, at: u64, node: u32, port: Port, from: Place, taken: &Taken)
        requires ready { IsReady (room (ports_on node (networks self.old.header))) self.old }
        requires able { CanStep at node self.old }
        requires node { node < vec_len self.old.nodes }
        requires port { port.0 < length (ports_on node (networks self.old.header)) }
        ensures { HappensBy (answers_all (GotOn port from taken.now)) at node self.old self.new }
    {
        let tick = self.tick(node, at);
        self.last = at;
        self.dues[node as usize] = None;
        let place = &mut self.nodes[node as usize];
        step::take(place, tick, port, from, taken, &mut self.desk);
        self.note(node, tick);
    }

    /// Notes an event at which no node acts.
    pub(crate) fn pass(&mut self, at: u64)
        requires order { self.old.last ≤ at }
        requires events { self.old.events < 200000 }
        ensures { Passes at self.old self.new }
    {
        self.events += 1;
        self.last = at;
        self.lines.clear();
    }

    /// Notes an event, at which a node put the acts on the desk, if it put any. The event's time
    /// was noted before.
    #[inline(always)]
    fn note(&mut self, node: u32, tick: u64)
        requires { CanNote self.old }
        ensures { Notes self.old.last node tick self.old.header self.old.nodes.items self.old.events
            self.old.sent.items (acts_on self.old.desk) self.new }
    {
        if self.desk.is_empty() {
            self.events += 1;
            self.lines.clear();
        } else {
            self.note_acts(node, tick);
        }
    }

    /// The same where there are acts.
    #[inline(never)]
    fn note_acts(&mut self, node: u32, tick: u64)
        requires { CanNote self.old }
        ensures { Notes self.old.last node tick self.old.header self.old.nodes.items self.old.events
            self.old.sent.items (acts_on self.old.desk) self.new }
    {
        self.events += 1;
        let lines = &mut self.lines;
        self.desk.exchange(lines);
        tell(
            lines.as_mut_slice(),
            &mut self.sent,
            self.events,
            self.last,
            node,
            tick,
        );
    }
}
