//! All nodes of a schedule and all datagrams that they posted.
ghost use Rattle.std.specs.Prelude.{◌≡◌, ◌≤◌, [], ◌∷◌, List, true, length, vec_len, IfOk, OnOk};
ghost use Rattle.std.specs.Prelude.{OnErr, MatchResult, slice_get, None};
ghost use Rattle.tsp_base.specs.Headers.{is_whole};
ghost use Rattle.tsp_run.specs.Networks.{networks};
ghost use Rattle.tsp_networks.specs.Rooms.{AreRooms};
ghost use Rattle.tsp_world.specs.NodesReady.{AreDues, NodesReady};

use crate::setup::{configs_of, places_of};
use std::alloc::{AllocError, Global};
use tsp_base::desk::Desk;
use tsp_base::event::{Event, EventFault};
use tsp_base::header::Header;
use tsp_base::members::Members;
use tsp_gateway::{GateConfig, Gateway};
use tsp_networks::parcel::Parcel;
use tsp_networks::posts::Posts;
use tsp_networks::sheet::Sheet;
use tsp_networks::{all_nodes, networks_of, rooms_of};
use tsp_run::line::Line;

/// The nodes of a schedule, the datagrams that they posted, and the lines of the last event.
pub struct World {
    /// The allocator, for boots.
    pub(crate) alloc: Global,
    /// The nodes' clocks, names and networks.
    pub(crate) header: Header,
    /// The one network of all nodes, used where the header names none.
    pub(crate) one: Vec<Members>,
    /// The configuration of each node.
    pub(crate) configs: Vec<GateConfig>,
    /// How many acts a step of each node may put.
    pub(crate) rooms: Vec<u64>,
    /// The nodes that are up, each in its place.
    pub(crate) nodes: Vec<Option<Gateway>>,
    /// For each node the tick before which a turn of it does nothing, where that is known.
    pub(crate) dues: Vec<Option<u64>>,
    /// The datagrams that were posted, each under its number.
    pub(crate) sent: Posts,
    /// The lines of the last event.
    pub(crate) lines: Vec<Line>,
    /// The acts of a step that is under way, each in its line.
    pub(crate) desk: Sheet,
    /// How many events were accepted.
    pub(crate) events: u64,
    /// The time of the last event, in microseconds.
    pub(crate) last: u64,
    ghost places: { vec_len nodes ≡ length header.nodes },
    ghost rooms_are: { AreRooms (networks header) rooms.items },
    ghost due_places: { vec_len dues ≡ vec_len nodes },
    ghost dues_are: { AreDues dues.items nodes.items },
    ghost few_events: { events ≤ 200000 },
    ghost few_posts: { length sent.items ≤ 1000000 },
    ghost ready: { NodesReady header one.items nodes.items configs.items last },
}

// Not derived, so that whoever drops a world relies on this, and doesn't take its parts apart once more.
impl Drop for World {
    fn drop(self) {
        let World {
            alloc: _,
            header: _,
            one: _,
            configs: _,
            rooms: _,
            nodes: _,
            dues: _,
            sent: _,
            lines: _,
            desk: _,
            events: _,
            last: _,
        } = self;
    }
}

impl World {
    ghost use Rattle.tsp_base.specs.Headers.{HeaderValue};
    ghost use Rattle.tsp_promises.specs.Setting.{Setting};
    ghost use Rattle.tsp_base.specs.declared.event.Event.{Event};
    ghost use Rattle.tsp_run.specs.Premised.{KeptByText};
    ghost use Rattle.tsp_run.specs.Promises.{Promises};
    ghost use Rattle.tsp_run.specs.Refusals.{refusal, scene, IsRefusal};
    ghost use Rattle.tsp_run.specs.Run.{event_at, posted_time, run};
    ghost use Rattle.tsp_run.specs.Setting.{SetBy};
    ghost use Rattle.tsp_world.specs.WorldStands.{WorldStands, scene_of, IsReady, Stays};
    ghost use Rattle.tsp_world.specs.WorldStands.{Occurs, Declines};

    /// A world before its first event. Fails only if out of memory, and then drops the header.
    pub fn new(alloc: Global, header: Header) -> Result<World, AllocError>
        requires some { 1 ≤ length header.nodes }
        requires whole { is_whole header ≡ true }
        ensures { IfOk result (λ world. WorldStands header [] world) }
    {
        let one = all_nodes(alloc, header.nodes().len() as u32)?;
        let configs = configs_of(alloc, &header, networks_of(&header, one.as_slice()))?;
        let nets = networks_of(&header, one.as_slice());
        let rooms = rooms_of(alloc, header.nodes().len() as u32, nets)?;
        let nodes = places_of(alloc, header.nodes().len())?;
        let dues = places_of(alloc, header.nodes().len())?;
        Ok(World {
            alloc,
            header,
            one,
            configs,
            rooms,
            nodes,
            dues,
            sent: Posts::new(alloc),
            lines: Vec::new(alloc),
            desk: Sheet::new(alloc),
            events: 0,
            last: 0,
        })
    }

    /// The lines of the acts of the last accepted event, in order.
    pub fn acts(&self) -> &[Line]
        ensures { result.now ≡ self.now.lines.items }
    {
        self.lines.as_slice()
    }

    /// How many datagrams were posted.
    pub fn posted(&self) -> u64
        ensures { result ≡ length self.now.sent.items }
    {
        self.sent.len() as u64
    }

    /// How many events were accepted.
    pub fn events(&self) -> u64
        ensures { result ≡ self.now.events }
    {
        self.events
    }

    /// The true time of the post with this number, in microseconds; None exactly where no datagram has it.
    pub fn posted_at(&self, k: u64) -> Option<u64>
        ensures { result ≡ posted_time (slice_get self.now.sent.items k) }
    {
        match self.sent.way(k) {
            Some(way) => Some(way.at),
            None => None,
        }
    }

    /// Lets an event happen, or gives the first cause for which it can't: `TimeBack` where its time is before
    /// that of the last event, `NoNode` for a number that no node has or a port that its node doesn't have,
    /// `NoDatagram` for a datagram that was never posted, `NotUp` where the node that would act hasn't
    /// booted, `Limit` where there are 200,000 events or the node's posts might pass 1,000,000. Else it
    /// fails only if out of memory. A refused event changes nothing. The history of the events accepted so
    /// far keeps the promises, and each premise that holds of their text holds of it.
    pub fn event(&mut self, e: &Event) -> Result<(), EventFault>
        requires time { event_at e.now ≤ 1000000000000000 }
        ensures stands { (header : HeaderValue) (events : List Event)
            → WorldStands header events self.old
            → OnOk result (WorldStands header (e.now ∷ events) self.new) }
        ensures promises { (header : HeaderValue) (events : List Event) (setting : Setting)
            → WorldStands header events self.old → SetBy header setting
            → OnOk result (Promises setting (run header (e.now ∷ events))) }
        ensures premises { (header : HeaderValue) (events : List Event)
            → WorldStands header events self.old
            → OnOk result (KeptByText header (e.now ∷ events)) }
        ensures kept { (header : HeaderValue) (events : List Event)
            → WorldStands header events self.old
            → OnErr result (WorldStands header events self.new) }
        ensures fault { (header : HeaderValue) (events : List Event)
            → WorldStands header events self.old
            → MatchResult result (λ _. refusal (scene header events) e.now ≡ None)
            (λ f. IsRefusal (refusal (scene header events) e.now) f) }
    {
        self.occur(e)
    }

    /// Lets an event happen, or gives the first cause for which it can't.
    fn occur(&mut self, e: &Event) -> Result<(), EventFault>
        requires { event_at e.now ≤ 1000000000000000 }
        ensures { MatchResult result (λ _. Occurs e.now self.old self.new)
            (Declines e.now self.old self.new) }
    {
        match e {
            Event::Boot { at, node, word } => self.boot(*at, *node, *word),
            Event::Turn { at, node } => self.turn(*at, *node),
            Event::Take { at, datagram } => self.take(*at, *datagram, &mut Parcel::new()),
            Event::Bytes {
                at,
                node,
                port,
                from,
                octets,
            } => self.bytes(*at, *node, *port, *from, octets.octets()),
        }
    }

    /// Makes room for so many acts of a step, each in its line, and for so many posts. Fails only if out of
    /// memory, and then changes nothing that the world stands for.
    #[inline(always)]
    pub(crate) fn make_room(&mut self, wanted: u64) -> Result<(), AllocError>
        ensures stands { Stays self.old self.new }
        ensures ready { OnOk result (IsReady wanted self.new) }
        ensures same { scene_of self.new ≡ scene_of self.old }
        ensures header { self.new.header ≡ self.old.header }
    {
        let wanted = wanted as usize;
        self.desk.clear();
        self.desk.reserve(wanted)?;
        self.sent.reserve(wanted)?;
        Ok(())
    }
}
