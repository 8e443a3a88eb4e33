//! A schedule in the making: the generator, and the world that its events happen in. No `Event` is made, since it
//! is long, and a stranger's request is handed over as what is read from its octets.
ghost use Rattle.std.specs.Prelude.{◌≡◌, ◌<◌, ◌≤◌, ◌+◌, ◌∷◌, List, None, Some, IfOk, IfErr, OnOk};
ghost use Rattle.std.specs.Prelude.{length, MatchResult};
ghost use Rattle.tsp_base.specs.Headers.{HeaderValue};
ghost use Rattle.tsp_base.specs.declared.event.Event.{Event};
ghost use Rattle.tsp_run.specs.Run.{event_at};
ghost use Rattle.tsp_script.specs.declared.storm.Draw.{Draw};
ghost use Rattle.tsp_base.specs.Plains.{event_in};
ghost use Rattle.tsp_script.specs.Storms.{storm_take, draw_of, as_event, IsChoice, request_event};
ghost use Rattle.tsp_storm.specs.Makings.{MakingStands, StopsMaking};
ghost use Rattle.tsp_storm.specs.Schedules.{header_of, storm_events, event_after, next_event};
ghost use Rattle.tsp_args.specs.Storms.{IsStorm};
ghost use Rattle.tsp_world.specs.WorldStands.{WorldStands, Occurs, Declines};

use crate::header::begin;
use std::alloc::{AllocError, Global};
use tsp_args::storm::StormWords;
use tsp_base::event::EventFault;
use tsp_base::place::{Place, Port};
use tsp_base::plain::Plain;
use tsp_base::stamp::Stamp;
use tsp_networks::parcel::Parcel;
use tsp_run::line::Line;
use tsp_script::storm::{Choice, Storm};
use tsp_world::world::World;

/// Why no event more was made.
#[derive(Clone, Copy, PartialEq, Eq, Debug)]
pub enum Stopped {
    /// There is no room for the event with this number, from 1 on.
    Limit(u64),
    /// There was no memory.
    OutOfMemory,
}

/// The generator, the world, and what datagrams are taken in.
#[derive(Drop)]
pub struct Making {
    storm: Storm,
    world: World,
    parcel: Parcel,
}

/// The event that comes after those of a world, as a choice, which isn't a question.
fn draw(storm: &mut Storm, world: &World) -> Choice
    requires some { 1 ≤ storm.old.nodes }
    requires named { storm.old.named ≡ storm.old.nodes }
    requires few { storm.old.given < 200000 }
    requires quiet { storm.old.asked ≡ None }
    ensures next { (header : HeaderValue) (events : List Event)
        → WorldStands header events world.now
        → (draw_of result, storm.new) ≡ as_event (next_event header events storm.old) }
    ensures range { IsChoice (length world.now.sent.items) result }
{
    let posted = world.posted();
    match storm.choice(posted, None) {
        Choice::Ask(k) => match world.posted_at(k) {
            Some(time) => answer(storm, posted, k, time),
            None => unreachable!(),
        },
        choice => choice,
    }
}

/// The event after a question for this datagram, which was posted at this time.
fn answer(storm: &mut Storm, posted: u64, k: u64, time: u64) -> Choice
    requires named { storm.old.named ≡ storm.old.nodes }
    requires few { storm.old.given < 200000 }
    requires asked { storm.old.asked ≡ Some k }
    ensures next { (draw_of result, storm.new) ≡ as_event (storm_take k time storm.old) }
    ensures range { IsChoice posted result }
{
    storm.choice(posted, Some(time))
}

/// Lets an event without octets happen.
fn occur_plain(world: &mut World, parcel: &mut Parcel, plain: &Plain) -> Result<(), EventFault>
    requires { event_at (event_in plain.now) ≤ 1000000000000000 }
    ensures { MatchResult result (λ _. Occurs (event_in plain.now) world.old world.new)
        (Declines (event_in plain.now) world.old world.new) }
{
    match plain {
        Plain::Boot { at, node, word } => world.boot(*at, *node, *word),
        Plain::Turn { at, node } => world.turn(*at, *node),
        Plain::Take { at, datagram } => world.take(*at, *datagram, parcel),
    }
}

/// Lets a stranger's request happen, as it is read from its octets.
#[inline(always)]
fn occur_request(
    world: &mut World,
    parcel: &mut Parcel,
    at: u64,
    node: u32,
    word: u64,
) -> Result<(), EventFault>
    requires { at ≤ 1000000000000000 }
    ensures { MatchResult result (λ _. Occurs (request_event at node word) world.old world.new)
        (Declines (request_event at node word) world.old world.new) }
{
    parcel.put_stamp(Stamp::Request { word, counter: 0 });
    world.hand(at, node, Port(0), Place::Stranger, parcel.taken())
}

/// Lets an event happen that was chosen, which isn't a question.
fn occur(world: &mut World, parcel: &mut Parcel, choice: &Choice) -> Result<(), EventFault>
    requires range { IsChoice (length world.old.sent.items) choice.now }
    requires given { (e : Event) × (draw_of choice.now ≡ Draw.Event e) }
    ensures { (e : Event) → draw_of choice.now ≡ Draw.Event e
        → MatchResult result (λ _. Occurs e world.old world.new) (Declines e world.old world.new) }
{
    match choice {
        Choice::Plain(plain) => occur_plain(world, parcel, plain),
        Choice::Request { at, node, word } => occur_request(world, parcel, *at, *node, *word),
        Choice::Ask(_) => unreachable!(),
    }
}

/// Lets the chosen event happen, which comes after those of the world: `Limit` exactly where there is no room for
/// it, with its number, from 1 on.
fn happen(
    world: &mut World,
    parcel: &mut Parcel,
    words: &StormWords,
    choice: &Choice,
) -> Result<(), Stopped>
    requires words { IsStorm words.now }
    requires more { world.old.events < words.now.events }
    requires stands { WorldStands (header_of words.now) (storm_events words.now world.old.events)
        world.old }
    requires event { draw_of choice.now ≡ Draw.Event (event_after words.now world.old.events) }
    requires range { IsChoice (length world.old.sent.items) choice.now }
    ensures stands { OnOk result (WorldStands (header_of words.now) (storm_events words.now
        (world.old.events + 1)) world.new) }
    ensures stops { IfErr result (λ stop. StopsMaking words.now world.old.events stop) }
{
    match occur(world, parcel, choice) {
        Ok(()) => Ok(()),
        Err(fault) => match fault {
            EventFault::Limit(events, _) => Err(Stopped::Limit(events + 1)),
            EventFault::OutOfMemory => Err(Stopped::OutOfMemory),
            _ => unreachable!(),
        },
    }
}

impl Making {
    /// A schedule without events: a node for each of the words' nodes, and none is up. Fails only
    /// if out of memory.
    pub fn begin(alloc: Global, words: &StormWords) -> Result<Making, AllocError>
        requires { IsStorm words.now }
        ensures stands { IfOk result (λ m. MakingStands words.now m) }
        ensures none { IfOk result (λ m. m.storm.given ≡ 0) }
    {
        let begun = begin(alloc, words)?;
        let world = World::new(alloc, begun.header)?;
        Ok(Making {
            storm: begun.storm,
            world,
            parcel: Parcel::new(),
        })
    }

    /// One event more, which happens in the world: `Limit` exactly where there is no room for it, with its
    /// number, from 1 on.
    pub fn step(&mut self, words: &StormWords) -> Result<(), Stopped>
        requires stands { MakingStands words.now self.old }
        requires more { self.old.storm.given < words.now.events }
        ensures stands { OnOk result (MakingStands words.now self.new) }
        ensures given { OnOk result (self.new.storm.given ≡ self.old.storm.given + 1) }
        ensures event { OnOk result (WorldStands (header_of words.now) (event_after words.now
            self.old.storm.given ∷ storm_events words.now self.old.storm.given) self.new.world) }
        ensures stops { IfErr result (λ stop. StopsMaking words.now self.old.storm.given stop) }
    {
        let world = &mut self.world;
        let choice = draw(&mut self.storm, world);
        happen(world, &mut self.parcel, words, &choice)
    }

    /// The lines of the last event's acts.
    pub fn acts(&self) -> &[Line]
        ensures { result.now ≡ self.now.world.lines.items }
    {
        self.world.acts()
    }

    /// How many datagrams were posted.
    pub fn posted(&self) -> u64
        ensures { result ≡ length self.now.world.sent.items }
    {
        self.world.posted()
    }
}
