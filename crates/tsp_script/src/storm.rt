//! The generator of schedules.
ghost use Rattle.std.specs.Prelude.{◌≡◌, ◌<◌, ◌≤◌, ◌↔◌, ◌+◌, ◌*◌, ◌^◌, ℕ, IsSome, ◌∷◌, length, decimal};
ghost use Rattle.tsp_script.specs.Schedules.{IsEvent};
ghost use Rattle.tsp_script.specs.Storms.{request_octets, request_event};

use arrayvec::ArrayVec;
use itoa::Buffer;
use std::marker::Model;
use tsp_base::datagram::Datagram;
use tsp_base::event::Event;
use tsp_base::header::NodeLine;
use tsp_base::name::Name;
use tsp_base::octets::Octets;
use tsp_base::place::{Place, Port};
use tsp_base::plain::Plain;
use tsp_base::stamp::Stamp;
use tsp_codec::encode;

/// A datagram is taken at most this long after it was posted, in microseconds.
const RECENT: u64 = 20_000_000;

/// What the generator gives next.
#[derive(Drop)]
pub enum Draw {
    /// The next event.
    Event(Event),
    /// A question to the caller: when was the datagram with this number posted? The answer goes into the next
    /// call of `next`. The event takes the datagram if that was lately.
    Ask(u64),
}

/// What the generator chooses, without the octets of a request.
#[derive(Clone, Copy)]
pub enum Choice {
    /// An event without octets.
    Plain(Plain),
    /// A stranger's request.
    Request {
        /// The true time.
        at: u64,
        /// The node that takes it.
        node: u32,
        /// The request's word.
        word: u64,
    },
    /// A question to the caller, as `Draw::Ask` is.
    Ask(u64),
}

/// A stranger's request at a node, as an event.
pub fn request(at: u64, node: u32, word: u64) -> Event
    requires { at ≤ 1000000000000000 }
    ensures event { result ≡ request_event at node word }
    ensures range { IsEvent result }
{
    Event::Bytes {
        at,
        node,
        port: Port(0),
        from: Place::Stranger,
        octets: request_octets(word),
    }
}

/// A schedule that is computed from a number: first a line for each node, then a boot of each node, and
/// then turns, takes of datagrams that were posted lately, and strangers' requests.
#[derive(Drop)]
pub struct Storm {
    state: u64,
    nodes: u32,
    named: u32,
    given: u32,
    at: u64,
    asked: Option<u64>,
}

impl Model for Storm {
    ghost use Rattle.tsp_script.specs.Storms.{StormValue, storm_of, IsStorm};

    ghost Value = { StormValue };

    ghost view = { λ s. storm_of s.state s.nodes s.named s.given s.at s.asked };

    ghost invariant = { λ s. IsStorm (storm_of s.state s.nodes s.named s.given s.at s.asked) };
}

impl Storm {
    ghost use Rattle.std.specs.Prelude.{None, pos, ◌-ℤ◌};
    ghost use Rattle.tsp_script.specs.Storms.{storm_begins, moved, drawn, storm_line, storm_named};
    ghost use Rattle.tsp_script.specs.Storms.{gave, boots_next, turns_one, asks_one, asks_or_turns, as_event};
    ghost use Rattle.tsp_script.specs.Storms.{storm_draw, storm_take, storm_next, IsDraw};
    ghost use Rattle.tsp_script.specs.Storms.{draw_of, IsChoice};

    /// The generator that begins with this number, for 1 to 64 nodes.
    pub fn new(seed: u64, nodes: u32) -> Storm
        requires some { 1 ≤ nodes }
        requires few { nodes ≤ 64 }
        ensures { result ≡ storm_begins seed nodes }
    {
        Storm {
            state: seed,
            nodes,
            named: 0,
            given: 0,
            at: 0,
            asked: None,
        }
    }

    /// The line of the next node. It is called once for each node, before anything else.
    pub fn head(&mut self) -> NodeLine
        requires first { self.old.given ≡ 0 }
        requires more { self.old.named < self.old.nodes }
        ensures line { result ≡ storm_line self.old }
        ensures after { self.new ≡ storm_named self.old }
    {
        let name = node_name(self.named);
        let rate = self.rate();
        let wall = self.wall();
        self.named += 1;
        NodeLine {
            name,
            rate,
            wall,
            may: true,
        }
    }

    /// A clock's rate, from -100 to 100.
    fn rate(&mut self) -> i32
        ensures moves { self.new ≡ moved self.old }
        ensures value { result ≡ pos (drawn 201 (moved self.old)) -ℤ pos 100 }
    {
        let drawn = self.draw(201) as i32;
        drawn - 100
    }

    /// A wall clock at most a second from 0, in microseconds.
    fn wall(&mut self) -> i64
        ensures moves { self.new ≡ moved self.old }
        ensures value { result ≡ pos (drawn 2000001 (moved self.old)) -ℤ pos 1000000 }
    {
        let drawn = self.draw(2_000_001) as i64;
        drawn - 1_000_000
    }

    /// The next event, or a question. `posted` is how many datagrams were posted so far. After a question,
    /// `recent` is the true time (microseconds) at which that datagram was posted; else it is None. A schedule
    /// has at most 200,000 events.
    pub fn next(&mut self, posted: u64, recent: Option<u64>) -> Draw
        requires named { self.old.named ≡ self.old.nodes }
        requires few { self.old.given < 200000 }
        requires recent { IsSome recent ↔ IsSome self.old.asked }
        ensures next { (result, self.new) ≡ storm_next posted recent self.old }
        ensures range { IsDraw posted result }
    {
        match self.choice(posted, recent) {
            Choice::Plain(plain) => Draw::Event(plain.event()),
            Choice::Request { at, node, word } => Draw::Event(request(at, node, word)),
            Choice::Ask(k) => Draw::Ask(k),
        }
    }

    /// The same as `next`, but an event's octets are left to `request`.
    #[inline(always)]
    pub fn choice(&mut self, posted: u64, recent: Option<u64>) -> Choice
        requires named { self.old.named ≡ self.old.nodes }
        requires few { self.old.given < 200000 }
        requires recent { IsSome recent ↔ IsSome self.old.asked }
        ensures next { (draw_of result, self.new) ≡ storm_next posted recent self.old }
        ensures range { IsChoice posted result }
    {
        let Some(time) = recent else {
            return self.choose(posted);
        };
        match self.asked {
            Some(k) => self.answer(k, time),
            None => self.choose(posted),
        }
    }

    /// What comes next, where no question is open.
    #[inline(always)]
    fn choose(&mut self, posted: u64) -> Choice
        requires few { self.old.given < 200000 }
        requires quiet { self.old.asked ≡ None }
        ensures next { (draw_of result, self.new) ≡ storm_draw posted self.old }
        ensures range { IsChoice posted result }
    {
        if self.given < self.nodes {
            return self.boot();
        }
        let at = self.at + self.draw(20_001);
        let c = self.draw(8);
        if c < 4 {
            self.turn(at)
        } else if c < 7 {
            self.ask(at, posted)
        } else {
            self.request(at)
        }
    }

    /// A question for one of the last datagrams, or a turn where none was posted.
    fn ask(&mut self, at: u64, posted: u64) -> Choice
        requires few { self.old.given < 200000 }
        requires time { at ≤ 20000 * (self.old.given + 1) }
        ensures next { (draw_of result, self.new) ≡ asks_or_turns at posted self.old }
        ensures range { IsChoice posted result }
    {
        if posted == 0 {
            return self.turn(at);
        }
        let among = posted.min(4 * self.nodes as u64);
        let k = posted - 1 - self.draw(among);
        self.at = at;
        self.asked = Some(k);
        Choice::Ask(k)
    }

    /// The event after a question whose answer is this time: the datagram's take, or a turn where the time is too
    /// long ago.
    fn answer(&mut self, k: u64, time: u64) -> Choice
        requires few { self.old.given < 200000 }
        requires number { k < 2 ^ 64 }
        ensures next { (draw_of result, self.new) ≡ as_event (storm_take k time self.old) }
        ensures range { (posted : ℕ) → IsChoice posted result }
    {
        let at = self.at;
        if at > time && at - time > RECENT {
            return self.turn(at);
        }
        self.give(at);
        Choice::Plain(Plain::Take { at, datagram: k })
    }

    /// A boot of the next node.
    fn boot(&mut self) -> Choice
        requires few { self.old.given < self.old.nodes }
        ensures next { (draw_of result, self.new) ≡ as_event (boots_next self.old) }
        ensures range { (posted : ℕ) → IsChoice posted result }
    {
        self.step();
        let node = self.given;
        self.give(0);
        Choice::Plain(Plain::Boot {
            at: 0,
            node,
            word: self.state,
        })
    }

    /// A turn of a node that is drawn at random.
    fn turn(&mut self, at: u64) -> Choice
        requires few { self.old.given < 200000 }
        requires time { at ≤ 20000 * (self.old.given + 1) }
        ensures next { (draw_of result, self.new) ≡ as_event (turns_one at self.old) }
        ensures range { (posted : ℕ) → IsChoice posted result }
    {
        let node = self.draw(self.nodes as u64) as u32;
        self.give(at);
        Choice::Plain(Plain::Turn { at, node })
    }

    /// A stranger's request at a node that is drawn at random.
    fn request(&mut self, at: u64) -> Choice
        requires few { self.old.given < 200000 }
        requires time { at ≤ 20000 * (self.old.given + 1) }
        ensures next { (draw_of result, self.new) ≡ as_event (asks_one at self.old) }
        ensures range { (posted : ℕ) → IsChoice posted result }
    {
        let node = self.draw(self.nodes as u64) as u32;
        let word = self.state;
        self.give(at);
        Choice::Request { at, node, word }
    }

    /// Counts an event of this time.
    fn give(&mut self, at: u64)
        requires few { self.old.given < 200000 }
        requires time { at ≤ 20000 * (self.old.given + 1) }
        ensures { self.new ≡ gave at self.old }
    {
        self.given += 1;
        self.at = at;
        self.asked = None;
    }

    /// Moves the state on, and gives a number below this one.
    fn draw(&mut self, below: u64) -> u64
        requires { 0 < below }
        ensures moves { self.new ≡ moved self.old }
        ensures value { result ≡ drawn below (moved self.old) }
        ensures small { result < below }
    {
        self.step();
        (self.state >> 33) % below
    }

    /// Moves the state on.
    fn step(&mut self)
        ensures { self.new ≡ moved self.old }
    {
        self.state = self
            .state
            .wrapping_mul(6_364_136_223_846_793_005)
            .wrapping_add(1_442_695_040_888_963_407);
    }
}

/// The name of a node: `n` and its number.
fn node_name(number: u32) -> Name
    requires { number < 64 }
    ensures { result ≡ 110 ∷ decimal number }
{
    let mut octets = ArrayVec::<u8, 255>::new();
    octets.push(b'n');
    let mut buffer = Buffer::new();
    let _ = octets.try_extend_from_slice(buffer.format(number).as_bytes());
    match Name::of(octets.as_slice()) {
        Ok(name) => name,
        Err(_) => unreachable!(),
    }
}

/// The octets of a request with this word.
fn request_octets(word: u64) -> Octets
    ensures octets { result ≡ request_octets word }
    ensures count { length result ≡ 28 }
{
    let request = Datagram::Stamp(Stamp::Request { word, counter: 0 });
    match Octets::of(encode(&request).as_slice()) {
        Some(octets) => octets,
        None => unreachable!(),
    }
}
