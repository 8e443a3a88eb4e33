//! The machine's clocks.
ghost use Rattle.std.specs.Prelude.{◌≡◌, ◌+◌, ℕ, ◌≤◌, ◌<◌, ◌*◌, ◌^◌, [], None, Some, Option, IfSome, IsSome, false, min, pos};
ghost use Rattle.std.specs.Option.{option_map};
ghost use Rattle.tsp_io.specs.Clocks.{IsOrigin, IsWall, comes_to};
ghost use Rattle.tsp_io.specs.Origins.{retuned};
ghost use Rattle.tsp_io.specs.declared.origin.Origin.{Origin};

use crate::counter::Counter;
use crate::machine_clock::machine_micros;
use crate::origin::Origin;
use crate::rate::Rate;
use crate::ticker::Ticker;
use std::rt::Clock;
use std::time::SystemTime;

/// The greatest time of the wall clock: 2^62 microseconds.
const LAST_WALL: u64 = 1 << 62;

/// The machine's monotonic clock as a tick counter, and its wall clock. What they will answer isn't
/// told.
///
/// The counter's first reading is 0; from then on it is how far the machine's clock has come, in
/// microseconds, at the counter's rate: `e + floor(e * parts / 10^9)` when that has come `e` whole
/// microseconds. After a change of the rate it goes on so from the tick of the change. It never falls, and
/// stays at 2^61, some 73,000 years. The wall clock is read once;
/// that reading is the word too. If the machine gives no reading, the counter answers its last one,
/// and wall and word are 0. It has no board.
#[derive(Drop)]
pub struct MachineTicker<R> {
    rt: R,
    rate: Rate,
    start: Option<u64>,
    base: u64,
    elapsed: Option<u64>,
    wall: Option<u64>,
    last: u64,
    counter: Counter,
    ghost bounded: { last ≤ 2 ^ 61 },
}

impl<R: Clock> MachineTicker<R> {
    /// Clocks that weren't read yet, whose counter has this rate, and counts by the machine's
    /// `CLOCK_MONOTONIC`.
    pub fn new(rt: R, rate: Rate) -> MachineTicker<R>
        ensures unread { (result.rate ≡ rate) × (result.start ≡ None) × (result.elapsed ≡ None)
            × (result.wall ≡ None) × (result.last ≡ 0) × (result.base ≡ 0) }
        ensures counter { result.counter ≡ Counter.Monotonic }
    {
        MachineTicker {
            rt,
            rate,
            start: None,
            base: 0,
            elapsed: None,
            wall: None,
            last: 0,
            counter: Counter::Monotonic,
        }
    }

    /// The same clocks, if it is this counter of the machine's that `rt` reads.
    pub fn counted_by(mut self, counter: Counter) -> MachineTicker<R>
        ensures { result ≡ record self { counter = counter } }
    {
        self.counter = counter;
        self
    }

    /// The tick when so many microseconds have passed since the reading from which ticks are counted; the
    /// last one if that isn't known.
    fn come(&self, elapsed: Option<u64>) -> u64
        ensures { result ≡ comes_to self.now.base self.now.rate.speed self.now.last elapsed }
    {
        match elapsed {
            Some(elapsed) => {
                let ticks = self.rate.ticks(elapsed);
                self.base.saturating_add(ticks).min(1 << 61).max(self.last)
            }
            None => self.last,
        }
    }
}

/// The microseconds since the reading from which ticks are counted; the first one is noted. None if the machine gives no reading.
fn since_start(rt: &impl Clock, start: &mut Option<u64>) -> Option<u64>
    ensures first { start.old ≡ None → IfSome result (λ elapsed. elapsed ≡ 0) }
    ensures noted { IfSome result (λ _. IsSome start.new) }
    ensures kept { IfSome start.old (λ first. start.new ≡ Some first) }
{
    let now = machine_micros(rt)?;
    now.checked_sub(*start.get_or_insert(now))
}

/// The microseconds since the reading from which ticks are counted; None if there was none, or the machine
/// gives none now.
fn elapsed_now(rt: &impl Clock, start: Option<u64>) -> Option<u64>
    ensures { start ≡ None → result ≡ None }
{
    machine_micros(rt)?.checked_sub(start?)
}

/// The wall clock, in microseconds since 1970; None if the machine gives no reading, or an earlier
/// one.
fn wall_now(rt: &impl Clock) -> Option<u64> {
    let now = SystemTime::now(rt).ok()?;
    let since = now.duration_since(SystemTime::UNIX_EPOCH).ok()?;
    u64::try_from(since.as_micros()).ok()
}

/// The wall clock as it was at the first call, in microseconds since 1970 and at most 2^62; 0 if
/// there was no reading then.
fn wall_once(rt: &impl Clock, wall: &mut Option<u64>) -> u64
    ensures kept { IfSome wall.old (λ read. wall.new ≡ Some read) }
    ensures read { option_map (λ read. min read (2 ^ 62)) wall.new ≡ Some result }
{
    let read = match *wall {
        Some(read) => read,
        None => wall_now(rt).unwrap_or(0),
    };
    *wall = Some(read);
    read.min(LAST_WALL)
}

impl<R: Clock> Ticker for MachineTicker<R> {
    ghost readings = { λ _. None };

    ghost wall_is = { λ _. None };

    ghost word_is = { λ _. None };

    ghost left_at_wall = { λ _. None };

    ghost last = { λ s. s.last };

    ghost origin_is = { λ _. None };

    ghost delay_is = { λ _. None };

    ghost boarded = { λ _. false };

    ghost marks = { λ _. None };

    ghost views = { λ _. Some [] };

    fn tick(&mut self) -> u64
        ensures low { self.old.last ≤ result }
        ensures high { result ≤ 2 ^ 61 }
        ensures last { self.new.last ≡ result }
        ensures counts { result ≡ comes_to self.old.base self.old.rate.speed self.old.last
            self.new.elapsed }
        ensures rate { (self.new.rate ≡ self.old.rate) × (self.new.base ≡ self.old.base) }
        ensures wall { self.new.wall ≡ self.old.wall }
        ensures first { self.old.start ≡ None → IfSome self.new.elapsed (λ elapsed. elapsed ≡ 0) }
        ensures noted { IfSome self.new.elapsed (λ _. IsSome self.new.start) }
        ensures start { IfSome self.old.start (λ first. self.new.start ≡ Some first) }
        ensures counter { self.new.counter ≡ self.old.counter }
    {
        self.elapsed = since_start(&self.rt, &mut self.start);
        self.last = self.come(self.elapsed);
        self.last
    }

    fn wall(&mut self) -> i64
        ensures range { IsWall result }
        ensures kept { IfSome self.old.wall (λ read. self.new.wall ≡ Some read) }
        ensures read { option_map (λ read. pos (min read (2 ^ 62))) self.new.wall ≡ Some result }
        ensures same { (self.new.last ≡ self.old.last) × (self.new.rate ≡ self.old.rate) }
    {
        wall_once(&self.rt, &mut self.wall) as i64
    }

    fn word(&mut self) -> u64
        ensures kept { IfSome self.old.wall (λ read. self.new.wall ≡ Some read) }
        ensures read { option_map (λ read. min read (2 ^ 62)) self.new.wall ≡ Some result }
        ensures same { (self.new.last ≡ self.old.last) × (self.new.rate ≡ self.old.rate) }
    {
        wall_once(&self.rt, &mut self.wall)
    }

    /// From where the ticks are counted: the first reading, or the moment of the last change of the rate.
    /// None before it, and if its nanoseconds aren't less than 2^63.
    fn origin(&self) -> Option<Origin>
        ensures found { IfSome result (IsOrigin self.now.counter self.now.start self.now.base
            self.now.rate.speed) }
        ensures all { IfSome self.now.start (λ first. first * 1000 < 2 ^ 63 → IsSome result) }
    {
        let nanos = i64::try_from(self.start?.checked_mul(1_000)?).ok()?;
        Some(Origin {
            counter: self.counter.number(),
            nanos,
            tick: self.base,
            rate: self.rate.parts(),
        })
    }

    fn moment(&self) -> u64
        ensures low { self.now.last ≤ result }
        ensures high { result ≤ 2 ^ 61 }
        ensures counts { (elapsed : Option ℕ) × (result
            ≡ comes_to self.now.base self.now.rate.speed self.now.last elapsed) }
    {
        self.come(elapsed_now(&self.rt, self.start))
    }

    fn has_board(&self) -> bool {
        false
    }

    fn mark(&mut self, _at: u64, _octets: &[u8])
        ensures same { self.new ≡ self.old }
    {}

    fn view(&mut self, _at: u64, _buf: &mut [u8]) -> bool
        ensures none { result ≡ false }
        ensures same { self.new ≡ self.old }
    {
        false
    }

    fn retune(&mut self, tick: u64, rate: i64) -> Option<Origin>
        ensures answers { IfSome result (λ now. (before : Origin)
            × IsOrigin self.old.counter self.old.start self.old.base self.old.rate.speed before
            × (retuned tick rate before ≡ Some now)) }
        ensures found { IfSome result (IsOrigin self.new.counter self.new.start self.new.base
            self.new.rate.speed) }
        ensures none { result ≡ None → self.new ≡ self.old }
        ensures all { (before : Origin)
            → IsOrigin self.old.counter self.old.start self.old.base self.old.rate.speed before
            → retuned tick rate before ≡ result }
        ensures same { (self.new.last ≡ self.old.last) × (self.new.wall ≡ self.old.wall)
            × (self.new.counter ≡ self.old.counter) }
    {
        let counted = Rate::of(rate)?;
        let origin = self.origin()?.retuned(tick, rate)?;
        self.start = Some(origin.nanos.unsigned_abs() / 1_000);
        self.base = tick;
        self.rate = counted;
        Some(origin)
    }
}
