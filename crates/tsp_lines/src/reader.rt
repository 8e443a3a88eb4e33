//! A reader of lines.
ghost use Rattle.std.specs.Prelude.{◌≡◌, ◌≢◌, ℕ, List, ◌≤◌, ◌<◌, ◌+◌, ◌-◌, ◌^◌, [], ◌++◌, length};
ghost use Rattle.std.specs.Prelude.{take, drop, slice_range, true, false, if◌then◌else◌, IfOk};
ghost use Rattle.std.specs.Prelude.{IfSome, MatchBool, MatchOption};
ghost use Rattle.tsp_io.specs.Streams.{Gives};
ghost use Rattle.tsp_lines.specs.Lines.{NoFeed, close, IsOver};
ghost use Rattle.tsp_lines.specs.Readings.{IsNext, ReadsNext, IsPassed, long_of, ends_input, IsFill, meets_end};
ghost use Rattle.tsp_lines.specs.Faults.{Counts};

use crate::buffer::refill;
use crate::line_feed::first_feed;
use crate::next::{Fill, Next};
use arrayvec::ArrayVec;
use std::alloc::{AllocError, Global};
use std::marker::Model;
use tsp_io::source::{Got, Source};

/// The size of the buffer, in octets.
const ROOM: usize = 65536;

/// The greatest length of a line, in octets, without its line feed.
const LONGEST: usize = 1024;

/// How many octets of a long line are remembered.
const START: usize = 8;

/// What is given for a long line that goes on up to this.
fn long_of(next: Next) -> Next
    ensures { result ≡ long_of next }
{
    match next {
        Next::Limit => Next::Limit,
        _ => Next::Long,
    }
}

/// A reader of lines: octets that were read and not used yet, the line last given, and the first octets
/// of the long line last given.
#[derive(Drop)]
pub struct LineReader {
    buf: Vec<u8>,
    start: ArrayVec<u8, START>,
    from: usize,
    to: usize,
    at: usize,
    end: usize,
    got: u64,
    limit: u64,
}

impl Model for LineReader {
    ghost use Rattle.std.specs.Prelude.{◌≡◌, ◌≤◌, ◌<◌, ◌+◌, ◌^◌, slice_range, vec_len};
    ghost use Rattle.tsp_lines.specs.Readings.{ReaderValue};

    ghost Value = { ReaderValue };

    ghost view = { λ r. record {
      line = slice_range r.buf.items r.from r.to;
      start = r.start.items;
      held = slice_range r.buf.items r.at r.end;
      got = r.got;
      limit = r.limit;
    } };

    ghost invariant = { λ r. (vec_len r.buf ≡ 65536) × (r.from ≤ r.to) × (r.to ≤ 65536)
        × (r.at ≤ r.end) × (r.end ≤ 65536) × (r.got ≤ r.limit + 1) × (r.limit < r.got
        → r.at < r.end) × (r.limit < 2 ^ 63) };
}

impl LineReader {
    /// A reader before its first read. It never reads past the first octet after `limit`. Fails only if out
    /// of memory.
    pub fn new(alloc: Global, limit: u64) -> Result<LineReader, AllocError>
        requires { limit < 2 ^ 63 }
        ensures { IfOk result (λ r. r ≡ record {
          line = [];
          start = [];
          held = [];
          got = 0;
          limit = limit;
        }) }
    {
        Ok(LineReader {
            buf: vec![in alloc; 0; ROOM]?,
            start: ArrayVec::new(),
            from: 0,
            to: 0,
            at: 0,
            end: 0,
            got: 0,
            limit,
        })
    }

    /// The line last given, without its line feed.
    pub fn line(&self) -> &[u8]
        ensures { result.now ≡ self.now.line }
    {
        &self.buf[self.from..self.to]
    }

    /// Whether no octet past the limit was read.
    #[inline(always)]
    pub fn is_within(&self) -> bool
        ensures { MatchBool result (self.now.got ≤ self.now.limit) (self.now.limit < self.now.got) }
    {
        self.got <= self.limit
    }

    /// The octets that were read and not used yet.
    #[inline(always)]
    pub fn octets(&self) -> &[u8]
        ensures { result.now ≡ self.now.held }
    {
        &self.buf[self.at..self.end]
    }

    /// Uses so many of these octets.
    #[inline(always)]
    pub fn skip(&mut self, count: usize)
        requires within { count ≤ length self.old.held }
        requires limit { self.old.got ≤ self.old.limit }
        ensures { self.new ≡ record self.old { held = drop count self.old.held } }
    {
        self.at += count;
    }

    /// The first 8 octets of the long line last given.
    pub fn start(&self) -> &[u8]
        ensures { result.now ≡ self.now.start }
    {
        self.start.as_slice()
    }

    /// The first octets of a long line whose beginning is held.
    fn start_of_held(&self) -> ArrayVec<u8, START>
        requires { 1024 < length self.now.held }
        ensures { result.items ≡ take 8 self.now.held }
    {
        let mut start = ArrayVec::new();
        let _ = start.try_extend_from_slice(&self.buf[self.at..self.at + START]);
        start
    }

    /// Remembers the first octets of a long line.
    fn keep(&mut self, start: ArrayVec<u8, START>)
        ensures { self.new ≡ record self.old { start = start.items } }
    {
        self.start = start;
    }

    /// The place of the first line feed that is held.
    fn feed(&self) -> Option<usize>
        ensures first { MatchOption result (NoFeed self.now.held)
            (λ place. NoFeed (take place self.now.held)
            × (self.now.held ≡ close (take place self.now.held) ++ drop (place + 1)
            self.now.held)) }
        ensures within { IfSome result (λ place. place < length self.now.held) }
    {
        first_feed(self.octets())
    }

    /// Takes the line that ends at this place of what is held.
    fn take_line(&mut self, place: usize)
        requires within { place < length self.old.held }
        requires before { self.old.limit < self.old.got → place + 1 < length self.old.held }
        ensures { self.new ≡ record self.old {
          line = take place self.old.held;
          held = drop (place + 1) self.old.held;
        } }
    {
        self.from = self.at;
        self.to = self.at + place;
        self.at = self.to + 1;
    }

    /// Gives the line that ends at this place of what is held.
    fn give(&mut self, place: usize) -> Next
        requires within { place < length self.old.held }
        requires line { NoFeed (take place self.old.held) }
        requires feed { self.old.held ≡ close (take place self.old.held) ++ drop (place + 1)
            self.old.held }
        requires before { self.old.limit < self.old.got → place + 1 < length self.old.held }
        requires most { (self.old.got ≤ self.old.limit + 1) × (length self.old.held ≤ 65536) }
        ensures next { IsNext self.new self.old.held result }
        ensures same { (self.new.got ≡ self.old.got) × (self.new.limit ≡ self.old.limit)
            × (ends_input result ≡ false) × (result ≢ Next.Failed) }
    {
        if place > LONGEST {
            let start = self.start_of_held();
            self.keep(start);
            self.take_line(place);
            return Next::Long;
        }
        self.take_line(place);
        Next::Line
    }

    /// The next line, or `Limit`, where that needs no read; None where more has to be read first.
    #[inline(always)]
    pub fn next_held(&mut self) -> Option<Next>
        ensures next { MatchOption result (NoFeed self.old.held × (self.new.held ≡ self.old.held)
            × (self.new.got ≤ self.new.limit)) (λ next. IsNext self.new self.old.held next
            × (ends_input next ≡ false) × (next ≢ Next.Failed)) }
        ensures same { (self.new.got ≡ self.old.got) × (self.new.limit ≡ self.old.limit)
            × (self.new.got ≤ self.new.limit + 1) }
    {
        let Some(place) = self.feed() else {
            return if self.got > self.limit {
                Some(Next::Limit)
            } else {
                None
            };
        };
        if self.got > self.limit && self.at + place + 1 == self.end {
            return Some(Next::Limit);
        }
        Some(self.give(place))
    }

    /// Reads more after what is held.
    fn fill<S: Source>(&mut self, source: &mut S) -> Fill
        requires room { length self.old.held ≤ 1024 }
        requires within { self.old.got ≤ self.old.limit }
        ensures fills { (octets : List ℕ) × Gives (S.left source.old) (S.left source.new) octets
            × (self.new.held ≡ self.old.held ++ octets)
            × (self.new.got ≡ self.old.got + length octets) × IsFill result octets }
        ensures limit { (self.new.limit ≡ self.old.limit) × (self.new.got ≤ self.new.limit + 1)
            × (length self.new.held ≤ 65536) }
        ensures faults { Counts (S.faults source.old) (S.faults source.new)
            (result ≡ Fill.NotRead) }
        ensures over { result ≡ Fill.Over → IsOver (S.left source.new) }
        ensures ended { S.ended source.new ≡ (if meets_end result then true else S.ended
            source.old) }
    {
        let (from, to) = (self.at, self.end);
        let room = (ROOM - (to - from)) as u64;
        let most = (self.limit + 1 - self.got).min(room) as usize;
        self.from = 0;
        self.to = 0;
        self.at = 0;
        self.end = to - from;
        match refill(source, &mut self.buf, from, to, most) {
            Got::Got(0) => Fill::Over,
            Got::Got(count) => {
                self.end += count;
                self.got += count as u64;
                Fill::More
            }
            Got::Failed => Fill::NotRead,
        }
    }

    /// The last line, once the input's end was read.
    fn last(&mut self) -> Next
        requires last { NoFeed self.old.held }
        requires short { length self.old.held ≤ 1024 }
        requires within { self.old.got ≤ self.old.limit }
        ensures next { IsNext self.new self.old.held result }
        ensures same { (self.new.got ≡ self.old.got) × (self.new.limit ≡ self.old.limit)
            × (ends_input result ≡ true) }
    {
        self.from = self.at;
        self.to = self.end;
        self.at = self.end;
        if self.from == self.to {
            Next::End
        } else {
            Next::Last
        }
    }

    /// Drops what is held.
    fn forget(&mut self)
        requires within { self.old.got ≤ self.old.limit }
        ensures { self.new ≡ record self.old { held = [] } }
    {
        self.at = self.end;
    }

    /// How many octets are held.
    fn held(&self) -> usize
        ensures { result ≡ length self.now.held }
    {
        self.end - self.at
    }

    /// Skips what is held of a long line, and reads on; None where the line still goes on.
    fn pass<S: Source>(&mut self, source: &mut S) -> Option<Next>
        requires within { self.old.got ≤ self.old.limit }
        requires open { S.ended source.old ≡ false }
        ensures passes { (octets : List ℕ) × Gives (S.left source.old) (S.left source.new) octets
            × (self.new.got ≡ self.old.got + length octets) × MatchOption result (NoFeed octets
            × (0 < length octets) × (self.new.got ≤ self.new.limit))
            (λ next. IsPassed self.new octets next) }
        ensures limit { (self.new.limit ≡ self.old.limit) × (self.new.got ≤ self.new.limit + 1) }
        ensures faults { Counts (S.faults source.old) (S.faults source.new)
            (result ≡ Some Next.Failed) }
        ensures over { IfSome result (λ next. ends_input next ≡ true → IsOver (S.left source.new)) }
        ensures ended { MatchOption result (S.ended source.new ≡ false)
            (λ next. S.ended source.new ≡ ends_input next) }
    {
        self.forget();
        match self.fill(source) {
            Fill::More => {}
            Fill::Over => return Some(Next::LongLast),
            Fill::NotRead => return Some(Next::Failed),
        }
        match self.next_held() {
            Some(next) => Some(long_of(next)),
            None => None,
        }
    }

    /// Skips a long line whose beginning is held.
    fn pass_over<S: Source>(&mut self, source: &mut S) -> Next
        requires line { NoFeed self.old.held }
        requires long { 1024 < length self.old.held }
        requires within { self.old.got ≤ self.old.limit }
        requires open { S.ended source.old ≡ false }
        ensures { ReadsNext S.Source source.old source.new self.old self.new result }
    {
        let start = self.start_of_held();
        loop {
            if let Some(next) = self.pass(source) {
                self.keep(start);
                return next;
            }
        }
    }

    /// Whether there is an octet that isn't used yet. Reads where none is held.
    pub fn peek<S: Source>(&mut self, source: &mut S) -> Fill
        requires open { S.ended source.old ≡ false }
        ensures fills { (octets : List ℕ) × Gives (S.left source.old) (S.left source.new) octets
            × (self.new.held ≡ self.old.held ++ octets)
            × (self.new.got ≡ self.old.got + length octets) }
        ensures there { IsFill result self.new.held }
        ensures limit { (self.new.limit ≡ self.old.limit) × (self.new.got ≤ self.new.limit + 1)
            × (length self.new.held ≤ 65536) }
        ensures faults { Counts (S.faults source.old) (S.faults source.new)
            (result ≡ Fill.NotRead) }
        ensures over { result ≡ Fill.Over → IsOver (S.left source.new) }
        ensures ended { S.ended source.new ≡ meets_end result }
    {
        if self.at < self.end {
            return Fill::More;
        }
        self.fill(source)
    }

    /// The next line. Reads as often as it needs.
    pub fn next<S: Source>(&mut self, source: &mut S) -> Next
        requires open { S.ended source.old ≡ false }
        ensures { ReadsNext S.Source source.old source.new self.old self.new result }
    {
        loop {
            if let Some(next) = self.next_held() {
                return next;
            }
            if self.held() > LONGEST {
                return self.pass_over(source);
            }
            match self.fill(source) {
                Fill::More => {}
                Fill::Over => return self.last(),
                Fill::NotRead => return Next::Failed,
            }
        }
    }
}
