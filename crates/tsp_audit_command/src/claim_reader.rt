//! The lines that are claimed of a schedule's events: each is read, must fit, and is put with its event. The front page
//! says what fits, lacks, passed and at hand mean.
ghost use Rattle.std.specs.Prelude.{◌≡◌, ◌↔◌, [], Some, length, IsTrue, IfOk, MatchResult, codes};

use std::alloc::{AllocError, Global};
use std::marker::Model;
use tsp_audit::premised::{all_kept, keep_with};
use tsp_audit::premises::Premises;
use tsp_audit::small_event::SmallEvent;
use tsp_base::header::Header;
use tsp_base::trace::Line2;
use tsp_claims::claims::Claims;
use tsp_lines::cause::Cause;
use tsp_lines::treatment::Stop;
use tsp_script::act_reader::act_of;

/// The most lines that may be claimed, of all events together.
const MOST_LINES: u64 = 20_000;

/// The refusal with the cause `history`: of a line that doesn't fit, and of a line or the input's end before which an
/// event lacks something.
fn bad_history() -> Stop
    ensures { result ≡ Stop.Bad (codes "history") }
{
    Stop::Bad(Cause::of(b"history"))
}

/// The events of a schedule, and the lines that are claimed of them so far: those of the events
/// that were passed, and those of the event at hand. After a fault no further line must be read.
#[derive(Drop)]
pub(crate) struct ClaimReader {
    /// Where memory comes from.
    pub(crate) alloc: Global,
    /// All events of the schedule, the oldest first: at most 20,000.
    pub(crate) events: Vec<SmallEvent>,
    /// The header of the schedule, which has 1 to 16 nodes, and the lines of the events that were passed, as a
    /// history; what the next line must fit, and what is judged.
    pub(crate) claims: Claims,
    /// For each event that was passed, the oldest first, how many lines of the history stand up to its end.
    pub(crate) ends: Vec<u32>,
    /// The lines so far of the event at hand, which `claims` has counted.
    pub(crate) pending: Vec<Line2>,
    /// Which premises the events that were passed keep.
    pub(crate) premises: Premises,
}

impl Model for ClaimReader {
    ghost use Rattle.std.specs.Prelude.{[], length, drop};
    ghost use Rattle.tsp_audit_command.specs.ClaimReaders.{ClaimReaderValue};
    ghost use Rattle.tsp_audit_command.specs.Sound.{Sound, claims_on};

    ghost Value = { ClaimReaderValue };

    ghost view = { λ c. record {
      header = c.claims.header;
      passed = claims_on c.events.items c.ends.items c.claims;
      told = c.pending.items;
      ahead = drop (length c.ends.items) c.events.items;
    } };

    ghost invariant = { λ c. Sound c.claims.header c.events.items c.claims c.ends.items
        c.pending.items c.premises };
}

impl ClaimReader {
    ghost use Rattle.tsp_audit_command.specs.ClaimReaders.{FitsHere, lines_told, pass_one, passes, passes_all};
    ghost use Rattle.tsp_audit_command.specs.Listings.{AreListed, IsAudited};
    ghost use Rattle.tsp_audit_command.specs.Readings.{Claimed};
    ghost use Rattle.tsp_audit_command.specs.Stands.{AddsLine, ClaimAdvances, HaltsReading, HaltsAdding};
    ghost use Rattle.tsp_audit_command.specs.Stands.{HaltsTelling, TellsMore, Unpassed};

    /// Before the first claimed line of these events, which come oldest first. Fails only if out of memory, and then
    /// drops them and the header.
    pub(crate) fn begin(
        alloc: Global,
        header: Header,
        events: Vec<SmallEvent>,
    ) -> Result<ClaimReader, AllocError>
        requires header { IsAudited header }
        requires listed { AreListed (length header.nodes) events.items }
        ensures { IfOk result (λ c. c ≡ record {
          header = header;
          passed = [];
          told = [];
          ahead = events.items;
        }) }
    {
        let claims = Claims::new(alloc, header)?;
        Ok(ClaimReader {
            alloc,
            events,
            claims,
            ends: Vec::new(alloc),
            pending: Vec::new(alloc),
            premises: all_kept(),
        })
    }

    /// Passes the event at hand. `Bad` with `history` where there is none, or where it lacks something with the lines
    /// that it has; else fails only if out of memory.
    fn pass_one(&mut self) -> Result<(), Stop>
        ensures { MatchResult result (λ _. pass_one self.old ≡ Some self.new)
            (Unpassed (pass_one self.old)) }
    {
        let at = self.ends.len();
        let e = match self.events.get(at) {
            Some(e) => e.event(),
            None => return Err(bad_history()),
        };
        if self.claims.lacks(&e) {
            return Err(bad_history());
        }
        if self.ends.reserve(1).is_err() {
            return Err(Stop::OutOfMemory);
        }
        let premises = keep_with(self.premises, &self.events[..at], self.claims.posts(), &e);
        if self.claims.add(&e, self.pending.as_slice()).is_err() {
            return Err(Stop::OutOfMemory);
        }
        let end = self.claims.lines().len() as u32;
        self.ends.push_reserved(end);
        self.pending.clear();
        self.premises = premises;
        Ok(())
    }

    /// Passes this many events, one after the other; fails where one of them does, as `pass_one` does.
    fn pass(&mut self, count: u64) -> Result<(), Stop>
        ensures { MatchResult result (λ _. passes count self.old ≡ Some self.new)
            (Unpassed (passes count self.old)) }
    {
        for _ in 0..count {
            match self.pass_one() {
                Ok(()) => {}
                Err(stop) => return Err(stop),
            }
        }
        Ok(())
    }

    /// Passes all events that are left; fails as `pass` does.
    pub(crate) fn pass_all(&mut self) -> Result<(), Stop>
        ensures { MatchResult result (λ _. passes_all self.old ≡ Some self.new)
            (Unpassed (passes_all self.old)) }
    {
        let left = self.events.len() - self.ends.len();
        self.pass(left as u64)
    }

    /// Whether a line fits as the next one of the event at hand; no line does where there is none.
    fn fits(&self, line: &Line2) -> bool
        ensures { IsTrue result ↔ FitsHere self.now line.now }
    {
        match self.events.get(self.ends.len()) {
            Some(e) => self.claims.fits(&e.event(), line),
            None => false,
        }
    }

    /// How many lines are claimed so far, with those of the event at hand.
    fn lines(&self) -> u64
        ensures { result ≡ lines_told self.now }
    {
        self.claims.told() + self.pending.len() as u64
    }

    /// Adds a line to those of the event at hand. `Bad` with `history` where it doesn't fit as the next one; `Limit`
    /// where it does, but 20,000 lines are claimed already; else fails only if out of memory.
    fn add(&mut self, line: Line2) -> Result<(), Stop>
        ensures { MatchResult result (λ _. AddsLine self.old line self.new)
            (HaltsAdding self.old line) }
    {
        if !self.fits(&line) {
            return Err(bad_history());
        }
        if self.lines() >= MOST_LINES {
            return Err(Stop::Limit);
        }
        if self.pending.reserve(1).is_err() {
            return Err(Stop::OutOfMemory);
        }
        self.claims.count(&line.placed.act);
        self.pending.push_reserved(line);
        Ok(())
    }

    /// Passes the events before that of the line, and adds the line to those of its event. `Bad` with `history` where
    /// one of those lacks something, where there is no event of this number, and where the line doesn't fit, as when
    /// its event was passed before. `Limit` where it fits and is line 20,001; else fails only if out of memory.
    fn tell(&mut self, line: Line2) -> Result<(), Stop>
        ensures { MatchResult result (λ _. TellsMore self.old line self.new)
            (HaltsTelling self.old line) }
    {
        let before = line.event.saturating_sub(self.claims.events() + 1);
        match self.pass(before) {
            Ok(()) => self.add(line),
            Err(stop) => Err(stop),
        }
    }

    /// Reads a claimed line, without its line feed. `Bad` with `line` where it is no line of a trace; else as `tell`.
    pub(crate) fn line(&mut self, line: &[u8]) -> Result<(), Stop>
        ensures { MatchResult result (λ _. ClaimAdvances self.old line.now self.new)
            (HaltsReading (Claimed self.old) line.now) }
    {
        match act_of(line) {
            Ok(read) => self.tell(read),
            Err(_) => Err(Stop::Bad(Cause::of(b"line"))),
        }
    }
}
