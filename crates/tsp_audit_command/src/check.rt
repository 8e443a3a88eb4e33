//! The audit of a claimed history as a treatment of lines.
ghost use Rattle.std.specs.Prelude.{◌≡◌, ◌≢◌, ◌≤◌, ◌<◌, ℕ, true, List, length, take};
ghost use Rattle.std.specs.Prelude.{IfSome, MatchBool, MatchOption, MatchResult, Ok, Err};
ghost use Rattle.tsp_audit_command.specs.ClaimReaders.{unclaimed};
ghost use Rattle.tsp_audit_command.specs.Readings.{Claimed, IsWanting, Reading, RefusesLine, Scheduling, nodes_at};
ghost use Rattle.tsp_audit_command.specs.Stands.{AdvancesReading, Concludes, HaltsReading};
ghost use Rattle.tsp_audit_command.specs.Stands.{HaltsConcluding, HasNodes, EventStands};
ghost use Rattle.tsp_audit_command.specs.Stands.{IsLast, ListingStands, MayClaim, ReadsSchedule, is_over};
ghost use Rattle.tsp_base.specs.Headers.{HeaderValue};
ghost use Rattle.tsp_base.specs.declared.event.Event.{Event};
ghost use Rattle.tsp_lines.specs.Lines.{IsAhead, line_ahead};
ghost use Rattle.tsp_schedule.specs.Schedules.{Ended, IsEnded, Progress};
ghost use Rattle.tsp_schedule.specs.Stages.{StageStands};
ghost use Rattle.tsp_io.specs.Counts.{Rose};

use crate::claim_reader::ClaimReader;
use crate::listing::Listing;
use crate::verdict_text::tell;
use std::alloc::Global;
use std::mem;
use tsp_io::sink::Sink;
use tsp_lines::cause::Cause;
use tsp_lines::output::{Output, Unwritten};
use tsp_lines::treatment::{Stop, Treatment};
use tsp_schedule::stage::Stage;

/// The most nodes that an audited schedule may have.
const MOST_NODES: usize = 16;

/// What the lines read so far come to.
#[derive(Drop)]
pub(crate) enum AuditInput {
    /// The schedule, up to some line before its last one, which is `end`.
    Schedule(Stage<Listing>),
    /// The whole schedule, and the claimed lines after it so far.
    Claims(ClaimReader),
}

/// How many nodes the header of a schedule has so far; 0 before the first one.
fn node_count(stage: &Stage<Listing>) -> usize
    ensures count { (p : Progress) → StageStands ListingStands p stage.now → result ≡ nodes_at p }
    ensures few { HasNodes stage.now result }
{
    match stage {
        Stage::Untitled => 0,
        Stage::Titled(_) => 0,
        Stage::Drifted(_) => 0,
        Stage::Heading(header) => header.nodes().len(),
        Stage::Running(run) => run.handler.header.nodes().len(),
    }
}

/// Whether the last line of a schedule was read.
fn is_over(stage: &Stage<Listing>) -> bool
    ensures { result ≡ is_over stage.now }
{
    match stage {
        Stage::Running(run) => run.over,
        _ => false,
    }
}

/// Reads one line more of a schedule, and says whether it is the last one. `Limit` also if the schedule has more than
/// 16 nodes then; else fails as a stage does.
fn read_on(stage: &mut Stage<Listing>, alloc: Global, line: &[u8]) -> Result<bool, Stop>
    ensures next { (p : Progress) → StageStands ListingStands p stage.old
        → MatchResult result (ReadsSchedule p line.now stage.new)
        (HaltsReading (Scheduling p) line.now) }
    ensures last { result ≡ Ok true → IsLast stage.new }
    ensures kind { result ≢ Err Stop.WriteFault }
{
    match stage.advance(alloc, line) {
        Ok(()) => {
            if node_count(stage) > MOST_NODES {
                return Err(Stop::Limit);
            }
            Ok(is_over(stage))
        }
        Err(stop) => Err(stop),
    }
}

/// Why the input may not end within the schedule: `header` where the header lacks a line, else `no-end`.
fn missing(stage: &Stage<Listing>) -> Cause
    ensures { (p : Progress) → StageStands ListingStands p stage.now → ¬ IsEnded p
        → IsWanting (Scheduling p) result }
{
    match stage.lacks() {
        Some(cause) => cause,
        None => Cause::of(b"no-end"),
    }
}

/// Passes the events that are left, and puts the verdict into `output`. `Bad` with `history` where one of them lacks
/// something; `WriteFault` where a write to the sink fails; else fails only if out of memory. After any of these
/// nothing of the verdict was put.
fn conclude<K: Sink>(
    mut claiming: ClaimReader,
    output: &mut Output,
    sink: &mut K,
) -> Result<(), Stop>
    ensures ends { MatchResult result
        (λ _. Concludes claiming (K.written sink.old) output.old (K.written sink.new) output.new)
        (HaltsConcluding claiming (K.written sink.old) output.old (K.written sink.new) output.new) }
    ensures later { K.faults sink.old ≤ K.faults sink.new }
    ensures cause { result ≡ Err Stop.WriteFault → Rose (K.faults sink.old) (K.faults sink.new)
        × (0 < length output.new) }
    ensures still { result ≢ Err Stop.WriteFault → K.faults sink.new ≡ K.faults sink.old }
{
    match claiming.pass_all() {
        Ok(()) => match claiming.judge() {
            Ok(found) => tell(found, output, sink),
            Err(_) => Err(Stop::OutOfMemory),
        },
        Err(stop) => Err(stop),
    }
}

impl AuditInput {
    /// Before the first line. Takes no memory.
    fn new() -> AuditInput
        ensures { result ≡ AuditInput.Schedule Stage.Untitled }
    {
        AuditInput::Schedule(Stage::Untitled)
    }

    /// Reads one line more; it comes without its line feed, in at most 1,024 octets. `Bad` with the cause if it can't
    /// follow the lines before it. `Limit` where it could but for a limit: it has node 17, event 20,001 or claimed line
    /// 20,001. Else fails only if out of memory. After a fault no further line must be read.
    fn advance(&mut self, alloc: Global, line: &[u8]) -> Result<(), Stop>
        ensures next { (r : Reading) → EventStands r self.old
            → MatchResult result (λ _. AdvancesReading r line.now self.new) (HaltsReading r line.now) }
        ensures kind { result ≢ Err Stop.WriteFault }
    {
        match self {
            AuditInput::Claims(claiming) => claiming.line(line),
            AuditInput::Schedule(stage) => match read_on(stage, alloc, line) {
                Ok(false) => Ok(()),
                Ok(true) => self.claim(alloc),
                Err(stop) => Err(stop),
            },
        }
    }

    /// Begins the claims behind a schedule whose last line was read. Fails only if out of memory. (A call of its own:
    /// it is rare, and the room for the claims, which is cleared at its begin, isn't cleared for each line then.)
    #[inline(never)]
    fn claim(&mut self, alloc: Global) -> Result<(), Stop>
        requires { MayClaim self.old }
        ensures next { (header : HeaderValue) (events : List Event)
            → EventStands (Scheduling (Ended header events)) self.old
            → MatchResult result (λ _. EventStands (Claimed (unclaimed header events)) self.new)
            (λ stop. stop ≡ Stop.OutOfMemory) }
        ensures kind { result ≢ Err Stop.WriteFault }
    {
        let AuditInput::Schedule(stage) = mem::replace(self, AuditInput::new()) else {
            unreachable!();
        };
        let Stage::Running(run) = stage else {
            unreachable!();
        };
        let listing = run.handler;
        match ClaimReader::begin(alloc, listing.header, listing.events) {
            Ok(claiming) => {
                *self = AuditInput::Claims(claiming);
                Ok(())
            }
            Err(_) => Err(Stop::OutOfMemory),
        }
    }

    /// Reads the first of some lines as `advance` does, if it is that of a turn, a take or octets within the schedule,
    /// and nothing refuses it; gives how many octets it has with its line feed. None for any other, and then nothing
    /// has changed.
    fn try_front(&mut self, text: &[u8]) -> Option<usize>
        ensures tries { (r : Reading) → EventStands r self.old
            → MatchOption result (EventStands r self.new)
            (λ count. AdvancesReading r (line_ahead text.now count) self.new) }
        ensures front { IfSome result (IsAhead text.now) }
    {
        let AuditInput::Schedule(stage) = self else {
            return None;
        };
        if node_count(stage) > MOST_NODES {
            return None;
        }
        stage.try_front(text)
    }

    /// The cause for which a line of more than 1,024 octets is refused; `start` is its first 8 octets. In the schedule
    /// it is that of a replay, after the schedule `line`.
    fn refuse_long(&self, start: &[u8]) -> Cause
        ensures { (r : Reading) → EventStands r self.now → (line : List ℕ) → 1024 < length line
            → start.now ≡ take 8 line → RefusesLine r line result }
    {
        match self {
            AuditInput::Schedule(stage) => stage.refuse_long(start),
            AuditInput::Claims(_) => Cause::of(b"line"),
        }
    }
}

/// The treatment of an audit's lines: it takes those of a schedule, and then claimed ones, and puts the verdict on them
/// into the output when the input ends.
#[derive(Drop)]
pub(crate) struct Check {
    alloc: Global,
    /// What the lines so far come to.
    held: AuditInput,
}

impl Check {
    /// Before the first line. Takes no memory.
    pub(crate) fn new(alloc: Global) -> Check
        ensures { result.held ≡ AuditInput.Schedule Stage.Untitled }
    {
        Check {
            alloc,
            held: AuditInput::new(),
        }
    }
}

impl Treatment for Check {
    ghost use Rattle.tsp_audit_command.specs.Meaning.{auditing};
    ghost use Rattle.tsp_audit_command.specs.Stands.{ReadingStands};

    ghost meaning = { auditing };

    ghost stands = { λ c lines. ReadingStands c.held lines };

    fn is_full(&self) -> bool {
        false
    }

    fn try_front<K: Sink>(
        &mut self,
        octets: &[u8],
        _output: &mut Output,
        _sink: &mut K,
    ) -> Result<Option<usize>, Unwritten> {
        Ok(self.held.try_front(octets))
    }

    fn treat<K: Sink>(
        &mut self,
        line: &[u8],
        _output: &mut Output,
        _sink: &mut K,
    ) -> Result<(), Stop> {
        match self.held.advance(self.alloc, line) {
            Ok(()) => Ok(()),
            Err(stop) => Err(stop),
        }
    }

    fn refuse_long(&mut self, start: &[u8]) -> Cause {
        self.held.refuse_long(start)
    }

    fn end<K: Sink>(&mut self, output: &mut Output, sink: &mut K) -> Result<(), Stop> {
        match mem::replace(&mut self.held, AuditInput::new()) {
            AuditInput::Schedule(stage) => Err(Stop::Bad(missing(&stage))),
            AuditInput::Claims(claiming) => conclude(claiming, output, sink),
        }
    }
}
