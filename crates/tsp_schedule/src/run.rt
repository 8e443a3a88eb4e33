//! The part of a schedule after its header.
ghost use Rattle.std.specs.Prelude.{◌≡◌, ◌≢◌, ◌≤◌, ◌<◌, ℕ, List, [], length, true, false};
ghost use Rattle.std.specs.Prelude.{IfOk, IfSome, MatchBool, MatchOption, MatchResult, None, Err};
ghost use Rattle.tsp_base.specs.Headers.{is_whole};
ghost use Rattle.tsp_base.specs.declared.event.Event.{Event};
ghost use Rattle.tsp_schedule.specs.Schedules.{IsEnded, Lacks, Progress, Refuses};
ghost use Rattle.tsp_schedule.specs.Stages.{Halts, ReadsOn, RunAdvances, RunStands, Treats};
ghost use Rattle.tsp_schedule.specs.Stages.{AdvancesByEvent, TriesEvent, TriesFront};
ghost use Rattle.tsp_lines.specs.Lines.{IsAhead, line_ahead};
ghost use Rattle.tsp_schedule.specs.declared.stage.Stage.{Stage};
ghost use Rattle.tsp_base.specs.Plains.{event_in};
ghost use Rattle.tsp_script.specs.Schedules.{IsEvent};

use crate::faults::stop_of;
use crate::handler::EventHandler;
use std::alloc::{AllocError, Global};
use tsp_base::event::Event;
use tsp_base::header::Header;
use tsp_base::plain::Plain;
use tsp_lines::cause::Cause;
use tsp_lines::line_feed::first_line;
use tsp_lines::treatment::Stop;
use tsp_script::event_line::{EventItem, HandedLine, event_line, handed_line, plain_ahead};

/// The state after the lines that follow a header.
#[derive(Drop)]
pub struct Run<C> {
    /// The handler of the events.
    pub handler: C,
    /// Whether the last line, `end`, was read.
    pub over: bool,
}

impl<C: EventHandler> Run<C> {
    /// Before the first line after the header. Fails only if out of memory.
    pub(crate) fn begin(alloc: Global, header: Header) -> Result<Run<C>, AllocError>
        requires some { 1 ≤ length header.nodes }
        requires whole { is_whole header ≡ true }
        ensures { IfOk result (λ run. C.stands header [] run.handler × (run.over ≡ false)) }
    {
        match C::begin(alloc, header) {
            Ok(handler) => Ok(Run {
                handler,
                over: false,
            }),
            Err(fault) => Err(fault),
        }
    }

    /// Reads a line after the header: an event, or the last line.
    #[inline(always)]
    pub(crate) fn advance(&mut self, line: &[u8]) -> Result<(), Stop>
        ensures next { (p : Progress) → RunStands C.stands p self.old
            → MatchResult result (λ _. RunAdvances C.refused C.stands p line.now self.new)
            (Halts C.refused p line.now) }
        ensures kind { result ≢ Err Stop.WriteFault }
    {
        if self.over {
            return Err(Stop::Bad(Cause::of(b"after-end")));
        }
        self.go_on(line)
    }

    /// The cause for which a line of more than 1,024 octets is refused.
    pub(crate) fn refuse_long(&self) -> Cause
        ensures { (p : Progress) → RunStands C.stands p self.now → (line : List ℕ)
            → 1024 < length line → Refuses C.refused p line result }
    {
        if self.over {
            return Cause::of(b"after-end");
        }
        Cause::of(b"line")
    }

    /// None where the input may end here, else the cause for which it may not.
    pub(crate) fn lacks(&self) -> Option<Cause>
        ensures { (p : Progress) → RunStands C.stands p self.now
            → MatchOption result (IsEnded p) (Lacks p) }
    {
        if self.over {
            return None;
        }
        Some(Cause::of(b"no-end"))
    }

    /// Reads a line where the last line wasn't read yet.
    fn go_on(&mut self, line: &[u8]) -> Result<(), Stop>
        requires { self.old.over ≡ false }
        ensures next { ReadsOn C.refused C.stands self.old line.now self.new result }
        ensures kind { result ≢ Err Stop.WriteFault }
    {
        match event_line(line) {
            Ok(EventItem::Event(e)) => self.happen(&e),
            Ok(EventItem::End) => {
                self.over = true;
                Ok(())
            }
            Err(_) => Err(Stop::Bad(Cause::of(b"line"))),
        }
    }

    /// Lets an event happen.
    fn happen(&mut self, e: &Event) -> Result<(), Stop>
        requires { IsEvent e.now }
        ensures next { Treats C.refused C.stands self.old e.now self.new result }
        ensures over { self.new.over ≡ self.old.over }
        ensures kind { result ≢ Err Stop.WriteFault }
    {
        match self.handler.event(e) {
            Ok(()) => Ok(()),
            Err(fault) => Err(stop_of(fault)),
        }
    }

    /// Lets an event without octets happen. False where it is refused, and then nothing has changed.
    fn try_plain(&mut self, plain: &Plain) -> bool
        requires { IsEvent (event_in plain.now) }
        ensures next { TriesEvent C.refused C.stands self.old (event_in plain.now) self.new result }
        ensures over { self.new.over ≡ self.old.over }
    {
        match self.handler.plain(plain) {
            Ok(()) => true,
            Err(_) => false,
        }
    }

    /// Lets an event of these octets happen. False where it is refused, and then nothing has changed.
    fn try_octets(&mut self, handed: HandedLine, octets: &[u8]) -> bool
        requires { IsEvent (Event.Bytes handed.at handed.node handed.port handed.from octets.now) }
        ensures next { TriesEvent C.refused C.stands self.old (Event.Bytes handed.at handed.node
            handed.port handed.from octets.now) self.new result }
        ensures over { self.new.over ≡ self.old.over }
    {
        let HandedLine {
            at,
            node,
            port,
            from,
            count: _,
        } = handed;
        match self.handler.bytes(at, node, port, from, octets) {
            Ok(()) => true,
            Err(_) => false,
        }
    }

    /// Reads the first of some lines where it is one with octets, which are handed on from where they were read; gives
    /// how many octets it has with its line feed. None where it is another, or its event is refused, and then nothing
    /// has changed.
    #[inline(never)]
    fn try_bytes(&mut self, text: &[u8]) -> Option<usize>
        requires { self.old.over ≡ false }
        ensures tries { TriesFront C.refused C.stands self.old text.now self.new result }
        ensures front { IfSome result (IsAhead text.now) }
    {
        let line = first_line(text)?;
        let mut octets = [0; 512];
        let handed = handed_line(line, &mut octets)?;
        if self.try_octets(handed, &octets[..handed.count]) {
            Some(line.len() + 1)
        } else {
            None
        }
    }

    /// Reads the first of some lines where it is that of a turn, a take or octets, and the last line wasn't read yet;
    /// None as with `try_bytes`.
    #[inline(always)]
    fn try_on(&mut self, text: &[u8]) -> Option<usize>
        requires { self.old.over ≡ false }
        ensures tries { TriesFront C.refused C.stands self.old text.now self.new result }
        ensures front { IfSome result (IsAhead text.now) }
    {
        // The most frequent events have no octets: their lines are read in place.
        let Some((plain, count)) = plain_ahead(text) else {
            return self.try_bytes(text);
        };
        if self.try_plain(&plain) {
            Some(count)
        } else {
            None
        }
    }

    /// Reads the first of some lines where it is that of a turn, a take or octets, and nothing refuses it; gives how
    /// many octets it has with its line feed. None for any other, and then nothing has changed.
    #[inline(always)]
    pub(crate) fn try_front(&mut self, text: &[u8]) -> Option<usize>
        ensures tries { (p : Progress) → RunStands C.stands p self.old
            → MatchOption result (RunStands C.stands p self.new)
            (λ count. AdvancesByEvent C.refused C.stands p (line_ahead text.now count)
            (Stage.Running self.new)) }
        ensures front { IfSome result (IsAhead text.now) }
    {
        if self.over {
            return None;
        }
        self.try_on(text)
    }
}
