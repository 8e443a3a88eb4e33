//! How far the reading of a schedule is.
ghost use Rattle.std.specs.Prelude.{◌≡◌, ◌≢◌, ◌<◌, ◌≤◌, ℕ, true, List, [], ◌∷◌, ◌++◌, length, take};
ghost use Rattle.std.specs.Prelude.{IfSome, MatchBool, MatchResult, MatchOption, Err, codes};
ghost use Rattle.tsp_lines.specs.Lines.{IsAhead, line_ahead};
ghost use Rattle.tsp_schedule.specs.Schedules.{Progress, Untitled, Titled, Drifted, Heading};
ghost use Rattle.tsp_schedule.specs.Schedules.{Running, Takes, TakesNet, IsComplete, next_place};
ghost use Rattle.tsp_schedule.specs.Schedules.{drifted, new_header, Lacks, IsEnded, Refuses};
ghost use Rattle.tsp_schedule.specs.Stages.{StageStands, RunStands, Advances, AdvancesByEvent, Halts, HaltsNode, HaltsNet, HaltsFirst};

use crate::handler::EventHandler;
use crate::run::Run;
use std::alloc::Global;
use std::mem;
use tsp_base::header::{Header, HeaderFault, NodeLine};
use tsp_base::members::Members;
use tsp_lines::cause::Cause;
use tsp_lines::treatment::Stop;
use tsp_script::head_line::{HeadItem, head_line};

/// How far the reading of a schedule is.
#[derive(Drop)]
pub enum Stage<C> {
    /// Nothing was read.
    Untitled,
    /// The title was read, and has this version.
    Titled(u32),
    /// The title of the second version and the drift were read: `strict` must follow.
    Drifted(Header),
    /// The header was read up to these nodes and networks.
    Heading(Header),
    /// The header was read, and at least one line after it.
    Running(Run<C>),
}

/// The refusal of a line of the header.
fn bad_header() -> Stop
    ensures { result ≡ Stop.Bad (codes "header") }
{
    Stop::Bad(Cause::of(b"header"))
}

/// Whether a line with this beginning is a node's.
fn is_node(start: &[u8]) -> bool
    ensures { MatchBool result ((rest : List ℕ) × (start.now ≡ codes "node " ++ rest))
        ((rest : List ℕ) → start.now ≡ codes "node " ++ rest → ⊥) }
{
    matches!(start, [b'n', b'o', b'd', b'e', b' ', ..])
}

/// Whether a line with this beginning is a network's.
fn is_net(start: &[u8]) -> bool
    ensures { MatchBool result ((rest : List ℕ) × (start.now ≡ codes "net " ++ rest))
        ((rest : List ℕ) → start.now ≡ codes "net " ++ rest → ⊥) }
{
    matches!(start, [b'n', b'e', b't', b' ', ..])
}

/// The number of the next line of a header: 3, or 4 for any later one.
fn next_place(header: &Header) -> u32
    ensures { result ≡ next_place header.now }
{
    if header.nodes().is_empty() && !header.strict() {
        3
    } else {
        4
    }
}

/// Whether a header may end: it has a node, and where it has networks each node is on one.
fn is_complete(header: &Header) -> bool
    ensures { MatchBool result (IsComplete header.now) (¬ IsComplete header.now) }
{
    !header.nodes().is_empty() && header.whole()
}

impl<C: EventHandler> Stage<C> {
    /// Reads the next line, without its line feed, or says why it is refused. After a refusal no further line must
    /// be read.
    pub fn advance(&mut self, alloc: Global, line: &[u8]) -> Result<(), Stop>
        ensures next { (p : Progress) → StageStands C.stands p self.old
            → MatchResult result (λ _. Advances C.refused C.stands p line.now self.new)
            (Halts C.refused p line.now) }
        ensures kind { result ≢ Err Stop.WriteFault }
    {
        if let Stage::Running(run) = self {
            return run.advance(line);
        }
        self.go_on(alloc, line)
    }

    /// Reads the first of some lines as `advance` does, if it is that of a turn, a take or octets after the first line
    /// behind the header, and nothing refuses it; gives how many octets it has with its line feed. None for any other,
    /// and then nothing has changed.
    #[inline(always)]
    pub fn try_front(&mut self, text: &[u8]) -> Option<usize>
        ensures tries { (p : Progress) → StageStands C.stands p self.old
            → MatchOption result (StageStands C.stands p self.new)
            (λ count. AdvancesByEvent C.refused C.stands p (line_ahead text.now count) self.new) }
        ensures front { IfSome result (IsAhead text.now) }
    {
        if let Stage::Running(run) = self {
            return run.try_front(text);
        }
        None
    }

    /// Reads the next line of a header, or the first one after it. Only here is there room for another stage,
    /// since each call clears that room.
    #[inline(never)]
    fn go_on(&mut self, alloc: Global, line: &[u8]) -> Result<(), Stop>
        ensures next { (p : Progress) → StageStands C.stands p self.old
            → MatchResult result (λ _. Advances C.refused C.stands p line.now self.new)
            (Halts C.refused p line.now) }
        ensures kind { result ≢ Err Stop.WriteFault }
    {
        match mem::replace(self, Stage::Untitled).next(alloc, line) {
            Ok(next) => {
                *self = next;
                Ok(())
            }
            Err(stop) => Err(stop),
        }
    }

    /// The stage after the next line, or why the line is refused.
    fn next(self, alloc: Global, line: &[u8]) -> Result<Stage<C>, Stop>
        ensures next { (p : Progress) → StageStands C.stands p self
            → MatchResult result (Advances C.refused C.stands p line.now)
            (Halts C.refused p line.now) }
        ensures kind { result ≢ Err Stop.WriteFault }
    {
        match self {
            Stage::Untitled => Self::title(line),
            Stage::Titled(version) => Self::drift(alloc, version, line),
            Stage::Drifted(header) => Self::strict(header, line),
            Stage::Heading(header) => Self::head(alloc, header, line),
            Stage::Running(run) => Self::behind(run, line),
        }
    }

    /// Reads the title.
    fn title(line: &[u8]) -> Result<Stage<C>, Stop>
        ensures next { MatchResult result (Advances C.refused C.stands Untitled line.now)
            (Halts C.refused Untitled line.now) }
        ensures kind { result ≢ Err Stop.WriteFault }
    {
        match head_line(line, 1) {
            Ok(HeadItem::Title(version)) => Ok(Stage::Titled(version)),
            Ok(_) => unreachable!(),
            Err(_) => Err(bad_header()),
        }
    }

    /// Reads the drift, after the title of this version.
    fn drift(alloc: Global, version: u32, line: &[u8]) -> Result<Stage<C>, Stop>
        ensures next { MatchResult result (Advances C.refused C.stands (Titled version) line.now)
            (Halts C.refused (Titled version) line.now) }
        ensures kind { result ≢ Err Stop.WriteFault }
    {
        match head_line(line, 2) {
            Ok(HeadItem::Drift(drift)) => Ok(Self::drifted(alloc, version, drift)),
            Ok(_) => unreachable!(),
            Err(_) => Err(bad_header()),
        }
    }

    /// The stage after the drift: in the second version `strict` must follow.
    fn drifted(alloc: Global, version: u32, drift: u32) -> Stage<C>
        requires { drift ≤ 1000 }
        ensures { StageStands C.stands (drifted version drift) result }
    {
        let strict = version == 2;
        let header = Header::new(alloc, drift, strict);
        if strict {
            Stage::Drifted(header)
        } else {
            Stage::Heading(header)
        }
    }

    /// Reads `strict`, which the header says already.
    fn strict(header: Header, line: &[u8]) -> Result<Stage<C>, Stop>
        ensures next { (drift : ℕ) → header ≡ new_header drift true
            → MatchResult result (Advances C.refused C.stands (Drifted drift) line.now)
            (Halts C.refused (Drifted drift) line.now) }
        ensures kind { result ≢ Err Stop.WriteFault }
    {
        match head_line(line, 3) {
            Ok(HeadItem::Strict) => Ok(Stage::Heading(header)),
            Ok(_) => Err(bad_header()),
            Err(_) => Err(bad_header()),
        }
    }

    /// Reads a line where a node or a network is expected. `strict` comes before the nodes, and nodes before
    /// networks.
    fn head(alloc: Global, header: Header, line: &[u8]) -> Result<Stage<C>, Stop>
        ensures next { MatchResult result (Advances C.refused C.stands (Heading header) line.now)
            (Halts C.refused (Heading header) line.now) }
        ensures kind { result ≢ Err Stop.WriteFault }
    {
        match head_line(line, next_place(&header)) {
            Ok(HeadItem::Node(node)) => Self::node(header, node),
            Ok(HeadItem::Net(members)) => Self::net(header, &members),
            Ok(HeadItem::NotHead) => Self::first(alloc, header, line),
            Ok(HeadItem::Strict) => Err(bad_header()),
            Ok(_) => unreachable!(),
            Err(_) => Err(bad_header()),
        }
    }

    /// Adds a node to the header.
    fn node(mut header: Header, node: NodeLine) -> Result<Stage<C>, Stop>
        ensures next { MatchResult result (λ next. Takes header node
            × (next ≡ Stage.Heading (record header { nodes = header.nodes ++ node ∷ [] })))
            (HaltsNode header node) }
        ensures kind { result ≢ Err Stop.WriteFault }
    {
        if !header.nets().is_empty() {
            return Err(bad_header());
        }
        match header.push(node) {
            Ok(()) => Ok(Stage::Heading(header)),
            Err(HeaderFault::OutOfMemory) => Err(Stop::OutOfMemory),
            Err(_) => Err(bad_header()),
        }
    }

    /// Adds a network to the header.
    fn net(mut header: Header, members: &Members) -> Result<Stage<C>, Stop>
        ensures next { MatchResult result (λ next. TakesNet header members.now
            × (next ≡ Stage.Heading (record header { nets = header.nets ++ members.now ∷ [] })))
            (HaltsNet header members.now) }
        ensures kind { result ≢ Err Stop.WriteFault }
    {
        match header.net(members.numbers()) {
            Ok(()) => Ok(Stage::Heading(header)),
            Err(HeaderFault::OutOfMemory) => Err(Stop::OutOfMemory),
            Err(_) => Err(bad_header()),
        }
    }

    /// Reads the first line after the header, which must be complete: it has a node, and each node has a network.
    fn first(alloc: Global, header: Header, line: &[u8]) -> Result<Stage<C>, Stop>
        ensures next { MatchResult result (λ next. IsComplete header
            × Advances C.refused C.stands (Running header []) line.now next)
            (HaltsFirst C.refused header line.now) }
        ensures kind { result ≢ Err Stop.WriteFault }
    {
        if !is_complete(&header) {
            return Err(bad_header());
        }
        match Run::begin(alloc, header) {
            Ok(run) => Self::behind(run, line),
            Err(_) => Err(Stop::OutOfMemory),
        }
    }

    /// Reads a line after the header.
    fn behind(mut run: Run<C>, line: &[u8]) -> Result<Stage<C>, Stop>
        ensures next { (p : Progress) → RunStands C.stands p run
            → MatchResult result (Advances C.refused C.stands p line.now)
            (Halts C.refused p line.now) }
        ensures kind { result ≢ Err Stop.WriteFault }
    {
        match run.advance(line) {
            Ok(()) => Ok(Stage::Running(run)),
            Err(stop) => Err(stop),
        }
    }

    /// The cause for which a line of more than 1,024 octets is refused; `start` is its first 8 octets.
    pub fn refuse_long(&self, start: &[u8]) -> Cause
        ensures { (p : Progress) → StageStands C.stands p self.now → (line : List ℕ)
            → 1024 < length line → start.now ≡ take 8 line → Refuses C.refused p line result }
    {
        match self {
            Stage::Untitled => Cause::of(b"header"),
            Stage::Titled(_) => Cause::of(b"header"),
            Stage::Drifted(_) => Cause::of(b"header"),
            Stage::Heading(header) => Self::head_refuses_long(header, start),
            Stage::Running(run) => run.refuse_long(),
        }
    }

    /// The cause for which a long line is refused where a node or a network is expected.
    fn head_refuses_long(header: &Header, start: &[u8]) -> Cause
        ensures { (line : List ℕ) → 1024 < length line → start.now ≡ take 8 line
            → Refuses C.refused (Heading header.now) line result }
    {
        if is_node(start) {
            return Cause::of(b"header");
        }
        if is_net(start) {
            return Cause::of(b"header");
        }
        if !is_complete(header) {
            return Cause::of(b"header");
        }
        Cause::of(b"line")
    }

    /// None where the input may end here, else the cause for which it may not: `header` or `no-end`.
    pub fn lacks(&self) -> Option<Cause>
        ensures { (p : Progress) → StageStands C.stands p self.now
            → MatchOption result (IsEnded p) (Lacks p) }
    {
        match self {
            Stage::Untitled => Some(Cause::of(b"header")),
            Stage::Titled(_) => Some(Cause::of(b"header")),
            Stage::Drifted(_) => Some(Cause::of(b"header")),
            Stage::Heading(header) => Some(Self::head_lacks(header)),
            Stage::Running(run) => run.lacks(),
        }
    }

    /// What is missing where the input ends after a line of the header.
    fn head_lacks(header: &Header) -> Cause
        ensures { Lacks (Heading header.now) result }
    {
        if is_complete(header) {
            Cause::of(b"no-end")
        } else {
            Cause::of(b"header")
        }
    }
}
