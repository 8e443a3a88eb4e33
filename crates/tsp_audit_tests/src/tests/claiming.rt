//! Claims over lines of text.
ghost use Rattle.std.specs.Prelude.{◌≡◌, ◌≤◌, ◌<◌, ◌+◌, true, length, IfSome};
ghost use Rattle.tsp_base.specs.Headers.{is_whole};
ghost use Rattle.tsp_run.specs.Run.{event_at};
ghost use Rattle.tsp_claims.specs.Listed.{NamesNode};

use std::alloc::Global;
use tsp_base::event::Event;
use tsp_base::header::{Header, NodeLine};
use tsp_base::name::Name;
use tsp_base::trace::Line2;
use tsp_claims::audit_fault::AuditFault;
use tsp_claims::claims::Claims;
use tsp_claims::tally::Tally;
use tsp_script::act_reader::act_of;
use tsp_script::event_line::{EventItem, event_line};

/// What should come of lines that are claimed of an event: they are taken in, or the line with this index isn't
/// allowed, or with the index behind the last one, the event lacks something.
pub(crate) type Answer = Result<(), usize>;

/// A header of nodes on one network: the rate of each, in millionths, and its wall at tick 0, in
/// microseconds.
pub fn header_of(alloc: Global, drift: u32, clocks: &[(i32, i64)]) -> Option<Header>
    ensures { IfSome result (λ header. (1 ≤ length header.nodes) × (length header.nodes ≤ 16)
        × (is_whole header ≡ true)) }
{
    if drift > 1000 {
        return None;
    }
    let mut header = Header::new(alloc, drift, false);
    for clock in clocks {
        let line = NodeLine {
            name: Name::empty(),
            rate: clock.0,
            wall: clock.1,
            may: true,
        };
        header.push(line).ok()?;
    }
    if header.nodes().is_empty() || header.nodes().len() > 16 || !header.whole() {
        return None;
    }
    Some(header)
}

/// Two nodes: one without drift whose wall shows 5 at tick 0, and one that gains 1,000 millionths.
pub(crate) fn claims_of_two(alloc: Global) -> Option<Claims> {
    let header = header_of(alloc, 1000, &[(0, 5), (1000, 0)])?;
    Claims::new(alloc, header).ok()
}

/// The event of a schedule's line.
pub fn event_of(text: &[u8]) -> Option<Event> {
    match event_line(text) {
        Ok(EventItem::Event(event)) => Some(event),
        _ => None,
    }
}

/// Whether an event's node is one of so many, and its time is in its range.
fn is_known(e: &Event, nodes: usize) -> bool
    ensures time { result ≡ true → event_at e.now ≤ 1000000000000000 }
    ensures node { result ≡ true → NamesNode nodes e.now }
{
    match e {
        Event::Boot { at, node, .. } => *at <= 1_000_000_000_000_000 && (*node as usize) < nodes,
        Event::Turn { at, node } => *at <= 1_000_000_000_000_000 && (*node as usize) < nodes,
        Event::Take { at, .. } => *at <= 1_000_000_000_000_000,
        Event::Bytes { at, node, .. } => *at <= 1_000_000_000_000_000 && (*node as usize) < nodes,
    }
}

/// Whether an event with so many lines can be claimed.
pub fn is_claimable(claims: &Claims, e: &Event, count: usize) -> bool
    ensures time { result ≡ true → event_at e.now ≤ 1000000000000000 }
    ensures node { result ≡ true → NamesNode (length claims.now.header.nodes) e.now }
    ensures events { result ≡ true → claims.now.events < 20000 }
    ensures lines { result ≡ true → claims.now.told + count ≤ 20000 }
{
    is_known(e, claims.header().nodes().len())
        && claims.events() < 20_000
        && count <= 20_000
        && claims.told() <= 20_000 - count as u64
}

/// The lines of a trace; None where one isn't a trace's.
pub fn lines_of(alloc: Global, text: &str) -> Option<Vec<Line2>> {
    let mut lines = Vec::new(alloc);
    for line in text.lines() {
        lines.push(act_of(line.as_bytes()).ok()?).ok()?;
    }
    Some(lines)
}

/// Claims the lines of a text of an event; None where a text isn't an event's line, the event can't be claimed,
/// or there is no memory.
fn claim(claims: &mut Claims, alloc: Global, event: &str, text: &str) -> Option<Answer> {
    let e = event_of(event.as_bytes())?;
    let lines = lines_of(alloc, text)?;
    if !is_claimable(claims, &e, lines.len()) {
        return None;
    }
    match claims.event(&e, lines.as_slice()) {
        Ok(()) => Some(Ok(())),
        Err(AuditFault::History(index)) => Some(Err(index)),
        Err(AuditFault::OutOfMemory) => None,
    }
}

/// Claims row after row: an event, the lines that are claimed of it, and what should come of it.
/// The index of the first row of which something else comes.
pub(crate) fn first_wrong(
    claims: &mut Claims,
    alloc: Global,
    rows: &[(&str, &str, Answer)],
) -> Option<usize> {
    for (i, (event, text, answer)) in rows.iter().enumerate() {
        if claim(claims, alloc, event, text) != Some(*answer) {
            return Some(i);
        }
    }
    None
}

/// How many events have lines, how many lines these have, and how many lines the history has.
pub(crate) fn counts(claims: &Claims) -> (u64, u64, usize) {
    (claims.events(), claims.told(), claims.lines().len())
}

/// Whether a line is allowed as the next of an event, of which none was counted, and whether the event with that line
/// alone lacks something.
pub(crate) fn looks_at(claims: &Claims, event: &str, text: &str) -> Option<(bool, bool)> {
    let e = event_of(event.as_bytes())?;
    let line = act_of(text.as_bytes()).ok()?;
    if !is_claimable(claims, &e, 1) {
        return None;
    }
    let fits = claims.fits(&e, &line);
    let mut tally = Tally::new();
    tally.count(&line.placed.act);
    Some((fits, tally.lacks(&e)))
}

/// What a node's clock shows more than its tick.
pub(crate) fn base(claims: &Claims, node: u32) -> Option<i128> {
    if (node as usize) < claims.header().nodes().len() {
        Some(claims.base(node))
    } else {
        None
    }
}
