//! The lines of a schedule after its header.
ghost use Rattle.std.specs.Prelude.{◌≡◌, ℕ, ◌^◌, ◌<◌, ◌≤◌, ◌+◌, ◌++◌, ◌∷◌, List, [], length};
ghost use Rattle.std.specs.Prelude.{decimal, codes, take, drop, Contains, Ok, IfSome, IfNone, IsSomeAnd};
ghost use Rattle.hex.specs.Hex.{decode_of};
ghost use Rattle.tsp_base.specs.declared.event.Event.{Event};
ghost use Rattle.tsp_base.specs.declared.place.Place.{Place};
ghost use Rattle.tsp_base.specs.declared.place.Port.{Port};
ghost use Rattle.tsp_script.specs.declared.event_line.EventItem.{EventItem};
ghost use Rattle.tsp_base.specs.Plains.{event_in};
ghost use Rattle.tsp_script.specs.Plains.{IsTurnOrTake};
ghost use Rattle.tsp_base.specs.declared.plain.Plain.{Plain};
ghost use Rattle.tsp_script.specs.Schedules.{event_text, port_text, IsEvent, IsPlace, SpellsEvent, ReadsEvent};
ghost use Rattle.tsp_script.specs.Traces.{place_text};
ghost use Rattle.tsp_script.specs.Words.{NoDigit};

use crate::digit_reader::front_digits;
use crate::head_line::after;
use crate::line_fault::LineFault;
use crate::net_line::front_member;
use crate::numbers::{front_long, front_number, long_number, number_of, octet_of, octets_in};
use crate::words::{front_word, is_same, part};
use tsp_base::constants::SCHEDULE_END;
use tsp_base::event::Event;
use tsp_base::octets::Octets;
use tsp_base::place::{PeerId, Place, Port};
use tsp_base::plain::Plain;

/// What a line after the header is.
#[derive(Drop)]
pub enum EventItem {
    /// An event.
    Event(Event),
    /// The schedule's last line.
    End,
}

/// Puts the octets of hexadecimal, whose letters may be in either case, at the front of a buffer, and gives how many
/// they are; None where it isn't hexadecimal, or of no octet or more than 300.
fn octets_handed(hex: &[u8], buffer: &mut [u8; 512]) -> Option<usize>
    ensures found { IfSome result (λ n. (decode_of hex.now ≡ Ok (take n buffer.new)) × (1 ≤ n)
        × (n ≤ 300)) }
    ensures none { IfNone result ((octets : List ℕ) → 1 ≤ length octets → length octets ≤ 300
        → decode_of hex.now ≡ Ok octets → ⊥) }
{
    if hex.len() > 600 {
        return None;
    }
    let count = octets_in(hex, buffer)?;
    if count == 0 {
        return None;
    }
    Some(count)
}

/// The time of an event's line, and what follows the space after it.
#[inline(always)]
fn front_time(line: &[u8]) -> Option<(u64, &[u8])>
    ensures found { IfSome result (λ r. (r.0 ≤ 1000000000000000)
        × (line.now ≡ codes "at " ++ (decimal r.0 ++ 32 ∷ r.1.now))) }
    ensures reads { (at : ℕ) (rest : List ℕ) → at ≤ 1000000000000000
        → line.now ≡ codes "at " ++ (decimal at ++ 32 ∷ rest)
        → IsSomeAnd result (λ r. (r.0 ≡ at) × (r.1.now ≡ rest)) }
{
    let line = after(line, b"at ")?;
    let (at, line) = front_number(line)?;
    if at > SCHEDULE_END {
        return None;
    }
    Some((at, line))
}

/// The event of the most frequent lines, a turn or a take, with whose text some octets begin, and what follows it; None
/// exactly where they begin with no such text, or with one that a digit follows.
#[inline(always)]
fn plain_front(octets: &[u8]) -> Option<(Plain, &[u8])>
    ensures found { IfSome result (λ r. IsTurnOrTake r.0 × IsEvent (event_in r.0) × NoDigit r.1.now
        × (octets.now ≡ event_text (event_in r.0) [] ++ r.1.now)) }
    ensures none { IfNone result ((plain : Plain) (rest : List ℕ) → IsTurnOrTake plain
        → IsEvent (event_in plain) → NoDigit rest
        → octets.now ≡ event_text (event_in plain) [] ++ rest → ⊥) }
{
    let (at, rest) = front_time(octets)?;
    if let Some(digits) = after(rest, b"turn ") {
        let (node, rest) = front_member(digits)?;
        return Some((Plain::Turn { at, node }, rest));
    }
    let digits = after(rest, b"take ")?;
    let (datagram, rest) = front_digits(digits)?;
    Some((Plain::Take { at, datagram }, rest))
}

/// The event of a turn's or a take's line; None exactly where the line is neither's.
pub fn plain_line(line: &[u8]) -> Option<Plain>
    ensures found { IfSome result (λ plain. IsTurnOrTake plain
        × SpellsEvent line.now (EventItem.Event (event_in plain))) }
    ensures reads { (plain : Plain) → IsTurnOrTake plain
        → SpellsEvent line.now (EventItem.Event (event_in plain)) → result ≡ Some plain }
{
    let (plain, rest) = plain_front(line)?;
    if rest.is_empty() { Some(plain) } else { None }
}

/// The event of a turn or a take whose line, with its line feed, stands at the front of some octets, and how many
/// octets that is.
#[inline(always)]
pub fn plain_ahead(octets: &[u8]) -> Option<(Plain, usize)>
    ensures { IfSome result (λ r. IsTurnOrTake r.0 × ((line : List ℕ) × (¬ Contains line 10)
        × (r.1 ≡ length line + 1) × (octets.now ≡ (line ++ 10 ∷ []) ++ drop r.1 octets.now)
        × SpellsEvent line (EventItem.Event (event_in r.0)))) }
{
    let (plain, rest) = plain_front(octets)?;
    let rest = after(rest, b"\n")?;
    Some((plain, octets.len() - rest.len()))
}

/// The port that a number names, from 1 on.
fn port_of(word: &[u8]) -> Option<Port>
    ensures found { IfSome result (λ port. (port.0 < 2 ^ 8) × (0 < port.0)
        × (word.now ≡ decimal port.0)) }
    ensures reads { (port : Port) → port.0 < 2 ^ 8 → 0 < port.0 → word.now ≡ decimal port.0
        → result ≡ Some port }
{
    let number = number_of(word)?;
    let port = octet_of(number)?;
    if port == 0 {
        return None;
    }
    Some(Port(port))
}

/// The node and its port, other than 0, that a word names: `N/Q`.
fn node_of(word: &[u8]) -> Option<(u32, Port)>
    ensures found { IfSome result (λ r. (r.0 < 2 ^ 32) × (r.1.0 < 2 ^ 8)
        × (word.now ≡ decimal r.0 ++ port_text r.1)) }
    ensures reads { (node : ℕ) (port : Port) → node < 2 ^ 32 → port.0 < 2 ^ 8 → 0 < port.0
        → word.now ≡ decimal node ++ port_text port
        → IsSomeAnd result (λ r. (r.0 ≡ node) × (r.1 ≡ port)) }
{
    let (node, port) = part(word, b'/');
    let node = long_number(node)?;
    let port = port_of(port)?;
    Some((node, port))
}

/// The node and its port before the first space, and what follows the space: `N` is port 0, `N/Q` port Q.
fn front_node(line: &[u8]) -> Option<(u32, Port, &[u8])>
    ensures found { IfSome result (λ r. (r.0 < 2 ^ 32) × (r.1.0 < 2 ^ 8)
        × (line.now ≡ (decimal r.0 ++ port_text r.1) ++ 32 ∷ r.2.now)) }
    ensures reads { (node : ℕ) (port : Port) (rest : List ℕ) → node < 2 ^ 32 → port.0 < 2 ^ 8
        → line.now ≡ (decimal node ++ port_text port) ++ 32 ∷ rest
        → IsSomeAnd result (λ r. (r.0 ≡ node) × (r.1 ≡ port) × (r.2.now ≡ rest)) }
{
    if let Some((node, rest)) = front_long(line) {
        return Some((node, Port(0), rest));
    }
    let (word, rest) = front_word(line)?;
    let (node, port) = node_of(word)?;
    Some((node, port, rest))
}

/// The place before the first space, and what follows the space.
pub(crate) fn front_place(line: &[u8]) -> Option<(Place, &[u8])>
    ensures found { IfSome result (λ r. IsPlace r.0
        × (line.now ≡ place_text r.0 ++ 32 ∷ r.1.now)) }
    ensures reads { (p : Place) (rest : List ℕ) → IsPlace p → line.now ≡ place_text p ++ 32 ∷ rest
        → IsSomeAnd result (λ r. (r.0 ≡ p) × (r.1.now ≡ rest)) }
{
    if let Some(rest) = after(line, b"- ") {
        return Some((Place::Stranger, rest));
    }
    let (number, rest) = front_long(line)?;
    Some((Place::Peer(PeerId(number)), rest))
}

/// What the line of an event with octets says, except for the octets, which stand at the front of a buffer.
#[derive(Clone, Copy)]
pub struct HandedLine {
    /// The true time.
    pub at: u64,
    /// Which node.
    pub node: u32,
    /// On which of its ports.
    pub port: Port,
    /// Who seems to have sent the octets.
    pub from: Place,
    /// How many octets there are, 1 to 300.
    pub count: usize,
}

/// Reads the line of an event with octets, and puts these at the front of a buffer; None exactly where the line is no
/// such event's.
pub fn handed_line(line: &[u8], buffer: &mut [u8; 512]) -> Option<HandedLine>
    ensures found { IfSome result (λ h. SpellsEvent line.now (EventItem.Event (Event.Bytes h.at
        h.node h.port h.from (take h.count buffer.new)))) }
    ensures count { IfSome result (λ h. h.count ≤ 300) }
    ensures none { IfNone result ((at node : ℕ) (port : Port) (from : Place) (octets : List ℕ)
        → SpellsEvent line.now (EventItem.Event (Event.Bytes at node port from octets)) → ⊥) }
{
    let (at, line) = front_time(line)?;
    let line = after(line, b"bytes ")?;
    let (node, port, line) = front_node(line)?;
    let (from, hex) = front_place(line)?;
    let count = octets_handed(hex, buffer)?;
    Some(HandedLine {
        at,
        node,
        port,
        from,
        count,
    })
}

/// The event of a line with octets; None exactly where the line is no such event's.
fn bytes_line(line: &[u8]) -> Option<Event>
    ensures found { IfSome result (λ e. SpellsEvent line.now (EventItem.Event e)) }
    ensures none { IfNone result ((at node : ℕ) (port : Port) (from : Place) (octets : List ℕ)
        → SpellsEvent line.now (EventItem.Event (Event.Bytes at node port from octets)) → ⊥) }
{
    let mut buffer = [0; 512];
    let handed = handed_line(line, &mut buffer)?;
    let octets = Octets::of(&buffer[..handed.count])?;
    Some(Event::Bytes {
        at: handed.at,
        node: handed.node,
        port: handed.port,
        from: handed.from,
        octets,
    })
}

/// The event of a boot's line; None exactly where the line is no boot's.
fn boot_line(line: &[u8]) -> Option<Event>
    ensures found { IfSome result (λ e. SpellsEvent line.now (EventItem.Event e)) }
    ensures none { IfNone result ((at node word : ℕ)
        → SpellsEvent line.now (EventItem.Event (Event.Boot at node word)) → ⊥) }
{
    let (at, line) = front_time(line)?;
    let line = after(line, b"boot ")?;
    let (node, line) = front_long(line)?;
    let word = number_of(line)?;
    Some(Event::Boot { at, node, word })
}

/// A line after the header: an event, or `end`. `Bad` exactly where it is neither.
pub fn event_line(line: &[u8]) -> Result<EventItem, LineFault>
    ensures reads { ReadsEvent line.now result }
    ensures one { (item : EventItem) → SpellsEvent line.now item → result ≡ Ok item }
{
    if let Some(bytes) = bytes_line(line) {
        return Ok(EventItem::Event(bytes));
    }
    if let Some(boot) = boot_line(line) {
        return Ok(EventItem::Event(boot));
    }
    if let Some(plain) = plain_line(line) {
        return Ok(EventItem::Event(plain.event()));
    }
    if is_same(line, b"end") {
        Ok(EventItem::End)
    } else {
        Err(LineFault::Bad)
    }
}
