//! The lines of a schedule's header.
ghost use Rattle.std.specs.Prelude.{Bool, ◌≡◌, ℕ, ℤ, ◌^◌, ◌<◌, ◌≤◌, ◌+◌, ◌++◌, ◌∷◌, List, length};
ghost use Rattle.std.specs.Prelude.{decimal, codes, nat_abs, IfSome, IfNone, MatchOption, MatchBool, IsTrue, ◌↔◌};
ghost use Rattle.std.specs.Fmt.{signed_decimal};
ghost use Rattle.std.specs.List.{AllPass};
ghost use Rattle.tsp_base.specs.Names.{IsName};
ghost use Rattle.tsp_base.specs.declared.header.NodeLine.{NodeLine};
ghost use Rattle.tsp_script.specs.declared.head_line.HeadItem.{HeadItem};
ghost use Rattle.tsp_script.specs.Schedules.{is_host, flag_text, node_text, IsHost, IsNodeLine, SpellsHead, ReadsHead};

use crate::line_fault::LineFault;
use crate::net_line::net_line;
use crate::numbers::{front_signed, number_of};
use crate::words::{front_word, is_same, one_of};
use tsp_base::constants::SCHEDULE_END;
use tsp_base::header::NodeLine;
use tsp_base::members::Members;
use tsp_base::name::Name;

/// What a line of the header is.
#[derive(Drop)]
pub enum HeadItem {
    /// The first line, with the version of the format: 1, or 2 where the third line is `strict`.
    Title(u32),
    /// The second line, with the drift in parts in a million, at most 1,000.
    Drift(u32),
    /// The third line `strict`: a candidate wins only with a majority of its network.
    Strict,
    /// A node's line.
    Node(NodeLine),
    /// A network's line.
    Net(Members),
    /// The line comes after the header.
    NotHead,
}

/// Whether an octet is allowed in a node's name: a letter, a digit, a dot, a dash or an underscore.
fn is_host(octet: u8) -> bool
    ensures { result ≡ is_host octet }
{
    matches!(octet, b'a'..=b'z' | b'A'..=b'Z' | b'0'..=b'9' | b'.' | b'-' | b'_')
}

/// Whether each of these octets is allowed in a node's name.
fn are_host(octets: &[u8]) -> bool
    ensures { MatchBool result (AllPass is_host octets.now) (¬ AllPass is_host octets.now) }
{
    for octet in octets {
        if !is_host(*octet) {
            return false;
        }
    }
    true
}

/// The word as a name; None where it isn't 1 to 255 letters, digits, dots, dashes and underscores.
pub fn host_of(word: &[u8]) -> Option<Name>
    ensures reads { IsHost word.now → result ≡ Some word.now }
    ensures same { IfSome result (λ name. name ≡ word.now) }
    ensures range { IfSome result IsHost }
{
    if word.is_empty() || !are_host(word) {
        return None;
    }
    Name::of(word).ok()
}

/// The rate, where its magnitude is at most 1,000.
fn rate_of(rate: i64) -> Option<i32>
    ensures reads { nat_abs rate ≤ 1000 → result ≡ Some rate }
    ensures same { IfSome result (λ r. r ≡ rate) }
    ensures range { IfSome result (λ r. nat_abs r ≤ 1000) }
{
    if rate.unsigned_abs() > 1000 {
        return None;
    }
    i32::try_from(rate).ok()
}

/// Reads what follows `node`.
fn read_node(line: &[u8]) -> Option<NodeLine>
    ensures none { IfNone result ((n : NodeLine) → IsNodeLine n
        → line.now ≡ n.name ++ 32 ∷ (signed_decimal
        n.rate ++ 32 ∷ (signed_decimal n.wall ++ 32 ∷ flag_text n.may)) → ⊥) }
    ensures found { IfSome result (λ n. IsNodeLine n
        × (line.now ≡ n.name ++ 32 ∷ (signed_decimal
        n.rate ++ 32 ∷ (signed_decimal n.wall ++ 32 ∷ flag_text n.may)))) }
{
    let (word, line) = front_word(line)?;
    let name = host_of(word)?;
    let (rate, line) = front_signed(line)?;
    let rate = rate_of(rate)?;
    let (wall, line) = front_signed(line)?;
    if wall.unsigned_abs() > SCHEDULE_END {
        return None;
    }
    let may = one_of(line, b"m", b"s")?;
    Some(NodeLine {
        name,
        rate,
        wall,
        may,
    })
}

/// What follows `front` in a line that begins with it; None where the line doesn't.
#[inline(always)]
pub(crate) fn after<'a>(line: &'a [u8], front: &[u8]) -> Option<&'a [u8]>
    ensures { MatchOption result ((rest : List ℕ) → line.now ≡ front.now ++ rest
        → ⊥) (λ r. line.now ≡ front.now ++ r.now) }
{
    if line.len() < front.len() {
        return None;
    }
    let (start, rest) = line.split_at(front.len());
    if agree(start, front) {
        Some(rest)
    } else {
        None
    }
}

/// Whether two texts of one length are the same. Where that length is a constant, this is a test for each octet.
#[inline(always)]
fn agree(text: &[u8], other: &[u8]) -> bool
    requires { length text.now ≡ length other.now }
    ensures { MatchBool result (text.now ≡ other.now) (text.now ≡ other.now → ⊥) }
{
    for i in 0..other.len() {
        if text[i] != other[i] {
            return false;
        }
    }
    true
}

/// The drift of the second line.
fn drift_of(line: &[u8]) -> Option<u32>
    ensures found { IfSome result (λ p. (p ≤ 1000) × (line.now ≡ codes "drift " ++ decimal p)) }
    ensures none { IfNone result ((p : ℕ) → p ≤ 1000 → line.now ≡ codes "drift " ++ decimal p → ⊥) }
{
    let rest = after(line, b"drift ")?;
    let drift = number_of(rest)?;
    if drift > 1000 {
        return None;
    }
    Some(drift as u32)
}

/// What a line is that begins with `node `.
fn node_line(line: &[u8], rest: &[u8]) -> Result<HeadItem, LineFault>
    requires { line.now ≡ codes "node " ++ rest.now }
    ensures { ReadsHead 4 line.now result }
{
    match read_node(rest) {
        Some(node) => Ok(HeadItem::Node(node)),
        None => Err(LineFault::Bad),
    }
}

/// What a line from the fourth on is.
fn later_line(line: &[u8]) -> Result<HeadItem, LineFault>
    ensures { ReadsHead 4 line.now result }
{
    if let Some(rest) = after(line, b"node ") {
        return node_line(line, rest);
    }
    if let Some(rest) = after(line, b"net ") {
        return net_line(line, rest);
    }
    Ok(HeadItem::NotHead)
}

/// What the third line is.
fn third_line(line: &[u8]) -> Result<HeadItem, LineFault>
    ensures { ReadsHead 3 line.now result }
{
    if is_same(line, b"strict") {
        return Ok(HeadItem::Strict);
    }
    later_line(line)
}

/// What a line of the header is; `place` is its number, from 1. `Bad` comes exactly where the grammar doesn't
/// allow the line at this place. A line from the third on that begins with neither `node ` nor `net `, and
/// isn't the third line `strict`, is `NotHead`.
pub fn head_line(line: &[u8], place: u32) -> Result<HeadItem, LineFault>
    ensures reads { ReadsHead place line.now result }
    ensures one { (item : HeadItem) → SpellsHead place line.now item → result ≡ Ok item }
{
    match place {
        0 => Err(LineFault::Bad),
        1 => title(line),
        2 => match drift_of(line) {
            Some(drift) => Ok(HeadItem::Drift(drift)),
            None => Err(LineFault::Bad),
        },
        3 => third_line(line),
        _ => later_line(line),
    }
}

/// Reads the first line.
fn title(line: &[u8]) -> Result<HeadItem, LineFault>
    ensures { ReadsHead 1 line.now result }
{
    if is_same(line, b"tsp-schedule 1") {
        return Ok(HeadItem::Title(1));
    }
    if is_same(line, b"tsp-schedule 2") {
        return Ok(HeadItem::Title(2));
    }
    Err(LineFault::Bad)
}
