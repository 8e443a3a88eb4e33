//! The line of a network in a schedule's header.
ghost use Rattle.std.specs.Prelude.{◌≡◌, ℕ, ◌^◌, ◌<◌, ◌++◌, ◌∷◌, List, length, decimal, codes, IfSome, IfNone, IsSomeAnd};
ghost use Rattle.std.specs.List.{All};
ghost use Rattle.tsp_script.specs.Schedules.{joined_text, IsNetLine, ReadsHead};
ghost use Rattle.tsp_script.specs.Words.{NoDigit};

use crate::digit_reader::front_digits;
use crate::head_line::{HeadItem, after};
use crate::line_fault::LineFault;
use crate::numbers::long_of;
use arrayvec::ArrayVec;
use tsp_base::members::{Members, is_ascending};

/// The number that a text begins with, and what follows it; None exactly where no number of 32 bits is written so.
#[inline(always)]
pub(crate) fn front_member(text: &[u8]) -> Option<(u32, &[u8])>
    ensures found { IfSome result (λ r. (r.0 < 2 ^ 32) × NoDigit r.1.now
        × (text.now ≡ decimal r.0 ++ r.1.now)) }
    ensures none { IfNone result ((n : ℕ) (rest : List ℕ) → n < 2 ^ 32 → NoDigit rest
        → text.now ≡ decimal n ++ rest → ⊥) }
{
    let (number, rest) = front_digits(text)?;
    Some((long_of(number)?, rest))
}

/// The numbers of a text; None where there are more than 64, or where they aren't written so.
fn numbers_in(text: &[u8]) -> Option<ArrayVec<u32, 64>>
    ensures reads { (ns : List ℕ) → IsNetLine ns → text.now ≡ joined_text ns
        → IsSomeAnd result (λ r. r.items ≡ ns) }
    ensures found { IfSome result (λ r. (text.now ≡ joined_text r.items) × (0 < length r.items)) }
    ensures small { IfSome result (λ r. All (λ n. n < 2 ^ 32) r.items) }
{
    let mut numbers = ArrayVec::new();
    let (first, behind) = front_member(text)?;
    numbers.push(first);
    let mut rest = behind;
    while !rest.is_empty() {
        let next = after(rest, b" ")?;
        let (number, behind) = front_member(next)?;
        let Ok(()) = numbers.try_push(number) else {
            return None;
        };
        rest = behind;
    }
    Some(numbers)
}

/// Reads what follows `net`.
fn read_net(text: &[u8]) -> Option<Members>
    ensures none { IfNone result ((members : List ℕ) → IsNetLine members
        → text.now ≡ joined_text members → ⊥) }
    ensures found { IfSome result (λ members. text.now ≡ joined_text members) }
    ensures range { IfSome result IsNetLine }
{
    let numbers = numbers_in(text)?;
    if !is_ascending(numbers.as_slice()) {
        return None;
    }
    Members::of(numbers.as_slice())
}

/// What a line is that begins with `net `.
pub(crate) fn net_line(line: &[u8], rest: &[u8]) -> Result<HeadItem, LineFault>
    requires { line.now ≡ codes "net " ++ rest.now }
    ensures { ReadsHead 4 line.now result }
{
    match read_net(rest) {
        Some(members) => Ok(HeadItem::Net(members)),
        None => Err(LineFault::Bad),
    }
}
