//! The number whose digits some octets begin with.
ghost use Rattle.std.specs.Prelude.{◌≡◌, ℕ, ◌+◌, ◌*◌, ◌^◌, ◌≤◌, ◌<◌, ◌++◌, ◌∷◌, List, length, take, decimal};
ghost use Rattle.std.specs.Prelude.{IfSome, IfNone, MatchOption};
ghost use Rattle.tsp_script.specs.Words.{NoDigit};

use crate::eights::eight_digits;

/// So many digits behind a first one are read at a time at most: a number of 18 digits has 64 bits.
const RUN: usize = 17;

/// The value of the first octet as a digit, and what follows it; None where it is no digit.
#[inline(always)]
fn first_digit(octets: &[u8]) -> Option<(u64, &[u8])>
    ensures found { IfSome result (λ r. (r.0 < 10) × (octets.now ≡ (48 + r.0) ∷ r.1.now)) }
    ensures none { IfNone result (NoDigit octets.now) }
{
    let (first, rest) = octets.split_first()?;
    if *first < b'0' || *first > b'9' {
        return None;
    }
    Some(((*first - b'0') as u64, rest))
}

/// The number whose digits are those of `front` and then the first of these, up to what is no digit, and how
/// many of these they are, at most 17.
#[inline(always)]
fn digits_on(front: u64, digits: &[u8]) -> (u64, usize)
    requires { (0 < front) × (front < 10) }
    ensures number { decimal result.0 ≡ decimal front ++ take result.1 digits.now }
    ensures some { 0 < result.0 }
    ensures count { result.1 ≤ length digits.now }
{
    let (start, from) = eight_on(front, digits);
    let most = digits.len().min(RUN);
    let mut number = start;
    for place in from..most {
        let digit = digits[place];
        if digit < b'0' || digit > b'9' {
            return (number, place);
        }
        number = number * 10 + (digit as u64 - 48);
    }
    (number, most)
}

/// The same, of the first eight of these or none.
#[inline(always)]
fn eight_on(front: u64, digits: &[u8]) -> (u64, usize)
    requires { (0 < front) × (front < 10) }
    ensures number { decimal result.0 ≡ decimal front ++ take result.1 digits.now }
    ensures size { (0 < result.0) × (result.0 < 10 ^ (result.1 + 1)) }
    ensures count { (result.1 ≤ length digits.now) × (result.1 ≤ 8) }
{
    if digits.len() < 8 {
        return (front, 0);
    }
    match eight_digits(digits) {
        Some(eight) => (front * 100_000_000 + eight, 8),
        None => (front, 0),
    }
}

/// The number with this digit behind its own; None where it hasn't 64 bits.
fn longer(number: u64, digit: u64) -> Option<u64>
    ensures { MatchOption result (2 ^ 64 ≤ number * 10 + digit) (λ n. n ≡ number * 10 + digit) }
{
    number.checked_mul(10)?.checked_add(digit)
}

/// The number whose digits are those of `front` and then the first of these, and what follows them; None exactly where
/// it hasn't 64 bits.
#[cold]
#[inline(never)]
fn each_digit(front: u64, digits: &[u8]) -> Option<(u64, &[u8])>
    requires { 0 < front }
    ensures found { IfSome result (λ r. (r.0 < 2 ^ 64) × NoDigit r.1.now
        × (decimal front ++ digits.now ≡ decimal r.0 ++ r.1.now)) }
    ensures none { IfNone result ((n : ℕ) (rest : List ℕ) → n < 2 ^ 64 → NoDigit rest
        → decimal front ++ digits.now ≡ decimal n ++ rest → ⊥) }
{
    let mut number = front;
    let mut rest = digits;
    while let Some((digit, behind)) = first_digit(rest) {
        number = longer(number, digit)?;
        rest = behind;
    }
    Some((number, rest))
}

/// The same behind one digit. Most numbers have so few digits that no test of their size is needed.
#[inline(always)]
fn digits_behind(front: u64, digits: &[u8]) -> Option<(u64, &[u8])>
    requires { (0 < front) × (front < 10) }
    ensures found { IfSome result (λ r. (r.0 < 2 ^ 64) × NoDigit r.1.now
        × (decimal front ++ digits.now ≡ decimal r.0 ++ r.1.now)) }
    ensures none { IfNone result ((n : ℕ) (rest : List ℕ) → n < 2 ^ 64 → NoDigit rest
        → decimal front ++ digits.now ≡ decimal n ++ rest → ⊥) }
{
    let (number, count) = digits_on(front, digits);
    let (_, rest) = digits.split_at(count);
    match first_digit(rest) {
        Some(_) => each_digit(number, rest),
        None => Some((number, rest)),
    }
}

/// The number whose digits some octets begin with, and what follows them; None exactly where no number of 64 bits is
/// written so, for instance with a leading zero.
#[inline(always)]
pub(crate) fn front_digits(octets: &[u8]) -> Option<(u64, &[u8])>
    ensures found { IfSome result (λ r. (r.0 < 2 ^ 64) × NoDigit r.1.now
        × (octets.now ≡ decimal r.0 ++ r.1.now)) }
    ensures none { IfNone result ((n : ℕ) (rest : List ℕ) → n < 2 ^ 64 → NoDigit rest
        → octets.now ≡ decimal n ++ rest → ⊥) }
{
    let (first, rest) = first_digit(octets)?;
    if first > 0 {
        return digits_behind(first, rest);
    }
    match first_digit(rest) {
        Some(_) => None,
        None => Some((0, rest)),
    }
}
