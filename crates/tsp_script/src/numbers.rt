//! Numbers and octets as text.
ghost use Rattle.std.specs.Prelude.{◌≡◌, ℕ, ◌+◌, ◌*◌, ◌^◌, ◌≤◌, ◌<◌, ◌++◌, length, take, decimal};
ghost use Rattle.std.specs.Prelude.{IfSome, IfNone, Ok, IsErr, ℤ, pos, negsuc, suc, List, IsSomeAnd, ◌∷◌};
ghost use Rattle.std.specs.Int.{w64};
ghost use Rattle.std.specs.Int.RustNames.{FitsSigned};
ghost use Rattle.std.specs.Fmt.{signed_decimal};
ghost use Rattle.arrayvec.specs.ArrayVec.{array_vec_len};
ghost use Rattle.tsp_script.specs.Texts.{space};
ghost use Rattle.hex.specs.Hex.{decode_of, encode_lower};

use crate::decimals::append_decimal;
use crate::digit_reader::front_digits;
use crate::head_line::after;
use crate::hexes::value_of;
use crate::text::Text;
use crate::words::front_word;
use arrayvec::ArrayVec;

/// The first magnitude that no positive number with a sign has, and that of the least one: 2^63.
const SIGN: u64 = 0x8000_0000_0000_0000;

/// Writes octets as they are.
#[inline(always)]
pub fn append(out: &mut Text, piece: &[u8])
    requires { array_vec_len out.old + length piece.now ≤ 1024 }
    ensures { out.new.items ≡ out.old.items ++ piece.now }
{
    out.extend(piece);
}

/// Writes a number in decimal, in at most 20 octets.
pub fn append_number(out: &mut Text, number: u64)
    requires { array_vec_len out.old + 20 ≤ 1024 }
    ensures text { out.new.items ≡ out.old.items ++ decimal number }
    ensures short { array_vec_len out.new ≤ array_vec_len out.old + 20 }
{
    append_decimal(out, number);
}

/// Writes a number in decimal, with a dash where it is negative, in at most 20 octets.
pub fn append_signed(out: &mut Text, number: i64)
    requires { array_vec_len out.old + 20 ≤ 1024 }
    ensures text { out.new.items ≡ out.old.items ++ signed_decimal number }
    ensures short { array_vec_len out.new ≤ array_vec_len out.old + 20 }
{
    if number < 0 {
        out.push(b'-');
        append_decimal(out, number.unsigned_abs());
    } else {
        append_decimal(out, number as u64);
    }
}

/// Writes a space and a number.
pub fn append_next_number(out: &mut Text, number: u64)
    requires { array_vec_len out.old + 21 ≤ 1024 }
    ensures text { out.new.items ≡ out.old.items ++ space ++ decimal number }
    ensures short { array_vec_len out.new ≤ array_vec_len out.old + 21 }
{
    out.push(b' ');
    append_number(out, number);
}

/// Writes a space and a number with its sign.
pub fn append_next_signed(out: &mut Text, number: i64)
    requires { array_vec_len out.old + 21 ≤ 1024 }
    ensures text { out.new.items ≡ out.old.items ++ space ++ signed_decimal number }
    ensures short { array_vec_len out.new ≤ array_vec_len out.old + 21 }
{
    out.push(b' ');
    append_signed(out, number);
}

/// Writes octets in hexadecimal, in lower case.
pub fn append_hex(out: &mut Text, octets: &[u8])
    requires { array_vec_len out.old + 2 * length octets.now ≤ 1024 }
    ensures text { out.new.items ≡ out.old.items ++ encode_lower octets.now }
    ensures count { array_vec_len out.new ≡ array_vec_len out.old + 2 * length octets.now }
{
    let mut digits = [0u8; 1024];
    let count = 2 * octets.len();
    let _ = hex::encode_to_slice(octets, &mut digits[..count]);
    append(out, &digits[..count]);
}

/// The number of a decimal text; None exactly where no number of 64 bits is written so, for instance with a
/// sign or a leading zero.
#[inline(always)]
pub fn number_of(word: &[u8]) -> Option<u64>
    ensures found { IfSome result (λ n. word.now ≡ decimal n) }
    ensures reads { (n : ℕ) → n < 2 ^ 64 → word.now ≡ decimal n → result ≡ Some n }
{
    let (number, rest) = front_digits(word)?;
    if rest.is_empty() { Some(number) } else { None }
}

/// The number of 32 bits that a word names.
pub(crate) fn long_number(word: &[u8]) -> Option<u32>
    ensures reads { (n : ℕ) → n < 2 ^ 32 → word.now ≡ decimal n → result ≡ Some n }
    ensures spells { IfSome result (λ n. word.now ≡ decimal n) }
    ensures range { IfSome result (λ n. n < 2 ^ 32) }
{
    let number = number_of(word)?;
    long_of(number)
}

/// The number of a decimal text, with a dash where it is negative; None exactly where no number of 64 bits is
/// written so, for instance with a plus, a leading zero or a negative zero.
pub fn signed_of(word: &[u8]) -> Option<i64>
    ensures found { IfSome result (λ n. word.now ≡ signed_decimal n) }
    ensures reads { (n : ℤ) → FitsSigned w64 n → word.now ≡ signed_decimal n → result ≡ Some n }
{
    match after(word, b"-") {
        Some(digits) => negative_of(number_of(digits)?),
        None => positive_of(number_of(word)?),
    }
}

/// The number below zero of this magnitude; None exactly where that is 0 or above 2^63.
fn negative_of(magnitude: u64) -> Option<i64>
    ensures found { IfSome result (λ z. (n : ℕ) × (z ≡ negsuc n) × (magnitude ≡ suc n)) }
    ensures reads { (n : ℕ) → n < 2 ^ 63 → magnitude ≡ suc n → result ≡ Some (negsuc n) }
{
    if magnitude == 0 || magnitude > SIGN {
        return None;
    }
    Some(-1 - (magnitude - 1) as i64)
}

/// The number as 64 bits with a sign; None if it is 2^63 or more.
fn positive_of(number: u64) -> Option<i64>
    ensures found { IfSome result (λ z. z ≡ pos number) }
    ensures reads { number < 2 ^ 63 → result ≡ Some (pos number) }
{
    if number >= SIGN {
        return None;
    }
    Some(number as i64)
}

/// The octets of a line of hexadecimal, whose letters may be in either case; None exactly where the line
/// isn't pairs of hexadecimal digits.
pub fn octets_of(line: &[u8]) -> Option<ArrayVec<u8, 512>>
    requires { length line.now ≤ 1024 }
    ensures found { IfSome result (λ octets. decode_of line.now ≡ Ok octets.items) }
    ensures none { IfNone result (IsErr (decode_of line.now)) }
{
    let mut buffer = [0u8; 512];
    let count = octets_in(line, &mut buffer)?;
    let mut octets = ArrayVec::new();
    let _ = octets.try_extend_from_slice(&buffer[..count]);
    Some(octets)
}

/// The same, at the front of a buffer; gives how many they are.
pub fn octets_in(line: &[u8], buffer: &mut [u8; 512]) -> Option<usize>
    requires { length line.now ≤ 1024 }
    ensures found { IfSome result (λ n. (n ≤ 512) × (decode_of line.now ≡ Ok (take n buffer.new))) }
    ensures none { IfNone result (IsErr (decode_of line.now)) }
{
    if line.len() % 2 == 1 {
        return None;
    }
    let count = line.len() / 2;
    for place in 0..count {
        let high = value_of(line[2 * place]);
        let low = value_of(line[2 * place + 1]);
        if high > 15 {
            return None;
        }
        if low > 15 {
            return None;
        }
        buffer[place] = high * 16 + low;
    }
    Some(count)
}

/// The number before the first space, and what follows the space; None where there is no space.
#[inline(always)]
pub(crate) fn front_number(line: &[u8]) -> Option<(u64, &[u8])>
    ensures found { IfSome result (λ r. (r.0 < 2 ^ 64)
        × (line.now ≡ decimal r.0 ++ 32 ∷ r.1.now)) }
    ensures reads { (n : ℕ) (rest : List ℕ) → n < 2 ^ 64 → line.now ≡ decimal n ++ 32 ∷ rest
        → IsSomeAnd result (λ r. (r.0 ≡ n) × (r.1.now ≡ rest)) }
{
    let (number, rest) = front_digits(line)?;
    let rest = after(rest, b" ")?;
    Some((number, rest))
}

/// The number of 32 bits before the first space, and what follows the space; None where there is no space.
#[inline(always)]
pub(crate) fn front_long(line: &[u8]) -> Option<(u32, &[u8])>
    ensures found { IfSome result (λ r. (r.0 < 2 ^ 32)
        × (line.now ≡ decimal r.0 ++ 32 ∷ r.1.now)) }
    ensures reads { (n : ℕ) (rest : List ℕ) → n < 2 ^ 32 → line.now ≡ decimal n ++ 32 ∷ rest
        → IsSomeAnd result (λ r. (r.0 ≡ n) × (r.1.now ≡ rest)) }
{
    let (number, rest) = front_number(line)?;
    Some((long_of(number)?, rest))
}

/// The number, maybe with a dash, before the first space, and what follows the space; None where there is no
/// space.
pub(crate) fn front_signed(line: &[u8]) -> Option<(i64, &[u8])>
    ensures found { IfSome result (λ r. line.now ≡ signed_decimal r.0 ++ 32 ∷ r.1.now) }
    ensures reads { (n : ℤ) (rest : List ℕ) → FitsSigned w64 n
        → line.now ≡ signed_decimal n ++ 32 ∷ rest
        → IsSomeAnd result (λ r. (r.0 ≡ n) × (r.1.now ≡ rest)) }
{
    let (word, rest) = front_word(line)?;
    let number = signed_of(word)?;
    Some((number, rest))
}

/// The number as 8 bits; None where it is above 255.
pub(crate) fn octet_of(number: u64) -> Option<u8>
    ensures fits { number < 2 ^ 8 → result ≡ Some number }
    ensures same { IfSome result (λ n. (n ≡ number) × (n < 2 ^ 8)) }
{
    u8::try_from(number).ok()
}

/// The number as 16 bits; None where it is above 65,535.
pub(crate) fn short_of(number: u64) -> Option<u16>
    ensures fits { number < 2 ^ 16 → result ≡ Some number }
    ensures same { IfSome result (λ n. (n ≡ number) × (n < 2 ^ 16)) }
{
    u16::try_from(number).ok()
}

/// The number as 32 bits; None where it is above 2^32 - 1.
pub(crate) fn long_of(number: u64) -> Option<u32>
    ensures fits { number < 2 ^ 32 → result ≡ Some number }
    ensures same { IfSome result (λ n. (n ≡ number) × (n < 2 ^ 32)) }
{
    u32::try_from(number).ok()
}
