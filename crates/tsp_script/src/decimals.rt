//! Numbers as text, two digits at a time.
ghost use Rattle.std.specs.Prelude.{◌≡◌, ◌+◌, ◌/◌, ◌%◌, ◌≤◌, ◌<◌, [], ◌∷◌, ◌++◌, length, decimal};
ghost use Rattle.arrayvec.specs.ArrayVec.{array_vec_len};

use crate::text::Text;

/// The two digits of each number below 100.
static PAIRS: [u8; 200] = *b"0001020304050607080910111213141516171819\
    2021222324252627282930313233343536373839\
    4041424344454647484950515253545556575859\
    6061626364656667686970717273747576777879\
    8081828384858687888990919293949596979899";

/// Writes the two digits of a number below 100.
#[inline(always)]
fn append_pair(out: &mut Text, number: u64)
    requires number { number < 100 }
    requires room { array_vec_len out.old + 2 ≤ 1024 }
    ensures { out.new.items ≡ out.old.items ++ (48 + number / 10) ∷ (48 + number % 10) ∷ [] }
{
    let place = number as usize * 2;
    out.push(PAIRS[place]);
    out.push(PAIRS[place + 1]);
}

/// Writes the four digits of a number below 10,000.
#[inline(always)]
fn append_four(out: &mut Text, number: u64)
    requires number { number < 10000 }
    requires room { array_vec_len out.old + 4 ≤ 1024 }
    ensures { out.new.items ≡ out.old.items ++ (48 + number / 100 / 10)
        ∷ (48 + number / 100 % 10) ∷ (48 + number % 100 / 10) ∷ (48 + number % 100 % 10) ∷ [] }
{
    append_pair(out, number / 100);
    append_pair(out, number % 100);
}

/// Writes a number below 10,000 in decimal.
#[inline(always)]
fn append_short(out: &mut Text, number: u64)
    requires number { number < 10000 }
    requires room { array_vec_len out.old + length (decimal number) ≤ 1024 }
    ensures { out.new.items ≡ out.old.items ++ decimal number }
{
    if number < 10 {
        out.push(b'0' + number as u8);
    } else if number < 100 {
        append_pair(out, number);
    } else if number < 1000 {
        out.push(b'0' + (number / 100) as u8);
        append_pair(out, number % 100);
    } else {
        append_four(out, number);
    }
}

/// Writes a number in decimal.
#[cycle(decimal)]
pub(crate) fn append_decimal(out: &mut Text, number: u64)
    requires room { array_vec_len out.old + length (decimal number) ≤ 1024 }
    ensures { out.new.items ≡ out.old.items ++ decimal number }
{
    if number < 10_000 {
        append_short(out, number);
    } else if number < 100_000_000 {
        append_short(out, number / 10_000);
        append_four(out, number % 10_000);
    } else {
        append_long(out, number);
    }
}

/// The same, of a number of nine digits or more.
#[cycle(decimal)]
#[inline(never)]
fn append_long(out: &mut Text, number: u64)
    requires number { 100000000 ≤ number }
    requires room { array_vec_len out.old + length (decimal number) ≤ 1024 }
    ensures { out.new.items ≡ out.old.items ++ decimal number }
{
    let low = number % 100_000_000;
    append_decimal(out, number / 100_000_000);
    append_four(out, low / 10_000);
    append_four(out, low % 10_000);
}
