//! Eight digits that are read at once.
ghost use Rattle.std.specs.Prelude.{◌≡◌, ℕ, ◌+◌, ◌*◌, ◌^◌, ◌≤◌, ◌<◌, ◌++◌, length, take, decimal, IfSome};
ghost use Rattle.tsp_script.specs.Eights.{eight_value, octets_word, word_at};

/// The high half of each octet of a word.
const HIGH: u64 = 0xF0F0_F0F0_F0F0_F0F0;

/// The word of eight octets `0`. The high half of each is 3.
const ZEROS: u64 = 0x3030_3030_3030_3030;

/// A 6 for each octet of a word: added to `9` it leaves the high half, added to the next octet it doesn't.
const SIXES: u64 = 0x0606_0606_0606_0606;

/// The first eight octets as one word, the first of them the lowest.
#[inline(always)]
fn word_of(octets: &[u8]) -> u64
    requires { 8 ≤ length octets.now }
    ensures { result ≡ word_at octets.now }
{
    octets[0] as u64
        + octets[1] as u64 * 0x100
        + octets[2] as u64 * 0x1_0000
        + octets[3] as u64 * 0x100_0000
        + octets[4] as u64 * 0x1_0000_0000
        + octets[5] as u64 * 0x100_0000_0000
        + octets[6] as u64 * 0x1_0000_0000_0000
        + octets[7] as u64 * 0x100_0000_0000_0000
}

/// The number that eight digits make, which are the octets of a word: their pairs first, and then their fours.
#[inline(always)]
fn joined(word: u64) -> u64
    requires { word ≤ 651061555542690057 }
    ensures { (a b c d e f g h : ℕ) → a < 10 → b < 10 → c < 10 → d < 10 → e < 10 → f < 10
        → g < 10 → h < 10 → word ≡ octets_word a b c d e f g h
        → result ≡ eight_value a b c d e f g h }
{
    let pairs = (word * 10 + (word >> 8)) & 0x00FF_00FF_00FF_00FF;
    let fours = (pairs * 100 + (pairs >> 16)) & 0x0000_FFFF_0000_FFFF;
    (fours * 10_000 + (fours >> 32)) % 0x1_0000_0000
}

/// The number of the first eight octets, where they are digits.
#[inline(always)]
pub(crate) fn eight_digits(octets: &[u8]) -> Option<u64>
    requires { 8 ≤ length octets.now }
    ensures { IfSome result (λ n. (n < 100000000) × ((front : ℕ) → 0 < front
        → front ≤ 10000000000
        → decimal (front * 100000000 + n) ≡ decimal front ++ take 8 octets.now)) }
{
    let word = word_of(octets);
    if word & HIGH != ZEROS {
        return None;
    }
    if (word + SIXES) & HIGH != ZEROS {
        return None;
    }
    Some(joined(word - ZEROS))
}
