//! The checksum of Internet messages (RFC 1071).
ghost use Rattle.std.specs.Prelude.{◌≡◌, ◌+◌, ◌-◌, ◌<◌, ◌^◌, fold};
ghost use Rattle.tsp_icmp.specs.Checksums.{ones_sum, words, checksum};

/// The one's complement sum of two words: the carry out of the highest bit is added at the lowest.
fn ones_sum(a: u16, b: u16) -> u16
    ensures { result ≡ ones_sum a b }
{
    let (sum, carry) = a.overflowing_add(b);
    if carry { sum + 1 } else { sum }
}

/// The checksum of octets: the one's complement of the one's complement sum of their words of 16 bits.
pub(crate) fn checksum(octets: &[u8]) -> u16
    ensures { result ≡ checksum octets.now }
{
    let mut sum = 0;
    let mut left = octets;
    while let [high, low, rest @ ..] = left {
        sum = ones_sum(sum, u16::from_be_bytes([*high, *low]));
        left = rest;
    }
    !sum
}
