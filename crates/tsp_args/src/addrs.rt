//! Addresses as arguments.
ghost use Rattle.std.specs.Prelude.{◌≡◌, ◌+◌, ◌^◌, ◌<◌, ◌≤◌, ℕ, ◌∷◌, ◌++◌, length, take, Contains};
ghost use Rattle.std.specs.Prelude.{decimal, IfSome, MatchOption, Some, slice_index_or};
ghost use Rattle.tsp_io.specs.declared.addr.Addr.{Addr};
ghost use Rattle.tsp_args.specs.Addrs.{addr_text, IsAddr};

use std::net::Ipv4Addr;
use tsp_io::addr::Addr;
use tsp_script::numbers::number_of;

/// The place of the first colon.
fn colon_at(word: &[u8]) -> Option<usize>
    ensures { MatchOption result (¬ Contains word.now 58) (λ i. (i < length word.now)
        × ¬ Contains (take i word.now) 58 × (slice_index_or word.now i 0 ≡ 58)) }
{
    word.iter().position(|octet| *octet == b':')
}

/// What is before the first colon, and what follows it; None where there is no colon.
fn at_colon(word: &[u8]) -> Option<(&[u8], &[u8])>
    ensures { MatchOption result (¬ Contains word.now 58) (λ r. (word.now ≡ r.0.now ++ 58 ∷ r.1.now)
        × ¬ Contains r.0.now 58) }
{
    let colon = colon_at(word)?;
    Some((word.split_at(colon).0, word.split_at(colon + 1).1))
}

/// The port of an argument; None where it isn't a number from 1 to 65535.
fn port_of(word: &[u8]) -> Option<u16>
    ensures found { IfSome result (λ n. (1 ≤ n) × (word.now ≡ decimal n)) }
    ensures reads { (n : ℕ) → 1 ≤ n → n < 2 ^ 16 → word.now ≡ decimal n → result ≡ Some n }
{
    let number = number_of(word)?;
    if number == 0 {
        return None;
    }
    u16::try_from(number).ok()
}

/// The address of an argument such as `127.0.0.1:525`; None exactly where it isn't one, for instance with a
/// leading zero, an octet above 255, or a port that isn't from 1 to 65535.
pub fn addr_of(word: &[u8]) -> Option<Addr>
    ensures found { IfSome result (λ a. IsAddr a × (word.now ≡ addr_text a)) }
    ensures reads { (a : Addr) → IsAddr a → word.now ≡ addr_text a → result ≡ Some a }
{
    let (ip, port) = at_colon(word)?;
    let Ok(ip) = Ipv4Addr::parse_ascii(ip) else {
        return None;
    };
    let port = port_of(port)?;
    Some(Addr {
        ip: ip.octets(),
        port,
    })
}
