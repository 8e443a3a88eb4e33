//! Octets to messages.
ghost use Rattle.std.specs.Prelude.{◌≡◌, ◌+◌, ◌≤◌, [], ◌∷◌, length, MatchResult, Ok, Err};
ghost use Rattle.std.specs.Int.{w16, w32, from_be_bytes};
ghost use Rattle.tsp_icmp.specs.Checksums.{checksum};
ghost use Rattle.tsp_icmp.specs.Spelling.{octet, without_checksum, icmp_octets, IsTimestamp, IsIcmpFault};
ghost use Rattle.tsp_icmp.specs.declared.timestamp.Timestamp.{Timestamp};
ghost use Rattle.tsp_icmp.specs.declared.timestamp.IcmpFault.{IcmpFault};

use crate::checksum::checksum;
use crate::encoding::{REPLY, REQUEST};
use crate::timestamp::{IcmpFault, Timestamp};

/// The length of a message, in octets.
const SIZE: usize = 20;

/// The number of the two octets at a place, in network order.
fn u16_at(octets: &[u8], place: usize) -> u16
    requires { place + 2 ≤ length octets.now }
    ensures { result ≡ from_be_bytes w16 (octet octets.now place ∷ octet octets.now
        (place + 1) ∷ []) }
{
    u16::from_be_bytes([octets[place], octets[place + 1]])
}

/// The number of the four octets at a place, in network order.
fn u32_at(octets: &[u8], place: usize) -> u32
    requires { place + 4 ≤ length octets.now }
    ensures { result ≡ from_be_bytes w32 (octet octets.now place ∷ octet octets.now
        (place + 1) ∷ octet octets.now (place + 2) ∷ octet octets.now (place + 3) ∷ []) }
{
    u32::from_be_bytes([
        octets[place],
        octets[place + 1],
        octets[place + 2],
        octets[place + 3],
    ])
}

/// The checksum that these octets should have.
fn right_checksum(octets: &[u8]) -> u16
    requires { length octets.now ≡ 20 }
    ensures { result ≡ checksum (without_checksum octets.now) }
{
    let mut blank = [0; SIZE];
    blank.copy_from_slice(octets);
    blank[2] = 0;
    blank[3] = 0;
    checksum(&blank)
}

/// The message, or the first fault: `icmp_decode`, without the clauses that say that this answer is the only
/// one.
fn first_reading(octets: &[u8]) -> Result<Timestamp, IcmpFault>
    ensures { MatchResult result (λ t. IsTimestamp t × (octets.now ≡ icmp_octets t))
        (λ fault. IsIcmpFault octets.now fault) }
{
    if octets.len() != SIZE {
        return Err(IcmpFault::Length);
    }
    let reply = match octets[0] {
        REQUEST => false,
        REPLY => true,
        _ => return Err(IcmpFault::Kind),
    };
    if octets[1] != 0 {
        return Err(IcmpFault::Code);
    }
    if u16_at(octets, 2) != right_checksum(octets) {
        return Err(IcmpFault::Checksum);
    }
    Ok(Timestamp {
        reply,
        ident: u16_at(octets, 4),
        seq: u16_at(octets, 6),
        originate: u32_at(octets, 8),
        receive: u32_at(octets, 12),
        transmit: u32_at(octets, 16),
    })
}

/// The message that these octets are, from the ICMP type on, without the IP header. Where they aren't one,
/// the answer is the first of their faults, in the order of `IcmpFault`.
pub fn icmp_decode(octets: &[u8]) -> Result<Timestamp, IcmpFault>
    ensures reads { MatchResult result (λ t. IsTimestamp t × (octets.now ≡ icmp_octets t))
        (λ fault. IsIcmpFault octets.now fault) }
    ensures spelled { (t : Timestamp) → IsTimestamp t → octets.now ≡ icmp_octets t → result ≡ Ok t }
    ensures faulty { (fault : IcmpFault) → IsIcmpFault octets.now fault → result ≡ Err fault }
{
    match first_reading(octets) {
        Ok(t) => Ok(t),
        Err(fault) => Err(fault),
    }
}
