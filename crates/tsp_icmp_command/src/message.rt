//! A Timestamp message in hexadecimal.
ghost use Rattle.std.specs.Prelude.{◌≡◌, ◌≤◌, length, MatchOption};
ghost use Rattle.std.specs.declared.result.Result.{Result};
ghost use Rattle.tsp_icmp.specs.declared.timestamp.Timestamp.{Timestamp};
ghost use Rattle.tsp_icmp.specs.declared.timestamp.IcmpFault.{IcmpFault};
ghost use Rattle.tsp_icmp_command.specs.Records.{SaysInHex, expected, icmp_fault_word};

use tsp_icmp::{IcmpFault, Timestamp, icmp_decode};
use tsp_script::numbers::octets_of;

/// The message of a word of hexadecimal, whose letters may be in either case, or its fault. None where the
/// word isn't pairs of hexadecimal digits, at least one.
pub(crate) fn message_in(word: &[u8]) -> Option<Result<Timestamp, IcmpFault>>
    requires { length word.now ≤ 1024 }
    ensures { MatchOption result ((message : Result Timestamp IcmpFault)
        → SaysInHex word.now message → ⊥) (λ message. SaysInHex word.now message) }
{
    let octets = octets_of(word)?;
    if octets.is_empty() {
        return None;
    }
    Some(icmp_decode(octets.as_slice()))
}

/// The message, if it is a reply (or, with `reply` false, a request). The other one has the fault `Kind`.
pub(crate) fn expected(
    message: Result<Timestamp, IcmpFault>,
    reply: bool,
) -> Result<Timestamp, IcmpFault>
    ensures { result ≡ expected reply message }
{
    let t = message?;
    if t.reply == reply {
        Ok(t)
    } else {
        Err(IcmpFault::Kind)
    }
}

/// The word of a fault.
pub(crate) fn icmp_fault_word(fault: IcmpFault) -> &'static [u8]
    ensures word { result.now ≡ icmp_fault_word fault }
    ensures short { length result.now ≤ 8 }
{
    match fault {
        IcmpFault::Length => b"length",
        IcmpFault::Kind => b"kind",
        IcmpFault::Code => b"code",
        IcmpFault::Checksum => b"checksum",
    }
}
