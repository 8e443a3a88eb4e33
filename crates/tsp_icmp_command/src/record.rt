//! The words of a line.
ghost use Rattle.std.specs.Prelude.{◌≡◌, ℕ, ◌≤◌, ◌<◌, length, decimal, MatchOption};
ghost use Rattle.tsp_icmp_command.specs.Records.{IsRecord};
ghost use Rattle.tsp_icmp_command.specs.declared.record.Record.{Record};

use crate::message::message_in;
use tsp_base::name::Name;
use tsp_icmp::{IcmpFault, Timestamp, standard};
use tsp_script::head_line::host_of;
use tsp_script::numbers::number_of;
use tsp_script::words::cut;

/// A line's four words: whose clock was asked, the request and the reply, each a message or its fault, and
/// when the reply came.
#[derive(Drop)]
pub struct Record {
    /// The name of the other clock.
    pub name: Name,
    /// The request.
    pub request: Result<Timestamp, IcmpFault>,
    /// The reply.
    pub reply: Result<Timestamp, IcmpFault>,
    /// When the reply came, in milliseconds since midnight UT, below 86,400,000.
    pub arrival: u32,
}

/// The time of day of a decimal text; None where it isn't one below 86,400,000.
fn arrival_of(word: &[u8]) -> Option<u32>
    ensures { MatchOption result ((n : ℕ) → n < 86400000 → word.now ≡ decimal n
        → ⊥) (λ n. (n < 86400000) × (word.now ≡ decimal n)) }
{
    let number = number_of(word)?;
    let arrival = u32::try_from(number).ok()?;
    if standard(arrival) {
        Some(arrival)
    } else {
        None
    }
}

/// The words of a line; None where the grammar doesn't allow it.
pub(crate) fn record_of(line: &[u8]) -> Option<Record>
    requires { length line.now ≤ 1024 }
    ensures { MatchOption result ((r : Record) → IsRecord line.now r
        → ⊥) (λ r. IsRecord line.now r) }
{
    let (name, rest) = cut(line);
    let (request, rest) = cut(rest);
    let (reply, arrival) = cut(rest);
    let name = host_of(name)?;
    let request = message_in(request)?;
    let reply = message_in(reply)?;
    let arrival = arrival_of(arrival)?;
    Some(Record {
        name,
        request,
        reply,
        arrival,
    })
}
