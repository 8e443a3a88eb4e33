//! The exchange of a line.
ghost use Rattle.std.specs.Prelude.{◌≡◌, ◌≤◌, ◌++◌, length, MatchResult};
ghost use Rattle.tsp_icmp_command.specs.Records.{icmp_fault_word, IsExchange, RefusesRecord};

use crate::message::{expected, icmp_fault_word};
use crate::record::record_of;
use arrayvec::ArrayVec;
use tsp_base::name::Name;
use tsp_icmp::{IcmpFault, Timestamp};
use tsp_lines::cause::Cause;

/// A request, its reply, and when the reply came.
#[derive(Drop)]
pub struct Exchange {
    /// The name of the other clock.
    pub name: Name,
    /// The request.
    pub request: Timestamp,
    /// The reply.
    pub reply: Timestamp,
    /// When the reply came, in milliseconds since midnight UT, below 86,400,000.
    pub arrival: u32,
}

/// The cause for which a part of a line is refused.
fn cause_of(part: &[u8], fault: IcmpFault) -> Cause
    requires { length part.now ≤ 8 }
    ensures { result ≡ part.now ++ icmp_fault_word fault }
{
    let mut words = ArrayVec::new();
    let _ = words.try_extend_from_slice(part);
    let _ = words.try_extend_from_slice(icmp_fault_word(fault));
    Cause::new(words)
}

/// The exchange of a line, or why there is none: `record` where the grammar doesn't allow the line, else
/// `request` with the fault of the request, else `reply` with that of the reply.
pub(crate) fn exchange_of(line: &[u8]) -> Result<Exchange, Cause>
    requires { length line.now ≤ 1024 }
    ensures { MatchResult result (λ e. IsExchange line.now e) (λ cause. RefusesRecord line.now
        cause) }
{
    let Some(record) = record_of(line) else {
        return Err(Cause::of(b"record"));
    };
    let request = match expected(record.request, false) {
        Ok(request) => request,
        Err(fault) => return Err(cause_of(b"request ", fault)),
    };
    let reply = match expected(record.reply, true) {
        Ok(reply) => reply,
        Err(fault) => return Err(cause_of(b"reply ", fault)),
    };
    Ok(Exchange {
        name: record.name,
        request,
        reply,
        arrival: record.arrival,
    })
}
