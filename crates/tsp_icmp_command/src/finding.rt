//! What an exchange says of another clock.
ghost use Rattle.std.specs.Prelude.{◌≡◌, ◌≤◌, ◌<◌, ◌+◌, ◌++◌};
ghost use Rattle.arrayvec.specs.ArrayVec.{array_vec_len};
ghost use Rattle.tsp_lines.specs.Lines.{close};
ghost use Rattle.tsp_icmp_command.specs.Findings.{repeats_request, finding_of, IsNearDay, finding_text, finding_line};

use crate::apart::Apart;
use crate::exchange::Exchange;
use tsp_base::name::Name;
use tsp_icmp::{Timestamp, difference, standard, trip};
use tsp_script::numbers::{append, append_next_signed, append_signed};
use tsp_script::text::Text;

/// What an exchange says of another clock, or why it says nothing.
#[derive(Clone, Copy)]
pub enum Finding {
    /// The reply doesn't repeat the request's identifier, sequence number and originate stamp.
    Unlike,
    /// The request's originate stamp or the reply's receive stamp isn't a time of day.
    NoTime,
    /// The reply came half a day or more after the request.
    Late,
    /// A difference.
    Apart(Apart),
}

/// Whether the reply repeats the request's identifier, sequence number and originate stamp.
fn repeats_request(request: &Timestamp, reply: &Timestamp) -> bool
    ensures { result ≡ repeats_request request.now reply.now }
{
    request.ident == reply.ident && request.seq == reply.seq && request.originate == reply.originate
}

/// What an exchange says of another clock, or why it says nothing.
pub(crate) fn finding_of(exchange: &Exchange) -> Finding
    requires { exchange.now.arrival < 86400000 }
    ensures value { result ≡ finding_of exchange.now }
    ensures near { IsNearDay result }
{
    let (originate, receive) = (exchange.request.originate, exchange.reply.receive);
    if !repeats_request(&exchange.request, &exchange.reply) {
        return Finding::Unlike;
    }
    if !standard(originate) || !standard(receive) {
        return Finding::NoTime;
    }
    match difference(originate, receive, exchange.arrival) {
        Some((diff, err)) => Finding::Apart(Apart {
            diff,
            err,
            trip: trip(originate, exchange.arrival),
        }),
        None => Finding::Late,
    }
}

/// Writes the words of a finding, in at most 41 octets.
fn append_finding(out: &mut Text, finding: &Finding)
    requires { array_vec_len out.old + 41 ≤ 1024 }
    ensures text { out.new.items ≡ out.old.items ++ finding_text finding.now }
    ensures short { array_vec_len out.new ≤ array_vec_len out.old + 41 }
{
    match finding {
        Finding::Unlike => append(out, b"unlike"),
        Finding::NoTime => append(out, b"no-time"),
        Finding::Late => append(out, b"late"),
        Finding::Apart(apart) => {
            append_signed(out, apart.diff);
            append_next_signed(out, apart.err);
        }
    }
}

/// The line of a finding, with its line feed.
pub(crate) fn finding_line(name: &Name, finding: &Finding) -> Text
    ensures text { result.items ≡ close (finding_line name.now finding.now) }
    ensures short { array_vec_len result ≤ 1024 }
{
    let mut text = Text::new();
    append(&mut text, name.octets());
    append(&mut text, b" ");
    append_finding(&mut text, finding);
    append(&mut text, b"\n");
    text
}
