//! What acts are.
ghost use Rattle.std.specs.Prelude.{◌≡◌, ◌+◌, ◌≤◌, ◌↔◌, IsTrue};
ghost use Rattle.tsp_claims.specs.Fitting.{is_took, IsPosted, NumberFits};
ghost use Rattle.tsp_run.specs.Run.{posts_by};

use crate::held::HeldPlaced;
use tsp_base::act::Act;
use tsp_base::datagram::{Datagram, Taken};
use tsp_base::message::Message;

/// How many datagrams an act posts.
pub(crate) fn posts_by(act: &Act) -> u64
    ensures many { result ≡ posts_by act.now }
    ensures few { result ≤ 1 }
{
    match act {
        Act::Post(_, _) => 1,
        _ => 0,
    }
}

/// Whether an act is a Took.
pub(crate) fn is_took(act: &Act) -> bool
    ensures { result ≡ is_took act.now }
{
    match act {
        Act::Took(_, _) => true,
        _ => false,
    }
}

/// Whether two messages are the same.
fn is_same_message(one: &Message, other: &Message) -> bool
    ensures { IsTrue result ↔ (one.now ≡ other.now) }
{
    one.kind() == other.kind()
        && one.number() == other.number()
        && one.body() == other.body()
        && one.name().octets() == other.name().octets()
}

/// Whether two datagrams are the same.
fn is_same(one: &Datagram, other: &Datagram) -> bool
    ensures { IsTrue result ↔ (one.now ≡ other.now) }
{
    match (one, other) {
        (Datagram::Message(one), Datagram::Message(other)) => is_same_message(one, other),
        (Datagram::Stamp(one), Datagram::Stamp(other)) => one == other,
        (Datagram::Message(_), Datagram::Stamp(_)) => false,
        (Datagram::Stamp(_), Datagram::Message(_)) => false,
    }
}

/// Whether what was taken is the datagram that a claimed act posted.
pub(crate) fn is_posted(placed: &HeldPlaced, taken: &Taken) -> bool
    ensures { IsTrue result ↔ IsPosted placed.now.act taken.now }
{
    match (&placed.datagram(), taken) {
        (Some(datagram), Taken::Good(good)) => is_same(good, datagram),
        _ => false,
    }
}

/// Whether an act has its number. That of a post is how many were claimed before the event, and in
/// the event so far; another act may have any.
pub(crate) fn is_numbered(before: u64, posts: u64, act: &Act, number: u64) -> bool
    ensures { IsTrue result ↔ NumberFits (before + posts) act.now number }
{
    match act {
        Act::Post(_, _) => number >= before && number - before == posts,
        _ => true,
    }
}
