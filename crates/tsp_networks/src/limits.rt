//! The greatest numbers of events and of posts.
ghost use Rattle.std.specs.Prelude.{◌≡◌, ◌≤◌, IfSome};
ghost use Rattle.tsp_run.specs.Refusals.{is_crowded, limit};

use tsp_base::event::EventFault;

/// The greatest number of events that a world accepts.
pub const MOST_EVENTS: u64 = 200_000;

/// The greatest number of datagrams that a world stores.
pub const MOST_POSTS: u64 = 1_000_000;

/// Whether a step of a node that may put `wanted` acts might pass the greatest number of posts.
fn is_crowded(posted: u64, wanted: Option<u64>) -> bool
    requires posted { posted ≤ 1000000 }
    requires wanted { IfSome wanted (λ w. w ≤ 200000) }
    ensures { result ≡ is_crowded posted wanted }
{
    match wanted {
        Some(wanted) => posted + wanted > MOST_POSTS,
        None => false,
    }
}

/// `Limit` where one event more passes the greatest number of events, or its step, of at most `wanted` acts,
/// might pass that of posts.
pub fn limit(events: u64, posted: u64, wanted: Option<u64>) -> Option<EventFault>
    requires posted { posted ≤ 1000000 }
    requires wanted { IfSome wanted (λ w. w ≤ 200000) }
    ensures { result ≡ limit events posted wanted }
{
    if events >= MOST_EVENTS || is_crowded(posted, wanted) {
        Some(EventFault::Limit(events, posted))
    } else {
        None
    }
}
