//! Which premises a whole schedule keeps, event by event.
ghost use Rattle.std.specs.Prelude.{◌≡◌, [], reverse};
ghost use Rattle.std.specs.List.{list_any};
ghost use Rattle.tsp_base.specs.Headers.{HeaderValue};
ghost use Rattle.tsp_audit.specs.Premised.{boots_with, forges, kept_with, premises_of, repeats_word, takes_early};

use crate::premises::Premises;
use crate::small_event::SmallEvent;
use tsp_base::constants::LIFE;
use tsp_base::event::Event;
use tsp_base::place::Place;
use tsp_claims::claimed::Claimed;

/// Whether an event hands a node octets as a peer's.
fn forges(e: &Event) -> bool
    ensures { result ≡ forges e.now }
{
    matches!(
        e,
        Event::Bytes {
            from: Place::Peer(_),
            ..
        }
    )
}

/// Whether an event takes no claimed post that is older than `LIFE`, 30,000,000 microseconds; asked
/// also where no line is claimed of the event. A take at a time before its post's counts as early.
fn takes_early(posts: &[Claimed], e: &Event) -> bool
    ensures { result ≡ takes_early posts.now e.now }
{
    let Event::Take { at, datagram } = e else {
        return true;
    };
    match posts.get(*datagram as usize) {
        Some(post) => post.at >= *at || *at - post.at <= LIFE,
        None => true,
    }
}

/// Whether one of these events is a boot with this word.
fn is_booted_with(events: &[SmallEvent], word: u64) -> bool
    ensures { result ≡ list_any (boots_with word) events.now }
{
    events.iter().any(|e| e.boots_with(word))
}

/// Whether an event is a boot with the word of a boot among these.
fn repeats_word(events: &[SmallEvent], e: &Event) -> bool
    ensures { result ≡ repeats_word e.now (reverse events.now) }
{
    match e {
        Event::Boot { word, .. } => is_booted_with(events, *word),
        _ => false,
    }
}

/// The premises that are kept where nothing happens: all.
pub fn all_kept() -> Premises
    ensures { (header : HeaderValue) → result ≡ premises_of header [] }
{
    Premises {
        honest: true,
        life: true,
        words: true,
    }
}

/// Which premises are kept with one event more, behind these events and the posts that are claimed of them.
pub fn keep_with(kept: Premises, events: &[SmallEvent], posts: &[Claimed], e: &Event) -> Premises
    ensures { result ≡ kept_with kept (reverse events.now) posts.now e.now }
{
    Premises {
        honest: !forges(e) && kept.honest,
        life: takes_early(posts, e) && kept.life,
        words: !repeats_word(events, e) && kept.words,
    }
}
