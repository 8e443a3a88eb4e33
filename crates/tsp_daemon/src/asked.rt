//! The rate that a supervisor asks for on a daemon's page.
ghost use Rattle.std.specs.Prelude.{◌≡◌, ◌≤◌, length, List, Option, Some};
ghost use Rattle.std.specs.Option.{option_map};
ghost use Rattle.tsp_io.specs.Boards.{Mark, views_left};
ghost use Rattle.tsp_io.specs.Origins.{origin_then};
ghost use Rattle.tsp_io.specs.declared.origin.Origin.{Origin};
ghost use Rattle.tsp_daemon.specs.Pages.{AreReads, OnlyPages, asked_of, is_asking, rate_in, tuned_at};

use tsp_io::origin::Origin;
use tsp_io::ticker::Ticker;
use tsp_page::layout::{LOOK_AT, LOOK_FIELDS, MAX_DRIFT};
use tsp_page::look_half::LookHalf;

/// How many octets the look's half takes: its sequence and its fields.
const LOOK: usize = 8 + LOOK_FIELDS;

/// Whether the look's half, with this lowest octet of its sequence, asks a daemon in this life for a rate:
/// it isn't being written, is of the life, and states a drift that the rate isn't beyond.
fn is_asking(life: u64, lowest: u8, look: &LookHalf) -> bool
    ensures { result ≡ is_asking life lowest look.now }
{
    lowest % 2 == 0
        && look.life == life
        && look.drift <= MAX_DRIFT
        && look.learned.unsigned_abs() <= look.drift * 1_000
}

/// The rate for which these octets of the look's half ask, in parts in 10^9.
fn rate_in(life: u64, octets: &[u8]) -> Option<i64>
    requires { 336 ≤ length octets.now }
    ensures { result ≡ rate_in life octets.now }
{
    let look = LookHalf::of(octets.split_at(8).1);
    if is_asking(life, octets[0], &look) {
        Some(look.learned)
    } else {
        None
    }
}

/// The rate for which the look's half asks that stands on the board; None if it can't be read.
pub(crate) fn asked_now<T: Ticker>(life: u64, ticker: &mut T) -> Option<i64>
    ensures asked { (left : List Mark) → AreReads left (T.views ticker.new) → (views : List Mark)
        × AreReads views (T.views ticker.old) × (views_left views ≡ left)
        × (result ≡ asked_of life views) }
    ensures views { T.views ticker.new ≡ option_map views_left (T.views ticker.old) }
    ensures same { (T.origin_is ticker.new ≡ T.origin_is ticker.old)
        × (T.marks ticker.new ≡ T.marks ticker.old) }
    ensures only { OnlyPages T.Ticker ticker.old ticker.new }
{
    let mut octets = [0; LOOK];
    if ticker.view(LOOK_AT as u64, &mut octets) {
        rate_in(life, &octets)
    } else {
        None
    }
}

/// Counts from this moment on at the rate that was asked for, if one was, and says from where ticks are
/// counted then; None if nothing changes.
pub(crate) fn tune<T: Ticker>(asked: Option<i64>, moment: u64, ticker: &mut T) -> Option<Origin>
    ensures tuned { (origin : Option Origin) → T.origin_is ticker.old ≡ Some origin
        → result ≡ tuned_at moment asked origin }
    ensures origin { T.origin_is ticker.new
        ≡ option_map (λ origin. origin_then result origin) (T.origin_is ticker.old) }
    ensures same { (T.views ticker.new ≡ T.views ticker.old)
        × (T.marks ticker.new ≡ T.marks ticker.old) }
    ensures only { OnlyPages T.Ticker ticker.old ticker.new }
{
    match asked {
        Some(rate) => ticker.retune(moment, rate),
        None => None,
    }
}
