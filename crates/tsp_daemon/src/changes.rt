//! Which acts change what a daemon's page says.
ghost use Rattle.std.specs.Prelude.{◌≡◌, ◌≤◌, length};
ghost use Rattle.tsp_daemon.specs.Pages.{change_page, changes_page, steps_by, steps_in};

use tsp_base::act::{Act, Placed};

/// Whether an act changes what the page says: a boot does, a correction of the clock, and another role.
fn changes_page(act: &Act) -> bool
    ensures { result ≡ changes_page act.now }
{
    matches!(act, Act::Boot | Act::Correct { .. } | Act::Become(_))
}

/// Whether one of these acts does.
pub(crate) fn change_page(acts: &[Placed]) -> bool
    ensures { result ≡ change_page acts.now }
{
    for placed in acts {
        if changes_page(&placed.act) {
            return true;
        }
    }
    false
}

/// How often an act steps the clock.
fn steps_by(act: &Act) -> u64
    ensures count { result ≡ steps_by act.now }
    ensures one { result ≤ 1 }
{
    match act {
        Act::Correct { stepped, .. } => u64::from(*stepped),
        _ => 0,
    }
}

/// How often these acts step the clock.
pub(crate) fn steps_in(acts: &[Placed]) -> u64
    ensures count { result ≡ steps_in acts.now }
    ensures few { result ≤ length acts.now }
{
    let mut count = 0;
    for placed in acts {
        count += steps_by(&placed.act);
    }
    count
}
