//! The daemon's half of its page, by what its node says of its clock.
ghost use Rattle.std.specs.Prelude.{◌≡◌, ◌≤◌, ◌+◌, ◌^◌, nat_abs};
ghost use Rattle.tsp_gateway.specs.GatewayStands.{GatewayStands};
ghost use Rattle.tsp_page.specs.Formula.{rest_at, shown_at, target_at};
ghost use Rattle.tsp_rules.specs.NodeRows.{NodePast};
ghost use Rattle.tsp_daemon.specs.Pages.{counted_from, first_half, least_after, master_in, offset_of};
ghost use Rattle.tsp_daemon.specs.Pages.{rank_in};
ghost use Rattle.tsp_daemon.specs.Pages.{target_then};

use crate::changes::steps_in;
use tsp_base::act::Placed;
use tsp_base::constants::SLEW;
use tsp_clock::slew::eased;
use tsp_gateway::{Gateway, Standing};
use tsp_io::origin::Origin;
use tsp_page::daemon_half::DaemonHalf;
use tsp_page::rank::Rank;

/// What the daemon is on its networks.
pub(crate) fn rank_in(standing: Standing) -> Rank
    ensures { result ≡ rank_in standing }
{
    match standing {
        Standing::Nobody => Rank::Nobody,
        Standing::Follows(_) => Rank::Follows,
        Standing::Leads => Rank::Leads,
    }
}

/// The number of the master that the daemon follows; 0 if it follows none.
pub(crate) fn master_in(standing: Standing) -> u64
    ensures { result ≡ master_in standing }
{
    match standing {
        Standing::Follows(p) => u64::from(p.0),
        _ => 0,
    }
}

/// The clock's target right after its last correction, or the boot.
pub(crate) fn target_then(node: &Gateway) -> i64
    ensures past { (past : NodePast) → GatewayStands past node.now → result ≡ target_then past }
    ensures small { nat_abs result ≤ 2 ^ 61 + 2 ^ 51 }
{
    node.target(node.corrected())
}

/// How far the clock's target is ahead of the ticks.
pub(crate) fn offset_of(node: &Gateway) -> i64
    ensures past { (past : NodePast) → GatewayStands past node.now → result ≡ offset_of past }
    ensures small { nat_abs result ≤ 2 ^ 61 + 2 ^ 51 }
{
    let tick = node.corrected();
    node.target(tick) - tick as i64
}

/// What a half aims at, at a tick.
fn target_at(half: &DaemonHalf, tick: u64) -> i64
    requires tick { tick ≤ 2 ^ 61 }
    requires corrected { half.now.tick ≤ 2 ^ 61 }
    requires target { nat_abs half.now.target ≤ 2 ^ 61 + 2 ^ 51 }
    ensures value { result ≡ target_at half.now tick }
    ensures small { nat_abs result ≤ 2 ^ 62 + 2 ^ 51 }
{
    half.target + (tick as i64 - half.tick as i64)
}

/// What is still to be slewed at a tick.
fn rest_at(half: &DaemonHalf, tick: u64) -> i64
    requires rest { nat_abs half.now.rest ≤ 2 ^ 61 + 2 ^ 52 }
    ensures value { result ≡ rest_at half.now tick }
    ensures small { nat_abs result ≤ 2 ^ 61 + 2 ^ 52 }
{
    eased(half.rest, tick.saturating_sub(half.tick) / SLEW)
}

/// What a half shows at a tick.
pub(crate) fn shown_at(half: &DaemonHalf, tick: u64) -> i64
    requires tick { tick ≤ 2 ^ 61 }
    requires corrected { half.now.tick ≤ 2 ^ 61 }
    requires target { nat_abs half.now.target ≤ 2 ^ 61 + 2 ^ 51 }
    requires rest { nat_abs half.now.rest ≤ 2 ^ 61 + 2 ^ 52 }
    ensures { result ≡ shown_at half.now tick }
{
    let shown = target_at(half, tick) - rest_at(half, tick);
    if shown < half.least {
        half.least
    } else {
        shown
    }
}

/// The least that may be shown after these acts.
pub(crate) fn least_after(acts: &[Placed], moment: u64, half: &DaemonHalf) -> i64
    requires moment { moment ≤ 2 ^ 61 }
    requires corrected { half.now.tick ≤ 2 ^ 61 }
    requires target { nat_abs half.now.target ≤ 2 ^ 61 + 2 ^ 51 }
    requires rest { nat_abs half.now.rest ≤ 2 ^ 61 + 2 ^ 52 }
    ensures { result ≡ least_after acts.now moment half.now }
{
    if steps_in(acts) == 0 {
        shown_at(half, moment)
    } else {
        i64::MIN
    }
}

/// A half of a daemon whose ticks are counted from there.
pub(crate) fn counted_from(tuned: Option<Origin>, half: &DaemonHalf) -> DaemonHalf
    ensures { result ≡ counted_from tuned half.now }
{
    let mut half = *half;
    if let Some(origin) = tuned {
        half.counter = origin.counter;
        half.origin = origin.nanos;
        half.origin_tick = origin.tick;
        half.rate = origin.rate;
    }
    half
}

/// The half with which a daemon begins at this tick.
pub(crate) fn first_half(origin: Origin, node: &Gateway, tick: u64) -> DaemonHalf
    ensures past { (past : NodePast) → GatewayStands past node.now
        → result ≡ first_half origin past tick }
    ensures tick { result.tick ≤ 2 ^ 61 }
    ensures target { nat_abs result.target ≤ 2 ^ 61 + 2 ^ 51 }
    ensures rest { nat_abs result.rest ≤ 2 ^ 61 + 2 ^ 52 }
{
    let standing = node.standing();
    DaemonHalf {
        life: node.word(),
        counter: origin.counter,
        origin: origin.nanos,
        origin_tick: origin.tick,
        rate: origin.rate,
        tick: node.corrected(),
        target: target_then(node),
        rest: node.left(),
        least: i64::MIN,
        moved: 0,
        steps: 0,
        rank: rank_in(standing),
        master: master_in(standing),
        alive: tick,
    }
}
