//! Whether clocks that one round corrected agree.
ghost use Rattle.std.specs.Prelude.{◌≡◌, ◌≤◌, ◌<◌, ◌≤ℤ◌, ◌-ℤ◌, pos, nat_abs, ℕ, length, true, Some};
ghost use Rattle.tsp_audit.specs.Agreeing.{AgreesBack, AllAgree, AllBounded, AllPast, BossAgrees};
ghost use Rattle.tsp_audit.specs.Agreeing.{FromRoundStands, IsReadBy, MasterNearWithSpare, PairAgrees, PairNear, PairsAgree, Settles};
ghost use Rattle.tsp_audit.specs.Standings.{IsWhether, OfNode, OfPair, StandsAs};
ghost use Rattle.tsp_audit.specs.declared.round_correction.NodeState.{NodeState as NodeValue};
ghost use Rattle.tsp_audit.specs.declared.round_correction.RoundCorrection.{RoundCorrection as CorrectionValue};
ghost use Rattle.tsp_base.specs.Headers.{HeaderValue};
ghost use Rattle.tsp_history.specs.Clocks.{IsSumOf, IsTrip};

use crate::round_correction::{NodeState, RoundCorrection};
use crate::shown::Standing;
use crate::standing::standings;
use tsp_base::header::Header;

/// Whether two clocks, or two times, differ by at most so many microseconds.
pub(crate) fn is_near(a: i128, b: i128, most: i128) -> bool
    requires first { IsTrip a }
    requires second { IsTrip b }
    ensures { IsWhether result (pos (nat_abs (a -ℤ b)) ≤ℤ most) }
{
    if a - b > most {
        return false;
    }
    if b - a > most {
        return false;
    }
    true
}

/// Whether of two spans each begins no later than the other ends.
fn is_met(low: i128, high: i128, other_low: i128, other_high: i128) -> bool
    ensures { IsWhether result ((low ≤ℤ other_high) × (other_low ≤ℤ high)) }
{
    if low > other_high {
        return false;
    }
    if other_low > high {
        return false;
    }
    true
}

/// Whether two nodes that one Close corrected, and whose clocks stand so, differ by at most their errors and drift.
fn pair_near(own: &Standing, other: &Standing) -> bool
    ensures { (a b : NodeValue) (c d : CorrectionValue) → a.from_round ≡ Some c → b.from_round ≡ Some d
        → OfPair a own.now b other.now
        (λ header at spare first second. IsWhether result
        (PairNear header at spare first a c second b d)) }
{
    is_met(own.low, own.high, other.low, other.high)
}

/// Whether two nodes differ by at most their errors and drift, where one Close corrected both; else true.
fn pair_agrees(a: &NodeState, own: &Standing, b: &NodeState, other: &Standing) -> bool
    ensures { OfPair a.now own.now b.now other.now
        (λ header at spare first second. IsWhether result
        (PairAgrees header at spare first a.now second b.now)) }
{
    match (&a.from_round, &b.from_round) {
        (Some(c), Some(d)) => {
            if c.master == d.master && c.close == d.close {
                pair_near(own, other)
            } else {
                true
            }
        }
        _ => true,
    }
}

/// Whether a node agrees with each, up to itself, that the same Close corrected. What two nodes ask
/// of each other is the same, so that all pairs are looked at once.
fn pairs_agree(node: usize, a: &NodeState, states: &[NodeState], stand: &[Standing]) -> bool
    requires node { node < length states.now }
    requires many { length states.now ≤ length stand.now }
    ensures { OfNode states.now stand.now node a.now
        (λ header at spare. IsWhether result (PairsAgree header at spare node a.now states.now)) }
{
    for k in 0..node + 1 {
        if !pair_agrees(a, &stand[node], &states[k], &stand[k]) {
            return false;
        }
    }
    true
}

/// Whether the master of a Correct from a round has neither booted nor corrected
/// its clock since that Close, but for a Correct that is the next act.
fn stands(c: &RoundCorrection, b: &NodeState) -> bool
    ensures { IsWhether result (FromRoundStands c.now b.now) }
{
    if c.lives != b.lives {
        return false;
    }
    if c.corrects == b.corrects {
        return true;
    }
    match b.after {
        None => false,
        Some(index) => index == c.close,
    }
}

/// Whether a node and its master, whose clocks stand so, differ by at most the error and drift.
fn master_near(own: &Standing, other: &Standing) -> bool
    ensures { (a b : NodeValue) (c : CorrectionValue) → a.from_round ≡ Some c → (header : HeaderValue)
        (at spare node : ℕ) → StandsAs header at spare node a own.now
        → StandsAs header at spare c.master b other.now
        → IsSumOf 4294967295 a.moved → IsSumOf 4294967295 b.moved
        → IsWhether result (MasterNearWithSpare header at spare node a c b) }
{
    is_met(own.low, own.high, other.clock, other.clock)
}

/// Whether a node and its master differ by at most the error and drift, where `stands` holds of the
/// master; else true.
fn master_agrees(node: usize, a: &NodeState, states: &[NodeState], stand: &[Standing]) -> bool
    requires node { node < length states.now }
    requires many { length states.now ≤ length stand.now }
    ensures { OfNode states.now stand.now node a.now
        (λ header at spare. IsWhether result (BossAgrees header at spare node a.now states.now)) }
{
    let Some(c) = &a.from_round else {
        return true;
    };
    let master = c.master as usize;
    if master >= states.len() {
        return true;
    }
    let b = &states[master];
    if stands(c, b) {
        master_near(&stand[node], &stand[master])
    } else {
        true
    }
}

/// Whether a node agrees with each, up to itself, that the same Close corrected, and with its master.
fn node_agrees(node: usize, a: &NodeState, states: &[NodeState], stand: &[Standing]) -> bool
    requires node { node < length states.now }
    requires many { length states.now ≤ length stand.now }
    ensures { OfNode states.now stand.now node a.now
        (λ header at spare. IsWhether result (AgreesBack header at spare node a.now states.now)) }
{
    if a.from_round.is_none() {
        return true;
    }
    pairs_agree(node, a, states, stand) && master_agrees(node, a, states, stand)
}

/// Whether each of these nodes agrees with all that its Close corrected, and with its master, at a
/// true time, even if each error is less by `spare`; times in microseconds.
pub(crate) fn all_agree(header: &Header, at: u64, spare: u32, states: &[NodeState]) -> bool
    requires { length states.now ≤ 64 }
    ensures { at ≤ 1000000000000000 → AllBounded states.now
        → IsWhether result (AllAgree header.now at spare states.now) }
{
    let stand = standings(header, at, spare, states);
    for n in 0..states.len() {
        if !node_agrees(n, &states[n], states, &stand[..]) {
            return false;
        }
    }
    true
}

/// Whether a round corrected a node by no reading that is later than a true time, in microseconds.
fn is_past(at: u64, a: &NodeState) -> bool
    ensures { result ≡ true → IsReadBy at a.now }
{
    match &a.from_round {
        Some(c) => c.at <= at,
        None => true,
    }
}

/// The same of each of these nodes.
fn all_past(at: u64, states: &[NodeState]) -> bool
    ensures { result ≡ true → AllPast at states.now }
{
    for n in 0..states.len() {
        if !is_past(at, &states[n]) {
            return false;
        }
    }
    true
}

/// By how much less each error may be where clocks settle, in microseconds: ticks and drifts are
/// whole numbers, and so may bring clocks nearer to their bounds by as much.
const SPARE: u32 = 4;

/// Whether clocks agree at a true time, in microseconds, with so much to spare that they do from
/// then on, as long as none is moved: their bounds grow no slower than they drift apart.
pub(crate) fn settles(header: &Header, at: u64, states: &[NodeState]) -> bool
    requires { length states.now ≤ 64 }
    ensures { result ≡ true → at ≤ 1000000000000000 → AllBounded states.now
        → Settles header.now at states.now }
{
    all_past(at, states) && all_agree(header, at, SPARE, states)
}
