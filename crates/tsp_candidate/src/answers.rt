//! The answers of peers to a candidate's ELECTIONs.
ghost use Rattle.std.specs.Prelude.{ℕ, ◌≤◌};
ghost use Rattle.tsp_rules.specs.CandidateRows.{accepted_by, refused_by};
ghost use Rattle.tsp_acks.specs.Calls.{ActsBy, IsTick, UsesAtMost, IsSamePort};

use crate::ring::give_way;
use tsp_acks::station::Station;
use tsp_base::desk::Desk;
use tsp_base::place::{PeerId, Port};

/// Counts a peer among the backers of this candidature, where the open ELECTION to it has this number; any
/// other ACCEPT is ignored.
pub(crate) fn take_accept<D: Desk>(
    station: &mut Station,
    from: PeerId,
    number: u16,
    port: Port,
    desk: &mut D,
)
    requires room { 2 ≤ D.spare desk.old }
    ensures row { (x : ℕ) → ActsBy (accepted_by from number) x port station.old station.new
        D.acts desk.old desk.new }
    ensures room { UsesAtMost 2 D.spare D.acts desk.old desk.new }
    ensures port { IsSamePort station.old station.new }
{
    if station.answered(from, number, port, desk) {
        station.count_backer(from, port, desk);
    }
}

/// Ends the candidature, where the open ELECTION to this peer has this number; any other REFUSE is ignored.
pub(crate) fn take_refuse<D: Desk>(
    station: &mut Station,
    tick: u64,
    from: PeerId,
    number: u16,
    port: Port,
    desk: &mut D,
)
    requires tick { IsTick tick }
    requires room { 3 ≤ D.spare desk.old }
    ensures row { ActsBy (refused_by from number) tick port station.old station.new
        D.acts desk.old desk.new }
    ensures room { UsesAtMost 3 D.spare D.acts desk.old desk.new }
    ensures port { IsSamePort station.old station.new }
{
    if station.answered(from, number, port, desk) {
        give_way(station, tick, port, desk);
    }
}
