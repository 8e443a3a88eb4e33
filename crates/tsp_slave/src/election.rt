//! What a port that is Loose or follows answers to a candidate.
ghost use Rattle.std.specs.Prelude.{◌≤◌};
ghost use Rattle.tsp_rules.specs.SlaveRows.{election_of};
ghost use Rattle.tsp_acks.specs.Calls.{ActsBy, IsTick, UsesAtMost, IsSamePort};

use tsp_acks::station::Station;
use tsp_base::at::At;
use tsp_base::desk::Desk;
use tsp_base::kind::Kind;
use tsp_base::place::PeerId;

/// Answers a peer that stands for election. It gets an ACCEPT where the port backed nobody else for `HOLD`
/// ticks, and then the Elect alarm is armed anew, so that it has time to win; else it gets a REFUSE. At most
/// three acts.
pub(crate) fn vote<D: Desk>(station: &mut Station, at: At, from: PeerId, number: u16, desk: &mut D)
    requires tick { IsTick at.tick }
    requires room { 3 ≤ D.spare desk.old }
    ensures row { ActsBy (election_of from number) at.tick at.port station.old station.new
        D.acts desk.old desk.new }
    ensures room { UsesAtMost 3 D.spare D.acts desk.old desk.new }
    ensures port { IsSamePort station.old station.new }
{
    if station.hold.may_back(at.tick, from) {
        station.back(from, at.tick, at.port, desk);
        station.arm_elect(at.tick, at.port, desk);
        station.post(from, Kind::Accept, number, at.port, desk);
    } else {
        station.post(from, Kind::Refuse, number, at.port, desk);
    }
}
