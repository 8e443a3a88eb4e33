//! The end of a candidature's time: the port becomes master or gives way.
ghost use Rattle.std.specs.Prelude.{◌≡◌, ℕ, ◌+◌, ◌≤◌, length};
ghost use Rattle.tsp_base.specs.Rows.{either_by};
ghost use Rattle.tsp_rules.specs.CandidateRows.{has_won, lead_row, window_rings, yields};
ghost use Rattle.tsp_acks.specs.Calls.{ActsBy, IsTick, Past, Uses, UsesAtMost, IsSamePort, StationStands};

use tsp_acks::station::Station;
use tsp_base::alarm::Alarm;
use tsp_base::constants::ROUND;
use tsp_base::desk::Desk;
use tsp_base::kind::Kind;
use tsp_base::place::Port;
use tsp_base::role::Role;

/// Handles a candidate's Window alarm, which is due. Nobody has refused so far; in time, the port becomes
/// master if the election is won. Else, and if it is too late, the candidature ends. It puts at most three
/// acts, and one more for each peer.
pub fn candidate_ring<D: Desk>(station: &mut Station, tick: u64, port: Port, desk: &mut D)
    requires tick { IsTick tick }
    requires room { length station.old.peers + 3 ≤ D.spare desk.old }
    ensures row { ActsBy window_rings tick port station.old station.new D.acts desk.old desk.new }
    ensures room { UsesAtMost (length station.old.peers + 3) D.spare D.acts desk.old desk.new }
    ensures port { IsSamePort station.old station.new }
{
    if station.is_in_time(Alarm::Window, tick) {
        station.ring(Alarm::Window, port, desk);
        lead_or_give_way(station, tick, port, desk);
    } else {
        station.late(Alarm::Window, port, desk);
        give_way(station, tick, port, desk);
    }
}

/// Becomes master where the election is won, else ends the candidature. A new master posts a MASTERUP to each
/// other peer; its first round is due `ROUND` ticks from now.
fn lead_or_give_way<D: Desk>(station: &mut Station, tick: u64, port: Port, desk: &mut D)
    requires tick { IsTick tick }
    requires room { length station.old.peers + 2 ≤ D.spare desk.old }
    ensures row { ActsBy (either_by has_won lead_row yields) tick port station.old station.new
        D.acts desk.old desk.new }
    ensures room { UsesAtMost (length station.old.peers + 2) D.spare D.acts desk.old desk.new }
    ensures port { IsSamePort station.old station.new }
{
    if has_won(station) {
        station.become_role(Role::Master, port, desk);
        station.arm(Alarm::Round, tick, ROUND, port, desk);
        station.post_to_others(Kind::MasterUp, 0, port, desk);
    } else {
        give_way(station, tick, port, desk);
    }
}

/// Whether the election is won: where elections are strict, more than half of the peers back the candidate,
/// itself counted; else it is enough that nobody has refused.
fn has_won(station: &Station) -> bool
    ensures { (x : ℕ) (past : Past) → StationStands past station.now → has_won x past ≡ result }
{
    !station.me.strict || station.peers().len() < 2 * station.backers as usize + 2
}

/// Ends the candidature: the port follows nobody, and waits for a master again.
pub(crate) fn give_way<D: Desk>(station: &mut Station, tick: u64, port: Port, desk: &mut D)
    requires tick { IsTick tick }
    requires room { 2 ≤ D.spare desk.old }
    ensures row { ActsBy yields tick port station.old station.new D.acts desk.old desk.new }
    ensures room { Uses 2 D.spare D.acts desk.old desk.new }
    ensures port { IsSamePort station.old station.new }
{
    station.become_role(Role::Loose, port, desk);
    station.arm_elect(tick, port, desk);
}
