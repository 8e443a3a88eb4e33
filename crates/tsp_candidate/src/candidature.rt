//! How a candidature begins.
ghost use Rattle.std.specs.Prelude.{◌+◌, ◌≤◌, length};
ghost use Rattle.tsp_rules.specs.CommonRows.{candidature_row};
ghost use Rattle.tsp_acks.specs.Calls.{IsTick, Performs, UsesAtMost, IsSamePort, StandsActing};

use tsp_acks::station::Station;
use tsp_base::alarm::Alarm;
use tsp_base::constants::WINDOW;
use tsp_base::desk::Desk;
use tsp_base::kind::Kind;
use tsp_base::place::Port;
use tsp_base::role::Role;

/// Stands for election: the port backs itself, sends each other peer an ELECTION with its own number, and
/// waits `WINDOW` ticks for answers. Before it in the step, an alarm must have been handled or a datagram
/// taken. It puts at most three acts, and one more for each peer.
pub fn stand<D: Desk>(station: &mut Station, tick: u64, port: Port, desk: &mut D)
    requires tick { IsTick tick }
    requires room { length station.old.peers + 3 ≤ D.spare desk.old }
    ensures row { Performs StandsActing StandsActing candidature_row tick port station.old
        station.new (D.acts desk.old) (D.acts desk.new) }
    ensures room { UsesAtMost (length station.old.peers + 3) D.spare D.acts desk.old desk.new }
    ensures port { IsSamePort station.old station.new }
{
    station.become_role(Role::Candidate, port, desk);
    let own = station.me.own;
    station.back(own, tick, port, desk);
    station.arm(Alarm::Window, tick, WINDOW, port, desk);
    station.begin_to_others(Kind::Election, tick, port, desk);
}
