//! The alarms of a port that need only its station.
ghost use Rattle.std.specs.Prelude.{◌≡◌, Bool, ◌+◌, ◌≤◌, true, length};
ghost use Rattle.tsp_base.specs.Frames.{IsTick, UsesAtMost};
ghost use Rattle.tsp_base.specs.Performs.{Performs};
ghost use Rattle.tsp_acks.specs.Changes.{IsSamePort};
ghost use Rattle.tsp_acks.specs.Stands.{StationStands};
ghost use Rattle.tsp_node.specs.RoleAlarms.{is_of_master, is_of_slave};

use tsp_acks::station::Station;
use tsp_base::alarm::Alarm;
use tsp_base::constants::{ROUND, WAIT};
use tsp_base::desk::Desk;
use tsp_base::place::Port;
use tsp_candidate::candidature::stand;
use tsp_slave::ring::{becomes_candidate, slave_ring};

/// Whether a due alarm is its master's: a Probe, a Close, or a Round that doesn't wait.
pub(crate) fn is_of_master(alarm: Alarm, wait: bool) -> bool
    ensures { result ≡ is_of_master wait alarm }
{
    match alarm {
        Alarm::Probe | Alarm::Close => true,
        Alarm::Round => !wait,
        _ => false,
    }
}

ghost use Rattle.tsp_rules.specs.Answers.{alarm_rings};
/// Handles a due alarm of a port that is Starting, Loose or follows.
pub(crate) fn ring_slave<D: Desk>(
    station: &mut Station,
    alarm: Alarm,
    tick: u64,
    port: Port,
    desk: &mut D,
)
    requires alarm { is_of_slave alarm ≡ true }
    requires tick { IsTick tick }
    requires room { length station.old.peers + 4 ≤ D.spare desk.old }
    ensures row { (own wait : Bool) → Performs StationStands StationStands (alarm_rings own wait alarm) tick port
        station.old station.new (D.acts desk.old) (D.acts desk.new) }
    ensures room { UsesAtMost (length station.old.peers + 4) D.spare D.acts desk.old desk.new }
    ensures port { IsSamePort station.old station.new }
{
    match alarm {
        Alarm::Elect => ring_elect(station, tick, port, desk),
        _ => slave_ring(station, alarm, tick, port, desk),
    }
}

ghost use Rattle.tsp_rules.specs.SlaveRows.{elect_rings};
/// No master was heard for the election delay: the port stands for election where it may, else it searches.
fn ring_elect<D: Desk>(station: &mut Station, tick: u64, port: Port, desk: &mut D)
    requires tick { IsTick tick }
    requires room { length station.old.peers + 4 ≤ D.spare desk.old }
    ensures row { Performs StationStands StationStands elect_rings tick port station.old station.new
        (D.acts desk.old) (D.acts desk.new) }
    ensures room { UsesAtMost (length station.old.peers + 4) D.spare D.acts desk.old desk.new }
    ensures port { IsSamePort station.old station.new }
{
    if becomes_candidate(station, tick) {
        station.ring(Alarm::Elect, port, desk);
        stand(station, tick, port, desk);
    } else {
        slave_ring(station, Alarm::Elect, tick, port, desk);
    }
}

ghost use Rattle.tsp_rules.specs.RoundRows.{round_rings};
/// A due Round that waits for the round of another port of its node: in time it is put off by `WAIT` ticks.
pub(crate) fn wait_round<D: Desk>(station: &mut Station, tick: u64, port: Port, desk: &mut D)
    requires tick { IsTick tick }
    requires room { 2 ≤ D.spare desk.old }
    ensures row { Performs StationStands StationStands (round_rings true) tick port station.old station.new
        (D.acts desk.old) (D.acts desk.new) }
    ensures room { UsesAtMost 2 D.spare D.acts desk.old desk.new }
    ensures port { IsSamePort station.old station.new }
{
    if station.is_in_time(Alarm::Round, tick) {
        station.ring(Alarm::Round, port, desk);
        station.arm(Alarm::Round, tick, WAIT, port, desk);
    } else {
        station.late(Alarm::Round, port, desk);
        station.arm(Alarm::Round, tick, ROUND, port, desk);
    }
}
