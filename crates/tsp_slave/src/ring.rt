//! The alarms of a port that is Starting, Loose or follows.
ghost use Rattle.std.specs.Prelude.{◌≡◌, ℕ, ◌+◌, ◌≤◌, false, length};
ghost use Rattle.tsp_base.specs.declared.alarm.Alarm.TheVariants.{Elect};
ghost use Rattle.tsp_rules.specs.CommonRows.{searches};
ghost use Rattle.tsp_rules.specs.SlaveRows.{rings_or_late, elect_rings, loosens};
ghost use Rattle.tsp_acks.specs.Calls.{IsTick, ActsBy, Uses, UsesAtMost, IsSamePort};
ghost use Rattle.tsp_slave.specs.SlaveAlarms.{slave_rings, is_to_be_candidate};

use tsp_acks::station::Station;
use tsp_base::alarm::Alarm;
use tsp_base::constants::WINDOW;
use tsp_base::desk::Desk;
use tsp_base::kind::Kind;
use tsp_base::place::Port;
use tsp_base::role::Role;

/// Whether an Elect that is due makes the node a candidate: it is at most `SLACK` ticks late, the node may be
/// master, and the hold lets it stand.
pub fn becomes_candidate(station: &Station, tick: u64) -> bool
    ensures { result ≡ is_to_be_candidate tick station.now }
{
    station.is_in_time(Alarm::Elect, tick)
        && (station.me.may && station.hold.may_stand(tick, station.me.own))
}

/// Handles one alarm that is due: Quiet, the quiet time ends; Search, a search for a master ends; Elect, no
/// master was heard for the election delay. Any other alarm does nothing here. An Elect for which
/// [`becomes_candidate`] is true isn't handed to it. At most three acts, and one more for each peer.
///
/// The quiet time ends however late: the port becomes Loose and searches for a master. Where no master
/// answered a search, it waits for one election delay.
pub fn slave_ring<D: Desk>(station: &mut Station, alarm: Alarm, tick: u64, port: Port, desk: &mut D)
    requires tick { IsTick tick }
    requires room { length station.old.peers + 3 ≤ D.spare desk.old }
    requires stays { alarm ≡ Elect → is_to_be_candidate tick station.old ≡ false }
    ensures row { ActsBy (slave_rings alarm) tick port station.old station.new
        D.acts desk.old desk.new }
    ensures room { UsesAtMost (length station.old.peers + 3) D.spare D.acts desk.old desk.new }
    ensures port { IsSamePort station.old station.new }
{
    match alarm {
        Alarm::Quiet => {
            station.ring(Alarm::Quiet, port, desk);
            station.become_role(Role::Loose, port, desk);
            search(station, tick, port, desk);
        }
        Alarm::Search => {
            ring_or_late(station, Alarm::Search, tick, port, desk);
            station.arm_elect(tick, port, desk);
        }
        Alarm::Elect => miss_master(station, tick, port, desk),
        _ => {}
    }
}

/// No master was heard for the election delay, and the node doesn't stand for election. In time it gives up
/// its master and searches for another one; too late it waits for one delay more.
fn miss_master<D: Desk>(station: &mut Station, tick: u64, port: Port, desk: &mut D)
    requires tick { IsTick tick }
    requires room { length station.old.peers + 3 ≤ D.spare desk.old }
    requires stays { is_to_be_candidate tick station.old ≡ false }
    ensures row { ActsBy elect_rings tick port station.old station.new D.acts desk.old desk.new }
    ensures room { UsesAtMost (length station.old.peers + 3) D.spare D.acts desk.old desk.new }
    ensures port { IsSamePort station.old station.new }
{
    if station.is_in_time(Alarm::Elect, tick) {
        station.ring(Alarm::Elect, port, desk);
        loosen(station, port, desk);
        search(station, tick, port, desk);
    } else {
        station.late(Alarm::Elect, port, desk);
        station.arm_elect(tick, port, desk);
    }
}

/// Notes that an alarm rings, or that it is late: more than `SLACK` ticks after its deadline.
fn ring_or_late<D: Desk>(station: &mut Station, alarm: Alarm, tick: u64, port: Port, desk: &mut D)
    requires room { 1 ≤ D.spare desk.old }
    ensures row { ActsBy (rings_or_late alarm) tick port station.old station.new
        D.acts desk.old desk.new }
    ensures room { Uses 1 D.spare D.acts desk.old desk.new }
    ensures port { IsSamePort station.old station.new }
{
    if station.is_in_time(alarm, tick) {
        station.ring(alarm, port, desk);
    } else {
        station.late(alarm, port, desk);
    }
}

/// Gives up the master that is followed, if one is.
fn loosen<D: Desk>(station: &mut Station, port: Port, desk: &mut D)
    requires room { 1 ≤ D.spare desk.old }
    ensures row { (x : ℕ) → ActsBy loosens x port station.old station.new
        D.acts desk.old desk.new }
    ensures room { UsesAtMost 1 D.spare D.acts desk.old desk.new }
    ensures port { IsSamePort station.old station.new }
{
    match station.role {
        Role::Follow(_) => station.become_role(Role::Loose, port, desk),
        _ => {}
    }
}

/// Asks each other peer by a MASTERREQ whether it is a master, and waits `WINDOW` ticks for answers.
fn search<D: Desk>(station: &mut Station, tick: u64, port: Port, desk: &mut D)
    requires tick { IsTick tick }
    requires room { length station.old.peers + 1 ≤ D.spare desk.old }
    ensures row { ActsBy searches tick port station.old station.new D.acts desk.old desk.new }
    ensures room { UsesAtMost (length station.old.peers + 1) D.spare D.acts desk.old desk.new }
    ensures port { IsSamePort station.old station.new }
{
    station.arm(Alarm::Search, tick, WINDOW, port, desk);
    station.post_to_others(Kind::MasterReq, 0, port, desk);
}
