//! What a port that is Loose or follows does with a message of a peer.
ghost use Rattle.std.specs.Prelude.{◌≡◌, ℕ, ◌≤◌, false, if◌then◌else◌, [], Option};
ghost use Rattle.tsp_base.specs.Rows.{reading};
ghost use Rattle.tsp_base.specs.SendFacts.{is_correction};
ghost use Rattle.tsp_rules.specs.SlaveRows.{masterack_in, masterup_in, slave_takes};
ghost use Rattle.tsp_rules.specs.Guards.{role_at};
ghost use Rattle.tsp_acks.specs.Calls.{Contains, IsTick, Past, Received, StationStands, UsesAtMost, IsSamePort};
ghost use Rattle.tsp_slave.specs.Corrections.{TellsCorrection};
ghost use Rattle.tsp_slave.specs.SlaveStands.{ActsOn, IsMessageFrom, SlaveStands, slave};

use crate::conflict::report_conflict;
use crate::correction::take_correction;
use crate::election::vote;
use crate::follow::{follow, tell_ticket};
use crate::last::Last;
use crate::quit::take_quit;
use tsp_acks::station::Station;
use tsp_base::alarm::Alarm;
use tsp_base::at::At;
use tsp_base::desk::Desk;
use tsp_base::kind::Kind;
use tsp_base::message::Message;
use tsp_base::place::{PeerId, Port};
use tsp_base::role::Role;
use tsp_clock::clock::Clock;

/// Handles a message of another peer at a port that is Loose or follows:
///
/// - MASTERUP or MASTERACK: a master is there; the port follows it, or tells its own master of it.
/// - ELECTION: a candidate asks for its vote.
/// - ADJTIME or SETTIME: a correction, which is taken of its own master alone.
/// - QUIT: it follows the sender unless it follows a master.
/// - ACK: it ends the open send that it answers.
///
/// Any other message is passed over. At most five acts. [`slave_hear`] also says whether the clock was
/// corrected.
pub fn slave_take<D: Desk>(
    station: &mut Station,
    last: &mut Last,
    clock: &mut Clock,
    tick: u64,
    from: PeerId,
    m: &Message,
    port: Port,
    desk: &mut D,
)
    requires tick { IsTick tick }
    requires later { clock.old.at ≤ tick }
    requires room { 5 ≤ D.spare desk.old }
    requires peer { Contains station.old.peers from }
    ensures row { ActsOn (IsMessageFrom from m.now) (slave_takes from m.now) tick port
        (slave station.old last.old clock.old) (slave station.new last.new clock.new)
        D.acts desk.old desk.new }
    ensures room { UsesAtMost 5 D.spare D.acts desk.old desk.new }
    ensures port { IsSamePort station.old station.new }
    ensures clock { clock.new.at ≤ tick }
{
    let _ = slave_hear(station, last, clock, At { tick, port }, from, m, desk);
}

/// Handles a message as [`slave_take`] does, and says whether that corrected the clock.
pub fn slave_hear<D: Desk>(
    station: &mut Station,
    last: &mut Last,
    clock: &mut Clock,
    at: At,
    from: PeerId,
    m: &Message,
    desk: &mut D,
) -> bool
    requires tick { IsTick at.tick }
    requires later { clock.old.at ≤ at.tick }
    requires room { 5 ≤ D.spare desk.old }
    requires peer { Contains station.old.peers from }
    ensures row { ActsOn (IsMessageFrom from m.now) (slave_takes from m.now) at.tick at.port
        (slave station.old last.old clock.old) (slave station.new last.new clock.new)
        D.acts desk.old desk.new }
    ensures corrects { (past : Past) (took : Option Received) → IsMessageFrom from m.now took
        → SlaveStands past (slave station.old last.old clock.old took)
        → TellsCorrection result at.port (D.acts desk.old) (D.acts desk.new) }
    ensures room { UsesAtMost 5 D.spare D.acts desk.old desk.new }
    ensures port { IsSamePort station.old station.new }
    ensures clock { clock.new.at ≤ at.tick }
{
    if m.kind().is_correction() {
        take_correction(station, last, clock, from, m, at, desk)
    } else {
        hear_other(station, last, clock, from, at, m, desk);
        false
    }
}

/// Handles a message that is no correction.
fn hear_other<D: Desk>(
    station: &mut Station,
    last: &mut Last,
    clock: &Clock,
    from: PeerId,
    at: At,
    m: &Message,
    desk: &mut D,
)
    requires other { is_correction m.now.kind ≡ false }
    requires peer { Contains station.old.peers from }
    requires tick { IsTick at.tick }
    requires room { 5 ≤ D.spare desk.old }
    ensures row { ActsOn (IsMessageFrom from m.now) (slave_takes from m.now) at.tick at.port
        (slave station.old last.old clock.now) (slave station.new last.new clock.now)
        D.acts desk.old desk.new }
    ensures room { UsesAtMost 5 D.spare D.acts desk.old desk.new }
    ensures port { IsSamePort station.old station.new }
{
    let number = m.number();
    match m.kind() {
        Kind::MasterUp => hear_master(station, last, clock, from, m, at, desk),
        Kind::MasterAck => {
            if heeds_masterack(station, from) {
                hear_master(station, last, clock, from, m, at, desk);
            }
        }
        Kind::Election => vote(station, at, from, number, desk),
        Kind::Quit => take_quit(station, last, clock, at, from, m, desk),
        Kind::Ack => {
            let _ = station.acknowledge(from, number, at.port, desk);
        }
        _ => {}
    }
}

/// A master says that it is there: a port that follows none follows it, a follower answers its master, and
/// tells it of any other one.
fn hear_master<D: Desk>(
    station: &mut Station,
    last: &mut Last,
    clock: &Clock,
    from: PeerId,
    m: &Message,
    at: At,
    desk: &mut D,
)
    requires peer { Contains station.old.peers from }
    requires tick { IsTick at.tick }
    requires room { 3 ≤ D.spare desk.old }
    ensures row { ActsOn (IsMessageFrom from m.now) (reading role_at (masterup_in from))
        at.tick at.port
        (slave station.old last.old clock.now) (slave station.new last.new clock.now)
        D.acts desk.old desk.new }
    ensures room { UsesAtMost 3 D.spare D.acts desk.old desk.new }
    ensures port { IsSamePort station.old station.new }
{
    match station.role {
        Role::Loose => follow(station, last, clock, at.tick, from, m.name(), at.port, desk),
        Role::Follow(q) => {
            if q.0 == from.0 {
                station.arm_elect(at.tick, at.port, desk);
                tell_ticket(station, clock, from, at.port, desk);
            } else {
                report_conflict(station, q, at.tick, at.port, desk);
            }
        }
        _ => {}
    }
}

/// Whether a MASTERACK tells the port as much as a MASTERUP does: where the port searches, or follows another
/// master than this one. Else it tells nothing.
#[inline(always)]
fn heeds_masterack(station: &Station, from: PeerId) -> bool
    ensures { (x : ℕ) (past : Past) → StationStands past station.now
        → reading role_at (masterack_in from) x past
        ≡ (if result then reading role_at (masterup_in from) x past else []) }
{
    match station.role {
        Role::Loose => station.alarms.at(Alarm::Search).is_some(),
        Role::Follow(q) => q.0 != from.0,
        _ => false,
    }
}
