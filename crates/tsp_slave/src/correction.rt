//! A follower's corrections: each acts once, and its repeats are only acknowledged.
ghost use Rattle.std.specs.Prelude.{◌≡◌, ℕ, ◌==◌, ◌&&◌, ◌≤◌, if◌then◌else◌, [], Option, Some};
ghost use Rattle.tsp_base.specs.declared.constants.TheConstants.{GAP};
ghost use Rattle.tsp_base.specs.Hold.{is_past};
ghost use Rattle.tsp_base.specs.Rows.{Row, reading};
ghost use Rattle.tsp_rules.specs.Guards.{role_at};
ghost use Rattle.tsp_rules.specs.SlaveRows.{confirms, acks_repeat, from_master};
ghost use Rattle.tsp_acks.specs.Calls.{ActsBy, IsSamePort, IsTick, Past, Performs, Received, StationStands, Uses, UsesAtMost};
ghost use Rattle.tsp_clock.specs.Clocks.{ClockValue};
ghost use Rattle.tsp_slave.specs.ClockChanges.{change_in, fits, correction_of};
ghost use Rattle.tsp_slave.specs.Corrections.{TellsCorrection};
ghost use Rattle.tsp_slave.specs.SlaveStands.{ActsOn, IsCorrection, SlaveStands, slave};

use crate::change::Change;
use crate::last::{Correction, Last};
use tsp_acks::station::Station;
use tsp_base::at::At;
use tsp_base::desk::Desk;
use tsp_base::kind::Kind;
use tsp_base::message::Message;
use tsp_base::place::PeerId;
use tsp_base::role::Role;
use tsp_clock::clock::Clock;

/// Takes a correction, where its sender is the master that is followed. It changes the clock and is
/// acknowledged where its number is the clock's ticket, the last correction is `GAP` ticks or more ago, and the
/// clock stays in its range. Else it is acknowledged where it repeats the last one, and passed over where it
/// doesn't. Says whether it changed the clock.
pub(crate) fn take_correction<D: Desk>(
    station: &mut Station,
    last: &mut Last,
    clock: &mut Clock,
    from: PeerId,
    m: &Message,
    at: At,
    desk: &mut D,
) -> bool
    requires tick { IsTick at.tick }
    requires later { clock.old.at ≤ at.tick }
    requires room { 3 ≤ D.spare desk.old }
    ensures row { ActsOn (IsCorrection (Some (record { from = from; number = m.now.number })))
        (reading role_at (from_master from (correction_of from m.now.number (change_in m.now))))
        at.tick at.port
        (slave station.old last.old clock.old) (slave station.new last.new clock.new)
        D.acts desk.old desk.new }
    ensures corrects { (past : Past) (took : Option Received)
        → IsCorrection (Some (record { from = from; number = m.now.number })) took
        → SlaveStands past (slave station.old last.old clock.old took)
        → TellsCorrection result at.port (D.acts desk.old) (D.acts desk.new) }
    ensures room { UsesAtMost 3 D.spare D.acts desk.old desk.new }
    ensures port { IsSamePort station.old station.new }
    ensures clock { clock.new.at ≤ at.tick }
{
    if !follows(station, from) {
        return false;
    }
    let number = m.number();
    let correction = Correction { from, number };
    let change = Change::of(m);
    if acts_now(last, clock, at.tick, number, change) {
        last.took(at.tick, correction);
        change.make(clock, at, desk);
        confirm(station, at, correction, desk);
        true
    } else {
        ack_repeat(station, last, at, correction, desk);
        false
    }
}

/// Whether the port follows this peer, so that it takes its corrections.
#[inline(always)]
fn follows(station: &Station, from: PeerId) -> bool
    ensures { (row : Row) (x : ℕ) (past : Past) → StationStands past station.now
        → reading role_at (from_master from row) x past ≡ (if result then row x past else []) }
{
    match station.role {
        Role::Follow(q) => q.0 == from.0,
        _ => false,
    }
}

/// Whether a correction acts: its number is the clock's ticket, the last one is `GAP` ticks or more ago, and
/// the clock stays in its range.
fn acts_now(last: &Last, clock: &Clock, tick: u64, number: u16, change: Change) -> bool
    requires tick { IsTick tick }
    requires later { clock.now.at ≤ tick }
    ensures { result ≡ (((number == clock.now.ticket) && is_past last.now.tick GAP tick) && fits
        clock.now tick change) }
{
    number == clock.ticket() && last.is_rested(tick) && change.fits(clock, tick)
}

/// After a correction the master counts as heard, so that the election delay begins anew, and gets an ACK.
fn confirm<D: Desk>(station: &mut Station, at: At, correction: Correction, desk: &mut D)
    requires tick { IsTick at.tick }
    requires room { 2 ≤ D.spare desk.old }
    ensures row { ActsBy (confirms correction.from correction.number) at.tick at.port station.old
        station.new D.acts desk.old desk.new }
    ensures room { Uses 2 D.spare D.acts desk.old desk.new }
    ensures port { IsSamePort station.old station.new }
{
    station.arm_elect(at.tick, at.port, desk);
    station.post(correction.from, Kind::Ack, correction.number, at.port, desk);
}

/// Acknowledges a repeat of the last correction again, and passes over any other.
fn ack_repeat<D: Desk>(station: &Station, last: &Last, at: At, correction: Correction, desk: &mut D)
    requires room { 1 ≤ D.spare desk.old }
    ensures row { (clock : ClockValue) (took : Option Received)
        → Performs SlaveStands SlaveStands (acks_repeat correction.from correction.number)
        at.tick at.port
        (slave station.now last.now clock took) (slave station.now last.now clock took)
        (D.acts desk.old) (D.acts desk.new) }
    ensures room { UsesAtMost 1 D.spare D.acts desk.old desk.new }
{
    if last.is_repeat(correction) {
        station.post(correction.from, Kind::Ack, correction.number, at.port, desk);
    }
}
