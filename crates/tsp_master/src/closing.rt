//! How a master closes a round.
ghost use Rattle.std.specs.Prelude.{◌≡◌, ◌+ℤ◌, ◌-ℤ◌, ◌+◌, ◌≤◌, true, false};
ghost use Rattle.tsp_base.specs.Rows.{for_each};
ghost use Rattle.tsp_group.specs.Values.{IsNear};
ghost use Rattle.tsp_rules.specs.RoundRows.{close_rings, corrects, corrects_peer, moves};
ghost use Rattle.tsp_acks.specs.declared.station.Station.{Station};
ghost use Rattle.tsp_acks.specs.Calls.{IsTick, Past, Performs, UsesAtMost, IsSamePort};
ghost use Rattle.tsp_clock.specs.Clocks.{target_of};
ghost use Rattle.tsp_rules.specs.Guards.{is_clock_value, is_over};
ghost use Rattle.tsp_measure.specs.Slaves.{peers_of};
ghost use Rattle.tsp_master.specs.declared.master.Master.{Master};
ghost use Rattle.tsp_master.specs.MasterStands.{LeadStands, RingStands, lead_of};
ghost use Rattle.tsp_master.specs.Closing.{round_of, standing_with};
ghost use Rattle.tsp_master.specs.Frames.{ChangesOnly, MayServe, peer_count};

use crate::gathering::{is_near, mean_by};
use crate::master::Master;
use tsp_acks::station::Station;
use tsp_base::act::Act;
use tsp_base::alarm::Alarm;
use tsp_base::at::At;
use tsp_base::desk::Desk;
use tsp_base::micros::Micros;
use tsp_base::place::{PeerId, Port};
use tsp_clock::clock::Clock;
use tsp_group::correction;

impl Master {
    /// Handles a Close that is due. Where it is at most `SLACK` ticks late the round closes
    /// with the largest group: the own clock is moved by its mean where this port leads it (`own`), and then
    /// each measured peer is corrected; else the mean is 0. Where the clock would leave its range, or the alarm
    /// is later than that, the round is given up. The answer is whether the clock was corrected. The row is that
    /// of a Close whose Probe isn't due any more.
    pub(crate) fn ring_close<D: Desk>(
        &mut self,
        station: &mut Station,
        clock: &mut Clock,
        own: bool,
        at: At,
        desk: &mut D,
    ) -> bool
        requires tick { IsTick at.tick }
        requires later { clock.old.at ≤ at.tick }
        requires due { is_over station.old.alarms.close at.tick ≡ true }
        requires room { peer_count self.old + 3 ≤ D.spare desk.old }
        requires same { peers_of self.old.slaves ≡ station.old.peers }
        ensures row { is_over station.old.alarms.probe at.tick ≡ false
            → Performs RingStands LeadStands (close_rings own) at.tick at.port
            (lead_of self.old station.old clock.old) (lead_of self.new station.new clock.new)
            (D.acts desk.old) (D.acts desk.new) }
        ensures corrects { is_over station.old.alarms.probe at.tick ≡ false
            → (past : Past) → RingStands past (lead_of self.old station.old clock.old)
            → result ≡ corrects (close_rings own at.tick past) }
        ensures room { UsesAtMost (peer_count self.old + 3) D.spare D.acts desk.old desk.new }
        ensures port { IsSamePort station.old station.new }
        ensures peers { peers_of self.new.slaves ≡ peers_of self.old.slaves }
        ensures clock { clock.new.at ≤ at.tick }
    {
        if !station.is_in_time(Alarm::Close, at.tick) {
            station.late(Alarm::Close, at.port, desk);
            station.abandon(at.port, desk);
            return false;
        }
        station.ring(Alarm::Close, at.port, desk);
        let group = self.group();
        let mean = mean_by(own, &group);
        if !clock.can_adjust(at.tick, mean) {
            station.abandon(at.port, desk);
            return false;
        }
        desk.put(
            at.port,
            Act::Close {
                count: group.count,
                lo: group.lo,
                width: group.width,
                mean,
            },
        );
        move_own(clock, own, mean, at.tick, at.port, desk);
        self.correct_each(station, clock, at, mean, desk);
        own
    }

    /// Corrects each measured peer, ascending, towards a mean in microseconds.
    fn correct_each<D: Desk>(
        &mut self,
        station: &mut Station,
        clock: &Clock,
        at: At,
        mean: i64,
        desk: &mut D,
    )
        requires tick { IsTick at.tick }
        requires later { clock.now.at ≤ at.tick }
        requires near { IsNear mean }
        requires room { peer_count self.old ≤ D.spare desk.old }
        requires same { peers_of self.old.slaves ≡ station.old.peers }
        ensures row { Performs LeadStands LeadStands
            (for_each (corrects_peer mean) (round_of self.old.slaves self.old.rounds))
            at.tick at.port
            (lead_of self.old station.old clock.now) (lead_of self.new station.new clock.now)
            (D.acts desk.old) (D.acts desk.new) }
        ensures room { UsesAtMost (peer_count self.old) D.spare D.acts desk.old desk.new }
        ensures port { IsSamePort station.old station.new }
        ensures peers { peers_of self.new.slaves ≡ peers_of self.old.slaves }
    {
        for place in 0..self.slaves.len() {
            let entry = self.slaves.at(place);
            if entry.measured {
                self.correct_peer(station, clock, at, entry.peer, mean, desk);
            }
        }
    }

    /// Corrects a measured peer by its best sample: by an ADJTIME where it differs by less than `FAR`, else by
    /// a SETTIME. One that never answered is taken out of the slaves.
    fn correct_peer<D: Desk>(
        &mut self,
        station: &mut Station,
        clock: &Clock,
        at: At,
        peer: PeerId,
        mean: i64,
        desk: &mut D,
    )
        requires ready { MayServe peer at.tick (lead_of self.old station.old clock.now) }
        requires near { IsNear mean }
        requires room { 1 ≤ D.spare desk.old }
        ensures row { Performs LeadStands LeadStands
            (corrects_peer mean (standing_with self.old.rounds peer)) at.tick at.port
            (lead_of self.old station.old clock.now) (lead_of self.new station.new clock.now)
            (D.acts desk.old) (D.acts desk.new) }
        ensures room { UsesAtMost 1 D.spare D.acts desk.old desk.new }
        ensures port { IsSamePort station.old station.new }
        ensures only { ChangesOnly peer self.old self.new }
    {
        match self.rounds.best(peer) {
            None => {
                desk.put(at.port, Act::Leave(peer));
                self.slaves.leave(peer);
            }
            Some(best) => {
                if is_near(best.diff) {
                    let amount = amount(mean, best.diff);
                    self.begin_adjtime(station, at, peer, best.ticket, amount, desk);
                } else {
                    self.begin_settime(station, clock, at, peer, best.ticket, desk);
                }
            }
        }
    }
}

/// What brings a clock that is ahead by `diff` to the mean, as a message has it; all in microseconds.
fn amount(mean: i64, diff: i64) -> Micros
    requires mean { IsNear mean }
    requires diff { IsNear diff }
    ensures { result ≡ mean -ℤ diff }
{
    match Micros::of(correction(mean, diff)) {
        Some(amount) => amount,
        None => unreachable!(),
    }
}

/// Moves the own clock by the mean, in microseconds, where this port leads it.
fn move_own<D: Desk>(clock: &mut Clock, own: bool, mean: i64, tick: u64, port: Port, desk: &mut D)
    requires tick { IsTick tick }
    requires later { clock.old.at ≤ tick }
    requires range { is_clock_value (target_of clock.old tick +ℤ mean) ≡ true }
    requires room { 1 ≤ D.spare desk.old }
    ensures row { (master : Master) (station : Station)
        → Performs LeadStands LeadStands (moves own mean) tick port
        (lead_of master station clock.old) (lead_of master station clock.new)
        (D.acts desk.old) (D.acts desk.new) }
    ensures room { UsesAtMost 1 D.spare D.acts desk.old desk.new }
    ensures clock { clock.new.at ≤ tick }
{
    if own {
        clock.correct_by(tick, mean, port, desk);
    }
}
