//! The alarms of a master: a round begins, asks, and closes.
ghost use Rattle.std.specs.Prelude.{◌≡◌, ◌+◌, ◌*◌, ◌≤◌, ◌<◌, ℕ, true, false, Some, [], ◌∷◌, ◌++◌};
ghost use Rattle.tsp_base.specs.declared.act.Act.TheVariants.{Post};
ghost use Rattle.tsp_base.specs.declared.alarm.Alarm.TheVariants.{Probe as ProbeAlarm, Close as CloseAlarm};
ghost use Rattle.tsp_base.specs.declared.constants.TheConstants.{CLOSE, PROBE};
ghost use Rattle.tsp_base.specs.declared.datagram.Datagram.TheVariants.{Stamp as StampOf};
ghost use Rattle.tsp_base.specs.declared.place.PeerId.{PeerId};
ghost use Rattle.tsp_base.specs.declared.place.Place.TheVariants.{Peer};
ghost use Rattle.tsp_base.specs.Alarms.{deadline};
ghost use Rattle.tsp_base.specs.RoundFacts.{Sampled, best};
ghost use Rattle.tsp_base.specs.Rows.{◌followed_by◌, arms, placed};
ghost use Rattle.tsp_rules.specs.RoundRows.{arms_next, asks_measured, asks_slaves, corrects, probe_rings};
ghost use Rattle.tsp_rules.specs.RoundRows.{round_begins, round_rings};
ghost use Rattle.tsp_rules.specs.Guards.{is_over};
ghost use Rattle.tsp_measure.specs.Measures.{begun};
ghost use Rattle.tsp_acks.specs.Calls.{Contains, IsTick, Past, Performs, UsesAtMost, IsSamePort};
ghost use Rattle.tsp_clock.specs.Clocks.{ClockValue, target_of};
ghost use Rattle.tsp_measure.specs.Rounds.{IsCounted, IsNothing, MayAsk, Starts, measured_with};
ghost use Rattle.tsp_measure.specs.Slaves.{peers_of};
ghost use Rattle.tsp_master.specs.Frames.{peer_count};
ghost use Rattle.tsp_master.specs.MasterAlarms.{IsInTurn, master_rings};
ghost use Rattle.tsp_master.specs.MasterStands.{IsLeftAlone, IsSinceCorrect};

use crate::master::Master;
use tsp_acks::station::Station;
use tsp_base::act::Act;
use tsp_base::alarm::Alarm;
use tsp_base::at::At;
use tsp_base::constants::{CLOSE, PROBE, ROUND};
use tsp_base::datagram::Datagram;
use tsp_base::desk::Desk;
use tsp_base::kind::Kind;
use tsp_base::place::{PeerId, Place, Port};
use tsp_base::stamp::Stamp;
use tsp_clock::clock::Clock;
use tsp_measure::{Change, PROBES};

impl Master {
    ghost use Rattle.tsp_master.specs.MasterStands.{LeadStands, ProbesStands, RingStands, StartsStands, lead_of};

    /// Handles one alarm of a round that is due: a Probe asks the measured peers again, a Close closes the
    /// round, and a Round begins one. One that is more than `SLACK` ticks late gives the round up (Probe,
    /// Close) or puts it off (Round). Any other alarm does nothing here. If this port doesn't lead the clock
    /// (`group_mean` is false), a close uses the mean 0 and leaves the clock. The row is that of a Close only
    /// if no Probe is due. The answer is whether the clock was corrected. At most four acts, and two more for
    /// each peer.
    pub fn ring<D: Desk>(
        &mut self,
        station: &mut Station,
        clock: &mut Clock,
        alarm: Alarm,
        group_mean: bool,
        tick: u64,
        port: Port,
        desk: &mut D,
    ) -> bool
        requires tick { IsTick tick }
        requires later { clock.old.at ≤ tick }
        requires due { is_over (deadline station.old.alarms alarm) tick ≡ true }
        requires room { 2 * peer_count self.old + 4 ≤ D.spare desk.old }
        requires same { peers_of self.old.slaves ≡ station.old.peers }
        ensures row { IsInTurn alarm station.old.alarms tick
            → Performs RingStands RingStands (master_rings group_mean alarm) tick port
            (lead_of self.old station.old clock.old) (lead_of self.new station.new clock.new)
            (D.acts desk.old) (D.acts desk.new) }
        ensures corrects { IsInTurn alarm station.old.alarms tick
            → (past : Past) → RingStands past (lead_of self.old station.old clock.old)
            → result ≡ corrects (master_rings group_mean alarm tick past) }
        ensures recent { alarm ≡ CloseAlarm → (past : Past)
            → RingStands past (lead_of self.old station.old clock.old) → IsLeftAlone past.seen
            → (p : PeerId) (s : Sampled) → best p past.seen ≡ Some s
            → IsSinceCorrect p s past.seen }
        ensures over { alarm ≡ ProbeAlarm → is_over station.new.alarms.probe tick ≡ false }
        ensures room { UsesAtMost (2 * peer_count self.old + 4) D.spare D.acts desk.old desk.new }
        ensures port { IsSamePort station.old station.new }
        ensures peers { peers_of self.new.slaves ≡ peers_of self.old.slaves }
        ensures clock { clock.new.at ≤ tick }
    {
        let at = At { tick, port };
        match alarm {
            Alarm::Probe => {
                self.ring_probe(station, clock, at, desk);
                false
            }
            Alarm::Close => self.ring_close(station, clock, group_mean, at, desk),
            Alarm::Round => {
                self.ring_round(station, clock, at, desk);
                false
            }
            _ => false,
        }
    }

    /// Handles a Round that is due: where it is in time a round begins. In any case the next one is
    /// `ROUND` ticks from now.
    fn ring_round<D: Desk>(&mut self, station: &mut Station, clock: &Clock, at: At, desk: &mut D)
        requires tick { IsTick at.tick }
        requires later { clock.now.at ≤ at.tick }
        requires room { 2 * peer_count self.old + 4 ≤ D.spare desk.old }
        requires same { peers_of self.old.slaves ≡ station.old.peers }
        ensures row { Performs RingStands LeadStands (round_rings false) at.tick at.port
            (lead_of self.old station.old clock.now) (lead_of self.new station.new clock.now)
            (D.acts desk.old) (D.acts desk.new) }
        ensures room { UsesAtMost (2 * peer_count self.old + 4) D.spare D.acts desk.old desk.new }
        ensures port { IsSamePort station.old station.new }
        ensures peers { peers_of self.new.slaves ≡ peers_of self.old.slaves }
    {
        if station.is_in_time(Alarm::Round, at.tick) {
            station.ring(Alarm::Round, at.port, desk);
            self.begin_round(station, clock, at, desk);
        } else {
            station.late(Alarm::Round, at.port, desk);
            station.arm(Alarm::Round, at.tick, ROUND, at.port, desk);
        }
    }

    /// Begins a round: its first probe is due in `PROBE` ticks and its close in `CLOSE` ticks, the other peers
    /// hear of the master by a MASTERUP, and the slaves are asked.
    fn begin_round<D: Desk>(&mut self, station: &mut Station, clock: &Clock, at: At, desk: &mut D)
        requires tick { IsTick at.tick }
        requires later { clock.now.at ≤ at.tick }
        requires room { 2 * peer_count self.old + 3 ≤ D.spare desk.old }
        requires same { peers_of self.old.slaves ≡ station.old.peers }
        ensures row { Performs LeadStands LeadStands round_begins at.tick at.port
            (lead_of self.old station.old clock.now) (lead_of self.new station.new clock.now)
            (D.acts desk.old) (D.acts desk.new) }
        ensures room { UsesAtMost (2 * peer_count self.old + 3) D.spare D.acts desk.old desk.new }
        ensures port { IsSamePort station.old station.new }
        ensures peers { peers_of self.new.slaves ≡ peers_of self.old.slaves }
    {
        station.arm(Alarm::Round, at.tick, ROUND, at.port, desk);
        self.arm_round(station, at.tick, at.port, desk);
        station.post_to_others(Kind::MasterUp, 0, at.port, desk);
        self.ask_slaves(station, clock, at, desk);
    }

    /// Arms the first probe and the close of a round that begins; nothing is measured in it yet.
    fn arm_round<D: Desk>(&mut self, station: &mut Station, tick: u64, port: Port, desk: &mut D)
        requires tick { IsTick tick }
        requires room { 2 ≤ D.spare desk.old }
        ensures row { (clock : ClockValue)
            → Performs LeadStands StartsStands (arms ProbeAlarm PROBE followed_by arms CloseAlarm
            CLOSE) tick port
            (lead_of self.old station.old clock) (lead_of self.new station.new clock)
            (D.acts desk.old) (D.acts desk.new) }
        ensures room { UsesAtMost 2 D.spare D.acts desk.old desk.new }
        ensures port { IsSamePort station.old station.new }
        ensures peers { peers_of self.new.slaves ≡ peers_of self.old.slaves }
        ensures probes { self.new.rounds.probes ≡ 0 }
        ensures nothing { IsNothing self.new.rounds }
        ensures counted { IsCounted self.new.rounds 0 }
    {
        station.arm(Alarm::Probe, tick, PROBE, port, desk);
        station.arm(Alarm::Close, tick, CLOSE, port, desk);
        self.slaves.unmeasure_all();
        self.rounds.begin();
    }

    /// Handles a Probe that is due: where it is in time the measured peers are asked again, and the
    /// next probe is due in `PROBE` ticks unless this was the third; else the round is given up.
    fn ring_probe<D: Desk>(&mut self, station: &mut Station, clock: &Clock, at: At, desk: &mut D)
        requires tick { IsTick at.tick }
        requires later { clock.now.at ≤ at.tick }
        requires due { is_over station.old.alarms.probe at.tick ≡ true }
        requires room { peer_count self.old + 2 ≤ D.spare desk.old }
        requires same { peers_of self.old.slaves ≡ station.old.peers }
        ensures row { Performs RingStands LeadStands probe_rings at.tick at.port
            (lead_of self.old station.old clock.now) (lead_of self.new station.new clock.now)
            (D.acts desk.old) (D.acts desk.new) }
        ensures room { UsesAtMost (peer_count self.old + 2) D.spare D.acts desk.old desk.new }
        ensures port { IsSamePort station.old station.new }
        ensures peers { peers_of self.new.slaves ≡ peers_of self.old.slaves }
        ensures over { is_over station.new.alarms.probe at.tick ≡ false }
    {
        if !station.is_in_time(Alarm::Probe, at.tick) {
            station.late(Alarm::Probe, at.port, desk);
            station.abandon(at.port, desk);
            return;
        }
        station.ring(Alarm::Probe, at.port, desk);
        if self.rounds.count_probe() {
            self.ask_measured(station, clock, at, desk);
            self.arm_next(station, at.tick, at.port, desk);
        }
    }

    /// Arms the next probe, unless the round has had its last one.
    fn arm_next<D: Desk>(&self, station: &mut Station, tick: u64, port: Port, desk: &mut D)
        requires tick { IsTick tick }
        requires room { 1 ≤ D.spare desk.old }
        requires off { is_over station.old.alarms.probe tick ≡ false }
        ensures row { (clock : ClockValue)
            → Performs (ProbesStands tick) LeadStands arms_next tick port
            (lead_of self.now station.old clock) (lead_of self.now station.new clock)
            (D.acts desk.old) (D.acts desk.new) }
        ensures room { UsesAtMost 1 D.spare D.acts desk.old desk.new }
        ensures port { IsSamePort station.old station.new }
        ensures over { is_over station.new.alarms.probe tick ≡ false }
    {
        if self.rounds.probes() < PROBES {
            station.arm(Alarm::Probe, tick, PROBE, port, desk);
        }
    }

    /// Posts a stamp request to a peer, and begins an exchange with it: a reply of the same word and counter
    /// gives a sample.
    fn ask<D: Desk>(&mut self, station: &Station, clock: &Clock, at: At, peer: PeerId, desk: &mut D)
        requires tick { IsTick at.tick }
        requires later { clock.now.at ≤ at.tick }
        requires room { 1 ≤ D.spare desk.old }
        requires peer { Contains (peers_of self.old.slaves) peer }
        requires few { begun (measured_with self.old.rounds peer) ≤ self.old.rounds.probes }
        requires counted { IsCounted self.old.rounds (1000 * self.old.rounds.probes + 999) }
        ensures acts { D.acts desk.new ≡ D.acts desk.old ++ placed at.port
            (Post (Peer peer) (StampOf (Stamp.Request station.now.me.word self.old.rounds.asked))
            ∷ []) }
        ensures starts { Starts peer station.now.me.word (target_of clock.now at.tick)
            self.old.rounds self.new.rounds }
        ensures counted { (most : ℕ) → most < 4000 → IsCounted self.old.rounds most
            → IsCounted self.new.rounds (most + 1) }
        ensures slaves { self.new.slaves ≡ self.old.slaves }
        ensures room { UsesAtMost 1 D.spare D.acts desk.old desk.new }
    {
        let word = station.me.word;
        let counter = self.rounds.start(peer, word, clock.target(at.tick));
        let request = Stamp::Request { word, counter };
        desk.put(
            at.port,
            Act::Post(Place::Peer(peer), Datagram::Stamp(request)),
        );
    }

    /// Posts a stamp request to each slave, ascending, while a round begins; they are measured from now on.
    fn ask_slaves<D: Desk>(&mut self, station: &Station, clock: &Clock, at: At, desk: &mut D)
        requires tick { IsTick at.tick }
        requires later { clock.now.at ≤ at.tick }
        requires room { peer_count self.old ≤ D.spare desk.old }
        requires asks { MayAsk self.old.rounds }
        ensures row { Performs StartsStands StartsStands asks_slaves at.tick at.port
            (lead_of self.old station.now clock.now) (lead_of self.new station.now clock.now)
            (D.acts desk.old) (D.acts desk.new) }
        ensures room { UsesAtMost (peer_count self.old) D.spare D.acts desk.old desk.new }
        ensures peers { peers_of self.new.slaves ≡ peers_of self.old.slaves }
    {
        for place in 0..self.slaves.len() {
            let entry = self.slaves.at(place);
            if entry.joined {
                self.slaves.change(entry.peer, Change::Measure);
                self.ask(station, clock, at, entry.peer, desk);
            }
        }
    }

    /// Posts a stamp request to each measured peer, ascending, at a probe that was counted.
    fn ask_measured<D: Desk>(&mut self, station: &Station, clock: &Clock, at: At, desk: &mut D)
        requires tick { IsTick at.tick }
        requires later { clock.now.at ≤ at.tick }
        requires room { peer_count self.old ≤ D.spare desk.old }
        requires asks { MayAsk self.old.rounds }
        ensures row { Performs (ProbesStands at.tick) (ProbesStands at.tick) asks_measured
            at.tick at.port
            (lead_of self.old station.now clock.now) (lead_of self.new station.now clock.now)
            (D.acts desk.old) (D.acts desk.new) }
        ensures room { UsesAtMost (peer_count self.old) D.spare D.acts desk.old desk.new }
        ensures slaves { self.new.slaves ≡ self.old.slaves }
        ensures probes { self.new.rounds.probes ≡ self.old.rounds.probes }
    {
        for place in 0..self.slaves.len() {
            let entry = self.slaves.at(place);
            if entry.measured {
                self.ask(station, clock, at, entry.peer, desk);
            }
        }
    }
}
