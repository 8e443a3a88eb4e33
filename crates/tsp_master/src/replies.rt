//! What a master does with the replies to its requests.
ghost use Rattle.std.specs.Prelude.{◌≡◌, ◌≤◌, ℕ};
ghost use Rattle.tsp_acks.specs.Calls.{IsTick, Performs, UsesAtMost};
ghost use Rattle.tsp_clock.specs.Clocks.{ClockValue, target_of};
ghost use Rattle.tsp_measure.specs.Measures.{IsReading};
ghost use Rattle.tsp_rules.specs.RoundRows.{samples};
ghost use Rattle.tsp_acks.specs.declared.station.Station.{Station};
ghost use Rattle.tsp_measure.specs.Slaves.{peers_of};
ghost use Rattle.tsp_master.specs.MasterTakes.{samples_of};

use crate::master::Master;
use tsp_acks::station::Station;
use tsp_base::act::Act;
use tsp_base::alarm::Alarm;
use tsp_base::desk::Desk;
use tsp_base::place::{PeerId, Port};
use tsp_base::stamp::{Stamp, StampReply};
use tsp_clock::clock::Clock;
use tsp_measure::Reply;

impl Master {
    ghost use Rattle.tsp_master.specs.MasterStands.{LeadStands, GoingStands, lead_of};

    /// Handles a stamp of another peer at a master: a reply that answers an open exchange of the going round
    /// gives a sample. At most one act.
    pub fn reply<D: Desk>(
        &mut self,
        station: &Station,
        clock: &Clock,
        tick: u64,
        from: PeerId,
        s: &Stamp,
        port: Port,
        desk: &mut D,
    )
        requires tick { IsTick tick }
        requires later { clock.now.at ≤ tick }
        requires room { 1 ≤ D.spare desk.old }
        ensures row { Performs LeadStands LeadStands (samples_of from s.now) tick port
            (lead_of self.old station.now clock.now) (lead_of self.new station.now clock.now)
            (D.acts desk.old) (D.acts desk.new) }
        ensures room { UsesAtMost 1 D.spare D.acts desk.old desk.new }
        ensures peers { peers_of self.new.slaves ≡ peers_of self.old.slaves }
    {
        match s {
            Stamp::Request { .. } => {}
            Stamp::Reply(reply) => {
                if station.alarms.at(Alarm::Close).is_some() {
                    self.sample(from, reply, clock.target(tick), port, desk);
                }
            }
        }
    }

    /// Takes a reply while a round goes on, at this target of the own clock, in microseconds.
    fn sample<D: Desk>(
        &mut self,
        peer: PeerId,
        reply: &StampReply,
        target: i64,
        port: Port,
        desk: &mut D,
    )
        requires reading { IsReading target }
        requires room { 1 ≤ D.spare desk.old }
        ensures row { (station : Station) (clock : ClockValue) (x : ℕ) → target ≡ target_of clock x
            → Performs GoingStands LeadStands (samples peer reply.now) x port
            (lead_of self.old station clock) (lead_of self.new station clock)
            (D.acts desk.old) (D.acts desk.new) }
        ensures room { UsesAtMost 1 D.spare D.acts desk.old desk.new }
        ensures peers { peers_of self.new.slaves ≡ peers_of self.old.slaves }
    {
        match self.rounds.reply(peer, reply, target) {
            Reply::NotStarted => {}
            Reply::Sample(sample) => desk.put(
                port,
                Act::Sample {
                    peer,
                    counter: sample.counter,
                    diff: sample.diff,
                    err: sample.err,
                    ticket: sample.ticket,
                },
            ),
        }
    }
}
