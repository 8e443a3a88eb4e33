//! What a port does at its alarms.
ghost use Rattle.std.specs.Prelude.{◌≡◌, Bool, ◌+◌, ◌*◌, ◌≤◌, true, false, length};
ghost use Rattle.tsp_base.specs.declared.alarm.Alarm.TheVariants.{Probe};
ghost use Rattle.tsp_base.specs.Alarms.{deadline};
ghost use Rattle.tsp_base.specs.Frames.{IsTick, UsesAtMost};
ghost use Rattle.tsp_base.specs.Performs.{Performs};
ghost use Rattle.tsp_rules.specs.Answers.{alarm_rings, rings};
ghost use Rattle.tsp_rules.specs.Guards.{is_over};
ghost use Rattle.tsp_master.specs.MasterAlarms.{IsInTurn};

use crate::part::Part;
use crate::ringing::{is_of_master, ring_slave, wait_round};
use crate::terms::RingTerms;
use tsp_base::alarm::Alarm;
use tsp_base::at::At;
use tsp_base::desk::Desk;
use tsp_base::place::Port;
use tsp_candidate::ring::candidate_ring;
use tsp_clock::clock::Clock;

impl Part {
    ghost use Rattle.tsp_base.specs.History.{Past};
    ghost use Rattle.tsp_rules.specs.RoundRows.{corrects};
    ghost use Rattle.tsp_node.specs.NodeStands.{PortUntaken, port_with};

    /// Handles one alarm where it is due, and says whether that corrected the clock. `group_mean` says
    /// whether a Close moves the node's clock by the group's mean; where it is false, the Close uses the mean
    /// 0 and doesn't move the clock. `wait` says whether a Round that is in time is put off for `WAIT`
    /// ticks. The row is that of a Close only if no Probe is due.
    pub fn ring<D: Desk>(
        &mut self,
        clock: &mut Clock,
        alarm: Alarm,
        group_mean: bool,
        wait: bool,
        tick: u64,
        port: Port,
        desk: &mut D,
    ) -> bool
        requires tick { IsTick tick }
        requires later { clock.old.at ≤ tick }
        requires room { 2 * length self.old.station.peers + 16 ≤ D.spare desk.old }
        ensures row { IsInTurn alarm self.old.station.alarms tick
            → Performs PortUntaken PortUntaken (rings group_mean wait alarm) tick port
            (port_with self.old clock.old) (port_with self.new clock.new) (D.acts desk.old)
            (D.acts desk.new) }
        ensures corrects { IsInTurn alarm self.old.station.alarms tick
            → (past : Past) → PortUntaken past (port_with self.old clock.old)
            → result ≡ corrects (rings group_mean wait alarm tick past) }
        ensures over { alarm ≡ Probe → is_over self.new.station.alarms.probe tick ≡ false }
        ensures clock { clock.new.at ≤ tick }
        ensures peers { self.new.station.peers ≡ self.old.station.peers }
        ensures room { UsesAtMost (2 * length self.old.station.peers + 4)
            D.spare D.acts desk.old desk.new }
    {
        if !self.station.is_due(alarm, tick) {
            return false;
        }
        let terms = RingTerms {
            at: At { tick, port },
            group_mean,
            wait,
        };
        self.ring_due(clock, alarm, terms, desk)
    }

    /// Handles an alarm that is due: its master's, or one that leaves the clock alone.
    fn ring_due<D: Desk>(
        &mut self,
        clock: &mut Clock,
        alarm: Alarm,
        terms: RingTerms,
        desk: &mut D,
    ) -> bool
        requires tick { IsTick terms.at.tick }
        requires later { clock.old.at ≤ terms.at.tick }
        requires due { is_over (deadline self.old.station.alarms alarm) terms.at.tick ≡ true }
        requires room { 2 * length self.old.station.peers + 4 ≤ D.spare desk.old }
        ensures row { IsInTurn alarm self.old.station.alarms terms.at.tick
            → Performs PortUntaken PortUntaken
            (alarm_rings terms.group_mean terms.wait alarm) terms.at.tick terms.at.port
            (port_with self.old clock.old) (port_with self.new clock.new) (D.acts desk.old)
            (D.acts desk.new) }
        ensures corrects { IsInTurn alarm self.old.station.alarms terms.at.tick
            → (past : Past) → PortUntaken past (port_with self.old clock.old)
            → result ≡ corrects (alarm_rings terms.group_mean terms.wait alarm terms.at.tick past) }
        ensures over { alarm ≡ Probe → is_over self.new.station.alarms.probe terms.at.tick ≡ false }
        ensures clock { clock.new.at ≤ terms.at.tick }
        ensures peers { self.new.station.peers ≡ self.old.station.peers }
        ensures room { UsesAtMost (2 * length self.old.station.peers + 4)
            D.spare D.acts desk.old desk.new }
    {
        let At { tick, port } = terms.at;
        if !is_of_master(alarm, terms.wait) {
            self.ring_beside(alarm, terms.wait, tick, port, desk);
            return false;
        }
        let station = &mut self.station;
        let corrected = self
            .master
            .ring(station, clock, alarm, terms.group_mean, tick, port, desk);
        if corrected {
            self.last.moved(tick);
        }
        corrected
    }

    ghost use Rattle.tsp_clock.specs.Clocks.{ClockValue};
    ghost use Rattle.tsp_node.specs.RoleAlarms.{is_of_master};

    /// Handles a due alarm that isn't its master's. It leaves the clock alone.
    fn ring_beside<D: Desk>(
        &mut self,
        alarm: Alarm,
        wait: bool,
        tick: u64,
        port: Port,
        desk: &mut D,
    )
        requires alarm { is_of_master wait alarm ≡ false }
        requires tick { IsTick tick }
        requires room { length self.old.station.peers + 4 ≤ D.spare desk.old }
        ensures row { (own : Bool) (clock : ClockValue)
            → Performs PortUntaken PortUntaken (alarm_rings own wait alarm) tick port
            (port_with self.old clock) (port_with self.new clock) (D.acts desk.old)
            (D.acts desk.new) }
        ensures peers { self.new.station.peers ≡ self.old.station.peers }
        ensures room { UsesAtMost (length self.old.station.peers + 4)
            D.spare D.acts desk.old desk.new }
    {
        match alarm {
            Alarm::Round => wait_round(&mut self.station, tick, port, desk),
            Alarm::Window => self.ring_window(tick, port, desk),
            Alarm::Resolve => self.resolve.ring(&mut self.station, tick, port, desk),
            _ => {
                let led = self.leads();
                ring_slave(&mut self.station, alarm, tick, port, desk);
                self.part_from(led);
            }
        }
    }

    ghost use Rattle.tsp_rules.specs.CandidateRows.{window_rings};

    /// Handles a due Window, after which the port has neither slaves nor rivals.
    fn ring_window<D: Desk>(&mut self, tick: u64, port: Port, desk: &mut D)
        requires tick { IsTick tick }
        requires room { length self.old.station.peers + 3 ≤ D.spare desk.old }
        ensures row { (clock : ClockValue)
            → Performs PortUntaken PortUntaken window_rings tick port (port_with self.old clock)
            (port_with self.new clock) (D.acts desk.old) (D.acts desk.new) }
        ensures peers { self.new.station.peers ≡ self.old.station.peers }
        ensures room { UsesAtMost (length self.old.station.peers + 3)
            D.spare D.acts desk.old desk.new }
    {
        candidate_ring(&mut self.station, tick, port, desk);
        self.master.clear();
        self.resolve.clear();
    }
}
