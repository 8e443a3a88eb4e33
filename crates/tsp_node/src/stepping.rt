//! The steps of a node that has booted.
ghost use Rattle.std.specs.Prelude.{◌≡◌, ◌+◌, ◌*◌, ◌≤◌, true, false, length};
ghost use Rattle.tsp_base.specs.declared.alarm.Alarm.TheVariants.{Probe};
ghost use Rattle.tsp_base.specs.declared.alarm.TheConstants.Alarm.{ALL};
ghost use Rattle.tsp_base.specs.Frames.{IsTick, UsesAtMost};
ghost use Rattle.tsp_base.specs.Performs.{Performs};
ghost use Rattle.tsp_rules.specs.Answers.{Turn, Got, answers, due_alarms, rings_alone, takes};
ghost use Rattle.tsp_rules.specs.Guards.{is_over};
ghost use Rattle.tsp_rules.specs.Rooms.{room_for};
ghost use Rattle.tsp_rules.specs.RoundRows.{upsetting};
ghost use Rattle.tsp_master.specs.MasterAlarms.{IsInTurn};
ghost use Rattle.tsp_node.specs.Inputs.{given};

use crate::node::{Node, PORT};
use tsp_base::alarm::Alarm;
use tsp_base::datagram::Taken;
use tsp_base::desk::Desk;
use tsp_base::input::Input;
use tsp_base::place::Place;
use tsp_codec::read;
use tsp_rules::room::room_for;

impl Node {
    ghost use Rattle.tsp_node.specs.NodeStands.{NodeStands, NodeUntaken, Begun, peers_in, clock_at};

    /// How many acts a step may put: the desk must have room for so many.
    pub fn room(&self) -> usize
        ensures { result ≡ room_for (length (peers_in self.now)) }
    {
        room_for(self.part.station().peers().len())
    }

    /// A step: due sends and alarms are handled, and then the input's octets are read and taken. The tick must
    /// not be before that of an earlier step.
    pub fn step<D: Desk>(&mut self, tick: u64, input: &Input, desk: &mut D)
        requires room { room_for (length (peers_in self.old)) ≤ D.spare desk.old }
        requires tick { IsTick tick }
        requires later { clock_at self.old ≤ tick }
        ensures row { Performs Begun NodeStands (answers (given input.now)) tick (record { 0 = 0 })
            self.old self.new (D.acts desk.old) (D.acts desk.new) }
        ensures peers { peers_in self.new ≡ peers_in self.old }
        ensures clock { clock_at self.new ≤ tick }
        ensures room { UsesAtMost (room_for (length (peers_in self.old)))
            D.spare D.acts desk.old desk.new }
    {
        match input {
            Input::Turn => self.turn(tick, desk),
            Input::Bytes { from, octets, .. } => self.take(tick, *from, &read(octets), desk),
        }
    }

    /// A step without octets: due sends and alarms are handled.
    pub fn turn<D: Desk>(&mut self, tick: u64, desk: &mut D)
        requires room { room_for (length (peers_in self.old)) ≤ D.spare desk.old }
        requires tick { IsTick tick }
        requires later { clock_at self.old ≤ tick }
        ensures row { Performs Begun NodeStands (answers Turn) tick (record { 0 = 0 }) self.old
            self.new (D.acts desk.old) (D.acts desk.new) }
        ensures peers { peers_in self.new ≡ peers_in self.old }
        ensures clock { clock_at self.new ≤ tick }
        ensures room { UsesAtMost (room_for (length (peers_in self.old)))
            D.spare D.acts desk.old desk.new }
    {
        self.part.sends(tick, PORT, desk);
        self.ring_alarms(tick, desk);
    }

    /// A step that also takes what was read of octets from `from`.
    pub fn take<D: Desk>(&mut self, tick: u64, from: Place, taken: &Taken, desk: &mut D)
        requires room { room_for (length (peers_in self.old)) ≤ D.spare desk.old }
        requires tick { IsTick tick }
        requires later { clock_at self.old ≤ tick }
        ensures row { Performs Begun NodeStands (answers (Got from taken.now)) tick
            (record { 0 = 0 }) self.old self.new (D.acts desk.old) (D.acts desk.new) }
        ensures peers { peers_in self.new ≡ peers_in self.old }
        ensures clock { clock_at self.new ≤ tick }
        ensures room { UsesAtMost (room_for (length (peers_in self.old)))
            D.spare D.acts desk.old desk.new }
    {
        self.part.sends(tick, PORT, desk);
        self.ring_alarms(tick, desk);
        self.take_in(tick, from, taken, desk);
    }

    /// Takes what was read of octets from `from`; where that corrects the clock, the round that is going is
    /// given up.
    fn take_in<D: Desk>(&mut self, tick: u64, from: Place, taken: &Taken, desk: &mut D)
        requires tick { IsTick tick }
        requires later { clock_at self.old ≤ tick }
        requires room { 2 * length (peers_in self.old) + 17 ≤ D.spare desk.old }
        ensures row { Performs NodeUntaken NodeStands (upsetting (takes true true from taken.now))
            tick (record { 0 = 0 }) self.old self.new (D.acts desk.old) (D.acts desk.new) }
        ensures peers { peers_in self.new ≡ peers_in self.old }
        ensures clock { clock_at self.new ≤ tick }
        ensures room { UsesAtMost (2 * length (peers_in self.old) + 17)
            D.spare D.acts desk.old desk.new }
    {
        // A node's only port steers the clock, and is in charge of the date.
        let steer = true;
        let charge = true;
        let clock = &mut self.clock;
        let tracing = &mut self.tracing;
        let corrected = self.part.take(
            clock, tracing, steer, charge, tick, from, taken, PORT, desk,
        );
        if corrected {
            self.part.abandon(PORT, desk);
        }
    }

    /// Handles the due alarms, in the order of `Alarm`.
    fn ring_alarms<D: Desk>(&mut self, tick: u64, desk: &mut D)
        requires tick { IsTick tick }
        requires later { clock_at self.old ≤ tick }
        requires room { length ALL * (2 * length (peers_in self.old) + 4) + 16 ≤ D.spare desk.old }
        ensures row { Performs NodeUntaken NodeUntaken due_alarms tick (record { 0 = 0 }) self.old
            self.new (D.acts desk.old) (D.acts desk.new) }
        ensures peers { peers_in self.new ≡ peers_in self.old }
        ensures clock { clock_at self.new ≤ tick }
        ensures room { UsesAtMost (length ALL * (2 * length (peers_in self.old) + 4))
            D.spare D.acts desk.old desk.new }
    {
        for alarm in &Alarm::ALL {
            self.ring(*alarm, tick, desk);
        }
    }

    /// Handles one alarm where it is due. The caller handles a due Probe before the Close.
    fn ring<D: Desk>(&mut self, alarm: Alarm, tick: u64, desk: &mut D)
        requires tick { IsTick tick }
        requires later { clock_at self.old ≤ tick }
        requires turn { IsInTurn alarm self.old.part.station.alarms tick }
        requires room { 2 * length (peers_in self.old) + 16 ≤ D.spare desk.old }
        ensures row { Performs NodeUntaken NodeUntaken (rings_alone alarm) tick (record { 0 = 0 })
            self.old self.new (D.acts desk.old) (D.acts desk.new) }
        ensures over { alarm ≡ Probe → is_over self.new.part.station.alarms.probe tick ≡ false }
        ensures peers { peers_in self.new ≡ peers_in self.old }
        ensures clock { clock_at self.new ≤ tick }
        ensures room { UsesAtMost (2 * length (peers_in self.old) + 4)
            D.spare D.acts desk.old desk.new }
    {
        // A node's only port moves the clock by its group's mean, and waits for no other port's round.
        let group_mean = true;
        let wait = false;
        let clock = &mut self.clock;
        let _ = self
            .part
            .ring(clock, alarm, group_mean, wait, tick, PORT, desk);
    }
}
