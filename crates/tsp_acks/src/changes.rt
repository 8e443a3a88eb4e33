//! The acts that change a station: each call puts the act and makes the change.
ghost use Rattle.std.specs.Prelude.{◌≡◌, ℕ, ◌+◌, ◌≤◌, ◌<◌, ◌^◌, min, true, Some, None};
ghost use Rattle.tsp_base.specs.declared.act.Act.TheVariants.{Become, Ring, Late, Back, Backer, Quit, Abandon};
ghost use Rattle.tsp_base.specs.declared.alarm.Alarm.TheVariants.{Probe, Close, Elect};
ghost use Rattle.tsp_base.specs.declared.place.PeerId.{PeerId};
ghost use Rattle.tsp_base.specs.Alarms.{with_deadline, none_armed};
ghost use Rattle.tsp_acks.specs.Calls.{IsTick, Performs, Uses};
ghost use Rattle.tsp_base.specs.Rows.{puts, arms};
ghost use Rattle.tsp_rules.specs.CommonRows.{arms_elect};
ghost use Rattle.tsp_rules.specs.Guards.{delay};
ghost use Rattle.tsp_sends.specs.Slots.{sending_to};
ghost use Rattle.tsp_acks.specs.Peers.{follows_among};

use crate::station::Station;
use tsp_base::act::Act;
use tsp_base::alarm::Alarm;
use tsp_base::constants::{ELECT_MIN, ELECT_SPREAD};
use tsp_base::desk::Desk;
use tsp_base::place::{PeerId, Port};
use tsp_base::role::Role;

#[tactic(auto, unfolding(tsp_base::specs::Rows::puts, tsp_base::specs::Rows::arms))]
impl Station {
    ghost use Rattle.tsp_acks.specs.Stands.{StationStands};

    /// Arms an alarm for so many ticks from now.
    pub fn arm<D: Desk>(&mut self, alarm: Alarm, tick: u64, long: u64, port: Port, desk: &mut D)
        requires room { 1 ≤ D.spare desk.old }
        requires end { tick + long < 2 ^ 64 }
        ensures row { Performs StationStands StationStands (arms alarm long) tick port self.old self.new
            (D.acts desk.old) (D.acts desk.new) }
        ensures station { self.new ≡ record self.old {
          alarms = with_deadline self.old.alarms alarm
              (Some (tick + long));
        } }
        ensures room { Uses 1 D.spare D.acts desk.old desk.new }
    {
        let at = tick + long;
        desk.put(port, Act::Arm(alarm, at));
        self.alarms.arm(alarm, at);
    }

    /// An alarm is handled in time, and thereby turned off.
    pub fn ring<D: Desk>(&mut self, alarm: Alarm, port: Port, desk: &mut D)
        requires room { 1 ≤ D.spare desk.old }
        ensures row { (x : ℕ) → Performs StationStands StationStands (puts (Ring alarm)) x port self.old self.new
            (D.acts desk.old) (D.acts desk.new) }
        ensures station { self.new ≡ record self.old {
          alarms = with_deadline self.old.alarms alarm
              None;
        } }
        ensures room { Uses 1 D.spare D.acts desk.old desk.new }
    {
        desk.put(port, Act::Ring(alarm));
        self.alarms.off(alarm);
    }

    /// An alarm is handled too late, and thereby turned off.
    pub fn late<D: Desk>(&mut self, alarm: Alarm, port: Port, desk: &mut D)
        requires room { 1 ≤ D.spare desk.old }
        ensures row { (x : ℕ) → Performs StationStands StationStands (puts (Late alarm)) x port self.old self.new
            (D.acts desk.old) (D.acts desk.new) }
        ensures station { self.new ≡ record self.old {
          alarms = with_deadline self.old.alarms alarm
              None;
        } }
        ensures room { Uses 1 D.spare D.acts desk.old desk.new }
    {
        desk.put(port, Act::Late(alarm));
        self.alarms.off(alarm);
    }

    /// Gives up a round: there will be no more probes, and no Close.
    pub fn abandon<D: Desk>(&mut self, port: Port, desk: &mut D)
        requires room { 1 ≤ D.spare desk.old }
        ensures row { (x : ℕ) → Performs StationStands StationStands (puts Abandon) x port self.old self.new
            (D.acts desk.old) (D.acts desk.new) }
        ensures station { self.new ≡ record self.old
            { alarms = with_deadline (with_deadline self.old.alarms Probe None) Close None } }
        ensures room { Uses 1 D.spare D.acts desk.old desk.new }
    {
        desk.put(port, Act::Abandon);
        self.alarms.off(Alarm::Probe);
        self.alarms.off(Alarm::Close);
    }

    /// Changes the role, which turns all alarms off and ends all open sends. A master to follow must be one of
    /// the peers.
    pub fn become_role<D: Desk>(&mut self, role: Role, port: Port, desk: &mut D)
        requires room { 1 ≤ D.spare desk.old }
        requires peer { follows_among role self.old.peers ≡ true }
        ensures row { (x : ℕ) → Performs StationStands StationStands (puts (Become role)) x port self.old self.new
            (D.acts desk.old) (D.acts desk.new) }
        ensures me { self.new.me ≡ self.old.me }
        ensures hold { self.new.hold ≡ self.old.hold }
        ensures begun { self.new.begun ≡ self.old.begun }
        ensures peers { self.new.peers ≡ self.old.peers }
        ensures backers { self.new.backers ≡ 0 }
        ensures role { self.new.role ≡ role }
        ensures alarms { self.new.alarms ≡ none_armed }
        ensures sends { (p : PeerId) → sending_to self.new.sends p ≡ None }
        ensures room { Uses 1 D.spare D.acts desk.old desk.new }
    {
        desk.put(port, Act::Become(role));
        self.role = role;
        self.backers = 0;
        self.sends.clear();
        self.alarms.clear();
    }

    /// Backs a candidate.
    pub fn back<D: Desk>(&mut self, p: PeerId, tick: u64, port: Port, desk: &mut D)
        requires room { 1 ≤ D.spare desk.old }
        ensures row { Performs StationStands StationStands (puts (Back p)) tick port self.old self.new
            (D.acts desk.old) (D.acts desk.new) }
        ensures station { self.new ≡ record self.old { hold = record self.old.hold { back = Some (tick, p) } } }
        ensures room { Uses 1 D.spare D.acts desk.old desk.new }
    {
        desk.put(port, Act::Back(p));
        self.hold.back(tick, p);
    }

    /// Counts a peer among those that back this candidature.
    pub fn count_backer<D: Desk>(&mut self, p: PeerId, port: Port, desk: &mut D)
        requires room { 1 ≤ D.spare desk.old }
        ensures row { (x : ℕ) → Performs StationStands StationStands (puts (Backer p)) x port self.old self.new
            (D.acts desk.old) (D.acts desk.new) }
        ensures station { self.new ≡ record self.old {
          backers = min (self.old.backers + 1)
              4294967295;
        } }
        ensures room { Uses 1 D.spare D.acts desk.old desk.new }
    {
        desk.put(port, Act::Backer(p));
        self.backers = self.backers.saturating_add(1);
    }

    /// Notes that a peer asked this port to stop leading.
    pub fn quit<D: Desk>(&mut self, p: PeerId, tick: u64, port: Port, desk: &mut D)
        requires room { 1 ≤ D.spare desk.old }
        ensures row { Performs StationStands StationStands (puts (Quit p)) tick port self.old self.new
            (D.acts desk.old) (D.acts desk.new) }
        ensures station { self.new ≡ record self.old { hold = record self.old.hold { quit = Some tick } } }
        ensures room { Uses 1 D.spare D.acts desk.old desk.new }
    {
        desk.put(port, Act::Quit(p));
        self.hold.quit(tick);
    }

    /// The election delay in ticks: how long this node hears no master before it looks for one or stands for
    /// election.
    pub fn delay(&self) -> u64
        ensures { result ≡ delay self.now.me.word }
    {
        ELECT_MIN + self.me.word % ELECT_SPREAD
    }

    /// Arms the Elect alarm for one election delay from now.
    pub fn arm_elect<D: Desk>(&mut self, tick: u64, port: Port, desk: &mut D)
        requires room { 1 ≤ D.spare desk.old }
        requires tick { IsTick tick }
        ensures row { Performs StationStands StationStands arms_elect tick port self.old self.new
            (D.acts desk.old) (D.acts desk.new) }
        ensures station { self.new ≡ record self.old {
          alarms = with_deadline self.old.alarms Elect
              (Some (tick + delay self.old.me.word));
        } }
        ensures room { Uses 1 D.spare D.acts desk.old desk.new }
    {
        let delay = self.delay();
        self.arm(Alarm::Elect, tick, delay, port, desk);
    }
}
