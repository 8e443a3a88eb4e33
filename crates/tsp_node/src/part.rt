//! The state of a port.
ghost use Rattle.std.specs.Prelude.{◌≡◌, ◌≤◌, ◌&&◌, not, length, ℕ, ℤ, Bool, true, Some, None, [], ◌∷◌, IfOk};
ghost use Rattle.tsp_base.specs.declared.act.Act.TheVariants.{Boot, Become};
ghost use Rattle.tsp_base.specs.declared.alarm.Alarm.TheVariants.{Quiet};
ghost use Rattle.tsp_base.specs.declared.constants.TheConstants.{QUIET};
ghost use Rattle.tsp_base.specs.declared.role.Role.TheVariants.{Starting};
ghost use Rattle.tsp_base.specs.Frames.{IsTick, UsesAtMost, Uses};
ghost use Rattle.tsp_base.specs.History.{Past, Booted, Step};
ghost use Rattle.tsp_base.specs.Performs.{Performs};
ghost use Rattle.tsp_base.specs.Rows.{grown, puts, arms, ◌followed_by◌};
ghost use Rattle.tsp_rules.specs.Guards.{is_master};
ghost use Rattle.tsp_base.specs.Peers.{IsPeers};
ghost use Rattle.tsp_acks.specs.Stands.{IsPortOf};
ghost use Rattle.tsp_measure.specs.Slaves.{peers_of};
ghost use Rattle.tsp_date.specs.Dates.{peers_of as dated_of};

use std::alloc::{AllocError, Global};
use tsp_acks::me::Me;
use tsp_acks::station::Station;
use tsp_base::act::Act;
use tsp_base::alarm::Alarm;
use tsp_base::constants::QUIET;
use tsp_base::desk::Desk;
use tsp_base::place::{PeerId, Port};
use tsp_base::role::Role;
use tsp_date::dates::Dates;
use tsp_master::master::Master;
use tsp_resolve::resolve::Resolve;
use tsp_slave::last::Last;

/// The state of a port: what all roles share, what it remembers of corrections and of dates, and what a
/// master has: its slaves and its rivals.
pub struct Part {
    /// What all roles share: who the node is here, its role, its peers, its alarms and its open sends.
    pub(crate) station: Station,
    /// When the node's clock was last corrected, and by which message of a master, if by one.
    pub(crate) last: Last,
    /// What a master has: its slaves, its last correction of each, and its last round.
    pub(crate) master: Master,
    /// The rivals that a master has found.
    pub(crate) resolve: Resolve,
    /// The last date that came from each peer, and when the port last began to pass one on.
    pub(crate) dates: Dates,
    ghost same: { peers_of master.slaves ≡ station.peers },
    ghost marks: { length resolve.marks ≡ length station.peers },
    ghost dated: { dated_of dates.dated ≡ station.peers },
}

// Not derived, so that whoever drops a port relies on this, and doesn't take its parts apart once more.
impl Drop for Part {
    fn drop(self) {
        let Part {
            station: _,
            last: _,
            master: _,
            resolve: _,
            dates: _,
        } = self;
    }
}

impl Part {
    ghost use Rattle.tsp_rules.specs.GateRows.{loosens_master};
    ghost use Rattle.tsp_rules.specs.RoundRows.{abandons_going};
    ghost use Rattle.tsp_clock.specs.Clocks.{ClockValue};
    ghost use Rattle.tsp_clock.specs.ClockStands.{ClockStands};
    ghost use Rattle.tsp_master.specs.Clearing.{Clears};
    ghost use Rattle.tsp_node.specs.NodeStands.{PortStands, corrected_elsewhere, port_with};
    ghost use Rattle.tsp_node.specs.Unmarking.{Unmarks};

    /// A port of a node that boots at this tick. Fails only if out of memory.
    pub fn new(alloc: Global, me: Me, peers: &[PeerId], tick: u64) -> Result<Part, AllocError>
        requires { IsPeers peers.now }
        ensures peers { IfOk result (λ part. part.station.peers ≡ peers.now) }
        ensures stands { IfOk result (λ part. (past : Past) (wall : ℤ) (clock : ClockValue)
            → IsPortOf me peers.now past → past.step.cause ≡ Booted me.word wall
            → ClockStands (grown tick past (Boot ∷ [])) clock
            → PortStands (grown tick past (Boot ∷ [])) (port_with part clock)) }
    {
        let Ok(resolve) = Resolve::new(alloc, peers) else {
            return Err(AllocError);
        };
        let Ok(dates) = Dates::new(alloc, peers) else {
            return Err(AllocError);
        };
        let Ok(master) = Master::new(alloc, peers) else {
            return Err(AllocError);
        };
        let Ok(station) = Station::new(alloc, me, peers, tick) else {
            return Err(AllocError);
        };
        Ok(Part {
            station,
            last: Last::new(),
            master,
            resolve,
            dates,
        })
    }

    /// Begins the port's life right after the node's Boot, at its tick: the port is Starting until the quiet
    /// time ends. It puts two acts.
    pub fn begin<D: Desk>(&mut self, tick: u64, port: Port, desk: &mut D)
        requires room { 2 ≤ D.spare desk.old }
        requires tick { IsTick tick }
        ensures row { (clock : ClockValue)
            → Performs PortStands PortStands (puts (Become Starting) followed_by arms Quiet QUIET)
            tick port (port_with self.old clock) (port_with self.new clock) (D.acts desk.old)
            (D.acts desk.new) }
        ensures peers { self.new.station.peers ≡ self.old.station.peers }
        ensures room { Uses 2 D.spare D.acts desk.old desk.new }
    {
        self.station.become_role(Role::Starting, port, desk);
        self.station.arm(Alarm::Quiet, tick, QUIET, port, desk);
        self.master.clear();
        self.resolve.clear();
    }

    /// Notes that another port of the node has corrected its clock at this tick.
    pub fn moved(&mut self, tick: u64)
        ensures stands { (past : Past) (step : Step) (amount shown : ℤ) (stepped : Bool)
            (before after : ClockValue) → PortStands past (port_with self.old before)
            → ClockStands (corrected_elsewhere step tick amount stepped shown past) after
            → PortStands (corrected_elsewhere step tick amount stepped shown past)
            (port_with self.new after) }
        ensures station { self.new.station ≡ self.old.station }
        ensures last { self.new.last ≡ record {
          tick = Some tick;
          taken = None;
          name = self.old.last.name;
        } }
        ensures master { self.new.master ≡ self.old.master }
        ensures resolve { self.new.resolve ≡ self.old.resolve }
        ensures dates { self.new.dates ≡ self.old.dates }
    {
        self.last.moved(tick);
    }

    /// Gives up the round that is going, if there is one. It puts at most one act.
    pub fn abandon<D: Desk>(&mut self, port: Port, desk: &mut D)
        requires room { 1 ≤ D.spare desk.old }
        ensures row { (x : ℕ) (clock : ClockValue)
            → Performs PortStands PortStands abandons_going x port (port_with self.old clock)
            (port_with self.new clock) (D.acts desk.old) (D.acts desk.new) }
        ensures peers { self.new.station.peers ≡ self.old.station.peers }
        ensures room { UsesAtMost 1 D.spare D.acts desk.old desk.new }
    {
        if self.master.abandon(&mut self.station) {
            desk.put(port, Act::Abandon);
        }
    }

    /// Stops leading, if the port is master: it follows nobody, and waits for a master again. It puts at most
    /// two acts.
    pub fn loosen<D: Desk>(&mut self, tick: u64, port: Port, desk: &mut D)
        requires room { 2 ≤ D.spare desk.old }
        requires tick { IsTick tick }
        ensures row { (clock : ClockValue) → Performs PortStands PortStands loosens_master tick port
            (port_with self.old clock) (port_with self.new clock) (D.acts desk.old)
            (D.acts desk.new) }
        ensures peers { self.new.station.peers ≡ self.old.station.peers }
        ensures room { UsesAtMost 2 D.spare D.acts desk.old desk.new }
    {
        if self.leads() {
            self.station.become_role(Role::Loose, port, desk);
            self.station.arm_elect(tick, port, desk);
            self.part_from(true);
        }
    }

    /// Whether it is master.
    pub(crate) fn leads(&self) -> bool
        ensures { result ≡ is_master self.now.station.role }
    {
        matches!(self.station.role, Role::Master)
    }

    /// Forgets its slaves and rivals where it was master before (`led`) and isn't any more.
    pub(crate) fn part_from(&mut self, led: bool)
        ensures slaves { Clears (led && not (is_master self.old.station.role)) self.old.master
            self.new.master }
        ensures rivals { Unmarks (led && not (is_master self.old.station.role)) self.old.resolve
            self.new.resolve }
        ensures station { self.new.station ≡ self.old.station }
        ensures last { self.new.last ≡ self.old.last }
        ensures dates { self.new.dates ≡ self.old.dates }
    {
        if led && !self.leads() {
            self.master.clear();
            self.resolve.clear();
        }
    }

    /// What all roles share.
    pub fn station(&self) -> &Station
        ensures { result.now ≡ self.now.station }
    {
        &self.station
    }
}
