//! Which of a node's ports steers its clock as a follower, and which leads it as a master.
ghost use Rattle.std.specs.Prelude.{◌≡◌, ◌≤◌, ◌<◌, ℕ, length};
ghost use Rattle.tsp_rules.specs.GateRows.{in_charge, leads_clock, steers};
ghost use Rattle.tsp_rules.specs.NodeRows.{NodePast};
ghost use Rattle.tsp_rules.specs.Guards.{is_follow, is_master};
ghost use Rattle.tsp_gateway.specs.GatewayStands.{GatewayStands, port_at};
ghost use Rattle.tsp_gateway.specs.PortFacts.{any_lower, any_other, asked_on};
ghost use Rattle.tsp_gateway.specs.Rooms.{ports_in};

use crate::gateway::Gateway;
use tsp_base::alarm::Alarm;
use tsp_base::role::Role;

/// A question about a port.
#[derive(Clone, Copy)]
pub(crate) enum Asked {
    /// Whether it follows a master.
    Follows,
    /// Whether it is a master.
    Leads,
    /// Whether it has a round going.
    Goes,
}

/// Whether a port of this role follows a master.
fn follows(role: Role) -> bool
    ensures { result ≡ is_follow role }
{
    matches!(role, Role::Follow(_))
}

/// Whether a port of this role is a master.
fn leads(role: Role) -> bool
    ensures { result ≡ is_master role }
{
    matches!(role, Role::Master)
}

impl Gateway {
    /// The answer for one port.
    pub(crate) fn is(&self, q: usize, asked: Asked) -> bool
        requires { q < length (ports_in self.now) }
        ensures { (past : NodePast) → GatewayStands past self.now
            → result ≡ asked_on asked past (port_at q) }
    {
        let station = self.ports[q].station();
        match asked {
            Asked::Follows => follows(station.role),
            Asked::Leads => leads(station.role),
            Asked::Goes => station.alarms.at(Alarm::Close).is_some(),
        }
    }

    /// Whether the answer is yes for any port below this one.
    pub(crate) fn any_lower(&self, q: usize, asked: Asked) -> bool
        requires { q ≤ length (ports_in self.now) }
        ensures { (past : NodePast) → GatewayStands past self.now
            → result ≡ any_lower asked (port_at q) past }
    {
        for r in 0..q {
            if self.is(r, asked) {
                return true;
            }
        }
        false
    }

    /// Whether the answer is yes for any other port.
    pub(crate) fn any_other(&self, q: usize, asked: Asked) -> bool
        requires { q < length (ports_in self.now) }
        ensures { (past : NodePast) → GatewayStands past self.now
            → result ≡ any_other asked (port_at q) past }
    {
        for r in 0..self.ports.len() {
            if r != q && self.is(r, asked) {
                return true;
            }
        }
        false
    }

    /// Whether a port steers the clock: it is the lowest that follows a master. Only its master corrects it.
    pub(crate) fn steers(&self, q: usize) -> bool
        requires { q < length (ports_in self.now) }
        ensures { (x : ℕ) (past : NodePast) → GatewayStands past self.now
            → result ≡ steers (port_at q) x past }
    {
        self.is(q, Asked::Follows) && !self.any_lower(q, Asked::Follows)
    }

    /// Whether a Close of a port moves the clock: no port follows a master, and no lower one is master.
    pub(crate) fn leads_clock(&self, q: usize) -> bool
        requires { q < length (ports_in self.now) }
        ensures { (x : ℕ) (past : NodePast) → GatewayStands past self.now
            → result ≡ leads_clock (port_at q) x past }
    {
        !self.any_lower(self.ports.len(), Asked::Follows) && !self.any_lower(q, Asked::Leads)
    }

    /// Whether a port is in charge of the date: it steers the clock or leads it.
    pub(crate) fn in_charge(&self, q: usize) -> bool
        requires { q < length (ports_in self.now) }
        ensures { (x : ℕ) (past : NodePast) → GatewayStands past self.now
            → result ≡ in_charge (port_at q) x past }
    {
        self.steers(q) || self.leads_clock(q)
    }
}
