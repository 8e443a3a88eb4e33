//! What a node is on its networks.
ghost use Rattle.std.specs.Prelude.{◌≡◌, None};
ghost use Rattle.tsp_rules.specs.NodeRows.{NodePast};
ghost use Rattle.tsp_gateway.specs.GatewayStands.{GatewayStands};
ghost use Rattle.tsp_gateway.specs.Standings.{followed, leads_any, master_of};
ghost use Rattle.tsp_gateway.specs.Standings.{standing, standing_by};

use crate::gateway::Gateway;
use crate::leading::Asked;
use tsp_base::place::PeerId;
use tsp_base::role::Role;

/// Who sets a node's clock.
#[derive(Clone, Copy, PartialEq, Eq, Debug)]
pub enum Standing {
    /// Nobody: no port follows a master, and none is one.
    Nobody,
    /// This master, which the lowest port that follows one follows.
    Follows(PeerId),
    /// The node itself: no port follows a master, and one is a master.
    Leads,
}

/// The master of this role, if it follows one.
fn master_of(role: Role) -> Option<PeerId>
    ensures { result ≡ master_of role }
{
    match role {
        Role::Follow(p) => Some(p),
        _ => None,
    }
}

impl Gateway {
    /// Who sets its clock: the master of the lowest port that follows one; where none does, the node
    /// itself if a port of it is a master.
    pub fn standing(&self) -> Standing
        ensures { (past : NodePast) → GatewayStands past self.now → result ≡ standing past }
    {
        match self.followed() {
            Some(p) => Standing::Follows(p),
            None => self.alone(),
        }
    }

    /// Who sets its clock where no port follows a master.
    fn alone(&self) -> Standing
        ensures { (past : NodePast) → GatewayStands past self.now
            → result ≡ standing_by None (leads_any past) }
    {
        if self.any_lower(self.ports.len(), Asked::Leads) {
            Standing::Leads
        } else {
            Standing::Nobody
        }
    }

    /// The master of the lowest port that follows one; None if none does.
    fn followed(&self) -> Option<PeerId>
        ensures { (past : NodePast) → GatewayStands past self.now → result ≡ followed past }
    {
        for q in 0..self.ports.len() {
            match master_of(self.ports[q].station().role) {
                Some(p) => return Some(p),
                None => {}
            }
        }
        None
    }
}
