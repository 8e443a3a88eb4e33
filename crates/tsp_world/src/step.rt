//! One node's step.
ghost use Rattle.std.specs.Prelude.{◌≤◌, ◌+◌, ◌^◌, List, length};
ghost use Rattle.tsp_rules.specs.GateRows.{GotOn, NodeTurn, answers_all};
ghost use Rattle.tsp_rules.specs.NodePerforms.{PerformsAll};
ghost use Rattle.tsp_rules.specs.NodeRows.{PortSetup};
ghost use Rattle.tsp_run.specs.Networks.{room};
ghost use Rattle.tsp_world.specs.NodesReady.{PlaceReady, CanAct, CanTake};
ghost use Rattle.tsp_networks.specs.Sheets.{acts_on};
ghost use Rattle.tsp_world.specs.WorldStands.{UpBegun, UpStands};

use tsp_base::datagram::Taken;
use tsp_base::place::{Place, Port};
use tsp_gateway::Gateway;
use tsp_networks::sheet::Sheet;

/// A node looks at its timers, if it is up.
pub(crate) fn turn(place: &mut Option<Gateway>, tick: u64, desk: &mut Sheet)
    requires tick { tick ≤ 2 ^ 61 }
    requires able { CanAct desk.old.spare tick place.old }
    ensures row { PerformsAll UpBegun UpStands (answers_all NodeTurn) tick place.old place.new
        (acts_on desk.old) (acts_on desk.new) }
    ensures ready { (ports : List PortSetup) → PlaceReady ports tick place.old
        → PlaceReady ports tick place.new }
    ensures few { (ports : List PortSetup) → PlaceReady ports tick place.old
        → length (acts_on desk.new) ≤ length (acts_on desk.old) + room ports }
{
    if let Some(node) = place {
        node.turn(tick, desk);
    }
}

/// A node takes on a port what was read of octets, if it is up.
#[inline(always)]
pub(crate) fn take(
    place: &mut Option<Gateway>,
    tick: u64,
    port: Port,
    from: Place,
    taken: &Taken,
    desk: &mut Sheet,
)
    requires tick { tick ≤ 2 ^ 61 }
    requires able { CanTake desk.old.spare tick port place.old }
    ensures row { PerformsAll UpBegun UpStands (answers_all (GotOn port from taken.now)) tick
        place.old place.new (acts_on desk.old) (acts_on desk.new) }
    ensures ready { (ports : List PortSetup) → PlaceReady ports tick place.old
        → PlaceReady ports tick place.new }
    ensures few { (ports : List PortSetup) → PlaceReady ports tick place.old
        → length (acts_on desk.new) ≤ length (acts_on desk.old) + room ports }
{
    if let Some(node) = place {
        node.take(tick, port, from, taken, desk);
    }
}
