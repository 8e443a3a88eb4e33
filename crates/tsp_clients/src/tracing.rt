//! TRACEON and TRACEOFF: a client turns a node's trace on and off.
ghost use Rattle.std.specs.Prelude.{◌≡◌, ℕ, ◌≤◌};
ghost use Rattle.tsp_base.specs.Frames.{Uses};
ghost use Rattle.tsp_base.specs.Performs.{Performs};
ghost use Rattle.tsp_rules.specs.CommonRows.{traces};
ghost use Rattle.tsp_clients.specs.ClientStands.{TracingStands};

use tsp_acks::station::Station;
use tsp_base::act::Act;
use tsp_base::desk::Desk;
use tsp_base::kind::Kind;
use tsp_base::place::{Place, Port};

/// Answers a TRACEON or a TRACEOFF: the node's trace is on or off from this act until the next of them, or the
/// next boot. It puts two acts.
pub fn turn_trace<D: Desk>(
    station: &Station,
    tracing: &mut bool,
    on: bool,
    from: Place,
    number: u16,
    port: Port,
    desk: &mut D,
)
    requires room { 2 ≤ D.spare desk.old }
    ensures row { (x : ℕ) → Performs TracingStands TracingStands (traces from number on) x port
        (record { station = station.now; on = tracing.old })
        (record { station = station.now; on = tracing.new }) (D.acts desk.old) (D.acts desk.new) }
    ensures tracing { tracing.new ≡ on }
    ensures room { Uses 2 D.spare D.acts desk.old desk.new }
{
    desk.put(port, Act::Trace(on));
    *tracing = on;
    station.post_back(from, Kind::Ack, number, port, desk);
}
