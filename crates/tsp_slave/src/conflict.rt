//! How a follower tells its master of another one.
ghost use Rattle.std.specs.Prelude.{◌≤◌};
ghost use Rattle.tsp_rules.specs.SlaveRows.{reports_conflict};
ghost use Rattle.tsp_acks.specs.Calls.{Contains, IsTick, Performs, UsesAtMost, IsSamePort, StandsActing};

use tsp_acks::station::Station;
use tsp_base::desk::Desk;
use tsp_base::kind::Kind;
use tsp_base::place::{PeerId, Port};

/// Begins a CONFLICT to the master that is followed: another master was heard. While a send to it is open,
/// nothing is done. At most one act.
pub(crate) fn report_conflict<D: Desk>(
    station: &mut Station,
    master: PeerId,
    tick: u64,
    port: Port,
    desk: &mut D,
)
    requires tick { IsTick tick }
    requires room { 1 ≤ D.spare desk.old }
    requires peer { Contains station.old.peers master }
    ensures row { Performs StandsActing StandsActing (reports_conflict master) tick port
        station.old station.new (D.acts desk.old) (D.acts desk.new) }
    ensures room { UsesAtMost 1 D.spare D.acts desk.old desk.new }
    ensures port { IsSamePort station.old station.new }
{
    match station.sends.kind(master) {
        None => station.begin(Kind::Conflict, master, tick, port, desk),
        Some(_) => {}
    }
}
