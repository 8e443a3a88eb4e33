//! TEST: a client asks a port to stand for election.
ghost use Rattle.std.specs.Prelude.{◌≡◌, ◌+◌, ◌≤◌, ◌&&◌, length};
ghost use Rattle.tsp_base.specs.Frames.{IsTick, UsesAtMost};
ghost use Rattle.tsp_base.specs.Hold.{may_stand};
ghost use Rattle.tsp_base.specs.Performs.{Performs};
ghost use Rattle.tsp_base.specs.Rows.{either_by, nothing};
ghost use Rattle.tsp_rules.specs.CommonRows.{is_idle, may_be_asked, candidature_row, tests};
ghost use Rattle.tsp_acks.specs.Changes.{IsSamePort};
ghost use Rattle.tsp_acks.specs.Stands.{StandsActing};

use tsp_acks::station::Station;
use tsp_base::desk::Desk;
use tsp_base::kind::Kind;
use tsp_base::place::{Place, Port};
use tsp_base::role::Role;
use tsp_candidate::candidature::stand;

/// Answers a TEST by an ACK, and then stands for election where it may. In the quiet time it does nothing. The
/// datagram was taken before in the step. It puts at most four acts, and one more for each peer.
pub fn take_test<D: Desk>(
    station: &mut Station,
    tick: u64,
    from: Place,
    number: u16,
    port: Port,
    desk: &mut D,
)
    requires tick { IsTick tick }
    requires room { length station.old.peers + 4 ≤ D.spare desk.old }
    ensures row { Performs StandsActing StandsActing (tests from number) tick port station.old
        station.new (D.acts desk.old) (D.acts desk.new) }
    ensures room { UsesAtMost (length station.old.peers + 4) D.spare D.acts desk.old desk.new }
    ensures port { IsSamePort station.old station.new }
{
    match station.role {
        Role::Starting => {}
        _ => {
            station.post_back(from, Kind::Ack, number, port, desk);
            begin_if_asked(station, tick, port, desk);
        }
    }
}

/// Stands for election where the port is Loose or follows, may be master, and the hold allows it.
fn begin_if_asked<D: Desk>(station: &mut Station, tick: u64, port: Port, desk: &mut D)
    requires tick { IsTick tick }
    requires room { length station.old.peers + 3 ≤ D.spare desk.old }
    ensures row { Performs StandsActing StandsActing (either_by may_be_asked candidature_row
        nothing) tick port station.old station.new (D.acts desk.old) (D.acts desk.new) }
    ensures room { UsesAtMost (length station.old.peers + 3) D.spare D.acts desk.old desk.new }
    ensures port { IsSamePort station.old station.new }
{
    if may_be_asked(station, tick) {
        stand(station, tick, port, desk);
    }
}

/// Whether the port is Loose or follows, may be master, and the hold allows it to stand for election now.
fn may_be_asked(station: &Station, tick: u64) -> bool
    ensures { result ≡ (is_idle station.now.role && (station.now.me.may && may_stand
        station.now.hold tick station.now.me.own)) }
{
    matches!(station.role, Role::Loose | Role::Follow(_))
        && (station.me.may && station.hold.may_stand(tick, station.me.own))
}
