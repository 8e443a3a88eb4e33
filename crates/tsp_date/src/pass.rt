//! How a follower passes a date on to its master, and learns that it was set.
ghost use Rattle.std.specs.Prelude.{◌≡◌, ◌≤◌, ℕ, true, Some};
ghost use Rattle.tsp_base.specs.SendFacts.{sets_date};
ghost use Rattle.tsp_base.specs.Takings.{time_in};
ghost use Rattle.tsp_rules.specs.Answers.{from_peer};
ghost use Rattle.tsp_rules.specs.DateRows.{date_acked, may_pass_on, passes_on};
ghost use Rattle.tsp_acks.specs.Calls.{Contains, IsTick, Past, Received, Performs, UsesAtMost, IsSamePort, StationStands};
ghost use Rattle.tsp_date.specs.Dates.{peers_of};
ghost use Rattle.tsp_date.specs.DateStands.{DatesStand, DateState, DateStands};

use crate::dates::Dates;
use crate::task::time_of;
use tsp_acks::station::Station;
use tsp_base::at::At;
use tsp_base::desk::Desk;
use tsp_base::kind::Kind;
use tsp_base::message::Message;
use tsp_base::place::{PeerId, Place, Port};
use tsp_base::role::Role;

/// Acknowledges a client's date, and begins to pass it on to the master that is followed. Does nothing where the
/// port began to pass one on less than `REUSE` ticks ago, or a numbered send to the master is still open. In
/// this step a datagram must have been taken.
pub(crate) fn pass_on<D: Desk>(
    station: &mut Station,
    dates: &mut Dates,
    at: At,
    from: Place,
    m: &Message,
    master: PeerId,
    desk: &mut D,
)
    requires tick { IsTick at.tick }
    requires room { 2 ≤ D.spare desk.old }
    requires kind { sets_date m.now.kind ≡ true }
    requires peer { Contains station.old.peers master }
    ensures row { (s : DateState) (r : Received) → s.took ≡ Some r
        → Performs DateStands DateStands
        (passes_on from master m.now.number (time_in m.now.body)) at.tick at.port
        (record s { dates = dates.old; station = station.old })
        (record s { dates = dates.new; station = station.new })
        (D.acts desk.old) (D.acts desk.new) }
    ensures room { UsesAtMost 2 D.spare D.acts desk.old desk.new }
    ensures port { IsSamePort station.old station.new }
    ensures role { station.new.role ≡ station.old.role }
    ensures peers { peers_of dates.new.dated ≡ peers_of dates.old.dated }
{
    if may_pass_on(station, dates, master, at.tick) {
        station.post_back(from, Kind::Ack, m.number(), at.port, desk);
        station.begin_timed(Kind::SetDateReq, master, time_of(m), at.tick, at.port, desk);
        dates.ask(at.tick);
    }
}

/// Whether the port may pass a date on: it began no other for `REUSE` ticks, and no numbered send to its master
/// is open.
fn may_pass_on(station: &Station, dates: &Dates, master: PeerId, tick: u64) -> bool
    ensures { (past : Past) → StationStands past station.now → DatesStand past dates.now
        → may_pass_on master tick past ≡ result }
{
    dates.is_rested(tick) && station.sends.kind(master).is_none()
}

/// Handles a DATEACK. It counts only if it comes from a peer, and once the quiet time after the boot is over.
pub(crate) fn hear_end<D: Desk>(
    station: &mut Station,
    from: Place,
    m: &Message,
    port: Port,
    desk: &mut D,
)
    requires room { 1 ≤ D.spare desk.old }
    ensures row { (x : ℕ) (s : DateState)
        → Performs DateStands DateStands (from_peer from (date_acked m.now)) x port
        (record s { station = station.old }) (record s { station = station.new })
        (D.acts desk.old) (D.acts desk.new) }
    ensures room { UsesAtMost 1 D.spare D.acts desk.old desk.new }
    ensures port { IsSamePort station.old station.new }
    ensures role { station.new.role ≡ station.old.role }
{
    match from {
        Place::Peer(p) => {
            if station.hears(p) {
                end(station, p, m, port, desk);
            }
        }
        Place::Stranger => {}
    }
}

/// Ends the open SETDATEREQ to this peer, where it has the message's number and the port is a follower.
fn end<D: Desk>(station: &mut Station, from: PeerId, m: &Message, port: Port, desk: &mut D)
    requires room { 1 ≤ D.spare desk.old }
    ensures row { (x : ℕ) (s : DateState)
        → Performs DateStands DateStands (date_acked m.now from) x port
        (record s { station = station.old }) (record s { station = station.new })
        (D.acts desk.old) (D.acts desk.new) }
    ensures room { UsesAtMost 1 D.spare D.acts desk.old desk.new }
    ensures port { IsSamePort station.old station.new }
    ensures role { station.new.role ≡ station.old.role }
{
    match station.role {
        Role::Follow(_) => {
            let _ = station.dated(from, m.number(), port, desk);
        }
        _ => {}
    }
}
