//! How a master sets the network's date.
ghost use Rattle.std.specs.Prelude.{◌≡◌, ◌≤◌, ◌+◌, ◌*◌, ℕ, true, length, Option, Some};
ghost use Rattle.tsp_base.specs.declared.datagram.Datagram.TheVariants.{Message as MessageOf};
ghost use Rattle.tsp_base.specs.declared.datagram.Taken.TheVariants.{Good};
ghost use Rattle.tsp_base.specs.declared.kind.Kind.TheVariants.{DateAck, MasterUp};
ghost use Rattle.tsp_base.specs.declared.place.PeerId.{PeerId};
ghost use Rattle.tsp_base.specs.declared.place.Place.TheVariants.{Peer};
ghost use Rattle.tsp_base.specs.History.{plain};
ghost use Rattle.tsp_base.specs.NodeFacts.{correct_tick};
ghost use Rattle.tsp_base.specs.Peers.{is_among};
ghost use Rattle.tsp_base.specs.PortFacts.{said_by};
ghost use Rattle.tsp_base.specs.Rows.{◌followed_by◌, posts_back, posts_to_others};
ghost use Rattle.tsp_base.specs.SendFacts.{dating_of, is_date_request, sets_date};
ghost use Rattle.tsp_base.specs.Takings.{time_in};
ghost use Rattle.tsp_rules.specs.ClockRows.{sets};
ghost use Rattle.tsp_rules.specs.DateRows.{leaves_all, may_date};
ghost use Rattle.tsp_rules.specs.Guards.{is_clock_value};
ghost use Rattle.tsp_acks.specs.Calls.{IsTick, Past, Performs, UsesAtMost};
ghost use Rattle.tsp_measure.specs.Slaves.{peers_of as slave_peers_of};
ghost use Rattle.tsp_master.specs.MasterStands.{MasterStands};
ghost use Rattle.tsp_date.specs.Dates.{last_in, peers_of};
ghost use Rattle.tsp_date.specs.DateStands.{DateState, DateStands, moved_where};

use crate::dates::{Dates, is_past};
use crate::task::{is_date_request, time_of};
use tsp_acks::station::Station;
use tsp_base::act::Act;
use tsp_base::at::At;
use tsp_base::constants::GAP;
use tsp_base::desk::Desk;
use tsp_base::kind::Kind;
use tsp_base::message::Message;
use tsp_base::micros::Micros;
use tsp_base::place::{Place, Port};
use tsp_clock::clock::{Clock, is_clock_value};
use tsp_master::master::Master;

/// Whether a master may set this date now. The node's clock wasn't corrected for `GAP` ticks, one second; the
/// date lies strictly between -`LIMIT` and `LIMIT`; and no correction is still on its way to a slave.
pub(crate) fn may_date(master: &Master, corrected: Option<u64>, time: Micros, tick: u64) -> bool
    ensures test { (past : Past) → MasterStands past master.now
        → correct_tick (plain past.seen) ≡ corrected → may_date time tick past ≡ result }
    ensures range { result ≡ true → is_clock_value time ≡ true }
{
    is_past(corrected, GAP, tick) && (is_clock_value(time.get()) && master.settled(tick))
}

/// Steps the clock to the date in a message, and notes the date where a peer passed it on.
pub(crate) fn correct<D: Desk>(
    dates: &mut Dates,
    clock: &mut Clock,
    at: At,
    from: Place,
    m: &Message,
    desk: &mut D,
)
    requires tick { IsTick at.tick }
    requires later { clock.old.at ≤ at.tick }
    requires kind { sets_date m.now.kind ≡ true }
    requires range { is_clock_value (time_in m.now.body) ≡ true }
    requires room { 1 ≤ D.spare desk.old }
    requires asker { (p : PeerId) → from ≡ Peer p → is_date_request m.now.kind ≡ true
        → is_among p (peers_of dates.old.dated) ≡ true }
    ensures row { (s : DateState)
        → s.took ≡ Some (record { from = from; taken = Good (MessageOf m.now) })
        → Performs DateStands DateStands (sets (time_in m.now.body)) at.tick at.port
        (record s { dates = dates.old; clock = clock.old })
        (record s {
          dates = dates.new;
          last = moved_where true at.tick s.last;
          clock = clock.new;
        })
        (D.acts desk.old) (D.acts desk.new) }
    ensures room { UsesAtMost 1 D.spare D.acts desk.old desk.new }
    ensures peers { peers_of dates.new.dated ≡ peers_of dates.old.dated }
    ensures clock { clock.new.at ≤ at.tick }
{
    clock.correct_to(at.tick, time_of(m).get(), at.port, desk);
    note(dates, at.tick, from, m);
}

/// Notes a date that was set, where a peer passed it on.
fn note(dates: &mut Dates, tick: u64, from: Place, m: &Message)
    requires asker { (p : PeerId) → from ≡ Peer p → is_date_request m.now.kind ≡ true
        → is_among p (peers_of dates.old.dated) ≡ true }
    ensures last { (q : PeerId)
        → last_in dates.new.dated q ≡ dating_of q tick (said_by from (Some m.now))
        (last_in dates.old.dated q) }
    ensures peers { peers_of dates.new.dated ≡ peers_of dates.old.dated }
    ensures asked { dates.new.asked ≡ dates.old.asked }
{
    match from {
        Place::Peer(p) => {
            if is_date_request(m.kind()) {
                dates.set(p, tick, m.number());
            }
        }
        Place::Stranger => {}
    }
}

/// Tells of a date that was set. Its sender gets a DATEACK, each slave leaves the master's table, and every other
/// peer gets a MASTERUP: so each reports again, and is sent the new time.
pub(crate) fn announce<D: Desk>(
    station: &Station,
    master: &mut Master,
    from: Place,
    number: u16,
    port: Port,
    desk: &mut D,
)
    requires room { 2 * length station.now.peers + 1 ≤ D.spare desk.old }
    requires same { slave_peers_of master.old.slaves ≡ station.now.peers }
    ensures row { (x : ℕ) (s : DateState) → Performs DateStands DateStands
        (posts_back from DateAck number followed_by (leaves_all followed_by posts_to_others
        MasterUp 0)) x port
        (record s { master = master.old; station = station.now })
        (record s { master = master.new; station = station.now })
        (D.acts desk.old) (D.acts desk.new) }
    ensures room { UsesAtMost (2 * length station.now.peers + 1) D.spare D.acts desk.old desk.new }
    ensures slaves { slave_peers_of master.new.slaves ≡ slave_peers_of master.old.slaves }
{
    station.post_back(from, Kind::DateAck, number, port, desk);
    dismiss(station, master, port, desk);
    station.post_to_others(Kind::MasterUp, 0, port, desk);
}

/// Each slave leaves the master's table, ascending.
fn dismiss<D: Desk>(station: &Station, master: &mut Master, port: Port, desk: &mut D)
    requires room { length station.now.peers ≤ D.spare desk.old }
    requires same { slave_peers_of master.old.slaves ≡ station.now.peers }
    ensures row { (x : ℕ) → Performs MasterStands MasterStands leaves_all x port master.old
        master.new (D.acts desk.old) (D.acts desk.new) }
    ensures room { UsesAtMost (length station.now.peers) D.spare D.acts desk.old desk.new }
    ensures slaves { slave_peers_of master.new.slaves ≡ slave_peers_of master.old.slaves }
{
    for p in station.peers() {
        if master.leave(*p) {
            desk.put(port, Act::Leave(*p));
        }
    }
}
