//! What a port does with the messages that set the network's date.
ghost use Rattle.std.specs.Prelude.{◌≡◌, ◌≤◌, ◌+◌, ◌*◌, true, length, Option, Some};
ghost use Rattle.tsp_base.specs.declared.datagram.Datagram.TheVariants.{Message as MessageOf};
ghost use Rattle.tsp_base.specs.declared.datagram.Taken.TheVariants.{Good};
ghost use Rattle.tsp_base.specs.declared.place.PeerId.{PeerId};
ghost use Rattle.tsp_base.specs.declared.role.Role.TheVariants.{Follow};
ghost use Rattle.tsp_rules.specs.Answers.{handles_kind};
ghost use Rattle.tsp_rules.specs.RoundRows.{corrects};
ghost use Rattle.tsp_acks.specs.Calls.{Contains, IsTick, Past, Received, Performs, UsesAtMost, IsSamePort};
ghost use Rattle.tsp_measure.specs.Slaves.{peers_of as slave_peers_of};
ghost use Rattle.tsp_slave.specs.Lasts.{LastValue};
ghost use Rattle.tsp_date.specs.Dates.{peers_of};
ghost use Rattle.tsp_date.specs.DateStands.{DateStands, date_state, is_of_dates, moved_where};

use crate::dates::Dates;
use crate::pass::{hear_end, pass_on};
use crate::set::{announce, correct, may_date};
use crate::task::{Task, task_of, time_of};
use tsp_acks::station::Station;
use tsp_base::at::At;
use tsp_base::desk::Desk;
use tsp_base::kind::Kind;
use tsp_base::message::Message;
use tsp_base::place::{Place, Port};
use tsp_clock::clock::Clock;
use tsp_master::master::Master;

/// Handles a DATE, SETDATE, DATEREQ, SETDATEREQ or DATEACK, and tells whether the clock was set.
///
/// `tick` is the step's tick: the node's own count of microseconds, from 0 to 2^61. `corrected` is the tick at
/// which the node's clock was last corrected since its boot, by whatever cause; None where it wasn't. `charge`
/// is whether this port is in charge of its node's date: it steers the node's clock or leads it. A node's only
/// port always is. In this step the message was taken, and not as from the port itself.
///
/// A date that can't be set or passed on now changes nothing, and its sender gets no answer. After a true the
/// caller has to note this tick as that of the last correction, and to end the rounds that go on. Puts at most
/// two acts for each peer, and two more. Takes no memory, and can't fail.
pub fn date_take<D: Desk>(
    station: &mut Station,
    master: &mut Master,
    dates: &mut Dates,
    clock: &mut Clock,
    corrected: Option<u64>,
    tick: u64,
    from: Place,
    m: &Message,
    charge: bool,
    port: Port,
    desk: &mut D,
) -> bool
    requires tick { IsTick tick }
    requires later { clock.old.at ≤ tick }
    requires room { 2 * length station.old.peers + 2 ≤ D.spare desk.old }
    requires same { slave_peers_of master.old.slaves ≡ station.old.peers }
    requires dates { peers_of dates.old.dated ≡ station.old.peers }
    requires followed { (q : PeerId) → station.old.role ≡ Follow q → Contains station.old.peers q }
    requires kind { is_of_dates m.now.kind ≡ true }
    ensures row { (last : LastValue) (took : Option Received) → last.tick ≡ corrected
        → took ≡ Some (record { from = from; taken = Good (MessageOf m.now) })
        → Performs DateStands DateStands (handles_kind charge from m.now m.now.kind) tick port
        (date_state dates.old master.old station.old last clock.old took)
        (date_state dates.new master.new station.new (moved_where result tick last) clock.new took)
        (D.acts desk.old) (D.acts desk.new) }
    ensures corrects { (past : Past) (last : LastValue) (took : Option Received)
        → last.tick ≡ corrected
        → DateStands past (date_state dates.old master.old station.old last clock.old took)
        → result ≡ corrects (handles_kind charge from m.now m.now.kind tick past) }
    ensures room { UsesAtMost (2 * length station.old.peers + 2) D.spare D.acts desk.old desk.new }
    ensures port { IsSamePort station.old station.new }
    ensures role { station.new.role ≡ station.old.role }
    ensures slaves { slave_peers_of master.new.slaves ≡ slave_peers_of master.old.slaves }
    ensures peers { peers_of dates.new.dated ≡ peers_of dates.old.dated }
    ensures clock { clock.new.at ≤ tick }
{
    let at = At { tick, port };
    if let Kind::DateAck = m.kind() {
        hear_end(station, from, m, port, desk);
        return false;
    }
    match task_of(station, dates, tick, from, m, charge) {
        Task::Nothing => false,
        Task::PassOn(followed) => {
            pass_on(station, dates, at, from, m, followed, desk);
            false
        }
        Task::AnswerAgain(p) => {
            station.post(p, Kind::DateAck, m.number(), port, desk);
            false
        }
        Task::Set => {
            if !may_date(master, corrected, time_of(m), tick) {
                return false;
            }
            correct(dates, clock, at, from, m, desk);
            announce(station, master, from, m.number(), port, desk);
            true
        }
    }
}
