//! What a port does with a message that sets a date or passes one on.
ghost use Rattle.std.specs.Prelude.{◌≡◌, ℕ, true, Bool};
ghost use Rattle.tsp_base.specs.declared.place.PeerId.{PeerId};
ghost use Rattle.tsp_base.specs.declared.place.Place.{Place};
ghost use Rattle.tsp_base.specs.declared.place.Place.TheVariants.{Peer};
ghost use Rattle.tsp_base.specs.declared.role.Role.TheVariants.{Follow};
ghost use Rattle.tsp_base.specs.Messages.{MessageValue};
ghost use Rattle.tsp_base.specs.Peers.{is_among};
ghost use Rattle.tsp_base.specs.SendFacts.{is_date_request, sets_date};
ghost use Rattle.tsp_base.specs.Takings.{time_in};
ghost use Rattle.tsp_rules.specs.Answers.{handles_kind};
ghost use Rattle.tsp_rules.specs.DateRows.{date_in, date_request_in};
ghost use Rattle.tsp_acks.specs.Calls.{Past, StationStands};
ghost use Rattle.tsp_date.specs.declared.task.Task.TheVariants.{PassOn, Set};
ghost use Rattle.tsp_date.specs.DateStands.{DatesStand};
ghost use Rattle.tsp_date.specs.Tasks.{task_row};

use crate::dates::Dates;
use tsp_acks::station::Station;
use tsp_base::kind::Kind;
use tsp_base::message::{Body, Message};
use tsp_base::micros::Micros;
use tsp_base::place::{PeerId, Place};
use tsp_base::role::Role;

/// What a port does with a message that sets a date or passes one on.
#[derive(Clone, Copy)]
pub(crate) enum Task {
    /// It does nothing.
    Nothing,
    /// It passes the date on to this peer, its master, unless it passed one on lately.
    PassOn(PeerId),
    /// It answers this peer again: it has set the same date already.
    AnswerAgain(PeerId),
    /// It sets the date, unless it can't be set now.
    Set,
}

/// What the port does with a DATE, SETDATE, DATEREQ or SETDATEREQ. A DATE or SETDATE counts from anybody, on a
/// port in charge. A DATEREQ or SETDATEREQ counts only from a peer, at a master.
pub(crate) fn task_of(
    station: &Station,
    dates: &Dates,
    tick: u64,
    from: Place,
    m: &Message,
    charge: bool,
) -> Task
    requires kind { sets_date m.now.kind ≡ true }
    ensures row { (past : Past) → StationStands past station.now → DatesStand past dates.now
        → handles_kind charge from m.now m.now.kind tick past ≡ task_row result from m.now tick
        past }
    ensures follows { (q : PeerId) → result ≡ PassOn q → station.now.role ≡ Follow q }
    ensures asker { result ≡ Set → (p : PeerId) → from ≡ Peer p
        → is_date_request m.now.kind ≡ true → is_among p station.now.peers ≡ true }
{
    if !is_date_request(m.kind()) {
        return if charge {
            client_task(station.role)
        } else {
            Task::Nothing
        };
    }
    match from {
        Place::Peer(p) => {
            if station.hears(p) {
                request_task(station.role, dates, tick, p, m, charge)
            } else {
                Task::Nothing
            }
        }
        Place::Stranger => Task::Nothing,
    }
}

/// What a port in charge does with a client's date: a follower passes it on, and a master sets it.
fn client_task(role: Role) -> Task
    ensures row { (from : Place) (m : MessageValue)
        → date_in from m.number (time_in m.body) role ≡ task_row result from m }
    ensures follows { (q : PeerId) → result ≡ PassOn q → role ≡ Follow q }
{
    match role {
        Role::Follow(q) => Task::PassOn(q),
        Role::Master => Task::Set,
        _ => Task::Nothing,
    }
}

/// What a port does with a date that a peer passes on. Only a master heeds it: the peer's last date is
/// answered again, and another one is set where the port is in charge.
fn request_task(role: Role, dates: &Dates, tick: u64, p: PeerId, m: &Message, charge: bool) -> Task
    ensures row { (past : Past) → DatesStand past dates.now
        → date_request_in charge m.now p role tick past ≡ task_row result (Peer p) m.now tick
        past }
    ensures follows { (q : PeerId) → result ≡ PassOn q → role ≡ Follow q }
{
    let Role::Master = role else {
        return Task::Nothing;
    };
    if dates.is_last(p, m.number(), tick) {
        Task::AnswerAgain(p)
    } else if charge {
        Task::Set
    } else {
        Task::Nothing
    }
}

/// Whether messages of this kind pass a date on.
pub(crate) fn is_date_request(kind: Kind) -> bool
    ensures { result ≡ is_date_request kind }
{
    matches!(kind, Kind::DateReq | Kind::SetDateReq)
}

/// The date in a message that carries one, in microseconds since 1970.
pub(crate) fn time_of(m: &Message) -> Micros
    requires { sets_date m.now.kind ≡ true }
    ensures { result ≡ time_in m.now.body }
{
    match m.body() {
        Body::Time(time) => time,
        _ => unreachable!(),
    }
}
