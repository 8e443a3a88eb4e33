//! MSITE and MSITEREQ: which master a port knows of, and whether it is one.
ghost use Rattle.std.specs.Prelude.{◌≡◌, ℕ, ◌≤◌};
ghost use Rattle.tsp_base.specs.Frames.{UsesAtMost, Uses};
ghost use Rattle.tsp_base.specs.Performs.{Performs};
ghost use Rattle.tsp_rules.specs.CommonRows.{master_name_in, names_master, says_master};
ghost use Rattle.tsp_acks.specs.Stands.{StationStands};
ghost use Rattle.tsp_clients.specs.ClientStands.{NamingStands};

use tsp_acks::station::Station;
use tsp_base::act::Act;
use tsp_base::datagram::Datagram;
use tsp_base::desk::Desk;
use tsp_base::kind::Kind;
use tsp_base::message::{Body, Message};
use tsp_base::name::Name;
use tsp_base::place::{Place, Port};
use tsp_base::role::Role;
use tsp_slave::last::Last;

/// Answers an MSITE by an ACK that has the name of the master that the port knows of, where others have the
/// node's own name. It puts one act.
pub fn name_master<D: Desk>(
    station: &Station,
    last: &Last,
    from: Place,
    number: u16,
    port: Port,
    desk: &mut D,
)
    requires room { 1 ≤ D.spare desk.old }
    ensures row { (x : ℕ) → Performs NamingStands NamingStands (names_master from number) x port
        (record { station = station.now; last = last.now })
        (record { station = station.now; last = last.now }) (D.acts desk.old) (D.acts desk.new) }
    ensures room { Uses 1 D.spare D.acts desk.old desk.new }
{
    let name = known_master(station, last);
    let message = Message::new(Kind::Ack, number, Body::Nothing, name);
    desk.put(port, Act::Post(from, Datagram::Message(message)));
}

/// The name of the master that the port knows of: its own where it is master, that of the followed one where
/// it follows, else the empty name.
fn known_master(station: &Station, last: &Last) -> Name
    ensures { result ≡ master_name_in station.now.role station.now.me.name last.now.name }
{
    match station.role {
        Role::Master => station.me.name.copy(),
        Role::Follow(_) => last.name().copy(),
        _ => Name::empty(),
    }
}

/// Answers an MSITEREQ by an ACK where the port is master; else it does nothing. It puts at most one act.
pub fn say_master<D: Desk>(station: &Station, from: Place, number: u16, port: Port, desk: &mut D)
    requires room { 1 ≤ D.spare desk.old }
    ensures row { (x : ℕ) → Performs StationStands StationStands (says_master from number) x port station.now
        station.now (D.acts desk.old) (D.acts desk.new) }
    ensures room { UsesAtMost 1 D.spare D.acts desk.old desk.new }
{
    match station.role {
        Role::Master => station.post_back(from, Kind::Ack, number, port, desk),
        _ => {}
    }
}
