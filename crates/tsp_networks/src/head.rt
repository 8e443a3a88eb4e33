//! What is stored of a post beside the octets of its name.
ghost use Rattle.std.specs.Prelude.{◌≡◌, ◌≤◌, ◌+◌, ◌++◌, ℕ, List, length, vec_len, vec_capacity};
ghost use Rattle.tsp_base.specs.declared.datagram.Datagram.{Datagram};
ghost use Rattle.tsp_base.specs.declared.datagram.Taken.TheVariants.{Good};
ghost use Rattle.tsp_networks.specs.Heads.{HeldStands, datagram_in, is_peer, own_name_in};
ghost use Rattle.tsp_networks.specs.Heads.{place_of, way_in, way_stored, way_with};

use crate::parcel::Parcel;
use crate::way::Way;
use tsp_base::datagram::Datagram;
use tsp_base::kind::Kind;
use tsp_base::message::{Body, Message};
use tsp_base::place::{PeerId, Place, Port};
use tsp_base::stamp::Stamp;

/// A datagram without the octets of its name, in as little room as it takes. The small parts lie first, and with them
/// the port on which it was posted, and whether it is for a peer.
#[derive(Clone, Copy)]
pub(crate) enum StoredDatagram {
    /// A message. Its name is the `len` octets from place `start` on of those of all names.
    Message {
        port: Port,
        to_peer: bool,
        kind: Kind,
        number: u16,
        len: u8,
        start: usize,
        body: Body,
    },
    /// A request for a clock's reading.
    Request {
        port: Port,
        to_peer: bool,
        word: u64,
        counter: u64,
    },
    /// A clock's reading.
    Reply {
        port: Port,
        to_peer: bool,
        ticket: u16,
        word: u64,
        counter: u64,
        reading: i64,
    },
}

/// A post without the octets of its name.
#[derive(Clone, Copy)]
pub(crate) struct Head {
    /// The true time of the post, in microseconds.
    pub(crate) at: u64,
    /// The node that posted it.
    pub(crate) from: u32,
    /// The number of the peer that it is for; 0 where it is for a stranger.
    pub(crate) to: u32,
    /// What it carries, with the port and whether it is for a peer.
    pub(crate) held: StoredDatagram,
}

// Most of what a long run holds are heads.
const _: () = prove!(size_of::<Head>() == 48);

/// Up to so many octets are appended one by one: most names are as short, and with a call for all of them together a
/// run to a million posts takes a twentieth longer.
const FEW: usize = 8;

/// Appends octets.
#[inline(always)]
fn append(names: &mut Vec<u8>, octets: &[u8])
    requires room { vec_len names.old + length octets.now ≤ vec_capacity names.old }
    ensures items { names.new.items ≡ names.old.items ++ octets.now }
    ensures len { vec_len names.new ≡ vec_len names.old + length octets.now }
    ensures capacity { vec_capacity names.old ≤ vec_capacity names.new }
{
    if octets.len() <= FEW {
        append_each(names, octets);
    } else {
        append_all(names, octets);
    }
}

/// Appends octets, one by one.
fn append_each(names: &mut Vec<u8>, octets: &[u8])
    requires room { vec_len names.old + length octets.now ≤ vec_capacity names.old }
    ensures items { names.new.items ≡ names.old.items ++ octets.now }
    ensures len { vec_len names.new ≡ vec_len names.old + length octets.now }
    ensures capacity { vec_capacity names.old ≤ vec_capacity names.new }
{
    for octet in octets {
        names.push_reserved(*octet);
    }
}

/// Appends octets, all together.
#[inline(never)]
fn append_all(names: &mut Vec<u8>, octets: &[u8])
    requires room { vec_len names.old + length octets.now ≤ vec_capacity names.old }
    ensures items { names.new.items ≡ names.old.items ++ octets.now }
    ensures len { vec_len names.new ≡ vec_len names.old + length octets.now }
    ensures capacity { vec_capacity names.old ≤ vec_capacity names.new }
{
    match names.extend_from_slice(octets) {
        Ok(()) => {}
        Err(_) => unreachable!(),
    }
}

/// Appends the name of a message to all names, and gives the rest of the message.
fn hold_message(names: &mut Vec<u8>, port: Port, to_peer: bool, message: &Message) -> StoredDatagram
    requires room { vec_len names.old + 255 ≤ vec_capacity names.old }
    ensures items { names.new.items ≡ names.old.items ++ message.now.name }
    ensures few { vec_len names.new ≤ vec_len names.old + 255 }
    ensures capacity { vec_capacity names.old ≤ vec_capacity names.new }
    ensures datagram { datagram_in names.new.items result ≡ Datagram.Message message.now }
    ensures way { (head : Head) → way_stored head result ≡ way_with head port to_peer }
    ensures stands { HeldStands names.new.items result }
{
    let start = names.len();
    let octets = message.name().octets();
    append(names, octets);
    StoredDatagram::Message {
        port,
        to_peer,
        kind: message.kind(),
        number: message.number(),
        len: octets.len() as u8,
        start,
        body: message.body(),
    }
}

/// A stamp as it is stored. It has no name.
fn hold_stamp(port: Port, to_peer: bool, stamp: &Stamp) -> StoredDatagram
    ensures datagram { (names : List ℕ) → datagram_in names result ≡ Datagram.Stamp stamp.now }
    ensures way { (head : Head) → way_stored head result ≡ way_with head port to_peer }
    ensures stands { (names : List ℕ) → HeldStands names result }
{
    match stamp {
        Stamp::Request { word, counter } => StoredDatagram::Request {
            port,
            to_peer,
            word: *word,
            counter: *counter,
        },
        Stamp::Reply(reply) => StoredDatagram::Reply {
            port,
            to_peer,
            ticket: reply.ticket(),
            word: reply.word(),
            counter: reply.counter(),
            reading: reply.reading(),
        },
    }
}

/// Appends the name of a datagram, if it has one, to all names, and gives the rest of the datagram with the port and
/// whether it is for a peer.
pub(crate) fn hold(names: &mut Vec<u8>, way: Way, datagram: &Datagram) -> StoredDatagram
    requires room { vec_len names.old + 255 ≤ vec_capacity names.old }
    ensures items { names.new.items ≡ names.old.items ++ own_name_in datagram.now }
    ensures few { vec_len names.new ≤ vec_len names.old + 255 }
    ensures capacity { vec_capacity names.old ≤ vec_capacity names.new }
    ensures datagram { datagram_in names.new.items result ≡ datagram.now }
    ensures way { (head : Head) → way_stored head result ≡ way_with head way.port (is_peer way.to) }
    ensures stands { HeldStands names.new.items result }
{
    let to_peer = matches!(way.to, Place::Peer(_));
    match datagram {
        Datagram::Message(message) => hold_message(names, way.port, to_peer, message),
        Datagram::Stamp(stamp) => hold_stamp(way.port, to_peer, stamp),
    }
}

/// The number of a peer; 0 for a stranger.
pub(crate) fn number_of(to: Place) -> u32
    ensures { place_of (is_peer to) result ≡ to }
{
    match to {
        Place::Peer(p) => p.0,
        Place::Stranger => 0,
    }
}

/// The place with this number, where it is that of a peer.
fn place_of(to_peer: bool, number: u32) -> Place
    ensures { result ≡ place_of to_peer number }
{
    if to_peer {
        Place::Peer(PeerId(number))
    } else {
        Place::Stranger
    }
}

/// The way of a post with these small parts.
fn way_with(head: &Head, port: Port, to_peer: bool) -> Way
    ensures { result ≡ way_with head.now port to_peer }
{
    Way {
        at: head.at,
        from: head.from,
        port,
        to: place_of(to_peer, head.to),
    }
}

/// When a stored datagram was posted, by whom and for whom.
pub(crate) fn way_of(head: &Head) -> Way
    ensures { result ≡ way_in head.now }
{
    match &head.held {
        StoredDatagram::Message { port, to_peer, .. }
        | StoredDatagram::Request { port, to_peer, .. }
        | StoredDatagram::Reply { port, to_peer, .. } => way_with(head, *port, *to_peer),
    }
}

/// Puts a stored datagram, whose name is among these octets, into a parcel.
#[inline(always)]
pub(crate) fn pack(names: &[u8], held: &StoredDatagram, parcel: &mut Parcel)
    requires { HeldStands names.now held.now }
    ensures { parcel.new ≡ Good (datagram_in names.now held.now) }
{
    match held {
        StoredDatagram::Message {
            kind,
            number,
            len,
            start,
            body,
            ..
        } => {
            let name = &names[*start..*start + *len as usize];
            parcel.put_message(*kind, *number, *body, name);
        }
        StoredDatagram::Request { word, counter, .. } => parcel.put_stamp(Stamp::Request {
            word: *word,
            counter: *counter,
        }),
        StoredDatagram::Reply {
            ticket,
            word,
            counter,
            reading,
            ..
        } => match Stamp::reply(*ticket, *word, *counter, *reading) {
            Some(stamp) => parcel.put_stamp(stamp),
            None => unreachable!(),
        },
    }
}
