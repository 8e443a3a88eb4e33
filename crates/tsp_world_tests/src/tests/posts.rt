//! Posts are read again as they were stored, whatever their names.

use tsp_base::datagram::{Datagram, Taken};
use tsp_base::kind::Kind;
use tsp_base::message::{Body, Message};
use tsp_base::name::Name;
use tsp_base::place::{PeerId, Place, Port};
use tsp_base::stamp::Stamp;
use tsp_networks::parcel::Parcel;
use tsp_networks::posts::Posts;
use tsp_networks::way::Way;

/// A name of the greatest length.
const LONG: [u8; 255] = [b'x'; 255];

/// A LOOP numbered 7, with 3 hops and this name.
fn loop_named(name: &[u8]) -> Option<Datagram> {
    let message = Message::of(Kind::Loop, 7, Body::Hops(3), Name::of(name).ok()?)?;
    Some(Datagram::Message(message))
}

/// Node 1 posts on its port 2, for peer 3.
fn way(at: u64) -> Way {
    Way {
        at,
        from: 1,
        port: Port(2),
        to: Place::Peer(PeerId(3)),
    }
}

/// Puts a datagram behind the others; false where there is no room.
fn push(posts: &mut Posts, at: u64, datagram: &Datagram) -> bool {
    match posts.reserve(1) {
        Ok(()) => {
            posts.push(way(at), datagram);
            true
        }
        Err(_) => false,
    }
}

/// Puts a LOOP with this name behind the others; false where there is no room.
fn push_loop(posts: &mut Posts, at: u64, name: &[u8]) -> bool {
    match loop_named(name) {
        Some(datagram) => push(posts, at, &datagram),
        None => false,
    }
}

/// Whether this is the message with this name.
fn is_loop(taken: &Taken, name: &[u8]) -> bool {
    match taken {
        Taken::Good(Datagram::Message(message)) => {
            matches!(message.body(), Body::Hops(3))
                && message.kind() == Kind::Loop
                && message.number() == 7
                && message.name().octets() == name
        }
        _ => false,
    }
}

/// Puts the post with this number into a parcel; false where there is none.
fn pack(posts: &Posts, k: u64, parcel: &mut Parcel) -> bool {
    if k as usize >= posts.len() {
        return false;
    }
    posts.pack(k, parcel);
    true
}

/// Whether the post with this number is the message with this name.
fn has_loop(posts: &Posts, k: u64, name: &[u8], parcel: &mut Parcel) -> bool {
    pack(posts, k, parcel) && is_loop(parcel.taken(), name)
}

/// A request for a clock's stamp.
const REQUEST: Stamp = Stamp::Request {
    word: 8,
    counter: 9,
};

/// Whether the post with this number is that request.
fn has_request(posts: &Posts, k: u64, parcel: &mut Parcel) -> bool {
    pack(posts, k, parcel)
        && match parcel.taken() {
            Taken::Good(Datagram::Stamp(stamp)) => *stamp == REQUEST,
            _ => false,
        }
}

/// Whether messages without a name, with a short one and with a long one, and then a stamp are posted.
fn come(posts: &mut Posts) -> bool {
    push_loop(posts, 10, b"")
        && push_loop(posts, 20, b"alpha")
        && push_loop(posts, 30, &LONG)
        && push(posts, 40, &Datagram::Stamp(REQUEST))
}

/// Whether these four come back, one after the other in a parcel that is used again.
fn come_back(posts: &Posts, parcel: &mut Parcel) -> bool {
    posts.len() == 4
        && has_loop(posts, 2, &LONG, parcel)
        && has_loop(posts, 0, b"", parcel)
        && has_request(posts, 3, parcel)
        && has_loop(posts, 1, b"alpha", parcel)
}

#[test]
fn posts_come_back(rt: HostRuntime) {
    let mut posts = Posts::new(rt.alloc());
    assert!(rt; come(&mut posts) && come_back(&posts, &mut Parcel::new()));
}
