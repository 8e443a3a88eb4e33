//! The values, through their public calls: well within and at the edges of their ranges.
ghost use Rattle.std.specs.Prelude.{◌≡◌, [], IfSome};

use std::alloc::Global;
use tsp_base::constants::{ELECT_MIN, HOLD, LIMIT};
use tsp_base::drift::{tick_at, width};
use tsp_base::header::{Header, HeaderFault, NodeLine};
use tsp_base::hold::Hold;
use tsp_base::kind::Kind;
use tsp_base::members::Members;
use tsp_base::message::{Body, Message};
use tsp_base::micros::Micros;
use tsp_base::name::{Name, NameFault};
use tsp_base::octets::Octets;
use tsp_base::place::PeerId;
use tsp_base::stamp::Stamp;

/// Times in microseconds, and whether they are in range.
const TIMES: &[(i64, bool)] = &[
    (-LIMIT - 1, false),
    (-LIMIT, true),
    (0, true),
    (LIMIT - 1, true),
    (LIMIT, false),
];

/// Tickets and readings, and whether a reply can have them.
const REPLIES: &[(u16, i64, bool)] = &[
    (32_767, LIMIT - 1, true),
    (32_768, 0, false),
    (0, LIMIT, false),
    (0, -LIMIT, false),
    (0, 1 - LIMIT, true),
];

#[test]
fn bounds_values(rt: HostRuntime) {
    for (value, fits) in TIMES {
        assert!(rt; Micros::of(*value).is_some() == *fits);
    }
    for (ticket, reading, fits) in REPLIES {
        assert!(rt; Stamp::reply(*ticket, 1, 2, *reading).is_some() == *fits);
    }
    assert!(rt; Octets::of(&[7; 300]).is_some() && Octets::of(&[7; 301]).is_none());
}

/// Octets that are names, and why other ones aren't.
const NAMES: &[(&[u8], Option<NameFault>)] = &[
    (b"", None),
    (b"alpha", None),
    (&[b'a'; 255], None),
    (&[b'a'; 256], Some(NameFault::TooLong)),
    (&[0; 256], Some(NameFault::TooLong)),
    (&[0; 255], Some(NameFault::HasNul)),
    (b"a\0b", Some(NameFault::HasNul)),
];

/// Whether octets are a name, of which a copy has them, or aren't for this fault.
fn is_name(octets: &[u8], fault: Option<NameFault>) -> bool {
    match Name::of(octets) {
        Ok(name) => fault.is_none() && name.copy().octets() == octets,
        Err(found) => fault == Some(found),
    }
}

#[test]
fn bounds_names(rt: HostRuntime) {
    for (octets, fault) in NAMES {
        assert!(rt; is_name(octets, *fault));
    }
    assert!(rt; Name::empty().octets().is_empty());
}

/// Whether a message of this kind can have this body.
fn can_have(kind: Kind, body: Body) -> bool {
    Message::of(kind, 7, body, Name::empty()).is_some()
}

/// Whether this is the kind of a number and of a word.
fn is_kind(number: u8, word: &[u8], kind: Kind) -> bool {
    Kind::of(number) == Some(kind)
        && kind.number() == number
        && Kind::of_word(word) == Some(kind)
        && kind.word() == word
}

/// Kinds and bodies, and whether a message can have them.
const BODIES: [(Kind, Body, bool); 4] = [
    (Kind::Loop, Body::Hops(3), true),
    (Kind::Ack, Body::Hops(0), false),
    (Kind::Ack, Body::Nothing, true),
    (Kind::AdjTime, Body::Nothing, false),
];

/// Numbers, words, and their kinds.
const KINDS: &[(u8, &[u8], Kind)] = &[
    (1, b"adjtime", Kind::AdjTime),
    (13, b"quit", Kind::Quit),
    (24, b"loop", Kind::Loop),
];

#[test]
fn matches_bodies_to_kinds(rt: HostRuntime) {
    let Some(time) = Micros::of(1234) else {
        panic!(rt; "the time is in range");
    };
    let time = Body::Time(time);
    assert!(rt; can_have(Kind::AdjTime, time) && !can_have(Kind::Loop, time));
    for (kind, body, fits) in BODIES {
        assert!(rt; can_have(kind, body) == fits);
    }
    for (number, word, kind) in KINDS {
        assert!(rt; is_kind(*number, word, *kind));
    }
    let none = Kind::of(0).is_none() && Kind::of(25).is_none();
    assert!(rt; none && Kind::of_word(b"quits").is_none());
}

/// Whether a peer may be backed from this tick on, and not one tick sooner.
fn may_back_from(hold: &Hold, tick: u64, peer: PeerId) -> bool {
    !hold.may_back(tick.saturating_sub(1), peer) && hold.may_back(tick, peer)
}

/// Whether the node may stand from this tick on, and not one tick sooner.
fn may_stand_from(hold: &Hold, tick: u64, own: PeerId) -> bool {
    !hold.may_stand(tick.saturating_sub(1), own) && hold.may_stand(tick, own)
}

#[test]
fn holds_and_stands(rt: HostRuntime) {
    let (own, other) = (PeerId(0), PeerId(1));
    let mut hold = Hold::new(5);
    assert!(rt; hold.may_back(5, other) && may_stand_from(&hold, 5 + ELECT_MIN, own));
    hold.back(10, other);
    assert!(rt; hold.may_back(11, other) && may_back_from(&hold, 10 + HOLD, own));
    hold.quit(100);
    assert!(rt; may_stand_from(&hold, 100 + ELECT_MIN, own));
}

/// Pushes a node without a name.
fn push(header: &mut Header, rate: i32, wall: i64) -> Result<(), HeaderFault>
    requires { header.old.nets ≡ [] }
    ensures { header.new.nets ≡ [] }
{
    let name = Name::empty();
    header.push(NodeLine {
        name,
        rate,
        wall,
        may: true,
    })
}

/// Whether a header with the drift 100 refuses nodes for their rate and then for their wall, and takes one.
fn refuses(header: &mut Header) -> bool
    requires { header.old.nets ≡ [] }
{
    push(header, 101, 0) == Err(HeaderFault::Rate)
        && push(header, 101, 1_000_000_000_000_001) == Err(HeaderFault::Rate)
        && push(header, -100, -1_000_000_000_000_001) == Err(HeaderFault::Wall)
        && push(header, -100, -1_000_000_000_000_000) == Ok(())
        && header.drift() == 100
        && header.nodes().len() == 1
}

#[test]
fn refuses_nodes(rt: HostRuntime) {
    let mut header = Header::new(rt.alloc(), 100, false);
    assert!(rt; refuses(&mut header));
}

/// A header of this many nodes.
fn header_of(alloc: Global, nodes: usize) -> Option<Header>
    ensures { IfSome result (λ header. header.nets ≡ []) }
{
    let mut header = Header::new(alloc, 0, true);
    for _ in 0..nodes {
        push(&mut header, 0, 0).ok()?;
    }
    Some(header)
}

/// Networks of three nodes, what comes of adding each, and whether the header is whole then.
const NETS: &[(&[u32], Result<(), HeaderFault>, bool)] = &[
    (&[], Err(HeaderFault::Net), true),
    (&[1, 0], Err(HeaderFault::Net), true),
    (&[1, 1], Err(HeaderFault::Net), true),
    (&[0, 3], Err(HeaderFault::Net), true),
    (&[0, 1], Ok(()), false),
    (&[1], Ok(()), false),
    (&[1], Ok(()), false),
    (&[0, 1, 2], Ok(()), true),
    (&[0, 1], Err(HeaderFault::Net), true),
    (&[0], Ok(()), true),
    (&[0, 2], Ok(()), true),
    (&[0], Err(HeaderFault::Net), true),
];

/// Whether the networks come of `NETS`.
fn takes_nets(header: &mut Header) -> bool {
    for (nodes, answer, whole) in NETS {
        if header.net(nodes) != *answer || header.whole() != *whole {
            return false;
        }
    }
    match header.nets() {
        [first, .., last] => first.numbers() == [0, 1].as_slice()
            && last.numbers() == [0, 2].as_slice(),
        _ => false,
    }
}

#[test]
fn refuses_networks(rt: HostRuntime) {
    let Some(mut header) = header_of(rt.alloc(), 3) else {
        panic!(rt; "three nodes are pushed");
    };
    let none = header.strict() && header.whole() && header.nets().is_empty();
    assert!(rt; none && takes_nets(&mut header));
}

/// Whether 64 networks of a node are taken, and no other one.
fn takes_64(header: &mut Header) -> bool {
    for node in 0..64 {
        if header.net(&[node]).is_err() || header.whole() != (node == 63) {
            return false;
        }
    }
    header.net(&[0]) == Err(HeaderFault::Nets)
        && header.net(&[]) == Err(HeaderFault::Nets)
        && header.nets().len() == 64
}

#[test]
fn bounds_networks(rt: HostRuntime) {
    let Some(mut header) = header_of(rt.alloc(), 64) else {
        panic!(rt; "64 nodes are pushed");
    };
    assert!(rt; takes_64(&mut header));
    assert!(rt; Members::of(&[7; 64]).is_some() && Members::of(&[7; 65]).is_none());
}

#[test]
fn counts_ticks(rt: HostRuntime) {
    assert!(rt; tick_at(0, 10) == 10 && tick_at(100, 10_000) == 10_001);
    assert!(rt; tick_at(-100, 10_000) == 9_999 && tick_at(-1, 1) == 0);
    assert!(rt; width(100, 10_000_000) == 1001 && width(0, 10_000_000) == 1);
}
