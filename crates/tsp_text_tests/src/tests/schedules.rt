//! Lines of schedules and their values, that no other form is accepted, and the longest lines.

use arrayvec::ArrayVec;
use tsp_base::act::{Act, Placed};
use tsp_base::datagram::Datagram;
use tsp_base::event::Event;
use tsp_base::place::{PeerId, Place, Port};
use tsp_base::trace::Line2;
use tsp_script::event_line::{EventItem, event_line};
use tsp_script::head_line::{HeadItem, head_line};
use tsp_script::message_reader::message_of;
use tsp_script::messages::message_text;
use tsp_script::trace::act_text;

/// What the line with this number is, and its number; None where it is no line of a schedule.
fn head(line: &[u8], place: u32) -> Option<(&'static str, u32)> {
    match head_line(line, place) {
        Ok(HeadItem::Title(version)) => Some(("title", version)),
        Ok(HeadItem::Drift(drift)) => Some(("drift", drift)),
        Ok(HeadItem::Strict) => Some(("strict", 0)),
        Ok(HeadItem::Node(_)) => Some(("node", 0)),
        Ok(HeadItem::Net(_)) => Some(("net", 0)),
        Ok(HeadItem::NotHead) => Some(("after", 0)),
        Err(_) => None,
    }
}

/// Whether a line is a node's with these values.
fn is_node(line: &[u8], name: &[u8], rate: i32, wall: i64, may: bool) -> bool {
    match head_line(line, 4) {
        Ok(HeadItem::Node(node)) => {
            node.name.octets() == name && node.rate == rate && node.wall == wall && node.may == may
        }
        _ => false,
    }
}

/// Lines of a header and their numbers, and what they are.
const HEADS: &[(&str, u32, Option<(&str, u32)>)] = &[
    ("tsp-schedule 1", 1, Some(("title", 1))),
    ("tsp-schedule 2", 1, Some(("title", 2))),
    ("tsp-schedule 3", 1, None),
    ("drift 1000", 2, Some(("drift", 1000))),
    ("drift 1001", 2, None),
    ("at 0 boot 0 5", 3, Some(("after", 0))),
    ("strict", 3, Some(("strict", 0))),
    ("strict", 4, Some(("after", 0))),
    ("strict", 2, None),
    ("node a 1001 0 m", 3, None),
    ("node a 0 0 x", 3, None),
    ("node a% 0 0 m", 3, None),
    ("node  0 0 m", 3, None),
    ("net ", 4, None),
    ("net 0 ", 4, None),
    ("net  0", 4, None),
    ("net 1 0", 4, None),
    ("net 1 1", 4, None),
    ("net 01", 4, None),
    ("net 4294967296", 4, None),
    ("net a", 4, None),
    ("net", 4, Some(("after", 0))),
    ("nets 0", 4, Some(("after", 0))),
];

/// The lines of a schedule, and lines that differ from one in one point.
#[test]
fn reads_schedules(rt: HostRuntime) {
    for (line, place, wanted) in HEADS {
        assert!(rt; head(line.as_bytes(), *place) == *wanted, "{line}");
    }
    assert!(rt;
        is_node(
            b"node b.example -100 10000 s",
            b"b.example",
            -100,
            10000,
            false
        )
    );
}

/// A network of 64 nodes.
const NODES_64: &str =
    "net 0 1 2 3 4 5 6 7 8 9 10 11 12 13 14 15 16 17 18 19 20 21 22 23 24 25 26 27 28 \
    29 30 31 32 33 34 35 36 37 38 39 40 41 42 43 44 45 46 47 48 49 50 51 52 53 54 55 \
    56 57 58 59 60 61 62 63";

/// Whether a line is a network's with these nodes.
fn is_net(line: &[u8], numbers: &[u32]) -> bool {
    match head_line(line, 4) {
        Ok(HeadItem::Net(members)) => members.numbers() == numbers,
        _ => false,
    }
}

/// Lines of networks, and their nodes.
const NETS: &[(&str, &[u32])] = &[
    ("net 0", &[0]),
    ("net 0 1 63", &[0, 1, 63]),
    ("net 7 4294967295", &[7, 4294967295]),
];

/// Whether the line of 64 nodes is a network's, and with one more node is none's.
fn has_64_nodes() -> bool {
    let mut longer = ArrayVec::<u8, 1024>::new();
    let _ = longer.try_extend_from_slice(NODES_64.as_bytes());
    let _ = longer.try_extend_from_slice(b" 64");
    head(NODES_64.as_bytes(), 3) == Some(("net", 0)) && head(longer.as_slice(), 3).is_none()
}

/// The lines of networks.
#[test]
fn reads_networks(rt: HostRuntime) {
    for (line, numbers) in NETS {
        assert!(rt; is_net(line.as_bytes(), numbers), "{line}");
    }
    assert!(rt; has_64_nodes());
}

/// The text of a head, so many times a part, and an end.
fn repeated(head: &[u8], part: &[u8], end: &[u8]) -> ArrayVec<u8, 1024> {
    let mut line = ArrayVec::new();
    let _ = line.try_extend_from_slice(head);
    for _ in 0..255 {
        let _ = line.try_extend_from_slice(part);
    }
    let _ = line.try_extend_from_slice(end);
    line
}

/// How long the line of a datagram that is posted is at most.
fn longest(datagram: Datagram) -> usize {
    let placed = Placed {
        port: Port(255),
        act: Act::Post(Place::Peer(PeerId(4294967295)), datagram),
    };
    let line = Line2 {
        event: u64::MAX,
        node: u32::MAX,
        tick: u64::MAX,
        number: u64::MAX,
        placed,
    };
    act_text(&line).len()
}

/// Whether a message's line is written as it is read, and its trace line has so many octets.
fn has_length(line: &[u8], length: usize) -> bool {
    match message_of(line) {
        Ok(datagram) => {
            message_text(&datagram).as_slice() == line && longest(datagram) == length
        }
        Err(_) => false,
    }
}

/// Names of the greatest length, in the longest lines.
#[test]
fn reads_long_names(rt: HostRuntime) {
    let line = repeated(b"setdatereq 65535 -2147483648000000 ", b"%ff", b"");
    assert!(rt; has_length(line.as_slice(), 894));
    let line = repeated(b"setdatereq 65535 -2147483648000000 ", b"%ff", b"a");
    assert!(rt; message_of(line.as_slice()).is_err());
    let line = repeated(b"node ", b"n", b" -1000 -1000000000000000 m");
    assert!(rt;
        is_node(
            line.as_slice(),
            &[b'n'; 255],
            -1000,
            -1_000_000_000_000_000,
            true
        )
    );
}

/// Whether a line gives octets to a node on a port at a time.
fn gives(line: &[u8], at: u64, node: u32, port: u8, from: Place, octets: &[u8]) -> bool {
    match event_line(line) {
        Ok(
            EventItem::Event(
                Event::Bytes {
                    at: a,
                    node: n,
                    port: p,
                    from: f,
                    octets: o,
                },
            ),
        ) => { a == at && n == node && p == Port(port) && f == from && o.octets() == octets }
        _ => false,
    }
}

/// Lines, and whether each is one of a schedule's after the header.
const EVENTS: &[(&str, bool)] = &[
    ("at 0 boot 0 5", true),
    ("at 10 turn 0", true),
    ("at 1000000000000000 take 7", true),
    ("at 1000000000000000 take 18446744073709551615", true),
    ("at 1000000000000000 bytes 4294967295 4294967295 00", true),
    ("at 5 bytes 0 - 00", true),
    ("at 1000000000000001 turn 0", false),
    ("at 1 turn 4294967296", false),
    ("at 1000000000000000 take 18446744073709551616", false),
    ("at 1000000000000000 take 018446744073709551615", false),
    ("at 01 turn 0", false),
    ("at 1 turm 0", false),
    ("at 1 bytes 0 - 0", false),
    ("at 1 bytes 0 - ", false),
    ("end ", false),
    ("at 5 bytes 3/0 - 00", false),
    ("at 5 bytes 3/ - 00", false),
    ("at 5 bytes 3/01 - 00", false),
    ("at 5 bytes 3/256 - 00", false),
    ("at 5 bytes /1 - 00", false),
    ("at 5 bytes 3/1/1 - 00", false),
    ("at 5 turn 3/1", false),
];

/// Lines that give octets to a node on a port at a time.
const GIVEN: &[(&str, u64, u32, u8, Place, &[u8])] = &[
    ("at 5 bytes 3 - 00", 5, 3, 0, Place::Stranger, &[0]),
    ("at 5 bytes 3/1 - 00", 5, 3, 1, Place::Stranger, &[0]),
    ("at 5 bytes 3/255 - 00", 5, 3, 255, Place::Stranger, &[0]),
    (
        "at 82000000 bytes 0 1 06010000Ff",
        82000000,
        0,
        0,
        Place::Peer(PeerId(1)),
        &[6, 1, 0, 0, 255],
    ),
];

/// The lines of events, and lines that differ from one in one point.
#[test]
fn reads_events(rt: HostRuntime) {
    for (line, reads) in EVENTS {
        assert!(rt; event_line(line.as_bytes()).is_ok() == *reads, "{line}");
    }
    for (line, at, node, port, from, octets) in GIVEN {
        assert!(rt;
            gives(line.as_bytes(), *at, *node, *port, *from, octets),
            "{line}"
        );
    }
    assert!(rt; matches!(event_line(b"end"), Ok(EventItem::End)));
}
