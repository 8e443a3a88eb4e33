//! What a node does with LOOPs, and the edges of that.
use std::test::Fail;
use tsp_base::kind::Kind;
use tsp_base::message::{Body, Message};
use tsp_base::name::Name;
use tsp_base::place::Port;
use tsp_loop::{LoopStep, judge};

/// What a node `g` does with a LOOP on a port, as a letter, and the hops with which it is passed on.
fn judged(ports: u8, port: u8, number: u16, hops: u8, name: &[u8]) -> (char, u8) {
    let (Ok(own), Ok(name)) = (Name::of(b"g".as_slice()), Name::of(name)) else {
        return ('?', 0);
    };
    let Some(m) = Message::of(Kind::Loop, number, Body::Hops(hops), name) else {
        return ('?', 0);
    };
    if m.kind() != Kind::Loop {
        return ('?', 0);
    }
    match judge(&own, ports, Port(port), &m) {
        LoopStep::PassOver => ('p', 0),
        LoopStep::GiveUp => ('g', 0),
        LoopStep::Forward(next) => match next.body() {
            Body::Hops(left) => ('f', left),
            _ => ('?', 0),
        },
    }
}

#[test]
fn judges_loops(rt: HostRuntime) -> Result<(), Fail> {
    let rows = [
        (2, 1, 0, 10, b"g".as_slice(), ('g', 0)),
        (2, 0, 0, 10, b"g".as_slice(), ('p', 0)),
        (2, 1, 0, 11, b"h".as_slice(), ('p', 0)),
        (2, 0, 0, 10, b"h".as_slice(), ('f', 9)),
        (2, 0, 0, 1, b"h".as_slice(), ('f', 0)),
        (2, 0, 0, 0, b"h".as_slice(), ('p', 0)),
        (1, 0, 0, 10, b"h".as_slice(), ('p', 0)),
    ];
    for (ports, port, number, hops, name, step) in &rows {
        assert!(rt; judged(*ports, *port, *number, *hops, *name) == *step);
    }
    Ok(())
}
