//! Message lines and their values, that no other form is accepted, and hexadecimal.

use tsp_base::datagram::Datagram;
use tsp_base::kind::Kind;
use tsp_base::message::Body;
use tsp_base::micros::Micros;
use tsp_script::message_reader::message_of;
use tsp_script::messages::message_text;
use tsp_script::numbers::{append_hex, octets_of};
use tsp_script::text::Text;

/// Whether a line is read, and written again as it was.
fn comes_back(line: &[u8]) -> bool {
    match message_of(line) {
        Ok(datagram) => message_text(&datagram).as_slice() == line,
        Err(_) => false,
    }
}

/// Whether a line is an ADJTIME with this number, time and name.
fn is_adjtime(line: &[u8], number: u16, time: Option<Micros>, name: &[u8]) -> bool {
    match message_of(line) {
        Ok(Datagram::Message(message)) => {
            message.kind() == Kind::AdjTime
                && message.number() == number
                && Some(message.body()) == time.map(Body::Time)
                && message.name().octets() == name
        }
        _ => false,
    }
}

/// One message of each form.
const LINES: &[&str] = &[
    "adjtime 7 1234 alpha",
    "settime 9 -390001000 a%20b",
    "loop 5 9 n%c3%bc",
    "msite 3 %",
    "ack 65535 %25",
    "request 17208120794717752597 7",
    "reply 32767 1 2 -2147483647999999",
];

/// One message of each form, and a time's value.
#[test]
fn reads_messages(rt: HostRuntime) {
    for line in LINES {
        assert!(rt; comes_back(line.as_bytes()), "{line}");
    }
    assert!(rt; is_adjtime(b"adjtime 7 1234 alpha", 7, Micros::of(1234), b"alpha"));
}

/// Lines that differ from a message's line in one point.
const OTHERS: &[&str] = &[
    "",
    "ack",
    "ack 7",
    "ack 7 ",
    "ack 07 a",
    "ack +7 a",
    "ack -0 a",
    "ack 65536 a",
    "ack  7 a",
    "ack 7 a ",
    "ack 7 a b",
    "Ack 7 a",
    "ack 7 %41",
    "ack 7 %2D",
    "ack 7 %2d",
    "ack 7 %00",
    "ack 7 a%",
    "ack 7 5 a",
    "adjtime 7 a",
    "adjtime 7 01 alpha",
    "adjtime 7 2147483648000000 a",
    "loop 5 256 a",
    "request -0 1",
    "request 1",
    "reply 32768 0 0 0",
    "reply 1 0 0 -2147483648000000",
];

#[test]
fn refuses_other_spellings(rt: HostRuntime) {
    for line in OTHERS {
        assert!(rt; message_of(line.as_bytes()).is_err(), "read {line}");
    }
}

/// Whether these two octets are written as this text.
fn is_written(octets: &[u8; 2], text: &[u8]) -> bool {
    let mut out = Text::new();
    append_hex(&mut out, octets);
    out.as_slice() == text
}

/// Whether a text of four digits is read as these octets.
fn reads(text: &[u8; 4], wanted: &[u8]) -> bool {
    match octets_of(text) {
        Some(octets) => octets.as_slice() == wanted,
        None => false,
    }
}

/// Whether a text of at most 1,024 octets is read as no octets.
fn reads_none(text: &[u8]) -> bool {
    text.len() <= 1024 && octets_of(text).is_none()
}

/// Hexadecimal in both cases.
#[test]
fn reads_hexadecimal(rt: HostRuntime) {
    assert!(rt; is_written(&[1, 171], b"01ab"));
    assert!(rt; reads(b"01Ab", &[1, 171]));
    assert!(rt; reads_none(b"01a") && reads_none(b"zz"));
}
