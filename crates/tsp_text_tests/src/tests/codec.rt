//! Octets and values that were worked out by hand from the layout.
use arrayvec::ArrayVec;
use tsp_base::datagram::{Datagram, DecodeFault, Taken};
use tsp_base::kind::{KINDS, Kind};
use tsp_base::message::Body;
use tsp_base::micros::Micros;
use tsp_base::stamp::Stamp;
use tsp_codec::{decode, encode, encode_stamp, read, read_any, read_back, read_stamp};

/// The octets of a head and a name, and then this many octets of fill.
fn octets_of(head: &[u8], name: &[u8], fill: u8, count: usize) -> ArrayVec<u8, 300> {
    let mut octets = ArrayVec::new();
    let _ = octets.try_extend_from_slice(head);
    let _ = octets.try_extend_from_slice(name);
    for _ in 0..count {
        let _ = octets.try_push(fill);
    }
    octets
}

fn fault_of(octets: &[u8]) -> Option<DecodeFault> {
    match decode(octets) {
        Ok(_) => None,
        Err(fault) => Some(fault),
    }
}

/// Whether the octets are a message with this number and these parts.
fn spell_message(octets: &[u8], kind: Kind, number: u16, body: Body, name: &[u8]) -> bool {
    match decode(octets) {
        Ok(Datagram::Message(message)) => {
            message.kind() == kind
                && message.number() == number
                && message.body() == body
                && message.name().octets() == name
        }
        _ => false,
    }
}

/// Whether the datagram of these octets is written as `written`, and read back.
fn is_written_as(octets: &[u8], written: &[u8]) -> bool {
    match decode(octets) {
        Ok(datagram) => encode(&datagram).as_slice() == written && read_back(&datagram).is_ok(),
        Err(_) => false,
    }
}

fn time_of(value: i64) -> Body {
    match Micros::of(value) {
        Some(time) => Body::Time(time),
        None => Body::Nothing,
    }
}

/// An ADJTIME with the number 7 and the time 1,234, up to its name.
const HEAD: &[u8] = &[1, 1, 0, 7, 0, 0, 0, 0, 0, 0, 4, 0xd2];

/// Whether that head with these octets, and then so many of fill, is the message with this name, and is
/// written with so many octets, which are 0 from the name's end on.
fn is_padded(behind: &[u8], fill: u8, count: usize, name: &[u8], size: usize) -> bool {
    let octets = octets_of(HEAD, behind, fill, count);
    let written = octets_of(HEAD, name, 0, size.saturating_sub(12 + name.len()));
    written.len() == size
        && spell_message(octets.as_slice(), Kind::AdjTime, 7, time_of(1234), name)
        && is_written_as(octets.as_slice(), written.as_slice())
}

/// One message in four forms, of which the first is written; an octet more is too long.
#[test]
fn what_follows_the_name_is_passed_over(rt: HostRuntime) {
    assert!(rt; is_padded(b"alpha", 0, 59, b"alpha", 76));
    assert!(rt; is_padded(b"alpha", 0, 1, b"alpha", 76));
    assert!(rt; is_padded(b"alpha\0", 0xee, 250, b"alpha", 76));
    assert!(rt; octets_of(HEAD, b"alpha\0", 0xee, 250).len() == 268);
    let longer = octets_of(HEAD, b"alpha\0", 0xee, 251);
    assert!(rt; fault_of(longer.as_slice()) == Some(DecodeFault::Long));
}

/// Names on both sides of the lengths at which their place gets longer.
#[test]
fn long_names_have_long_spellings(rt: HostRuntime) {
    for (count, size) in &[(63, 76), (64, 268), (255, 268)] {
        let name = [b'a'; 255];
        let name = &name[..*count];
        assert!(rt; is_padded(name, 0, 1, name, *size));
    }
}

/// Whether an ADJTIME with these seconds and microseconds has this time; None: it is refused for its time.
fn has_time(seconds: u32, micros: u32, value: Option<i64>) -> bool {
    let mut octets = octets_of(&[1, 1, 0, 0], &u32::to_be_bytes(seconds), 0, 0);
    let _ = octets.try_extend_from_slice(&u32::to_be_bytes(micros));
    let _ = octets.try_push(0);
    match value {
        Some(value) => spell_message(octets.as_slice(), Kind::AdjTime, 0, time_of(value), b""),
        None => fault_of(octets.as_slice()) == Some(DecodeFault::Time),
    }
}

/// The greatest time and a microsecond.
const LIMIT: i64 = 2_147_483_648_000_000;

/// Seconds and microseconds at the ends of their ranges.
const TIMES: &[(u32, u32, Option<i64>)] = &[
    (0xffff_ffff, 0x000f_423f, Some(-1)),
    (0, 0xffff_ffff, Some(-1)),
    (0x8000_0000, 0xffff_ffff, None),
    (0x8000_0000, 0, Some(-LIMIT)),
    (0x7fff_ffff, 0x000f_423f, Some(LIMIT - 1)),
    (0, 0x000f_4240, None),
];

/// Whether the written form of a head and its name's end is another head and 0 up to 76 octets.
fn is_written_in_full(head: &[u8], written: &[u8]) -> bool {
    let octets = octets_of(head, b"", 0, 1);
    let written = octets_of(written, b"", 0, 64);
    is_written_as(octets.as_slice(), written.as_slice())
}

#[test]
fn times_have_their_range(rt: HostRuntime) {
    for (seconds, micros, value) in TIMES {
        assert!(rt; has_time(*seconds, *micros, *value));
    }
    let minus_one = [1, 1, 0, 0, 0, 0, 0, 0, 0xff, 0xff, 0xff, 0xff];
    let written = [1, 1, 0, 0, 0xff, 0xff, 0xff, 0xff, 0, 0x0f, 0x42, 0x3f];
    assert!(rt; is_written_in_full(&minus_one, &written));
}

/// The fault of what was read, if it has one.
fn fault_in(taken: Taken) -> Option<DecodeFault> {
    match taken {
        Taken::Good(_) => None,
        Taken::Bad(fault) => Some(fault),
    }
}

/// Whether `read`, `read_any` and `decode` find this fault, or all none.
fn have_fault(octets: &[u8], fault: Option<DecodeFault>) -> bool {
    fault_in(read(octets)) == fault
        && fault_in(read_any(octets)) == fault
        && fault_of(octets) == fault
}

/// Whether the octets of a head, so many octets of fill, and an end have this fault.
fn are_refused(
    head: &[u8],
    fill: u8,
    count: usize,
    end: &[u8],
    fault: Option<DecodeFault>,
) -> bool {
    let mut octets = octets_of(head, b"", fill, count);
    let _ = octets.try_extend_from_slice(end);
    have_fault(octets.as_slice(), fault)
}

/// An ACK up to its name.
const ACK: &[u8] = &[2, 1, 0, 0, 0, 0, 0, 0, 0, 0, 0, 0];

/// A head, what fills the octets behind it, how many of it are there, and an end.
const OCTETS: &[(&[u8], u8, usize, &[u8], Option<DecodeFault>)] = &[
    (&[1, 1], 0, 10, b"", Some(DecodeFault::Short)),
    (&[1, 2], 0, 10, b"", Some(DecodeFault::Short)),
    (&[0, 2], 0, 11, b"", Some(DecodeFault::Version)),
    (&[0, 1], 0, 11, b"", Some(DecodeFault::Kind)),
    (&[0x19, 1], 0, 11, b"", Some(DecodeFault::Kind)),
    (&[0x82, 1], 0, 11, b"", Some(DecodeFault::Kind)),
    (&[0x80, 1], 0, 25, b"", Some(DecodeFault::StampLength)),
    (&[0x81, 1], 0, 27, b"", Some(DecodeFault::StampLength)),
    (&[0x80, 1], 0, 26, b"", None),
    (&[0x81, 1], 0, 26, b"", None),
    (&[2, 1], 0, 11, b"", None),
    (&[2, 2], 0, 267, b"", Some(DecodeFault::Long)),
    (ACK, b'a', 63, b"\0", None),
    (ACK, b'a', 63, b"", Some(DecodeFault::NoEnd)),
    (ACK, b'a', 64, b"", Some(DecodeFault::NoEnd)),
    (ACK, b'a', 255, b"\0", None),
    (ACK, b'a', 255, b"", Some(DecodeFault::NoEnd)),
    (ACK, b'a', 256, b"", Some(DecodeFault::NameTooLong)),
    (&[0x80, 1, 0, 1], 0, 24, b"", Some(DecodeFault::Reserved)),
    (&[0x81, 1, 0x80, 0], 0, 24, b"", Some(DecodeFault::Reserved)),
];

/// Each fault, and octets that just don't have it.
#[test]
fn refuses_by_the_first_fault(rt: HostRuntime) {
    for (head, fill, count, end, fault) in OCTETS {
        assert!(rt; are_refused(head, *fill, *count, end, *fault));
    }
}

/// Whether a message of this kind has its number, and of its octets 4 to 11 keeps those that matter.
fn has_its_octets(kind: Kind) -> bool {
    let number = kind as u8;
    let (body, kept) = match number {
        1 | 5 | 14 | 15 | 22 | 23 => (time_of(50_331_650_000_005), [3, 0, 0, 2, 0, 0, 0, 5]),
        24 => (Body::Hops(3), [3, 0, 0, 0, 0, 0, 0, 0]),
        _ => (Body::Nothing, [0; 8]),
    };
    let head = [number, 1, 0x12, 0x34, 3, 0, 0, 2, 0, 0, 0, 5];
    let octets = octets_of(&head, b"b\0", 7, 3);
    let mut written = octets_of(&[number, 1, 0x12, 0x34], &kept, b'b', 1);
    let _ = written.try_extend_from_slice(&[0; 63]);
    spell_message(octets.as_slice(), kind, 0x1234, body, b"b")
        && is_written_as(octets.as_slice(), written.as_slice())
}

/// All types of message. Octets 4 to 11 matter in those with a time and in LOOP.
#[test]
fn each_kind_has_its_octets(rt: HostRuntime) {
    for kind in &KINDS {
        assert!(rt; has_its_octets(*kind));
    }
}

/// Whether octets are this stamp, which is written as them.
fn spell_stamp(octets: &[u8], wanted: Option<Stamp>) -> bool {
    match decode(octets) {
        Ok(Datagram::Stamp(stamp)) => {
            Some(stamp) == wanted
                && read_stamp(octets) == wanted
                && encode_stamp(&stamp).as_slice() == octets
                && is_written_as(octets, octets)
        }
        _ => false,
    }
}

/// Both stamps, in the one form that each has; and, as long as they are, a message and a request with a ticket.
#[test]
fn stamps_have_one_spelling(rt: HostRuntime) {
    let request = Stamp::Request {
        word: 1,
        counter: 2,
    };
    let octets = [
        0x80, 1, 0, 0, 0, 0, 0, 0, 0, 0, 0, 1, 0, 0, 0, 0, 0, 0, 0, 2, 0, 0, 0, 0, 0, 0, 0, 0,
    ];
    assert!(rt; spell_stamp(&octets, Some(request)));
    let octets = [
        0x81, 1, 0, 5, 0, 0, 0, 0, 0, 0, 0, 1, 0, 0, 0, 0, 0, 0, 0, 2, 0, 0, 0, 0, 0, 0, 3, 0xfc,
    ];
    assert!(rt; spell_stamp(&octets, Stamp::reply(5, 1, 2, 1020)));
    assert!(rt; read_stamp(octets_of(HEAD, b"alpha", 0, 11).as_slice()).is_none());
    assert!(rt; read_stamp(octets_of(&[0x80, 1, 0, 1], b"", 0, 24).as_slice()).is_none());
}
