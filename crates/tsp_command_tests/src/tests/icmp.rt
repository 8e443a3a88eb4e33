//! Messages and exchanges that were worked out by hand from RFC 792.
use std::process::Abort;
use tsp_icmp::{IcmpFault, Timestamp, difference, icmp_decode, icmp_encode, standard, trip};

/// A request of identifier 1 and sequence number 2, sent at second 1.
const REQUEST: [u8; 20] = [
    13, 0, 0xef, 0x14, 0, 1, 0, 2, 0, 0, 3, 0xe8, 0, 0, 0, 0, 0, 0, 0, 0,
];

/// Its reply, received and sent at 1.5 seconds.
const REPLY: [u8; 20] = [
    14, 0, 0xe2, 0x5c, 0, 1, 0, 2, 0, 0, 3, 0xe8, 0, 0, 5, 0xdc, 0, 0, 5, 0xdc,
];

/// A request and its reply, in both directions.
#[test]
fn reads_and_writes_messages(rt: HostRuntime) {
    let request = Timestamp {
        reply: false,
        ident: 1,
        seq: 2,
        originate: 1000,
        receive: 0,
        transmit: 0,
    };
    let reply = Timestamp {
        reply: true,
        receive: 1500,
        transmit: 1500,
        ..request
    };
    for (octets, message) in [(REQUEST, request), (REPLY, reply)] {
        assert!(rt; icmp_decode(&octets) == Ok(message) && icmp_encode(&message) == octets);
    }
}

/// Each fault, and the first of several.
#[test]
fn names_the_first_fault(rt: HostRuntime) {
    let mut octets = REQUEST;
    octets[3] = 0x15;
    assert!(rt; icmp_decode(&octets) == Err(IcmpFault::Checksum));
    octets[1] = 1;
    assert!(rt; icmp_decode(&octets) == Err(IcmpFault::Code));
    octets[0] = 8;
    assert!(rt; icmp_decode(&octets) == Err(IcmpFault::Kind));
    assert!(rt; icmp_decode(&octets[..19]) == Err(IcmpFault::Length));
    assert!(rt; icmp_decode(&[]) == Err(IcmpFault::Length));
}

/// Stamps, how far the clocks are apart, and by how much that may be wrong.
const STAMPS: &[(u32, u32, u32, Option<(i64, i64)>)] = &[
    (1000, 1500, 1801, Some((100, 402))),
    (86_399_900, 200, 300, Some((100, 201))),
    (0, 0, 43_200_000, None),
    (0, 43_200_000, 0, Some((-43_200_000, 1))),
];

/// Midnight between the stamps, and the edges of half a day.
#[test]
fn tells_how_far_clocks_are_apart(rt: HostRuntime) {
    for (sent, met, back, apart) in STAMPS {
        let fit = standard(*sent) && standard(*met) && standard(*back);
        assert!(rt; fit && difference(*sent, *met, *back) == *apart);
    }
    assert!(rt; trip(86_399_900, 300) == 400);
    assert!(rt; standard(86_399_999) && !standard(86_400_000));
}
