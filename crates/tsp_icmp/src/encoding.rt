//! Messages to octets.
ghost use Rattle.std.specs.Prelude.{◌≡◌};
ghost use Rattle.tsp_icmp.specs.Spelling.{type_of, icmp_octets, IsTimestamp};

use crate::checksum::checksum;
use crate::timestamp::Timestamp;

/// The type of a request.
pub(crate) const REQUEST: u8 = 13;

/// The type of a reply.
pub(crate) const REPLY: u8 = 14;

/// The type of a request, or of a reply.
fn type_of(reply: bool) -> u8
    ensures { result ≡ type_of reply }
{
    if reply { REPLY } else { REQUEST }
}

/// The 20 octets of a message, with its checksum.
pub fn icmp_encode(t: &Timestamp) -> [u8; 20]
    ensures octets { result ≡ icmp_octets t.now }
    ensures ranges { IsTimestamp t.now }
{
    let Timestamp {
        reply,
        ident,
        seq,
        originate,
        receive,
        transmit,
    } = *t;
    let kind = type_of(reply);
    let [i0, i1] = ident.to_be_bytes();
    let [s0, s1] = seq.to_be_bytes();
    let [o0, o1, o2, o3] = originate.to_be_bytes();
    let [r0, r1, r2, r3] = receive.to_be_bytes();
    let [t0, t1, t2, t3] = transmit.to_be_bytes();
    let blank = [
        kind, 0, 0, 0, i0, i1, s0, s1, o0, o1, o2, o3, r0, r1, r2, r3, t0, t1, t2, t3,
    ];
    let [c0, c1] = checksum(&blank).to_be_bytes();
    [
        kind, 0, c0, c1, i0, i1, s0, s1, o0, o1, o2, o3, r0, r1, r2, r3, t0, t1, t2, t3,
    ]
}
