//! Datagrams to octets.
ghost use Rattle.std.specs.Prelude.{◌≡◌, ℕ, List, ◌∷◌, [], ◌++◌, ◌+◌, ◌-◌, ◌≤◌, ◌<◌, length, replicate, ℤ, pos};
ghost use Rattle.std.specs.Int.{w32, to_be_bytes, cast_unsigned, int_div_euclid, int_rem_euclid};
ghost use Rattle.arrayvec.specs.ArrayVec.{array_vec_len};
ghost use Rattle.tsp_base.specs.Names.{IsName};
ghost use Rattle.tsp_base.specs.Times.{IsMicros};
ghost use Rattle.tsp_codec.specs.Spelling.{Spells};
ghost use Rattle.tsp_codec.specs.Canon.{int_octets, time_octets, body_octets, name_octets};
ghost use Rattle.tsp_codec.specs.Canon.{room_for, message_octets, stamp_octets, canon};
ghost use Rattle.tsp_codec.specs.Canon.{IsWritableBody, IsWritable};
ghost use Rattle.tsp_base.specs.declared.datagram.Datagram.{Datagram};

use crate::layout::{NAME_ROOM, REPLY, REQUEST, SECOND, SHORT_NAME, SHORT_ROOM, VERSION};
use arrayvec::ArrayVec;
use tsp_base::datagram::Datagram;
use tsp_base::message::{Body, Message};
use tsp_base::micros::Micros;
use tsp_base::name::Name;
use tsp_base::stamp::Stamp;

/// The zeros that fill unused places.
static ZEROS: [u8; 256] = [0; 256];

/// Appends octets.
fn append<const ROOM: usize>(out: &mut ArrayVec<u8, ROOM>, piece: &[u8])
    requires { array_vec_len out.old + length piece.now ≤ ROOM }
    ensures { out.new.items ≡ out.old.items ++ piece.now }
{
    let _ = out.try_extend_from_slice(piece);
}

/// Appends this many zeros.
fn append_zeros(out: &mut ArrayVec<u8, 268>, count: usize)
    requires room { array_vec_len out.old + count ≤ 268 }
    requires few { count ≤ 256 }
    ensures { out.new.items ≡ out.old.items ++ replicate count 0 }
{
    append(out, &ZEROS[..count]);
}

/// Appends four octets in two's complement.
fn append_i32(out: &mut ArrayVec<u8, 268>, value: i32)
    requires { array_vec_len out.old + 4 ≤ 268 }
    ensures { out.new.items ≡ out.old.items ++ int_octets value }
{
    append(out, &value.cast_unsigned().to_be_bytes());
}

/// Appends seconds and microseconds.
fn append_pair(out: &mut ArrayVec<u8, 268>, seconds: i32, micros: i32)
    requires { array_vec_len out.old + 8 ≤ 268 }
    ensures { out.new.items ≡ out.old.items ++ (int_octets seconds ++ int_octets micros) }
{
    append_i32(out, seconds);
    append_i32(out, micros);
}

/// Appends the seconds and the microseconds of a time, the latter from 0 to 999,999.
fn append_time(out: &mut ArrayVec<u8, 268>, time: &Micros)
    requires { array_vec_len out.old + 8 ≤ 268 }
    ensures octets { out.new.items ≡ out.old.items ++ time_octets time.now }
    ensures range { IsMicros time.now }
{
    let value = time.get();
    append_pair(
        out,
        value.div_euclid(SECOND) as i32,
        value.rem_euclid(SECOND) as i32,
    );
}

/// Appends the eight octets of a body, with zeros where it has nothing.
fn append_body(out: &mut ArrayVec<u8, 268>, body: &Body)
    requires { array_vec_len out.old + 8 ≤ 268 }
    ensures octets { out.new.items ≡ out.old.items ++ body_octets body.now }
    ensures range { IsWritableBody body.now }
{
    match body {
        Body::Nothing => append_zeros(out, 8),
        Body::Hops(hops) => {
            append(out, &[*hops]);
            append_zeros(out, 7);
        }
        Body::Time(time) => append_time(out, time),
    }
}

/// How many octets are written for a name of this length, its NUL and the fill included: 64 or 256.
fn room_for(len: usize) -> usize
    ensures { result ≡ room_for len }
{
    if len <= SHORT_NAME {
        SHORT_ROOM
    } else {
        NAME_ROOM
    }
}

/// Appends a name, and zeros up to 64 or 256 octets.
fn append_name(out: &mut ArrayVec<u8, 268>, name: &Name)
    requires { array_vec_len out.old + 256 ≤ 268 }
    ensures octets { out.new.items ≡ out.old.items ++ name_octets name.now }
    ensures valid { IsName name.now }
{
    let octets = name.octets();
    append(out, octets);
    append_zeros(out, room_for(octets.len()) - octets.len());
}

/// The octets of a message.
fn message_spelling(message: &Message) -> ArrayVec<u8, 268>
    ensures octets { result.items ≡ message_octets message.now }
    ensures ranges { IsWritable (Datagram.Message message.now) }
{
    let mut out = ArrayVec::new();
    append(&mut out, &[message.kind().number(), VERSION]);
    append(&mut out, &message.number().to_be_bytes());
    append_body(&mut out, &message.body());
    append_name(&mut out, message.name());
    out
}

/// The octets that `encode` writes for a stamp, in no more room than they take: whoever sends stamps alone needn't move
/// them through the room of a message.
#[inline(always)]
pub fn encode_stamp(stamp: &Stamp) -> ArrayVec<u8, 28>
    ensures octets { result.items ≡ stamp_octets stamp.now }
    ensures ranges { IsWritable (Datagram.Stamp stamp.now) }
{
    let mut out = ArrayVec::new();
    match stamp {
        Stamp::Request { word, counter } => {
            append(&mut out, &[REQUEST, VERSION, 0, 0]);
            append(&mut out, &word.to_be_bytes());
            append(&mut out, &counter.to_be_bytes());
            append(&mut out, &[0; 8]);
        }
        Stamp::Reply(reply) => {
            append(&mut out, &[REPLY, VERSION]);
            append(&mut out, &reply.ticket().to_be_bytes());
            append(&mut out, &reply.word().to_be_bytes());
            append(&mut out, &reply.counter().to_be_bytes());
            append(&mut out, &reply.reading().cast_unsigned().to_be_bytes());
        }
    }
    out
}

/// The 28 octets of a stamp.
fn stamp_spelling(stamp: &Stamp) -> ArrayVec<u8, 268>
    ensures octets { result.items ≡ stamp_octets stamp.now }
    ensures ranges { IsWritable (Datagram.Stamp stamp.now) }
{
    let mut out = ArrayVec::new();
    append(&mut out, encode_stamp(stamp).as_slice());
    out
}

/// A datagram's octets: 28 for a stamp, 76 for a message whose name has at most 63 octets, else 268. Unused
/// places and what follows the name are zeros. `decode` reads them as the same datagram.
pub fn encode(datagram: &Datagram) -> ArrayVec<u8, 268>
    ensures octets { result.items ≡ canon datagram.now }
    ensures ranges { IsWritable datagram.now }
    ensures spelled { Spells result.items datagram.now }
{
    match datagram {
        Datagram::Message(message) => message_spelling(message),
        Datagram::Stamp(stamp) => stamp_spelling(stamp),
    }
}
