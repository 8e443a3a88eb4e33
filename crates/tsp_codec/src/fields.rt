//! The fields of a datagram, each read at its place.
ghost use Rattle.std.specs.Prelude.{◌≡◌, ◌+◌, ◌≤◌, ◌<◌, length, take, slice_index_or, Contains, MatchOption, true};
ghost use Rattle.std.specs.Int.{cast_signed, w32, w64};
ghost use Rattle.tsp_base.specs.Kinds.{carries_time};
ghost use Rattle.tsp_base.specs.Messages.{body_fits};
ghost use Rattle.tsp_codec.specs.Numbers.{be16_at, be32_at, be64_at};
ghost use Rattle.tsp_codec.specs.Spelling.{time_field, IsTime, SpellsBody, SpellsName};
ghost use Rattle.tsp_codec.specs.Faults.{name_room};

use crate::layout::{LAST_MICRO, NAME_AT, NAME_ROOM, SECOND};
use tsp_base::kind::Kind;
use tsp_base::message::Body;
use tsp_base::micros::Micros;
use tsp_base::name::Name;

/// The unsigned number of the two octets at this place, the highest first.
pub fn u16_at(octets: &[u8], i: usize) -> u16
    requires { i + 2 ≤ length octets.now }
    ensures { result ≡ be16_at octets.now i }
{
    u16::from_be_bytes([octets[i], octets[i + 1]])
}

/// The number of four octets, the highest first, in two's complement.
fn i32_at(octets: &[u8], i: usize) -> i32
    requires { i + 4 ≤ length octets.now }
    ensures { result ≡ cast_signed w32 (be32_at octets.now i) }
{
    let number = u32::from_be_bytes([octets[i], octets[i + 1], octets[i + 2], octets[i + 3]]);
    number.cast_signed()
}

/// The unsigned number of eight octets, the highest first.
pub fn u64_at(octets: &[u8], i: usize) -> u64
    requires { i + 8 ≤ length octets.now }
    ensures { result ≡ be64_at octets.now i }
{
    u64::from_be_bytes([
        octets[i],
        octets[i + 1],
        octets[i + 2],
        octets[i + 3],
        octets[i + 4],
        octets[i + 5],
        octets[i + 6],
        octets[i + 7],
    ])
}

/// The number of eight octets, the highest first, in two's complement.
pub fn i64_at(octets: &[u8], i: usize) -> i64
    requires { i + 8 ≤ length octets.now }
    ensures { result ≡ cast_signed w64 (be64_at octets.now i) }
{
    u64_at(octets, i).cast_signed()
}

/// The seconds and microseconds of octets 4 to 11, in microseconds.
fn time_value(octets: &[u8]) -> i64
    requires { 12 ≤ length octets.now }
    ensures { result ≡ time_field octets.now }
{
    i32_at(octets, 4) as i64 * SECOND + i32_at(octets, 8) as i64
}

/// The time of octets 4 to 11; None where the microseconds aren't from -999,999 to 999,999, or the time is out
/// of its range.
fn time_at(octets: &[u8]) -> Option<Micros>
    requires { 12 ≤ length octets.now }
    ensures { MatchOption result (¬ IsTime octets.now) (λ time. IsTime octets.now
        × (time ≡ time_field octets.now)) }
{
    let micros = i32_at(octets, 8);
    if micros < -LAST_MICRO || LAST_MICRO < micros {
        return None;
    }
    match Micros::of(time_value(octets)) {
        Some(time) => Some(time),
        None => None,
    }
}

/// The body of a message of this kind; None where its time is out of its range.
#[tactic(auto, unfolding(tsp_base::specs::Messages::body_fits))]
pub fn body_at(octets: &[u8], kind: Kind) -> Option<Body>
    requires { 13 ≤ length octets.now }
    ensures { MatchOption result ((carries_time kind ≡ true) × ¬ IsTime octets.now)
        (λ body. SpellsBody octets.now kind body × (body_fits kind body ≡ true)) }
{
    if kind.carries_time() {
        let time = time_at(octets)?;
        Some(Body::Time(time))
    } else if kind.carries_hops() {
        Some(Body::Hops(octets[4]))
    } else {
        Some(Body::Nothing)
    }
}

/// At most `count` octets from the front.
fn front_of(octets: &[u8], count: usize) -> &[u8]
    ensures { result.now ≡ take count octets.now }
{
    if count < octets.len() {
        octets.split_at(count).0
    } else {
        octets
    }
}

/// The octets in which a name must end: the first 256 from octet 12 on.
fn room_of(octets: &[u8]) -> &[u8]
    requires { 12 ≤ length octets.now }
    ensures { result.now ≡ name_room octets.now }
{
    let (_, place) = octets.split_at(NAME_AT);
    front_of(place, NAME_ROOM)
}

/// The place of the first NUL.
fn nul_in(room: &[u8]) -> Option<usize>
    ensures { MatchOption result (¬ Contains room.now 0) (λ end. (end < length room.now)
        × ¬ Contains (take end room.now) 0 × (slice_index_or room.now end 0 ≡ 0)) }
{
    room.iter().position(|octet| *octet == 0)
}

/// The name, from octet 12 up to the first NUL; None where the first 256 octets there have none.
pub fn name_at(octets: &[u8]) -> Option<Name>
    requires { 12 ≤ length octets.now }
    ensures { MatchOption result (¬ Contains (name_room octets.now) 0)
        (λ name. SpellsName octets.now name × Contains (name_room octets.now) 0) }
{
    let room = room_of(octets);
    match nul_in(room) {
        Some(end) => Some(Name::new(&room[..end])),
        None => None,
    }
}
