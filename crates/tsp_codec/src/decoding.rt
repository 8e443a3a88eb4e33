//! Octets to datagrams.
ghost use Rattle.std.specs.Prelude.{◌≡◌, ◌≢◌, MatchResult, MatchOption, Ok, Err, Some};
ghost use Rattle.tsp_base.specs.Kinds.{kind_of};
ghost use Rattle.tsp_base.specs.declared.datagram.Datagram.{Datagram};
ghost use Rattle.tsp_base.specs.declared.datagram.DecodeFault.{DecodeFault};
ghost use Rattle.tsp_base.specs.declared.datagram.Taken.{Taken};
ghost use Rattle.tsp_base.specs.declared.stamp.Stamp.{Stamp};
ghost use Rattle.tsp_codec.specs.Numbers.{octet_at};
ghost use Rattle.tsp_codec.specs.Spelling.{HasHead, IsStamp, SpellsMessage, SpellsStamp, Spells};
ghost use Rattle.tsp_codec.specs.Faults.{IsFault, Reads};
ghost use Rattle.tsp_codec.specs.Taken.{taken_of};

use crate::encoding::encode;
use crate::fields::{body_at, i64_at, name_at, u16_at, u64_at};
use crate::layout::{
    LAST_TICKET, LONGEST, NAME_AT, NAME_ROOM, REPLY, REQUEST, SHORTEST, STAMP, VERSION,
};
use tsp_base::datagram::{Datagram, DecodeFault, Taken};
use tsp_base::kind::Kind;
use tsp_base::message::Message;
use tsp_base::stamp::Stamp;

/// Refuses octets that are shorter or longer than any datagram, or whose version isn't 1.
fn check_head(octets: &[u8]) -> Result<(), DecodeFault>
    ensures { MatchResult result (λ done. HasHead octets.now) (λ fault. IsFault octets.now fault) }
{
    if octets.len() < SHORTEST {
        return Err(DecodeFault::Short);
    }
    if octets.len() > LONGEST {
        return Err(DecodeFault::Long);
    }
    if octets[1] != VERSION {
        return Err(DecodeFault::Version);
    }
    Ok(())
}

/// A message of this kind.
fn message_of(octets: &[u8], kind: Kind) -> Result<Message, DecodeFault>
    requires head { HasHead octets.now }
    requires kind { kind_of (octet_at octets.now 0) ≡ Some kind }
    ensures { MatchResult result (λ message. SpellsMessage octets.now message)
        (λ fault. IsFault octets.now fault) }
{
    let Some(name) = name_at(octets) else {
        return Err(if octets.len() < NAME_AT + NAME_ROOM {
            DecodeFault::NoEnd
        } else {
            DecodeFault::NameTooLong
        });
    };
    match body_at(octets, kind) {
        Some(body) => Ok(Message::new(kind, u16_at(octets, 2), body, name)),
        None => Err(DecodeFault::Time),
    }
}

/// A stamp request.
fn request_of(octets: &[u8]) -> Result<Stamp, DecodeFault>
    requires { IsStamp octets.now 128 }
    ensures { MatchResult result (λ stamp. SpellsStamp octets.now stamp)
        (λ fault. IsFault octets.now fault) }
{
    if u16_at(octets, 2) != 0 || u64_at(octets, 20) != 0 {
        return Err(DecodeFault::Reserved);
    }
    Ok(Stamp::Request {
        word: u64_at(octets, 4),
        counter: u64_at(octets, 12),
    })
}

/// A stamp reply.
fn reply_of(octets: &[u8]) -> Result<Stamp, DecodeFault>
    requires { IsStamp octets.now 129 }
    ensures { MatchResult result (λ stamp. SpellsStamp octets.now stamp)
        (λ fault. IsFault octets.now fault) }
{
    let ticket = u16_at(octets, 2);
    if ticket > LAST_TICKET {
        return Err(DecodeFault::Reserved);
    }
    match Stamp::reply(
        ticket,
        u64_at(octets, 4),
        u64_at(octets, 12),
        i64_at(octets, 20),
    ) {
        Some(stamp) => Ok(stamp),
        None => Err(DecodeFault::Time),
    }
}

/// The datagram of octets with a head.
fn datagram_of(octets: &[u8]) -> Result<Datagram, DecodeFault>
    requires { HasHead octets.now }
    ensures { MatchResult result (λ datagram. Spells octets.now datagram)
        (λ fault. IsFault octets.now fault) }
{
    match (octets[0], Kind::of(octets[0])) {
        (_, Some(kind)) => Ok(Datagram::Message(message_of(octets, kind)?)),
        (REQUEST | REPLY, None) if octets.len() != STAMP => Err(DecodeFault::StampLength),
        (REQUEST, None) => Ok(Datagram::Stamp(request_of(octets)?)),
        (REPLY, None) => Ok(Datagram::Stamp(reply_of(octets)?)),
        (_, None) => Err(DecodeFault::Kind),
    }
}

/// The datagram, or the first fault: `decode`, without the clauses that say that this answer is the only one.
fn first_reading(octets: &[u8]) -> Result<Datagram, DecodeFault>
    ensures { MatchResult result (λ datagram. Spells octets.now datagram)
        (λ fault. IsFault octets.now fault) }
{
    check_head(octets)?;
    match datagram_of(octets) {
        Ok(datagram) => Ok(datagram),
        Err(fault) => Err(fault),
    }
}

/// The datagram that these octets are. Numbers are in network byte order, and a message has the layout of
/// `struct tsp` in 4.3BSD's `protocols/timed.h`; stamps are this project's own. Octets that aren't a
/// datagram give the first of their faults, in the order of `DecodeFault`.
pub fn decode(octets: &[u8]) -> Result<Datagram, DecodeFault>
    ensures reads { MatchResult result (λ datagram. Spells octets.now datagram)
        (λ fault. IsFault octets.now fault) }
    ensures spelled { (datagram : Datagram) → Spells octets.now datagram → result ≡ Ok datagram }
    ensures faulty { (fault : DecodeFault) → IsFault octets.now fault → result ≡ Err fault }
{
    match first_reading(octets) {
        Ok(datagram) => Ok(datagram),
        Err(fault) => Err(fault),
    }
}

/// The stamp that `read` takes octets for; None exactly where it takes them for something else. A caller that asks this
/// first needs no room for a message.
#[inline(always)]
pub fn read_stamp(octets: &[u8]) -> Option<Stamp>
    ensures { MatchOption result
        ((stamp : Stamp) → taken_of octets.now ≢ Taken.Good (Datagram.Stamp stamp))
        (λ stamp. taken_of octets.now ≡ Taken.Good (Datagram.Stamp stamp)) }
{
    if octets.len() != STAMP || octets[1] != VERSION {
        return None;
    }
    match octets[0] {
        REQUEST => match request_of(octets) {
            Ok(stamp) => Some(stamp),
            Err(_) => None,
        },
        REPLY => match reply_of(octets) {
            Ok(stamp) => Some(stamp),
            Err(_) => None,
        },
        _ => None,
    }
}

/// The same as `decode`, with datagram and fault alike as a value: what a node takes.
pub fn read(octets: &[u8]) -> Taken
    ensures reads { Reads octets.now result }
    ensures value { result ≡ taken_of octets.now }
{
    match read_stamp(octets) {
        Some(stamp) => Taken::Good(Datagram::Stamp(stamp)),
        None => read_any(octets),
    }
}

/// The same as `read`, for octets that `read_stamp` gave no stamp for. (A call of its own, so that its caller needs no
/// room for a message where they are a stamp.)
#[inline(never)]
pub fn read_any(octets: &[u8]) -> Taken
    ensures reads { Reads octets.now result }
    ensures value { result ≡ taken_of octets.now }
{
    match decode(octets) {
        Ok(datagram) => Taken::Good(datagram),
        Err(fault) => Taken::Bad(fault),
    }
}

/// Writes a datagram and reads it again: the answer is always the same datagram.
pub fn read_back(datagram: &Datagram) -> Result<Datagram, DecodeFault>
    ensures { result ≡ Ok datagram.now }
{
    decode(encode(datagram).as_slice())
}
