//! Reads message lines: each function reads every text that is written, and no other.
ghost use Rattle.std.specs.Prelude.{◌≡◌, ℕ, ◌^◌, ◌<◌, ◌++◌, ◌∷◌, List, length, decimal, codes, true, IfSome, IsSomeAnd};
ghost use Rattle.std.specs.Fmt.{signed_decimal};
ghost use Rattle.tsp_base.specs.Kinds.{kind_word};
ghost use Rattle.tsp_base.specs.Messages.{MessageValue, body_fits};
ghost use Rattle.tsp_base.specs.Stamps.{ReplyValue, IsReply};
ghost use Rattle.tsp_base.specs.declared.datagram.Datagram.{Datagram};
ghost use Rattle.tsp_base.specs.declared.message.Body.{Body};
ghost use Rattle.tsp_script.specs.Ranges.{IsBody, IsMessage, IsDatagram};
ghost use Rattle.tsp_script.specs.Texts.{body_text, name_text, message_text, ReadsMessage, IsTimeBody, IsHopsBody};

use crate::line_fault::LineFault;
use crate::names::name_of;
use crate::numbers::{front_number, front_signed, number_of, octet_of, short_of, signed_of};
use crate::words::{cut, is_same};
use tsp_base::datagram::Datagram;
use tsp_base::kind::Kind;
use tsp_base::message::{Body, Message};
use tsp_base::micros::Micros;
use tsp_base::stamp::Stamp;

/// Reads what follows `request`.
fn read_request(line: &[u8]) -> Option<Datagram>
    ensures found { IfSome result (λ d. IsDatagram d × (0 < length line.now)
        × (codes "request" ++ 32 ∷ line.now ≡ message_text d)) }
    ensures reads { (word counter : ℕ) → word < 2 ^ 64 → counter < 2 ^ 64
        → line.now ≡ decimal word ++ 32 ∷ decimal counter
        → result ≡ Some (Datagram.Stamp (Stamp.Request word counter)) }
{
    let (word, line) = front_number(line)?;
    let counter = number_of(line)?;
    Some(Datagram::Stamp(Stamp::Request { word, counter }))
}

/// Reads what follows `reply`.
fn read_reply(line: &[u8]) -> Option<Datagram>
    ensures found { IfSome result (λ d. IsDatagram d × (0 < length line.now)
        × (codes "reply" ++ 32 ∷ line.now ≡ message_text d)) }
    ensures reads { (r : ReplyValue) → r.word < 2 ^ 64 → r.counter < 2 ^ 64
        → IsReply r.ticket r.reading
        → line.now ≡ decimal
        r.ticket ++ 32 ∷ (decimal r.word ++ 32 ∷ (decimal r.counter ++ 32 ∷ signed_decimal
        r.reading)) → result ≡ Some (Datagram.Stamp (Stamp.Reply r)) }
{
    let (ticket, line) = front_number(line)?;
    let (word, line) = front_number(line)?;
    let (counter, line) = front_number(line)?;
    let reading = signed_of(line)?;
    reply_of(ticket, word, counter, reading)
}

/// The reply of these values.
fn reply_of(ticket: u64, word: u64, counter: u64, reading: i64) -> Option<Datagram>
    ensures found { IfSome result (λ d. IsReply ticket reading
        × (d ≡ Datagram.Stamp
        (Stamp.Reply (record {
          ticket = ticket;
          word = word;
          counter = counter;
          reading = reading;
        })))) }
    ensures reads { IsReply ticket reading
        → result ≡ Some
        (Datagram.Stamp
        (Stamp.Reply (record {
          ticket = ticket;
          word = word;
          counter = counter;
          reading = reading;
        }))) }
{
    let ticket = short_of(ticket)?;
    let stamp = Stamp::reply(ticket, word, counter, reading)?;
    Some(Datagram::Stamp(stamp))
}

/// Reads what is between a message's number and its name, and gives what follows.
fn next_body(kind: Kind, line: &[u8]) -> Option<(Body, &[u8])>
    ensures found { IfSome result (λ r. IsBody r.0 × (body_fits kind r.0 ≡ true)
        × (line.now ≡ body_text r.0 ++ r.1.now)) }
    ensures reads { (body : Body) (rest : List ℕ) → IsBody body → body_fits kind body ≡ true
        → line.now ≡ body_text body ++ rest
        → IsSomeAnd result (λ r. (r.0 ≡ body) × (r.1.now ≡ rest)) }
{
    if kind.carries_time() {
        return next_time(line);
    }
    if kind.carries_hops() {
        return next_hops(line);
    }
    Some((Body::Nothing, line))
}

/// Reads a time, and gives what follows.
fn next_time(line: &[u8]) -> Option<(Body, &[u8])>
    ensures found { IfSome result (λ r. IsBody r.0 × IsTimeBody r.0
        × (line.now ≡ body_text r.0 ++ r.1.now)) }
    ensures reads { (body : Body) (rest : List ℕ) → IsBody body → IsTimeBody body
        → line.now ≡ body_text body ++ rest
        → IsSomeAnd result (λ r. (r.0 ≡ body) × (r.1.now ≡ rest)) }
{
    let (time, rest) = front_signed(line)?;
    let time = Micros::of(time)?;
    Some((Body::Time(time), rest))
}

/// Reads a hop count, and gives what follows.
fn next_hops(line: &[u8]) -> Option<(Body, &[u8])>
    ensures found { IfSome result (λ r. IsBody r.0 × IsHopsBody r.0
        × (line.now ≡ body_text r.0 ++ r.1.now)) }
    ensures reads { (body : Body) (rest : List ℕ) → IsBody body → IsHopsBody body
        → line.now ≡ body_text body ++ rest
        → IsSomeAnd result (λ r. (r.0 ≡ body) × (r.1.now ≡ rest)) }
{
    let (hops, rest) = front_number(line)?;
    let hops = octet_of(hops)?;
    Some((Body::Hops(hops), rest))
}

/// Reads what follows a message's word.
fn read_plain(word: &[u8], line: &[u8]) -> Option<Datagram>
    ensures found { IfSome result (λ d. IsDatagram d × (0 < length line.now)
        × (word.now ++ 32 ∷ line.now ≡ message_text d)) }
    ensures reads { (m : MessageValue) → IsMessage m → word.now ≡ kind_word m.kind
        → line.now ≡ decimal m.number ++ 32 ∷ (body_text m.body ++ name_text m.name)
        → result ≡ Some (Datagram.Message m) }
{
    let kind = Kind::of_word(word)?;
    let (number, line) = front_number(line)?;
    let number = short_of(number)?;
    let Some((body, line)) = next_body(kind, line) else {
        return None;
    };
    let name = name_of(line)?;
    let message = Message::of(kind, number, body, name)?;
    Some(Datagram::Message(message))
}

/// Reads a message's line.
fn read_message(line: &[u8]) -> Option<Datagram>
    ensures found { IfSome result (λ d. IsDatagram d × (line.now ≡ message_text d)) }
    ensures reads { (d : Datagram) → IsDatagram d → line.now ≡ message_text d → result ≡ Some d }
{
    let (word, rest) = cut(line);
    if is_same(word, b"request") {
        return read_request(rest);
    }
    if is_same(word, b"reply") {
        return read_reply(rest);
    }
    read_plain(word, rest)
}

/// The datagram of a message's line; `Bad` exactly where no datagram is written as this line.
pub fn message_of(line: &[u8]) -> Result<Datagram, LineFault>
    ensures reads { ReadsMessage line.now result }
    ensures one { (d : Datagram) → IsDatagram d → line.now ≡ message_text d → result ≡ Ok d }
{
    match read_message(line) {
        Some(datagram) => Ok(datagram),
        None => Err(LineFault::Bad),
    }
}
