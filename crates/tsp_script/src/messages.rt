//! Message lines.
ghost use Rattle.std.specs.Prelude.{◌≡◌, ℕ, ◌+◌, ◌≤◌, ◌++◌, length};
ghost use Rattle.arrayvec.specs.ArrayVec.{array_vec_len};
ghost use Rattle.tsp_script.specs.Ranges.{IsBody, IsMessage, IsStamp, IsDatagram};
ghost use Rattle.tsp_script.specs.Texts.{body_text, message_line, reply_text, stamp_text, message_text};

use crate::names::append_name;
use crate::numbers::{
    append, append_next_number, append_next_signed, append_number, append_signed,
};
use crate::padded::kind_octets;
use crate::text::Text;
use arrayvec::ArrayVec;
use tsp_base::datagram::Datagram;
use tsp_base::message::{Body, Message};
use tsp_base::stamp::{Stamp, StampReply};

/// Writes what is between a message's number and its name.
fn append_body(out: &mut Text, body: &Body)
    requires { array_vec_len out.old + 21 ≤ 1024 }
    ensures text { out.new.items ≡ out.old.items ++ body_text body.now }
    ensures short { array_vec_len out.new ≤ array_vec_len out.old + 21 }
    ensures range { IsBody body.now }
{
    match body {
        Body::Nothing => {}
        Body::Time(time) => {
            append_signed(out, time.get());
            append(out, b" ");
        }
        Body::Hops(hops) => {
            append_number(out, *hops as u64);
            append(out, b" ");
        }
    }
}

/// Writes a message's line, in at most 818 octets.
fn append_message(out: &mut Text, message: &Message)
    requires { array_vec_len out.old + 818 ≤ 1024 }
    ensures text { out.new.items ≡ out.old.items ++ message_line message.now }
    ensures short { array_vec_len out.new ≤ array_vec_len out.old + 818 }
    ensures range { IsMessage message.now }
{
    let kind = message.kind();
    out.extend_front(kind_octets(kind), kind.word().len());
    append_next_number(out, message.number() as u64);
    append(out, b" ");
    append_body(out, &message.body());
    append_name(out, message.name());
}

/// Writes a stamp's line.
fn append_stamp(out: &mut Text, stamp: &Stamp)
    requires { array_vec_len out.old + 818 ≤ 1024 }
    ensures text { out.new.items ≡ out.old.items ++ stamp_text stamp.now }
    ensures short { array_vec_len out.new ≤ array_vec_len out.old + 818 }
    ensures range { IsStamp stamp.now }
{
    match stamp {
        Stamp::Request { word, counter } => {
            append(out, b"request ");
            append_number(out, *word);
            append_next_number(out, *counter);
        }
        Stamp::Reply(reply) => append_reply(out, reply),
    }
}

/// Writes a reply's line.
fn append_reply(out: &mut Text, reply: &StampReply)
    requires { array_vec_len out.old + 818 ≤ 1024 }
    ensures text { out.new.items ≡ out.old.items ++ reply_text reply.now }
    ensures short { array_vec_len out.new ≤ array_vec_len out.old + 818 }
    ensures range { IsStamp (Stamp.Reply reply.now) }
{
    append(out, b"reply ");
    append_number(out, reply.ticket() as u64);
    append_next_number(out, reply.word());
    append_next_number(out, reply.counter());
    append_next_signed(out, reply.reading());
}

/// Writes a datagram's line.
pub fn append_datagram(out: &mut Text, datagram: &Datagram)
    requires { array_vec_len out.old + 818 ≤ 1024 }
    ensures text { out.new.items ≡ out.old.items ++ message_text datagram.now }
    ensures short { array_vec_len out.new ≤ array_vec_len out.old + 818 }
    ensures range { IsDatagram datagram.now }
{
    match datagram {
        Datagram::Message(message) => append_message(out, message),
        Datagram::Stamp(stamp) => append_stamp(out, stamp),
    }
}

/// The line of a datagram, without a line end.
pub fn message_text(datagram: &Datagram) -> ArrayVec<u8, 1024>
    ensures text { result.items ≡ message_text datagram.now }
    ensures short { array_vec_len result ≤ 818 }
    ensures range { IsDatagram datagram.now }
{
    let mut text = Text::new();
    append_datagram(&mut text, datagram);
    text.array()
}
