//! The text of an act.
ghost use Rattle.std.specs.Prelude.{◌≡◌, ℕ, ◌+◌, ◌≤◌, ◌++◌, length, decimal, codes, true};
ghost use Rattle.std.specs.Fmt.{signed_decimal};
ghost use Rattle.arrayvec.specs.ArrayVec.{array_vec_len};
ghost use Rattle.tsp_script.specs.Texts.{space, message_text};
ghost use Rattle.tsp_base.specs.Alarms.{alarm_word};
ghost use Rattle.tsp_script.specs.Traces.{fault_word, role_text, place_text};
ghost use Rattle.tsp_script.specs.Traces.{taken_text, way_word, act_text, has_micros};

use crate::messages::append_datagram;
use crate::numbers::{
    append, append_next_number, append_next_signed, append_number, append_signed,
};
use crate::text::Text;
use tsp_base::act::Act;
use tsp_base::alarm::Alarm;
use tsp_base::datagram::{Datagram, DecodeFault, Taken};
use tsp_base::place::{PeerId, Place};
use tsp_base::role::Role;

/// The word of a fault of reading octets.
pub fn fault_word(fault: DecodeFault) -> &'static [u8]
    ensures word { result.now ≡ fault_word fault }
    ensures short { length result.now ≤ 13 }
{
    match fault {
        DecodeFault::Short => b"short",
        DecodeFault::Long => b"long",
        DecodeFault::Version => b"version",
        DecodeFault::Kind => b"kind",
        DecodeFault::StampLength => b"stamp-length",
        DecodeFault::NoEnd => b"no-end",
        DecodeFault::NameTooLong => b"name-too-long",
        DecodeFault::Reserved => b"reserved",
        DecodeFault::Time => b"time",
    }
}

fn append_role(out: &mut Text, role: Role)
    requires { array_vec_len out.old + 27 ≤ 1024 }
    ensures text { out.new.items ≡ out.old.items ++ role_text role }
    ensures short { array_vec_len out.new ≤ array_vec_len out.old + 27 }
{
    match role {
        Role::Starting => append(out, b"starting"),
        Role::Loose => append(out, b"loose"),
        Role::Follow(master) => append_peer(out, b"follow ", master),
        Role::Candidate => append(out, b"candidate"),
        Role::Master => append(out, b"master"),
    }
}

/// Writes a peer's number, or a dash for a stranger.
pub fn append_place(out: &mut Text, place: Place)
    requires { array_vec_len out.old + 20 ≤ 1024 }
    ensures text { out.new.items ≡ out.old.items ++ place_text place }
    ensures short { array_vec_len out.new ≤ array_vec_len out.old + 20 }
{
    match place {
        Place::Peer(peer) => append_number(out, peer.0 as u64),
        Place::Stranger => append(out, b"-"),
    }
}

fn append_taken(out: &mut Text, from: Place, taken: &Taken)
    requires { array_vec_len out.old + 844 ≤ 1024 }
    ensures { out.new.items ≡ out.old.items ++ (codes "took " ++ place_text
        from ++ space ++ taken_text taken.now) }
{
    append(out, b"took ");
    append_place(out, from);
    append(out, b" ");
    match taken {
        Taken::Good(datagram) => append_datagram(out, datagram),
        Taken::Bad(fault) => {
            append(out, b"refused ");
            append(out, fault_word(*fault));
        }
    }
}

fn append_post(out: &mut Text, number: u64, to: Place, datagram: &Datagram)
    requires { array_vec_len out.old + 865 ≤ 1024 }
    ensures { out.new.items ≡ out.old.items ++ (codes "post " ++ decimal
        number ++ space ++ place_text to ++ space ++ message_text datagram.now) }
{
    append(out, b"post ");
    append_number(out, number);
    append(out, b" ");
    append_place(out, to);
    append(out, b" ");
    append_datagram(out, datagram);
}

/// Writes a word, with its space, and a peer's number.
#[inline(always)]
fn append_peer(out: &mut Text, word: &[u8], peer: PeerId)
    requires { array_vec_len out.old + length word.now + 20 ≤ 1024 }
    ensures text { out.new.items ≡ out.old.items ++ (word.now ++ decimal peer.0) }
    ensures short { array_vec_len out.new ≤ array_vec_len out.old + length word.now + 20 }
{
    append(out, word);
    append_number(out, peer.0 as u64);
}

/// Writes a word, with its space, and an alarm's word.
#[inline(always)]
fn append_alarm(out: &mut Text, word: &[u8], alarm: Alarm)
    requires { array_vec_len out.old + length word.now + 7 ≤ 1024 }
    ensures text { out.new.items ≡ out.old.items ++ (word.now ++ alarm_word alarm) }
    ensures short { array_vec_len out.new ≤ array_vec_len out.old + length word.now + 7 }
{
    append(out, word);
    append(out, alarm.word());
}

fn append_arm(out: &mut Text, alarm: Alarm, at: u64)
    requires { array_vec_len out.old + 40 ≤ 1024 }
    ensures { out.new.items ≡ out.old.items ++ (codes "arm " ++ alarm_word alarm ++ space ++ decimal
        at) }
{
    append_alarm(out, b"arm ", alarm);
    append_next_number(out, at);
}

fn append_sample(out: &mut Text, peer: PeerId, counter: u64, diff: i64, err: i64, ticket: u16)
    requires { array_vec_len out.old + 111 ≤ 1024 }
    ensures { out.new.items ≡ out.old.items ++ (codes "sample " ++ decimal
        peer.0 ++ space ++ decimal counter ++ space ++ signed_decimal
        diff ++ space ++ signed_decimal err ++ space ++ decimal ticket) }
{
    append_peer(out, b"sample ", peer);
    append_next_number(out, counter);
    append_next_signed(out, diff);
    append_next_signed(out, err);
    append_next_number(out, ticket as u64);
}

fn append_close(out: &mut Text, count: u32, lo: i64, width: i64, mean: i64)
    requires { array_vec_len out.old + 89 ≤ 1024 }
    ensures { out.new.items ≡ out.old.items ++ (codes "close " ++ decimal
        count ++ space ++ signed_decimal lo ++ space ++ signed_decimal
        width ++ space ++ signed_decimal mean) }
{
    append(out, b"close ");
    append_number(out, count as u64);
    append_next_signed(out, lo);
    append_next_signed(out, width);
    append_next_signed(out, mean);
}

/// The word, between spaces, that says how a clock was corrected.
fn way_word(stepped: bool) -> &'static [u8]
    ensures word { result.now ≡ way_word stepped }
    ensures short { length result.now ≤ 6 }
{
    if stepped { b" step " } else { b" slew " }
}

fn append_correct(out: &mut Text, amount: i64, stepped: bool, shown: i64)
    requires { array_vec_len out.old + 54 ≤ 1024 }
    ensures { out.new.items ≡ out.old.items ++ (codes "correct " ++ signed_decimal
        amount ++ way_word stepped ++ signed_decimal shown) }
{
    append(out, b"correct ");
    append_signed(out, amount);
    append(out, way_word(stepped));
    append_signed(out, shown);
}

/// Writes an act, in at most 865 octets. `number` is the posted datagram's; for any other act it isn't used.
pub fn append_act(out: &mut Text, number: u64, act: &Act)
    requires { array_vec_len out.old + 865 ≤ 1024 }
    ensures { out.new.items ≡ out.old.items ++ act_text number act.now }
{
    match act {
        Act::Boot => append(out, b"boot"),
        Act::Took(from, taken) => append_taken(out, *from, taken),
        Act::Post(to, datagram) => append_post(out, number, *to, datagram),
        Act::Become(role) => append_become(out, *role),
        Act::Back(peer) => append_peer(out, b"back ", *peer),
        Act::Backer(peer) => append_peer(out, b"backer ", *peer),
        Act::Quit(peer) => append_peer(out, b"quit ", *peer),
        Act::Arm(alarm, at) => append_arm(out, *alarm, *at),
        Act::Ring(alarm) => append_alarm(out, b"ring ", *alarm),
        Act::Late(alarm) => append_alarm(out, b"late ", *alarm),
        Act::Join(peer) => append_peer(out, b"join ", *peer),
        Act::Leave(peer) => append_peer(out, b"leave ", *peer),
        Act::Rival(peer) => append_peer(out, b"rival ", *peer),
        Act::Acked(peer) => append_peer(out, b"acked ", *peer),
        Act::Gave(peer) => append_peer(out, b"gave ", *peer),
        Act::Sample { .. } | Act::Close { .. } | Act::Correct { .. } => append_measured(out, act),
        Act::Abandon => append(out, b"abandon"),
        Act::Trace(true) => append(out, b"trace on"),
        Act::Trace(false) => append(out, b"trace off"),
    }
}

/// Writes an act that has microseconds: a sample, a close or a correction.
fn append_measured(out: &mut Text, act: &Act)
    requires measured { has_micros act.now ≡ true }
    requires room { array_vec_len out.old + 111 ≤ 1024 }
    ensures { (number : ℕ) → out.new.items ≡ out.old.items ++ act_text number act.now }
{
    match act {
        Act::Sample {
            peer,
            counter,
            diff,
            err,
            ticket,
        } => append_sample(out, *peer, *counter, *diff, *err, *ticket),
        Act::Close {
            count,
            lo,
            width,
            mean,
        } => append_close(out, *count, *lo, *width, *mean),
        Act::Correct {
            amount,
            stepped,
            shown,
        } => append_correct(out, *amount, *stepped, *shown),
        _ => {}
    }
}

fn append_become(out: &mut Text, role: Role)
    requires { array_vec_len out.old + 34 ≤ 1024 }
    ensures { out.new.items ≡ out.old.items ++ (codes "become " ++ role_text role) }
{
    append(out, b"become ");
    append_role(out, role);
}
