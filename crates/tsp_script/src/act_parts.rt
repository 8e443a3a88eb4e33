//! Reads what follows an act's word: each function reads every text that is written for an act, and no other.
ghost use Rattle.std.specs.Prelude.{◌≡◌, ℕ, ◌^◌, ◌<◌, ◌++◌, ◌∷◌, ℤ, Bool};
ghost use Rattle.std.specs.Prelude.{decimal, Some, IfSome, IsSomeAnd};
ghost use Rattle.std.specs.Fmt.{signed_decimal};
ghost use Rattle.std.specs.Int.{w64};
ghost use Rattle.std.specs.Int.RustNames.{FitsSigned};
ghost use Rattle.tsp_base.specs.Alarms.{alarm_word};
ghost use Rattle.tsp_base.specs.declared.act.Act.{Act};
ghost use Rattle.tsp_base.specs.declared.alarm.Alarm.{Alarm};
ghost use Rattle.tsp_base.specs.declared.datagram.Datagram.{Datagram};
ghost use Rattle.tsp_base.specs.declared.datagram.Taken.{Taken};
ghost use Rattle.tsp_base.specs.declared.place.PeerId.{PeerId};
ghost use Rattle.tsp_base.specs.declared.place.Place.{Place};
ghost use Rattle.tsp_base.specs.declared.role.Role.{Role};
ghost use Rattle.tsp_script.specs.ActLines.{IsAct, IsNumberOf, IsTaken, IsRole};
ghost use Rattle.tsp_script.specs.Ranges.{IsDatagram};
ghost use Rattle.tsp_script.specs.Schedules.{IsPlace};
ghost use Rattle.tsp_script.specs.Texts.{message_text};
ghost use Rattle.tsp_script.specs.Traces.{role_text, place_text, taken_text};
ghost use Rattle.tsp_script.specs.Verbs.{way_text, switch_text, IsSpelled, SpellsRest};
ghost use Rattle.tsp_script.specs.declared.verbs.Verb.{Verb};

use crate::act_words::{alarm_of, fault_of};
use crate::event_line::front_place;
use crate::head_line::after;
use crate::message_reader::message_of;
use crate::numbers::{
    front_long, front_number, front_signed, long_number, number_of, short_of, signed_of,
};
use crate::words::{front_word, is_same, one_of};
use tsp_base::act::Act;
use tsp_base::alarm::Alarm;
use tsp_base::datagram::{Datagram, Taken};
use tsp_base::place::{PeerId, Place};
use tsp_base::role::Role;

/// A peer's number.
pub(crate) fn read_peer(text: &[u8]) -> Option<PeerId>
    ensures reads { (p : PeerId) → p.0 < 2 ^ 32 → text.now ≡ decimal p.0 → result ≡ Some p }
    ensures found { IfSome result (λ p. text.now ≡ decimal p.0) }
    ensures range { IfSome result (λ p. p.0 < 2 ^ 32) }
{
    Some(PeerId(long_number(text)?))
}

/// What was taken; its sender was read before.
fn taken_of(text: &[u8]) -> Option<Taken>
    ensures reads { (t : Taken) → IsTaken t → text.now ≡ taken_text t → result ≡ Some t }
    ensures found { IfSome result (λ t. (text.now ≡ taken_text t) × IsTaken t) }
{
    if let Some(rest) = after(text, b"refused ") {
        return Some(Taken::Bad(fault_of(rest)?));
    }
    match message_of(text) {
        Ok(datagram) => Some(Taken::Good(datagram)),
        Err(_) => None,
    }
}

/// What follows `took`.
pub(crate) fn read_took(text: &[u8]) -> Option<Act>
    ensures reads { (from : Place) (t : Taken) → IsPlace from → IsTaken t
        → text.now ≡ place_text from ++ 32 ∷ taken_text t → result ≡ Some (Act.Took from t) }
    ensures found { IfSome result (IsSpelled Verb.Took text.now) }
{
    let (from, rest) = front_place(text)?;
    let taken = taken_of(rest)?;
    Some(Act::Took(from, taken))
}

/// What follows `post`: the datagram's number, and the act.
pub(crate) fn read_post(text: &[u8]) -> Option<(u64, Act)>
    ensures reads { (number : ℕ) (to : Place) (d : Datagram) → number < 2 ^ 64 → IsPlace to
        → IsDatagram d → text.now ≡ decimal number ++ 32 ∷ (place_text to ++ 32 ∷ message_text d)
        → IsSomeAnd result (λ r. (r.0 ≡ number) × (r.1 ≡ Act.Post to d)) }
    ensures found { IfSome result (λ r. SpellsRest Verb.Post r.0 text.now r.1) }
    ensures range { IfSome result (λ r. (r.0 < 2 ^ 64) × IsAct r.1 × IsNumberOf r.1 r.0) }
{
    let (number, rest) = front_number(text)?;
    let (to, rest) = front_place(rest)?;
    match message_of(rest) {
        Ok(datagram) => Some((number, Act::Post(to, datagram))),
        Err(_) => None,
    }
}

/// A role.
fn role_of(text: &[u8]) -> Option<Role>
    ensures reads { (r : Role) → IsRole r → text.now ≡ role_text r → result ≡ Some r }
    ensures found { IfSome result (λ r. (text.now ≡ role_text r) × IsRole r) }
{
    if is_same(text, b"starting") {
        return Some(Role::Starting);
    }
    if is_same(text, b"loose") {
        return Some(Role::Loose);
    }
    if is_same(text, b"candidate") {
        return Some(Role::Candidate);
    }
    if is_same(text, b"master") {
        return Some(Role::Master);
    }
    let master = after(text, b"follow ")?;
    Some(Role::Follow(read_peer(master)?))
}

/// What follows `become`.
pub(crate) fn read_become(text: &[u8]) -> Option<Act>
    ensures reads { (r : Role) → IsRole r → text.now ≡ role_text r → result ≡ Some (Act.Become r) }
    ensures found { IfSome result (IsSpelled Verb.Become text.now) }
{
    Some(Act::Become(role_of(text)?))
}

/// What follows `arm`.
pub(crate) fn read_arm(text: &[u8]) -> Option<Act>
    ensures reads { (a : Alarm) (at : ℕ) → at < 2 ^ 64 → text.now ≡ alarm_word a ++ 32 ∷ decimal at
        → result ≡ Some (Act.Arm a at) }
    ensures found { IfSome result (IsSpelled Verb.Arm text.now) }
{
    let (word, rest) = front_word(text)?;
    let alarm = alarm_of(word)?;
    let at = number_of(rest)?;
    Some(Act::Arm(alarm, at))
}

/// What follows `sample`.
pub(crate) fn read_sample(text: &[u8]) -> Option<Act>
    ensures reads { (p : PeerId) (counter : ℕ) (diff err : ℤ) (ticket : ℕ) → p.0 < 2 ^ 32
        → counter < 2 ^ 64 → FitsSigned w64 diff → FitsSigned w64 err → ticket < 2 ^ 16
        → text.now ≡ decimal
        p.0 ++ 32 ∷ (decimal counter ++ 32 ∷ (signed_decimal
        diff ++ 32 ∷ (signed_decimal err ++ 32 ∷ decimal ticket)))
        → result ≡ Some (Act.Sample p counter diff err ticket) }
    ensures found { IfSome result (IsSpelled Verb.Sample text.now) }
{
    let (peer, rest) = front_long(text)?;
    let (counter, rest) = front_number(rest)?;
    let (diff, rest) = front_signed(rest)?;
    let (err, rest) = front_signed(rest)?;
    let ticket = number_of(rest)?;
    let ticket = short_of(ticket)?;
    Some(Act::Sample {
        peer: PeerId(peer),
        counter,
        diff,
        err,
        ticket,
    })
}

/// What follows `close`.
pub(crate) fn read_close(text: &[u8]) -> Option<Act>
    ensures reads { (count : ℕ) (lo width mean : ℤ) → count < 2 ^ 32 → FitsSigned w64 lo
        → FitsSigned w64 width → FitsSigned w64 mean
        → text.now ≡ decimal
        count ++ 32 ∷ (signed_decimal lo ++ 32 ∷ (signed_decimal width ++ 32 ∷ signed_decimal mean))
        → result ≡ Some (Act.Close count lo width mean) }
    ensures found { IfSome result (IsSpelled Verb.Close text.now) }
{
    let (count, rest) = front_long(text)?;
    let (lo, rest) = front_signed(rest)?;
    let (width, rest) = front_signed(rest)?;
    let mean = signed_of(rest)?;
    Some(Act::Close {
        count,
        lo,
        width,
        mean,
    })
}

/// What follows `correct`.
pub(crate) fn read_correct(text: &[u8]) -> Option<Act>
    ensures reads { (amount : ℤ) (stepped : Bool) (shown : ℤ) → FitsSigned w64 amount
        → FitsSigned w64 shown
        → text.now ≡ signed_decimal amount ++ 32 ∷ (way_text stepped ++ 32 ∷ signed_decimal shown)
        → result ≡ Some (Act.Correct amount stepped shown) }
    ensures found { IfSome result (IsSpelled Verb.Correct text.now) }
{
    let (amount, rest) = front_signed(text)?;
    let (way, rest) = front_word(rest)?;
    let stepped = one_of(way, b"step", b"slew")?;
    let shown = signed_of(rest)?;
    Some(Act::Correct {
        amount,
        stepped,
        shown,
    })
}

/// What follows `trace`.
pub(crate) fn read_trace_act(text: &[u8]) -> Option<Act>
    ensures reads { (on : Bool) → text.now ≡ switch_text on → result ≡ Some (Act.Trace on) }
    ensures found { IfSome result (IsSpelled Verb.Trace text.now) }
{
    Some(Act::Trace(one_of(text, b"on", b"off")?))
}
