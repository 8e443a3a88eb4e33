//! Whether each correction acts at most once.
ghost use Rattle.std.specs.Prelude.{◌≡◌, ◌≤◌, ◌<◌, ◌+◌, ◌-◌, ◌^◌, ℕ, true, List, length, take};
ghost use Rattle.std.specs.Prelude.{vec_len, vec_capacity, MatchBool, MatchOption};
ghost use Rattle.tsp_promises.specs.CorrectFits.{amount_of};
ghost use Rattle.tsp_base.specs.History.{Line};
ghost use Rattle.tsp_promises.specs.Once.{ConfirmedAt, Obeys, ObeysAt, OnceAt, SpacedAt};
ghost use Rattle.tsp_base.specs.SendFacts.{is_numbered};
ghost use Rattle.tsp_promises.specs.Setting.{Setting};
ghost use Rattle.tsp_base.specs.Takings.{time_in};
ghost use Rattle.tsp_audit.specs.Parts.{ActsOnce, AllKept};
ghost use Rattle.tsp_audit.specs.Settings.{HasClocks, Timely};
ghost use Rattle.tsp_audit.specs.Acting.{ActedIs, ActsAt, ActsNow, Corrects, IsNumbered, PostsMove};
ghost use Rattle.tsp_audit.specs.Acting.{TakesAs, TakesSend, TakesWell, deed_corrects, is_unknown};
ghost use Rattle.tsp_audit.specs.Acting.{with_send};
ghost use Rattle.tsp_history.specs.Clocks.{IsSmall};
ghost use Rattle.tsp_history.specs.Histories.{deed_of, line_of, history_of};
ghost use Rattle.tsp_history.specs.Notes.{Told};

use crate::brought::brought;
use crate::clock::clock_at;
use crate::premises::Premises;
use tsp_base::header::Header;
use tsp_base::kind::Kind;
use tsp_base::message::Body;
use tsp_base::place::{PeerId, Place};
use tsp_base::role::Role;
use tsp_history::brief::Brief;
use tsp_history::clocks::is_spaced;
use tsp_history::line::HistoryLine;
use tsp_history::posts::{has_taken, post_at};
use tsp_history::scans::role_at;
use tsp_history::sends::{begun_to, open_to};

/// Whether a Correct comes `GAP`, 1,000,000 ticks, or more after each one before it of its node's
/// life, where these lines stand before it.
fn spaces(lines: &[HistoryLine], line: &HistoryLine) -> bool
    requires { Told lines.now }
    ensures { MatchBool result (SpacedAt (line_of line.now) (history_of lines.now))
        (SpacedAt (line_of line.now) (history_of lines.now) → ⊥) }
{
    match line.act.brief() {
        Brief::Correct(_, _, _) => is_spaced(lines, line.node, line.tick),
        _ => true,
    }
}

/// By how much a correction moves a clock with this target, in microseconds: an ADJTIME by its
/// time, a SETTIME to its time.
fn amount_of(kind: Kind, body: Body, target: i128) -> i128
    requires { IsSmall target }
    ensures { result ≡ amount_of kind (time_in body) target }
{
    let time = match body {
        Body::Time(time) => i128::from(time.get()),
        _ => 0,
    };
    match kind {
        Kind::SetTime => time - target,
        _ => time,
    }
}

/// Whether a line posts a correction that moves a clock with this target by this amount, both in microseconds.
fn moves(post: &HistoryLine, amount: i64, target: i128) -> bool
    requires { IsSmall target }
    ensures { MatchBool result (PostsMove (deed_of post.now.act) amount target)
        (PostsMove (deed_of post.now.act) amount target → ⊥) }
{
    match post.act.brief() {
        Brief::PostMessage(_, kind, _, body) => {
            kind.is_correction() && i128::from(amount) == amount_of(kind, body, target)
        }
        _ => false,
    }
}

/// Whether the step of a Correct brings a correction of this master, which moves the clock by this
/// amount, in microseconds.
fn obeys_master(
    header: &Header,
    lines: &[HistoryLine],
    line: &HistoryLine,
    amount: i64,
    master: PeerId,
) -> bool
    requires few { length lines.now < 2 ^ 32 }
    requires told { Told lines.now }
    ensures { (setting : Setting) → HasClocks header.now setting → line.now.at ≤ 1000000000000000
        → MatchBool result (Obeys setting (line_of line.now) (history_of lines.now) amount master)
        (Obeys setting (line_of line.now) (history_of lines.now) amount master → ⊥) }
{
    match brought(lines, line) {
        None => false,
        Some(index) => {
            let post = &lines[index];
            let target = clock_at(header, lines, line.node, line.at);
            if post.node != master.0 {
                return false;
            }
            moves(post, amount, target)
        }
    }
}

/// Whether a follower's Correct does as its master says, where these lines stand before it.
fn obeys(header: &Header, lines: &[HistoryLine], line: &HistoryLine) -> bool
    requires few { length lines.now < 2 ^ 32 }
    requires told { Told lines.now }
    ensures { (setting : Setting) → HasClocks header.now setting → line.now.at ≤ 1000000000000000
        → MatchBool result (ObeysAt setting (line_of line.now) (history_of lines.now))
        (ObeysAt setting (line_of line.now) (history_of lines.now) → ⊥) }
{
    match line.act.brief() {
        Brief::Correct(amount, _, _) => match role_at(lines, line.node, line.port) {
            Role::Follow(master) => obeys_master(header, lines, line, amount, master),
            _ => true,
        },
        _ => true,
    }
}

/// Whether a line posts a numbered message.
fn is_numbered(line: &HistoryLine) -> bool
    ensures { MatchBool result (IsNumbered (deed_of line.now.act))
        (IsNumbered (deed_of line.now.act) → ⊥) }
{
    match line.act.brief() {
        Brief::PostMessage(_, kind, _, _) => kind.is_numbered(),
        _ => false,
    }
}

/// Whether a line is a Correct after its step's Took, where these lines stand before it.
fn acts(lines: &[HistoryLine], line: &HistoryLine) -> bool
    ensures { MatchBool result (ActsNow (line_of line.now) (history_of lines.now))
        (ActsNow (line_of line.now) (history_of lines.now) → ⊥) }
{
    match line.act.brief() {
        Brief::Correct(_, _, _) => has_taken(lines, line.node),
        _ => false,
    }
}

/// The number of the datagram that begins the send of which a line's Correct takes a post, if it takes one.
pub(crate) fn takes_send(lines: &[HistoryLine], line: &HistoryLine) -> Option<u64>
    requires { Told lines.now }
    ensures { MatchOption result ((s : ℕ) → TakesSend (line_of line.now) (history_of lines.now) s
        → ⊥) (λ s. TakesSend (line_of line.now) (history_of lines.now) s) }
{
    if !acts(lines, line) {
        return None;
    }
    match brought(lines, line) {
        None => None,
        Some(index) => {
            let post = &lines[index];
            if is_numbered(post) {
                begun_to(&lines[..index + 1], post.node, post.port, PeerId(line.node))
            } else {
                None
            }
        }
    }
}

/// Whether no Correct before, of which these are the sends, has taken a post of the send that a
/// line's Correct takes a post of.
fn is_new(acted: &[u64], send: Option<u64>) -> bool
    ensures { result ≡ is_unknown send acted.now }
{
    match send {
        None => true,
        Some(send) => !acted.contains(&send),
    }
}

/// Whether a line posts a correction.
fn is_correcting(line: &HistoryLine) -> bool
    ensures { result ≡ deed_corrects (deed_of line.now.act) }
{
    match line.act.brief() {
        Brief::PostMessage(_, kind, _, _) => kind.is_correction(),
        _ => false,
    }
}

/// Whether the datagram with this number is a correction.
fn corrects(lines: &[HistoryLine], number: u64) -> bool
    requires { Told lines.now }
    ensures { Corrects (history_of lines.now) number result }
{
    match post_at(lines, number) {
        None => false,
        Some(index) => is_correcting(&lines[index]),
    }
}

/// Whether a correction that an Acked ends was taken, where these lines stand before it and these
/// are the sends that Corrects have taken posts of.
fn confirms(lines: &[HistoryLine], acted: &[u64], line: &HistoryLine) -> bool
    requires { Told lines.now }
    ensures { ActedIs (history_of lines.now) acted.now
        → MatchBool result (ConfirmedAt (line_of line.now) (history_of lines.now))
        (ConfirmedAt (line_of line.now) (history_of lines.now) → ⊥) }
{
    match line.act.brief() {
        Brief::Acked(p) => match open_to(lines, line.node, line.port, p) {
            None => true,
            Some(number) => {
                if acted.contains(&number) {
                    return true;
                }
                !corrects(lines, number)
            }
        },
        _ => true,
    }
}

/// Whether a follower's Correct does as its master says, where `honest` asks for it; else true.
fn obeys_if(honest: bool, header: &Header, lines: &[HistoryLine], line: &HistoryLine) -> bool
    requires few { length lines.now < 2 ^ 32 }
    requires told { Told lines.now }
    ensures { (setting : Setting) → HasClocks header.now setting → line.now.at ≤ 1000000000000000
        → MatchBool result (honest ≡ true
        → ObeysAt setting (line_of line.now) (history_of lines.now)) ((honest ≡ true
        → ObeysAt setting (line_of line.now) (history_of lines.now)) → ⊥) }
{
    if honest {
        obeys(header, lines, line)
    } else {
        true
    }
}

/// Whether a line takes no post of a send that a Correct has taken one of before, and is no Acked
/// of a correction that wasn't taken.
fn takes_well(lines: &[HistoryLine], acted: &[u64], line: &HistoryLine, send: Option<u64>) -> bool
    requires { Told lines.now }
    ensures { ActedIs (history_of lines.now) acted.now
        → TakesAs (line_of line.now) (history_of lines.now) send
        → MatchBool result (TakesWell (line_of line.now) (history_of lines.now))
        (TakesWell (line_of line.now) (history_of lines.now) → ⊥) }
{
    if !is_new(acted, send) {
        return false;
    }
    confirms(lines, acted, line)
}

/// Whether a line takes and confirms as `takes_well` asks, where all premises are kept; else true.
fn takes_well_if(
    premises: Premises,
    lines: &[HistoryLine],
    acted: &[u64],
    line: &HistoryLine,
    send: Option<u64>,
) -> bool
    requires { Told lines.now }
    ensures { ActedIs (history_of lines.now) acted.now
        → TakesAs (line_of line.now) (history_of lines.now) send
        → MatchBool result (AllKept premises → TakesWell (line_of line.now) (history_of lines.now))
        ((AllKept premises → TakesWell (line_of line.now) (history_of lines.now)) → ⊥) }
{
    if premises.all_kept() {
        takes_well(lines, acted, line, send)
    } else {
        true
    }
}

/// Whether a line keeps that each correction acts at most once, where these lines stand before it,
/// these are the sends that Corrects have taken posts of, and it takes a post of this one.
fn acts_once(
    header: &Header,
    premises: Premises,
    lines: &[HistoryLine],
    acted: &[u64],
    line: &HistoryLine,
    send: Option<u64>,
) -> bool
    requires few { length lines.now < 2 ^ 32 }
    requires told { Told lines.now }
    ensures { (setting : Setting) → HasClocks header.now setting → line.now.at ≤ 1000000000000000
        → ActedIs (history_of lines.now) acted.now
        → TakesAs (line_of line.now) (history_of lines.now) send
        → MatchBool result (ActsAt premises setting (line_of line.now) (history_of lines.now))
        (ActsAt premises setting (line_of line.now) (history_of lines.now) → ⊥) }
{
    if !spaces(lines, line) {
        return false;
    }
    if !obeys_if(premises.honest, header, lines, line) {
        return false;
    }
    takes_well_if(premises, lines, acted, line, send)
}

/// Puts a send behind those of which Corrects have taken posts, if there is one; there is to be room for it.
fn note(acted: &mut Vec<u64>, send: Option<u64>)
    ensures items { vec_len acted.old < vec_capacity acted.old
        → acted.new.items ≡ with_send send acted.old.items }
    ensures len { vec_len acted.new ≤ vec_len acted.old + 1 }
    ensures capacity { vec_capacity acted.new ≡ vec_capacity acted.old }
{
    if let Some(send) = send
        && acted.len() < acted.capacity()
    {
        acted.push_reserved(send);
    }
}

/// Whether each correction acts at most once in all lines, where it is so in those before `from`.
/// `acted` are the sends of which Corrects before `from` have taken posts, and then those of all.
pub(crate) fn keeps_acting(
    header: &Header,
    premises: Premises,
    lines: &[HistoryLine],
    from: usize,
    acted: &mut Vec<u64>,
) -> bool
    requires from { from ≤ length lines.now }
    requires few { length lines.now < 2 ^ 32 }
    requires told { Told lines.now }
    ensures keeps { (setting : Setting) → HasClocks header.now setting
        → Timely (history_of lines.now)
        → vec_len acted.old + (length lines.now - from) ≤ vec_capacity acted.old
        → ActedIs (history_of (take from lines.now)) acted.old.items
        → ActsOnce premises setting (history_of (take from lines.now))
        → MatchBool result (ActsOnce premises setting (history_of lines.now))
        (ActsOnce premises setting (history_of lines.now) → ⊥) }
    ensures acted { result ≡ true → vec_len acted.old + (length lines.now - from) ≤ vec_capacity
        acted.old → ActedIs (history_of (take from lines.now)) acted.old.items
        → ActedIs (history_of lines.now) acted.new.items }
{
    for i in from..lines.len() {
        let before = &lines[..i];
        let line = &lines[i];
        let send = takes_send(before, line);
        if !acts_once(header, premises, before, acted.as_slice(), line, send) {
            return false;
        }
        note(acted, send);
    }
    true
}
