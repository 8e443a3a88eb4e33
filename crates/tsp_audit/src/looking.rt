//! Looking for the first failure of a claimed history, event by event.
ghost use Rattle.std.specs.Prelude.{◌≡◌, ◌<◌, ◌+◌, ◌-◌, ◌∷◌, ◌^◌, [], List, length, vec_len, vec_capacity, IfOk};
ghost use Rattle.tsp_claims.specs.ClaimedHistory.{Claim, claimed};
ghost use Rattle.tsp_history.specs.Notes.{Told};
ghost use Rattle.tsp_audit.specs.Looking.{Grown, Looks};
ghost use Rattle.tsp_audit.specs.Remembered.{HasLineRoom, RememberedStands};
ghost use Rattle.tsp_base.specs.History.{Line};
ghost use Rattle.tsp_history.specs.Histories.{history_of};

use crate::judging::judge;
use crate::premises::Premises;
use crate::remembered::Remembered;
use crate::verdict::Failure;
use std::alloc::AllocError;
use tsp_base::header::Header;
use tsp_claims::claims::Claims;
use tsp_history::line::HistoryLine;

/// The first failure among the lines of the newest event, which has this number; they begin at index
/// `from`, and all parts hold before it. The notes are those of the lines before it, and where
/// nothing fails then those of all.
pub(crate) fn look(
    header: &Header,
    lines: &[HistoryLine],
    premises: Premises,
    from: usize,
    event: u64,
    notes: &mut Remembered,
) -> Option<Failure>
    requires few { length lines.now < 2 ^ 32 }
    requires told { Told lines.now }
    ensures { (new : List Claim) (h : List Line)
        → history_of lines.now ≡ claimed header.now new → event ≡ length new
        → Grown (length header.now.nodes) h (claimed header.now new) from
        → HasLineRoom (length (claimed header.now new) - from) notes.old
        → RememberedStands premises header.now h notes.old
        → Looks premises header.now new h notes.new result }
{
    if lines.len() < from {
        return None;
    }
    match judge(header, premises, lines, from, notes) {
        None => None,
        Some(part) => Some(Failure { part, event }),
    }
}

ghost use Rattle.tsp_base.specs.Headers.{HeaderValue};
ghost use Rattle.tsp_base.specs.Places.{Within};
ghost use Rattle.tsp_claims.specs.Stands.{ClaimsStand};
ghost use Rattle.tsp_audit.specs.Ends.{AreDated, EndsAt};

/// The first failure among the lines of the event with this number, which begin at index `from` and
/// end before index `end`, where all parts hold before it; the notes are as in `look`. Fails only if
/// out of memory.
fn look_at(
    claims: &Claims,
    premises: Premises,
    from: usize,
    end: usize,
    event: u64,
    notes: &mut Remembered,
) -> Result<Option<Failure>, AllocError>
    ensures { (header : HeaderValue) (told : List Claim) (c : Claim) (before : List Claim)
        → ClaimsStand header told claims.now → AreDated (length header.nodes) told
        → Within (c ∷ before) told → from ≡ length (claimed header before)
        → end ≡ length (claimed header (c ∷ before)) → event ≡ length before + 1
        → RememberedStands premises header (claimed header before) notes.old
        → IfOk result (λ found. Looks premises header (c ∷ before) (claimed header before) notes.new
        found) }
{
    notes.make_room(end.saturating_sub(from))?;
    let lines = claims.lines();
    if lines.len() < end {
        return Ok(None);
    }
    Ok(look(claims.header(), &lines[..end], premises, from, event, notes))
}

ghost use Rattle.tsp_audit.specs.Verdicts.{IsFoundOfAll};

/// The first failure of what is claimed, where nothing is noted yet; `ends` has, for each event, the
/// oldest first, how many lines of the history stand up to its end. Where nothing fails the notes are
/// those of all lines then. Fails only if out of memory.
pub(crate) fn look_through(
    claims: &Claims,
    ends: &[u32],
    premises: Premises,
    notes: &mut Remembered,
) -> Result<Option<Failure>, AllocError>
    ensures { (header : HeaderValue) (told : List Claim) → ClaimsStand header told claims.now
        → AreDated (length header.nodes) told → EndsAt header told ends.now
        → RememberedStands premises header [] notes.old
        → IfOk result (λ found. IsFoundOfAll premises header told notes.new found) }
{
    let mut from = 0;
    for i in 0..ends.len() {
        let end = ends[i] as usize;
        if let Some(failure) = look_at(claims, premises, from, end, i as u64 + 1, notes)? {
            return Ok(Some(failure));
        }
        from = end;
    }
    Ok(None)
}
