//! Whether the lines of an event keep all parts.
ghost use Rattle.std.specs.Prelude.{◌≡◌, ◌≤◌, ◌<◌, ◌+◌, ◌-◌, ◌^◌, ℕ, true, length, take, vec_len};
ghost use Rattle.std.specs.Prelude.{vec_capacity, None, MatchBool};
ghost use Rattle.tsp_promises.specs.Setting.{Setting};
ghost use Rattle.tsp_history.specs.Histories.{history_of};
ghost use Rattle.tsp_history.specs.Notes.{Told};
ghost use Rattle.tsp_audit.specs.Agreeing.{AgreementIs, Numbered, SettledAt};
ghost use Rattle.tsp_audit.specs.Parts.{Agreeing, AllKept, PartHolds};
ghost use Rattle.tsp_audit.specs.Settings.{HasClocks, Timely};

use crate::agreement_tracker::AgreementTracker;
use crate::backing::keeps_backing;
use crate::leading::keeps_leading;
use crate::measuring::keeps_measuring_if;
use crate::once::keeps_acting;
use crate::premises::Premises;
use crate::remembered::Remembered;
use tsp_base::header::Header;
use tsp_history::line::HistoryLine;

/// Whether clocks agree in all lines, where all premises are kept, else true; they do in those
/// before `from`, for which the tracker stands, and there is to be room for the others. It stands
/// for all lines after that, where all premises are kept and the answer is yes.
fn keeps_agreeing_if(
    header: &Header,
    premises: Premises,
    lines: &[HistoryLine],
    from: usize,
    agreement: &mut AgreementTracker,
) -> bool
    requires from { from ≤ length lines.now }
    requires few { length lines.now < 2 ^ 32 }
    requires told { Told lines.now }
    ensures keeps { (setting : Setting) (count : ℕ) → HasClocks header.now setting
        → Timely (history_of lines.now) → Numbered count (history_of lines.now)
        → vec_len agreement.old.trips + (length lines.now - from) ≤ vec_capacity agreement.old.trips
        → (AllKept premises → AgreementIs count (history_of (take from lines.now)) agreement.old)
        → SettledAt header.now agreement.old.settled agreement.old.nodes.items
        → PartHolds premises setting Agreeing (history_of (take from lines.now))
        → MatchBool result (PartHolds premises setting Agreeing (history_of lines.now))
        (PartHolds premises setting Agreeing (history_of lines.now) → ⊥) }
    ensures agreement { (count : ℕ) → AllKept premises → result ≡ true
        → vec_len agreement.old.trips + (length lines.now - from) ≤ vec_capacity agreement.old.trips
        → AgreementIs count (history_of (take from lines.now)) agreement.old
        → AgreementIs count (history_of lines.now) agreement.new }
    ensures settled { result ≡ true
        → SettledAt header.now agreement.old.settled agreement.old.nodes.items
        → SettledAt header.now agreement.new.settled agreement.new.nodes.items }
{
    if premises.all_kept() {
        agreement.keeps_agreeing(header, lines, from)
    } else {
        true
    }
}

ghost use Rattle.tsp_audit.specs.Judged.{JudgesParts};
ghost use Rattle.tsp_audit.specs.Remembered.{HasLineRoom, RememberedStands};
ghost use Rattle.tsp_audit.specs.Parts.{AllKeep};

/// The number of the least part that fails of all lines, where all parts hold of those before
/// `from`; none where all hold. The notes are those of the lines before `from`, with room for the
/// others, and where all hold then those of all.
pub(crate) fn judge(
    header: &Header,
    premises: Premises,
    lines: &[HistoryLine],
    from: usize,
    notes: &mut Remembered,
) -> Option<u32>
    requires from { from ≤ length lines.now }
    requires few { length lines.now < 2 ^ 32 }
    requires told { Told lines.now }
    ensures judges { (setting : Setting) → HasClocks header.now setting
        → Timely (history_of lines.now)
        → Numbered (length header.now.nodes) (history_of lines.now)
        → HasLineRoom (length lines.now - from) notes.old
        → RememberedStands premises header.now (history_of (take from lines.now)) notes.old
        → AllKeep premises setting (history_of (take from lines.now))
        → JudgesParts premises setting (history_of lines.now) result }
    ensures notes { result ≡ None → HasLineRoom (length lines.now - from) notes.old
        → RememberedStands premises header.now (history_of (take from lines.now)) notes.old
        → RememberedStands premises header.now (history_of lines.now) notes.new }
{
    if !keeps_backing(lines, from) {
        return Some(12);
    }
    if !keeps_leading(lines, from) {
        return Some(13);
    }
    if !keeps_acting(header, premises, lines, from, &mut notes.acted) {
        return Some(14);
    }
    if !keeps_measuring_if(header, premises, lines, from) {
        return Some(15);
    }
    if !keeps_agreeing_if(header, premises, lines, from, &mut notes.agreement) {
        return Some(16);
    }
    None
}
