//! Theorems about the texts of schedules. Nothing here runs.
ghost use Rattle.std.specs.Prelude.{◌≡◌, ℕ, List};
ghost use Rattle.tsp_base.specs.declared.event.Event.{Event};
ghost use Rattle.tsp_base.specs.Headers.{HeaderValue, IsHeader};
ghost use Rattle.tsp_lines.specs.Definite.{IsDefinite};
ghost use Rattle.tsp_replay.specs.Meaning.{IsSchedule, replaying};
ghost use Rattle.tsp_schedule.specs.Schedules.{Progress};
ghost use Rattle.tsp_replay.specs.Schedules.{Reaches};

/// A text is the text of at most one schedule.
pub fn one_schedule_of_a_text()
    ensures { (octets : List ℕ) (header other : HeaderValue) (events others : List Event)
        → IsSchedule octets header events → IsSchedule octets other others
        → (header ≡ other) × (events ≡ others) }
{}

/// The header of a schedule's text has its values in their ranges.
pub fn header_of_a_text()
    ensures { (octets : List ℕ) (header : HeaderValue) (events : List Event)
        → IsSchedule octets header events → IsHeader header }
{}

/// After the same lines, the newest first, a schedule is equally far.
pub fn one_place_of_lines()
    ensures { (lines : List (List ℕ)) (p q : Progress) → Reaches lines p → Reaches lines q → p ≡ q }
{}

/// After any lines of a schedule, at most one thing can come of the next line or of the end.
#[tactic(auto, using(crate::proofs::Definites::definite_replaying))]
pub fn definite_replay()
    ensures { IsDefinite replaying }
{}
