//! Theorems about every history that fits, and about the runs of nodes that are looked at in time.
//! Nothing here runs.
ghost use Rattle.std.specs.Prelude.{ℕ, List, ◌≡◌, true, false, ◌≤◌};
ghost use Rattle.tsp_base.specs.History.{Line};
ghost use Rattle.tsp_progress.specs.AlarmsFit.{Manner};
ghost use Rattle.tsp_progress.specs.AloneLeads.{AloneLeads};
ghost use Rattle.tsp_progress.specs.AloneStands.{AloneStands};
ghost use Rattle.tsp_progress.specs.FreshLeads.{FreshLeads};
ghost use Rattle.tsp_progress.specs.InTime.{AllInTime, EndsInTime};
ghost use Rattle.tsp_progress.specs.LoneLeads.{Led, Lone, LoneLeads};
ghost use Rattle.tsp_progress.specs.Needed.{Needed};
ghost use Rattle.tsp_progress.specs.NeverLate.{NeverLate};
ghost use Rattle.tsp_progress.specs.OneMay.{OneLeads, OneLeadsRun};
ghost use Rattle.tsp_progress.specs.OneUse.{OneUse};
ghost use Rattle.tsp_progress.specs.Progress.{ClockedRunsProgress, RunsProgress};
ghost use Rattle.tsp_progress.specs.RoundsRecur.{RoundsRecur};
ghost use Rattle.tsp_progress.specs.RunsWake.{ClockedRunsWake, RunsWake};
ghost use Rattle.tsp_progress.specs.SendsEnd.{SendsEnd, SendsEnded};
ghost use Rattle.tsp_progress.specs.Stands.{Stands};
ghost use Rattle.tsp_progress.specs.Wakes.{AllWake, Woken};
ghost use Rattle.tsp_progress.specs.Watched.{Attended, Told};
ghost use Rattle.tsp_progress.specs.Worked.{LateUse, PromptUse, SlowUse};
ghost use Rattle.tsp_promises.specs.Fits.{Fits};
ghost use Rattle.tsp_promises.specs.Setting.{Setting};
ghost use Rattle.tsp_rules.specs.Values.{SLACK};

/// No send is open longer than `TRIES` times `RETRY`, 3 s, and `late`: by then it was acknowledged,
/// given up or replaced, or its port changed its role, or its node booted.
#[tactic(auto, using(crate::proofs::SendsEndProof::sends_end))]
pub fn sends_end()
    ensures { (setting : Setting) (late : ℕ) (world : List Line) → Fits setting world
        → Attended late world → SendsEnd late world }
{}

/// The same at a node after the whole history, where that is told up to a true time.
#[tactic(auto, using(crate::proofs::SendsEndProof::sends_ended))]
pub fn sends_ended()
    ensures { (setting : Setting) (late t n : ℕ) (world : List Line) → Fits setting world
        → Told late setting t n world → SendsEnded late setting t n world }
{}

/// In the history of every schedule each port has an alarm armed that ends its role or lets it go
/// on, wherever a step of its node begins, and at the end; and each act on an alarm came in its
/// time.
#[tactic(auto, using(crate::proofs::RunWakes::runs_wake))]
pub fn runs_wake()
    ensures { RunsWake }
{}

/// So it is of a run by any clocks.
#[tactic(auto, using(crate::proofs::RunWakes::clocked_runs_wake))]
pub fn clocked_runs_wake()
    ensures { ClockedRunsWake }
{}

/// A port that is looked at in time does in time what its role asks for: the quiet time ends, a
/// candidature ends, a round closes, a master begins the next one, resolutions and searches end, a
/// follower that doesn't hear its master gives it up, and a port that is Loose goes on seeking.
pub fn all_in_time()
    ensures { (m : ℕ → Manner) (late : ℕ) (world : List Line) → Woken m world
        → Attended late world → AllInTime late world }
{}

/// The same at a node after the whole history, where that is told up to a true time.
pub fn ends_in_time()
    ensures { (m : ℕ → Manner) (late : ℕ) (setting : Setting) (t n : ℕ) (world : List Line)
        → AllWake m world → Told late setting t n world → EndsInTime late setting t n world }
{}

/// Where each node is looked at at most `SLACK` ticks, 1 s, after its alarms are due, none is
/// handled late.
pub fn never_late()
    ensures { (m : ℕ → Manner) (setting : Setting) (late : ℕ) (world : List Line)
        → Fits setting world → AllWake m world → Attended late world → late ≤ SLACK
        → NeverLate world }
{}

/// A master that is looked at within `SLACK` won, or began a round, at most `ROUND`, 240 s, and
/// `late` ago; at a gateway it may wait instead for another port's round, since at most `WAIT`, 20
/// s, and `late`.
pub fn rounds_recur()
    ensures { (m : ℕ → Manner) (setting : Setting) (late : ℕ) (world : List Line)
        → Fits setting world → Woken m world → Attended late world → late ≤ SLACK
        → RoundsRecur late world }
{}

/// A small run that is looked at in time, and what happens in it, and when.
pub fn prompt_use()
    ensures { PromptUse }
{}

/// The slowest run to a first lead: the bound of `fresh_leads` can't be lower by two ticks.
pub fn slow_use()
    ensures { SlowUse }
{}

/// Small runs that are looked at one tick too late, and what isn't so of them.
pub fn late_use()
    ensures { LateUse }
{}

/// When Elect rings, a port stands for election at once, if its node may be master and it took no
/// QUIT for `ELECT_MIN` ticks, 300 s: neither its boot nor a backing keeps it from that.
pub fn stands()
    ensures { (m : ℕ → Manner) (setting : Setting) (world : List Line) → Fits setting world
        → AllWake m world → Stands m world }
{}

/// A port of a node that may be master, if it is looked at within `SLACK`, is Loose or follows for
/// at most 1,210 s and four times `late` after its node booted, it took a message of a kind that
/// stirs, or it stood for election: then it stands.
pub fn alone_stands()
    ensures { (m : ℕ → Manner) (setting : Setting) (late : ℕ) (world : List Line)
        → Fits setting world → Woken m world → Attended late world → late ≤ SLACK
        → AloneStands m late world }
{}

/// Where elections aren't strict, it is master at most 1,215 s and five times `late` after its boot
/// or the last message of a kind that stirs.
pub fn alone_leads()
    ensures { (m : ℕ → Manner) (setting : Setting) (late : ℕ) (world : List Line)
        → Fits setting world → Woken m world → Attended late world → late ≤ SLACK
        → AloneLeads m late world }
{}

/// If it has taken no such message since its boot, it is master at most 690 s, 11 and a half
/// minutes, and four times `late` after the boot.
pub fn fresh_leads()
    ensures { (m : ℕ → Manner) (setting : Setting) (late : ℕ) (world : List Line)
        → Fits setting world → Woken m world → Attended late world → late ≤ SLACK
        → FreshLeads m late world }
{}

/// So a node that may be master, to which nobody posts a message of a kind that stirs and no octets
/// come from outside, is master at most 690 s and four times `late` after each of its boots.
pub fn lone_leads()
    ensures { (m : ℕ → Manner) (setting : Setting) (late c : ℕ) (world : List Line)
        → Fits setting world → Woken m world → Attended late world → late ≤ SLACK
        → (m c).may ≡ true → (m c).strict ≡ false → Lone c world → LoneLeads c late world }
{}

/// So it is at the end of a history that is told up to a true time.
pub fn lone_led()
    ensures { (m : ℕ → Manner) (setting : Setting) (late c t : ℕ) (world : List Line)
        → Fits setting world → AllWake m world → Attended late world → late ≤ SLACK
        → (m c).may ≡ true → (m c).strict ≡ false → Lone c world → Told late setting t c world
        → Led c late setting t world }
{}

/// So where one node alone may be master, it is master at most 690 s and four times `late` after
/// each of its boots, in each possible run by any clocks in which nothing seems to come from a peer
/// that it didn't post: a node that may not be master posts nothing that stirs but LOOPs.
pub fn one_leads()
    ensures { OneLeads }
{}

/// So it is in the run of each possible schedule.
pub fn one_leads_run()
    ensures { OneLeadsRun }
{}

/// A run of which all that is asked for holds, and one in which two nodes may be master, of which
/// all else holds: one of them follows, and doesn't lead.
pub fn one_use()
    ensures { OneUse }
{}

/// All of this holds of the run of each possible schedule in which each node is looked at within
/// `SLACK`, and up to each true time up to which the run is told.
pub fn runs_progress()
    ensures { RunsProgress }
{}

/// So it does of a run by any clocks.
pub fn clocked_runs_progress()
    ensures { ClockedRunsProgress }
{}

/// These premises are needed, by small histories and runs without them, of which a promise isn't so:
/// that what a role asks for is armed, that a send has three posts, that looks come in time, that the
/// node may be master, and that elections aren't strict.
pub fn needed()
    ensures { Needed }
{}
