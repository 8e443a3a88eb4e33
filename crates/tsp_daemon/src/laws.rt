//! What is true of every daemon: laws, which do nothing.
ghost use Rattle.std.specs.Prelude.{◌≡◌, ℕ, ◌<◌, ◌^◌, ◌≤◌, ℤ, ◌≤ℤ◌, Bool, List, Option, Some};
ghost use Rattle.tsp_args.specs.declared.serve.ServeWords.{ServeWords};
ghost use Rattle.tsp_daemon.specs.Kept.{SetByWords};
ghost use Rattle.tsp_base.specs.History.{dids};
ghost use Rattle.tsp_daemon.specs.Pages.{Page, half_in_turn, page_from, sheet_after, sheet_begun};
ghost use Rattle.tsp_daemon.specs.Pages.{steps_in};
ghost use Rattle.tsp_daemon.specs.Sessions.{Session, after_turns};
ghost use Rattle.tsp_io.specs.Boards.{Mark};
ghost use Rattle.tsp_io.specs.declared.origin.Origin.{Origin};
ghost use Rattle.tsp_page.specs.Formula.{shown_at, tick_at};
ghost use Rattle.tsp_page.specs.Pages.{Keeps, whole_tick};
ghost use Rattle.tsp_page.specs.Pasts.{TellsOf};
ghost use Rattle.tsp_page.specs.Sound.{IsSoundCount};
ghost use Rattle.tsp_page.specs.declared.daemon_half.DaemonHalf.{DaemonHalf};
ghost use Rattle.tsp_promises.specs.Setting.{Setting};
ghost use Rattle.tsp_rules.specs.NodeRows.{NodePast};
ghost use Rattle.tsp_rules.specs.Values.{Placed};

/// Whatever a daemon's arguments are, and its tick and wall clock at its boot: there is a setting for
/// its history, so what is proved for each setting says something.
pub fn each_daemon_is_set()
    ensures { (s : ServeWords) (tick : ℕ) (wall : ℤ) → (setting : Setting)
        × SetByWords s tick wall setting }
{}

/// After each turn of a session, what stands on its page has the clock of its node's past: so target and
/// shown value that a reader gets are those of the past, until the next turn that writes.
#[tactic(auto, using(crate::proofs::PagePasts::page_tells))]
pub fn pages_tell_of_pasts()
    ensures { (delay n x : ℕ) (s : Session) (boarded : Bool) (origin : Option Origin)
        (views : List Mark) (page : Page)
        → (sheet_after delay n s (sheet_begun (page_from boarded origin s.past x) origin views)).page
        ≡ Some page → TellsOf (dids (after_turns n s).past.lines) page.half }
{}

/// A half that is written in a turn shows no less, from some tick on, than the half before it showed at
/// that tick or before it, if that is no later than the moment at which it was written; unless the turn
/// steps the clock. So what a daemon writes keeps on as `reads_dont_fall` of `tsp_page` wants it, if the
/// half before it counted no more, at the nanosecond that was read meanwhile, than that moment: also where
/// the rate changes.
#[tactic(auto, using(crate::proofs::PagePasts::half_rises, crate::proofs::PagePasts::half_keeps))]
pub fn pages_dont_fall()
    ensures rises { (past : NodePast) (acts : List Placed) (x moment : ℕ) (tuned : Option Origin)
        (p : Page) (h : DaemonHalf) → half_in_turn past acts x moment tuned p ≡ Some h
        → steps_in acts ≡ 0 → (a b : ℕ) → a ≤ moment → a ≤ b
        → shown_at p.half a ≤ℤ shown_at h b }
    ensures keeps { (past : NodePast) (acts : List Placed) (x moment n : ℕ)
        (tuned : Option Origin) (p : Page) (h : DaemonHalf)
        → half_in_turn past acts x moment tuned p ≡ Some h → steps_in acts ≡ 0
        → p.half.steps < 2 ^ 64 → IsSoundCount h → whole_tick (tick_at p.half n) ≤ moment
        → Keeps p.half (record { half = h; at = n }) }
{}
