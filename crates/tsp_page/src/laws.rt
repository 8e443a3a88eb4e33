//! Theorems about the page. Nothing here runs.
ghost use Rattle.std.specs.Prelude.{◌≡◌, ℕ, ◌≤◌, ◌≤ℤ◌, false, List, ◌∷◌};
ghost use Rattle.std.specs.Int.{int_max};
ghost use Rattle.tsp_base.specs.History.{Did, Past, plain};
ghost use Rattle.tsp_base.specs.NodeFacts.{target, shown};
ghost use Rattle.tsp_clock.specs.ClockStands.{ClockStands};
ghost use Rattle.tsp_clock.specs.Clocks.{ClockValue, target_of};
ghost use Rattle.tsp_page.specs.Formula.{target_at, clock_shown_at, shown_at};
ghost use Rattle.tsp_page.specs.Halves.{daemon_octets, daemon_half_of, IsDaemonHalf};
ghost use Rattle.tsp_page.specs.Halves.{look_octets, look_half_of, IsLookHalf};
ghost use Rattle.tsp_page.specs.Pages.{shown_when, Written, KeepsOn, IsBefore, last_half};
ghost use Rattle.tsp_page.specs.Pasts.{TellsOf, changes_clock};
ghost use Rattle.tsp_page.specs.Sound.{IsSoundCount};
ghost use Rattle.tsp_page.specs.declared.daemon_half.DaemonHalf.{DaemonHalf};
ghost use Rattle.tsp_page.specs.declared.look_half.LookHalf.{LookHalf};

/// What is written of a half is read back as that half.
#[tactic(auto, using(crate::proofs::ReadBack::daemon_back, crate::proofs::ReadBack::look_back))]
pub fn octets_are_read_back()
    ensures daemon { (h : DaemonHalf) → IsDaemonHalf h → daemon_half_of (daemon_octets h) ≡ h }
    ensures look { (h : LookHalf) → IsLookHalf h → look_half_of (look_octets h) ≡ h }
{}

/// A half that has the clock of a node gives its target and its shown value at each tick, until the clock is corrected;
/// the page shows the greater of that value and the half's least. A deed that is neither a boot nor a correction changes
/// nothing of it, and a node's clock gives such a half.
#[tactic(auto, using(crate::proofs::PastLemmas::target_told, crate::proofs::PastLemmas::shown_told, crate::proofs::PastLemmas::told_on, crate::proofs::PastLemmas::told_by_clock))]
pub fn halves_tell_of_pasts()
    ensures target { (ds : List Did) (h : DaemonHalf) (x : ℕ) → TellsOf ds h
        → target_at h x ≡ target ds x }
    ensures clock { (ds : List Did) (h : DaemonHalf) (x : ℕ) → TellsOf ds h
        → clock_shown_at h x ≡ shown ds x }
    ensures page { (ds : List Did) (h : DaemonHalf) (x : ℕ) → TellsOf ds h
        → shown_at h x ≡ int_max h.least (shown ds x) }
    ensures stays { (d : Did) (ds : List Did) (h : DaemonHalf) → TellsOf ds h
        → changes_clock d.deed ≡ false → TellsOf (d ∷ ds) h }
    ensures begins { (past : Past) (c : ClockValue) (h : DaemonHalf) → ClockStands past c
        → h.tick ≡ c.at → h.target ≡ target_of c c.at → h.rest ≡ c.rest
        → TellsOf (plain past.seen) h }
{}

/// Of two reads, one after the other, the later one shows no less, within a life but at a step: the first one reads a half
/// at a moment no later than that at which the next one was written, and the second one reads that half or a later one.
#[tactic(auto, using(crate::proofs::Rising::reads_rise))]
pub fn reads_dont_fall()
    ensures { (h : DaemonHalf) (ws : List Written) → IsSoundCount h → KeepsOn h ws → (n m : ℕ)
        → n ≤ m → IsBefore n ws → shown_when h n ≤ℤ shown_when (last_half h ws) m }
{}
