//! Theorems about the interval. Nothing here runs.
ghost use Rattle.std.specs.Prelude.{◌≡◌, ◌≢◌, ◌⊎◌, ◌≤◌, ℕ, ◌+◌, ◌-◌, ◌*◌, ◌/◌, ℤ, pos, ◌+ℤ◌, ◌≤ℤ◌, true, false, List, [], ◌∷◌};
ghost use Rattle.tsp_base.specs.History.{Acts, Did, Line, dids, of, view};
ghost use Rattle.tsp_base.specs.Messages.{MessageValue};
ghost use Rattle.tsp_base.specs.NodeFacts.{all_corrects, last_correct, lives, up};
ghost use Rattle.tsp_base.specs.Places.{Within};
ghost use Rattle.tsp_base.specs.PortFacts.{kept_name, role};
ghost use Rattle.tsp_base.specs.Takings.{TakesFrom};
ghost use Rattle.tsp_base.specs.declared.act.Act.TheVariants.{Correct};
ghost use Rattle.tsp_page.specs.Formula.{clock_shown_at, shown_at};
ghost use Rattle.tsp_page.specs.Pasts.{TellsOf};
ghost use Rattle.tsp_page.specs.declared.daemon_half.DaemonHalf.{DaemonHalf};
ghost use Rattle.tsp_page.specs.declared.look_half.LookHalf.{LookHalf};
ghost use Rattle.tsp_page.specs.declared.rank.Rank.TheVariants.{Leads};
ghost use Rattle.tsp_page_laws.specs.Looks.{SaysClock, SaysLook, LiesWithin};
ghost use Rattle.tsp_page_laws.specs.Named.{LeadsAfter};
ghost use Rattle.tsp_page_laws.specs.Pages.{half_of, glance_of};
ghost use Rattle.tsp_promises.specs.Agreed.{Unchanged};
ghost use Rattle.tsp_promises.specs.Fits.{Fits, node_of};
ghost use Rattle.tsp_promises.specs.Setting.{Setting};
ghost use Rattle.tsp_rules.specs.Values.{Post, Message, Msite, PeerId, Stranger, Follow, Master};

/// The master's clock lies in the interval that a reader gets, until it is corrected: of a host that has looked at it, and
/// of one that leads, which is the master. What the own clock was corrected by since the look doesn't matter, nor how long
/// ago the look was.
pub fn masters_lie_within()
    ensures looked { (setting : Setting) (k m t : ℕ) (h : List Line) (d : DaemonHalf) (l : LookHalf)
        → Fits setting h → SaysClock k h d → SaysLook setting k m h t l → d.rank ≢ Leads
        → LiesWithin setting k m h t d l }
    ensures leads { (setting : Setting) (k t : ℕ) (h : List Line) (d : DaemonHalf) (l : LookHalf)
        → Fits setting h → SaysClock k h d → d.rank ≡ Leads → LiesWithin setting k k h t d l }
{}

/// What a page shows is no less than what the clock does. After a correction that is slewed it is more by no more than a
/// microsecond, and twice the two-hundredths of the ticks that passed from the correction to the moment when the page was
/// written: its least is what the page before it showed then.
pub fn pages_show_clocks()
    ensures above { (h : DaemonHalf) (x : ℕ) → clock_shown_at h x ≤ℤ shown_at h x }
    ensures near { (ds : List Did) (d : Did) (amount value : ℤ) (old new : DaemonHalf) (w x : ℕ)
        → d.deed ≡ Acts (Correct amount false value) → last_correct ds ≤ d.tick → d.tick ≤ w → w ≤ x
        → TellsOf ds old → TellsOf (d ∷ ds) new → new.least ≤ℤ clock_shown_at old w
        → shown_at new x ≤ℤ (clock_shown_at new x +ℤ pos (2 * ((w - d.tick) / 200) + 1)) }
{}

/// Each node that has booted can have such a page after any history, so the law above speaks of all of them.
pub fn pages_can_say_so()
    ensures clock { (k : ℕ) (h : List Line) → up (dids (of k h)) ≡ true
        → SaysClock k h (half_of k h) }
    ensures look { (setting : Setting) (k m t : ℕ) (h : List Line)
        → SaysLook setting k m h t (glance_of setting k m h t) }
{}

/// Stamps of a node that leads at most 299 seconds later are of the life in which it leads, since a node leads no sooner
/// than `ELECT_MIN` after its boot. So its clock was left alone since, if it wasn't corrected and didn't boot later. And a
/// node that answers a stranger's MSITE with its own name leads, or follows a master that it knows by the same name.
pub fn leaders_stamps_are_of_their_life()
    ensures life { (setting : Setting) (m : ℕ) (stamp : Line) (older named : List Line)
        → Fits setting named → LeadsAfter m stamp older named
        → lives (dids (of m (stamp ∷ older))) ≡ lives (dids (of m named)) }
    ensures alone { (setting : Setting) (m : ℕ) (stamp : Line) (older named h : List Line)
        → Fits setting h → Within named h → LeadsAfter m stamp older named
        → lives (dids (of m named)) ≡ lives (dids (of m h))
        → all_corrects (dids (of m (stamp ∷ older))) ≡ all_corrects (dids (of m h))
        → Unchanged m (stamp ∷ older) h }
    ensures names { (setting : Setting) (l : Line) (world : List Line) (answer asked : MessageValue)
        → Fits setting (l ∷ world) → l.did.deed ≡ Acts (Post Stranger (Message answer))
        → TakesFrom (view l.port (of (node_of l) world)) Stranger (Message asked)
        → asked.kind ≡ Msite → answer.name ≡ setting.name (node_of l) → setting.name (node_of l) ≢ []
        → (role (view l.port (of (node_of l) world)) ≡ Master)
        ⊎ ((p : PeerId) × (role (view l.port (of (node_of l) world)) ≡ Follow p)
        × (kept_name (view l.port (of (node_of l) world)) ≡ setting.name (node_of l))) }
{}
