//! What is true of every held act: a law, which does nothing.
ghost use Rattle.std.specs.Prelude.{◌≡◌, List, ℕ};
ghost use Rattle.tsp_history.specs.HeldActs.{act_of};
ghost use Rattle.tsp_history.specs.declared.brief.Brief.{Brief};

/// Different briefs are of different acts, whatever the names of their messages are. So an act has one brief,
/// and [`crate::held_act::HeldAct::brief`] gives that.
pub fn one_brief()
    ensures { (a b : Brief) (n m : List ℕ) → act_of a n ≡ act_of b m → a ≡ b }
{}
