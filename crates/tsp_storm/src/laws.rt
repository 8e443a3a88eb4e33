//! Laws of the schedules that come of a number.
ghost use Rattle.std.specs.Prelude.{◌≡◌, List, ℕ};
ghost use Rattle.tsp_storm.specs.Answers.{IsStormAnswer};
ghost use Rattle.tsp_storm.specs.Kept.{StormKept};
ghost use Rattle.tsp_storm.specs.declared.run.StormEnd.{StormEnd};
ghost use Rattle.tsp_args.specs.declared.storm.StormWords.{StormWords};
ghost use Rattle.tsp_args.specs.Storms.{IsStorm};

/// Words have one answer at most.
#[tactic(auto, using(crate::proofs::Ends::one_answer))]
pub fn one_answer_of_words()
    ensures { (s : StormWords) (end other : StormEnd) (text more : List ℕ) → IsStormAnswer s end text
        → IsStormAnswer s other more → (end ≡ other) × (text ≡ more) }
{}

/// The run of each schedule that comes of a number keeps the promises, and all that they ask but for
/// few sends, as far as no event of it is refused.
pub fn storms_keep_promises()
    ensures { (s : StormWords) → IsStorm s → StormKept s }
{}
