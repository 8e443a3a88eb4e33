//! Theorems about the rules. Nothing here runs.
ghost use Rattle.tsp_alike.specs.AlikeNodes.{AnswersAreAlike, BootsAreAlike};

/// A node's answers don't depend on what its peers are called, nor on when its ticks begin.
pub fn answers_are_alike()
    ensures { AnswersAreAlike }
{}

/// Nor do the acts with which it begins a life.
#[tactic(auto, using(crate::proofs::AlikeLaws::boots_are_alike))]
pub fn boots_are_alike()
    ensures { BootsAreAlike }
{}
