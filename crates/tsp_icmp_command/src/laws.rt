//! Theorems about the averaging of exchanges. Nothing here runs.
ghost use Rattle.std.specs.Prelude.{◌≡◌, ℕ, List};
ghost use Rattle.std.specs.List.{All};
ghost use Rattle.tsp_lines.specs.Definite.{IsDefinite};
ghost use Rattle.tsp_icmp_command.specs.Bests.{BestValue, IsBestDifference, bests};
ghost use Rattle.tsp_icmp_command.specs.Meaning.{averaging};
ghost use Rattle.tsp_icmp_command.specs.Records.{IsExchange, RefusesRecord};
ghost use Rattle.tsp_icmp_command.specs.declared.exchange.Exchange.{Exchange};

/// A line is at most one exchange.
pub fn one_exchange_of_a_line()
    ensures { (line : List ℕ) (a b : Exchange) → IsExchange line a → IsExchange line b → a ≡ b }
{}

/// A line that is an exchange isn't refused.
pub fn an_exchange_is_not_refused()
    ensures { (line cause : List ℕ) (e : Exchange) → IsExchange line e → RefusesRecord line cause
        → ⊥ }
{}

/// After any lines, at most one thing can come of the next line or of the end.
#[tactic(auto, using(crate::proofs::TreatLemmas::IsDefinite_averaging))]
pub fn definite_averaging()
    ensures { IsDefinite averaging }
{}

/// Each clock counts in the group by its difference with the shortest round trip, the first of them.
#[tactic(auto, using(crate::proofs::BestLemmas::bests_are_best))]
pub fn first_of_least_trip()
    ensures { (differences : List BestValue) → All (IsBestDifference differences) (bests differences) }
{}
