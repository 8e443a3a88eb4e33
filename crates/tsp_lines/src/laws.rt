//! Theorems about the answer to an input. Nothing here runs in the program.
ghost use Rattle.std.specs.Prelude.{◌≡◌, ◌*◌, ℕ, List};
ghost use Rattle.tsp_lines.specs.Answers.{IsAnswer};
ghost use Rattle.tsp_lines.specs.Definite.{IsDefinite};
ghost use Rattle.tsp_lines.specs.declared.treat.Outcome.{Outcome};
ghost use Rattle.tsp_lines.specs.declared.limits.TheConstants.{MOST_INPUT};

use crate::treatment::Treatment;

/// An input has at most one answer: one outcome and one output.
pub fn one_answer<T: Treatment>()
    ensures { IsDefinite T.meaning → (limit : ℕ) (octets : List ℕ) (outcome another : Outcome)
        (output other : List ℕ) → IsAnswer T.meaning limit octets outcome output
        → IsAnswer T.meaning limit octets another other → (outcome ≡ another) × (output ≡ other) }
{}

/// An input has at most 64 MiB.
pub fn most_input()
    ensures { MOST_INPUT ≡ 64 * 1024 * 1024 }
{}
