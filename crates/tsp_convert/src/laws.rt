//! Theorems about the two conversions. Nothing here runs.
ghost use Rattle.std.specs.Prelude.{◌≡◌, ◌≤◌, ℕ, List, length};
ghost use Rattle.std.specs.List.{All};
ghost use Rattle.tsp_base.specs.declared.datagram.Datagram.{Datagram};
ghost use Rattle.tsp_lines.specs.Answers.{IsAnswer};
ghost use Rattle.tsp_lines.specs.Definite.{IsDefinite};
ghost use Rattle.tsp_lines.specs.Lines.{NoFeed, closed};
ghost use Rattle.tsp_lines.specs.declared.treat.Outcome.{Outcome};
ghost use Rattle.tsp_convert.specs.Shows.{IsHexLineOf, RefusesHex, show_meaning};
ghost use Rattle.tsp_convert.specs.Packs.{IsLineOf, pack_meaning};
ghost use Rattle.tsp_convert.specs.Returns.{IsWritten};

/// A line is at most one datagram's octets in hexadecimal.
pub fn one_datagram_in_hex()
    ensures { (line : List ℕ) (d e : Datagram) → IsHexLineOf line d → IsHexLineOf line e → d ≡ e }
{}

/// `show` doesn't refuse a line that is a datagram's octets in hexadecimal.
pub fn hex_is_not_refused()
    ensures { (line cause : List ℕ) (d : Datagram) → IsHexLineOf line d → RefusesHex line cause → ⊥ }
{}

/// A line is at most one datagram's message line.
pub fn one_datagram_in_words()
    ensures { (line : List ℕ) (d e : Datagram) → IsLineOf line d → IsLineOf line e → d ≡ e }
{}

/// The same lines have one output of `show`.
pub fn one_output_of_show()
    ensures { (lines : List (List ℕ)) (text other : List ℕ) → show_meaning.accepts lines text
        → show_meaning.accepts lines other → text ≡ other }
{}

/// The same lines have one output of `pack`.
pub fn one_output_of_pack()
    ensures { (lines : List (List ℕ)) (text other : List ℕ) → pack_meaning.accepts lines text
        → pack_meaning.accepts lines other → text ≡ other }
{}

/// After any lines, `show` can do at most one thing with the next line or the end.
#[tactic(auto, using(crate::proofs::Conversions::IsDefinite_show))]
pub fn definite_show()
    ensures { IsDefinite show_meaning }
{}

/// After any lines, `pack` can do at most one thing with the next line or the end.
#[tactic(auto, using(crate::proofs::Conversions::IsDefinite_pack))]
pub fn definite_pack()
    ensures { IsDefinite pack_meaning }
{}

/// Octets as they are written, in lower case: `pack` of what `show` gives for them gives them again.
#[tactic(auto, using(crate::proofs::Returns::shown_packs))]
pub fn packs_what_was_shown()
    ensures { (lines : List (List ℕ)) (text : List ℕ) → All IsWritten lines
        → show_meaning.accepts lines text → (back : List (List ℕ)) × All NoFeed back
        × (text ≡ closed back) × pack_meaning.accepts back (closed lines) }
{}

/// The same of whole inputs: where the answer of `show` to such lines, each with its line feed, is `Ok`, the
/// answer of `pack` to the output is `Ok` with these lines.
#[tactic(auto, using(crate::proofs::Returns::answer_shown))]
pub fn answer_to_what_was_shown()
    ensures { (limit : ℕ) (lines : List (List ℕ)) (output : List ℕ) → All NoFeed lines
        → All IsWritten lines → IsAnswer show_meaning limit (closed lines) Outcome.Ok output
        → length output ≤ limit → IsAnswer pack_meaning limit output Outcome.Ok (closed lines) }
{}
