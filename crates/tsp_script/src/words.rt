//! Words of a line.
ghost use Rattle.std.specs.Prelude.{◌≡◌, ◌≢◌, ℕ, ◌<◌, ◌++◌, ◌∷◌, length, take, Contains, Bool, true, false, MatchBool};
ghost use Rattle.std.specs.Prelude.{MatchOption, slice_index_or, IfSome, IfNone, List};
ghost use Rattle.tsp_script.specs.Words.{before_mark, after_mark, first_word, after_word};

/// The place of the first octet of this value.
pub(crate) fn find_mark(line: &[u8], mark: u8) -> Option<usize>
    ensures { MatchOption result (¬ Contains line.now mark) (λ i. (i < length line.now)
        × ¬ Contains (take i line.now) mark × (slice_index_or line.now i 0 ≡ mark)) }
{
    let mut i = 0;
    for octet in line {
        if *octet == mark {
            return Some(i);
        }
        i += 1;
    }
    None
}

/// What is before the first octet of this value, and what is after it. Where there is no such octet, that is
/// the whole line, and nothing.
pub fn part(line: &[u8], mark: u8) -> (&[u8], &[u8])
    ensures front { result.0.now ≡ before_mark mark line.now }
    ensures rest { result.1.now ≡ after_mark mark line.now }
{
    match find_mark(line, mark) {
        Some(i) => (line.split_at(i).0, line.split_at(i + 1).1),
        None => (line, &[]),
    }
}

/// The first word, and what follows the space after it: nothing where there is no space.
pub fn cut(line: &[u8]) -> (&[u8], &[u8])
    ensures word { result.0.now ≡ first_word line.now }
    ensures rest { result.1.now ≡ after_word line.now }
{
    part(line, b' ')
}

/// The word before the first space, and what follows the space; None where there is no space.
pub(crate) fn front_word(line: &[u8]) -> Option<(&[u8], &[u8])>
    ensures found { IfSome result (λ r. (r.0.now ≡ first_word line.now)
        × (r.1.now ≡ after_word line.now) × (line.now ≡ r.0.now ++ 32 ∷ r.1.now)) }
    ensures none { IfNone result ((word rest : List ℕ) → line.now ≡ word ++ 32 ∷ rest → ⊥) }
{
    let place = find_mark(line, b' ')?;
    Some((line.split_at(place).0, line.split_at(place + 1).1))
}

/// Whether two texts are the same.
#[inline(always)]
pub fn is_same(text: &[u8], other: &[u8]) -> bool
    ensures { MatchBool result (text.now ≡ other.now) (text.now ≡ other.now → ⊥) }
{
    if text == other { true } else { false }
}

/// Whether a word is the first of two, `true`, or the second, `false`; None if it is neither.
pub(crate) fn one_of(word: &[u8], yes: &[u8], no: &[u8]) -> Option<bool>
    requires { yes.now ≢ no.now }
    ensures found { (text : Bool → List ℕ) → text true ≡ yes.now → text false ≡ no.now
        → IfSome result (λ is. word.now ≡ text is) }
    ensures reads { (text : Bool → List ℕ) → text true ≡ yes.now → text false ≡ no.now
        → (is : Bool) → word.now ≡ text is → result ≡ Some is }
{
    if is_same(word, yes) {
        return Some(true);
    }
    if is_same(word, no) { Some(false) } else { None }
}
