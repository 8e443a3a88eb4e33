//! A daemon's counter and its rate, as the environment names them.
ghost use Rattle.std.specs.Prelude.{◌≡◌, ℤ, IfSome, IsSomeAnd, Some};
ghost use Rattle.std.specs.Fmt.{signed_decimal};
ghost use Rattle.tsp_io.specs.declared.counter.Counter.{Counter};
ghost use Rattle.tsp_cli.specs.Rates.{IsRate, IsRateOf, counter_word};

use std::alloc::AllocError;
use std::env;
use std::env::VarError;
use std::rt::Env;
use tsp_io::counter::Counter;
use tsp_io::rate::Rate;
use tsp_script::numbers::signed_of;

/// The rate that a text names: how many parts in 10^9 it is above the machine's, as a whole number
/// from -1,000,000 to 1,000,000. None exactly where the text is no such number.
fn rate_in(word: &[u8]) -> Option<Rate>
    ensures found { IfSome result (λ rate. (parts : ℤ) × IsRate parts
        × (word.now ≡ signed_decimal parts) × IsRateOf parts rate) }
    ensures reads { (parts : ℤ) → IsRate parts → word.now ≡ signed_decimal parts
        → IsSomeAnd result (IsRateOf parts) }
{
    Rate::of(signed_of(word)?)
}

/// The rate that the environment names in TSP_RATE: the machine's own if it names none; None if
/// that is no rate. Fails only if out of memory.
pub fn rate_of(rt: &(impl Env + AllocGlobal)) -> Result<Option<Rate>, AllocError> {
    match env::var(rt, "TSP_RATE") {
        Ok(word) => Ok(rate_in(word.as_bytes())),
        Err(VarError::NotPresent) => Ok(Some(Rate::own())),
        Err(VarError::NotUnicode) => Ok(None),
        Err(VarError::OutOfMemory) => Err(AllocError),
    }
}

/// The counter that a text names: `raw` or `monotonic`. None exactly where it is another text.
fn counter_in(word: &[u8]) -> Option<Counter>
    ensures found { IfSome result (λ counter. word.now ≡ counter_word counter) }
    ensures reads { (counter : Counter) → word.now ≡ counter_word counter
        → result ≡ Some counter }
{
    if word == b"raw".as_slice() {
        return Some(Counter::Raw);
    }
    if word == b"monotonic".as_slice() {
        return Some(Counter::Monotonic);
    }
    None
}

/// The counter that the environment names in TSP_COUNTER: the raw one if it names none; None if that
/// is no counter. Fails only if out of memory.
pub fn counter_of(rt: &(impl Env + AllocGlobal)) -> Result<Option<Counter>, AllocError> {
    match env::var(rt, "TSP_COUNTER") {
        Ok(word) => Ok(counter_in(word.as_bytes())),
        Err(VarError::NotPresent) => Ok(Some(Counter::Raw)),
        Err(VarError::NotUnicode) => Ok(None),
        Err(VarError::OutOfMemory) => Err(AllocError),
    }
}
