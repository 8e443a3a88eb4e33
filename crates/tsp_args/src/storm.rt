//! The arguments of `storm`.
ghost use Rattle.std.specs.Prelude.{◌≡◌, ◌^◌, ◌<◌, ◌≤◌, ℕ, IfSome, Some, map, string_bytes, decimal};
ghost use Rattle.tsp_args.specs.Storms.{storm_words, IsStorm};
ghost use Rattle.tsp_args.specs.declared.storm.StormWords.{StormWords};

use tsp_script::numbers::number_of;

/// What follows `storm`.
#[derive(Clone, Copy, PartialEq, Eq, Debug)]
pub struct StormWords {
    /// The number that the schedule is computed from.
    pub seed: u64,
    /// How many nodes, 1 to 64.
    pub nodes: u32,
    /// How many events, 1 to 200,000.
    pub events: u32,
}

/// A count from 1 to this one.
fn count_of(word: &str, most: u32) -> Option<u32>
    ensures found { IfSome result (λ n. (1 ≤ n) × (n ≤ most) × (word.now ≡ decimal n)) }
    ensures reads { (n : ℕ) → 1 ≤ n → n ≤ most → word.now ≡ decimal n → result ≡ Some n }
{
    let number = number_of(word.as_bytes())?;
    if number == 0 || number > most as u64 {
        return None;
    }
    u32::try_from(number).ok()
}

/// The numbers of seed, nodes and events; None exactly where the arguments aren't three such numbers.
pub(crate) fn storm_of(words: &[String]) -> Option<StormWords>
    ensures found { IfSome result (λ s. IsStorm s × (map string_bytes words.now ≡ storm_words s)) }
    ensures reads { (s : StormWords) → IsStorm s → map string_bytes words.now ≡ storm_words s
        → result ≡ Some s }
{
    match words {
        [seed, nodes, events] => {
            let seed = number_of(seed.as_bytes())?;
            let nodes = count_of(nodes.as_str(), 64)?;
            let events = count_of(events.as_str(), 200_000)?;
            Some(StormWords {
                seed,
                nodes,
                events,
            })
        }
        _ => None,
    }
}
