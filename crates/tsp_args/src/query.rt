//! The questions to a daemon.
ghost use Rattle.std.specs.Prelude.{◌≡◌, ℤ, Bool, IfSome, Some, map, string_bytes, negsuc, ◌≤ℤ◌, [], ◌∷◌};
ghost use Rattle.std.specs.Fmt.{signed_decimal};
ghost use Rattle.tsp_base.specs.Times.{IsMicros};
ghost use Rattle.tsp_args.specs.Queries.{query_word, query_rest, switch_word, IsQuery};
ghost use Rattle.tsp_args.specs.declared.query.Query.{Query};

use tsp_base::constants::LIMIT;
use tsp_base::micros::Micros;
use tsp_script::numbers::signed_of;

/// What is asked of a daemon.
#[derive(Clone, Copy, PartialEq, Eq, Debug)]
pub enum Query {
    /// Who is master.
    Msite,
    /// How far the daemon's clock is from this machine's.
    ClockDiff,
    /// To turn its trace on (true) or off.
    Trace(bool),
    /// To stand for election where it may. The answer says only that it has heard.
    Election,
    /// To set the network's date: a time value strictly between -2^31 and 2^31 seconds.
    Date(Micros),
}

/// Whether the argument is `on`; None where it is neither `on` nor `off`.
fn switch_of(word: &str) -> Option<bool>
    ensures found { IfSome result (λ on. word.now ≡ switch_word on) }
    ensures reads { (on : Bool) → word.now ≡ switch_word on → result ≡ Some on }
{
    match word {
        "on" => Some(true),
        "off" => Some(false),
        _ => None,
    }
}

/// The date of an argument, in microseconds; None where it is out of its range or no number.
fn date_of(word: &str) -> Option<Micros>
    ensures found { IfSome result (λ t. IsQuery (Query.Date t) × (word.now ≡ signed_decimal t)) }
    ensures reads { (t : ℤ) → IsQuery (Query.Date t) → word.now ≡ signed_decimal t
        → result ≡ Some t }
{
    let time = Micros::of(signed_of(word.as_bytes())?)?;
    if time.get() <= -LIMIT {
        return None;
    }
    Some(time)
}

/// The question of an argument after which comes the address and nothing else.
fn plain_query(word: &str) -> Option<Query>
    ensures found { IfSome result (λ q. IsQuery q × (word.now ≡ query_word q)
        × (query_rest q ≡ [])) }
    ensures reads { (q : Query) → word.now ≡ query_word q → query_rest q ≡ [] → result ≡ Some q }
{
    match word {
        "msite" => Some(Query::Msite),
        "clockdiff" => Some(Query::ClockDiff),
        "election" => Some(Query::Election),
        _ => None,
    }
}

/// The question of an argument after which come the address and one value.
fn query_with(word: &str, value: &str) -> Option<Query>
    ensures found { IfSome result (λ q. IsQuery q × (word.now ≡ query_word q)
        × (query_rest q ≡ value.now ∷ [])) }
    ensures reads { (q : Query) → IsQuery q → word.now ≡ query_word q
        → query_rest q ≡ value.now ∷ [] → result ≡ Some q }
{
    match word {
        "trace" => Some(Query::Trace(switch_of(value)?)),
        "date" => Some(Query::Date(date_of(value)?)),
        _ => None,
    }
}

/// The question of this argument and of what follows the address; None exactly where there is none.
pub(crate) fn query_of(word: &str, rest: &[String]) -> Option<Query>
    ensures found { IfSome result (λ q. IsQuery q × (word.now ≡ query_word q)
        × (map string_bytes rest.now ≡ query_rest q)) }
    ensures reads { (q : Query) → IsQuery q → word.now ≡ query_word q
        → map string_bytes rest.now ≡ query_rest q → result ≡ Some q }
{
    match rest {
        [] => plain_query(word),
        [value] => query_with(word, value.as_str()),
        _ => None,
    }
}
