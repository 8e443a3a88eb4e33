//! The arguments of `serve`.
ghost use Rattle.std.specs.Prelude.{◌≡◌, ◌≤◌, ℕ, IfOk, IfSome, Some, map, string_bytes, decimal};
ghost use Rattle.tsp_args.specs.Serves.{candidacy_word, serve_words, IsServe};
ghost use Rattle.tsp_args.specs.declared.serve.Candidacy.{Candidacy};
ghost use Rattle.tsp_args.specs.declared.serve.ServeWords.{ServeWords};

use crate::addrs::addr_of;
use crate::ports::{Ports, ports_of};
use std::alloc::{AllocError, Global};
use tsp_base::name::Name;
use tsp_io::addr::Addr;
use tsp_script::head_line::host_of;
use tsp_script::numbers::number_of;

/// Whether a node may be master, and how it is elected.
#[derive(Clone, Copy, PartialEq, Eq, Debug)]
pub enum Candidacy {
    /// It may not: it never stands for election.
    Never,
    /// It may.
    Plain,
    /// It may, and wins only with the votes of a majority of its port's peers.
    Strict,
}

/// What follows `serve`.
#[derive(Drop)]
pub struct ServeWords {
    /// The daemon's own address, which is peer 0 of each of its ports.
    pub local: Addr,
    /// The daemon's name: letters, digits, dots, dashes and underscores.
    pub name: Name,
    /// Whether its node may be master.
    pub candidacy: Candidacy,
    /// How many turns it takes, 1 to 10^9.
    pub turns: u64,
    /// The peers of its ports, at most 999 together.
    pub ports: Ports,
}

/// What the argument says of whether a node may be master.
fn candidacy_of(word: &str) -> Option<Candidacy>
    ensures found { IfSome result (λ c. word.now ≡ candidacy_word c) }
    ensures reads { (c : Candidacy) → word.now ≡ candidacy_word c → result ≡ Some c }
{
    match word {
        "s" => Some(Candidacy::Never),
        "m" => Some(Candidacy::Plain),
        "x" => Some(Candidacy::Strict),
        _ => None,
    }
}

/// The number of turns, 1 to 10^9.
fn turns_of(word: &str) -> Option<u64>
    ensures found { IfSome result (λ n. (1 ≤ n) × (n ≤ 1000000000) × (word.now ≡ decimal n)) }
    ensures reads { (n : ℕ) → 1 ≤ n → n ≤ 1000000000 → word.now ≡ decimal n → result ≡ Some n }
{
    let number = number_of(word.as_bytes())?;
    if number == 0 || number > 1_000_000_000 {
        return None;
    }
    Some(number)
}

/// What the arguments after `serve` say; None exactly where they aren't allowed there.
pub(crate) fn serve_of(alloc: Global, words: &[String]) -> Result<Option<ServeWords>, AllocError>
    ensures found { IfOk result (λ r. IfSome r (λ s. IsServe s
        × (map string_bytes words.now ≡ serve_words s))) }
    ensures reads { (s : ServeWords) → IsServe s → map string_bytes words.now ≡ serve_words s
        → IfOk result (λ r. r ≡ Some s) }
{
    let [local, name, candidacy, turns, peers @ ..] = words else {
        return Ok(None);
    };
    let Some(local) = addr_of(local.as_bytes()) else {
        return Ok(None);
    };
    let Some(name) = host_of(name.as_bytes()) else {
        return Ok(None);
    };
    let Some(candidacy) = candidacy_of(candidacy.as_str()) else {
        return Ok(None);
    };
    let Some(turns) = turns_of(turns.as_str()) else {
        return Ok(None);
    };
    let Some(ports) = ports_of(alloc, local, peers)? else {
        return Ok(None);
    };
    Ok(Some(ServeWords {
        local,
        name,
        candidacy,
        turns,
        ports,
    }))
}
