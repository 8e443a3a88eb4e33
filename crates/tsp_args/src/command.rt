//! The commands of the program.
ghost use Rattle.std.specs.Prelude.{◌≡◌, ◌≢◌, [], ◌∷◌, codes, IfOk, IfSome, Some, MatchOption, map, string_bytes};
ghost use Rattle.tsp_args.specs.Commands.{words_of, IsCommand, IsNoCommand};
ghost use Rattle.tsp_args.specs.declared.command.Command.{Command};

use crate::addrs::addr_of;
use crate::query::{Query, query_of};
use crate::serve::{ServeWords, serve_of};
use crate::storm::{StormWords, storm_of};
use std::alloc::{AllocError, Global};
use tsp_io::addr::Addr;

/// What the program is asked to do.
#[derive(Drop)]
pub enum Command {
    /// Reads a schedule, and writes every act of its run.
    Replay,
    /// Reads hexadecimal, and writes each datagram's line.
    Show,
    /// Reads the lines of datagrams, and writes their hexadecimal.
    Pack,
    /// Runs a daemon.
    Serve(ServeWords),
    /// Asks the daemon at an address.
    Ask(Addr, Query),
    /// Makes a schedule and runs it.
    Storm(StormWords),
    /// Reads records of exchanged timestamps, and averages them.
    Icmp,
    /// Reads a schedule and the trace that some program claims for it, and judges the trace.
    Audit,
}

/// The command of an argument that nothing follows.
fn lone_command(word: &str) -> Option<Command>
    ensures found { IfSome result (λ c. IsCommand c × (word.now ∷ [] ≡ words_of c)) }
    ensures reads { (c : Command) → word.now ∷ [] ≡ words_of c → result ≡ Some c }
{
    match word {
        "replay" => Some(Command::Replay),
        "show" => Some(Command::Show),
        "pack" => Some(Command::Pack),
        "icmp" => Some(Command::Icmp),
        "audit" => Some(Command::Audit),
        _ => None,
    }
}

/// The command of an argument and what follows it, where it is neither `serve` nor `storm`.
fn other_command(word: &str, rest: &[String]) -> Option<Command>
    requires serve { word.now ≢ codes "serve" }
    requires storm { word.now ≢ codes "storm" }
    ensures found { IfSome result (λ c. IsCommand c
        × (word.now ∷ map string_bytes rest.now ≡ words_of c)) }
    ensures reads { (c : Command) → IsCommand c → word.now ∷ map string_bytes rest.now ≡ words_of c
        → result ≡ Some c }
{
    match rest {
        [] => lone_command(word),
        [addr, rest @ ..] => {
            let addr = addr_of(addr.as_bytes())?;
            let query = query_of(word, rest)?;
            Some(Command::Ask(addr, query))
        }
    }
}

/// The command of the arguments after the program's name; None exactly where they aren't a command.
///
/// Fails only if out of memory.
pub fn command_of(alloc: Global, words: &[String]) -> Result<Option<Command>, AllocError>
    ensures reads { IfOk result (λ r. MatchOption r (IsNoCommand (map string_bytes words.now))
        (λ c. IsCommand c × (map string_bytes words.now ≡ words_of c))) }
    ensures one { (c : Command) → IsCommand c → map string_bytes words.now ≡ words_of c
        → IfOk result (λ r. r ≡ Some c) }
{
    let Some((first, rest)) = words.split_first() else {
        return Ok(None);
    };
    match first.as_str() {
        "serve" => Ok(serve_of(alloc, rest)?.map(Command::Serve)),
        "storm" => Ok(storm_of(rest).map(Command::Storm)),
        word => Ok(other_command(word, rest)),
    }
}
