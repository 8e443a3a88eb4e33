//! The program `tsp`, a time service after 4.3BSD's timed: one call, `run`, over standard input, standard
//! output, a UDP socket and the machine's clocks. `run` is where the proofs meet: its clauses `headline` and
//! `so_far` (`specs/Headline.antt`, `docs/HEADLINE.md`) say what a replay has read and written, and its clause
//! `does` (`specs/Commands.antt`) says so of each command.
//!
//! # What is proved
//!
//! In parentheses are the contracts, clauses and definitions that say it.
//!
//! - A replay with status 0 read a schedule of which no event is refused, and wrote exactly the trace of its
//!   run, whose history keeps the promises, and the premises if its text and its trace do (`headline` of
//!   `run`).
//! - A replay that ends otherwise wrote the beginning of such a trace and of one line after it, its status
//!   says how much (`so_far` of `run`).
//! - The status and the output of a command are the answer to its input, unless a counted fault comes or
//!   memory runs out, and valid input of at most 64 MiB has the answer 0.
//! - An audit, a daemon and a question end as theirs do (`does`, by `Does`, with `Runs`, `RunsAudit`,
//!   `RunsDaemon` and `RunsQuery`).
//! - Words are rejected if and only if they form no command (`usage`, `exact`).
//! - What a command doesn't use is unchanged (`untouched`).
//! - A fault of the link has its cause (`link`).
//!
//! # What is only tested
//!
//! - Worked schedules over memory, daemons and questions over a link in memory, the traces of `examples/`,
//!   and one run of the program.
//!
//! # What is neither proved nor tested
//!
//! - `main`, the arguments and the environment that the system hands it, the file that TSP_PAGE names, and
//!   which standard streams are open.
#![tactic(auto)]

mod help;
mod rates;
mod run;
mod status;
mod streams;
#[cfg(test)]
mod tests;

use log::{Log, warn};
use rates::{counter_of, rate_of};
use run::{run, say};
use status::Status;
use std::alloc::AllocError;
use std::env::VarError;
use std::fs::{File, OpenOptions};
use std::io::ErrorKind;
use std::process::ExitCode;
use std::rt::Env;
use std::{env, io};
use streams::is_closed;
use tsp_io::clock::MachineTicker;
use tsp_io::coarse::Coarse;
use tsp_io::counter::Counter;
use tsp_io::file_board::FileBoard;
use tsp_io::machine::{Reading, Writing};
use tsp_io::paged::Paged;
use tsp_io::rate::Rate;
use tsp_io::udp::UdpLink;
use tsp_io::unslewed::Unslewed;

/// The arguments after the program's name; none if one of them isn't UTF-8. Fails only if out of
/// memory.
fn words_of(rt: &(impl Env + AllocGlobal)) -> Result<Vec<String>, AllocError> {
    let alloc = rt.alloc();
    match env::args(rt) {
        Ok(args) => args.skip(1).collect(alloc),
        Err(fault) if fault.kind() == ErrorKind::OutOfMemory => Err(AllocError),
        Err(_) => Ok(Vec::new(alloc)),
    }
}

/// The first standard stream that is closed, by its name, and the status with which the program
/// ends then; None if all three are open.
fn closed_stream(rt: HostRuntime) -> Option<(&'static str, Status)> {
    if is_closed(&rt.stdin()) {
        return Some(("standard input", Status::ReadFault));
    }
    if is_closed(&rt.stdout()) {
        return Some(("standard output", Status::WriteFault));
    }
    if is_closed(&rt.stderr()) {
        return Some(("standard error", Status::WriteFault));
    }
    None
}

/// By which of the machine's counters a command counts its ticks, at which rate, and on which board.
struct Clocks {
    counter: Counter,
    rate: Rate,
    board: Option<FileBoard<File>>,
}

/// Why the environment says nothing usable of them.
#[derive(Clone, Copy)]
enum Unusable {
    /// TSP_RATE is no rate.
    Rate,
    /// TSP_COUNTER is no counter.
    Counter,
    /// Out of memory.
    Memory,
}

/// What an environment's variable names; else why it isn't usable.
fn named<A: Drop>(read: Result<Option<A>, AllocError>, none: Unusable) -> Result<A, Unusable> {
    match read {
        Ok(Some(named)) => Ok(named),
        Ok(None) => Err(none),
        Err(_) => Err(Unusable::Memory),
    }
}

/// The file at this path as a board; None, and a line in the log, if it can't be opened.
fn board_at(rt: HostRuntime, path: &str) -> Option<FileBoard<File>> {
    let mut options = OpenOptions::new();
    options.read(true).write(true);
    match options.open(&rt, path) {
        Ok(file) => Some(FileBoard::new(file)),
        Err(_) => {
            warn!(rt; "the file that TSP_PAGE names can't be opened, so no page is written");
            None
        }
    }
}

/// The board that the environment names in TSP_PAGE, which must be there; None if it names none. Fails
/// only if out of memory.
fn board_of(rt: HostRuntime) -> Result<Option<FileBoard<File>>, AllocError> {
    match env::var(&rt, "TSP_PAGE") {
        Ok(path) => Ok(board_at(rt, path.as_str())),
        Err(VarError::OutOfMemory) => Err(AllocError),
        Err(_) => Ok(None),
    }
}

/// The clocks of the command that the arguments ask for: a daemon's are what TSP_COUNTER, TSP_RATE and
/// TSP_PAGE say, any other's count by the raw counter at its own rate, and have no board.
fn clocks_for(rt: HostRuntime, words: &[String]) -> Result<Clocks, Unusable> {
    if !is_serve(words) {
        return Ok(Clocks {
            counter: Counter::Raw,
            rate: Rate::own(),
            board: None,
        });
    }
    let rate = named(rate_of(&rt), Unusable::Rate)?;
    let counter = named(counter_of(&rt), Unusable::Counter)?;
    match board_of(rt) {
        Ok(board) => Ok(Clocks {
            counter,
            rate,
            board,
        }),
        Err(_) => Err(Unusable::Memory),
    }
}

/// Whether the arguments ask for a daemon.
fn is_serve(words: &[String]) -> bool {
    match words {
        [first, ..] => first.as_str() == "serve",
        [] => false,
    }
}

/// Does what the arguments ask for, with the machine's own streams and network, and these clocks.
fn answer_by(rt: HostRuntime, words: &[String], clocks: Clocks) -> Status {
    let Clocks {
        counter: wanted,
        rate,
        board,
    } = clocks;
    let unslewed = Unslewed::new(rt, wanted);
    let counter = unslewed.counter();
    if is_serve(words) {
        warn_of_counter(&rt, wanted, counter);
    }
    let mut source = Reading::new(rt.reader());
    let mut sink = Writing::new(io::writer(&rt));
    let mut link = UdpLink::new(Coarse::new(rt), rt.alloc());
    let ticker = MachineTicker::new(unslewed, rate).counted_by(counter);
    let mut ticker = Paged::new(ticker, board);
    let status = run(
        rt.alloc(),
        words,
        &mut source,
        &mut sink,
        &mut link,
        &mut ticker,
    );
    warn_of_discarded(&rt, link.discarded());
    warn_of_unwritten(&rt, ticker.board());
    status
}

/// Does what the arguments ask for, where all standard streams are open.
fn answer(rt: HostRuntime, words: &[String]) -> Status {
    let text: &[u8] = match clocks_for(rt, words) {
        Ok(clocks) => return answer_by(rt, words, clocks),
        Err(Unusable::Rate) => b"bad rate\n",
        Err(Unusable::Counter) => b"bad counter\n",
        Err(Unusable::Memory) => return Status::OutOfMemory,
    };
    say(&mut Writing::new(io::writer(&rt)), text, Status::Usage)
}

/// Logs that the machine hasn't the counter that was wanted, if it hasn't.
fn warn_of_counter(rt: &impl Log, wanted: Counter, counter: Counter) {
    if counter != wanted {
        warn!(rt; "there is no CLOCK_MONOTONIC_RAW, so ticks are counted by CLOCK_MONOTONIC");
    }
}

/// Logs how many writes of the page failed, if any did.
fn warn_of_unwritten(rt: &impl Log, board: Option<&FileBoard<File>>) {
    if let Some(board) = board {
        let count = board.faults();
        if count != 0 {
            warn!(rt; "the page could not be written: {count} writes failed");
        }
    }
}

/// Logs how many datagrams were thrown away because they came while the program was away, if any
/// were.
fn warn_of_discarded(rt: &impl Log, count: u64) {
    if count != 0 {
        warn!(rt; "threw away {count} datagrams that came while the program was stopped or paused");
    }
}

/// Logs the exit status, if it isn't 0.
fn warn_of(rt: &impl Log, status: Status) {
    let number = status.number();
    if number != 0 {
        warn!(rt; "ended with status {number}");
    }
}

/// Answers the arguments, and logs the status if it isn't 0.
fn answer_and_warn(rt: HostRuntime, words: &[String]) -> Status {
    if let Some(text) = help::asked(words) {
        let status = say(&mut Writing::new(io::writer(&rt)), text, Status::Ok);
        warn_of(&rt, status);
        return status;
    }
    if let Some((stream, status)) = closed_stream(rt) {
        let number = status.number();
        warn!(rt; "{stream} is closed, so it ended with status {number}");
        return status;
    }
    let status = answer(rt, words);
    warn_of(&rt, status);
    status
}

fn main(rt: HostRuntime) -> ExitCode {
    let status = match words_of(&rt) {
        Ok(words) => answer_and_warn(rt, words.as_slice()),
        Err(_) => {
            warn_of(&rt, Status::OutOfMemory);
            Status::OutOfMemory
        }
    };
    ExitCode::from(status.number())
}
