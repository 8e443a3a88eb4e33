//! The top call, which does what the program's arguments ask for.
ghost use Rattle.std.specs.Prelude.{◌≡◌, ◌≢◌, ◌≤◌, ◌⊎◌, [], ◌∷◌, true, false, map, codes, string_bytes};
ghost use Rattle.tsp_io.specs.Counts.{Rose};
ghost use Rattle.tsp_args.specs.Commands.{IsCommand, IsNoCommand, words_of};
ghost use Rattle.tsp_args.specs.Serves.{IsServe};
ghost use Rattle.tsp_args.specs.Storms.{IsStorm};
ghost use Rattle.tsp_args.specs.declared.command.Command.{Command};
ghost use Rattle.tsp_query.specs.Faults.{Counts, LinkCounts};
ghost use Rattle.tsp_query.specs.Outside.{observed};
ghost use Rattle.tsp_cli.specs.Commands.{Does, DoesOrNot, RunsDaemon, RunsQuery, RunsStorm};
ghost use Rattle.tsp_cli.specs.Commands.{now_of, Untouched, IsAsk, IsQuestion, LinkFaults};
ghost use Rattle.tsp_cli.specs.Headline.{PrintsHistory, PrintsSoFar};
ghost use Rattle.tsp_cli.specs.Lines.{Says};
ghost use Rattle.tsp_cli.specs.Usage.{usage_line};

use crate::status::Status;
use std::alloc::Global;
use tsp_args::command::{Command, command_of};
use tsp_args::query::Query;
use tsp_args::serve::ServeWords;
use tsp_args::storm::StormWords;
use tsp_audit_command::run::check;
use tsp_convert::run::{pack, show};
use tsp_daemon::command::serve_words;
use tsp_icmp_command::average;
use tsp_io::addr::Addr;
use tsp_io::link::Link;
use tsp_io::sink::Sink;
use tsp_io::source::Source;
use tsp_io::ticker::Ticker;
use tsp_lines::output::{Unwritten, write_all};
use tsp_query::command::ask;
use tsp_replay::run::replay;
use tsp_storm::run::storm;

/// Writes a text and answers with this status; with another one if not all of the text was written.
pub fn say<K: Sink>(sink: &mut K, text: &[u8], status: Status) -> Status
    ensures says { Says text.now status (K.written sink.old) (K.written sink.new) result }
    ensures later { K.faults sink.old ≤ K.faults sink.new }
    ensures write { result ≡ Status.WriteFault → (status ≡ Status.WriteFault)
        ⊎ Rose (K.faults sink.old) (K.faults sink.new) }
    ensures still { result ≢ Status.WriteFault → K.faults sink.new ≡ K.faults sink.old }
{
    match write_all(sink, text) {
        Ok(()) => status,
        Err(cut) => match cut.fault {
            Unwritten::WriteFault => Status::WriteFault,
            Unwritten::OutOfMemory => Status::OutOfMemory,
        },
    }
}

/// Does what the arguments after the program's name ask for.
///
/// `replay`, `show`, `pack`, `icmp` and `audit`, each alone, read the source to its end and write
/// to the sink; they don't touch link and ticker. `serve` runs a daemon over link and ticker, and
/// the questions `msite`, `clockdiff`, `trace`, `election` and `date` ask one; these don't touch
/// the source. `storm` makes a schedule from a number, runs it and writes a summary; it touches
/// only the sink. At any other arguments the line `usage` is written, the status is `Usage`, and only
/// the sink is touched.
///
/// Of each command it is said what was read, sent and written with each status
/// (`specs/Commands.antt`). `ReadFault`, `WriteFault` and `LinkFault` come only if that object's
/// count of faults rose: the link's is that of failed binds and receives, or, for a question, also
/// that of failed sends. With valid input, and if no count rises, a run ends with `Ok` (a question
/// with `Ok` or `NoAnswer`), unless it runs out of memory. What a replay has written is the trace
/// of a run that keeps its promises, or the beginning of one, however it ends
/// (`specs/Headline.antt`).
pub fn run<S: Source, K: Sink, L: Link, T: Ticker>(
    alloc: Global,
    words: &[String],
    source: &mut S,
    sink: &mut K,
    link: &mut L,
    ticker: &mut T,
) -> Status
    requires open { S.ended source.old ≡ false }
    ensures does { (command : Command) → IsCommand command
        → map string_bytes words.now ≡ words_of command
        → DoesOrNot command
        (now_of S.Source K.Sink L.Link T.Ticker source.old sink.old link.old ticker.old)
        (now_of S.Source K.Sink L.Link T.Ticker source.new sink.new link.new ticker.new) result }
    ensures headline { map string_bytes words.now ≡ codes "replay" ∷ [] → result ≡ Status.Ok
        → PrintsHistory (S.left source.old) (S.left source.new) (K.written sink.old)
        (K.written sink.new) }
    ensures so_far { map string_bytes words.now ≡ codes "replay" ∷ []
        → PrintsSoFar (S.left source.old) (K.written sink.old) (K.written sink.new) result }
    ensures usage { IsNoCommand (map string_bytes words.now)
        → Says usage_line Status.Usage (K.written sink.old) (K.written sink.new) result
        × (source.new ≡ source.old) × (link.new ≡ link.old) × (ticker.new ≡ ticker.old) }
    ensures exact { result ≡ Status.Usage → IsNoCommand (map string_bytes words.now) }
    ensures untouched { (command : Command) → IsCommand command
        → map string_bytes words.now ≡ words_of command
        → Untouched command source.old source.new link.old link.new ticker.old ticker.new }
    ensures link { LinkFaults L.Link link.old link.new (result ≡ Status.LinkFault)
        (IsQuestion (map string_bytes words.now)) }
    ensures read { Counts (S.faults source.old) (S.faults source.new)
        (result ≡ Status.ReadFault) }
    ensures unended { result ≡ Status.ReadFault → S.ended source.new ≡ false }
    ensures write { Counts (K.faults sink.old) (K.faults sink.new) (result ≡ Status.WriteFault) }
    ensures last { T.last ticker.old ≤ T.last ticker.new }
{
    match command_of(alloc, words) {
        Ok(Some(command)) => run_command(alloc, &command, source, sink, link, ticker),
        Ok(None) => say(sink, b"usage\n", Status::Usage),
        Err(_) => Status::OutOfMemory,
    }
}

/// Does what a command asks for; its parts are in memory already.
fn run_command<S: Source, K: Sink, L: Link, T: Ticker>(
    alloc: Global,
    command: &Command,
    source: &mut S,
    sink: &mut K,
    link: &mut L,
    ticker: &mut T,
) -> Status
    requires command { IsCommand command.now }
    requires open { S.ended source.old ≡ false }
    ensures does { Does command.now
        (now_of S.Source K.Sink L.Link T.Ticker source.old sink.old link.old ticker.old)
        (now_of S.Source K.Sink L.Link T.Ticker source.new sink.new link.new ticker.new) result }
    ensures used { result ≢ Status.Usage }
    ensures untouched { Untouched command.now source.old source.new link.old link.new ticker.old
        ticker.new }
    ensures link { LinkFaults L.Link link.old link.new (result ≡ Status.LinkFault)
        (IsAsk command.now) }
    ensures read { Counts (S.faults source.old) (S.faults source.new)
        (result ≡ Status.ReadFault) }
    ensures unended { result ≡ Status.ReadFault → S.ended source.new ≡ false }
    ensures write { Counts (K.faults sink.old) (K.faults sink.new) (result ≡ Status.WriteFault) }
    ensures last { T.last ticker.old ≤ T.last ticker.new }
{
    match command {
        Command::Replay => Status::of(replay(alloc, source, sink)),
        Command::Show => Status::of(show(alloc, source, sink)),
        Command::Pack => Status::of(pack(alloc, source, sink)),
        Command::Icmp => Status::of(average(alloc, source, sink)),
        Command::Serve(words) => run_daemon(words, sink, link, ticker, alloc),
        Command::Ask(daemon, query) => run_query(sink, link, ticker, *daemon, query),
        Command::Storm(words) => run_storm(alloc, words, sink),
        Command::Audit => Status::of(check(alloc, source, sink)),
    }
}

/// Runs a daemon, and gives the status of its end.
fn run_daemon<K: Sink, L: Link, T: Ticker>(
    words: &ServeWords,
    sink: &mut K,
    link: &mut L,
    ticker: &mut T,
    alloc: Global,
) -> Status
    requires { IsServe words.now }
    ensures runs { RunsDaemon words.now
        (observed K.Sink L.Link T.Ticker sink.old link.old ticker.old)
        (observed K.Sink L.Link T.Ticker sink.new link.new ticker.new)
        (L.faults link.old) (L.faults link.new) (K.faults sink.old) (K.faults sink.new) result }
    ensures used { result ≢ Status.Usage }
    ensures link { Counts (L.faults link.old) (L.faults link.new) (result ≡ Status.LinkFault) }
    ensures write { Counts (K.faults sink.old) (K.faults sink.new) (result ≡ Status.WriteFault) }
    ensures later { (L.send_faults link.old ≤ L.send_faults link.new)
        × (T.last ticker.old ≤ T.last ticker.new) }
    ensures unread { result ≢ Status.ReadFault }
{
    Status::of_served(serve_words(alloc, words, sink, link, ticker))
}

/// Asks a daemon, and gives the status of its end.
fn run_query<K: Sink, L: Link, T: Ticker>(
    sink: &mut K,
    link: &mut L,
    ticker: &mut T,
    daemon: Addr,
    query: &Query,
) -> Status
    ensures runs { RunsQuery daemon query.now
        (observed K.Sink L.Link T.Ticker sink.old link.old ticker.old)
        (observed K.Sink L.Link T.Ticker sink.new link.new ticker.new)
        (L.faults link.old) (L.faults link.new) (L.send_faults link.old) (L.send_faults link.new)
        (K.faults sink.old) (K.faults sink.new) result }
    ensures used { result ≢ Status.Usage }
    ensures faults { LinkCounts L.Link link.old link.new (result ≡ Status.LinkFault) }
    ensures write { Counts (K.faults sink.old) (K.faults sink.new) (result ≡ Status.WriteFault) }
    ensures last { T.last ticker.old ≤ T.last ticker.new }
    ensures unread { result ≢ Status.ReadFault }
{
    Status::of_asking(ask(daemon, query, sink, link, ticker))
}

/// Makes a schedule from a number, runs it, and writes the summary of its run.
fn run_storm<K: Sink>(alloc: Global, words: &StormWords, sink: &mut K) -> Status
    requires { IsStorm words.now }
    ensures runs { RunsStorm words.now (K.written sink.old) (K.written sink.new) (K.faults sink.old)
        (K.faults sink.new) result }
    ensures write { Counts (K.faults sink.old) (K.faults sink.new) (result ≡ Status.WriteFault) }
    ensures unread { result ≢ Status.ReadFault }
    ensures unlinked { result ≢ Status.LinkFault }
    ensures used { result ≢ Status.Usage }
{
    Status::of_storm(storm(alloc, words, sink))
}
