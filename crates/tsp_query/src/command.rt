//! A question as a command.
ghost use Rattle.std.specs.Prelude.{◌≡◌, ◌≤◌, ℕ, ℤ, Some};
ghost use Rattle.tsp_query.specs.Ends.{Outside, KnowsExactly};
ghost use Rattle.tsp_query.specs.Outside.{observed, WritesBeginning};
ghost use Rattle.tsp_query.specs.Asks.{asking_of, QueryComes, AsksIfTold};
ghost use Rattle.tsp_query.specs.Faults.{Counts, LinkCounts};
ghost use Rattle.tsp_query.specs.Lines.{end_line};
ghost use Rattle.tsp_query.specs.Told.{AsksOnce, HoldsOf};

use crate::exit::QueryExit;
use crate::line::line_of;
use crate::query::{QueryEnd, clockdiff, election, msite, setdate, trace};
use tsp_args::query::Query;
use tsp_io::addr::Addr;
use tsp_io::link::{Bound, Link};
use tsp_io::sink::Sink;
use tsp_io::ticker::Ticker;
use tsp_lines::output::{Unwritten, write_all};

/// Any address of this machine, and a UDP port that the system chooses.
const ANYWHERE: Addr = Addr {
    ip: [0, 0, 0, 0],
    port: 0,
};

/// Asks the question, over a link that is bound to the daemon.
fn ask_bound<L: Link, T: Ticker>(query: &Query, link: &mut L, ticker: &mut T) -> QueryEnd
    ensures comes { (o : Outside) (wall : ℤ) (word : ℕ)
        → HoldsOf L.Link T.Ticker (KnowsExactly o) link.old ticker.old → T.wall_is ticker.old ≡ Some wall
        → T.word_is ticker.old ≡ Some word
        → HoldsOf L.Link T.Ticker (QueryComes query.now wall word o) link.new ticker.new
        (L.send_faults link.old) (L.send_faults link.new) result }
    ensures once { AsksOnce L.Link T.Ticker link.old ticker.old link.new ticker.new }
    ensures faults { LinkCounts L.Link link.old link.new (result ≡ QueryEnd.LinkFault) }
{
    match query {
        Query::Msite => msite(link, ticker),
        Query::ClockDiff => clockdiff(link, ticker),
        Query::Trace(on) => trace(*on, link, ticker),
        Query::Election => election(link, ticker),
        Query::Date(time) => setdate(*time, link, ticker),
    }
}

/// Writes the line that says how a question ended.
fn tell<K: Sink>(query: &Query, end: &QueryEnd, sink: &mut K) -> QueryExit
    ensures says { WritesBeginning (end_line query.now end.now) (asking_of end.now) QueryExit.WriteFault
        QueryExit.OutOfMemory (K.written sink.old) (K.written sink.new) result }
    ensures write { Counts (K.faults sink.old) (K.faults sink.new)
        (result ≡ QueryExit.WriteFault) }
    ensures link { result ≡ QueryExit.LinkFault → end.now ≡ QueryEnd.LinkFault }
    ensures linked { end.now ≡ QueryEnd.LinkFault → result ≡ QueryExit.LinkFault }
{
    match write_all(sink, line_of(query, end).as_slice()) {
        Ok(()) => QueryExit::of(end),
        Err(cut) => match cut.fault {
            Unwritten::WriteFault => QueryExit::WriteFault,
            Unwritten::OutOfMemory => QueryExit::OutOfMemory,
        },
    }
}

/// Asks the daemon at an address, and writes the answer as one line.
///
/// The link is bound to any address of this machine, with the daemon as peer 0. The lines are
/// `master NAME`, or `no master` for the empty name; `clockdiff DIFF ERR` in microseconds; `trace
/// on` or `trace off`; `election heard`; `date set` or `date forwarded`; and `no answer`.
/// `LinkFault` comes only if one of the link's counts of faults rose, and `WriteFault` only if the
/// sink's did. With `LinkFault` nothing is written.
pub fn ask<K: Sink, L: Link, T: Ticker>(
    daemon: Addr,
    query: &Query,
    sink: &mut K,
    link: &mut L,
    ticker: &mut T,
) -> QueryExit
    ensures asks { AsksIfTold daemon query.now
        (observed K.Sink L.Link T.Ticker sink.old link.old ticker.old)
        (observed K.Sink L.Link T.Ticker sink.new link.new ticker.new)
        (L.send_faults link.old) (L.send_faults link.new) result }
    ensures faults { LinkCounts L.Link link.old link.new (result ≡ QueryExit.LinkFault) }
    ensures write { Counts (K.faults sink.old) (K.faults sink.new)
        (result ≡ QueryExit.WriteFault) }
    ensures last { T.last ticker.old ≤ T.last ticker.new }
{
    match link.bind(ANYWHERE, &[daemon]) {
        Bound::Bound => {
            let end = ask_bound(query, link, ticker);
            tell(query, &end, sink)
        }
        Bound::Failed => QueryExit::LinkFault,
        Bound::OutOfMemory => QueryExit::OutOfMemory,
    }
}
