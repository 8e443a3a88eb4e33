//! The daemon as a command.
ghost use Rattle.std.specs.Prelude.{◌≡◌, ◌≢◌, ◌≤◌, false, IfSome};
ghost use Rattle.tsp_query.specs.Faults.{Counts};
ghost use Rattle.tsp_query.specs.Outside.{observed, WritesBeginning};
ghost use Rattle.tsp_query.specs.Told.{ReadsWall};
ghost use Rattle.tsp_rules.specs.Guards.{is_clock_value};
ghost use Rattle.tsp_args.specs.Serves.{IsServe};
ghost use Rattle.tsp_daemon.specs.Serving.{bad_wall, BoundServesIfTold, ServesIfTold};

use crate::exit::DaemonExit;
use crate::node::{Unbooted, addrs_of, boot};
use crate::serve::serve;
use std::alloc::Global;
use tsp_args::serve::ServeWords;
use tsp_io::link::{Bound, Link};
use tsp_io::sink::Sink;
use tsp_io::ticker::Ticker;
use tsp_lines::output::{Unwritten, write_all};

/// Writes the line `bad wall`.
fn say_bad_wall<K: Sink>(sink: &mut K) -> DaemonExit
    ensures says { WritesBeginning bad_wall DaemonExit.BadWall DaemonExit.WriteFault DaemonExit.OutOfMemory
        (K.written sink.old) (K.written sink.new) result }
    ensures write { Counts (K.faults sink.old) (K.faults sink.new)
        (result ≡ DaemonExit.WriteFault) }
    ensures link { result ≢ DaemonExit.LinkFault }
{
    match write_all(sink, b"bad wall\n") {
        Ok(()) => DaemonExit::BadWall,
        Err(cut) => match cut.fault {
            Unwritten::WriteFault => DaemonExit::WriteFault,
            Unwritten::OutOfMemory => DaemonExit::OutOfMemory,
        },
    }
}

/// Reads the clocks, boots the daemon's node, and takes its turns, over a link that is bound.
fn serve_bound<K: Sink, L: Link, T: Ticker>(
    link: &mut L,
    ticker: &mut T,
    sink: &mut K,
    words: &ServeWords,
    alloc: Global,
) -> DaemonExit
    requires serve { IsServe words.now }
    ensures serves { BoundServesIfTold words.now
        (observed K.Sink L.Link T.Ticker sink.old link.old ticker.old)
        (observed K.Sink L.Link T.Ticker sink.new link.new ticker.new) result }
    ensures wall { result ≡ DaemonExit.BadWall
        → IfSome (T.wall_is ticker.old) (λ wall. is_clock_value wall ≡ false) }
    ensures walled { ReadsWall T.Ticker ticker.old ticker.new }
    ensures same { L.binds link.new ≡ L.binds link.old }
    ensures write { Counts (K.faults sink.old) (K.faults sink.new)
        (result ≡ DaemonExit.WriteFault) }
    ensures link { Counts (L.faults link.old) (L.faults link.new)
        (result ≡ DaemonExit.LinkFault) }
    ensures later { (L.send_faults link.old ≤ L.send_faults link.new)
        × (T.last ticker.old ≤ T.last ticker.new) }
{
    let tick = ticker.tick();
    let wall = ticker.wall();
    let word = ticker.word();
    match boot(alloc, words, tick, wall, word) {
        Ok(node) => DaemonExit::of(serve(alloc, node, words.turns, sink, link, ticker)),
        Err(Unbooted::BadWall) => say_bad_wall(sink),
        Err(Unbooted::OutOfMemory) => DaemonExit::OutOfMemory,
    }
}

/// Runs the daemon that the arguments after `serve` ask for.
///
/// The link is bound with the daemon's own address as peer 0, and then its peers in their order.
/// The ticker's tick, wall clock and word are read once each, in this order, and the node boots
/// with them. If the wall clock isn't more than -2^31 and less than 2^31 seconds, the line `bad
/// wall` is written, and no node boots. Then the session takes its turns, as `tsp_daemon` has them.
/// What its node does in them keeps what is promised without premises (`specs/Kept.antt`).
///
/// `LinkFault` comes only if the bind or a receive failed, and the link's count of faults rose;
/// `WriteFault` only if a write failed, and the sink's count rose.
pub fn serve_words<K: Sink, L: Link, T: Ticker>(
    alloc: Global,
    words: &ServeWords,
    sink: &mut K,
    link: &mut L,
    ticker: &mut T,
) -> DaemonExit
    requires { IsServe words.now }
    ensures serves { ServesIfTold words.now
        (observed K.Sink L.Link T.Ticker sink.old link.old ticker.old)
        (observed K.Sink L.Link T.Ticker sink.new link.new ticker.new) result }
    ensures wall { result ≡ DaemonExit.BadWall
        → IfSome (T.wall_is ticker.old) (λ wall. is_clock_value wall ≡ false) }
    ensures link { Counts (L.faults link.old) (L.faults link.new)
        (result ≡ DaemonExit.LinkFault) }
    ensures write { Counts (K.faults sink.old) (K.faults sink.new)
        (result ≡ DaemonExit.WriteFault) }
    ensures later { (L.send_faults link.old ≤ L.send_faults link.new)
        × (T.last ticker.old ≤ T.last ticker.new) }
{
    let Ok(addrs) = addrs_of(alloc, words) else {
        return DaemonExit::OutOfMemory;
    };
    match link.bind(words.local, addrs.as_slice()) {
        Bound::Bound => serve_bound(link, ticker, sink, words, alloc),
        Bound::Failed => DaemonExit::LinkFault,
        Bound::OutOfMemory => DaemonExit::OutOfMemory,
    }
}
