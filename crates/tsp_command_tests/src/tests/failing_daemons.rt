//! A daemon of two turns, in which each call of link and sink fails once.
ghost use Rattle.std.specs.Prelude.{IfOk, IfSome};
ghost use Rattle.tsp_args.specs.Serves.{IsServe};

use std::alloc::{AllocError, Global};
use std::process::Abort;
use tsp_args::command::{Command, command_of};
use tsp_args::serve::ServeWords;
use tsp_base::place::Place;
use tsp_daemon::command::serve_words;
use tsp_daemon::exit::DaemonExit;
use tsp_io::memory::MemorySink;
use tsp_io::memory_link::MemoryLink;
use tsp_io::memory_ticker::MemoryTicker;

/// A stranger's TRACEON with number 2 and the name `x`.
const TRACE_ON: &[u8] = &[17, 1, 0, 2, 0, 0, 0, 0, 0, 0, 0, 0, b'x', 0];

/// A stranger's stamp request with word 1 and counter 2.
const REQUEST: &[u8] = &[
    0x80, 1, 0, 0, 0, 0, 0, 0, 0, 0, 0, 1, 0, 0, 0, 0, 0, 0, 0, 2, 0, 0, 0, 0, 0, 0, 0, 0,
];

/// What the two turns write, each in one write.
const LINES: [&str; 5] = [
    "1 0 0 20 took - traceon 2 x\n",
    "1 0 0 20 trace on\n",
    "1 0 0 20 post 0 - ack 2 a\n",
    "2 0 0 40 took - request 1 2\n",
    "2 0 0 40 post 1 - reply 2 1 2 1040\n",
];

/// The words of a daemon of two turns; None where they aren't a daemon's.
fn words_of(alloc: Global) -> Result<Option<ServeWords>, AllocError>
    ensures { IfOk result (λ words. IfSome words IsServe) }
{
    let mut words = Vec::new(alloc);
    for word in ["serve", "127.0.0.1:525", "a", "m", "2"] {
        words.push(String::from_str(alloc, word)?)?;
    }
    match command_of(alloc, words.as_slice())? {
        Some(Command::Serve(words)) => Ok(Some(words)),
        _ => Ok(None),
    }
}

/// How a daemon is to end, how many lines it writes, and how many sends it tries.
type Wanted = (DaemonExit, usize, usize);

/// Whether what was written is so many lines.
fn is_shown(alloc: Global, shown: &MemorySink, lines: usize) -> Result<bool, AllocError> {
    let mut text = String::new(alloc);
    for line in LINES.iter().take(lines) {
        text.push_str(line)?;
    }
    Ok(shown.written() == text.as_bytes())
}

/// Whether a daemon over this link ends so whose trace is turned on and which is then asked for a stamp, where
/// these writes fail.
fn ends(
    alloc: Global,
    words: &ServeWords,
    link: &mut MemoryLink,
    writes: &[u32],
    wanted: Wanted,
) -> Result<bool, AllocError>
    requires { IsServe words.now }
{
    link.arrive(Place::Stranger, TRACE_ON)?;
    link.arrive(Place::Stranger, REQUEST)?;
    let mut shown = MemorySink::new(alloc, writes)?;
    let mut ticker = MemoryTicker::new(alloc, &[0, 10, 20, 30, 40], 1000, 2)?;
    let end = serve_words(alloc, words, &mut shown, link, &mut ticker);
    Ok(is_shown(alloc, &shown, wanted.1)? && end == wanted.0 && link.tried() == wanted.2)
}

/// The same of a daemon with one port and the words above, where these calls of the link fail, too. They are the
/// bind, and in each turn the receive and the send.
fn daemon_ends(
    alloc: Global,
    calls: &[u32],
    writes: &[u32],
    wanted: Wanted,
) -> Result<bool, AllocError> {
    let Some(words) = words_of(alloc)? else {
        return Ok(false);
    };
    let mut link = MemoryLink::new(alloc, calls)?;
    Ok(words.ports.count() == 1 && ends(alloc, &words, &mut link, writes, wanted)?)
}

/// A bind or a receive that fails ends the daemon, after what the turns before it sent and wrote. A send that
/// fails is a lost datagram.
const CALLS: [Wanted; 6] = [
    (DaemonExit::LinkFault, 0, 0),
    (DaemonExit::LinkFault, 0, 0),
    (DaemonExit::Done, 5, 2),
    (DaemonExit::LinkFault, 3, 1),
    (DaemonExit::Done, 5, 2),
    (DaemonExit::Done, 5, 2),
];

/// A write that fails ends the daemon, after the lines before it; the sends of its turn were tried.
const WRITES: [Wanted; 6] = [
    (DaemonExit::WriteFault, 0, 1),
    (DaemonExit::WriteFault, 1, 1),
    (DaemonExit::WriteFault, 2, 1),
    (DaemonExit::WriteFault, 3, 2),
    (DaemonExit::WriteFault, 4, 2),
    (DaemonExit::Done, 5, 2),
];

/// Each call of the link fails once.
#[test]
fn each_call_of_the_link_fails(rt: HostRuntime) {
    for (failing, wanted) in (0..6).zip(CALLS) {
        let right = daemon_ends(rt.alloc(), &[failing], &[], wanted);
        assert!(rt; right == Ok(true), "call {failing}");
    }
}

/// Each write fails once.
#[test]
fn each_write_fails(rt: HostRuntime) {
    for (failing, wanted) in (0..6).zip(WRITES) {
        let right = daemon_ends(rt.alloc(), &[], &[failing], wanted);
        assert!(rt; right == Ok(true), "write {failing}");
    }
}
