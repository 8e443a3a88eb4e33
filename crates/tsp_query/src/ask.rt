//! Asks a question: one datagram goes out, and the first answer counts among at most eight
//! receives.
ghost use Rattle.std.specs.Prelude.{◌≡◌, ◌≢◌, None, true, IfSome, if◌then◌else◌};
ghost use Rattle.tsp_codec.specs.Taken.{taken_of};
ghost use Rattle.tsp_io.specs.Links.{NotesReceive};
ghost use Rattle.tsp_query.specs.Arrivals.{answers, answer_of, is_daemon};
ghost use Rattle.tsp_query.specs.Ends.{Outside, KnowsExactly, Hears, HearsWell, Listens, WaitsSeconds};
ghost use Rattle.tsp_query.specs.Ends.{Asks, AsksWell};
ghost use Rattle.tsp_query.specs.Faults.{Counts, LinkCounts};
ghost use Rattle.tsp_query.specs.Told.{HoldsOf, KeepsOn};

use crate::question::{Question, answer_of};
use tsp_base::datagram::Datagram;
use tsp_base::place::{PeerId, Place};
use tsp_codec::encode;
use tsp_io::link::{Link, Recv, Sent};
use tsp_io::ticker::Ticker;

/// How long a receive waits, in microseconds: a second.
const WAIT: u64 = 1_000_000;

/// How many receives there are at most.
const RECEIVES: usize = 8;

/// How asking ends.
#[derive(Drop)]
pub enum AskEnd {
    /// The answer, and the tick right after it came.
    Answer(Datagram, u64),
    /// No answer came in eight receives.
    NoAnswer,
    /// The send or a receive failed.
    LinkFault,
    /// Out of memory for the send.
    OutOfMemory,
}

/// What one receive gives.
#[derive(Drop)]
pub(crate) enum Heard {
    /// The answer, and the tick right after it came.
    Answer(Datagram, u64),
    /// Something else, or nothing.
    Other,
    /// The receive failed.
    Failed,
}

/// Waits a second at most for a datagram, and reads the tick right after the wait.
fn hear<L: Link, T: Ticker>(link: &mut L, ticker: &mut T, question: Question) -> Heard
    ensures hears { (o : Outside) → HoldsOf L.Link T.Ticker (KnowsExactly o) link.old ticker.old
        → HoldsOf L.Link T.Ticker (Hears question o) link.new ticker.new result }
    ensures waits { NotesReceive (L.waits link.old) (L.waits link.new) 1000000 }
    ensures keeps { KeepsOn L.Link T.Ticker link.old ticker.old link.new ticker.new }
    ensures well { HearsWell question (T.last ticker.old) result }
    ensures faults { Counts (L.faults link.old) (L.faults link.new) (result ≡ Heard.Failed) }
    ensures sends { L.send_faults link.new ≡ L.send_faults link.old }
{
    let mut buf = [0; 512];
    match link.recv(&mut buf, WAIT) {
        Recv::Failed => Heard::Failed,
        Recv::Nothing => {
            ticker.tick();
            Heard::Other
        }
        Recv::Datagram(from, count) => {
            let tick = ticker.tick();
            match answer_from(question, from, &buf[..count]) {
                Some(answer) => Heard::Answer(answer, tick),
                None => Heard::Other,
            }
        }
    }
}

/// The datagram of these octets, which came from this sender; None if it isn't the daemon's answer
/// to the question.
fn answer_from(question: Question, from: Place, octets: &[u8]) -> Option<Datagram>
    ensures answer { result ≡ (if is_daemon from then answer_of question (taken_of octets.now) else
        None) }
    ensures well { IfSome result (λ d. answers question d ≡ true) }
{
    match from {
        Place::Peer(PeerId(0)) => answer_of(question, octets),
        _ => None,
    }
}

/// Receives at most eight times, until an answer comes or a receive fails.
fn listen<L: Link, T: Ticker>(link: &mut L, ticker: &mut T, question: Question) -> AskEnd
    ensures listens { (o : Outside) → HoldsOf L.Link T.Ticker (KnowsExactly o) link.old ticker.old
        → HoldsOf L.Link T.Ticker (Listens question o) link.new ticker.new result }
    ensures waits { WaitsSeconds (L.waits link.old) (L.waits link.new) }
    ensures keeps { KeepsOn L.Link T.Ticker link.old ticker.old link.new ticker.new }
    ensures well { AsksWell question (T.last ticker.old) result }
    ensures memory { result ≢ AskEnd.OutOfMemory }
    ensures faults { Counts (L.faults link.old) (L.faults link.new) (result ≡ AskEnd.LinkFault) }
    ensures sends { L.send_faults link.new ≡ L.send_faults link.old }
{
    for _ in 0..RECEIVES {
        match hear(link, ticker, question) {
            Heard::Answer(answer, tick) => return AskEnd::Answer(answer, tick),
            Heard::Other => {}
            Heard::Failed => return AskEnd::LinkFault,
        }
    }
    AskEnd::NoAnswer
}

/// Sends the request to the daemon, which is peer 0, and listens for the answer. A send that fails
/// ends it at once.
pub(crate) fn ask<L: Link, T: Ticker>(
    link: &mut L,
    ticker: &mut T,
    request: &Datagram,
    question: Question,
) -> AskEnd
    ensures asks { (o : Outside) → HoldsOf L.Link T.Ticker (KnowsExactly o) link.old ticker.old
        → HoldsOf L.Link T.Ticker (Asks request.now question o) link.new ticker.new
        (L.send_faults link.old) (L.send_faults link.new) result }
    ensures waits { WaitsSeconds (L.waits link.old) (L.waits link.new) }
    ensures keeps { KeepsOn L.Link T.Ticker link.old ticker.old link.new ticker.new }
    ensures well { AsksWell question (T.last ticker.old) result }
    ensures faults { LinkCounts L.Link link.old link.new (result ≡ AskEnd.LinkFault) }
{
    match link.send(Place::Peer(PeerId(0)), encode(request).as_slice()) {
        Sent::Sent => listen(link, ticker, question),
        Sent::Failed => AskEnd::LinkFault,
        Sent::OutOfMemory => AskEnd::OutOfMemory,
    }
}
