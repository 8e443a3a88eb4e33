//! The questions to a running daemon, each of them a function.
ghost use Rattle.std.specs.Prelude.{◌≡◌, ◌≤◌, ◌^◌, ◌%◌, ℕ, ℤ, List, Some, IfSome, codes};
ghost use Rattle.std.specs.Prelude.{true, pos, negsuc, ◌<ℤ◌};
ghost use Rattle.tsp_base.specs.Messages.{body_fits};
ghost use Rattle.tsp_base.specs.declared.kind.Kind.{Kind};
ghost use Rattle.tsp_base.specs.declared.message.Body.{Body};
ghost use Rattle.tsp_io.specs.Clocks.{IsWall};
ghost use Rattle.tsp_query.specs.Arrivals.{all_but_first};
ghost use Rattle.tsp_query.specs.Clocks.{tick_given};
ghost use Rattle.tsp_query.specs.Ends.{Outside, KnowsExactly, Asks};
ghost use Rattle.tsp_query.specs.Faults.{LinkCounts};
ghost use Rattle.tsp_query.specs.Queries.{read_twice, message, message_with, date_message};
ghost use Rattle.tsp_query.specs.Queries.{question_of, stamp, QueryEnds, end_of, trace_kind};
ghost use Rattle.tsp_query.specs.Queries.{EndsByWord, by_number, by_date};
ghost use Rattle.tsp_query.specs.Queries.{name_told, master_in, heard_in, says_set, date_answer};
ghost use Rattle.tsp_query.specs.Queries.{reading_in, IsReplied, diff_in};
ghost use Rattle.tsp_query.specs.Told.{AsksOnce, HoldsOf, ReadsWall};

use crate::ask::{AskEnd, ask};
use crate::question::Question;
use tsp_base::datagram::Datagram;
use tsp_base::kind::Kind;
use tsp_base::message::{Body, Message};
use tsp_base::micros::Micros;
use tsp_base::name::Name;
use tsp_base::stamp::Stamp;
use tsp_io::link::Link;
use tsp_io::ticker::Ticker;

/// The answer to a question, or why there is none.
#[derive(Drop)]
pub enum QueryEnd {
    /// The master that the daemon knows of has this name. The empty name means that it knows of
    /// none.
    Master(Name),
    /// By how many microseconds the daemon's clock is ahead of this machine's (negative if it is
    /// behind), and by how many that may be wrong.
    Diff(i64, i64),
    /// The daemon has heard the question.
    Heard,
    /// The network's date was set (true), or is passed on to the master (false).
    Date(bool),
    /// No answer came in eight receives, and none of them failed.
    NoAnswer,
    /// The send or a receive failed.
    LinkFault,
    /// Out of memory.
    OutOfMemory,
}

/// What is read of the ticker when a question begins. Times are microseconds.
#[derive(Clone, Copy)]
struct Start {
    /// The first tick.
    first: u64,
    /// The tick right before the request goes out.
    sent: u64,
    /// The wall clock, since 1970.
    wall: i64,
    /// The word, from which the number of the request is made.
    word: u64,
}

/// Reads the tick counter, the wall clock and the word, and the counter again.
fn begin<T: Ticker>(ticker: &mut T) -> Start
    ensures readings { (readings : List ℕ) → T.readings ticker.old ≡ Some readings
        → (result.first ≡ tick_given (T.last ticker.old) readings 0)
        × (result.sent ≡ tick_given (T.last ticker.old) readings 1)
        × (T.readings ticker.new ≡ Some (all_but_first (all_but_first readings))) }
    ensures wall { IfSome (T.wall_is ticker.old) (λ wall. result.wall ≡ wall) }
    ensures word { IfSome (T.word_is ticker.old) (λ word. result.word ≡ word) }
    ensures range { IsWall result.wall }
    ensures climbs { (T.last ticker.old ≤ result.first) × (result.first ≤ result.sent)
        × (result.sent ≤ 2 ^ 61) }
    ensures last { T.last ticker.new ≡ result.sent }
    ensures walled { ReadsWall T.Ticker ticker.old ticker.new }
{
    let first = ticker.tick();
    let wall = ticker.wall();
    let word = ticker.word();
    let sent = ticker.tick();
    Start {
        first,
        sent,
        wall,
        word,
    }
}

/// The name that the requests carry: `timedc`.
fn client() -> Name
    ensures { result ≡ codes "timedc" }
{
    match Name::of(b"timedc") {
        Ok(name) => name,
        Err(_) => unreachable!(),
    }
}

/// What the answer to a message with this number must repeat; `dates` is whether the message sets
/// the date.
fn question_of(dates: bool, number: u16) -> Question
    ensures { result ≡ question_of dates number }
{
    if dates {
        Question::OfDate(number)
    } else {
        Question::OfNumber(number)
    }
}

/// Asks by a message of this kind with this body; `dates` is whether it sets the date. Its number
/// is the word modulo 65,536.
fn ask_by_message<L: Link, T: Ticker>(
    link: &mut L,
    ticker: &mut T,
    kind: Kind,
    body: Body,
    dates: bool,
) -> AskEnd
    requires { body_fits kind body ≡ true }
    ensures asks { (o : Outside) (word : ℕ)
        → HoldsOf L.Link T.Ticker (KnowsExactly o) link.old ticker.old → T.word_is ticker.old ≡ Some word
        → HoldsOf L.Link T.Ticker (Asks (message_with kind body word)
        (question_of dates (word % 65536)) (read_twice o)) link.new ticker.new
        (L.send_faults link.old) (L.send_faults link.new) result }
    ensures once { AsksOnce L.Link T.Ticker link.old ticker.old link.new ticker.new }
    ensures faults { LinkCounts L.Link link.old link.new (result ≡ AskEnd.LinkFault) }
{
    let start = begin(ticker);
    let number = (start.word % 65536) as u16;
    let request = Datagram::Message(Message::new(kind, number, body, client()));
    ask(link, ticker, &request, question_of(dates, number))
}

/// The end of a question to which every answer means the same: the daemon has heard it.
fn heard_end(asked: AskEnd) -> QueryEnd
    ensures { result ≡ end_of heard_in asked }
{
    match asked {
        AskEnd::Answer(..) => QueryEnd::Heard,
        AskEnd::NoAnswer => QueryEnd::NoAnswer,
        AskEnd::LinkFault => QueryEnd::LinkFault,
        AskEnd::OutOfMemory => QueryEnd::OutOfMemory,
    }
}

/// The end of a question whose answer has the master's name.
fn master_end(asked: AskEnd) -> QueryEnd
    ensures { result ≡ end_of master_in asked }
{
    match asked {
        AskEnd::Answer(Datagram::Message(message), _) => QueryEnd::Master(message.name().copy()),
        AskEnd::Answer(Datagram::Stamp(_), _) => QueryEnd::Master(Name::empty()),
        AskEnd::NoAnswer => QueryEnd::NoAnswer,
        AskEnd::LinkFault => QueryEnd::LinkFault,
        AskEnd::OutOfMemory => QueryEnd::OutOfMemory,
    }
}

/// Asks who is master (MSITE).
///
/// Here and in the other questions the link must be bound with the daemon as peer 0. `LinkFault` comes only
/// if one of the link's counts of faults rose in this call.
pub fn msite<L: Link, T: Ticker>(link: &mut L, ticker: &mut T) -> QueryEnd
    ensures asks { EndsByWord L.Link T.Ticker (message Kind.Msite) by_number master_in link.old
        ticker.old link.new ticker.new result }
    ensures once { AsksOnce L.Link T.Ticker link.old ticker.old link.new ticker.new }
    ensures faults { LinkCounts L.Link link.old link.new (result ≡ QueryEnd.LinkFault) }
{
    master_end(ask_by_message(link, ticker, Kind::Msite, Body::Nothing, false))
}

/// Asks the daemon to stand for election (TEST). It does so if it may. The answer says only that it
/// has heard.
pub fn election<L: Link, T: Ticker>(link: &mut L, ticker: &mut T) -> QueryEnd
    ensures asks { EndsByWord L.Link T.Ticker (message Kind.Test) by_number heard_in link.old
        ticker.old link.new ticker.new result }
    ensures once { AsksOnce L.Link T.Ticker link.old ticker.old link.new ticker.new }
    ensures faults { LinkCounts L.Link link.old link.new (result ≡ QueryEnd.LinkFault) }
{
    heard_end(ask_by_message(link, ticker, Kind::Test, Body::Nothing, false))
}

/// The kind of message that turns a trace on or off.
fn trace_kind(on: bool) -> Kind
    ensures { result ≡ trace_kind on }
{
    if on { Kind::TraceOn } else { Kind::TraceOff }
}

/// Turns the daemon's trace on or off (TRACEON, TRACEOFF).
pub fn trace<L: Link, T: Ticker>(on: bool, link: &mut L, ticker: &mut T) -> QueryEnd
    ensures asks { EndsByWord L.Link T.Ticker (message (trace_kind on)) by_number heard_in link.old
        ticker.old link.new ticker.new result }
    ensures once { AsksOnce L.Link T.Ticker link.old ticker.old link.new ticker.new }
    ensures faults { LinkCounts L.Link link.old link.new (result ≡ QueryEnd.LinkFault) }
{
    let kind = trace_kind(on);
    heard_end(ask_by_message(link, ticker, kind, Body::Nothing, false))
}

/// The end of a question whose answer says whether the date was set.
fn date_end(asked: AskEnd) -> QueryEnd
    ensures { result ≡ end_of date_answer asked }
{
    match asked {
        AskEnd::Answer(Datagram::Message(message), _) => {
            QueryEnd::Date(matches!(message.kind(), Kind::DateAck))
        }
        AskEnd::Answer(Datagram::Stamp(_), _) => QueryEnd::Date(false),
        AskEnd::NoAnswer => QueryEnd::NoAnswer,
        AskEnd::LinkFault => QueryEnd::LinkFault,
        AskEnd::OutOfMemory => QueryEnd::OutOfMemory,
    }
}

/// Sets the network's date, in microseconds since 1970 (SETDATE). A daemon that is master sets it;
/// one that follows passes it on to its master.
pub fn setdate<L: Link, T: Ticker>(time: Micros, link: &mut L, ticker: &mut T) -> QueryEnd
    ensures asks { EndsByWord L.Link T.Ticker (date_message time) by_date date_answer link.old
        ticker.old link.new ticker.new result }
    ensures once { AsksOnce L.Link T.Ticker link.old ticker.old link.new ticker.new }
    ensures faults { LinkCounts L.Link link.old link.new (result ≡ QueryEnd.LinkFault) }
{
    date_end(ask_by_message(link, ticker, Kind::SetDate, Body::Time(time), true))
}

/// The reading of a reply: the daemon's clock, in microseconds since 1970.
fn reading_of(reply: &Datagram) -> i64
    requires { IsReplied reply.now }
    ensures reading { result ≡ reading_in reply.now }
    ensures low { negsuc 2147483647999999 <ℤ result }
    ensures high { result <ℤ pos 2147483648000000 }
{
    match reply {
        Datagram::Stamp(Stamp::Reply(reply)) => {
            let _ticket = reply.ticket();
            reply.reading()
        }
        _ => unreachable!(),
    }
}

/// How far the daemon's clock is ahead, by a reply that came at this tick, and by how much that may
/// be wrong: half the round trip, rounded up.
fn sample(start: &Start, reply: &Datagram, came: u64) -> QueryEnd
    requires wall { IsWall start.now.wall }
    requires reply { IsReplied reply.now }
    requires first { start.now.first ≤ start.now.sent }
    requires sent { start.now.sent ≤ came }
    requires came { came ≤ 2 ^ 61 }
    ensures { result ≡ diff_in start.now.wall start.now.first start.now.sent reply.now came }
{
    let own = start.wall + (start.sent - start.first) as i64;
    let trip = came - start.sent;
    let half = trip / 2;
    QueryEnd::Diff(reading_of(reply) - own - half as i64, (trip - half) as i64)
}

/// Asks how far the daemon's clock is ahead of this machine's, by a stamp request with counter 0.
pub fn clockdiff<L: Link, T: Ticker>(link: &mut L, ticker: &mut T) -> QueryEnd
    ensures asks { (o : Outside) (word : ℕ) (wall : ℤ)
        → HoldsOf L.Link T.Ticker (KnowsExactly o) link.old ticker.old → T.word_is ticker.old ≡ Some word
        → T.wall_is ticker.old ≡ Some wall
        → HoldsOf L.Link T.Ticker (QueryEnds (stamp word) (Question.OfWord word)
        (diff_in wall (tick_given o.last o.readings 0) (tick_given o.last o.readings 1)) o) link.new
        ticker.new (L.send_faults link.old) (L.send_faults link.new) result }
    ensures once { AsksOnce L.Link T.Ticker link.old ticker.old link.new ticker.new }
    ensures faults { LinkCounts L.Link link.old link.new (result ≡ QueryEnd.LinkFault) }
{
    let start = begin(ticker);
    let request = Datagram::Stamp(Stamp::Request {
        word: start.word,
        counter: 0,
    });
    match ask(link, ticker, &request, Question::OfWord(start.word)) {
        AskEnd::Answer(answer, came) => sample(&start, &answer, came),
        AskEnd::NoAnswer => QueryEnd::NoAnswer,
        AskEnd::LinkFault => QueryEnd::LinkFault,
        AskEnd::OutOfMemory => QueryEnd::OutOfMemory,
    }
}
