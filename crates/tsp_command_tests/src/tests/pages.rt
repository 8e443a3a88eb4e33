//! What a daemon writes on its page, worked out by hand from the layout and the rules.
ghost use Rattle.std.specs.Prelude.{◌≡◌, ◌≤◌, ◌^◌, IfOk, IfSome, None, false, true};
ghost use Rattle.tsp_args.specs.Serves.{IsServe};

use std::alloc::{AllocError, Global};
use std::cell::Cell;
use tsp_args::command::{Command, command_of};
use tsp_args::serve::ServeWords;
use tsp_base::place::{PeerId, Place};
use tsp_daemon::command::serve_words;
use tsp_daemon::exit::DaemonExit;
use tsp_io::addr::Addr;
use tsp_io::link::{Bound, Link, Recv, Sent};
use tsp_io::memory::MemorySink;
use tsp_io::memory_board::{MarkedOctets, MemoryBoard};
use tsp_io::memory_link::MemoryLink;
use tsp_io::memory_ticker::MemoryTicker;
use tsp_io::origin::Origin;
use tsp_io::paged::Paged;
use tsp_io::ticker::Ticker;

/// The master's MASTERACK with number 3 and the name `m`.
const MASTERACK: &[u8] = &[4, 1, 0, 3, 0, 0, 0, 0, 0, 0, 0, 0, b'm', 0];

/// Its ADJTIME with number 7 by 500 microseconds.
const ADJTIME: &[u8] = &[1, 1, 0, 7, 0, 0, 0, 0, 0, 0, 1, 0xf4, b'm', 0];

/// Its SETTIME with number 8 to 1,000 seconds.
const SETTIME: &[u8] = &[5, 1, 0, 8, 0, 0, 3, 0xe8, 0, 0, 0, 0, b'm', 0];

/// The readings: at the boot, and two in each of six turns.
const TICKS: [u64; 13] = [
    0, 10, 20, 1_000_010, 1_000_020, 80_000_000, 80_000_001, 80_000_100, 80_000_200, 82_000_000,
    82_000_000, 84_000_000, 84_000_000,
];

/// From where ticks are counted.
const ORIGIN: Origin = Origin {
    counter: 4,
    nanos: 5_000,
    tick: 0,
    rate: -40,
};

/// The least number of 64 bits.
const LOWEST: i64 = i64::MIN;

/// The fields of a page that change: tick, target, rest, least, moved, steps, role, master, alive.
type Fields = (u64, i64, i64, i64, i64, u64, u64, u64, u64);

/// What stands on the page of a slave of six turns: at its beginning; after a second; when its quiet time ends; when it
/// follows the master; when that corrects its clock by 500 microseconds; and when it sets it.
const PAGES: [Fields; 6] = [
    (0, 1_000, 0, LOWEST, 0, 0, 0, 0, 3),
    (0, 1_000, 0, 1_001_023, 0, 0, 0, 0, 1_000_020),
    (0, 1_000, 0, 80_001_004, 0, 0, 0, 0, 80_000_001),
    (0, 1_000, 0, 80_001_203, 0, 0, 1, 1, 80_000_200),
    (
        82_000_000, 82_001_500, 500, 82_001_003, 500, 0, 1, 1, 82_000_000,
    ),
    (
        84_000_000,
        1_000_000_000,
        0,
        LOWEST,
        915_999_000,
        1,
        1,
        1,
        84_000_000,
    ),
];

/// From where ticks are counted: nanoseconds, tick and rate.
type Counted = (u64, u64, i64);

/// At first, and after the rate was changed to 25,000 parts in 10^9 at tick 1,000,023: with 40 parts less
/// than the counter that tick passed after 1,000,024 microseconds.
const FIRST: Counted = (5_000, 0, -40);

const TUNED: Counted = (1_000_029_000, 1_000_023, 25_000);

/// The words of a slave of so many turns, with one peer; None where they aren't a daemon's.
fn words_of(alloc: Global, turns: &str) -> Result<Option<ServeWords>, AllocError>
    ensures { IfOk result (λ words. IfSome words IsServe) }
{
    let mut words = Vec::new(alloc);
    for word in ["serve", "127.0.0.1:525", "a", "s", turns, "127.0.0.1:526"] {
        words.push(String::from_str(alloc, word)?)?;
    }
    match command_of(alloc, words.as_slice())? {
        Some(Command::Serve(words)) => Ok(Some(words)),
        _ => Ok(None),
    }
}

/// A number as the octets of the page: the lowest first.
fn put(octets: &mut [u8], at: usize, number: u64) {
    for (place, octet) in number.to_le_bytes().iter().enumerate() {
        if let Some(there) = octets.get_mut(at.wrapping_mul(8).wrapping_add(place)) {
            *there = *octet;
        }
    }
}

/// The octets of the daemon's half behind its sequence.
fn octets_of(fields: &Fields, counted: Counted) -> [u8; 112] {
    let numbers = [
        7,
        4,
        counted.0,
        counted.1,
        counted.2.cast_unsigned(),
        fields.0,
        fields.1.cast_unsigned(),
        fields.2.cast_unsigned(),
        fields.3.cast_unsigned(),
        fields.4.cast_unsigned(),
        fields.5,
        fields.6,
        fields.7,
        fields.8,
    ];
    let mut octets = [0; 112];
    for (at, number) in numbers.iter().enumerate() {
        put(&mut octets, at, *number);
    }
    octets
}

/// Whether a write is this one.
fn is_mark(mark: Option<&MarkedOctets>, at: u64, octets: &[u8]) -> bool {
    match mark {
        Some(mark) => mark.at == at && mark.octets.as_slice() == octets,
        None => false,
    }
}

/// Whether three writes from this place on are those of a page, the number of which is `n`: the sequence, odd, the
/// fields, and the sequence, even. The first sequence of a life is twice its word.
fn is_page(marks: &[MarkedOctets], n: usize, fields: &Fields, counted: Counted) -> bool {
    let first = n.wrapping_mul(3);
    let sequence = 14u64.wrapping_add(2u64.wrapping_mul(n as u64));
    is_mark(
        marks.get(first),
        64,
        &sequence.wrapping_add(1).to_le_bytes(),
    ) && is_mark(
        marks.get(first.wrapping_add(1)),
        72,
        &octets_of(fields, counted),
    ) && is_mark(
        marks.get(first.wrapping_add(2)),
        64,
        &sequence.wrapping_add(2).to_le_bytes(),
    )
}

/// Whether these are the writes of so many pages, of which those after the first one count so.
fn are_pages(marks: Option<&[MarkedOctets]>, pages: usize, later: Counted) -> bool {
    let Some(marks) = marks else {
        return false;
    };
    marks.len() == pages.wrapping_mul(3)
        && PAGES.iter().take(pages).enumerate().all(|(n, fields)| is_page(
            marks,
            n,
            fields,
            if n == 0 { FIRST } else { later },
        ))
}

/// A link over which the master is heard, where these calls fail.
fn link_of(alloc: Global, failing: &[u32]) -> Result<MemoryLink, AllocError> {
    let mut link = MemoryLink::new(alloc, failing)?;
    link.nothing()?;
    link.nothing()?;
    link.nothing()?;
    for octets in [MASTERACK, ADJTIME, SETTIME] {
        link.arrive(Place::Peer(PeerId(1)), octets)?;
    }
    Ok(link)
}

/// A ticker with these readings, whose moments are 3 microseconds later.
fn ticker_of(alloc: Global) -> Result<MemoryTicker, AllocError> {
    Ok(
        MemoryTicker::new(alloc, &TICKS, 1_000, 7)?
            .counted_from(ORIGIN)
            .delayed(3),
    )
}

/// Whether a slave ends so where these calls of its link fail, and its board shows these octets, and wrote so many
/// pages, of which those after the first one count so.
fn writes(
    alloc: Global,
    failing: &[u32],
    views: Vec<MarkedOctets>,
    end: DaemonExit,
    pages: usize,
    later: Counted,
) -> Result<bool, AllocError> {
    let Some(words) = words_of(alloc, "6")? else {
        return Ok(false);
    };
    let mut sink = MemorySink::new(alloc, &[])?;
    let mut link = link_of(alloc, failing)?;
    let board = MemoryBoard::new(alloc, &[])?.showing(views);
    let mut ticker = Paged::new(ticker_of(alloc)?, Some(board));
    let ended = serve_words(alloc, &words, &mut sink, &mut link, &mut ticker);
    match ticker.board() {
        Some(board) => Ok(ended == end && are_pages(board.marks(), pages, later)),
        None => Ok(false),
    }
}

/// A slave writes its page at its beginning, after each change and after a second without one.
#[test]
fn a_slave_writes_its_page(rt: HostRuntime) {
    let none = Vec::new(rt.alloc());
    assert!(rt; writes(rt.alloc(), &[], none, DaemonExit::Done, 6, FIRST) == Ok(true));
}

/// What a read of the look's half gives at this place, with this sequence, life, drift and learned rate.
fn look_of(
    alloc: Global,
    at: u64,
    sequence: u64,
    life: u64,
    drift: u64,
    learned: i64,
) -> Result<Vec<MarkedOctets>, AllocError> {
    let mut octets = [0; 336];
    put(&mut octets, 0, sequence);
    put(&mut octets, 1, life);
    put(&mut octets, 7, drift);
    put(&mut octets, 9, learned.cast_unsigned());
    let mut views = Vec::new(alloc);
    views.push(MarkedOctets {
        at,
        octets: Vec::from_slice(alloc, &octets)?,
    })?;
    Ok(views)
}

/// A slave counts at the rate for which the look's half asks, from the moment when it says that it is alive, if that
/// isn't being written, is of its life, and its drift allows the rate.
#[test]
fn a_slave_counts_at_the_rate_that_is_asked_for(rt: HostRuntime) -> Result<(), AllocError> {
    let alloc = rt.alloc();
    let asked = look_of(alloc, 512, 4, 7, 25, 25_000)?;
    assert!(rt; writes(alloc, &[], asked, DaemonExit::Done, 6, TUNED)?);
    let odd = look_of(alloc, 512, 5, 7, 25, 25_000)?;
    assert!(rt; writes(alloc, &[], odd, DaemonExit::Done, 6, FIRST)?);
    let other_life = look_of(alloc, 512, 4, 8, 25, 25_000)?;
    assert!(rt; writes(alloc, &[], other_life, DaemonExit::Done, 6, FIRST)?);
    let beyond = look_of(alloc, 512, 4, 7, 24, 25_000)?;
    assert!(rt; writes(alloc, &[], beyond, DaemonExit::Done, 6, FIRST)?);
    let wide = look_of(alloc, 512, 4, 7, 1_001, 25_000)?;
    assert!(rt; writes(alloc, &[], wide, DaemonExit::Done, 6, FIRST)?);
    let same = look_of(alloc, 512, 4, 7, 25, -40)?;
    assert!(rt; writes(alloc, &[], same, DaemonExit::Done, 6, FIRST)?);
    Ok(())
}

/// If a receive fails, the pages of the turns before it stand there; before the bind nothing is written.
#[test]
fn a_page_stays_behind(rt: HostRuntime) {
    for (failing, pages) in [(0, 0), (1, 1), (3, 2)] {
        let none = Vec::new(rt.alloc());
        let end = DaemonExit::LinkFault;
        assert!(rt; writes(rt.alloc(), &[failing], none, end, pages, FIRST) == Ok(true));
    }
}

/// How many sends a slave tries, and how many readings it leaves, over a ticker.
fn tries<T: Ticker>(alloc: Global, ticker: &mut T) -> Result<usize, AllocError> {
    let Some(words) = words_of(alloc, "6")? else {
        return Ok(0);
    };
    let mut sink = MemorySink::new(alloc, &[])?;
    let mut link = link_of(alloc, &[])?;
    serve_words(alloc, &words, &mut sink, &mut link, ticker);
    Ok(link.tried())
}

/// With a board a slave reads as often, and sends as much, as without one.
#[test]
fn a_page_changes_nothing_else(rt: HostRuntime) -> Result<(), AllocError> {
    let mut bare = ticker_of(rt.alloc())?;
    let without = tries(rt.alloc(), &mut bare)?;
    let mut paged = Paged::new(
        ticker_of(rt.alloc())?,
        Some(MemoryBoard::new(rt.alloc(), &[])?),
    );
    assert!(rt; without > 0 && tries(rt.alloc(), &mut paged)? == without);
    assert!(rt; bare.left() == 0 && paged.tick() == bare.tick());
    Ok(())
}

/// A link that notes at its first send how often a board was written by then.
#[derive(Drop)]
struct NotingLink<'a> {
    marks: &'a Cell<u64>,
    noted: &'a Cell<u64>,
}

impl<'a> Link for NotingLink<'a> {
    ghost arrivals = { λ _. None };

    ghost tried = { λ _. None };

    ghost binds = { λ _. None };

    ghost waits = { λ _. None };

    ghost calls = { λ _. None };

    ghost stranger = { λ _. false };

    ghost faults = { λ _. 0 };

    ghost send_faults = { λ _. 0 };

    fn bind(&mut self, _local: Addr, _peers: &[Addr]) -> Bound {
        Bound::Bound
    }

    fn recv(&mut self, _buf: &mut [u8], _wait: u64) -> Recv {
        Recv::Nothing
    }

    fn send(&mut self, _to: Place, _octets: &[u8]) -> Sent {
        if self.noted.get() == 0 {
            self.noted.set(self.marks.get());
        }
        Sent::Sent
    }
}

/// A ticker that jumps behind the quiet time, with a board of which the writes are counted.
#[derive(Drop)]
struct CountingTicker<'a> {
    marks: &'a Cell<u64>,
    last: u64,
    ghost bounded: { last ≤ 2 ^ 61 },
}

impl<'a> Ticker for CountingTicker<'a> {
    ghost readings = { λ _. None };

    ghost wall_is = { λ _. None };

    ghost word_is = { λ _. None };

    ghost left_at_wall = { λ _. None };

    ghost last = { λ s. s.last };

    ghost origin_is = { λ _. None };

    ghost delay_is = { λ _. None };

    ghost boarded = { λ _. true };

    ghost marks = { λ _. None };

    ghost views = { λ _. None };

    fn tick(&mut self) -> u64 {
        self.last = self.last.saturating_add(40_000_000).min(1 << 61);
        self.last
    }

    fn wall(&mut self) -> i64 {
        0
    }

    fn word(&mut self) -> u64 {
        5
    }

    fn origin(&self) -> Option<Origin> {
        Some(ORIGIN)
    }

    fn moment(&self) -> u64 {
        self.last
    }

    fn has_board(&self) -> bool {
        true
    }

    fn mark(&mut self, _at: u64, _octets: &[u8]) {
        self.marks.set(self.marks.get().saturating_add(1));
    }

    fn view(&mut self, _at: u64, _buf: &mut [u8]) -> bool {
        false
    }

    fn retune(&mut self, _tick: u64, _rate: i64) -> Option<Origin> {
        None
    }
}

/// A turn's page is written before its first send: the three writes of the beginning come first, and those of the turn
/// in which the quiet time ends.
#[test]
fn the_page_comes_before_the_sends(rt: HostRuntime) -> Result<(), AllocError> {
    let Some(words) = words_of(rt.alloc(), "1")? else {
        panic!(rt; "no words");
    };
    let (marks, noted) = (Cell::new(0), Cell::new(0));
    let mut sink = MemorySink::new(rt.alloc(), &[])?;
    let mut link = NotingLink {
        marks: &marks,
        noted: &noted,
    };
    let mut ticker = CountingTicker {
        marks: &marks,
        last: 0,
    };
    let end = serve_words(rt.alloc(), &words, &mut sink, &mut link, &mut ticker);
    assert!(rt; end == DaemonExit::Done && noted.get() == 6 && marks.get() == 6);
    Ok(())
}
