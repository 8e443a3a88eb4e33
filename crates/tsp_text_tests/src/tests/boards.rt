//! What no contract says of boards, and of the counter from which other programs count ticks.

use std::alloc::AllocError;
use std::cell::Cell;
use std::io;
use std::io::ErrorKind;
use std::os::unix::fs::FileExt;
use std::rt::Clock;
use std::time::Duration;
use tsp_io::board::{Board, Marked};
use tsp_io::clock::MachineTicker;
use tsp_io::counter::Counter;
use tsp_io::file_board::FileBoard;
use tsp_io::memory_board::{MarkedOctets, MemoryBoard};
use tsp_io::memory_ticker::MemoryTicker;
use tsp_io::origin::Origin;
use tsp_io::paged::Paged;
use tsp_io::rate::Rate;
use tsp_io::ticker::Ticker;
use tsp_io::unslewed::Unslewed;

/// Whether these are the writes, in their order.
fn are(marks: Option<&[MarkedOctets]>, wanted: &[(u64, &[u8])]) -> bool {
    let Some(marks) = marks else {
        return false;
    };
    marks.len() == wanted.len()
        && marks.iter().zip(wanted).all(|(mark, (at, octets))| mark.at == *at
            && mark.octets.as_slice() == *octets)
}

/// Whether writes of one octet give these answers in turn.
fn writes<B: Board>(board: &mut B, wanted: &[Marked]) -> bool {
    for (at, answer) in wanted.iter().enumerate() {
        if board.write(at as u64, b"x") != *answer {
            return false;
        }
    }
    true
}

/// The first write that a test names fails, and all that come after it.
#[test]
fn a_board_in_memory_fails_from_where_told(rt: HostRuntime) -> Result<(), AllocError> {
    let mut board = MemoryBoard::new(rt.alloc(), &[1])?;
    let wanted = [Marked::Written, Marked::Failed, Marked::Failed];
    assert!(rt; writes(&mut board, &wanted));
    assert!(rt; are(board.marks(), &[(0, b"x"), (1, b"x"), (2, b"x")]));
    Ok(())
}

/// A ticker writes on the board that it has, and nowhere if it has none.
#[test]
fn a_ticker_writes_on_its_board(rt: HostRuntime) -> Result<(), AllocError> {
    let bare = MemoryTicker::new(rt.alloc(), &[7], 0, 0)?;
    let mut ticker = Paged::new(bare, Some(MemoryBoard::new(rt.alloc(), &[])?));
    ticker.mark(64, b"ab");
    ticker.mark(72, b"c");
    assert!(rt; ticker.has_board() && ticker.tick() == 7);
    let Some(board) = ticker.board() else {
        panic!(rt; "no board");
    };
    assert!(rt; are(board.marks(), &[(64, b"ab"), (72, b"c")]));
    let bare = MemoryTicker::new(rt.alloc(), &[7], 0, 0)?;
    let mut none: Paged<MemoryTicker, MemoryBoard> = Paged::new(bare, None);
    none.mark(64, b"ab");
    assert!(rt; !none.has_board() && none.board().is_none());
    Ok(())
}

/// A file of 8 octets, of which one write takes so many at most; it fails once it is at 0.
#[derive(Drop)]
struct Small<'a> {
    octets: &'a Cell<[u8; 8]>,
    most: &'a Cell<usize>,
}

impl<'a> FileExt for Small<'a> {
    fn read_at(&self, buf: &mut [u8], offset: u64) -> io::Result<usize> {
        if self.most.get() == 0 {
            return Err(io::Error::from(ErrorKind::NotConnected));
        }
        let octets = self.octets.get();
        let count = buf.len().min(octets.len().saturating_sub(offset as usize));
        for (at, place) in buf[..count].iter_mut().enumerate() {
            if let Some(octet) = octets.get((offset as usize).wrapping_add(at)) {
                *place = *octet;
            }
        }
        Ok(count)
    }

    fn write_at(&self, buf: &[u8], offset: u64) -> io::Result<usize> {
        if self.most.get() == 0 {
            return Err(io::Error::from(ErrorKind::StorageFull));
        }
        let count = buf.len().min(self.most.get());
        let mut octets = self.octets.get();
        for (at, octet) in buf[..count].iter().enumerate() {
            if let Some(place) = octets.get_mut((offset as usize).wrapping_add(at)) {
                *place = *octet;
            }
        }
        self.octets.set(octets);
        Ok(count)
    }
}

/// A board over a file writes at the place. A write that isn't taken whole fails, and so do all after
/// it, which write nothing.
#[test]
fn a_board_over_a_file_stops_at_a_fault(rt: HostRuntime) {
    let (octets, most) = (Cell::new(*b"--------"), Cell::new(3));
    let mut board = FileBoard::new(Small {
        octets: &octets,
        most: &most,
    });
    assert!(rt; board.write(2, b"abc") == Marked::Written);
    assert!(rt; octets.get() == *b"--abc---");
    assert!(rt; board.write(0, b"defg") == Marked::Failed);
    assert!(rt; octets.get() == *b"defbc---");
    most.set(8);
    assert!(rt; board.write(5, b"x") == Marked::Failed);
    assert!(rt; octets.get() == *b"defbc---");
}

/// A board over a file reads what stands at a place. A read that isn't filled fails, and so does one that the system
/// refuses; neither ends the writes.
#[test]
fn a_board_over_a_file_reads(rt: HostRuntime) {
    let (octets, most) = (Cell::new(*b"abcdefgh"), Cell::new(8));
    let mut board = FileBoard::new(Small {
        octets: &octets,
        most: &most,
    });
    let mut buf = [0; 3];
    assert!(rt; board.read(2, &mut buf) && buf == *b"cde");
    assert!(rt; board.read(5, &mut buf) && buf == *b"fgh");
    assert!(rt; !board.read(6, &mut buf));
    most.set(0);
    assert!(rt; !board.read(0, &mut buf));
    most.set(8);
    assert!(rt; board.write(0, b"x") == Marked::Written && board.faults() == 0);
}

/// A machine whose monotonic clock a test sets, in nanoseconds.
#[derive(Drop)]
struct Machine<'a> {
    rt: HostRuntime,
    nanos: &'a Cell<u64>,
}

impl<'a> Clock for Machine<'a> {
    fn monotonic(&self) -> io::Result<Duration> {
        Ok(Duration::from_nanos(self.nanos.get()))
    }

    fn since_1970(&self) -> io::Result<Duration> {
        self.rt.since_1970()
    }
}

/// The ticks that a program counts by itself from there, when the counter shows so many nanoseconds.
fn counts(origin: Origin, nanos: u64) -> i128 {
    let elapsed = i128::from(nanos)
        .wrapping_sub(i128::from(origin.nanos))
        .div_euclid(1_000);
    let ahead = elapsed
        .wrapping_mul(i128::from(origin.rate))
        .div_euclid(1_000_000_000);
    i128::from(origin.tick)
        .wrapping_add(elapsed)
        .wrapping_add(ahead)
}

/// From the first reading on, a program counts the same ticks by the origin; before it there is none.
/// A moment is no reading.
#[test]
fn programs_count_the_same_ticks(rt: HostRuntime) {
    let nanos = Cell::new(5_000_000_123_999);
    let Some(rate) = Rate::of(-40_000) else {
        panic!(rt; "no rate");
    };
    let machine = Machine { rt, nanos: &nanos };
    let mut ticker = MachineTicker::new(machine, rate).counted_by(Counter::Raw);
    assert!(rt; ticker.origin().is_none() && ticker.moment() == 0);
    assert!(rt; ticker.tick() == 0);
    let wanted = Origin {
        counter: 4,
        nanos: 5_000_000_123_000,
        tick: 0,
        rate: -40_000,
    };
    assert!(rt; ticker.origin() == Some(wanted));
    for more in [0, 1, 999, 1_000, 24_999_999, 25_000_000, 3_600_000_000_001] {
        let now = 5_000_000_123_999u64.wrapping_add(more);
        nanos.set(now);
        assert!(rt;
            i128::from(ticker.moment()) == counts(wanted, now),
            "{more}"
        );
        assert!(rt; i128::from(ticker.tick()) == counts(wanted, now), "{more}");
    }
    nanos.set(0);
    assert!(rt; ticker.moment() == ticker.tick());
}

/// Whether a ticker that reads a counter, which a test sets, shows the ticks that a program counts from there.
fn shows<'a>(ticker: &mut MachineTicker<Machine<'a>>, nanos: &Cell<u64>, wanted: Origin) -> bool {
    for more in [0, 1, 999, 1_000, 24_999_999, 25_000_000, 3_600_000_000_001] {
        let now = wanted.nanos.cast_unsigned().wrapping_add(more);
        nanos.set(now);
        if i128::from(ticker.moment()) != counts(wanted, now)
            || i128::from(ticker.tick()) != counts(wanted, now)
        {
            return false;
        }
    }
    true
}

/// After a change of the rate a program counts the same ticks by the new origin, which begins at the first whole
/// microsecond of the tick of the change; the ticks don't fall. A change to the same rate, to one beyond the bound
/// and at an earlier tick is none.
#[test]
fn ticks_go_on_at_another_rate(rt: HostRuntime) {
    let nanos = Cell::new(5_000_000_123_999);
    let Some(rate) = Rate::of(-40_000) else {
        panic!(rt; "no rate");
    };
    let machine = Machine { rt, nanos: &nanos };
    let mut ticker = MachineTicker::new(machine, rate).counted_by(Counter::Raw);
    assert!(rt; ticker.retune(0, 1).is_none());
    assert!(rt; ticker.tick() == 0);
    nanos.set(5_600_000_123_999);
    let moment = ticker.moment();
    assert!(rt; moment == 599_976_000);
    assert!(rt; ticker.retune(moment, -40_000).is_none());
    assert!(rt; ticker.retune(moment, 1_000_001).is_none());
    let wanted = Origin {
        counter: 4,
        nanos: 5_600_000_123_000,
        tick: 599_976_000,
        rate: 1_000_000,
    };
    assert!(rt; ticker.retune(moment, 1_000_000) == Some(wanted));
    assert!(rt; ticker.origin() == Some(wanted) && ticker.tick() == moment);
    assert!(rt; ticker.retune(moment - 1, 5).is_none());
    assert!(rt; shows(&mut ticker, &nanos, wanted));
    let later = Origin {
        counter: 4,
        nanos: 9_200_000_123_000,
        tick: 4_203_576_000,
        rate: 7,
    };
    assert!(rt; ticker.retune(ticker.moment(), 7) == Some(later));
    assert!(rt; shows(&mut ticker, &nanos, later));
}

/// The machine's counters have the numbers that Linux gives them, and both move. The old one is taken
/// where it is asked for.
#[test]
fn the_machine_has_two_counters(rt: HostRuntime) {
    let raw = Unslewed::new(rt, Counter::Raw);
    let old = Unslewed::new(rt, Counter::Monotonic);
    assert!(rt; raw.counter().number() == 4 && old.counter().number() == 1);
    let mut ticker = MachineTicker::new(raw, Rate::own()).counted_by(Counter::Raw);
    assert!(rt; ticker.tick() == 0);
    assert!(rt; (0..10_000_000).any(|_| ticker.moment() > 1_000));
    assert!(rt; ticker.tick() > 1_000);
}
