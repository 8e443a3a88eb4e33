//! When a question reads its ticks, by a link and a ticker that share one time.
ghost use Rattle.std.specs.Prelude.{◌≡◌, ◌≤◌, ◌^◌, None, false};

use std::cell::Cell;
use tsp_base::place::{PeerId, Place};
use tsp_io::addr::Addr;
use tsp_io::link::{Bound, Link, Recv, Sent};
use tsp_io::origin::Origin;
use tsp_io::ticker::Ticker;
use tsp_query::query::{QueryEnd, clockdiff};

/// A reply with ticket 2, word 5, counter 0 and the reading 150.
const REPLY: [u8; 28] = [
    0x81, 1, 0, 2, 0, 0, 0, 0, 0, 0, 0, 5, 0, 0, 0, 0, 0, 0, 0, 0, 0, 0, 0, 0, 0, 0, 0, 150,
];

/// A time that a link and a ticker share, in microseconds.
type Time<'a> = &'a Cell<u64>;

/// Lets so many microseconds pass.
fn pass(time: Time<'_>, micros: u64) {
    time.set(time.get().saturating_add(micros));
}

/// A link over which a send takes 100 microseconds and a receive 200; each receive gives the reply.
#[derive(Drop)]
struct SlowLink<'a> {
    time: Time<'a>,
}

impl<'a> Link for SlowLink<'a> {
    ghost arrivals = { λ _. None };

    ghost tried = { λ _. None };

    ghost binds = { λ _. None };

    ghost waits = { λ _. None };

    ghost calls = { λ _. None };

    ghost stranger = { λ _. false };

    ghost faults = { λ _. 0 };

    ghost send_faults = { λ _. 0 };

    fn bind(&mut self, _local: Addr, _peers: &[Addr]) -> Bound {
        Bound::Bound
    }

    fn recv(&mut self, buf: &mut [u8], _wait: u64) -> Recv {
        pass(self.time, 200);
        if buf.len() < 28 {
            return Recv::Nothing;
        }
        buf[..28].copy_from_slice(&REPLY);
        Recv::Datagram(Place::Peer(PeerId(0)), 28)
    }

    fn send(&mut self, _to: Place, _octets: &[u8]) -> Sent {
        pass(self.time, 100);
        Sent::Sent
    }
}

/// A ticker of that time, with the wall clock 0 and the word 5.
#[derive(Drop)]
struct SharedTicker<'a> {
    time: Time<'a>,
    last: u64,
    ghost bounded: { last ≤ 2 ^ 61 },
}

impl<'a> Ticker for SharedTicker<'a> {
    ghost readings = { λ _. None };

    ghost wall_is = { λ _. None };

    ghost word_is = { λ _. None };

    ghost left_at_wall = { λ _. None };

    ghost last = { λ s. s.last };

    ghost origin_is = { λ _. None };

    ghost delay_is = { λ _. None };

    ghost boarded = { λ _. false };

    ghost marks = { λ _. None };

    ghost views = { λ _. None };

    fn tick(&mut self) -> u64 {
        self.last = self.time.get().max(self.last).min(1 << 61);
        self.last
    }

    fn wall(&mut self) -> i64 {
        0
    }

    fn word(&mut self) -> u64 {
        5
    }

    fn origin(&self) -> Option<Origin> {
        None
    }

    fn moment(&self) -> u64 {
        self.last
    }

    fn has_board(&self) -> bool {
        false
    }

    fn mark(&mut self, _at: u64, _octets: &[u8]) {}

    fn view(&mut self, _at: u64, _buf: &mut [u8]) -> bool {
        false
    }

    fn retune(&mut self, _tick: u64, _rate: i64) -> Option<Origin> {
        None
    }
}

/// A question's trip begins before its send and ends after its receive: here it lasts 300
/// microseconds. Half of it is the error, and the clock stood 150 microseconds after the send's tick.
#[test]
fn the_trip_begins_before_the_send(rt: HostRuntime) {
    let time = Cell::new(1_000);
    let mut link = SlowLink { time: &time };
    let mut ticker = SharedTicker {
        time: &time,
        last: 0,
    };
    let end = clockdiff(&mut link, &mut ticker);
    assert!(rt; matches!(end, QueryEnd::Diff(0, 150)));
}
