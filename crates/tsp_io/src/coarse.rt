//! A clock that is read in a few nanoseconds, and is right to a tick of the kernel's.
ghost use Rattle.std.specs.Prelude.{◌≡◌};

use crate::unslewed::reading_of;
use std::io;
use std::net::{Net, SocketAddr, UdpSocket};
use std::rt::Clock;
use std::time::Duration;

/// Linux's number of `CLOCK_MONOTONIC_COARSE`.
const COARSE: i32 = 6;

/// The clocks and the network of `rt`, but the monotonic clock is Linux's `CLOCK_MONOTONIC_COARSE`: what
/// `CLOCK_MONOTONIC` was at the kernel's last tick, 10 ms ago at most. Where the system doesn't give it, it is the
/// monotonic clock of `rt`, which counts from the same moment.
///
/// A link needs no better one to know of a pause of more than a second, and reads it in each receive.
#[derive(Drop)]
pub struct Coarse<R> {
    rt: R,
}

impl<R> Coarse<R> {
    /// The clocks and the network of `rt`, with the coarse monotonic clock.
    pub fn new(rt: R) -> Coarse<R>
        ensures { result.rt ≡ rt }
    {
        Coarse { rt }
    }
}

impl<R: Clock> Clock for Coarse<R> {
    #[inline(always)]
    fn monotonic(&self) -> io::Result<Duration> {
        match reading_of(COARSE) {
            Some(reading) => Ok(reading),
            None => self.rt.monotonic(),
        }
    }

    fn since_1970(&self) -> io::Result<Duration> {
        self.rt.since_1970()
    }

    fn sleep(&self, duration: Duration) {
        self.rt.sleep(duration)
    }
}

impl<R: Net> Net for Coarse<R> {
    type Stream = R::Stream;

    type Listener = R::Listener;

    fn bind(&self, addr: SocketAddr) -> io::Result<R::Listener> {
        self.rt.bind(addr)
    }

    fn connect(&self, addr: SocketAddr) -> io::Result<R::Stream> {
        self.rt.connect(addr)
    }

    fn bind_udp(&self, addr: SocketAddr) -> io::Result<UdpSocket> {
        self.rt.bind_udp(addr)
    }
}
