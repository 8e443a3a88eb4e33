//! A UDP socket whose receives wait for a given time, and whose sends never wait.
ghost use Rattle.std.specs.Prelude.{◌≡◌, ◌↔◌, ◌⊎◌, ◌≤◌, ◌<ℤ◌, length, false, true, None, Some, pos};
ghost use Rattle.std.specs.Prelude.{IfOk, IfSome, IsTrue, OnErr, OnOk};
ghost use Rattle.std.specs.Net.Udp.{udp_raw_fd};
ghost use Rattle.tsp_io.specs.Counts.{one_more};
ghost use Rattle.tsp_io.specs.Directories.{addr_of};
ghost use Rattle.tsp_io.specs.Sockets.{IsWaitFor, is_late, sockaddr_of, at_once};

use crate::addr::Addr;
use crate::machine_clock::machine_micros;
use crate::raw_addr::{RAW_LEN, raw_addr};
use libc::net;
use std::io;
use std::io::ErrorKind;
use std::net::{IpAddr, Ipv4Addr, Net, SocketAddr, UdpSocket};
use std::os::fd::AsRawFd;
use std::rt::Clock;
use std::time::Duration;

/// The number of standard error, the last of the standard streams.
const LAST_STREAM: i32 = 2;

/// How long the program may have been away beyond a receive's wait, in microseconds, before what
/// came meanwhile counts as old.
const LONGEST_PAUSE: u64 = 1_000_000;

/// How many datagrams one receive throws away at most.
const MOST_DISCARDED: u32 = 100_000;

/// How a datagram is sent: it fails at once if there is no room, and raises no signal.
const AT_ONCE: i32 = net::MSG_DONTWAIT | net::MSG_NOSIGNAL;

/// The room that is asked for: 64 MiB, as C's `int`.
const MOST_ROOM: [u8; 16] = [0, 0, 0, 4, 0, 0, 0, 0, 0, 0, 0, 0, 0, 0, 0, 0];

/// How many octets of it are the `int`.
const INT_LEN: u32 = 4;

/// The system reported an error of a receive, and not only that there was no datagram.
#[derive(Clone, Copy)]
pub(crate) struct ReceiveFault;

/// Why a call for a datagram gave none.
#[derive(Clone, Copy)]
enum Untaken {
    /// None is there, and none came within the wait.
    Empty,
    /// A signal came, or the network reported that an earlier datagram of this socket couldn't be
    /// delivered.
    Report,
    /// Any other error of the system.
    Fault,
}

/// A datagram that came: how many of its octets are in the buffer, and its sender's address if that
/// is an IPv4 one.
#[derive(Clone, Copy)]
pub(crate) struct Came {
    /// The octets at the front of the buffer.
    pub count: usize,
    /// The sender's address.
    pub from: Option<Addr>,
}

/// A bound socket. None of the standard streams has its number.
#[derive(Drop)]
pub(crate) struct Socket {
    udp: UdpSocket,
    /// The address that the system was asked for.
    pub local: SocketAddr,
    /// The address of the last send, as the system got it; zeros before the first one.
    pub to: [u8; 128],
    /// How the system was asked to send it.
    pub flags: i32,
    /// How many octets it was asked to send.
    pub octets: usize,
    /// How often the system was asked for a send.
    pub tries: u64,
    /// What it answered to the last one: how many octets it took, or a number below 0; 0 before the first.
    pub answer: isize,
    /// How many datagrams were thrown away.
    pub discarded: u64,
    /// The wait in microseconds that was last set; 0 if none was set, so that receives wait for ever.
    wait: u64,
    /// When the last receive ended, or the bind; None if the machine's clock gave no reading.
    ended: Option<u64>,
    ghost no_stream: { pos 2 <ℤ udp_raw_fd udp },
}

impl Socket {
    /// A socket bound to this address. Fails if the system refuses it, or if it would take the number
    /// of a standard stream that was closed.
    pub(crate) fn bind<R: Net + Clock>(rt: &R, local: Addr) -> io::Result<Socket>
        ensures { IfOk result (λ s. (addr_of s.local ≡ Some local) × (s.discarded ≡ 0)
            × (s.tries ≡ 0)) }
    {
        Socket::bind_to(rt, socket_addr(local))
    }

    /// The same, with the address as the system gets it.
    fn bind_to<R: Net + Clock>(rt: &R, local: SocketAddr) -> io::Result<Socket>
        ensures { IfOk result (λ s. (s.local ≡ local) × (s.discarded ≡ 0) × (s.wait ≡ 0)
            × (s.tries ≡ 0)) }
    {
        let udp = UdpSocket::bind(rt, local)?;
        if udp.as_raw_fd() <= LAST_STREAM {
            return Err(io::Error::from(ErrorKind::Other));
        }
        widen(&udp);
        Ok(Socket {
            udp,
            local,
            to: [0; 128],
            flags: AT_ONCE,
            octets: 0,
            tries: 0,
            answer: 0,
            discarded: 0,
            wait: 0,
            ended: machine_micros(rt),
        })
    }

    /// Sets how many microseconds receives wait; nothing is done if so many are set. Fails if the system
    /// refuses it.
    #[inline(always)]
    fn set_wait(&mut self, wait: u64) -> Result<(), ReceiveFault>
        ensures ok { OnOk result (self.new ≡ record self.old { wait = wait }) }
        ensures err { OnErr result (self.new ≡ self.old) }
    {
        if wait != self.wait {
            return self.change_wait(wait);
        }
        Ok(())
    }

    /// The same, by asking the system for it. (A call of its own, since most receives wait as the one before.)
    #[inline(never)]
    fn change_wait(&mut self, wait: u64) -> Result<(), ReceiveFault>
        ensures ok { OnOk result (self.new ≡ record self.old { wait = wait }) }
        ensures err { OnErr result (self.new ≡ self.old) }
    {
        let timeout = Some(Duration::from_micros(wait));
        if self.udp.set_read_timeout(timeout).is_err() {
            return Err(ReceiveFault);
        }
        self.wait = wait;
        Ok(())
    }

    /// One call of the system's for a datagram, which waits as long as is set.
    fn take(&self, buf: &mut [u8]) -> Result<Came, Untaken>
        requires { length buf.old ≡ 512 }
        ensures { IfOk result (λ came. came.count ≤ 512) }
    {
        match self.udp.recv_from(buf) {
            Ok((count, from)) => Ok(Came {
                count,
                from: addr_of(from),
            }),
            Err(error) => Err(cause_of(error.kind())),
        }
    }

    /// One call of the system's for a datagram that is there already, which is thrown away.
    fn throw_away(&self, buf: &mut [u8; 512]) -> Result<(), Untaken> {
        let count = unsafe { net::recv(self.udp.as_raw_fd(), buf, net::MSG_DONTWAIT) };
        if count >= 0 {
            Ok(())
        } else {
            Err(cause_of(io::Error::from_raw_os_error(os::errno()).kind()))
        }
    }

    /// Throws away the datagrams that are there, at most `MOST_DISCARDED`. Says how many these were,
    /// and whether none is left.
    fn empty(&self) -> Result<(u32, bool), ReceiveFault> {
        let mut buf = [0; 512];
        let mut count: u32 = 0;
        for _ in 0..MOST_DISCARDED {
            match self.throw_away(&mut buf) {
                Ok(()) => count = count.saturating_add(1),
                Err(Untaken::Empty) => return Ok((count, true)),
                Err(Untaken::Report) => {}
                Err(Untaken::Fault) => return Err(ReceiveFault),
            }
        }
        Ok((count, false))
    }

    /// Throws away what is there, and `came` datagrams besides. Once nothing is left, receives count
    /// from now on.
    fn begin_anew(&mut self, rt: &impl Clock, came: u64) -> Result<(), ReceiveFault>
        ensures same { self.new ≡ record self.old {
          discarded = self.new.discarded;
          ended = self.new.ended;
        } }
        ensures counted { self.old.discarded ≤ self.new.discarded }
    {
        self.discarded = self.discarded.saturating_add(came);
        let (count, emptied) = self.empty()?;
        self.discarded = self.discarded.saturating_add(u64::from(count));
        if emptied {
            self.ended = machine_micros(rt);
        }
        Ok(())
    }

    /// A datagram that came; None if none came within the wait. Fails at any error of the system but
    /// one that only says that there was no datagram.
    ///
    /// If the machine's clock shows that it ended more than a second after the last receive had ended,
    /// the wait not counted, the program was away meanwhile: what came by then is thrown away, and
    /// the answer is None.
    #[inline(always)]
    pub(crate) fn receive(
        &mut self,
        rt: &impl Clock,
        buf: &mut [u8],
        wait: u64,
    ) -> Result<Option<Came>, ReceiveFault>
        requires { length buf.old ≡ 512 }
        ensures size { IfOk result (λ came. IfSome came (λ c. c.count ≤ 512)) }
        ensures waits { OnOk result (IsWaitFor wait self.new.wait) }
        ensures fresh { IfOk result (λ came. IfSome came
            (λ _. is_late self.old.ended self.new.ended wait ≡ false)) }
        ensures same { self.new ≡ record self.old {
          wait = self.new.wait;
          discarded = self.new.discarded;
          ended = self.new.ended;
        } }
        ensures counted { self.old.discarded ≤ self.new.discarded }
    {
        self.set_wait(settable(wait))?;
        let came = match self.take(buf) {
            Ok(came) => Some(came),
            Err(Untaken::Fault) => return Err(ReceiveFault),
            Err(_) => None,
        };
        let now = machine_micros(rt);
        if is_late(self.ended, now, wait) {
            return match self.begin_anew(rt, u64::from(came.is_some())) {
                Ok(()) => Ok(None),
                Err(fault) => Err(fault),
            };
        }
        self.ended = now;
        Ok(came)
    }

    /// Asks the system once to send these octets, to the address and in the way that were noted. Says
    /// whether it took all of them.
    #[inline(always)]
    fn try_once(&mut self, octets: &[u8]) -> bool
        requires { self.old.flags ≡ at_once }
        ensures octets { self.new.octets ≡ length octets.now }
        ensures once { self.new.tries ≡ one_more self.old.tries }
        ensures same { self.new ≡ record self.old {
          octets = self.new.octets;
          tries = self.new.tries;
          answer = self.new.answer;
        } }
        ensures answer { IsTrue result ↔ (self.new.answer ≡ pos (length octets.now)) }
    {
        self.octets = octets.len();
        self.tries = self.tries.saturating_add(1);
        let fd = self.udp.as_raw_fd();
        self.answer = unsafe { net::sendto(fd, octets, self.flags, &self.to, RAW_LEN) };
        usize::try_from(self.answer).is_ok_and(|count| count == octets.len())
    }

    /// Sends a datagram, and says whether the system took all of it. The system is asked once, and a send
    /// that finds no room fails at once.
    #[inline(always)]
    pub(crate) fn send(&mut self, octets: &[u8], to: Addr) -> bool
        ensures to { self.new.to ≡ sockaddr_of to }
        ensures waits { self.new.flags ≡ at_once }
        ensures octets { self.new.octets ≡ length octets.now }
        ensures once { self.new.tries ≡ one_more self.old.tries }
        ensures same { self.new ≡ record self.old {
          to = self.new.to;
          flags = self.new.flags;
          octets = self.new.octets;
          tries = self.new.tries;
          answer = self.new.answer;
        } }
        ensures answer { IsTrue result ↔ (self.new.answer ≡ pos (length octets.now)) }
    {
        self.to = raw_addr(to);
        self.flags = AT_ONCE;
        self.try_once(octets)
    }
}

/// Whether a receive ended so late after the last one that the program was away meanwhile; false if
/// the machine's clock gave no reading at one of these ends.
#[inline(always)]
fn is_late(ended: Option<u64>, now: Option<u64>, wait: u64) -> bool
    ensures { result ≡ is_late ended now wait }
{
    match (ended, now) {
        (Some(ended), Some(now)) => {
            now.saturating_sub(ended).saturating_sub(LONGEST_PAUSE) > wait
        }
        _ => false,
    }
}

/// The wait that is set for a receive of at most `wait` microseconds: at least 1, and from 1,000 on
/// so many whole milliseconds. So a caller that waits for a certain time, while datagrams come,
/// asks the system once a millisecond, and not before each receive.
fn settable(wait: u64) -> u64
    ensures { IsWaitFor wait result }
{
    if wait < 1_000 {
        wait.max(1)
    } else {
        wait - wait % 1_000
    }
}

/// What this error of a receive means.
fn cause_of(kind: ErrorKind) -> Untaken {
    match kind {
        ErrorKind::WouldBlock | ErrorKind::TimedOut => Untaken::Empty,
        ErrorKind::Interrupted
        | ErrorKind::ConnectionRefused
        | ErrorKind::ConnectionReset
        | ErrorKind::HostUnreachable
        | ErrorKind::NetworkUnreachable => Untaken::Report,
        _ => Untaken::Fault,
    }
}

/// Asks the system for as much room for what isn't sent yet as it gives.
fn widen(udp: &UdpSocket) {
    let fd = udp.as_raw_fd();
    let _ = unsafe { net::setsockopt(fd, net::SOL_SOCKET, net::SO_SNDBUF, &MOST_ROOM, INT_LEN) };
}

/// The address as a value of the standard library.
fn socket_addr(addr: Addr) -> SocketAddr
    ensures { addr_of result ≡ Some addr }
{
    SocketAddr::new(IpAddr::V4(Ipv4Addr::from_octets(addr.ip)), addr.port)
}

/// The address; None if it isn't an IPv4 one.
fn addr_of(from: SocketAddr) -> Option<Addr>
    ensures { result ≡ addr_of from }
{
    match from.ip() {
        IpAddr::V4(ip) => Some(Addr {
            ip: ip.octets(),
            port: from.port(),
        }),
        IpAddr::V6(_) => None,
    }
}
