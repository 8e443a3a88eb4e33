//! A link over a UDP socket.
ghost use Rattle.std.specs.Prelude.{◌≡◌, ◌≢◌, ◌⊎◌, ◌≤◌, false, true, [], length, None};
ghost use Rattle.tsp_io.specs.Counts.{Rose};
ghost use Rattle.tsp_io.specs.Links.{is_from_stranger, NotesBind, ReceivesOne, Sends};
ghost use Rattle.tsp_io.specs.Directories.{addr_at, ComesFrom};
ghost use Rattle.tsp_io.specs.UdpLinks.{binds_of, discarded_by, IsAwaited, IsBoundTo, TakesFrom};
ghost use Rattle.tsp_io.specs.UdpLinks.{GoesTo, SendsAtMostOnce, SendsOnce, TookAll, TookLess};

use crate::addr::Addr;
use crate::directory::Directory;
use crate::link::{Bound, Link, Recv, Sent};
use crate::socket::{ReceiveFault, Socket};
use std::alloc::Global;
use std::net::Net;
use std::rt::Clock;
use tsp_base::place::Place;

/// A UDP socket and the addresses of its peers. What will come over it isn't told, nor what was sent;
/// what it was bound to is, unless it is bound again.
///
/// A receive that only reports that an earlier datagram couldn't be delivered (ICMP's 'port unreachable' and
/// the like) answers `Nothing` and is no fault. So a peer whose port is closed doesn't end a daemon. The socket is
/// one of IPv4: a sender with another address couldn't be answered.
///
/// If the system has no room for a datagram, its send fails at once: sends never wait.
///
/// If the program was away for more than a second, for instance because it was stopped, what came
/// meanwhile is thrown away, and the receive answers `Nothing`: that is so if it ended more than a
/// second later than its wait lets it, counted from the end of the receive before it.
#[derive(Drop)]
pub struct UdpLink<R> {
    rt: R,
    alloc: Global,
    socket: Option<Socket>,
    directory: Directory,
    again: bool,
    last: Option<Addr>,
    stranger: bool,
    faults: u64,
    send_faults: u64,
}

impl<R: Net + Clock> UdpLink<R> {
    /// A link that isn't bound yet: until `bind`, each receive and each send fails.
    pub fn new(rt: R, alloc: Global) -> UdpLink<R>
        ensures { (result.socket ≡ None) × (result.directory ≡ []) × (result.again ≡ false)
            × (result.last ≡ None) × (result.stranger ≡ false) × (result.faults ≡ 0)
            × (result.send_faults ≡ 0) }
    {
        UdpLink {
            rt,
            alloc,
            socket: None,
            directory: Directory::new(alloc),
            again: false,
            last: None,
            stranger: false,
            faults: 0,
            send_faults: 0,
        }
    }

    /// How many datagrams were thrown away since the last bind because they came while the program
    /// was away.
    pub fn discarded(&self) -> u64
        ensures { result ≡ discarded_by self.now.socket }
    {
        match &self.socket {
            Some(socket) => socket.discarded,
            None => 0,
        }
    }

    /// The address of a peer, or of the stranger whose datagram was the last that came.
    #[inline(always)]
    fn addr_at(&self, place: Place) -> Option<Addr>
        ensures { result ≡ addr_at self.now.directory self.now.last place }
    {
        match place {
            Place::Peer(peer) => self.directory.addr_of(peer),
            Place::Stranger => self.last,
        }
    }

    /// Notes that a datagram came from this address, and says from whom.
    #[inline(always)]
    fn came_from(&mut self, addr: Option<Addr>) -> Place
        ensures place { ComesFrom self.old.directory addr result }
        ensures noted { self.new ≡ record self.old {
          last = addr;
          stranger = is_from_stranger result;
        } }
    {
        let place = match addr {
            Some(addr) => self.directory.place_of(addr),
            None => Place::Stranger,
        };
        self.stranger = place == Place::Stranger;
        self.last = addr;
        place
    }
}

impl<R: Net + Clock> Link for UdpLink<R> {
    ghost arrivals = { λ _. None };

    ghost tried = { λ _. None };

    ghost binds = { λ s. binds_of s.again s.socket s.directory };

    ghost waits = { λ _. None };

    ghost calls = { λ _. None };

    ghost stranger = { λ s. s.stranger };

    ghost faults = { λ s. s.faults };

    ghost send_faults = { λ s. s.send_faults };

    fn bind(&mut self, local: Addr, peers: &[Addr]) -> Bound
        ensures binds { NotesBind (binds_of self.old.again self.old.socket self.old.directory)
            (binds_of self.new.again self.new.socket self.new.directory) result
            (record { local = local; peers = peers.now }) }
        ensures same { self.new.stranger ≡ self.old.stranger }
        ensures later { (self.old.faults ≤ self.new.faults)
            × (self.new.send_faults ≡ self.old.send_faults) }
        ensures cause { result ≡ Bound.Failed → Rose self.old.faults self.new.faults }
        ensures still { result ≢ Bound.Failed → self.new.faults ≡ self.old.faults }
        ensures peers { result ≡ Bound.Bound → self.new.directory ≡ peers.now }
        ensures local { result ≡ Bound.Bound → IsBoundTo local self.new.socket }
    {
        let Ok(directory) = Directory::of(self.alloc, peers) else {
            return Bound::OutOfMemory;
        };
        match Socket::bind(&self.rt, local) {
            Ok(socket) => {
                self.again = self.again || self.socket.is_some();
                self.socket = Some(socket);
                self.directory = directory;
                Bound::Bound
            }
            Err(_) => {
                self.faults = self.faults.saturating_add(1);
                Bound::Failed
            }
        }
    }

    #[inline(always)]
    fn recv(&mut self, buf: &mut [u8], wait: u64) -> Recv
        requires { length buf.old ≡ 512 }
        ensures receives { ReceivesOne None None self.old.stranger self.new.stranger result buf.new }
        ensures same { binds_of self.new.again self.new.socket self.new.directory
            ≡ binds_of self.old.again self.old.socket self.old.directory }
        ensures later { (self.old.faults ≤ self.new.faults)
            × (self.new.send_faults ≡ self.old.send_faults) }
        ensures cause { result ≡ Recv.Failed → Rose self.old.faults self.new.faults }
        ensures still { result ≢ Recv.Failed → self.new.faults ≡ self.old.faults }
        ensures from { TakesFrom self.old.directory self.new.last result }
        ensures waits { IsAwaited wait self.new.socket result }
    {
        let received = match &mut self.socket {
            Some(socket) => socket.receive(&self.rt, buf, wait),
            None => Err(ReceiveFault),
        };
        match received {
            Ok(Some(came)) => Recv::Datagram(self.came_from(came.from), came.count),
            Ok(None) => Recv::Nothing,
            Err(ReceiveFault) => {
                self.faults = self.faults.saturating_add(1);
                Recv::Failed
            }
        }
    }

    #[inline(always)]
    fn send(&mut self, to: Place, octets: &[u8]) -> Sent
        requires { to ≡ Place.Stranger → self.old.stranger ≡ true }
        ensures sends { Sends None None result (to, octets.now) }
        ensures same { (binds_of self.new.again self.new.socket self.new.directory
            ≡ binds_of self.old.again self.old.socket self.old.directory)
            × (self.new.stranger ≡ self.old.stranger) }
        ensures later { (self.new.faults ≡ self.old.faults)
            × (self.old.send_faults ≤ self.new.send_faults) }
        ensures cause { result ≡ Sent.Failed → Rose self.old.send_faults self.new.send_faults }
        ensures still { result ≢ Sent.Failed → self.new.send_faults ≡ self.old.send_faults }
        ensures to { result ≡ Sent.Sent → GoesTo (addr_at self.old.directory self.old.last to)
            self.new.socket }
        ensures whole { result ≡ Sent.Sent → SendsOnce (length octets.now) self.old.socket
            self.new.socket }
        ensures once { SendsAtMostOnce self.old.socket self.new.socket }
        ensures went { result ≡ Sent.Sent → TookAll (length octets.now) self.new.socket }
        ensures failed { result ≡ Sent.Failed
            → (addr_at self.old.directory self.old.last to ≡ None)
            ⊎ TookLess (length octets.now) self.new.socket }
        ensures memory { ¬ result ≡ Sent.OutOfMemory }
    {
        let went = match (self.addr_at(to), &mut self.socket) {
            (Some(addr), Some(socket)) => socket.send(octets, addr),
            _ => false,
        };
        if went {
            Sent::Sent
        } else {
            self.send_faults = self.send_faults.saturating_add(1);
            Sent::Failed
        }
    }
}
