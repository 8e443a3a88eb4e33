//! A link to other machines, over which datagrams come and go.
ghost use Rattle.std.specs.Prelude.{◌≡◌, ◌≢◌, ℕ, ◌≤◌, true, length, List, Bool, Option};
ghost use Rattle.std.specs.Option.{option_map};
ghost use Rattle.tsp_io.specs.Counts.{Rose, one_more};
ghost use Rattle.tsp_io.specs.Links.{Arrival, Binding, Tried, NotesReceive, NotesBind, ReceivesOne, Sends};

use crate::addr::Addr;
use tsp_base::place::Place;

/// What a bind answers.
#[derive(Clone, Copy, PartialEq, Eq, Debug)]
pub enum Bound {
    /// The link has its address and its peers.
    Bound,
    /// The system refused the address, for instance because another socket has it.
    Failed,
    /// Out of memory for the list of peers.
    OutOfMemory,
}

/// What one receive answers.
#[derive(Clone, Copy, PartialEq, Eq, Debug)]
pub enum Recv {
    /// A datagram came from this place; so many octets of it, at most 512, are at the front of the buffer.
    Datagram(Place, usize),
    /// None came within the wait.
    Nothing,
    /// The receive failed.
    Failed,
}

/// What one send answers.
#[derive(Clone, Copy, PartialEq, Eq, Debug)]
pub enum Sent {
    /// The system took the datagram. Whether it arrives isn't known.
    Sent,
    /// The send failed, and the datagram is lost.
    Failed,
    /// Out of memory, and nothing was tried.
    OutOfMemory,
}

/// Something over which datagrams come and go.
///
/// A caller binds it once, and then receives and sends. Failed sends are counted apart from failed binds
/// and receives, since a lost datagram is no reason to end a daemon, and a receive that fails is one.
pub trait Link {
    /// The arrivals to come; None if they aren't told.
    ghost arrivals: { Self → Option (List Arrival) };

    /// The sends that were tried; None if they aren't told.
    ghost tried: { Self → Option (List Tried) };

    /// What it was bound to, bind by bind; None if that isn't told.
    ghost binds: { Self → Option (List Binding) };

    /// How many microseconds each receive was to wait; None if that isn't told.
    ghost waits: { Self → Option (List ℕ) };

    /// How many binds and receives were made, up to 2^64 - 1; None if that isn't told.
    ghost calls: { Self → Option ℕ };

    /// Whether the last datagram that came was a stranger's.
    ghost stranger: { Self → Bool };

    /// How often a bind or a receive failed; it never falls, and stays at 2^64 - 1 once it is there.
    ghost faults: { Self → ℕ };

    /// How often a send failed; it never falls, and stays at 2^64 - 1 once it is there.
    ghost send_faults: { Self → ℕ };

    /// Binds to an address of this machine, with the addresses of the peers: the first is that of peer 0, and
    /// so on.
    ///
    /// `Failed` comes only if the count of faults rose in this call; with any other answer the count is
    /// unchanged.
    fn bind(&mut self, local: Addr, peers: &[Addr]) -> Bound
        ensures binds { NotesBind (binds self.old) (binds self.new) result
            (record { local = local; peers = peers.now }) }
        ensures same { (arrivals self.new ≡ arrivals self.old) × (tried self.new ≡ tried self.old)
            × (waits self.new ≡ waits self.old) × (stranger self.new ≡ stranger self.old) }
        ensures counted { calls self.new ≡ option_map one_more (calls self.old) }
        ensures later { (faults self.old ≤ faults self.new)
            × (send_faults self.new ≡ send_faults self.old) }
        ensures cause { result ≡ Bound.Failed → Rose (faults self.old) (faults self.new) }
        ensures still { result ≢ Bound.Failed → faults self.new ≡ faults self.old };

    /// Waits at most `wait` microseconds for a datagram, and gives its first 512 octets; the rest of a longer
    /// one is lost.
    ///
    /// `Failed` comes only if the count of faults rose in this call; with any other answer the count is
    /// unchanged.
    fn recv(&mut self, buf: &mut [u8], wait: u64) -> Recv
        requires { length buf.old ≡ 512 }
        ensures receives { ReceivesOne (arrivals self.old) (arrivals self.new) (stranger self.old)
            (stranger self.new) result buf.new }
        ensures waits { NotesReceive (waits self.old) (waits self.new) wait }
        ensures same { (tried self.new ≡ tried self.old) × (binds self.new ≡ binds self.old) }
        ensures counted { calls self.new ≡ option_map one_more (calls self.old) }
        ensures later { (faults self.old ≤ faults self.new)
            × (send_faults self.new ≡ send_faults self.old) }
        ensures cause { result ≡ Recv.Failed → Rose (faults self.old) (faults self.new) }
        ensures still { result ≢ Recv.Failed → faults self.new ≡ faults self.old };

    /// Sends a datagram to a peer, or to the stranger whose datagram was the last that came.
    ///
    /// `Failed` comes only if the count of failed sends rose in this call; with any other answer that count
    /// is unchanged.
    fn send(&mut self, to: Place, octets: &[u8]) -> Sent
        requires { to ≡ Place.Stranger → stranger self.old ≡ true }
        ensures sends { Sends (tried self.old) (tried self.new) result (to, octets.now) }
        ensures same { (arrivals self.new ≡ arrivals self.old) × (calls self.new ≡ calls self.old)
            × (binds self.new ≡ binds self.old) × (waits self.new ≡ waits self.old)
            × (stranger self.new ≡ stranger self.old) }
        ensures later { (faults self.new ≡ faults self.old)
            × (send_faults self.old ≤ send_faults self.new) }
        ensures cause { result ≡ Sent.Failed → Rose (send_faults self.old) (send_faults self.new) }
        ensures still { result ≢ Sent.Failed → send_faults self.new ≡ send_faults self.old };
}
