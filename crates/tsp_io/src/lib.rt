//! The outside: octets that are read and written, datagrams that come and go, clocks, and boards.
//!
//! Five traits, each with an implementation in memory, for tests, and one over the machine:
//!
//! | Trait | In memory | Over the machine |
//! |---|---|---|
//! | [`source::Source`] | [`memory::MemorySource`] | [`machine::Reading`], over a reader |
//! | [`sink::Sink`] | [`memory::MemorySink`] | [`machine::Writing`], over a writer |
//! | [`link::Link`] | [`memory_link::MemoryLink`] | [`udp::UdpLink`], over a UDP socket (IPv4) |
//! | [`ticker::Ticker`] | [`memory_ticker::MemoryTicker`] | [`clock::MachineTicker`], over the machine's clocks |
//! | [`board::Board`] | [`memory_board::MemoryBoard`] | [`file_board::FileBoard`], over a file |
//!
//! [`paged::Paged`] gives a ticker a board, on which other programs read what its ticks mean.
//! [`unslewed::Unslewed`] are the machine's clocks with a counter whose rate no program changes.
//! [`coarse::Coarse`] are the machine's clocks with a monotonic one that is cheap to read, for a link.
//!
//! The contracts of a trait speak of what an object holds: the octets left or written, the arrivals
//! to come, the sends that were tried, the readings to come. In memory these are *told*: contracts know
//! them (`Some`), and say exactly what a call answers. Over the machine they aren't told (`None`), since
//! nothing can be proved of the operating system: contracts say only which calls fail, and in which
//! range an answer is. A call answers `Failed` only if its object's count of faults rose in that call, or was
//! 2^64 - 1 already.
//!
//! All times are microseconds. A datagram is a peer's if it came from that peer's address and UDP port,
//! and else a stranger's. A caller binds a link once, with the addresses of its peers in the order of
//! their numbers, from 0, and then sends and waits:
//!
//! ```
//! let mut link = MemoryLink::new(alloc, &[])?;
//! link.arrive(Place::Peer(PeerId(1)), b"pong")?;
//! let peers = [Addr { ip: [10, 0, 0, 1], port: 525 }, Addr { ip: [10, 0, 0, 2], port: 525 }];
//! assert!(matches!(link.bind(peers[0], &peers), Bound::Bound));
//! assert!(matches!(link.send(Place::Peer(PeerId(1)), b"ping"), Sent::Sent));
//! let mut buf = [0; 512];
//! assert!(matches!(link.recv(&mut buf, 1_000_000), Recv::Datagram(Place::Peer(_), 4)));
//! assert!(matches!(link.recv(&mut buf, 1_000_000), Recv::Nothing));
//! ```
//!
//! # What is proved
//!
//! In parentheses are the contracts, clauses and definitions that say it.
//!
//! - A read gives the next octets, a write takes some of those handed to it, a receive gives the next
//!   arrival, cut to 512 octets, a send that was tried is on the list, as are what a link was bound to and
//!   how long each receive was to wait (`binds`, `waits`), and a failure comes only with its count, which
//!   stays if nothing failed (`reads`, `writes`, `receives`, `sends`, `cause`, `still`).
//! - What is written on a board was handed to it, and nothing is written after a write that failed
//!   (`writes`, `marks`, `ended`).
//! - Tick counters don't fall (`low`, `takes`).
//! - A machine's counter is as far as its rate says, by the reading that the machine gave, and at 0 at the
//!   first one, from which programs count (`counts`, `first`, `found`), and the wall clock and the word are
//!   one reading (`read`, `kept` of `MachineTicker`).
//! - A rate can be changed from a tick on: programs and the counter go on from the first whole microsecond
//!   at which that had passed (`answers` and `origin` of `retune`, `retuned`, `come` and `first` of `reach`).
//!   The same rate, one beyond 1,000,000 parts in 10^9, and an earlier tick are no change.
//! - What a read of a board gives (`views`); over a file it writes nothing and counts no fault (`same`).
//! - A socket is asked for the address of the bind, and its number is none of a standard stream.
//! - Its wait is less than a millisecond below the one that is asked for (`waits`).
//! - A send is one try, with all of the octets, and the system is told not to wait for room (`once`, `octets`,
//!   `waits` of `send`, `whole` of `UdpLink`). It is sent exactly if the system took all of them (`answer`,
//!   `went`, `failed`).
//! - It takes nothing in a receive that ended too late (`fresh`).
//! - Whose a datagram is that a socket gets: that of the peer with the lowest number that has its address,
//!   and a stranger's exactly if no peer has it, and a datagram for a peer goes to that peer's address
//!   (`place_of` and `addr_of` of `Directory`, `came_from` and `addr_at` of `UdpLink`, and its `peers`,
//!   `from`, `to`).
//!
//! # What is only tested
//!
//! - One run of each form.
//! - Two sockets exchange a request and 600 octets, each once.
//! - Of two peers with one address the lower one is the sender.
//! - A closed port is no fault.
//! - How long receives wait.
//! - What came in a pause is thrown away.
//! - Ten million times at rates of all sizes.
//! - Through the program a link that takes nothing.
//! - Programs count the same ticks, also after changes of the rate.
//! - A file that takes only a part of a write, or gives only a part of a read.
//!
//! # What is neither proved nor tested
//!
//! - What the operating system does, and that it is asked for what a socket's fields say of a send.
//! - That a receive gives what it took, and counts what it throws away.
#![tactic(auto)]

pub mod addr;
mod arrivals;
pub mod board;
pub mod clock;
pub mod coarse;
pub mod counter;
mod directory;
mod failing;
pub mod file_board;
pub mod link;
pub mod machine;
mod machine_clock;
pub mod memory;
pub mod memory_board;
pub mod memory_link;
pub mod memory_ticker;
mod noted_calls;
pub mod origin;
pub mod paged;
pub mod rate;
mod raw_addr;
pub mod sink;
mod socket;
pub mod source;
mod speed;
pub mod ticker;
mod tried_sends;
pub mod udp;
pub mod unslewed;
