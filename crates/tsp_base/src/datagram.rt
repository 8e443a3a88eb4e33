//! Datagrams, and why octets aren't a valid one.

ghost use Rattle.std.specs.Prelude.{◌≡◌};

use crate::message::Message;
use crate::stamp::Stamp;
use thiserror::Error;

/// What one datagram carries.
#[derive(Drop)]
pub enum Datagram {
    /// A message of the Time Synchronization Protocol.
    Message(Message),
    /// A clock stamp.
    Stamp(Stamp),
}

impl Datagram {
    /// A copy.
    pub fn copy(&self) -> Datagram
        ensures { result ≡ self.now }
    {
        match self {
            Datagram::Message(message) => Datagram::Message(message.copy()),
            Datagram::Stamp(stamp) => Datagram::Stamp(*stamp),
        }
    }
}

/// Why octets aren't a valid datagram. Where several causes apply, it is the first in this list.
#[derive(Clone, Copy, PartialEq, Eq, Debug, Error)]
pub enum DecodeFault {
    /// Fewer than 13 octets.
    #[error("short")]
    Short,
    /// More than 268 octets.
    #[error("long")]
    Long,
    /// The version octet isn't 1.
    #[error("version")]
    Version,
    /// The type octet isn't that of a message (1 to 24) nor of a stamp (128, 129).
    #[error("kind")]
    Kind,
    /// A stamp of another length than 28 octets.
    #[error("stamp-length")]
    StampLength,
    /// No NUL ends the name, and fewer than 256 octets are there for it.
    #[error("no-end")]
    NoEnd,
    /// No NUL ends the name within 256 octets: it is longer than 255.
    #[error("name-too-long")]
    NameTooLong,
    /// A reply's ticket is above 32,767, or a request's ticket or reading isn't 0.
    #[error("reserved")]
    Reserved,
    /// A message's time, or a reply's reading, is out of its range.
    #[error("time")]
    Time,
}

/// What a node took: a datagram, or octets that aren't a valid one.
#[derive(Drop)]
pub enum Taken {
    /// The octets are this datagram.
    Good(Datagram),
    /// They aren't a valid datagram, for this cause.
    Bad(DecodeFault),
}

impl Taken {
    /// A copy.
    pub fn copy(&self) -> Taken
        ensures { result ≡ self.now }
    {
        match self {
            Taken::Good(datagram) => Taken::Good(datagram.copy()),
            Taken::Bad(fault) => Taken::Bad(*fault),
        }
    }
}
