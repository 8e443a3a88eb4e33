//! The Timestamp message, and why octets aren't one.
use thiserror::Error;

/// A Timestamp message of ICMP, or the reply to one (RFC 792).
///
/// The three stamps are milliseconds since midnight UT. One whose highest bit is set is not such a time.
#[derive(Clone, Copy, PartialEq, Eq, Debug)]
pub struct Timestamp {
    /// Whether this is the reply.
    pub reply: bool,
    /// The identifier, which a reply repeats.
    pub ident: u16,
    /// The sequence number, which a reply repeats.
    pub seq: u16,
    /// When the request was sent, by the sender's clock. A reply repeats it.
    pub originate: u32,
    /// When the request was received, by the replier's clock.
    pub receive: u32,
    /// When the reply was sent, by the replier's clock.
    pub transmit: u32,
}

/// Why octets aren't a Timestamp message. Where several causes apply, it is the first in this list.
#[derive(Clone, Copy, PartialEq, Eq, Debug, Error)]
pub enum IcmpFault {
    /// The octets aren't 20.
    #[error("length")]
    Length,
    /// The type is neither 13 nor 14.
    #[error("kind")]
    Kind,
    /// The code isn't 0.
    #[error("code")]
    Code,
    /// The checksum is wrong.
    #[error("checksum")]
    Checksum,
}
