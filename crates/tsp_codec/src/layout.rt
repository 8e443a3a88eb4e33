//! The numbers of the layout.

/// The version octet of each datagram.
pub const VERSION: u8 = 1;

/// The type octet of a stamp request.
pub const REQUEST: u8 = 0x80;

/// The type octet of a stamp reply.
pub const REPLY: u8 = 0x81;

/// The length of the shortest datagram: a message with an empty name, up to the NUL.
pub const SHORTEST: usize = 13;

/// The length of the longest datagram.
pub const LONGEST: usize = 268;

/// The length of each stamp.
pub const STAMP: usize = 28;

/// The octet at which a message's name begins.
pub const NAME_AT: usize = 12;

/// The longest name that is written in `SHORT_ROOM` octets.
pub const SHORT_NAME: usize = 63;

/// The octets that a name of at most `SHORT_NAME` octets is written in, its NUL and the fill included.
pub const SHORT_ROOM: usize = 64;

/// The octets that a longer name is written in. A name that doesn't end in them is refused.
pub const NAME_ROOM: usize = 256;

/// The greatest ticket of a reply.
pub const LAST_TICKET: u16 = 32_767;

/// The microseconds of a time are accepted from minus this to this, and written from 0 to this.
pub const LAST_MICRO: i32 = 999_999;

/// The microseconds of a second.
pub const SECOND: i64 = 1_000_000;
