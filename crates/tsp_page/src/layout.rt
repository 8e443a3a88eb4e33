//! Where things stand on the page. All numbers are little-endian; places count octets from the page's begin.
//!
//! At 0 stand [`MAGIC`] in eight octets, and [`VERSION`] and [`SIZE`] in four each: whoever makes the file writes them
//! before the first life. A half begins with its sequence, eight octets that are odd while its fields are written.

/// "tspclock".
pub const MAGIC: u64 = 0x6b63_6f6c_6370_7374;

/// The version of this layout.
pub const VERSION: u32 = 2;

/// The page's length in octets.
pub const SIZE: u32 = 4096;

/// Where the version stands.
pub const VERSION_AT: usize = 8;

/// Where the length stands.
pub const SIZE_AT: usize = 12;

/// Where the daemon's half begins, with its sequence.
pub const DAEMON_AT: usize = 64;

/// Where the fields of the daemon's half begin.
pub const DAEMON_FIELDS_AT: usize = 72;

/// How many octets the fields of the daemon's half take.
pub const DAEMON_FIELDS: usize = 112;

/// Where `alive`, the last field of the daemon's half, stands.
pub const ALIVE_AT: usize = 176;

/// Where the look's half begins, with its sequence.
pub const LOOK_AT: usize = 512;

/// Where the fields of the look's half begin.
pub const LOOK_FIELDS_AT: usize = 520;

/// How many octets the fields of the look's half take.
pub const LOOK_FIELDS: usize = 328;

/// How many octets the master's name takes, the NUL at its end included.
pub const NAME_ROOM: usize = 256;

/// The kernel's number of CLOCK_MONOTONIC_RAW.
pub const RAW: u64 = 4;

/// The kernel's number of CLOCK_MONOTONIC.
pub const MONOTONIC: u64 = 1;

/// A page whose daemon didn't say for so many ticks that it runs is stale.
pub const LASTS: u64 = 64_000_000;

/// The microseconds for which the own ticks alone tell the drift.
pub const RECKONED: u64 = 100_000_000;

/// A drift is at most so many parts in a million.
pub const MAX_DRIFT: u64 = 1000;
