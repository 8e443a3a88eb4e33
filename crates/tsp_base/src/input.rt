//! What makes a node take a step.

use crate::place::{Place, Port};

/// What makes a node take a step.
#[derive(Clone, Copy)]
pub enum Input<'a> {
    /// It looks at its timers: whatever is due is handled.
    Turn,
    /// Octets reached it.
    Bytes {
        /// On which port.
        port: Port,
        /// From whom.
        from: Place,
        /// As they were received, at most 512.
        octets: &'a [u8],
    },
}
