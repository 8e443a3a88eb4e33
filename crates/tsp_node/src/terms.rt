//! On what terms a port takes octets and handles alarms.

use tsp_base::at::At;

/// When and where a port takes octets, and what it may do to its node.
#[derive(Clone, Copy)]
pub(crate) struct TakeTerms {
    /// When, and on which port.
    pub(crate) at: At,
    /// Whether the port steers its node's clock. Where it doesn't, it ignores the corrections of the master
    /// that it follows.
    pub(crate) steer: bool,
    /// Whether the port is in charge of its node's date. Where it isn't, it sets none.
    pub(crate) charge: bool,
}

/// When and where a port handles an alarm, and what its node's other ports have to do with it.
#[derive(Clone, Copy)]
pub(crate) struct RingTerms {
    /// When, and on which port.
    pub(crate) at: At,
    /// Whether a Close moves the node's clock by the group's mean. Where it doesn't, the Close uses the mean 0
    /// and leaves the clock alone.
    pub(crate) group_mean: bool,
    /// Whether a Round that is in time is put off for `WAIT` ticks.
    pub(crate) wait: bool,
}
