//! The events of a schedule, and why one is refused.

use crate::octets::Octets;
use crate::place::{Place, Port};
use thiserror::Error;

/// What happens at a true time (microseconds, at most 10^15) of a schedule.
#[derive(Drop)]
pub enum Event {
    /// A node boots, or boots again.
    Boot {
        /// The true time.
        at: u64,
        /// Which node.
        node: u32,
        /// The word of this life of the node, which should differ from boot to boot.
        word: u64,
    },
    /// A node looks at its timers: whatever is due is handled.
    Turn {
        /// The true time.
        at: u64,
        /// Which node.
        node: u32,
    },
    /// A posted datagram reaches its addressee. Each may do so once, more than once or never.
    Take {
        /// The true time.
        at: u64,
        /// The datagram's number, in the order of posts over all nodes.
        datagram: u64,
    },
    /// Octets that no node posted reach a node.
    Bytes {
        /// The true time.
        at: u64,
        /// Which node.
        node: u32,
        /// On which of its ports.
        port: Port,
        /// Who seems to have sent them.
        from: Place,
        /// 1 to 300 octets.
        octets: Octets,
    },
}

/// Why an event is refused. Where several causes apply, it is the first in this list.
#[derive(Clone, Copy, PartialEq, Eq, Debug, Error)]
pub enum EventFault {
    /// The time of the event, and that of the event before it, which is later.
    #[error("time-back {0} {1}")]
    TimeBack(u64, u64),
    /// The number of a node that doesn't exist, or that doesn't have the port; and how many nodes there are.
    #[error("no-node {0} {1}")]
    NoNode(u32, u32),
    /// The datagram's number, which is too high, and how many were posted.
    #[error("no-datagram {0} {1}")]
    NoDatagram(u64, u64),
    /// The node that would act hasn't booted.
    #[error("not-up {0}")]
    NotUp(u32),
    /// A limit of schedules is reached. So many events were accepted, and so many datagrams posted.
    #[error("limit {0} {1}")]
    Limit(u64, u64),
    /// Out of memory.
    #[error("out of memory")]
    OutOfMemory,
}
