//! Events without octets.
ghost use Rattle.std.specs.Prelude.{◌≡◌};
ghost use Rattle.tsp_base.specs.Plains.{event_in};

use crate::event::Event;

/// An event without octets. It takes little room, so that it is cheap to hand on.
#[derive(Clone, Copy)]
pub enum Plain {
    /// A node boots, or boots again.
    Boot {
        /// The true time.
        at: u64,
        /// Which node.
        node: u32,
        /// The word of this life of the node.
        word: u64,
    },
    /// A node looks at its timers.
    Turn {
        /// The true time.
        at: u64,
        /// Which node.
        node: u32,
    },
    /// A posted datagram reaches its addressee.
    Take {
        /// The true time.
        at: u64,
        /// The datagram's number.
        datagram: u64,
    },
}

impl Plain {
    /// The event.
    pub fn event(&self) -> Event
        ensures { result ≡ event_in self.now }
    {
        match self {
            Plain::Boot { at, node, word } => Event::Boot {
                at: *at,
                node: *node,
                word: *word,
            },
            Plain::Turn { at, node } => Event::Turn {
                at: *at,
                node: *node,
            },
            Plain::Take { at, datagram } => Event::Take {
                at: *at,
                datagram: *datagram,
            },
        }
    }
}
