//! A numbered send that waits for its answer.
ghost use Rattle.std.specs.Prelude.{◌≡◌, ◌+◌, ◌^◌, ◌≤◌, ◌<◌};
ghost use Rattle.tsp_base.specs.SendFacts.{deadline_of, is_given_up};

use std::marker::Model;
use tsp_base::constants::{LAST, RETRY, TRIES};
use tsp_base::kind::Kind;
use tsp_base::message::Message;

/// A message that was posted, at least once and at most `TRIES` times.
#[derive(Drop)]
pub(crate) struct Sending {
    /// The tick of the first post.
    began: u64,
    posts: u64,
    message: Message,
}

impl Model for Sending {
    ghost use Rattle.std.specs.Prelude.{◌^◌, ◌≤◌};
    ghost use Rattle.tsp_base.specs.SendFacts.{Sending as SendingValue};

    ghost Value = { SendingValue };

    ghost view = { λ s. record { began = s.began; posts = s.posts; message = s.message } };

    ghost invariant = { λ s. (s.began ≤ 2 ^ 61) × (s.posts ≤ 3) };
}

impl Sending {
    /// A message that is posted at this tick for the first time.
    pub(crate) fn begin(message: Message, tick: u64) -> Sending
        requires { tick ≤ 2 ^ 61 }
        ensures { result ≡ record { began = tick; posts = 1; message = message } }
    {
        Sending {
            began: tick,
            posts: 1,
            message,
        }
    }

    /// The tick from which it is due.
    pub(crate) fn deadline(&self) -> u64
        ensures { result ≡ deadline_of self.now }
    {
        self.began + self.posts * RETRY
    }

    /// Whether it is given up when it is due: it began more than `LAST` ticks ago, or was posted `TRIES` times.
    pub(crate) fn is_given_up(&self, tick: u64) -> bool
        ensures { result ≡ is_given_up self.now tick }
    {
        self.began + LAST < tick || TRIES <= self.posts
    }

    /// Counts one more post, and gives the message for it.
    pub(crate) fn repeat(&mut self) -> Message
        requires { self.old.posts < 3 }
        ensures message { result ≡ self.old.message }
        ensures posts { self.new ≡ record self.old { posts = self.old.posts + 1 } }
    {
        self.posts += 1;
        self.message.copy()
    }

    /// The kind of its message.
    pub(crate) fn kind(&self) -> Kind
        ensures { result ≡ self.now.message.kind }
    {
        self.message.kind()
    }

    /// The number of its message.
    pub(crate) fn number(&self) -> u16
        ensures { result ≡ self.now.message.number }
    {
        self.message.number()
    }
}
