//! Clock stamps: the request for a clock's reading, and the reply.
ghost use Rattle.std.specs.Prelude.{◌≡◌, ◌≤◌, ◌<◌, ◌↔◌, length, IsSome, IfSome};
ghost use Rattle.tsp_base.specs.Stamps.{IsReply};

use crate::constants::LIMIT;
use std::marker::Model;

/// A reply's values: the ticket is at most 32,767, the reading (microseconds) lies strictly between
/// -2^31 and 2^31 seconds.
#[derive(Clone, Copy, PartialEq, Eq, Debug)]
pub struct StampReply {
    ticket: u16,
    word: u64,
    counter: u64,
    reading: i64,
}

impl Model for StampReply {
    ghost use Rattle.tsp_base.specs.Stamps.{IsReply, ReplyValue};

    ghost Value = { ReplyValue };

    ghost view = { λ r. record {
      ticket = r.ticket;
      word = r.word;
      counter = r.counter;
      reading = r.reading;
    } };

    ghost invariant = { λ r. IsReply r.ticket r.reading };

    ghost inverse = { λ v. record {
      ticket = v.ticket;
      word = v.word;
      counter = v.counter;
      reading = v.reading;
    } };
}

impl StampReply {
    /// The number that the replying clock's next correction must have.
    pub fn ticket(&self) -> u16
        ensures value { result ≡ self.now.ticket }
        ensures valid { IsReply self.now.ticket self.now.reading }
    {
        self.ticket
    }

    /// The request's word.
    pub fn word(&self) -> u64
        ensures { result ≡ self.now.word }
    {
        self.word
    }

    /// The request's counter.
    pub fn counter(&self) -> u64
        ensures { result ≡ self.now.counter }
    {
        self.counter
    }

    /// The replying clock's target, in microseconds.
    pub fn reading(&self) -> i64
        ensures { result ≡ self.now.reading }
    {
        self.reading
    }
}

/// A clock stamp.
#[derive(Clone, Copy, PartialEq, Eq, Debug)]
pub enum Stamp {
    /// Asks for a reading; word and counter come back in the reply.
    Request {
        /// The asking node's word.
        word: u64,
        /// Distinguishes requests with the same word.
        counter: u64,
    },
    /// Gives a reading.
    Reply(StampReply),
}

impl Stamp {
    /// A reply; None exactly where the ticket is above 32,767, or the reading isn't strictly between
    /// -2^31 and 2^31 seconds.
    pub fn reply(ticket: u16, word: u64, counter: u64, reading: i64) -> Option<Stamp>
        ensures variant { IsSome result ↔ IsReply ticket reading }
        ensures value { IfSome result
            (λ s. s ≡ Stamp.Reply (record {
              ticket = ticket;
              word = word;
              counter = counter;
              reading = reading;
            })) }
    {
        if ticket < 32768 && -LIMIT < reading && reading < LIMIT {
            Some(Stamp::Reply(StampReply {
                ticket,
                word,
                counter,
                reading,
            }))
        } else {
            None
        }
    }
}
