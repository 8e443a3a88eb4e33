//! What decides, of an event's lines so far, whether its next one fits.
ghost use Rattle.std.specs.Prelude.{◌≡◌, ◌<◌, ◌^◌};
ghost use Rattle.tsp_claims.specs.Fitting.{counted, lacks, untold};

use crate::kinds::{is_took, posts_by};
use tsp_base::act::Act;
use tsp_base::event::Event;

/// What the lines of an event so far come to.
#[derive(Clone, Copy)]
pub struct Tally {
    /// Whether there are any.
    pub begun: bool,
    /// How many of them are posts.
    pub posts: u64,
    /// Whether one is a Took.
    pub took: bool,
}

impl Tally {
    /// No line yet.
    pub fn new() -> Tally
        ensures { result ≡ untold }
    {
        Tally {
            begun: false,
            posts: 0,
            took: false,
        }
    }

    /// One line more, with this act.
    pub fn count(&mut self, act: &Act)
        requires { self.old.posts < 2 ^ 32 }
        ensures { self.new ≡ counted self.old act.now }
    {
        self.begun = true;
        self.posts += posts_by(act);
        self.took = self.took || is_took(act);
    }

    /// Whether an event with these lines lacks what it needs: a boot its Boot, and octets, or a
    /// take that has lines, the Took.
    pub fn lacks(&self, e: &Event) -> bool
        ensures { result ≡ lacks e.now self.now }
    {
        match e {
            Event::Boot { .. } => !self.begun,
            Event::Turn { .. } => false,
            Event::Take { .. } => self.begun && !self.took,
            Event::Bytes { .. } => !self.took,
        }
    }
}
