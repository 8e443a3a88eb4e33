//! Which premises a schedule keeps, of those that a verdict asks for.
ghost use Rattle.std.specs.Prelude.{MatchBool};
ghost use Rattle.tsp_audit.specs.Parts.{AllKept};

/// Which premises the whole input keeps: not only the events up to the one at hand.
#[derive(Clone, Copy)]
pub struct Premises {
    /// No octets from outside are handed to a node as a peer's.
    pub honest: bool,
    /// Each take of a claimed datagram comes at most `LIFE`, 30,000,000 microseconds of true time, after
    /// the event of which its post is claimed.
    pub life: bool,
    /// The words of any two boots differ.
    pub words: bool,
}

impl Premises {
    /// Whether all of them are kept.
    pub fn all_kept(&self) -> bool
        ensures { MatchBool result (AllKept self.now) (AllKept self.now → ⊥) }
    {
        self.honest && self.life && self.words
    }
}
