//! What an audit answers.
ghost use Rattle.std.specs.Prelude.{◌≡◌};
ghost use Rattle.tsp_audit.specs.Named.{named};

/// The verdict on a claimed history.
#[derive(Clone, Copy, PartialEq, Eq)]
pub enum Verdict {
    /// All parts hold.
    Holds,
    /// Some part fails. Up to the first event at which one does, this is the least part that fails,
    /// by the number that the program prints: 12 that no port backs two candidates within the hold,
    /// 13 that only masters correct, 14 that each correction acts at most once, 15 that each
    /// measurement errs by at most half its round trip, 16 that clocks which one round corrected
    /// agree.
    Fails(u32),
}

/// The first failure of a claimed history.
#[derive(Clone, Copy, PartialEq, Eq)]
pub struct Failure {
    /// The number of the least part that fails.
    pub part: u32,
    /// The number of the least event up to which a part fails, from 1.
    pub event: u64,
}

/// The verdict that names a failure, if there is one.
pub(crate) fn verdict_of(failed: Option<Failure>) -> Verdict
    ensures { result ≡ named failed }
{
    match failed {
        None => Verdict::Holds,
        Some(failure) => Verdict::Fails(failure.part),
    }
}
