//! Which of the machine's counters counts the ticks.
ghost use Rattle.std.specs.Prelude.{◌≡◌};
ghost use Rattle.tsp_io.specs.Clocks.{number_of};

/// A counter of the machine.
#[derive(Clone, Copy, PartialEq, Eq, Debug)]
pub enum Counter {
    /// Linux's `CLOCK_MONOTONIC_RAW`, whose rate no program changes.
    Raw,
    /// Linux's `CLOCK_MONOTONIC`, whose rate programs that set the time change.
    Monotonic,
}

impl Counter {
    /// The number that Linux gives it.
    pub fn number(self) -> u64
        ensures { result ≡ number_of self }
    {
        match self {
            Counter::Raw => 4,
            Counter::Monotonic => 1,
        }
    }
}
