//! Samples of another node's clock.
ghost use Rattle.std.specs.Prelude.{◌≡◌, ◌-ℤ◌};
ghost use Rattle.tsp_base.specs.Samples.{half_down};
ghost use Rattle.tsp_measure.specs.Measures.{IsReading, IsStamp, timed_sample};

/// What one exchange says of another node's clock.
#[derive(Clone, Copy, Default, PartialEq, Eq, Debug)]
pub struct Sample {
    /// How far that clock is ahead of the own one, in microseconds; negative where it is behind.
    pub diff: i64,
    /// By how much `diff` may be wrong, in microseconds: half the round trip, rounded up.
    pub err: i64,
    /// The number that the node's next correction must have.
    pub ticket: u16,
    /// The counter of the request.
    pub counter: u64,
}

/// What a reply was.
#[derive(Clone, Copy, PartialEq, Eq, Debug)]
pub enum Reply {
    /// No open exchange has this peer, word and counter.
    NotStarted,
    /// It answered an open exchange, which gives this sample.
    Sample(Sample),
}

/// A sample with the round trip that it took.
#[derive(Clone, Copy, Default, PartialEq, Eq, Debug)]
pub struct TimedSample {
    /// The sample.
    pub sample: Sample,
    /// The round trip: from the request to the reply, in microseconds of the own clock.
    pub trip: i64,
}

/// Half of a number, rounded down.
fn half_down(z: i64) -> i64
    ensures { result ≡ half_down z }
{
    z.div_euclid(2)
}

impl TimedSample {
    /// The sample of a request that was sent at `a` and whose reply came at `d`, both by the own clock, where
    /// the other clock read `s` in between. All are microseconds; `d` may be below `a`.
    pub fn new(a: i64, s: i64, d: i64, ticket: u16, counter: u64) -> TimedSample
        requires a { IsReading a }
        requires s { IsStamp s }
        requires d { IsReading d }
        ensures { result ≡ timed_sample a s d ticket counter }
    {
        let trip = d - a;
        let half = half_down(trip);
        TimedSample {
            sample: Sample {
                diff: s - a - half,
                err: trip - half,
                ticket,
                counter,
            },
            trip,
        }
    }
}
