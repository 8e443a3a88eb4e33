//! How a question ends as a command.
ghost use Rattle.std.specs.Prelude.{◌≡◌};
ghost use Rattle.tsp_query.specs.Asks.{asking_of};

use crate::query::QueryEnd;

/// How a question ends as a command. `tsp_cli` gives each of these ends a status.
#[derive(Clone, Copy, PartialEq, Eq, Debug)]
pub enum QueryExit {
    /// The answer came, and its line was written.
    Answered,
    /// No answer came in eight receives, and the line `no answer` was written.
    NoAnswer,
    /// The bind, the send or a receive failed.
    LinkFault,
    /// A write failed.
    WriteFault,
    /// Out of memory.
    OutOfMemory,
}

impl QueryExit {
    /// How a command ends if its question ends so and its line is written.
    pub(crate) fn of(end: &QueryEnd) -> QueryExit
        ensures { result ≡ asking_of end.now }
    {
        match end {
            QueryEnd::Master(_) => QueryExit::Answered,
            QueryEnd::Diff(..) => QueryExit::Answered,
            QueryEnd::Heard => QueryExit::Answered,
            QueryEnd::Date(_) => QueryExit::Answered,
            QueryEnd::NoAnswer => QueryExit::NoAnswer,
            QueryEnd::LinkFault => QueryExit::LinkFault,
            QueryEnd::OutOfMemory => QueryExit::OutOfMemory,
        }
    }
}
