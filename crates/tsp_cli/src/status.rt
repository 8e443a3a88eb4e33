//! How the program ends.
ghost use Rattle.std.specs.Prelude.{◌≡◌};
ghost use Rattle.tsp_cli.specs.Statuses.{status_number, status_of, status_of_served, status_of_asking, status_of_storm};

use tsp_daemon::exit::DaemonExit;
use tsp_lines::treat::Outcome;
use tsp_query::exit::QueryExit;
use tsp_storm::run::StormEnd;

/// How a run of the program ends; the number is its exit status, 0 to 8 in this order.
#[derive(Clone, Copy, PartialEq, Eq)]
pub enum Status {
    /// All went well: the input was read to its end, the daemon took its turns, or the question was
    /// answered.
    Ok,
    /// The arguments are no command.
    Usage,
    /// A line or an event of the input was refused, or a daemon's wall clock is out of its range.
    Bad,
    /// A read failed.
    ReadFault,
    /// A write failed.
    WriteFault,
    /// A bind or a receive failed, or the send of a question.
    LinkFault,
    /// A question had no answer.
    NoAnswer,
    /// A limit was passed, such as that of the input's size or of a schedule's events.
    Limit,
    /// Out of memory.
    OutOfMemory,
}

impl Status {
    /// The exit status, 0 to 8.
    pub fn number(&self) -> u8
        ensures { result ≡ status_number self.now }
    {
        *self as u8
    }
    /// The status of a command that reads lines, by how that ended.
    pub fn of(outcome: Outcome) -> Status
        ensures { result ≡ status_of outcome }
    {
        match outcome {
            Outcome::Ok => Status::Ok,
            Outcome::Bad => Status::Bad,
            Outcome::ReadFault => Status::ReadFault,
            Outcome::WriteFault => Status::WriteFault,
            Outcome::Limit => Status::Limit,
            Outcome::OutOfMemory => Status::OutOfMemory,
        }
    }

    /// The status of a daemon, by how it ended.
    pub fn of_served(served: DaemonExit) -> Status
        ensures { result ≡ status_of_served served }
    {
        match served {
            DaemonExit::Done => Status::Ok,
            DaemonExit::BadWall => Status::Bad,
            DaemonExit::LinkFault => Status::LinkFault,
            DaemonExit::WriteFault => Status::WriteFault,
            DaemonExit::OutOfMemory => Status::OutOfMemory,
        }
    }

    /// The status of a storm, by how it ended.
    pub fn of_storm(end: StormEnd) -> Status
        ensures { result ≡ status_of_storm end }
    {
        match end {
            StormEnd::Done => Status::Ok,
            StormEnd::Limit => Status::Limit,
            StormEnd::WriteFault => Status::WriteFault,
            StormEnd::OutOfMemory => Status::OutOfMemory,
        }
    }

    /// The status of a question to a daemon, by how it ended.
    pub fn of_asking(asking: QueryExit) -> Status
        ensures { result ≡ status_of_asking asking }
    {
        match asking {
            QueryExit::Answered => Status::Ok,
            QueryExit::NoAnswer => Status::NoAnswer,
            QueryExit::LinkFault => Status::LinkFault,
            QueryExit::WriteFault => Status::WriteFault,
            QueryExit::OutOfMemory => Status::OutOfMemory,
        }
    }
}
