//! How the daemon ends as a command.
ghost use Rattle.std.specs.Prelude.{◌≡◌};
ghost use Rattle.tsp_daemon.specs.Serving.{served_of};

use crate::end::ServeEnd;

/// How a daemon ends as a command. `tsp_cli` gives each of these ends a status.
#[derive(Clone, Copy, PartialEq, Eq, Debug)]
pub enum DaemonExit {
    /// All turns were taken.
    Done,
    /// The wall clock isn't more than -2^31 and less than 2^31 seconds since 1970, and the line
    /// `bad wall` was written.
    BadWall,
    /// The bind failed, or a receive did. A failed send is only a lost datagram.
    LinkFault,
    /// A write failed.
    WriteFault,
    /// Out of memory.
    OutOfMemory,
}

impl DaemonExit {
    /// How a daemon ends if its session ends so.
    pub(crate) fn of(end: ServeEnd) -> DaemonExit
        ensures { result ≡ served_of end }
    {
        match end {
            ServeEnd::Done => DaemonExit::Done,
            ServeEnd::LinkFault => DaemonExit::LinkFault,
            ServeEnd::WriteFault => DaemonExit::WriteFault,
            ServeEnd::OutOfMemory => DaemonExit::OutOfMemory,
        }
    }
}
