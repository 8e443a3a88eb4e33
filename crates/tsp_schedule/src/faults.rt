//! What the fault of a refused event means for the reading of a schedule.
ghost use Rattle.std.specs.Prelude.{◌≡◌, ◌≢◌, ◌≤◌, ◌+◌, ◌++◌, length, codes, decimal};
ghost use Rattle.tsp_base.specs.declared.event.EventFault.{EventFault};
ghost use Rattle.tsp_schedule.specs.Stages.{StopsFor};

use tsp_base::event::EventFault;
use tsp_lines::cause::Cause;
use tsp_lines::treatment::Stop;
use tsp_script::numbers::{append, append_number};
use tsp_script::text::Text;

/// Why the reading stops at a refused event: `Bad` with the fault's words, or `Limit`, or out of memory.
#[inline(never)]
pub(crate) fn stop_of(fault: EventFault) -> Stop
    ensures stops { StopsFor fault result }
    ensures kind { result ≢ Stop.WriteFault }
{
    match fault {
        EventFault::TimeBack(at, last) => Stop::Bad(two_numbers(b"time-back ", at, last)),
        EventFault::NoNode(n, nodes) => {
            Stop::Bad(two_numbers(b"no-node ", n as u64, nodes as u64))
        }
        EventFault::NoDatagram(k, posted) => Stop::Bad(two_numbers(b"no-datagram ", k, posted)),
        EventFault::NotUp(n) => Stop::Bad(one_number(b"not-up ", n as u64)),
        EventFault::Limit(_, _) => Stop::Limit,
        EventFault::OutOfMemory => Stop::OutOfMemory,
    }
}

/// A cause with a number.
fn one_number(word: &[u8], a: u64) -> Cause
    requires { length word.now ≤ 12 }
    ensures { result ≡ word.now ++ decimal a }
{
    let mut words = Text::new();
    append(&mut words, word);
    append_number(&mut words, a);
    Cause::of(words.as_slice())
}

/// A cause with two numbers.
fn two_numbers(word: &[u8], a: u64, b: u64) -> Cause
    requires { length word.now ≤ 12 }
    ensures { result ≡ word.now ++ decimal a ++ codes " " ++ decimal b }
{
    let mut words = Text::new();
    append(&mut words, word);
    append_number(&mut words, a);
    append(&mut words, b" ");
    append_number(&mut words, b);
    Cause::of(words.as_slice())
}
