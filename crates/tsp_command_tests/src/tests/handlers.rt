//! What no contract says: that a schedule is read to its end.
ghost use Rattle.std.specs.Prelude.{None};

use std::alloc::{AllocError, Global};
use tsp_base::event::{Event, EventFault};
use tsp_base::header::Header;
use tsp_lines::treatment::Stop;
use tsp_schedule::handler::EventHandler;
use tsp_schedule::stage::Stage;

/// Takes every event.
#[derive(Drop)]
struct Open;

impl EventHandler for Open {
    ghost refused = { λ header events e. None };

    ghost stands = { λ header events handler. Unit {0} };

    fn begin(_alloc: Global, _header: Header) -> Result<Open, AllocError> {
        Ok(Open)
    }

    fn event(&mut self, _e: &Event) -> Result<(), EventFault> {
        Ok(())
    }
}

/// A schedule of one node is read to its last line, and no further.
#[test]
fn reads_a_schedule(rt: HostRuntime) {
    let lines: [&[u8]; 5] = [
        b"tsp-schedule 1",
        b"drift 0",
        b"node a 0 1000 m",
        b"at 0 boot 0 5",
        b"end",
    ];
    let mut stage: Stage<Open> = Stage::Untitled;
    for line in lines {
        assert!(rt; stage.lacks().is_some());
        assert!(rt; stage.advance(rt.alloc(), line).is_ok());
    }
    assert!(rt; stage.lacks().is_none());
    match stage.advance(rt.alloc(), b"at 0 turn 0") {
        Err(Stop::Bad(cause)) => assert!(rt; cause.words() == b"after-end".as_slice()),
        _ => assert!(rt; false),
    }
}

/// The cause for a line that is too long depends on how it begins.
#[test]
fn refuses_long_lines(rt: HostRuntime) {
    let mut stage: Stage<Open> = Stage::Untitled;
    assert!(rt; stage.refuse_long(b"node aaa").words() == b"header".as_slice());
    for line in [b"tsp-schedule 1".as_slice(), b"drift 0", b"node a 0 1000 m"] {
        assert!(rt; stage.advance(rt.alloc(), line).is_ok());
    }
    assert!(rt; stage.refuse_long(b"node aaa").words() == b"header".as_slice());
    assert!(rt; stage.refuse_long(b"at 0 tur").words() == b"line".as_slice());
}
