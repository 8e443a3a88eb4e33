//! Inputs, and how an audit of them ends.
use std::alloc::{AllocError, Global};
use tsp_audit_command::run::check;
use tsp_io::memory::{MemorySink, MemorySource};
use tsp_lines::treat::Outcome;

/// A schedule of one node that boots, turns and is asked for a stamp by a stranger.
pub const ASKED: &str = "\
tsp-schedule 1
drift 0
node a 0 1000 m
at 0 boot 0 5
at 10 turn 0
at 20 bytes 0 - 80010000000000000000000100000000000000020000000000000000
end
";

/// The trace of its run.
pub const ANSWERED: &str = "\
1 0 0 0 boot
1 0 0 0 become starting
1 0 0 0 arm quiet 80000000
3 0 0 20 took - request 1 2
3 0 0 20 post 0 - reply 5 1 2 1020
";

/// Whether the audit of texts, one after the other, ends so and writes this, where these reads fail.
pub fn comes(
    alloc: Global,
    texts: &[&str],
    reads: &[u32],
    outcome: Outcome,
    written: &str,
) -> Result<bool, AllocError> {
    let mut input = String::new(alloc);
    for text in texts {
        input.push_str(text)?;
    }
    let mut source = MemorySource::new(alloc, input.as_bytes(), reads)?;
    let mut sink = MemorySink::new(alloc, &[])?;
    let ended = check(alloc, &mut source, &mut sink);
    Ok(ended == outcome && sink.written() == written.as_bytes())
}
