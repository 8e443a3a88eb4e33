//! Runs of the program over memory, whose traces and refusals were worked out by hand.
ghost use Rattle.std.specs.Prelude.{◌≡◌, false};

mod commands;
mod links;
mod ports;

use crate::run::run;
use crate::status::Status;
use std::alloc::{AllocError, Global};
use tsp_io::memory::{MemorySink, MemorySource};
use tsp_io::memory_link::MemoryLink;
use tsp_io::memory_ticker::MemoryTicker;
use tsp_io::source::Source;

/// The arguments, an input, the reads and writes that fail, and what comes of it.
#[derive(Clone, Copy)]
struct Row {
    words: &'static [&'static str],
    input: &'static str,
    reads: &'static [u32],
    writes: &'static [u32],
    status: Status,
    written: &'static str,
}

/// The arguments as the program gets them.
fn words_of(alloc: Global, texts: &[&str]) -> Result<Vec<String>, AllocError> {
    let mut words = Vec::new(alloc);
    for text in texts {
        words.push(String::from_str(alloc, text)?)?;
    }
    Ok(words)
}

/// How a run with these arguments ends.
fn run_words<S: Source>(
    alloc: Global,
    texts: &[&str],
    source: &mut S,
    sink: &mut MemorySink,
    link: &mut MemoryLink,
    ticker: &mut MemoryTicker,
) -> Result<Status, AllocError>
    requires { S.ended source.old ≡ false }
{
    let words = words_of(alloc, texts)?;
    Ok(run(alloc, words.as_slice(), source, sink, link, ticker))
}

/// How a run ends that doesn't read its source, whose first read would fail.
fn run_unread(
    alloc: Global,
    texts: &[&str],
    sink: &mut MemorySink,
    link: &mut MemoryLink,
    ticker: &mut MemoryTicker,
) -> Result<Status, AllocError> {
    let mut source = MemorySource::new(alloc, b"", &[0])?;
    run_words(alloc, texts, &mut source, sink, link, ticker)
}

/// How a run ends that doesn't touch its link, whose first call would fail.
fn run_unlinked<S: Source>(
    alloc: Global,
    texts: &[&str],
    source: &mut S,
    sink: &mut MemorySink,
    ticker: &mut MemoryTicker,
) -> Result<Status, AllocError>
    requires { S.ended source.old ≡ false }
{
    let mut link = MemoryLink::new(alloc, &[0])?;
    run_words(alloc, texts, source, sink, &mut link, ticker)
}

/// How a run of a command that reads lines ends: its link and its ticker aren't touched.
fn run_lines<S: Source>(
    alloc: Global,
    texts: &[&str],
    source: &mut S,
    sink: &mut MemorySink,
) -> Result<Status, AllocError>
    requires { S.ended source.old ≡ false }
{
    let mut ticker = MemoryTicker::new(alloc, &[0], 0, 0)?;
    run_unlinked(alloc, texts, source, sink, &mut ticker)
}

/// Whether the run over this source and this sink comes to what the row says.
fn has_written<S: Source>(
    alloc: Global,
    row: &Row,
    source: &mut S,
    sink: &mut MemorySink,
) -> Result<bool, AllocError>
    requires { S.ended source.old ≡ false }
{
    let status = run_lines(alloc, row.words, source, sink)?;
    Ok(status == row.status && sink.written() == row.written.as_bytes())
}

/// Whether the run over this source comes to what the row says.
fn writes<S: Source>(alloc: Global, row: &Row, source: &mut S) -> Result<bool, AllocError>
    requires { S.ended source.old ≡ false }
{
    let mut sink = MemorySink::new(alloc, row.writes)?;
    has_written(alloc, row, source, &mut sink)
}

/// Whether the run comes to what the row says.
fn comes(alloc: Global, row: &Row) -> Result<bool, AllocError> {
    let mut source = MemorySource::new(alloc, row.input.as_bytes(), row.reads)?;
    writes(alloc, row, &mut source)
}
