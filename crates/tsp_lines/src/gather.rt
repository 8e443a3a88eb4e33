//! Reads an input whole, before any of it is treated.
ghost use Rattle.std.specs.Prelude.{◌≡◌, ◌≤◌, ◌<◌, ◌^◌, length, false, IfOk};
ghost use Rattle.tsp_lines.specs.Gatherings.{Adds, ReadsWhole};
ghost use Rattle.tsp_lines.specs.Faults.{Counts};

use crate::gathered::Gathered;
use std::alloc::{AllocError, Global};
use tsp_io::source::{Got, Source};

/// How many octets are read at once, at most.
const ROOM: usize = 65536;

/// Why an input couldn't be read whole.
#[derive(Clone, Copy)]
pub(crate) enum Ungathered {
    /// A read failed.
    ReadFault,
    /// Out of memory.
    OutOfMemory,
}

/// What one read adds to the octets of an input.
pub(crate) enum Added {
    /// At least one octet.
    More,
    /// Nothing: the input is at its end.
    End,
    /// Nothing: the read failed, or out of memory.
    Fault(Ungathered),
}

/// Reads at most `most` octets more.
fn read_more<S: Source>(octets: &mut Vec<u8>, buf: &mut [u8], most: usize, source: &mut S) -> Added
    requires some { 0 < most }
    requires room { most ≤ length buf.old }
    requires open { S.ended source.old ≡ false }
    ensures adds { Adds most (S.left source.old) (S.left source.new) (S.ended source.new)
        octets.old.items octets.new.items result }
    ensures faults { Counts (S.faults source.old) (S.faults source.new)
        (result ≡ Added.Fault Ungathered.ReadFault) }
{
    match source.read(&mut buf[..most]) {
        Got::Got(0) => Added::End,
        Got::Got(count) => match octets.extend_from_slice(&buf[..count]) {
            Ok(()) => Added::More,
            Err(_) => Added::Fault(Ungathered::OutOfMemory),
        },
        Got::Failed => Added::Fault(Ungathered::ReadFault),
    }
}

/// Reads an input through a buffer, to its end or up to the first octet past the limit.
fn gather_by<S: Source>(
    alloc: Global,
    limit: u64,
    buf: &mut [u8],
    source: &mut S,
) -> Result<Gathered, Ungathered>
    requires open { S.ended source.old ≡ false }
    requires limit { limit < 2 ^ 63 }
    requires room { 0 < length buf.old }
    ensures comes { ReadsWhole limit (S.left source.old) (S.left source.new) (S.ended source.new)
        result }
    ensures faults { Counts (S.faults source.old) (S.faults source.new)
        (result ≡ Err Ungathered.ReadFault) }
{
    let mut octets = Vec::new(alloc);
    while octets.len() as u64 <= limit {
        let most = (limit + 1 - octets.len() as u64).min(buf.len() as u64) as usize;
        match read_more(&mut octets, buf, most, source) {
            Added::More => {}
            Added::End => return Ok(Gathered::new(octets)),
            Added::Fault(fault) => return Err(fault),
        }
    }
    Ok(Gathered::new(octets))
}

/// Reads an input to its end, or up to the first octet past the limit.
pub(crate) fn gather<S: Source>(
    alloc: Global,
    limit: u64,
    source: &mut S,
) -> Result<Gathered, Ungathered>
    requires open { S.ended source.old ≡ false }
    requires limit { limit < 2 ^ 63 }
    ensures comes { ReadsWhole limit (S.left source.old) (S.left source.new) (S.ended source.new)
        result }
    ensures faults { Counts (S.faults source.old) (S.faults source.new)
        (result ≡ Err Ungathered.ReadFault) }
{
    let Ok(mut buf) = buffer(alloc) else {
        return Err(Ungathered::OutOfMemory);
    };
    gather_by(alloc, limit, buf.as_mut_slice(), source)
}

/// A buffer to read into.
fn buffer(alloc: Global) -> Result<Vec<u8>, AllocError>
    ensures { IfOk result (λ buf. 0 < length buf.items) }
{
    vec![in alloc; 0; ROOM]
}
