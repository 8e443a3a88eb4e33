//! Output that is gathered before it is written.
ghost use Rattle.std.specs.Prelude.{◌≡◌, ◌≢◌, ℕ, ◌+◌, ◌≤◌, ◌<◌, [], ◌∷◌, ◌++◌, length, take, drop, vec_len, IfOk};
ghost use Rattle.std.specs.Prelude.{IfErr, OnOk, OnErr, MatchResult};
ghost use Rattle.tsp_io.specs.Counts.{Rose};
ghost use Rattle.tsp_io.specs.Streams.{Grows};
ghost use Rattle.tsp_lines.specs.Outputs.{Hands};

use std::alloc::{AllocError, Global};
use std::marker::Model;
use tsp_io::sink::{Sink, Wrote};

/// The size of the buffer, in octets.
const ROOM: usize = 65536;

/// Why octets weren't written.
#[derive(Clone, Copy, PartialEq, Eq, Debug)]
pub enum Unwritten {
    /// A write failed.
    WriteFault,
    /// Out of memory.
    OutOfMemory,
}

/// How far a write came, and why it ended.
#[derive(Clone, Copy)]
pub struct Cut {
    /// How many octets were written before.
    pub at: usize,
    /// What went wrong.
    pub fault: Unwritten,
}

/// Writes all octets, or up to a fault, without a buffer.
pub fn write_all<K: Sink>(sink: &mut K, octets: &[u8]) -> Result<(), Cut>
    ensures ok { OnOk result (Grows (K.written sink.old) (K.written sink.new) octets.now) }
    ensures cut { IfErr result (λ cut. (cut.at < length octets.now)
        × Grows (K.written sink.old) (K.written sink.new) (take cut.at octets.now)) }
    ensures later { K.faults sink.old ≤ K.faults sink.new }
    ensures cause { IfErr result (λ cut. cut.fault ≡ Unwritten.WriteFault
        → Rose (K.faults sink.old) (K.faults sink.new)) }
    ensures still { MatchResult result (λ _. K.faults sink.new ≡ K.faults sink.old)
        (λ cut. cut.fault ≢ Unwritten.WriteFault → K.faults sink.new ≡ K.faults sink.old) }
{
    let mut at = 0;
    while at < octets.len() {
        let fault = match sink.write(&octets[at..]) {
            Wrote::Took(count) => {
                at += count;
                continue;
            }
            Wrote::Failed => Unwritten::WriteFault,
            Wrote::OutOfMemory => Unwritten::OutOfMemory,
        };
        return Err(Cut { at, fault });
    }
    Ok(())
}

/// Drops so many octets at the front.
fn drop_front(octets: &mut Vec<u8>, count: usize)
    requires { count ≤ vec_len octets.old }
    ensures { octets.new.items ≡ drop count octets.old.items }
{
    let left = octets.len() - count;
    octets.copy_within(count.., 0);
    octets.truncate(left);
}

/// Appends a line and a line feed. Fails only if out of memory, and then appends nothing.
fn append_line(octets: &mut Vec<u8>, line: &[u8]) -> Result<(), AllocError>
    requires { vec_len octets.old + length line.now < 65536 }
    ensures ok { OnOk result (octets.new.items ≡ octets.old.items ++ line.now ++ 10 ∷ []) }
    ensures len { vec_len octets.new ≤ 65536 }
    ensures err { OnErr result (octets.new.items ≡ octets.old.items) }
{
    octets.reserve(line.len() + 1)?;
    match octets.extend_from_slice(line) {
        Ok(()) => {}
        Err(_) => unreachable!(),
    }
    octets.push_reserved(b'\n');
    Ok(())
}

/// A buffer of 64 KiB before a sink. Octets are held until it is full or is flushed.
#[derive(Drop)]
pub struct Output {
    octets: Vec<u8>,
}

impl Model for Output {
    ghost use Rattle.std.specs.Prelude.{List, ℕ, ◌≤◌, vec_len};

    ghost Value = { List ℕ };

    ghost view = { λ o. o.octets.items };

    ghost invariant = { λ o. vec_len o.octets ≤ 65536 };
}

impl Output {
    /// An empty buffer. Fails only if out of memory.
    pub fn new(alloc: Global) -> Result<Output, AllocError>
        ensures { IfOk result (λ o. o ≡ []) }
    {
        Ok(Output {
            octets: Vec::with_capacity(alloc, ROOM)?,
        })
    }

    /// Puts a piece, at most 64 KiB, into the buffer. Where it has no room, what it holds is written first.
    ///
    /// Fails where that write fails; then nothing of the piece is taken, and what wasn't written is still held.
    pub fn put<K: Sink>(&mut self, sink: &mut K, piece: &[u8]) -> Result<(), Unwritten>
        requires { length piece.now ≤ 65536 }
        ensures ok { OnOk result (Hands (K.written sink.old) self.old (K.written sink.new) self.new
            piece.now) }
        ensures err { OnErr result (Hands (K.written sink.old) self.old (K.written sink.new)
            self.new []) }
        ensures later { K.faults sink.old ≤ K.faults sink.new }
        ensures cause { result ≡ Err Unwritten.WriteFault
            → Rose (K.faults sink.old) (K.faults sink.new) × (0 < length self.new) }
        ensures still { result ≢ Err Unwritten.WriteFault → K.faults sink.new ≡ K.faults sink.old }
    {
        if self.octets.len() + piece.len() > ROOM {
            self.flush(sink)?;
        }
        match self.octets.extend_from_slice(piece) {
            Ok(()) => Ok(()),
            Err(_) => Err(Unwritten::OutOfMemory),
        }
    }

    /// Writes all that is held.
    ///
    /// Where a write fails, what wasn't written is still held.
    pub fn flush<K: Sink>(&mut self, sink: &mut K) -> Result<(), Unwritten>
        ensures ok { OnOk result (self.new ≡ []) }
        ensures hands { Hands (K.written sink.old) self.old (K.written sink.new) self.new [] }
        ensures later { K.faults sink.old ≤ K.faults sink.new }
        ensures cause { result ≡ Err Unwritten.WriteFault
            → Rose (K.faults sink.old) (K.faults sink.new) × (0 < length self.new) }
        ensures still { result ≢ Err Unwritten.WriteFault → K.faults sink.new ≡ K.faults sink.old }
    {
        match write_all(sink, &self.octets) {
            Ok(()) => {
                self.octets.clear();
                Ok(())
            }
            Err(cut) => {
                drop_front(&mut self.octets, cut.at);
                Err(cut.fault)
            }
        }
    }

    /// Puts a line of at most 65,535 octets into the buffer, and a line feed behind it, as `put` does with a piece.
    pub fn put_line<K: Sink>(&mut self, sink: &mut K, line: &[u8]) -> Result<(), Unwritten>
        requires { length line.now < 65536 }
        ensures ok { OnOk result (Hands (K.written sink.old) self.old (K.written sink.new) self.new
            (line.now ++ 10 ∷ [])) }
        ensures err { OnErr result (Hands (K.written sink.old) self.old (K.written sink.new)
            self.new []) }
        ensures later { K.faults sink.old ≤ K.faults sink.new }
        ensures cause { result ≡ Err Unwritten.WriteFault
            → Rose (K.faults sink.old) (K.faults sink.new) × (0 < length self.new) }
        ensures still { result ≢ Err Unwritten.WriteFault → K.faults sink.new ≡ K.faults sink.old }
    {
        if self.octets.len() + line.len() >= ROOM {
            self.flush(sink)?;
        }
        match append_line(&mut self.octets, line) {
            Ok(()) => Ok(()),
            Err(_) => Err(Unwritten::OutOfMemory),
        }
    }
}
