//! An input that was read into memory, as a source.
ghost use Rattle.std.specs.Prelude.{◌≡◌, ◌≤◌, ◌++◌, length, take, drop, vec_len, Some, min};

use tsp_io::source::{Got, Source};

/// The octets of an input, and how many of them were given.
#[derive(Drop)]
pub(crate) struct Gathered {
    octets: Vec<u8>,
    at: usize,
    ended: bool,
    ghost within: { at ≤ vec_len octets },
}

impl Gathered {
    ghost use Rattle.std.specs.Prelude.{◌≡◌, false};

    /// Octets of which none was given yet.
    pub(crate) fn new(octets: Vec<u8>) -> Gathered
        ensures { (result.octets ≡ octets) × (result.at ≡ 0) × (result.ended ≡ false) }
    {
        Gathered {
            octets,
            at: 0,
            ended: false,
        }
    }
}

/// Copies octets to the front of the buffer, as many as it has room for, and gives their count.
fn copy_front(octets: &[u8], buf: &mut [u8]) -> usize
    ensures count { result ≡ min (length octets.now) (length buf.old) }
    ensures split { octets.now ≡ take result buf.new ++ drop result octets.now }
{
    let count = octets.len().min(buf.len());
    buf[..count].copy_from_slice(&octets[..count]);
    count
}

impl Source for Gathered {
    ghost left = { λ g. Some (drop g.at g.octets.items) };

    ghost ended = { λ g. g.ended };

    ghost faults = { λ _. 0 };

    fn read(&mut self, buf: &mut [u8]) -> Got {
        let count = copy_front(&self.octets[self.at..], buf);
        if count == 0 {
            self.ended = true;
        }
        self.at += count;
        Got::Got(count)
    }
}
