//! The first line feed.
ghost use Rattle.std.specs.Prelude.{◌≡◌, ◌+◌, map, length, IfSome};
ghost use Rattle.std.specs.Simd.Lanes.{mask_l};
ghost use Rattle.memchr.specs.Find.{IsFirstByte, is_byte};
ghost use Rattle.tsp_lines.specs.Lines.{IsFront};

use memchr::memchr;
use std::simd::prelude::*;

/// A bit for each octet that is a line feed, the lowest one for the first.
#[inline(always)]
fn feeds_in(octets: u8x32) -> u64
    ensures { result ≡ mask_l (map (is_byte 10) octets) }
{
    octets.simd_eq(u8x32::splat(b'\n')).to_bitmask()
}

/// The place of the first line feed. Most lines are short, so the first 32 octets are looked at before the others.
#[inline(always)]
pub(crate) fn first_feed(octets: &[u8]) -> Option<usize>
    ensures { IsFirstByte (is_byte 10) octets.now result }
{
    if octets.len() >= 32 {
        let feeds = feeds_in(u8x32::from_slice(octets));
        if feeds != 0 {
            return Some(feeds.trailing_zeros() as usize);
        }
    }
    memchr(b'\n', octets)
}

/// The first line of some octets, without its line feed; None where no line feed is among them.
#[inline(always)]
pub fn first_line(octets: &[u8]) -> Option<&[u8]>
    ensures { IfSome result (λ line. IsFront octets.now (length line.now + 1) line.now) }
{
    let place = first_feed(octets)?;
    Some(octets.split_at(place).0)
}
