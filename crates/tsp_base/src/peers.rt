//! Where a peer stands among others.
ghost use Rattle.std.specs.Prelude.{◌≡◌, ◌<◌, true, length, slice_index_or};
ghost use Rattle.std.specs.List.Sorted.{IsBinarySearchResult, IsSearchInRange};
ghost use Rattle.std.specs.Ordering.{nat_cmp};
ghost use Rattle.tsp_base.specs.declared.place.PeerId.{PeerId};

use crate::place::PeerId;

/// The place of a peer among ascending ones, or as an error the place where it would be. Where the peers are all
/// nodes, each stands at the place of its own number, so it is sought there first.
#[inline]
pub fn place_of(peers: &[PeerId], p: PeerId) -> Result<usize, usize>
    ensures bound { IsSearchInRange result (length peers.now) }
    ensures position { IsBinarySearchResult (λ (q : PeerId). nat_cmp q.0 p.0) peers.now result }
{
    if is_in_place(peers, p) {
        return Ok(p.0 as usize);
    }
    peers.binary_search_by_key(&p.0, |q| q.0)
}

/// Whether a peer stands at the place of its number.
#[inline]
fn is_in_place(peers: &[PeerId], p: PeerId) -> bool
    ensures inside { result ≡ true → p.0 < length peers.now }
    ensures there { (d : PeerId) → result ≡ true → (slice_index_or peers.now p.0 d).0 ≡ p.0 }
{
    match peers.get(p.0 as usize) {
        Some(q) => q.0 == p.0,
        None => false,
    }
}
