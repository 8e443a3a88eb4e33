//! Posted datagrams, stored so that a short name takes little memory.
ghost use Rattle.std.specs.Prelude.{◌≡◌, ◌≤◌, ◌<◌, ◌+◌, ◌++◌, [], ◌∷◌, length, slice_get, Some, OnOk, OnErr};
ghost use Rattle.std.specs.Option.{option_map};

use crate::head::{Head, hold, number_of, pack, way_of};
use crate::parcel::Parcel;
use crate::way::Way;
use std::alloc::{AllocError, Global};
use std::marker::Model;
use tsp_base::datagram::Datagram;

/// The greatest length of a name, in octets.
const LONGEST: usize = 255;

/// Room is made for so many posts at least. With the C library of the machines that were tried, lists of that size have
/// pages of their own, so that nothing is copied when they grow, and a page that nothing was put on takes no memory.
const MANY: usize = 4096;

/// Posted datagrams, numbered from 0, and room for more. It counts its room itself, so that a step that has enough
/// asks no vector.
#[derive(Drop)]
pub struct Posts {
    /// The posts without the octets of their names.
    heads: Vec<Head>,
    /// The octets of all names, one after the other.
    names: Vec<u8>,
    /// How many more there is room for, whatever their names.
    spare: usize,
}

impl Model for Posts {
    ghost use Rattle.std.specs.Prelude.{map};
    ghost use Rattle.tsp_networks.specs.Posts.{PostsValue};
    ghost use Rattle.tsp_networks.specs.Heads.{ArePosts, post_in};

    ghost Value = { PostsValue };

    ghost view = { λ p. record {
      items = map (post_in p.names.items) p.heads.items;
      spare = p.spare;
    } };

    ghost invariant = { λ p. ArePosts p.names p.heads p.spare };
}

impl Posts {
    ghost use Rattle.tsp_base.specs.declared.datagram.Taken.TheVariants.{Good};
    ghost use Rattle.tsp_run.specs.declared.posted.Posted.{Posted};
    ghost use Rattle.tsp_networks.specs.Posts.{posted_on, way_of};

    /// No posts and no room. Takes no memory.
    pub fn new(alloc: Global) -> Posts
        ensures items { result.items ≡ [] }
        ensures spare { result.spare ≡ 0 }
    {
        Posts {
            heads: Vec::new(alloc),
            names: Vec::new(alloc),
            spare: 0,
        }
    }

    /// How many datagrams were posted.
    pub fn len(&self) -> usize
        ensures { result ≡ length self.now.items }
    {
        self.heads.len()
    }

    /// When the datagram with this number was posted, by whom and for whom; None exactly where there is no
    /// such datagram.
    pub fn way(&self, k: u64) -> Option<Way>
        ensures { result ≡ option_map way_of (slice_get self.now.items k) }
    {
        match self.heads.get(k as usize) {
            Some(head) => Some(way_of(head)),
            None => None,
        }
    }

    /// Puts the datagram with this number into a parcel.
    #[inline(always)]
    pub fn pack(&self, k: u64, parcel: &mut Parcel)
        requires { k < length self.now.items }
        ensures { (p : Posted) → slice_get self.now.items k ≡ Some p
            → parcel.new ≡ Good p.datagram }
    {
        pack(self.names.as_slice(), &self.heads[k as usize].held, parcel);
    }

    /// Makes room for at least `n` more posts, whatever their names. Fails only if out of memory; the room is
    /// then unchanged.
    pub fn reserve(&mut self, n: usize) -> Result<(), AllocError>
        ensures items { self.new.items ≡ self.old.items }
        ensures room { OnOk result (n ≤ self.new.spare) }
        ensures kept { self.old.spare ≤ self.new.spare }
        ensures err { OnErr result (self.new.spare ≡ self.old.spare) }
    {
        if n <= self.spare {
            return Ok(());
        }
        self.reserve_anew(n)
    }

    /// The same if there isn't so much room. (A call of its own, since it is rare.)
    #[inline(never)]
    fn reserve_anew(&mut self, n: usize) -> Result<(), AllocError>
        ensures items { self.new.items ≡ self.old.items }
        ensures room { OnOk result (n ≤ self.new.spare) }
        ensures kept { self.old.spare ≤ self.new.spare }
        ensures err { OnErr result (self.new.spare ≡ self.old.spare) }
    {
        let count = n.max(MANY);
        let Some(octets) = count.checked_mul(LONGEST) else {
            return Err(AllocError);
        };
        self.heads.reserve(count)?;
        self.names.reserve(octets)?;
        let heads = self.heads.capacity() - self.heads.len();
        let names = (self.names.capacity() - self.names.len()) / LONGEST;
        self.spare = heads.min(names);
        Ok(())
    }

    /// Adds a datagram; there must be room, which becomes one less.
    pub fn push(&mut self, way: Way, datagram: &Datagram)
        requires { 0 < self.old.spare }
        ensures items { self.new.items ≡ self.old.items ++ posted_on way datagram.now ∷ [] }
        ensures spare { self.new.spare + 1 ≡ self.old.spare }
    {
        let held = hold(&mut self.names, way, datagram);
        self.heads.push_reserved(Head {
            at: way.at,
            from: way.from,
            to: number_of(way.to),
            held,
        });
        self.spare -= 1;
    }
}
