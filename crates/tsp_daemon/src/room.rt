//! What a turn needs room for.
ghost use Rattle.std.specs.Prelude.{◌≡◌};

use std::alloc::Global;
use tsp_base::pad::Pad;

/// Room for a turn: for the acts of its step, and for the datagram that comes.
#[derive(Drop)]
pub(crate) struct Room {
    /// On it the acts are put.
    pub pad: Pad,
    /// How many acts a step may put there. (Noted once, since it stays the same from turn to turn.)
    pub acts: usize,
    /// The datagram's octets are at its front.
    pub buf: [u8; 512],
}

impl Room {
    /// Room without any act, for steps that put so many at most.
    pub(crate) fn new(alloc: Global, acts: usize) -> Room
        ensures { result.acts ≡ acts }
    {
        Room {
            pad: Pad::new(alloc),
            acts,
            buf: [0; 512],
        }
    }
}
