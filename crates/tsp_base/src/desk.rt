//! The desk: where a step puts its acts.
ghost use Rattle.std.specs.Prelude.{◌≡◌, ◌+◌, ◌<◌, ◌≤◌, ℕ, List, [], ◌∷◌, ◌++◌, OnOk, OnErr};
ghost use Rattle.tsp_base.specs.declared.act.Placed.{Placed};

use crate::act::{Act, Placed};
use crate::place::Port;
use std::alloc::AllocError;

/// Acts in the order in which they were put, and room for more. A step has no other output.
pub trait Desk {
    /// The acts put so far.
    ghost acts: { Self → List Placed };

    /// How many more there is room for.
    ghost spare: { Self → ℕ };

    /// Makes room for at least `n` more acts; the acts stay. Fails only if out of memory, and then changes
    /// nothing.
    fn reserve(&mut self, n: usize) -> Result<(), AllocError>
        ensures acts { acts self.new ≡ acts self.old }
        ensures room { OnOk result (n ≤ spare self.new) }
        ensures kept { spare self.old ≤ spare self.new }
        ensures err { OnErr result (spare self.new ≡ spare self.old) };

    /// Puts an act of a port behind the others. Its room becomes one less.
    fn put(&mut self, port: Port, act: Act)
        requires { 0 < spare self.old }
        ensures acts { acts self.new ≡ acts self.old ++ record { port = port; act = act } ∷ [] }
        ensures spare { spare self.new + 1 ≡ spare self.old };
}
