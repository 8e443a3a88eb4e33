//! Claimed posts that are held, each in little room.
ghost use Rattle.std.specs.Prelude.{◌≡◌, List, ℕ, Some, IfOk};
ghost use Rattle.tsp_history.specs.HeldActs.{act_of, posted_datagram};

use std::alloc::{AllocError, Global};
use std::marker::Model;
use tsp_base::act::Placed;
use tsp_base::datagram::Datagram;
use tsp_base::place::Port;
use tsp_history::brief::Brief;
use tsp_history::held_act::HeldAct;

/// An act on a port.
#[derive(Drop)]
pub struct HeldPlaced {
    port: Port,
    act: HeldAct,
}

impl Model for HeldPlaced {
    ghost use Rattle.std.specs.Prelude.{◌≡◌, is_some, true};
    ghost use Rattle.tsp_base.specs.declared.act.Placed.{Placed};
    ghost use Rattle.tsp_claims.specs.HeldPosts.{act_in};

    ghost Value = { Placed };

    ghost view = { λ h. record { port = h.port; act = act_in h.act } };

    ghost invariant = { λ h. is_some h.act ≡ true };
}

impl HeldPlaced {
    /// An act on a port. Fails only if out of memory.
    pub(crate) fn of(alloc: Global, placed: &Placed) -> Result<HeldPlaced, AllocError>
        ensures { IfOk result (λ h. h ≡ placed.now) }
    {
        let act = HeldAct::of(alloc, &placed.act)?;
        Ok(HeldPlaced {
            port: placed.port,
            act,
        })
    }

    /// The port.
    pub fn port(&self) -> Port
        ensures { result ≡ self.now.port }
    {
        self.port
    }

    /// The act but for the name of its message.
    pub fn brief(&self) -> Brief
        ensures act { (name : List ℕ) × (Some self.now.act ≡ act_of result name) }
    {
        self.act.brief()
    }

    /// The datagram that it posts; none where it posts none.
    pub fn datagram(&self) -> Option<Datagram>
        ensures { result ≡ posted_datagram (Some self.now.act) }
    {
        self.act.datagram()
    }
}
