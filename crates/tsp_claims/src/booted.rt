//! Which nodes have booted, by a list that says it of each.
ghost use Rattle.std.specs.Prelude.{◌≡◌, ◌<◌, [], true, length, vec_len, IfOk};
ghost use Rattle.tsp_claims.specs.Listed.{NamesNode, IsUpAfter, booted, up_in};

use std::alloc::{AllocError, Global};
use tsp_base::event::Event;

/// The list of so many nodes, before any event. Fails only if out of memory.
pub fn none_booted(alloc: Global, count: usize) -> Result<Vec<bool>, AllocError>
    ensures none { IfOk result (λ up. up_in up.items ≡ booted []) }
    ensures places { IfOk result (λ up. vec_len up ≡ count) }
{
    let mut up = Vec::new(alloc);
    for _ in 0..count {
        up.push(false)?;
    }
    Ok(up)
}

/// Whether a node has booted; false for a number that no node has.
pub fn has_booted(up: &[bool], n: u32) -> bool
    ensures up { result ≡ up_in up.now n }
    ensures node { result ≡ true → n < length up.now }
{
    match up.get(n as usize) {
        Some(up) => *up,
        None => false,
    }
}

/// A node has booted where the event is its boot.
pub fn wake(up: &mut Vec<bool>, e: &Event)
    requires { NamesNode (vec_len up.old) e.now }
    ensures { IsUpAfter e.now up.old.items up.new.items }
{
    if let Event::Boot { node, .. } = e {
        up[*node as usize] = true;
    }
}
