//! The header of a schedule that comes of a number.
ghost use Rattle.std.specs.Prelude.{◌≡◌, IfOk};
ghost use Rattle.tsp_storm.specs.Schedules.{header_of, made};
ghost use Rattle.tsp_args.specs.Storms.{IsStorm};

use std::alloc::{AllocError, Global};
use tsp_args::storm::StormWords;
use tsp_base::header::{Header, HeaderFault};
use tsp_script::storm::Storm;

/// The drift of the schedules that are made, in parts in a million.
const DRIFT: u32 = 100;

/// A schedule's header, and the generator that has given the lines of its nodes.
#[derive(Drop)]
pub struct Begun {
    /// The header.
    pub header: Header,
    /// The generator.
    pub storm: Storm,
}

/// Makes the header of a schedule. Fails only if out of memory.
pub fn begin(alloc: Global, words: &StormWords) -> Result<Begun, AllocError>
    requires { IsStorm words.now }
    ensures header { IfOk result (λ b. b.header ≡ header_of words.now) }
    ensures generator { IfOk result (λ b. b.storm ≡ (made words.now 0).generator) }
{
    let mut header = Header::new(alloc, DRIFT, false);
    let mut storm = Storm::new(words.seed, words.nodes);
    for _ in 0..words.nodes {
        match header.push(storm.head()) {
            Ok(()) => {}
            Err(fault) => match fault {
                HeaderFault::OutOfMemory => return Err(AllocError),
                _ => unreachable!(),
            },
        }
    }
    Ok(Begun { header, storm })
}
