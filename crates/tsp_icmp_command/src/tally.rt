//! The best difference of each clock so far.
ghost use Rattle.std.specs.Prelude.{◌≡◌, ◌==◌, ℕ, ◌+◌, ◌-◌, ◌≤◌, ◌<◌, [], length, vec_len, position, OnOk, IfOk};
ghost use Rattle.std.specs.Str.{bytes_eq};
ghost use Rattle.tsp_group.specs.Groups.{mean_of, HasMean};
ghost use Rattle.tsp_group.specs.Values.{IsNear};
ghost use Rattle.tsp_icmp_command.specs.Bests.{note, with_difference, group_in};

use crate::best::Best;
use std::alloc::{AllocError, Global};
use std::marker::Model;
use tsp_base::name::Name;
use tsp_group::{Group, Values, largest};

/// The greatest number of lines of an input.
const MOST: u32 = 1000;

/// The width of a group of clocks that agree, in microseconds.
const SPAN: u64 = 20_000;

/// The place of the clock of this name.
fn place_of(bests: &[Best], name: &Name) -> Option<usize>
    ensures { result ≡ position (λ b. bytes_eq b.name name.now) bests.now }
{
    bests.iter().position(|best| best.is_of(name))
}

/// Adds a difference: a clock's first one, or a later one in place of the one that is there, where its
/// round trip is shorter. Fails only if out of memory.
fn note(bests: &mut Vec<Best>, later: Best) -> Result<(), AllocError>
    ensures ok { OnOk result (bests.new.items ≡ note bests.old.items later) }
    ensures room { vec_len bests.new ≤ vec_len bests.old + 1 }
{
    match place_of(bests.as_slice(), later.name()) {
        Some(place) => {
            if later.trip() < bests[place].trip() {
                bests[place] = later;
            }
        }
        None => bests.push(later)?,
    }
    Ok(())
}

/// The best difference of each clock, in the order of their first ones, and how many more lines are
/// allowed.
#[derive(Drop)]
pub(crate) struct Tally {
    bests: Vec<Best>,
    left: u32,
}

impl Model for Tally {
    ghost use Rattle.std.specs.Prelude.{◌+◌, ◌≤◌, vec_len};
    ghost use Rattle.tsp_icmp_command.specs.Bests.{TallyValue};

    ghost Value = { TallyValue };

    ghost view = { λ t. record { bests = t.bests.items; left = t.left } };

    ghost invariant = { λ t. vec_len t.bests + t.left ≤ 1000 };
}

impl Tally {
    /// Before the first line. Takes no memory.
    pub(crate) fn new(alloc: Global) -> Tally
        ensures { result ≡ record { bests = []; left = 1000 } }
    {
        Tally {
            bests: Vec::new(alloc),
            left: MOST,
        }
    }

    /// Whether no further line is allowed.
    pub(crate) fn is_full(&self) -> bool
        ensures { result ≡ (self.now.left == 0) }
    {
        self.left == 0
    }

    /// Adds a line, with the difference that it gives, if it gives one. Fails only if out of memory.
    pub(crate) fn take(&mut self, difference: Option<Best>) -> Result<(), AllocError>
        requires { 0 < self.old.left }
        ensures { OnOk result
            (self.new ≡ record {
              bests = with_difference self.old.bests difference;
              left = self.old.left - 1;
            }) }
    {
        self.left -= 1;
        if let Some(later) = difference {
            note(&mut self.bests, later)?;
        }
        Ok(())
    }

    /// The best difference of each clock.
    pub(crate) fn bests(&self) -> &[Best]
        ensures value { result.now ≡ self.now.bests }
        ensures few { length result.now ≤ 1000 }
    {
        self.bests.as_slice()
    }
}

/// The largest group of the own clock, whose difference is 0, and of these. Fails only if out of memory.
pub(crate) fn group_in(alloc: Global, bests: &[Best]) -> Result<Group, AllocError>
    requires { length bests.now ≤ 1000 }
    ensures value { IfOk result (λ g. g ≡ group_in bests.now) }
    ensures mean { IfOk result (λ g. HasMean g × IsNear (mean_of g)) }
{
    let mut values = Values::new(alloc, bests.len() + 1)?;
    values.add(0);
    for best in bests {
        values.add(best.micros());
    }
    Ok(largest(&mut values, SPAN))
}
