//! A desk on which each act is put into its line of the trace.
ghost use Rattle.std.specs.Prelude.{◌≡◌, ◌+◌, ◌<◌, ◌≤◌, ℕ, List, [], ◌∷◌, ◌++◌, OnOk, OnErr};
ghost use Rattle.std.specs.Prelude.{length, vec_len, vec_capacity, ◌==◌};

use std::alloc::{AllocError, Global};
use std::mem::swap;
use tsp_base::act::{Act, Placed};
use tsp_base::desk::Desk;
use tsp_base::place::Port;
use tsp_run::line::Line;

/// Lines with their acts, whose other parts are still to be told, and how many more there is room for.
#[derive(Drop)]
pub struct Sheet {
    lines: Vec<Line>,
    spare: usize,
    ghost room: { vec_len lines + spare ≤ vec_capacity lines },
}

impl Sheet {
    ghost use Rattle.tsp_networks.specs.Sheets.{acts_on, spare_on};

    /// No lines and no room. Takes no memory.
    pub fn new(alloc: Global) -> Sheet
        ensures lines { result.lines.items ≡ [] }
    {
        Sheet {
            lines: Vec::new(alloc),
            spare: 0,
        }
    }

    /// Removes all lines. Their room stays.
    pub fn clear(&mut self)
        ensures acts { acts_on self.new ≡ [] }
        ensures room { spare_on self.new ≡ vec_capacity self.old.lines }
    {
        self.lines.clear();
        self.spare = self.lines.capacity();
    }

    /// Whether there are no lines.
    pub fn is_empty(&self) -> bool
        ensures { result ≡ (length (acts_on self.now) == 0) }
    {
        self.lines.is_empty()
    }

    /// Gives its lines for others. No room is left until it is asked for.
    pub fn exchange(&mut self, lines: &mut Vec<Line>)
        ensures taken { lines.new.items ≡ self.old.lines.items }
        ensures given { self.new.lines.items ≡ lines.old.items }
        ensures room { spare_on self.new ≡ 0 }
    {
        self.spare = 0;
        swap(lines, &mut self.lines);
    }
}

impl Desk for Sheet {
    ghost use Rattle.tsp_networks.specs.Sheets.{acts_on, spare_on};

    ghost acts = { acts_on };

    ghost spare = { spare_on };

    fn reserve(&mut self, n: usize) -> Result<(), AllocError> {
        if self.spare < n {
            self.lines.reserve(n)?;
            self.spare = n;
        }
        Ok(())
    }

    fn put(&mut self, port: Port, act: Act) {
        self.spare -= 1;
        self.lines.push_reserved(Line {
            event: 0,
            node: 0,
            tick: 0,
            number: None,
            placed: Placed { port, act },
        });
    }
}
