//! What one clock shows.
ghost use Rattle.tsp_history.specs.Clocks.{IsSmall};

/// What a node's clock shows at a true time, and from where to where it may be wrong; all in microseconds.
#[derive(Clone, Copy)]
pub(crate) struct Standing {
    /// What it shows once its corrections are slewed.
    pub(crate) clock: i128,
    /// That less the error of the reading by which a round corrected it, and twice its drift since;
    /// it counts only where a round has.
    pub(crate) low: i128,
    /// And that with them.
    pub(crate) high: i128,
    ghost small: { IsSmall clock },
}
