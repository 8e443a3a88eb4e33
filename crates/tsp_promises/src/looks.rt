//! What a program may conclude from a look at a master's clock. Nothing here runs.
ghost use Rattle.std.specs.Prelude.{List};
ghost use Rattle.tsp_base.specs.History.{Line};
ghost use Rattle.tsp_promises.specs.Fits.{Fits};
ghost use Rattle.tsp_promises.specs.Looked.{Looked, LooksNeedRest, LooksUse};
ghost use Rattle.tsp_promises.specs.Setting.{Setting};

/// A look at another node's clock, which is read between two readings of the own one, bounds how
/// far that clock is ahead as long as both are left alone: between its reading less the later own
/// one and less the earlier own one, each side wider by twice the drift of the time since. For
/// 100 s the node can reckon that drift from its own ticks. Nothing is asked of the network.
pub fn looks_bound_clocks()
    ensures { (setting : Setting) (world : List Line) → Fits setting world → Looked setting world }
{}

/// The bound can't be narrower than by 2 microseconds, and the clocks have to be left alone.
#[tactic(auto, using(crate::proofs::witness::WitnessWords::looks_use, crate::proofs::witness::WitnessWords::looks_need_rest))]
pub fn looks_say_enough()
    ensures reached { LooksUse }
    ensures disturbed { LooksNeedRest }
{}
