//! What is promised of the network's date in any history that fits: of any number of nodes, and of
//! any number of ports of a node. Nothing here runs. Each function's contract is a theorem: where
//! each deed does what it owes to its past, the promise holds.
ghost use Rattle.std.specs.Prelude.{List};
ghost use Rattle.tsp_promises.specs.Fits.{Fits};
ghost use Rattle.tsp_base.specs.History.{Line};
ghost use Rattle.tsp_promises.specs.Setting.{Setting};
ghost use Rattle.tsp_promises.specs.Dated.{Dated};
/// Only a master sets a date, and it sets its clock to the time that it took. A date that was
/// passed on and acknowledged was set, if no peer's datagram is forged, no datagram outlives `LIFE`
/// (30 s), and no port begins 32,768 sends with own numbers in one life of its node.
pub fn dated()
    ensures { (setting : Setting) (world : List Line) → Fits setting world → Dated setting world }
{}

ghost use Rattle.tsp_promises.specs.Uses.{DatedUse};
/// The promise isn't empty: a history that fits sees a date passed on, set and acknowledged.
#[tactic(auto, using(crate::proofs::witness::WitnessDates::dated_use))]
pub fn dates_use()
    ensures { DatedUse }
{}

ghost use Rattle.tsp_promises.specs.Broken.{DatesBreak};
/// And it says something: for each of its parts a small history breaks it.
#[tactic(auto, using(crate::proofs::witness::BrokenSends::dates_break))]
pub fn dates_can_be_broken()
    ensures { DatesBreak }
{}
