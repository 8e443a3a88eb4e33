//! What is promised of LOOPs in any history that fits: of any number of nodes, and of any number of
//! ports of a node. A LOOP is a message by which a gateway finds out that two of its networks are
//! joined elsewhere too. Nothing here runs. Each function's contract is a theorem: where each deed
//! does what it owes to its past, the promise holds.
ghost use Rattle.std.specs.Prelude.{List};
ghost use Rattle.tsp_promises.specs.Fits.{Fits};
ghost use Rattle.tsp_base.specs.History.{Line};
ghost use Rattle.tsp_promises.specs.Setting.{Setting};
ghost use Rattle.tsp_promises.specs.Looped.{Looped};
/// Each LOOP comes along a chain of at most eleven posts, if no peer's datagram is forged. If the
/// nodes' names differ besides, a master becomes Loose only for a LOOP of its own node, which set
/// out from a port with a lower number and was passed on by other nodes.
#[tactic(auto, using(crate::proofs::promised::ChainProof::looped_in))]
pub fn looped()
    ensures { (setting : Setting) (world : List Line) → Fits setting world → Looped setting world }
{}

ghost use Rattle.tsp_promises.specs.Uses.{LoopUse};
/// The promise isn't empty: in a history that fits a LOOP goes round over two other nodes, and the
/// master that began it gives up the lead of its higher port.
#[tactic(auto, using(crate::proofs::witness::WitnessDates::loop_use))]
pub fn loops_use()
    ensures { LoopUse }
{}

ghost use Rattle.tsp_promises.specs.Broken.{LoopsBreak};
/// And it says something: for each of its parts a small history breaks it.
#[tactic(auto, using(crate::proofs::witness::BrokenSends::loops_break))]
pub fn loops_can_be_broken()
    ensures { LoopsBreak }
{}
