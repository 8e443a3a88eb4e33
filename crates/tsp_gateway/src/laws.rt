//! A theorem about gateways. Nothing here runs.
ghost use Rattle.tsp_gateway.specs.Laws.{StepsBegin};

/// A node that stands for its past between two steps stands for it when the next step begins, whatever
/// that is.
pub fn steps_begin()
    ensures { StepsBegin }
{}
