//! A theorem: what the rules post to those who aren't among a port's peers. Nothing here runs.
ghost use Rattle.tsp_rules.specs.Strangers.{StrangersAreAnswered};

/// A step posts to a stranger only where it takes a stranger's datagram: the post is the answer to it.
pub fn strangers_are_answered()
    ensures { StrangersAreAnswered }
{}
