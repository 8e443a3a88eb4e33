//! Theorems about every network of daemons. Nothing here runs.
ghost use Rattle.tsp_network.specs.ClocksUse.{AnyPacesKeepTime, ClocksUse, LivesCount};
ghost use Rattle.tsp_network.specs.Kept.{NetworksKeepPromises, NumbersAreAddresses, RunsAreNetworks};
ghost use Rattle.tsp_network.specs.Kept.{SchedulesAreKept};
ghost use Rattle.tsp_network.specs.Told.{ServedIsTried, SessionsAreTold};
ghost use Rattle.tsp_network.specs.NetworkUse.{Misdelivered, NetworkUse, NetworksBreak};

/// What the daemons of a network did is the run of its events by its clocks, to the act, and so it keeps the
/// promises: whatever its counters are, as long as each stays within the drift, and whatever the wall clocks
/// are in each life.
pub fn networks_keep_promises()
    ensures { NetworksKeepPromises }
{}

/// Where each node counts at the rate of its header's line, with the wall clock of that line, what the
/// daemons did is the run of a schedule.
pub fn schedules_are_kept()
    ensures { SchedulesAreKept }
{}

/// The number by which a daemon knows a peer is the place of that peer's address among those to which the daemon
/// binds its link.
#[tactic(auto, using(crate::proofs::NetworksKeep::numbers_are_addresses))]
pub fn numbers_are_addresses()
    ensures { NumbersAreAddresses }
{}

/// A session is told a step at a time: what `serve` promises of a daemon whose outside is told to its end
/// is, after as many turns, what the network says of it in the life that it has been told so far.
#[tactic(auto, using(crate::proofs::ToldLemmas::sessions_are_told))]
pub fn sessions_are_told()
    ensures { SessionsAreTold }
{}

/// What `serve` says that a daemon had tried when it ended is what the network has of it: the sends of its
/// turns, and, if it ended in the middle of a turn's sends, the first of those. All are posts of the run.
pub fn served_is_tried()
    ensures { ServedIsTried }
{}

/// A network's events are the possible ones at which the daemons can do what the nodes do: those, and no
/// others.
#[tactic(auto, using(crate::proofs::NetworksKeep::runs_are_networks))]
pub fn runs_are_networks()
    ensures { RunsAreNetworks }
{}

/// Two daemons are a network in whose history one is elected, sets the other's clock, and corrects it
/// after a round.
#[tactic(auto, using(crate::proofs::WitnessUse::network_use))]
pub fn network_use()
    ensures { NetworkUse }
{}

/// A counter whose rate changes as often as one likes, by no more than the drift from that of true time,
/// stays within the drift.
pub fn any_paces_keep_time()
    ensures { AnyPacesKeepTime }
{}

/// Two daemons whose counters change their rates by 160 parts in a million at any times are a network: one is
/// elected, sets the other's clock and corrects it in rounds, also after that has started again with
/// another wall clock.
#[tactic(auto, using(crate::proofs::WanderUse::clocks_use))]
pub fn clocks_use()
    ensures { ClocksUse }
{}

/// That each life has a wall clock of its own is needed: with that of its first life in the other's second
/// life too, a measurement errs by more than its err.
pub fn lives_count()
    ensures { LivesCount }
{}

/// A daemon that starts before its counter does, and one that is handed octets on a port where it can't
/// take them so, don't do what the run of their events does.
#[tactic(auto, using(crate::proofs::WitnessUse::networks_break))]
pub fn networks_can_be_broken()
    ensures { NetworksBreak }
{}

/// A copy of a send that comes to another daemon than it is addressed to breaks a promise, though nobody
/// has forged a datagram.
#[tactic(auto, using(crate::proofs::WitnessUse::misdelivered))]
pub fn misdelivered()
    ensures { Misdelivered }
{}
