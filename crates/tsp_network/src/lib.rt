//! What the daemons of a network do together is a run of the rules, and so it keeps the promises.
//! Nothing here runs: each function's contract is a theorem.
//!
//! A *session* is what a daemon does, turn by turn, with what it is told of its outside
//! (`tsp_daemon`). A *network* is daemons, one for each node of a header, in which such things
//! happen, in the order of true time: a daemon starts, takes a turn in which nothing comes, takes a
//! copy of a datagram that one of them tried to send, or takes other octets. These are the *events*
//! of a run by clocks (`tsp_run`): each node's counter is any that stays within the header's drift,
//! and its wall clock any in each life. There may be as many nodes as one likes, but each daemon is
//! started with arguments that `serve` takes, so it has at most 999 peers. The *life* of a daemon is
//! all that it has been told since its start: its session is that of its life. Its acts are read in
//! the numbers of the nodes, and in the ticks of its node. A daemon may end at any time, also after
//! some of a turn's sends: the others are then posts that never come.
//!
//! Read `specs/` in this order: `Rosters` (who is whom: the numbers by which daemons know each
//! other), `Lives` (how daemons are started, and what they are told), `Networks` (what comes of
//! each event), `Events` (which events can happen) and `Kept` (what is promised, by which addresses
//! daemons know each other, and which runs are networks'). `Told` ties a life to the clause of
//! `serve`, which speaks of an outside that is told to its end. `NetworkUse` and `ClocksUse` have
//! examples. `docs/NETWORK.md` has the definitions of the theorem with those that they use, and
//! `docs/PROMISES.md` says in plain words what is asked of clocks, boot words and datagrams, and what
//! isn't covered.
//!
//! # What is proved
//!
//! In parentheses are the contracts, clauses and definitions that say it.
//!
//! - The history of all daemons together is the run of the events by their clocks, act by act: for
//!   any counters within the drift, and any wall clock in each life. Their sends are exactly what
//!   that run posts, in its order: the same octets, from the same node, to the same addressee. So
//!   their history keeps the promises, each under its premises, and a premise holds of it if its
//!   counterpart holds of the events. What a daemon that runs has tried to send, as its own session
//!   has it, is what the network has of it since it started (`networks_keep_promises`, by
//!   `NetworkKept`).
//! - Where each node counts at one rate, with one wall clock, as a schedule's header says, the
//!   history is the run of a schedule (`schedules_are_kept`).
//! - A session is told a step at a time: one whose outside is told to its end, as `serve` speaks of
//!   it, comes turn by turn as far as the session of a life that has been told the beginning, with
//!   the same acts and sends (`sessions_are_told`). What `serve` says that a daemon had tried when
//!   it ended is what the network has of it, also if it ended in the middle of a turn's sends
//!   (`served_is_tried`).
//! - The number by which a daemon knows a peer is the place of the peer's address on their network
//!   among the addresses to which the daemon binds its link (`numbers_are_addresses`).
//! - All possible events are a network's, if the daemons are started as its nodes say, end in no
//!   turn, and can be told each event; and no events are that are impossible or can't be told
//!   (`runs_are_networks`).
//! - Two daemons elect a master, which sets the other's clock and corrects it after a round
//!   (`network_use`). Two whose counters change their rates at any times, by 160 parts in a million,
//!   do so too, also after one has started again with another wall clock (`clocks_use`): a counter
//!   may change its rate as often as it likes (`any_paces_keep_time`). What is asked of events is
//!   needed: with a counter that begins after its daemon, or octets on a port where a daemon can't
//!   take them so, the history is another than the run's (`networks_can_be_broken`); a copy that
//!   comes to another than its addressee breaks a promise (`misdelivered`); and so does one wall
//!   clock for all lives, where there were two (`lives_count`).
//!
//! # What is neither proved nor tested
//!
//! - That sockets, counters and wall clocks are as `IsNetwork` has it. `tsp-witness` looks whether
//!   traces fit (`docs/JUDGE.md`).
#![tactic(auto)]

pub mod laws;
