//! The run of a schedule, as definitions: what each event makes its node do, when an event is
//! refused, and what is promised of every run. The code here is a few types that `tsp_world` uses,
//! and theorems.
//!
//! A *schedule* is a text (`docs/FORMATS.md`): a header, which names the nodes, their clocks and
//! their networks, and then events in the order of true time, which is counted in microseconds. An
//! event is a `boot`, a `turn` (a node looks at its timers), a `take` (a posted datagram reaches
//! its node) or `bytes` (octets reach a node that no node posted). Its *history* is what the nodes
//! do at these events, and its *trace* is the text of their acts. Events are numbered from 1,
//! nodes, ports, networks and datagrams from 0.
//!
//! Read `specs/` in this order: `Networks` (who is on which network), `Setup` (a node's past in a
//! history), `Run` (events to a history, and the lines of its trace), `Refusals` (why an event is
//! refused), `Possible` (which events can happen, however many they are), `Setting` and `Promises`
//! (what is promised of the history), `Premised` (what the promises ask of the schedule's text),
//! and `Clocked` (runs by any clocks). [`laws`] has the theorems: `runs_fit`, `runs_keep_promises`
//! and `runs_keep_premises`, and the same of possible schedules and of runs by any clocks.
//!
//! In the run of a schedule each node counts at one rate, and its wall clock has one WALL. In a run
//! *by clocks* each node has any tick function that stays within the drift, and in each of its
//! lives any wall clock; and there may be as many nodes and networks as one likes.
//!
//! # What is proved
//!
//! In parentheses are the contracts, clauses and definitions that say it.
//!
//! - The history of every schedule, over its networks, fits and keeps the promises, in strict elections that
//!   of one winner too, and those of dates and LOOPs (`runs_fit`, `runs_keep_promises`).
//! - The promise of the octets of answers isn't always true (`answer_octets_can_be_broken`).
//! - It keeps a premise if its text does, or its text and its trace (`runs_keep_premises`).
//! - The same is so without the limits of a replay, however many events there are, if each can
//!   happen and fewer than 2^64 datagrams are posted (`possible_runs_fit`,
//!   `possible_runs_keep_promises`, `possible_runs_keep_premises`). Every accepted schedule is such
//!   a one (`accepted_is_possible`).
//! - By any clocks it fits and keeps the promises, and a premise holds of it if its counterpart
//!   holds of the events, or of them and of what it posts (`clocked_runs_fit`,
//!   `clocked_runs_keep_promises`, `clocked_runs_keep_premises`). Clocks that stay within the drift have a setting
//!   (`clocks_are_set`). The run of a schedule is the one by its header's clocks
//!   (`runs_by_own_clocks`), and what is said of it follows from that.
//! - The worked run on two networks gives its acts (`joins_two_networks`).
#![tactic(auto)]

pub mod address;
pub mod arrival;
pub mod laws;
pub mod line;
pub mod posted;
