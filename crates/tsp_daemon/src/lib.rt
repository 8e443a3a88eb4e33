//! The daemon: one node of the time service, on one network or several, over a link. It is what
//! timed is in 4.3BSD, but sets no clock of the machine: its corrected clock is its own.
//!
//! [`command::serve_words`] does what the arguments after `serve` ask for (`docs/OPERATOR.md`): it
//! binds the link, reads the clocks, boots the node, and hands it to [`serve::serve`], which takes
//! turns. A *turn* waits for a datagram, for 1 ms to 1 s at most, lets the node do one step with what
//! came, tries the sends that it asks for, and, if the trace is on, writes the lines of the step's
//! acts. A *tick* is a reading of the machine's monotonic clock, in microseconds. If its ticker has a
//! board, the daemon writes its half of the page there, which programs read (`tsp_page`).
//!
//! `specs/Sessions.antt` defines a *session*, the turns of a daemon, by the rules of the node, and
//! `specs/Serving.antt` what comes before it, and when none begins. Contracts speak of a link, a
//! ticker and a sink whose arrivals, readings and octets are known, as they are in tests; of the
//! real ones they say which calls fail (`tsp_io`).
//!
//! # What is proved
//!
//! In parentheses are the contracts, clauses and definitions that say it.
//!
//! - A session sends and writes exactly what its node's rules give, turn by turn, if a turn has one arrival
//!   or none and two readings of the tick.
//! - If a fault or want of memory cut it off, how far it came (`serves` of `serve`).
//! - Each fault has its cause (`link`, `write`).
//! - Each receive waits until the node is due, for at least a thousandth of a second and at most one, and
//!   there was one in each turn (`serves` of `serve`, `wait_until`).
//! - What it writes on its page, with which octets: at its beginning, in each turn that corrects the clock
//!   or changes a role, and after a second in which it wrote nothing. That comes before the turn's sends: a
//!   session that is cut off at one of them has written it (`serves` of `serve`, by `MarksIfTold`).
//! - The fields of the page are those of the node's past: the tick of the last correction, target and rest
//!   right after it, what the node is and whom it follows; how far the target moved since the beginning, by
//!   slews and steps; how many steps there were; and the least that may be shown, what the page before
//!   shows at a moment of the counter that isn't before the turn's step (`half_after`).
//! - At which rate it counts: it reads the look's half of its page where it says that it is alive, after a
//!   second in which it wrote nothing, and nowhere else. If that is whole, of its life, and asks for a rate
//!   within the drift that it states, ticks are counted at that rate from a moment on which is read between
//!   the odd sequence and the fields, and the fields say so (`serves` of `serve`, by `sheet_after`,
//!   `rate_in` and `half_alive`). Without a board nothing is read (`alone`).
//! - All this is said of the reads that are told. If it isn't told what reads give, there are some reads by
//!   which the page is what it is (`AreReads` of `MarksIfTold`). A turn that changes the page reads nothing,
//!   so what it writes doesn't depend on them, and ticks are counted as before (`turns` of `show`).
//! - After each turn what stands there has the clock of the node's past, and what a turn writes shows no
//!   less than what stood there before, unless it steps the clock, also where the rate changes
//!   (`pages_tell_of_pasts`, `pages_dont_fall`).
//! - What its node does in these turns keeps all that is promised without premises (`kept`, by
//!   `HistoryKept`), and there is a setting (networks, rates, wall clocks) of which this speaks
//!   (`each_daemon_is_set`).
//! - A daemon as a command binds its own address and its arguments' peers, in their order, reads the wall
//!   clock right after its first tick, and is the session of a node that boots at the first reading, with a
//!   port for each of its networks, on which its own address is peer 0 and its arguments' peers come after it,
//!   unless its bind fails or its wall clock is out of its range (`serves` of `serve_words`, by `ServesAs`).
//! - `bad wall` comes only if the wall clock is out of its range (`wall`), and each fault has its cause
//!   (`link`, `write`).
//!
//! # What is only tested
//!
//! - Answers, shown lines, failing calls, wall clocks at the edges of their range.
//!
//! # What is neither proved nor tested
//!
//! - That each line is one write.
//! - That the moment is read after the sequence was made odd, and that a page's sequence is even at rest.
#![tactic(auto)]

mod asked;
mod changes;
pub mod command;
mod counters;
pub mod end;
pub mod exit;
mod half;
pub mod laws;
mod lines;
mod node;
mod page;
mod room;
mod sends;
pub mod serve;
mod step;
mod turn;
pub mod wait;
