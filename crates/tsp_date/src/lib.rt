//! The network's date: what timed's `date` command sets on all clocks at once.
//!
//! A client sends it to any node, as DATE or SETDATE. A follower answers with ACK, and passes the date on to its
//! master as SETDATEREQ; a DATEREQ means the same. A master steps its own clock to the date, answers with
//! DATEACK, forgets its slaves, and calls all peers by MASTERUP: each reports again, and is sent the new time.
//! A repeat of a date that was set less than `DATEHOLD` ago is only answered again.
//!
//! A port keeps [`dates::Dates`], made with its peers at its boot. Each of these messages goes to
//! [`take::date_take`]. It says whether the clock was set; the caller then ends the rounds that go on.
//!
//! # What is proved
//!
//! In parentheses are the contracts, clauses and definitions that say it.
//!
//! - A message that sets the date, passes one on or says that one was set puts exactly its row (`row` of
//!   `date_take`), and the call says whether the clock was corrected (`corrects`).
//! - Every other row leaves what a port remembers of dates as it is (`DatesStand_by`, `DatesAside_by`).
#![tactic(auto)]

pub mod dates;
mod pass;
mod set;
pub mod take;
mod task;
