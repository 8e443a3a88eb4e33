//! The texts: schedule lines, message lines and trace lines.
//!
//! Each value is written in one way, and a reader accepts that text and no other, except that the
//! hexadecimal of octets may have upper case. No call allocates memory, and no text has a line end:
//!
//! | Text | Writer | Reader |
//! |---|---|---|
//! | a datagram | [`messages::message_text`] | [`message_reader::message_of`] |
//! | a line of a trace | [`trace::act_text`] | [`act_reader::act_of`] |
//! | a line of a schedule's header | | [`head_line::head_line`], with the line's number |
//! | a later line of a schedule | | [`event_line::event_line`] |
//!
//! A text that is being written is a [`text::Text`].
//!
//! ```
//! let name = Name::new(b"alpha");
//! let datagram = Datagram::Message(Message::new(Kind::MasterReq, 7, Body::Nothing, name));
//! let text = message_text(&datagram);
//! assert_eq!(text.as_slice(), b"masterreq 7 alpha");
//! assert!(message_of(text.as_slice()).is_ok());
//! assert!(matches!(event_line(b"at 5 turn 0"), Ok(EventItem::Event(Event::Turn { at: 5, node: 0 }))));
//! assert!(matches!(event_line(b"at 05 turn 0"), Err(LineFault::Bad)));
//! ```
//!
//! [`storm::Storm`] makes schedules from a number: call `head` once for each node, and then `next` for
//! each event.
//!
//! An `Event` has room for 300 octets, so handing it on costs time. `Storm::choice` is `next` for callers to
//! whom that matters: it gives an event without octets as a small [`Plain`](tsp_base::plain::Plain). So does
//! [`event_line::plain_line`] with a turn's line or a take's.
//!
//! # What is proved
//!
//! In parentheses are the contracts, clauses and definitions that say it.
//!
//! - A line is read exactly where it is in the grammar, as the one value that it spells (`reads`, `one`).
//! - Written texts are as defined, and a written message comes back (`comes_back`).
//! - The generator of schedules gives what its draws come to (`line`, `next` of `Storm`), and only events in
//!   their ranges (`range`).
//!
//! # What is only tested
//!
//! - Rows of lines.
#![tactic(auto)]

pub mod act_laws;
mod act_parts;
pub mod act_reader;
mod act_words;
pub mod acts;
mod decimals;
mod digit_reader;
mod eights;
pub mod event_line;
pub mod head_line;
mod hexes;
pub mod laws;
pub mod line_fault;
pub mod message_reader;
pub mod messages;
pub mod names;
mod net_line;
pub mod numbers;
mod padded;
pub mod storm;
pub mod text;
pub mod trace;
mod verbs;
pub mod words;
