//! The tests, by what they try. `lines` has the treatment that `gathered` uses too.
mod acts;
mod boards;
mod codec;
mod commands;
mod conversions;
mod gathered;
mod lines;
mod messages;
mod outside;
mod schedules;
mod values;
