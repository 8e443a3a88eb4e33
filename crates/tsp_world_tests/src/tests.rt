//! The tests, by what they try. `lan` is the harness, and `scenes` has what several of them share.
mod front_pages;
mod lan;
mod meetings;
mod networks;
mod posts;
mod refusals;
mod relay;
mod scenes;
mod schedules;
