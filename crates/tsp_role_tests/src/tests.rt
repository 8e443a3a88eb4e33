//! The tests, by what they try. `acts` and `node` are what most of them share.
mod acts;
mod alone;
mod candidate;
mod clients;
mod clock;
mod groups;
mod loops;
mod measures;
mod node;
mod resolve;
mod sends;
mod slave;
mod station;
