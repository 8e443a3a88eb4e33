//! The time of a master's rounds over the number of its network's peers, which are the program's words.
//!
//! Standard output has how many rounds closed. Standard error has, for each number of peers, the
//! nanoseconds of a round and of a slave's share of it, and how the share grew from the first number
//! on, in hundredths: 100 where a round's time is linear.
#![tactic(auto)]

mod network;
mod slave;

use network::Network;
use std::alloc::{AllocError, Global};
use std::time::Instant;
use std::{env, io};

/// How many peers all rounds of a line have together.
const WORK: u32 = 30_000;

/// Runs so many rounds, and says how many of them closed.
fn run_rounds(network: &mut Network, alloc: Global, rounds: u32) -> Result<u32, AllocError> {
    let mut closed = 0u32;
    for _ in 0..rounds {
        if network.run_round(alloc)? {
            closed = closed.saturating_add(1);
        }
    }
    Ok(closed)
}

/// The nanoseconds of a number of rounds of a master, after a first one, and how many of the rounds closed.
fn time_rounds(rt: HostRuntime, network: &mut Network, rounds: u32) -> io::Result<(u64, u32)> {
    network.run_round(rt.alloc())?;
    let start = Instant::now(&rt)?;
    let closed = run_rounds(network, rt.alloc(), rounds)?;
    let time = start.elapsed(&rt)?.as_nanos();
    Ok((u64::try_from(time).unwrap_or(u64::MAX), closed))
}

/// The same of a master among so many peers; nothing where it can't boot.
fn time_network(rt: HostRuntime, peers: u32, rounds: u32) -> io::Result<(u64, u32)> {
    match Network::new(rt.alloc(), peers) {
        Ok(mut network) => time_rounds(rt, &mut network, rounds),
        Err(_) => Ok((0, 0)),
    }
}

/// The numbers of peers that the program's words name; 10, 100 and 1,000 where there are none.
fn counts(rt: HostRuntime) -> io::Result<Vec<u32>> {
    let mut counts = Vec::new(rt.alloc());
    for word in env::args(&rt)?.skip(1) {
        counts.push(word.parse().unwrap_or(0))?;
    }
    if counts.is_empty() {
        for count in [10, 100, 1000] {
            counts.push(count)?;
        }
    }
    Ok(counts)
}

/// Writes a line for each number of peers.
fn main(rt: HostRuntime) -> io::Result<()> {
    let mut first = 0u64;
    for peers in counts(rt)?.as_slice() {
        let slaves = u64::from(*peers).saturating_sub(1).max(1);
        let rounds = WORK / (*peers).max(1);
        let (time, closed) = time_network(rt, *peers, rounds)?;
        println!(rt; "{peers} peers: {closed} of {rounds} rounds closed")?;
        let round = time / u64::from(rounds).max(1);
        let share = round / slaves;
        if first == 0 {
            first = share.max(1);
        }
        let growth = share.saturating_mul(100) / first.max(1);
        eprintln!(rt; "{peers} peers: {round} ns a round, {share} ns a slave, growth {growth}")?;
    }
    Ok(())
}
