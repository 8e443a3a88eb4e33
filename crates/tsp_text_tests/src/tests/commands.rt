//! Words that are commands, and words that aren't.
use std::alloc::{AllocError, Global};
use tsp_args::command::{Command, command_of};
use tsp_args::query::Query;
use tsp_args::serve::{Candidacy, ServeWords};
use tsp_io::addr::Addr;

/// What some words ask for.
fn read(alloc: Global, words: &[&str]) -> Result<Option<Command>, AllocError> {
    let mut owned = Vec::new(alloc);
    for word in words {
        owned.push(String::from_str(alloc, word)?)?;
    }
    command_of(alloc, owned.as_slice())
}

/// This machine's address, with a port.
fn here(port: u16) -> Addr {
    Addr {
        ip: [127, 0, 0, 1],
        port,
    }
}

/// A question's word, and a date's microseconds.
fn asked(query: &Query) -> (&'static str, i64) {
    match query {
        Query::Msite => ("msite", 0),
        Query::ClockDiff => ("clockdiff", 0),
        Query::Trace(true) => ("trace on", 0),
        Query::Trace(false) => ("trace off", 0),
        Query::Election => ("election", 0),
        Query::Date(time) => ("date", time.get()),
    }
}

/// A command's word, or what it asks of the daemon at port 525 of this machine; a storm's word is empty where
/// its numbers aren't the greatest ones.
fn said(command: &Option<Command>) -> (&'static str, i64) {
    match command {
        Some(Command::Replay) => ("replay", 0),
        Some(Command::Show) => ("show", 0),
        Some(Command::Pack) => ("pack", 0),
        Some(Command::Icmp) => ("icmp", 0),
        Some(Command::Audit) => ("audit", 0),
        Some(Command::Serve(_)) => ("serve", 0),
        Some(Command::Ask(addr, query)) if *addr == here(525) => asked(query),
        Some(Command::Storm(storm))
            if storm.seed == u64::MAX && storm.nodes == 64 && storm.events == 200_000 => {
            ("storm", 0)
        }
        Some(_) => ("", 0),
        None => ("nothing", 0),
    }
}

/// Whether words ask for this.
fn ask(alloc: Global, words: &[&str], wanted: (&str, i64)) -> Result<bool, AllocError> {
    let command = read(alloc, words)?;
    Ok(said(&command) == wanted)
}

/// Commands of one word, the generator's numbers, and questions to a daemon.
const COMMANDS: &[(&[&str], (&str, i64))] = &[
    (&["replay"], ("replay", 0)),
    (&["show"], ("show", 0)),
    (&["pack"], ("pack", 0)),
    (&["icmp"], ("icmp", 0)),
    (&["audit"], ("audit", 0)),
    (
        &["storm", "18446744073709551615", "64", "200000"],
        ("storm", 0),
    ),
    (&["msite", "127.0.0.1:525"], ("msite", 0)),
    (&["clockdiff", "127.0.0.1:525"], ("clockdiff", 0)),
    (&["election", "127.0.0.1:525"], ("election", 0)),
    (&["trace", "127.0.0.1:525", "on"], ("trace on", 0)),
    (&["trace", "127.0.0.1:525", "off"], ("trace off", 0)),
    (
        &["date", "127.0.0.1:525", "-2147483647999999"],
        ("date", -2147483647999999),
    ),
];

/// Whether this is the daemon of `TWO`.
fn is_of_two(alloc: Global, words: &ServeWords) -> Result<bool, AllocError> {
    let third = Addr {
        ip: [10, 0, 0, 3],
        port: 525,
    };
    let peers = words.ports.peers(alloc)?;
    Ok(
        words.local == here(525)
            && words.name.octets() == b"a-B.9_".as_slice()
            && words.candidacy == Candidacy::Strict
            && words.turns == 1_000_000_000
            && words.ports.count() == 2
            && peers.last() == Some(&third),
    )
}

/// A daemon with two ports, of which the second has one peer.
const TWO: &[&str] = &[
    "serve",
    "127.0.0.1:525",
    "a-B.9_",
    "x",
    "1000000000",
    "10.0.0.2:1",
    "255.0.0.0:65535",
    "+",
    "10.0.0.3:525",
];

/// Whether the words of `TWO` ask for it.
fn is_two(alloc: Global) -> Result<bool, AllocError> {
    let command = read(alloc, TWO)?;
    match &command {
        Some(Command::Serve(words)) => is_of_two(alloc, words),
        _ => Ok(false),
    }
}

/// Whether words ask for a daemon with one port and no peer.
fn is_alone(alloc: Global) -> Result<bool, AllocError> {
    let command = read(alloc, &["serve", "127.0.0.1:525", "a", "s", "1"])?;
    Ok(match &command {
        Some(Command::Serve(words)) => {
            words.ports.count() == 1 && words.candidacy == Candidacy::Never
        }
        _ => false,
    })
}

/// A daemon with two ports, and one with one port and no peer.
#[test]
fn words_are_a_daemons(rt: HostRuntime) {
    assert!(rt; is_two(rt.alloc()) == Ok(true));
    assert!(rt; is_alone(rt.alloc()) == Ok(true));
}

/// An own address.
const OWN: &str = "127.0.0.1:525";

/// Words that only look like a command's.
const OTHERS: &[&[&str]] = &[
    &[],
    &[""],
    &["Replay"],
    &["replay", "x"],
    &["msite"],
    &["msite", "127.0.0.1"],
    &["msite", "127.0.0.1:0"],
    &["msite", "127.0.0.1:65536"],
    &["msite", "127.0.0.01:525"],
    &["msite", "127.0.0.256:525"],
    &["msite", "127.0.0.1:0525"],
    &["msite", "127.0.0.1.1:525"],
    &["msite", "localhost:525"],
    &["msite", OWN, "on"],
    &["trace", OWN],
    &["trace", OWN, "On"],
    &["date", OWN, "-2147483648000000"],
    &["date", OWN, "+1"],
    &["storm", "1", "65", "1"],
    &["storm", "1", "0", "1"],
    &["storm", "1", "1", "200001"],
    &["storm", "18446744073709551616", "1", "1"],
    &["serve", OWN, "a", "m"],
    &["serve", OWN, "", "m", "1"],
    &["serve", OWN, "a b", "m", "1"],
    &["serve", OWN, "a", "y", "1"],
    &["serve", OWN, "a", "m", "0"],
    &["serve", OWN, "a", "m", "1000000001"],
    &["serve", OWN, "g", "m", "1", "+", "+", "+", "+"],
    &["serve", OWN, "a", "m", "1", OWN],
    &["serve", OWN, "a", "m", "1", "1.0.0.2:1", "+", "1.0.0.2:1"],
    &["serve", OWN, "a", "m", "1", "1.0.0.2:1", "peer"],
];

#[test]
fn words_are_commands(rt: HostRuntime) {
    for (words, wanted) in COMMANDS {
        assert!(rt; ask(rt.alloc(), words, *wanted) == Ok(true));
    }
    for words in OTHERS {
        assert!(rt; ask(rt.alloc(), words, ("nothing", 0)) == Ok(true));
    }
}
