//! Exchanges that were worked out by hand.
use std::test::Fail;
use tsp_base::place::PeerId;
use tsp_measure::{Exchanges, Reply, Sample, TimedSample};

/// A reply's peer, word and counter, and what comes of it.
type Answer = (u32, u64, u64, Reply);

/// Another peer's reply, a stranger's, one with another word, one with another counter, the answer, and it again.
const ANSWERS: [Answer; 6] = [
    (9, 7, 0, Reply::NotStarted),
    (5, 7, 0, Reply::NotStarted),
    (4, 8, 0, Reply::NotStarted),
    (4, 7, 1, Reply::NotStarted),
    (
        4,
        7,
        0,
        Reply::Sample(Sample {
            diff: 100,
            err: 401,
            ticket: 5,
            counter: 0,
        }),
    ),
    (4, 7, 0, Reply::NotStarted),
];

/// The index of the first reply of which something else comes.
fn first_wrong(exchanges: &mut Exchanges, answers: &[Answer]) -> Option<usize> {
    for (i, (peer, word, counter, want)) in answers.iter().enumerate() {
        let got = exchanges.reply(PeerId(*peer), *word, *counter, 5, 1_000_500, 1_000_801);
        if got != *want {
            return Some(i);
        }
    }
    None
}

/// The difference of a peer's best sample.
fn best_of(exchanges: &Exchanges, peer: u32) -> Option<i64> {
    Some(exchanges.best(PeerId(peer))?.diff)
}

#[test]
fn errs_by_half_the_round_trip(rt: HostRuntime) -> Result<(), Fail> {
    let mut exchanges = Exchanges::new(rt.alloc(), &[PeerId(4), PeerId(9)])?;
    exchanges.start(PeerId(4), 7, 0, 1_000_000);
    let wrong = first_wrong(&mut exchanges, &ANSWERS);
    let best = [best_of(&exchanges, 4), best_of(&exchanges, 9)];
    exchanges.clear();
    let cleared = best_of(&exchanges, 4);
    assert_eq!(rt; (wrong, best, cleared), (None, [Some(100), None], None));
    Ok(())
}

/// Takes replies to the three exchanges with peer 1, the second and third of which take equally long.
fn answers_three(exchanges: &mut Exchanges) {
    for (counter, d) in [(0, 900), (2, 2_801), (1, 1_801)] {
        exchanges.reply(PeerId(1), 7, counter, 0, 500, d);
    }
}

#[test]
fn keeps_the_first_of_least_round_trip(rt: HostRuntime) -> Result<(), Fail> {
    let asked = PeerId(1);
    let mut exchanges = Exchanges::new(rt.alloc(), &[asked])?;
    exchanges.start(asked, 7, 0, 0);
    exchanges.start(asked, 7, 1, 1_000);
    exchanges.start(asked, 7, 2, 2_000);
    answers_three(&mut exchanges);
    let best = exchanges.best(asked).map(|sample| sample.counter);
    assert_eq!(rt; best, Some(2));
    Ok(())
}

#[test]
fn rounds_also_below_zero(rt: HostRuntime) {
    let backwards = TimedSample::new(10, 0, 7, 0, 0);
    assert_eq!(rt;
        (backwards.sample.diff, backwards.sample.err, backwards.trip),
        (-8, -1, -3)
    );
    let odd = TimedSample::new(-5, -9, -4, 0, 0);
    assert_eq!(rt; (odd.sample.diff, odd.sample.err, odd.trip), (-4, 1, 1));
}
