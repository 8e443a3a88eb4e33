//! Rows that were worked out by hand: which lines are allowed of which events, what was posted, and what
//! the clocks show.

use crate::tests::claiming::{Answer, base, claims_of_two, counts, first_wrong, looks_at};
use std::alloc::Global;
use std::process::Abort;
use tsp_claims::claims::Claims;

/// Lines that aren't allowed of a boot.
const NO_BOOTS: &[(&str, &str, Answer)] = &[
    ("at 0 boot 0 7", "", Err(0)),
    ("at 0 boot 0 7", "1 0 0 0 become starting", Err(0)),
    ("at 0 boot 0 7", "1 0 1 0 boot", Err(0)),
    ("at 0 boot 0 7", "2 0 0 0 boot", Err(0)),
    ("at 0 boot 0 7", "1 1 0 0 boot", Err(0)),
    ("at 0 boot 0 7", "1 0 0 1 boot", Err(0)),
    ("at 0 boot 0 7", "1 0 0 0 boot\n1 0 0 0 boot", Err(1)),
    (
        "at 0 boot 0 7",
        "1 0 0 0 boot\n1 0 0 0 took 1 ack 1 b",
        Err(1),
    ),
];

/// A boot's lines.
const BOOTS: &[(&str, &str, Answer)] = &[(
    "at 0 boot 0 7",
    "1 0 0 0 boot\n1 0 0 0 become starting",
    Ok(()),
)];

/// Whether the rows come, and these counts of events, of their lines and of the history's lines after them.
fn come(
    claims: &mut Claims,
    alloc: Global,
    rows: &[(&str, &str, Answer)],
    after: (u64, u64, usize),
) -> bool {
    first_wrong(claims, alloc, rows).is_none() && counts(claims) == after
}

/// Whether no line of `NO_BOOTS` is taken in, and those of a boot are.
fn boots_come(claims: &mut Claims, alloc: Global) -> bool {
    come(claims, alloc, NO_BOOTS, (0, 0, 0))
        && come(claims, alloc, BOOTS, (1, 2, 3))
        && claims.header().nodes().len() == 2
}

/// Posts, and lines that aren't allowed of a turn.
const POSTS: &[(&str, &str, Answer)] = &[
    ("at 0 boot 0 7", "1 0 0 0 boot", Ok(())),
    (
        "at 1000 turn 0",
        "2 0 0 1000 post 1 1 masterreq 0 a",
        Err(0),
    ),
    ("at 1000 turn 0", "2 0 0 1000 took 1 masterreq 0 b", Err(0)),
    (
        "at 1000 turn 0",
        "2 0 0 1000 post 0 1 conflict 0 a\n2 0 0 1000 post 1 - conflict 0 a",
        Ok(()),
    ),
];

/// Whether the two posts of `POSTS` are there.
fn has_posts(claims: &Claims) -> bool {
    let is_first = match claims.post(0) {
        Some(first) => (first.event, first.at, first.node) == (2, 1000, 0),
        None => false,
    };
    is_first && claims.post(1).is_some() && claims.post(2).is_none() && claims.posts().len() == 2
}

/// Whether a boot fits claims, and posts come after it.
fn posts_come(claims: &mut Claims, alloc: Global) -> bool {
    looks_at(claims, "at 0 boot 0 7", "1 0 0 0 boot") == Some((true, false))
        && first_wrong(claims, alloc, POSTS).is_none()
        && has_posts(claims)
}

/// Takes of a message that was posted, by a node that is up and by one that isn't.
const TAKES: &[(&str, &str, Answer)] = &[
    ("at 0 boot 0 7", "1 0 0 0 boot", Ok(())),
    ("at 9 take 0", "2 1 0 9 took 0 quit 0 a", Err(0)),
    ("at 9 take 0", "2 0 0 9 post 0 0 quit 0 a", Err(0)),
    ("at 9 turn 0", "2 0 0 9 post 0 1 quit 0 a", Ok(())),
    ("at 9 turn 0", "3 0 0 9 post 1 - quit 0 a", Ok(())),
    ("at 9 take 0", "4 1 0 9 took 0 quit 0 a", Err(0)),
    ("at 9 boot 1 8", "4 1 0 9 boot", Ok(())),
    ("at 9 take 1", "5 1 0 9 took 0 quit 0 a", Err(0)),
    ("at 9 take 0", "", Ok(())),
    ("at 9 take 0", "6 1 0 9 took 0 quit 0 a", Ok(())),
];

/// Takes of a message, not as it was posted and as it was.
const TAKEN: &[(&str, &str, Answer)] = &[
    ("at 0 boot 0 7", "1 0 0 0 boot", Ok(())),
    ("at 0 boot 1 8", "2 1 0 0 boot", Ok(())),
    ("at 0 turn 0", "3 0 0 0 post 0 1 quit 0 a", Ok(())),
    ("at 2000 take 0", "4 1 0 2000 abandon", Err(0)),
    ("at 2000 take 0", "4 1 0 2002 abandon", Err(1)),
    ("at 9 take 0", "4 1 0 9 took 1 quit 0 a", Err(0)),
    ("at 9 take 0", "4 1 0 9 took 0 quit 0 b", Err(0)),
    ("at 9 take 0", "4 1 0 9 took 0 quit 0 a", Ok(())),
];

/// Octets that are taken wrongly, and then well.
const OCTETS: &[(&str, &str, Answer)] = &[
    ("at 0 boot 0 7", "1 0 0 0 boot", Ok(())),
    ("at 9 bytes 0 - 00", "", Err(0)),
    ("at 9 bytes 0 - 00", "2 0 0 9 abandon", Err(1)),
    ("at 9 bytes 0 - 00", "2 0 0 9 took 0 refused short", Err(0)),
    (
        "at 9 bytes 0 - 00",
        "2 0 0 9 took - refused short\n2 0 0 9 took - refused short",
        Err(1),
    ),
    ("at 9 bytes 0 - 00", "2 0 0 9 took - refused long", Ok(())),
];

/// Whether octets come, and a line that takes none lacks something.
fn octets_come(claims: &mut Claims, alloc: Global) -> bool {
    first_wrong(claims, alloc, OCTETS).is_none()
        && looks_at(claims, "at 9 bytes 0 - 00", "3 0 0 9 abandon") == Some((true, true))
}

/// A boot and corrections of 70 microseconds together.
const CORRECTS: &[(&str, &str, Answer)] = &[
    ("at 0 boot 0 7", "1 0 0 0 boot", Ok(())),
    (
        "at 9 turn 0",
        "2 0 0 9 correct 100 slew 14\n2 0 0 9 correct -30 slew 14",
        Ok(()),
    ),
];

/// A boot after them.
const BOOTS_AGAIN: &[(&str, &str, Answer)] = &[("at 9 boot 0 8", "3 0 0 9 boot", Ok(()))];

/// Whether the first clock's base is 75 after the corrections, and 5 after the boot; and the other one's 0.
fn bases_come(claims: &mut Claims, alloc: Global) -> bool {
    first_wrong(claims, alloc, CORRECTS).is_none()
        && base(claims, 0) == Some(75)
        && base(claims, 1) == Some(0)
        && first_wrong(claims, alloc, BOOTS_AGAIN).is_none()
        && base(claims, 0) == Some(5)
}

/// What is claimed.
#[derive(Clone, Copy)]
enum Part {
    /// A boot begins with a Boot on port 0, and has no other; each line has its event's number, node and tick.
    Boots,
    /// Posts are numbered from 0, and a turn takes nothing.
    Posts,
    /// A take that has lines takes what an earlier event posted, to a node that is up.
    Takes,
    /// A take that has lines says exactly once what was posted, and by whom.
    Taken,
    /// Octets are taken exactly once, from their sender; what was read of them isn't compared.
    Octets,
    /// A clock's base is its wall clock and the corrections since the last boot.
    Bases,
}

/// Whether it comes as it should of claims of two nodes; None where there are none.
fn comes(alloc: Global, part: Part) -> Option<bool> {
    let mut claims = claims_of_two(alloc)?;
    Some(match part {
        Part::Boots => boots_come(&mut claims, alloc),
        Part::Posts => posts_come(&mut claims, alloc),
        Part::Takes => come(&mut claims, alloc, TAKES, (6, 5, 10)),
        Part::Taken => first_wrong(&mut claims, alloc, TAKEN).is_none(),
        Part::Octets => octets_come(&mut claims, alloc),
        Part::Bases => bases_come(&mut claims, alloc),
    })
}

/// The parts, by name.
const PARTS: &[(&str, Part)] = &[
    ("boots", Part::Boots),
    ("posts", Part::Posts),
    ("takes of what is there", Part::Takes),
    ("takes of what was posted", Part::Taken),
    ("octets", Part::Octets),
    ("bases", Part::Bases),
];

/// Each part comes as it should.
#[test]
fn claims_come(rt: HostRuntime) {
    for (what, part) in PARTS {
        assert!(rt; comes(rt.alloc(), *part) == Some(true), "{what}");
    }
}
