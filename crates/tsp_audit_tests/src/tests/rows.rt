//! A claimed history with one wrong line, and what its verdict names.

use crate::tests::auditing::{Answer, audit_of, first_wrong};
use std::alloc::Global;
use tsp_audit::audit::Audit;
use tsp_audit::verdict::{Failure, Verdict};

/// All parts hold so far.
const HOLDS: Answer = Ok(Verdict::Holds);

/// A follower that corrects its clock again, one tick too soon.
pub(crate) const TOO_SOON: &[(&str, &str, Answer)] = &[
    (
        "at 0 boot 0 7",
        "1 0 0 0 boot\n1 0 0 0 become starting\n1 0 0 0 arm quiet 80000000",
        HOLDS,
    ),
    (
        "at 80000000 turn 0",
        "2 0 0 80000000 ring quiet\n2 0 0 80000000 become loose\n\
            2 0 0 80000000 arm search 85000000\n2 0 0 80000000 post 0 1 masterreq 0 a",
        HOLDS,
    ),
    (
        "at 81000000 bytes 0 1 0601000000000000000000006200",
        "3 0 0 81000000 took 1 masterup 0 b\n3 0 0 81000000 become follow 1\n\
            3 0 0 81000000 arm elect 381000007\n3 0 0 81000000 post 1 1 slaveup 7 a",
        HOLDS,
    ),
    (
        "at 82000000 bytes 0 1 0101000700000000000027106200",
        "4 0 0 82000000 took 1 adjtime 7 10000 b\n4 0 0 82000000 correct 10000 slew 82000000\n\
            4 0 0 82000000 arm elect 382000007\n4 0 0 82000000 post 2 1 ack 7 a",
        HOLDS,
    ),
    (
        "at 82500000 bytes 0 1 0101000700000000000027106200",
        "5 0 0 82500000 took 1 adjtime 7 10000 b\n5 0 0 82500000 post 3 1 ack 7 a",
        HOLDS,
    ),
    (
        "at 82999999 bytes 0 1 0101000800000000000000016200",
        "6 0 0 82999999 took 1 adjtime 8 1 b\n6 0 0 82999999 correct 1 slew 0",
        Ok(Verdict::Fails(14)),
    ),
];

/// A line that isn't allowed, and a turn without a line.
const LATER: &[(&str, &str, Answer)] = &[
    ("at 83000000 turn 0", "7 0 0 83000000 boot", Err(0)),
    ("at 83000000 turn 0", "", Ok(Verdict::Fails(14))),
];

/// Whether part 14 failed at event 6.
fn fails(audit: &Audit) -> bool {
    audit.failure() == Some(Failure { part: 14, event: 6 })
}

/// Whether the failure comes and stays, and later lines are still checked.
fn fails_and_stays(audit: &mut Audit, alloc: Global) -> bool {
    first_wrong(audit, alloc, TOO_SOON).is_none()
        && fails(audit)
        && first_wrong(audit, alloc, LATER).is_none()
        && fails(audit)
        && (audit.claims().events(), audit.claims().told()) == (7, 19)
}

/// A follower corrects its clock again, one tick too soon. The failure stays, and later lines are still
/// checked.
#[test]
fn corrects_too_soon(rt: HostRuntime) {
    let Some(mut audit) = audit_of(rt.alloc(), &[(0, 0), (0, 0)]) else {
        panic!(rt; "no audit");
    };
    assert!(rt; fails_and_stays(&mut audit, rt.alloc()));
}
