//! Schedules that were worked out by hand.

use crate::tests::scenes::{Did, Outcome, Row, Scene, Step, What, comes};
use tsp_base::event::EventFault;
use tsp_base::place::{PeerId, Place};

/// What a node does that boots on one network at its tick 0.
const BOOTED: &[Row] = &[
    (0, Did::Boots),
    (0, Did::Starts),
    (0, Did::Arms(80_000_000)),
];

/// A node answers a stranger, to whom its clock shows 1020.
const ANSWERED: &[Row] = &[
    (0, Did::Took(Place::Stranger, None)),
    (0, Did::Posts(0, Place::Stranger, Some((5, 1020)))),
];

/// A node boots, does nothing at a turn, and is asked by a stranger.
const ASKED: &[Step] = &[
    (0, What::Boot(0, 5), Outcome::Does(1, 0, 0, BOOTED)),
    (10, What::Turn(0), Outcome::Nothing),
    (
        20,
        What::Ask(0, 0, Place::Stranger),
        Outcome::Does(3, 0, 20, ANSWERED),
    ),
];

/// A node boots, does nothing at a turn, and answers a stranger's request.
const ALONE: Scene = Scene {
    drift: 0,
    rates: &[0],
    walls: &[1000],
    nets: &[],
    steps: ASKED,
    events: 3,
    posts: &[20],
};

const FIRST: Place = Place::Peer(PeerId(0));

const SECOND: Place = Place::Peer(PeerId(1));

const THIRD: Place = Place::Peer(PeerId(2));

/// The reply of the node with the clock 1000 comes to the other one.
const REPLIED: &[Row] = &[(0, Did::Took(FIRST, Some((5, 2_003_000))))];

/// A node asks another one, and a stranger asks it.
const CARRIED: &[Step] = &[
    (0, What::Boot(1, 40_000), Outcome::Happens),
    (1_000_000, What::Boot(0, 32_773), Outcome::Happens),
    (
        2_000_000,
        What::Ask(0, 0, SECOND),
        Outcome::Does(
            3,
            0,
            2_002_000,
            &[
                (0, Did::Took(SECOND, None)),
                (0, Did::Posts(0, SECOND, Some((5, 2_003_000)))),
            ],
        ),
    ),
    (
        3_000_001,
        What::Take(0),
        Outcome::Does(4, 1, 2_998_500, REPLIED),
    ),
    (
        3_000_001,
        What::Take(0),
        Outcome::Does(5, 1, 2_998_500, REPLIED),
    ),
    (
        4_000_000,
        What::Ask(1, 0, Place::Stranger),
        Outcome::Does(
            6,
            1,
            3_998_000,
            &[
                (0, Did::Took(Place::Stranger, None)),
                (0, Did::Posts(1, Place::Stranger, Some((7232, 3_997_993)))),
            ],
        ),
    ),
    (4_000_000, What::Take(1), Outcome::Nothing),
];

/// Two nodes whose clocks drift apart. The reply is taken twice, and one to a stranger by nobody.
const APART: Scene = Scene {
    drift: 1000,
    rates: &[1000, -500],
    walls: &[1000, -7],
    nets: &[],
    steps: CARRIED,
    events: 7,
    posts: &[2_000_000, 4_000_000],
};

/// Events of one node, of which two happen.
const REFUSED: &[Step] = &[
    (5, What::Turn(0), Outcome::Refused(EventFault::NotUp(0))),
    (5, What::Boot(0, 1), Outcome::Happens),
    (
        4,
        What::Turn(0),
        Outcome::Refused(EventFault::TimeBack(4, 5)),
    ),
    (
        4,
        What::Turn(1),
        Outcome::Refused(EventFault::TimeBack(4, 5)),
    ),
    (5, What::Turn(1), Outcome::Refused(EventFault::NoNode(1, 1))),
    (
        10,
        What::Take(0),
        Outcome::Refused(EventFault::NoDatagram(0, 0)),
    ),
    (5, What::Turn(0), Outcome::Happens),
];

/// Each cause except the limit and memory, and which of two comes first.
const FAULTY: Scene = Scene {
    drift: 0,
    rates: &[0],
    walls: &[0],
    nets: &[],
    steps: REFUSED,
    events: 2,
    posts: &[],
};

/// A node on two networks is asked on both.
const ON_TWO: &[Step] = &[
    (
        0,
        What::Boot(0, 5),
        Outcome::Does(
            1,
            0,
            0,
            &[
                (0, Did::Boots),
                (0, Did::Starts),
                (0, Did::Arms(80_000_000)),
                (1, Did::Starts),
                (1, Did::Arms(80_000_000)),
            ],
        ),
    ),
    (
        10,
        What::Ask(0, 1, THIRD),
        Outcome::Does(
            2,
            0,
            10,
            &[
                (1, Did::Took(THIRD, None)),
                (1, Did::Posts(0, THIRD, Some((5, 10)))),
            ],
        ),
    ),
    (20, What::Take(0), Outcome::Refused(EventFault::NotUp(2))),
    (
        20,
        What::Ask(0, 2, THIRD),
        Outcome::Refused(EventFault::NoNode(0, 3)),
    ),
    (20, What::Boot(2, 6), Outcome::Happens),
    (
        30,
        What::Take(0),
        Outcome::Does(4, 2, 30, &[(0, Did::Took(FIRST, Some((5, 10))))]),
    ),
    (40, What::Ask(0, 0, THIRD), Outcome::Happens),
    (40, What::Take(1), Outcome::Nothing),
];

/// A node on two networks boots on both ports. What it posts on one reaches that network alone, and an event
/// on a port that it doesn't have is refused.
const ON_BOTH: Scene = Scene {
    drift: 0,
    rates: &[],
    walls: &[0, 0, 0],
    nets: &[&[0, 1], &[0, 2]],
    steps: ON_TWO,
    events: 6,
    posts: &[10, 40],
};

/// The schedules, by what they show.
const SCENES: &[(&str, Scene)] = &[
    ("answers a stranger", ALONE),
    ("carries a reply to its node", APART),
    ("refuses by the first cause", FAULTY),
    ("carries a reply on its network", ON_BOTH),
];

/// Each comes as it should.
#[test]
fn schedules_come(rt: HostRuntime) {
    for (what, scene) in SCENES {
        assert!(rt; comes(rt.alloc(), scene) == Some(true), "{what}");
    }
}
