//! Octets and readings of pages, and widths of clocks.
use tsp_page::daemon_half::DaemonHalf;
use tsp_page::layout::{
    ALIVE_AT, DAEMON_AT, DAEMON_FIELDS, DAEMON_FIELDS_AT, LOOK_AT, LOOK_FIELDS, LOOK_FIELDS_AT,
    SIZE,
};
use tsp_page::look_half::LookHalf;
use tsp_page::rank::Rank;
use tsp_page::reading::{Interval, Reading, Status, read};
use tsp_page::spread::{spread, width};

/// A host that follows, and is slewing 400 microseconds in.
const DAEMON: DaemonHalf = DaemonHalf {
    life: 7,
    counter: 4,
    origin: 5_000_000_000,
    origin_tick: 0,
    rate: 0,
    tick: 1_000_000,
    target: 1_000_000_000,
    rest: 400,
    least: i64::MIN,
    moved: 400,
    steps: 0,
    rank: Rank::Follows,
    master: 3,
    alive: 60_000_000,
};

/// A look of it at its master, ten seconds before the daemon wrote last.
const LOOK: LookHalf = LookHalf {
    life: 7,
    moved: 400,
    looked: 50_000_000,
    low: -20,
    high: 35,
    master: 3,
    drift: 100,
    had: true,
    learned: 0,
    name: [0; 256],
};

/// The octets of that daemon's half.
const DAEMON_OCTETS: [u8; 112] = [
    7, 0, 0, 0, 0, 0, 0, 0, 4, 0, 0, 0, 0, 0, 0, 0, 0, 242, 5, 42, 1, 0, 0, 0, 0, 0, 0, 0, 0, 0, 0,
    0, 0, 0, 0, 0, 0, 0, 0, 0, 64, 66, 15, 0, 0, 0, 0, 0, 0, 202, 154, 59, 0, 0, 0, 0, 144, 1, 0,
    0, 0, 0, 0, 0, 0, 0, 0, 0, 0, 0, 0, 128, 144, 1, 0, 0, 0, 0, 0, 0, 0, 0, 0, 0, 0, 0, 0, 0, 1,
    0, 0, 0, 0, 0, 0, 0, 3, 0, 0, 0, 0, 0, 0, 0, 0, 135, 147, 3, 0, 0, 0, 0,
];

/// The octets of that look's half up to its name.
const LOOK_OCTETS: [u8; 72] = [
    7, 0, 0, 0, 0, 0, 0, 0, 144, 1, 0, 0, 0, 0, 0, 0, 128, 240, 250, 2, 0, 0, 0, 0, 236, 255, 255,
    255, 255, 255, 255, 255, 35, 0, 0, 0, 0, 0, 0, 0, 3, 0, 0, 0, 0, 0, 0, 0, 100, 0, 0, 0, 0, 0,
    0, 0, 1, 0, 0, 0, 0, 0, 0, 0, 0, 0, 0, 0, 0, 0, 0, 0,
];

/// What is told with this status.
fn told(status: Status, shown: i64, earliest: i64, latest: i64, age: u64) -> Reading {
    Reading {
        status,
        shown,
        interval: Interval {
            earliest,
            latest,
            age,
        },
    }
}

/// That look at a master of this name.
fn named(name: &[u8; 5]) -> LookHalf {
    let mut look = LOOK;
    look.name[..5].copy_from_slice(name);
    look
}

#[test]
fn writes_and_reads_halves(rt: HostRuntime) {
    let look = named(b"alpha");
    let octets = look.octets();
    assert!(rt; DAEMON.octets().as_slice() == DAEMON_OCTETS.as_slice());
    assert!(rt; DaemonHalf::of(&DAEMON_OCTETS) == DAEMON);
    assert!(rt; octets.as_slice().starts_with(&LOOK_OCTETS));
    assert!(rt; octets.as_slice().split_at(72).1.starts_with(b"alpha\0"));
    assert!(rt; octets.len() == LOOK_FIELDS && LookHalf::of(octets.as_slice()) == look);
}

#[test]
fn has_its_places(rt: HostRuntime) {
    assert!(rt;
        DAEMON_FIELDS_AT == DAEMON_AT + 8 && ALIVE_AT == DAEMON_FIELDS_AT + DAEMON_FIELDS - 8
    );
    assert!(rt; LOOK_FIELDS_AT == LOOK_AT + 8 && ALIVE_AT + 8 <= LOOK_AT);
    assert!(rt; LOOK_FIELDS_AT + LOOK_FIELDS <= SIZE as usize);
}

#[test]
fn widens_with_time(rt: HostRuntime) {
    for (drift, passed, wide, apart) in [
        (0, 0, 1, 2),
        (100, 16_000_000, 1601, 3204),
        (100, 10_000, 2, 6),
        (100, 10_001, 3, 6),
        (
            1000,
            9_007_199_254_740_992,
            9_007_199_254_742,
            18_050_427_306_504,
        ),
        (100, 100_000_000, 10_001, 20_006),
        (100, 100_000_001, 10_002, 20_008),
    ] {
        assert!(rt; width(drift, passed) == wide && spread(drift, passed) == apart);
    }
}

/// A slewed rest, the least, a rate, and moments before and after.
#[test]
fn tells_what_the_clock_shows(rt: HostRuntime) {
    for (daemon, look, now, reading) in [
        (
            DAEMON,
            LOOK,
            65_000_500_999,
            told(
                Status::Synchronised,
                1_059_000_500,
                1_058_998_476,
                1_059_002_539,
                10_000_500,
            ),
        ),
        (
            DaemonHalf {
                alive: 1_000_000,
                ..DAEMON
            },
            LookHalf {
                looked: 1_000_100,
                ..LOOK
            },
            6_000_399_999,
            told(
                Status::Synchronised,
                1_000_000_000,
                1_000_000_375,
                1_000_000_438,
                299,
            ),
        ),
        (
            DaemonHalf {
                alive: 1_000_000,
                ..DAEMON
            },
            LookHalf {
                looked: 1_000_100,
                ..LOOK
            },
            6_079_999_999,
            told(
                Status::Synchronised,
                1_000_079_998,
                1_000_079_961,
                1_000_080_052,
                79_899,
            ),
        ),
        (
            DaemonHalf {
                alive: 1_000_000,
                ..DAEMON
            },
            LookHalf {
                looked: 1_000_100,
                ..LOOK
            },
            6_080_000_999,
            told(
                Status::Synchronised,
                1_000_080_000,
                1_000_079_962,
                1_000_080_053,
                79_900,
            ),
        ),
        (
            DaemonHalf {
                alive: 1_000_000,
                least: 1_000_000_002,
                ..DAEMON
            },
            LookHalf {
                looked: 1_000_100,
                ..LOOK
            },
            6_000_399_999,
            told(
                Status::Synchronised,
                1_000_000_002,
                1_000_000_375,
                1_000_000_438,
                299,
            ),
        ),
        (
            DaemonHalf {
                rate: 999_999,
                alive: 4_003_999_996_000_000,
                tick: 1_000_000_000_000_000,
                origin_tick: 17,
                target: 1_000_000_000_000_000,
                ..DAEMON
            },
            LOOK,
            4_000_000_005_000_000_000,
            told(
                Status::Holding,
                4_003_999_996_000_017,
                4_003_199_035_850_797,
                4_004_800_956_149_252,
                4_003_999_946_000_017,
            ),
        ),
        (
            DaemonHalf {
                rate: -123_457,
                alive: 59_000_000,
                ..DAEMON
            },
            LOOK,
            65_000_500_999,
            told(
                Status::Synchronised,
                1_058_993_092,
                1_058_991_070,
                1_058_995_129,
                9_993_092,
            ),
        ),
    ] {
        assert!(rt; read(&daemon, &look, now) == reading);
    }
}

/// Looks that are near and far, before a correction, and by a host that leads.
#[test]
fn tells_where_the_master_is(rt: HostRuntime) {
    for (daemon, look, now, reading) in [
        (
            DaemonHalf {
                moved: 900,
                ..DAEMON
            },
            LOOK,
            65_000_500_999,
            told(
                Status::Synchronised,
                1_059_000_500,
                1_058_997_976,
                1_059_002_039,
                10_000_500,
            ),
        ),
        (
            DaemonHalf {
                alive: 149_000_000,
                ..DAEMON
            },
            LOOK,
            155_000_000_999,
            told(
                Status::Holding,
                1_149_000_000,
                1_148_979_974,
                1_149_020_041,
                100_000_000,
            ),
        ),
        (
            DaemonHalf {
                alive: 149_000_000,
                ..DAEMON
            },
            LOOK,
            155_000_001_999,
            told(
                Status::Holding,
                1_149_000_001,
                1_148_979_973,
                1_149_020_044,
                100_000_001,
            ),
        ),
        (
            DaemonHalf {
                rank: Rank::Leads,
                master: 0,
                ..DAEMON
            },
            LOOK,
            65_000_500_999,
            told(
                Status::Synchronised,
                1_059_000_500,
                1_059_000_500,
                1_059_000_500,
                0,
            ),
        ),
        (
            DaemonHalf {
                rank: Rank::Nobody,
                master: 0,
                ..DAEMON
            },
            LOOK,
            65_000_500_999,
            told(
                Status::Holding,
                1_059_000_500,
                1_058_998_476,
                1_059_002_539,
                10_000_500,
            ),
        ),
    ] {
        assert!(rt; read(&daemon, &look, now) == reading);
    }
}

/// Each side of 64 seconds, other masters and lives, and moments that can't be.
#[test]
fn tells_the_status(rt: HostRuntime) {
    for (daemon, look, now, reading) in [
        (
            DaemonHalf {
                alive: 113_000_000,
                ..DAEMON
            },
            LOOK,
            119_000_000_999,
            told(
                Status::Synchronised,
                1_113_000_000,
                1_112_987_176,
                1_113_012_839,
                64_000_000,
            ),
        ),
        (
            DaemonHalf {
                alive: 113_000_000,
                ..DAEMON
            },
            LOOK,
            119_000_001_999,
            told(
                Status::Holding,
                1_113_000_001,
                1_112_987_177,
                1_113_012_840,
                64_000_001,
            ),
        ),
        (
            DaemonHalf {
                master: 4,
                ..DAEMON
            },
            LOOK,
            65_000_500_999,
            told(
                Status::Holding,
                1_059_000_500,
                1_058_998_476,
                1_059_002_539,
                10_000_500,
            ),
        ),
        (
            DaemonHalf { life: 8, ..DAEMON },
            LOOK,
            65_000_500_999,
            told(Status::Waiting, 1_059_000_500, 0, 0, 0),
        ),
        (
            DAEMON,
            LookHalf { had: false, ..LOOK },
            65_000_500_999,
            told(Status::Waiting, 1_059_000_500, 0, 0, 0),
        ),
        (
            DAEMON,
            LookHalf {
                looked: 60_000_501,
                ..LOOK
            },
            65_000_500_999,
            told(Status::Waiting, 1_059_000_500, 0, 0, 0),
        ),
        (
            DAEMON,
            LOOK,
            129_000_001_999,
            told(Status::Stale, 0, 0, 0, 0),
        ),
        (
            DaemonHalf {
                rank: Rank::Leads,
                ..DAEMON
            },
            LOOK,
            129_000_000_999,
            told(
                Status::Synchronised,
                1_123_000_000,
                1_123_000_000,
                1_123_000_000,
                0,
            ),
        ),
        (
            DAEMON,
            LOOK,
            64_999_999_999,
            told(Status::Stale, 0, 0, 0, 0),
        ),
        (
            DaemonHalf {
                rate: 999_999,
                ..DAEMON
            },
            LOOK,
            4_999_999_999,
            told(Status::Stale, 0, 0, 0, 0),
        ),
        (
            DaemonHalf {
                rate: 1_000_001,
                ..DAEMON
            },
            LOOK,
            65_000_500_999,
            told(Status::Stale, 0, 0, 0, 0),
        ),
        (
            DAEMON,
            LookHalf {
                drift: 1_001,
                ..LOOK
            },
            65_000_500_999,
            told(Status::Stale, 0, 0, 0, 0),
        ),
        (
            DAEMON,
            LOOK,
            4_611_686_018_427_387_904,
            told(Status::Stale, 0, 0, 0, 0),
        ),
    ] {
        assert!(rt; read(&daemon, &look, now) == reading);
    }
}
