//! Each fact of a few lines that were made by hand.
ghost use Rattle.std.specs.Prelude.{◌<◌, ◌^◌, length};
ghost use Rattle.tsp_history.specs.Notes.{Told};

use std::alloc::{AllocError, Global};
use std::process::Abort;
use tsp_base::constants::{GAP, HOLD};
use tsp_base::place::{PeerId, Port};
use tsp_base::role::Role;
use tsp_history::brief::Brief;
use tsp_history::clocks::{is_spaced, moved_at, target_at};
use tsp_history::counts::counts_at;
use tsp_history::held_act::HeldAct;
use tsp_history::history::History;
use tsp_history::line::{HistoryLine, Why};
use tsp_history::notes::Note;
use tsp_history::posts::{has_taken, is_acting, post_at};
use tsp_history::rounds::{Best, asked_at, best_at, closed_at, is_going, trip_of};
use tsp_history::scans::{is_held, role_at};
use tsp_history::sends::{begun_to, open_to};
use tsp_script::act_reader::act_of;

const NODE: u32 = 3;

const PORT: Port = Port(1);

const PEER: PeerId = PeerId(2);

/// The mark of a step of the node at a tick, or with a line of a trace its act on its port. A boot's wall clock
/// shows 1,000.
fn line_of(alloc: Global, tick: u64, text: &str) -> Option<HistoryLine> {
    let (port, act) = if text.is_empty() {
        (Port(0), HeldAct::mark(alloc))
    } else {
        let line = act_of(text.as_bytes()).ok()?;
        (line.placed.port, HeldAct::of(alloc, &line.placed.act).ok()?)
    };
    let why = match act.brief() {
        Brief::Boot => Why::Booted(7, 1_000),
        _ => Why::Turned,
    };
    Some(HistoryLine {
        at: tick,
        node: NODE,
        why,
        tick,
        port,
        act,
        note: Note::new(),
    })
}

/// The history of these ticks and lines.
fn told(alloc: Global, rows: &[(u64, &str)]) -> Option<History> {
    let mut history = History::new(alloc);
    for (tick, text) in rows {
        history.make_room(1).ok()?;
        if history.len() < 1_000 {
            history.push(line_of(alloc, *tick, text)?);
        }
    }
    Some(history)
}

/// The first lines of a history, as many as these; none where it has fewer.
#[tactic(auto, using(tsp_history::proofs::NoteLemmas::told_take))]
fn first(history: &History, count: usize) -> &[HistoryLine]
    ensures told { Told result.now }
    ensures few { length result.now < 2 ^ 32 }
{
    let lines = history.lines();
    if count <= 1_000 && count <= lines.len() {
        &lines[..count]
    } else {
        &lines[..0]
    }
}

/// The round trip of each line.
#[tactic(auto, using(tsp_history::proofs::NoteLemmas::told_take))]
fn trips(alloc: Global, lines: &[HistoryLine]) -> Result<Vec<i128>, AllocError>
    requires few { length lines.now < 2 ^ 32 }
    requires told { Told lines.now }
{
    let mut trips = Vec::new(alloc);
    for (index, line) in lines.iter().enumerate() {
        trips.push(trip_of(&lines[..index], line))?;
    }
    Ok(trips)
}

/// A master that backed the peer.
const HELD: &[(u64, &str)] = &[
    (0, "1 3 0 0 boot"),
    (40, "1 3 1 40 become master"),
    (50, "1 3 1 50 back 2"),
];

/// Whether the roles and the hold of `HELD` are told.
fn has_holds(history: &History) -> bool {
    let lines = first(history, 3);
    role_at(lines, NODE, PORT) == Role::Master
        && role_at(lines, NODE, Port(0)) == Role::Starting
        && is_held(lines, NODE, PORT, 50, PEER)
        && !is_held(lines, NODE, PORT, 49 + HOLD, PeerId(0))
        && is_held(lines, NODE, PORT, 50 + HOLD, PeerId(0))
}

/// Two lives, of which the first has two corrections.
const MOVED: &[(u64, &str)] = &[
    (50, "1 3 0 50 boot"),
    (60, "1 3 1 60 correct 30 slew 0"),
    (61, "1 3 1 61 correct -10 slew 0"),
    (90, "1 3 0 90 boot"),
];

/// Whether the clocks of `MOVED` are told.
fn has_clocks(history: &History) -> bool {
    let (before, lines) = (first(history, 3), first(history, 4));
    let counts = counts_at(lines, NODE);
    !is_spaced(before, NODE, 60 + GAP)
        && is_spaced(before, NODE, 61 + GAP)
        && is_spaced(lines, NODE, 91)
        && (counts.lives, counts.corrects) == (2, 2)
        && (moved_at(before, NODE), moved_at(lines, NODE)) == (20, 0)
        && (target_at(before, NODE, 70), target_at(lines, NODE, 95)) == (1_040, 1_005)
}

/// A step that takes and posts, and the mark of the next one.
const POSTED: &[(u64, &str)] = &[
    (0, "1 3 0 0 boot"),
    (5, ""),
    (5, "1 3 1 5 took - refused short"),
    (5, "1 3 1 5 post 0 2 quit 5 %"),
    (5, "1 3 1 5 post 1 2 quit 5 %"),
    (6, ""),
];

/// Whether the posts of `POSTED` are told.
fn has_posts(history: &History) -> bool {
    let (before, lines) = (first(history, 5), first(history, 6));
    post_at(lines, 1) == Some(4)
        && post_at(lines, 2).is_none()
        && has_taken(before, NODE)
        && !has_taken(lines, NODE)
        && is_acting(before, NODE, PORT)
        && !is_acting(lines, NODE, PORT)
}

/// A message to the peer, two tries more of it, and its ACK.
const SENT: &[(u64, &str)] = &[
    (0, "1 3 0 0 boot"),
    (0, "1 3 1 0 post 0 2 quit 5 %"),
    (9, ""),
    (9, "1 3 1 9 ring round"),
    (9, "1 3 1 9 post 1 2 quit 5 %"),
    (10, ""),
    (10, "1 3 1 10 post 2 2 quit 5 %"),
    (10, "1 3 1 10 acked 2"),
];

/// Whether the sends of `SENT` are told.
fn has_sends(history: &History) -> bool {
    let lines = first(history, 8);
    begun_to(first(history, 4), NODE, PORT, PEER).is_none()
        && begun_to(lines, NODE, PORT, PEER) == Some(1)
        && open_to(first(history, 7), NODE, PORT, PEER) == Some(1)
        && open_to(lines, NODE, PORT, PEER).is_none()
}

/// A round with three samples of the peer.
const MEASURED: &[(u64, &str)] = &[
    (0, "1 3 0 0 boot"),
    (10, "1 3 1 10 arm close 500"),
    (10, "1 3 1 10 post 0 2 request 7 0"),
    (34, "1 3 1 34 sample 2 0 5 4 1"),
    (40, "1 3 1 40 post 1 2 request 7 1"),
    (50, "1 3 1 50 sample 2 1 6 4 1"),
    (60, "1 3 1 60 post 2 2 request 7 2"),
    (70, "1 3 1 70 sample 2 2 7 4 1"),
];

/// Whether the round of `MEASURED` is told.
fn has_round(history: &History) -> bool {
    let lines = first(history, 8);
    is_going(lines, NODE, PORT)
        && !is_going(lines, NODE, Port(0))
        && asked_at(first(history, 5), NODE, PORT, PEER, 1) == Some(1_040)
        && asked_at(lines, NODE, PORT, PEER, 1).is_none()
}

/// Whether the samples of `MEASURED` are told: their trips, and the best of them.
fn has_samples(alloc: Global, history: &History) -> Result<bool, AllocError> {
    let lines = first(history, 8);
    let trips = trips(alloc, lines)?;
    let best = best_at(lines, trips.as_slice(), NODE, PORT, PEER);
    Ok(trips.as_slice() == [0, 0, 0, 24, 0, 10, 0, 10].as_slice() && is_best(best))
}

/// Whether the second sample of `MEASURED` is the best.
fn is_best(best: Option<Best>) -> bool {
    match best {
        Some(best) => (best.index, best.diff, best.err, best.trip) == (5, 6, 4, 10),
        None => false,
    }
}

/// A step that closes a round and sends, and the mark of the next one.
const CLOSED: &[(u64, &str)] = &[
    (0, "1 3 0 0 boot"),
    (9, ""),
    (9, "1 3 1 9 close 2 0 1 0"),
    (9, "1 3 1 9 post 0 2 quit 5 %"),
    (10, ""),
];

/// Whether the close of `CLOSED` is told, until the next step.
fn has_close(history: &History) -> bool {
    let before = first(history, 4);
    closed_at(before, NODE, PORT) == Some(2)
        && closed_at(before, NODE, Port(0)).is_none()
        && closed_at(first(history, 5), NODE, PORT).is_none()
}

/// What a history tells.
#[derive(Clone, Copy)]
enum Fact {
    Holds,
    Clocks,
    Posts,
    Sends,
    Round,
    Close,
}

/// Whether the history of these rows tells it; None where there is none.
fn tells(alloc: Global, rows: &[(u64, &str)], fact: Fact) -> Option<bool> {
    let history = told(alloc, rows)?;
    Some(match fact {
        Fact::Holds => has_holds(&history),
        Fact::Clocks => has_clocks(&history),
        Fact::Posts => has_posts(&history),
        Fact::Sends => has_sends(&history),
        Fact::Round => { has_round(&history) && has_samples(alloc, &history) == Ok(true) }
        Fact::Close => has_close(&history),
    })
}

/// Histories, each with what it tells.
const TOLD: &[(&str, &[(u64, &str)], Fact)] = &[
    ("roles and holds", HELD, Fact::Holds),
    ("clocks", MOVED, Fact::Clocks),
    ("posts", POSTED, Fact::Posts),
    ("sends", SENT, Fact::Sends),
    ("rounds", MEASURED, Fact::Round),
    ("the close", CLOSED, Fact::Close),
];

/// Each history tells its facts.
#[test]
fn histories_tell(rt: HostRuntime) {
    for (what, rows, fact) in TOLD {
        assert!(rt; tells(rt.alloc(), rows, *fact) == Some(true), "{what}");
    }
}
