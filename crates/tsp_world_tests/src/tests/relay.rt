//! A clock that a corrected master corrects: three nodes on two networks.

use crate::tests::lan::Lan;
use std::alloc::Global;
use tsp_base::act::Act;
use tsp_base::datagram::{Datagram, Taken};
use tsp_base::kind::Kind;
use tsp_base::place::PeerId;

/// The master of the first network, the node that follows it there and is master of the second, and
/// that node's slave.
const MASTER: u32 = 0;

const GATEWAY: u32 = 1;

const SLAVE: u32 = 2;

/// What a run has shown so far.
#[derive(Drop)]
struct Told {
    /// The sums of the master's and of the slave's corrections.
    master: i64,
    slave: i64,
    /// The errors of the last samples: the master's of the gateway, and the gateway's of the slave.
    upper: i64,
    lower: i64,
    /// Whether the gateway's last correction took an ADJTIME.
    corrected: bool,
    /// Whether the gateway has closed a round after that and made no correction.
    closed: bool,
    /// Whether the slave has taken an ADJTIME of such a round.
    relayed: bool,
}

/// Whether a datagram that was taken is an ADJTIME.
fn is_adjtime(taken: &Taken) -> bool {
    match taken {
        Taken::Good(Datagram::Message(m)) => matches!(m.kind(), Kind::AdjTime),
        _ => false,
    }
}

/// Whether the last event took an ADJTIME and corrected a clock.
fn obeys(lan: &Lan) -> bool {
    let mut took = false;
    let mut corrects = false;
    for line in lan.acts() {
        match &line.placed.act {
            Act::Took(_, taken) => took = is_adjtime(taken),
            Act::Correct { .. } => corrects = true,
            _ => {}
        }
    }
    took && corrects
}

/// Notes the last event's acts.
fn note(told: &mut Told, lan: &Lan) {
    let obeyed = obeys(lan);
    for line in lan.acts() {
        match &line.placed.act {
            Act::Sample { peer, err, .. } => {
                if line.node == MASTER && *peer == PeerId(GATEWAY) {
                    told.upper = *err;
                }
                if line.node == GATEWAY && *peer == PeerId(SLAVE) {
                    told.lower = *err;
                }
            }
            Act::Correct { amount, .. } => {
                if line.node == MASTER {
                    told.master = told.master.saturating_add(*amount);
                }
                if line.node == SLAVE {
                    told.slave = told.slave.saturating_add(*amount);
                    told.relayed = obeyed && told.closed;
                }
                if line.node == GATEWAY {
                    told.corrected = obeyed;
                    told.closed = false;
                }
            }
            Act::Close { .. } => {
                if line.node == GATEWAY {
                    told.closed = told.corrected;
                }
            }
            _ => {}
        }
    }
}

/// Lets nodes run until the slave has taken such an ADJTIME.
fn run(lan: &mut Lan) -> Told {
    let mut told = Told {
        master: 0,
        slave: 0,
        upper: 0,
        lower: 0,
        corrected: false,
        closed: false,
        relayed: false,
    };
    lan.boot_all();
    for _ in 0..20_000 {
        lan.step();
        note(&mut told, lan);
        if told.relayed {
            break;
        }
    }
    told
}

/// What a run of the three nodes has shown.
fn told_of_three(alloc: Global) -> Option<Told> {
    let mut lan = Lan::on(
        alloc,
        &[0, 0, 0],
        2,
        &[&[MASTER, GATEWAY], &[GATEWAY, SLAVE]],
    )?;
    Some(run(&mut lan))
}

/// Whether the slave's clock and the master's differ by no more than both samples' errors and a microsecond for
/// each end of each reading.
fn agree(told: &Told) -> bool {
    let apart = told.slave.saturating_sub(told.master).unsigned_abs();
    let bound = told.upper.saturating_add(told.lower).saturating_add(4);
    bound >= 0 && apart <= bound.unsigned_abs()
}

/// The slave takes an ADJTIME of a round that the gateway closed after a master corrected it: its
/// clock and the master's agree.
#[test]
fn a_relayed_clock_agrees(rt: HostRuntime) {
    let Some(told) = told_of_three(rt.alloc()) else {
        panic!(rt; "no network");
    };
    assert!(rt; told.relayed && agree(&told));
}
