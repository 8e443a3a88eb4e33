//! Nodes on a network: they elect a master, follow it, are corrected, are separated, and joined again.

use crate::tests::lan::Lan;
use std::alloc::Global;
use tsp_base::role::Role;

/// Whether one node is master, and so many follow it.
fn has_one(lan: &Lan, followers: usize) -> bool {
    match lan.master() {
        Some(master) => (lan.masters(), lan.followers(master)) == (1, followers),
        None => false,
    }
}

/// Whether nodes are quiet at first, and then follow one of them.
fn elect_one(lan: &mut Lan) -> bool {
    lan.boot_all();
    lan.run(60);
    let quiet = lan.role(0) == Some(Role::Starting);
    lan.run(900);
    quiet && has_one(lan, 1) && lan.refused() == 0
}

/// Whether clocks that are 700 milliseconds apart come within two of each other, and one node is master.
fn come_together(lan: &mut Lan) -> bool {
    lan.boot_all();
    let apart = lan.spread();
    lan.run(1800);
    apart == 700_000 && (lan.masters(), lan.refused()) == (1, 0) && lan.spread() <= 2000
}

/// Whether the third node boots late and follows the master that is there already, and its clock is set.
fn follows_late(lan: &mut Lan) -> bool {
    lan.boot(0, 0);
    lan.boot(1, 10_000_000);
    lan.run(900);
    let first = lan.master();
    lan.boot(2, 20_000_000);
    lan.run(900);
    lan.master() == first && has_one(lan, 2) && lan.spread() <= 2000
}

/// Whether the others elect another master while one is cut off, and all follow one once another node boots.
fn split_and_join(lan: &mut Lan) -> bool {
    lan.boot_all();
    lan.run(900);
    let Some(first) = lan.master() else {
        return false;
    };
    lan.cut(first);
    lan.run(1200);
    let masters = lan.masters();
    lan.join();
    lan.boot(if first == 0 { 1 } else { 0 }, 40_000_000);
    lan.run(1800);
    masters == 2 && has_one(lan, 2) && lan.refused() == 0
}

/// What nodes are to do.
#[derive(Clone, Copy)]
enum Meeting {
    Elect,
    Come,
    Late,
    Split,
}

/// Whether nodes with these wall clocks do so; None where there is no network of them.
fn meets(alloc: Global, walls: &'static [i64], meeting: Meeting) -> Option<bool> {
    let mut lan = Lan::of(alloc, walls)?;
    Some(match meeting {
        Meeting::Elect => elect_one(&mut lan),
        Meeting::Come => come_together(&mut lan),
        Meeting::Late => follows_late(&mut lan),
        Meeting::Split => split_and_join(&mut lan),
    })
}

/// The clocks of nodes, and what they do. Two nodes are quiet at first; then one of them becomes
/// master, and the other follows it. Three clocks that are far apart come within two milliseconds
/// of each other. A node that boots late follows the master that is there already, and its clock is
/// set. A master that is cut off is still master alone, and the others elect another one; once a
/// node boots that hears both, one of the two gives way.
const MEETINGS: &[(&str, &[i64], Meeting)] = &[
    ("two nodes elect one", &[0, 0], Meeting::Elect),
    (
        "three clocks come together",
        &[0, 400_000, -300_000],
        Meeting::Come,
    ),
    ("a late node follows", &[0, 0, 5_000_000], Meeting::Late),
    ("a split network joins again", &[0, 0, 0], Meeting::Split),
];

/// Nodes do so.
#[test]
fn nodes_meet(rt: HostRuntime) {
    for (what, walls, meeting) in MEETINGS {
        assert!(rt; meets(rt.alloc(), walls, *meeting) == Some(true), "{what}");
    }
}
