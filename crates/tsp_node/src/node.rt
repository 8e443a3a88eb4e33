//! A node with one port.
ghost use Rattle.std.specs.Prelude.{◌≡◌, ◌≤◌, true, [], ◌∷◌, IfOk, IfErr, OnErr};
ghost use Rattle.tsp_base.specs.declared.act.Act.TheVariants.{Boot};
ghost use Rattle.tsp_base.specs.Frames.{IsTick, UsesAtMost};
ghost use Rattle.tsp_base.specs.Performs.{Performs};
ghost use Rattle.tsp_rules.specs.CommonRows.{boots};
ghost use Rattle.tsp_rules.specs.Guards.{is_clock_value};
ghost use Rattle.tsp_node.specs.Configs.{IsPort, BootsNot};

use crate::config::Config;
use crate::fault::BootFault;
use crate::part::Part;
use std::alloc::Global;
use tsp_base::act::Act;
use tsp_base::desk::Desk;
use tsp_base::place::Port;
use tsp_clock::clock::Clock;

/// A node that has booted: its clock, whether its trace is on, and the state of its port.
#[derive(Drop)]
pub struct Node {
    pub(crate) clock: Clock,
    pub(crate) tracing: bool,
    pub(crate) part: Part,
}

/// The only port of a node.
pub(crate) const PORT: Port = Port(0);

impl Node {
    ghost use Rattle.tsp_base.specs.History.{Past};
    ghost use Rattle.tsp_base.specs.Rows.{grown};
    ghost use Rattle.tsp_node.specs.NodeStands.{NodeStands, Unbooted, peers_in, clock_at};

    /// Boots a node with a word, at a tick and a wall clock (microseconds since 1970): puts Boot,
    /// Become(Starting) and Arm(Quiet). `Peers` comes exactly where the configuration's peers aren't allowed,
    /// else `Range` exactly where the wall clock isn't strictly between -2^31 and 2^31 seconds. Else it fails
    /// only if out of memory. Where it fails, nothing is put.
    pub fn boot<D: Desk>(
        alloc: Global,
        config: &Config,
        tick: u64,
        wall: i64,
        word: u64,
        desk: &mut D,
    ) -> Result<Node, BootFault>
        requires room { 3 ≤ D.spare desk.old }
        requires tick { IsTick tick }
        ensures row { IfOk result (λ node. Performs (Unbooted config.now word wall) NodeStands boots
            tick (record { 0 = 0 }) tt node (D.acts desk.old) (D.acts desk.new)) }
        ensures ok { IfOk result (λ node. IsPort config.now × (is_clock_value wall ≡ true)
            × (peers_in node ≡ config.now.peers) × (clock_at node ≡ tick)) }
        ensures err { IfErr result (λ fault. BootsNot config.now wall fault) }
        ensures refused { OnErr result (D.acts desk.new ≡ D.acts desk.old) }
        ensures room { UsesAtMost 3 D.spare D.acts desk.old desk.new }
    {
        match Node::new(alloc, config, tick, wall, word) {
            Ok(mut node) => {
                desk.put(PORT, Act::Boot);
                node.part.begin(tick, PORT, desk);
                Ok(node)
            }
            Err(fault) => Err(fault),
        }
    }

    /// A node right after its Boot, or why it doesn't boot.
    fn new(
        alloc: Global,
        config: &Config,
        tick: u64,
        wall: i64,
        word: u64,
    ) -> Result<Node, BootFault>
        requires { IsTick tick }
        ensures stands { IfOk result (λ node. (past : Past) → Unbooted config.now word wall past tt
            → NodeStands (grown tick past (Boot ∷ [])) node) }
        ensures ok { IfOk result (λ node. IsPort config.now × (is_clock_value wall ≡ true)
            × (peers_in node ≡ config.now.peers) × (clock_at node ≡ tick)) }
        ensures err { IfErr result (λ fault. BootsNot config.now wall fault) }
    {
        if !config.is_port() {
            return Err(BootFault::Peers);
        }
        let Ok(clock) = Clock::boot(tick, wall, word) else {
            return Err(BootFault::Range);
        };
        let Ok(part) = Part::new(alloc, config.me(word), config.peers(), tick) else {
            return Err(BootFault::OutOfMemory);
        };
        Ok(Node {
            clock,
            tracing: false,
            part,
        })
    }
}
