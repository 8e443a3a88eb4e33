//! A port's station: what all its roles share.
ghost use Rattle.std.specs.Prelude.{◌≡◌, ◌+◌, ◌%◌, ◌<◌, ◌&&◌, true, not, ℤ, [], ◌∷◌, IfOk};
ghost use Rattle.tsp_base.specs.declared.act.Act.TheVariants.{Boot};
ghost use Rattle.tsp_base.specs.Alarms.{deadline};
ghost use Rattle.tsp_base.specs.History.{Past, Booted};
ghost use Rattle.tsp_base.specs.Rows.{grown};
ghost use Rattle.tsp_base.specs.Peers.{IsPeers, is_among};
ghost use Rattle.tsp_rules.specs.Guards.{is_over, is_met, is_starting_role};
ghost use Rattle.tsp_sends.specs.Slots.{peers_of};
ghost use Rattle.tsp_acks.specs.Peers.{follows_among};

use crate::me::Me;
use crate::peers::Peers;
use std::alloc::{AllocError, Global};
use tsp_base::alarm::Alarm;
use tsp_base::alarms::Alarms;
use tsp_base::constants::SLACK;
use tsp_base::hold::Hold;
use tsp_base::place::PeerId;
use tsp_base::role::Role;
use tsp_sends::Sends;

/// What all roles of a port share.
#[derive(Drop)]
pub struct Station {
    /// Who the node is here.
    pub me: Me,
    /// What it is here.
    pub role: Role,
    /// Whom it has backed, and when it may back another candidate or stand for election.
    pub hold: Hold,
    /// The open numbered sends, with a slot for each peer.
    pub sends: Sends,
    /// The tick that each alarm is armed for.
    pub alarms: Alarms,
    /// How many sends with the port's own numbers began since the boot, modulo 32,768.
    pub begun: u16,
    /// How many have backed this candidature, at most 2^32 - 1.
    pub backers: u32,
    /// All peers, itself among them.
    pub peers: Peers,
    ghost slots: { peers_of sends ≡ peers },
    ghost count: { begun < 32768 },
    ghost master: { follows_among role peers ≡ true },
}

impl Station {
    ghost use Rattle.tsp_acks.specs.Stands.{StationStands, IsFreshStation, IsPortOf};

    /// The station of a node that boots at this tick. Fails only if out of memory.
    pub fn new(alloc: Global, me: Me, peers: &[PeerId], tick: u64) -> Result<Station, AllocError>
        requires { IsPeers peers.now }
        ensures station { IfOk result (λ s. IsFreshStation me peers.now tick s) }
        ensures stands { IfOk result (λ s. (past : Past) (wall : ℤ) → IsPortOf me peers.now past
            → past.step.cause ≡ Booted me.word wall → StationStands (grown tick past (Boot ∷ [])) s) }
    {
        let sends = Sends::new(alloc, peers)?;
        let peers = Peers::new(alloc, peers)?;
        Ok(Station {
            me,
            role: Role::Starting,
            hold: Hold::new(tick),
            sends,
            alarms: Alarms::new(),
            begun: 0,
            backers: 0,
            peers,
        })
    }

    /// All peers of the port, itself among them, ascending.
    pub fn peers(&self) -> &[PeerId]
        ensures value { result.now ≡ self.now.peers }
        ensures valid { IsPeers self.now.peers }
    {
        self.peers.as_slice()
    }

    /// The number of the next send that the port numbers itself: 32,768, plus the word and the count of such
    /// sends since the boot, modulo 32,768.
    pub fn next_number(&self) -> u16
        ensures { result ≡ 32768 + (self.now.me.word + self.now.begun) % 32768 }
    {
        let place = (self.me.word % 32768 + self.begun as u64) % 32768;
        32768 + place as u16
    }

    /// Whether an alarm is armed for this tick or an earlier one.
    pub fn is_due(&self, alarm: Alarm, tick: u64) -> bool
        ensures { result ≡ is_over (deadline self.now.alarms alarm) tick }
    {
        match self.alarms.at(alarm) {
            None => false,
            Some(at) => at <= tick,
        }
    }

    /// Whether an alarm is armed, and for a tick at most `SLACK` ticks ago.
    pub fn is_in_time(&self, alarm: Alarm, tick: u64) -> bool
        ensures { result ≡ is_met (deadline self.now.alarms alarm) tick }
    {
        match self.alarms.at(alarm) {
            None => false,
            Some(at) => tick.saturating_sub(SLACK) <= at,
        }
    }

    /// Whether the port heeds this sender: it is one of the peers, and the quiet time is over.
    pub fn hears(&self, p: PeerId) -> bool
        ensures { result ≡ (is_among p self.now.peers && not (is_starting_role self.now.role)) }
    {
        match self.role {
            Role::Starting => false,
            _ => self.peers.has(p),
        }
    }
}
