//! What a port keeps that may lead.
ghost use Rattle.std.specs.Prelude.{◌≡◌, ℕ, ◌+◌, ◌≤◌, true, false, length, map, [], ◌∷◌, IfOk};
ghost use Rattle.tsp_base.specs.declared.act.Act.TheVariants.{Boot, Post, Become, Leave, Abandon};
ghost use Rattle.tsp_base.specs.declared.datagram.Datagram.TheVariants.{Message};
ghost use Rattle.tsp_base.specs.declared.place.PeerId.{PeerId};
ghost use Rattle.tsp_base.specs.declared.place.Place.TheVariants.{Peer};
ghost use Rattle.tsp_base.specs.declared.role.Role.{Role};
ghost use Rattle.tsp_base.specs.Rows.{grown};
ghost use Rattle.tsp_rules.specs.DateRows.{all_settled};
ghost use Rattle.tsp_base.specs.Peers.{IsPeers};
ghost use Rattle.tsp_acks.specs.Calls.{Contains, Past, IsSamePort, StationStands};
ghost use Rattle.tsp_measure.specs.Slaves.{peers_of, entry_of, Changes, ChangesAll, leaves, posts_at};

use std::alloc::{AllocError, Global};
use tsp_acks::station::Station;
use tsp_base::alarm::Alarm;
use tsp_base::place::PeerId;
use tsp_group::Values;
use tsp_measure::{Change, Rounds, Slaves};

/// What a port keeps that may lead: its slaves and the last correction to each peer, the last round, and the
/// list from which a close takes its group.
#[derive(Drop)]
pub struct Master {
    pub(crate) slaves: Slaves,
    pub(crate) rounds: Rounds,
    pub(crate) values: Values,
    ghost same: { rounds.exchanges.peers ≡ map (λ (p : PeerId). p.0) (peers_of slaves) },
    ghost room: { length (peers_of slaves) + 1 ≤ values.room },
}

impl Master {
    ghost use Rattle.tsp_base.specs.Messages.{MessageValue};
    ghost use Rattle.tsp_base.specs.PortFacts.{acting, in_table};
    ghost use Rattle.tsp_base.specs.RoundFacts.{is_going};
    ghost use Rattle.tsp_base.specs.SendFacts.{is_correction};
    ghost use Rattle.tsp_master.specs.MasterStands.{MasterStands, OwnStands};

    /// Nothing was done yet on a port with these peers.
    ///
    /// Fails only if out of memory; no later call takes any.
    pub fn new(alloc: Global, peers: &[PeerId]) -> Result<Master, AllocError>
        requires { IsPeers peers.now }
        ensures peers { IfOk result (λ m. peers_of m.slaves ≡ peers.now) }
        ensures stands { IfOk result (λ m. (x : ℕ) (past : Past) → past.peers ≡ peers.now
            → MasterStands (grown x past (Boot ∷ [])) m) }
    {
        let slaves = Slaves::new(alloc, peers)?;
        let rounds = Rounds::new(alloc, peers)?;
        let values = Values::new(alloc, peers.len() + 1)?;
        Ok(Master {
            slaves,
            rounds,
            values,
        })
    }

    /// Notes that a correction to a peer was posted again at this tick.
    pub fn again(&mut self, peer: PeerId, tick: u64)
        requires { Contains (peers_of self.old.slaves) peer }
        ensures slaves { Changes peer (posts_at tick) self.old.slaves self.new.slaves }
        ensures peers { peers_of self.new.slaves ≡ peers_of self.old.slaves }
        ensures rounds { self.new.rounds ≡ self.old.rounds }
        ensures stands { (past : Past) (m : MessageValue) → is_correction m.kind ≡ true
            → acting past.seen ≡ false → MasterStands past self.old
            → MasterStands (grown tick past (Post (Peer peer) (Message m) ∷ [])) self.new }
    {
        self.slaves.change(peer, Change::Post(tick));
    }

    /// Takes a slave out of the table and of the measured peers. The answer is whether the peer was a slave;
    /// where it wasn't, nothing changes.
    pub fn leave(&mut self, peer: PeerId) -> bool
        ensures joined { result ≡ (entry_of self.old.slaves peer).joined }
        ensures slaves { result ≡ true → Changes peer leaves self.old.slaves self.new.slaves }
        ensures same { result ≡ false → self.new ≡ self.old }
        ensures peers { peers_of self.new.slaves ≡ peers_of self.old.slaves }
        ensures rounds { self.new.rounds ≡ self.old.rounds }
        ensures table { (past : Past) → MasterStands past self.old
            → in_table peer past.seen ≡ result }
        ensures stands { result ≡ true → (x : ℕ) (past : Past) → MasterStands past self.old
            → MasterStands (grown x past (Leave peer ∷ [])) self.new }
    {
        let joined = self.slaves.of(peer).joined;
        if joined {
            self.slaves.leave(peer);
        }
        joined
    }

    /// Ends the going round, if there is one: it probes no more, and has no close. The answer is whether there
    /// was one.
    pub fn abandon(&mut self, station: &mut Station) -> bool
        ensures going { (past : Past) → StationStands past station.old → is_going past.seen ≡ result }
        ensures stands { result ≡ true → (x : ℕ) (past : Past)
            → OwnStands past (record { master = self.old; station = station.old })
            → OwnStands (grown x past (Abandon ∷ []))
            (record { master = self.new; station = station.new }) }
        ensures same { result ≡ false → (self.new ≡ self.old) × (station.new ≡ station.old) }
        ensures port { IsSamePort station.old station.new }
        ensures peers { peers_of self.new.slaves ≡ peers_of self.old.slaves }
    {
        let going = station.alarms.at(Alarm::Close).is_some();
        if going {
            station.alarms.off(Alarm::Probe);
            station.alarms.off(Alarm::Close);
        }
        going
    }

    /// Whether no correction is on its way to a slave: to each slave the last one was acknowledged, or `REUSE`
    /// ticks have passed since its last post.
    pub fn settled(&self, tick: u64) -> bool
        ensures { (past : Past) → MasterStands past self.now → all_settled tick past ≡ result }
    {
        self.slaves.are_settled(tick)
    }

    /// Forgets the slaves and the round, as each change of the role does; the last corrections stay.
    pub fn clear(&mut self)
        ensures slaves { ChangesAll leaves self.old.slaves self.new.slaves }
        ensures peers { peers_of self.new.slaves ≡ peers_of self.old.slaves }
        ensures rounds { self.new.rounds ≡ self.old.rounds }
        ensures stands { (x : ℕ) (past : Past) (role : Role) → MasterStands past self.old
            → MasterStands (grown x past (Become role ∷ [])) self.new }
    {
        self.slaves.leave_all();
    }
}
