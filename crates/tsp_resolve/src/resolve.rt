//! The rivals of a master: which of its peers say that they are masters too.
ghost use Rattle.std.specs.Prelude.{◌≡◌, ℕ, ◌+◌, ◌≤◌, ◌<◌, ◌==◌, ◌||◌, not, List, [], ◌∷◌, length};
ghost use Rattle.std.specs.Prelude.{slice_index_or, IfOk, IsSomeAnd};
ghost use Rattle.tsp_base.specs.declared.act.Act.TheVariants.{Boot, Become};
ghost use Rattle.tsp_base.specs.declared.place.PeerId.{PeerId};
ghost use Rattle.tsp_base.specs.declared.role.Role.{Role};
ghost use Rattle.tsp_base.specs.declared.role.Role.TheVariants.{Master};
ghost use Rattle.tsp_acks.specs.Calls.{Contains, IsTick, Past, Performs, UsesAtMost, IsSamePort};
ghost use Rattle.tsp_base.specs.Peers.{IsPeers};
ghost use Rattle.tsp_resolve.specs.Marked.{marked};

use crate::marks::Marks;
use std::alloc::{AllocError, Global};
use tsp_acks::station::Station;
use tsp_base::act::Act;
use tsp_base::alarm::Alarm;
use tsp_base::constants::WINDOW;
use tsp_base::desk::Desk;
use tsp_base::kind::Kind;
use tsp_base::place::{PeerId, Port};

/// Which of a port's peers were found to be rivals since the last change of its role.
#[derive(Drop)]
pub struct Resolve {
    pub(crate) marks: Marks,
}

impl Resolve {
    ghost use Rattle.tsp_base.specs.Peers.{is_among};
    ghost use Rattle.tsp_base.specs.Rows.{grown};
    ghost use Rattle.tsp_rules.specs.ResolveRows.{finds_rival, quits_rivals, resolve_rings, resolves};
    ghost use Rattle.tsp_resolve.specs.ResolveStands.{ResolveStands, ResolvingActs, ResolvingStands, resolving};

    /// No rival found yet, on a port with these peers.
    ///
    /// Fails only if out of memory. No later call allocates any.
    pub fn new(alloc: Global, peers: &[PeerId]) -> Result<Resolve, AllocError>
        ensures many { IfOk result (λ r. length r.marks ≡ length peers.now) }
        ensures stands { IfOk result (λ r. (x : ℕ) (past : Past) → past.peers ≡ peers.now
            → ResolveStands (grown x past (Boot ∷ [])) r) }
    {
        let marks = Marks::new(alloc, peers.len())?;
        Ok(Resolve { marks })
    }

    /// Asks each other peer by a RESOLVE whether it is a master, and waits `WINDOW` ticks for answers. While it
    /// still waits for those of an earlier call it does nothing. It puts at most one act, and one more for
    /// each peer.
    pub fn start<D: Desk>(&mut self, station: &mut Station, tick: u64, port: Port, desk: &mut D)
        requires tick { IsTick tick }
        requires room { length station.old.peers + 1 ≤ D.spare desk.old }
        ensures row { Performs ResolvingStands ResolvingStands resolves tick port
            (resolving self.old station.old) (resolving self.new station.new)
            (D.acts desk.old) (D.acts desk.new) }
        ensures same { self.new ≡ self.old }
        ensures room { UsesAtMost (length station.old.peers + 1) D.spare D.acts desk.old desk.new }
        ensures port { IsSamePort station.old station.new }
    {
        match station.alarms.at(Alarm::Resolve) {
            Some(_) => {}
            None => {
                station.arm(Alarm::Resolve, tick, WINDOW, port, desk);
                station.post_to_others(Kind::Resolve, 0, port, desk);
            }
        }
    }

    /// A peer answers that it is a master. While answers are waited for, it is noted as a rival, unless it is
    /// one already. It puts at most one act. The row is a master's; of another role nothing is said.
    pub fn rival<D: Desk>(&mut self, station: &Station, from: PeerId, port: Port, desk: &mut D)
        requires room { 1 ≤ D.spare desk.old }
        requires many { length self.old.marks ≡ length station.now.peers }
        requires peer { Contains station.now.peers from }
        ensures row { station.now.role ≡ Master → (x : ℕ)
            → Performs ResolvingStands ResolvingStands (finds_rival from) x port
            (resolving self.old station.now) (resolving self.new station.now)
            (D.acts desk.old) (D.acts desk.new) }
        ensures many { length self.new.marks ≡ length self.old.marks }
        ensures room { UsesAtMost 1 D.spare D.acts desk.old desk.new }
    {
        match station.alarms.at(Alarm::Resolve) {
            None => {}
            Some(_) => {
                if self.find(station.peers(), from) {
                    desk.put(port, Act::Rival(from));
                }
            }
        }
    }

    /// Marks a peer, and says whether it wasn't marked before.
    fn find(&mut self, peers: &[PeerId], p: PeerId) -> bool
        requires peers { IsPeers peers.now }
        requires many { length self.old.marks ≡ length peers.now }
        requires peer { Contains peers.now p }
        ensures found { result ≡ not (is_among p (marked peers.now self.old.marks)) }
        ensures marks { (q : PeerId)
            → is_among q (marked peers.now self.new.marks) ≡ ((p.0 == q.0) || is_among q
            (marked peers.now self.old.marks)) }
        ensures many { length self.new.marks ≡ length self.old.marks }
    {
        let Some(place) = place_of(peers, p) else {
            return false;
        };
        let was = self.marks.at(place);
        self.marks.set(place);
        !was
    }

    /// The Resolve alarm is due: the time for answers is over. In time, a QUIT begins to each rival, ascending.
    /// It puts at most one act, and one more for each peer.
    pub fn ring<D: Desk>(&mut self, station: &mut Station, tick: u64, port: Port, desk: &mut D)
        requires tick { IsTick tick }
        requires room { length station.old.peers + 1 ≤ D.spare desk.old }
        requires many { length self.old.marks ≡ length station.old.peers }
        ensures row { Performs ResolvingStands ResolvingStands resolve_rings tick port
            (resolving self.old station.old) (resolving self.new station.new)
            (D.acts desk.old) (D.acts desk.new) }
        ensures same { self.new ≡ self.old }
        ensures room { UsesAtMost (length station.old.peers + 1) D.spare D.acts desk.old desk.new }
        ensures port { IsSamePort station.old station.new }
    {
        if station.is_in_time(Alarm::Resolve, tick) {
            station.ring(Alarm::Resolve, port, desk);
            self.quit_rivals(station, tick, port, desk);
        } else {
            station.late(Alarm::Resolve, port, desk);
        }
    }

    /// Begins a QUIT to each rival, ascending. The alarm has rung before it in the step.
    fn quit_rivals<D: Desk>(&self, station: &mut Station, tick: u64, port: Port, desk: &mut D)
        requires tick { IsTick tick }
        requires room { length station.old.peers ≤ D.spare desk.old }
        requires many { length self.now.marks ≡ length station.old.peers }
        ensures row { Performs ResolvingActs ResolvingActs quits_rivals tick port
            (resolving self.now station.old) (resolving self.now station.new)
            (D.acts desk.old) (D.acts desk.new) }
        ensures room { UsesAtMost (length station.old.peers) D.spare D.acts desk.old desk.new }
        ensures port { IsSamePort station.old station.new }
    {
        for place in 0..station.peers().len() {
            let p = station.peers()[place];
            if self.marks.at(place) {
                station.begin(Kind::Quit, p, tick, port, desk);
            }
        }
    }

    /// Forgets all rivals, as each change of the role does.
    pub fn clear(&mut self)
        ensures none { (peers : List PeerId) → marked peers self.new.marks ≡ [] }
        ensures many { length self.new.marks ≡ length self.old.marks }
        ensures stands { (x : ℕ) (past : Past) (role : Role) → ResolveStands past self.old
            → ResolveStands (grown x past (Become role ∷ [])) self.new }
    {
        self.marks.clear();
    }
}

/// The place of one of the peers.
fn place_of(peers: &[PeerId], p: PeerId) -> Option<usize>
    requires peers { IsPeers peers.now }
    requires peer { Contains peers.now p }
    ensures { IsSomeAnd result (λ i. (i < length peers.now) × ((d : PeerId)
        → slice_index_or peers.now i d ≡ p)) }
{
    match peers.binary_search_by_key(&p.0, |q| q.0) {
        Ok(place) => Some(place),
        Err(_) => None,
    }
}
