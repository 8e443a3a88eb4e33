//! What a port does with its due sends.
ghost use Rattle.std.specs.Prelude.{◌≡◌, ℕ, ◌+◌, ◌*◌, ◌≤◌, false, length, [], ◌∷◌, IfSome, IfNone};
ghost use Rattle.std.specs.List.{Contains};
ghost use Rattle.tsp_base.specs.declared.act.Act.TheVariants.{Post};
ghost use Rattle.tsp_base.specs.declared.datagram.Datagram.TheVariants.{Message};
ghost use Rattle.tsp_base.specs.declared.place.Place.TheVariants.{Peer};
ghost use Rattle.tsp_base.specs.Frames.{IsTick, UsesAtMost};
ghost use Rattle.tsp_base.specs.History.{Past};
ghost use Rattle.tsp_base.specs.Performs.{Performs};
ghost use Rattle.tsp_base.specs.Rows.{grown};
ghost use Rattle.tsp_rules.specs.SendRows.{due_send, due_sends, leaves_after};
ghost use Rattle.tsp_sends.specs.Repeating.{IsAfter, RepeatsNext, peer_of};
ghost use Rattle.tsp_master.specs.MasterStands.{MasterStands};

use crate::part::Part;
use tsp_base::act::Act;
use tsp_base::desk::Desk;
use tsp_base::kind::Kind;
use tsp_base::place::{PeerId, Port};
use tsp_sends::Due;

impl Part {
    ghost use Rattle.tsp_base.specs.Messages.{MessageValue};
    ghost use Rattle.tsp_base.specs.PortFacts.{acting};
    ghost use Rattle.tsp_clock.specs.Clocks.{ClockValue};
    ghost use Rattle.tsp_node.specs.NodeStands.{PortBegun, port_with};
    ghost use Rattle.tsp_node.specs.Dues.{IsMasterAlone, IsNoted};

    /// Repeats every due send, in the order of the peers: each is posted again or given up, and a slave that
    /// didn't acknowledge a correction leaves. A step does this first.
    pub fn sends<D: Desk>(&mut self, tick: u64, port: Port, desk: &mut D)
        requires tick { IsTick tick }
        requires room { 2 * length self.old.station.peers + 16 ≤ D.spare desk.old }
        ensures row { (clock : ClockValue)
            → Performs PortBegun PortBegun due_sends tick port (port_with self.old clock)
            (port_with self.new clock) (D.acts desk.old) (D.acts desk.new) }
        ensures peers { self.new.station.peers ≡ self.old.station.peers }
        ensures room { UsesAtMost (2 * length self.old.station.peers)
            D.spare D.acts desk.old desk.new }
    {
        let mut after = None;
        // Each peer has one open send at most, so this many rounds are enough.
        for _ in 0..self.station.peers().len() {
            let Some(due) = self.repeat_next(after, tick, port, desk) else {
                return;
            };
            after = Some(due.peer());
        }
    }

    /// Repeats the first due send to a peer after `after`. None exactly where there is none.
    fn repeat_next<D: Desk>(
        &mut self,
        after: Option<PeerId>,
        tick: u64,
        port: Port,
        desk: &mut D,
    ) -> Option<Due>
        requires room { 2 ≤ D.spare desk.old }
        requires tick { IsTick tick }
        ensures next { IfSome result (λ due. Contains self.old.station.peers (peer_of due)
            × IsAfter after (peer_of due)) }
        ensures sends { RepeatsNext after tick self.old.station.sends self.new.station.sends
            result }
        ensures row { IfSome result (λ due. (clock : ClockValue)
            → Performs PortBegun PortBegun (due_send (peer_of due)) tick port
            (port_with self.old clock) (port_with self.new clock) (D.acts desk.old)
            (D.acts desk.new)) }
        ensures same { IfNone result ((self.new ≡ self.old) × (desk.new ≡ desk.old)) }
        ensures peers { self.new.station.peers ≡ self.old.station.peers }
        ensures room { UsesAtMost 2 D.spare D.acts desk.old desk.new }
    {
        let Some(due) = self.station.repeat_next(after, tick, port, desk) else {
            return None;
        };
        self.note_due(&due, tick, port, desk);
        Some(due)
    }

    /// Notes what became of a due send.
    fn note_due<D: Desk>(&mut self, due: &Due, tick: u64, port: Port, desk: &mut D)
        requires room { 1 ≤ D.spare desk.old }
        requires peer { Contains self.old.station.peers (peer_of due.now) }
        ensures noted { IsNoted due.now tick port self.old.master self.new.master
            (D.acts desk.old) (D.acts desk.new) }
        ensures rest { IsMasterAlone self.old self.new }
        ensures room { UsesAtMost 1 D.spare D.acts desk.old desk.new }
    {
        match due {
            Due::Again(p, message) => self.repeat(*p, message.kind(), tick),
            Due::Gave(p, kind) => self.give_up(*p, *kind, port, desk),
        }
    }

    /// Notes that a message of this kind was posted again to a peer.
    fn repeat(&mut self, peer: PeerId, kind: Kind, tick: u64)
        requires peer { Contains self.old.station.peers peer }
        ensures stands { (past : Past) (m : MessageValue) → m.kind ≡ kind → acting past.seen ≡ false
            → MasterStands past self.old.master
            → MasterStands (grown tick past (Post (Peer peer) (Message m) ∷ [])) self.new.master }
        ensures rest { IsMasterAlone self.old self.new }
    {
        if kind.is_correction() {
            self.master.again(peer, tick);
        }
    }

    /// Removes a slave that didn't acknowledge a send of this kind, if that was a correction.
    fn give_up<D: Desk>(&mut self, peer: PeerId, kind: Kind, port: Port, desk: &mut D)
        requires room { 1 ≤ D.spare desk.old }
        ensures row { (x : ℕ) → Performs MasterStands MasterStands (leaves_after peer kind) x port
            self.old.master self.new.master (D.acts desk.old) (D.acts desk.new) }
        ensures rest { IsMasterAlone self.old self.new }
        ensures room { UsesAtMost 1 D.spare D.acts desk.old desk.new }
    {
        if !kind.is_correction() {
            return;
        }
        if self.master.leave(peer) {
            desk.put(port, Act::Leave(peer));
        }
    }
}
