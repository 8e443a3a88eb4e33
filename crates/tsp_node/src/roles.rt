//! What a port does with a peer's message, by its role.
ghost use Rattle.std.specs.Prelude.{◌≡◌, ◌+◌, ◌*◌, ◌≤◌, ◌&&◌, not, length};
ghost use Rattle.tsp_base.specs.declared.datagram.Datagram.TheVariants.{Message as MessageOf};
ghost use Rattle.tsp_base.specs.declared.datagram.Taken.TheVariants.{Good};
ghost use Rattle.tsp_base.specs.declared.place.Place.TheVariants.{Peer};
ghost use Rattle.tsp_base.specs.Frames.{IsTick, UsesAtMost};
ghost use Rattle.tsp_base.specs.History.{Past};
ghost use Rattle.tsp_base.specs.Performs.{Performs};
ghost use Rattle.tsp_base.specs.Rows.{either_by, nothing};
ghost use Rattle.tsp_base.specs.SendFacts.{is_correction};
ghost use Rattle.tsp_rules.specs.Answers.{from_peer, is_left, peer_says};
ghost use Rattle.tsp_rules.specs.Guards.{is_follow};
ghost use Rattle.tsp_slave.specs.Corrections.{TellsCorrection};
ghost use Rattle.tsp_node.specs.declared.audience.Audience.TheVariants.{OfRoles};
ghost use Rattle.tsp_node.specs.Audiences.{audience_of};
ghost use Rattle.tsp_node.specs.NodeStands.{PortStands, PortTook, port_with};

use crate::part::Part;
use crate::terms::TakeTerms;
use tsp_base::at::At;
use tsp_base::desk::Desk;
use tsp_base::kind::Kind;
use tsp_base::message::Message;
use tsp_base::place::{PeerId, Place, Port};
use tsp_base::role::Role;
use tsp_candidate::take::candidate_take;
use tsp_clock::clock::Clock;
use tsp_slave::quit::take_quit;
use tsp_slave::take::slave_hear;

impl Part {
    ghost use Rattle.std.specs.List.{Contains};
    ghost use Rattle.tsp_rules.specs.CommonRows.{quits};

    /// Handles a message of a peer by the port's role, where the port heeds the peer. Says whether that corrected
    /// the clock.
    pub(crate) fn hear_peer<D: Desk>(
        &mut self,
        clock: &mut Clock,
        terms: TakeTerms,
        from: Place,
        m: &Message,
        desk: &mut D,
    ) -> bool
        requires room { 2 * length self.old.station.peers + 5 ≤ D.spare desk.old }
        requires tick { IsTick terms.at.tick }
        requires later { clock.old.at ≤ terms.at.tick }
        requires audience { audience_of m.now.kind ≡ OfRoles }
        ensures row { Performs (PortTook (record { from = from; taken = Good (MessageOf m.now) }))
            PortStands (either_by (is_left terms.steer m.now.kind) nothing
            (from_peer from (peer_says m.now))) terms.at.tick terms.at.port
            (port_with self.old clock.old) (port_with self.new clock.new) (D.acts desk.old)
            (D.acts desk.new) }
        ensures corrects { (past : Past)
            → PortTook (record { from = from; taken = Good (MessageOf m.now) }) past
            (port_with self.old clock.old)
            → TellsCorrection result terms.at.port (D.acts desk.old) (D.acts desk.new) }
        ensures peers { self.new.station.peers ≡ self.old.station.peers }
        ensures clock { clock.new.at ≤ terms.at.tick }
        ensures room { UsesAtMost (2 * length self.old.station.peers + 5)
            D.spare D.acts desk.old desk.new }
    {
        let Some(p) = self.heard(from) else {
            return false;
        };
        let At { tick, port } = terms.at;
        match self.station.role {
            Role::Candidate => {
                let station = &mut self.station;
                candidate_take(station, &mut self.last, clock, tick, p, m, port, desk);
                false
            }
            Role::Master => {
                self.hear_as_master(clock, tick, p, m, port, desk);
                false
            }
            _ => {
                if leaves(self.station.role, terms.steer, m.kind()) {
                    return false;
                }
                let station = &mut self.station;
                slave_hear(station, &mut self.last, clock, terms.at, p, m, desk)
            }
        }
    }

    ghost use Rattle.tsp_base.specs.declared.role.Role.TheVariants.{Master};
    ghost use Rattle.tsp_rules.specs.MasterRows.{master_takes};

    /// Handles a message of a peer at a master. A hint of another master makes it ask all peers
    /// who is one; an answer notes a rival; a QUIT ends its role.
    fn hear_as_master<D: Desk>(
        &mut self,
        clock: &Clock,
        tick: u64,
        p: PeerId,
        m: &Message,
        port: Port,
        desk: &mut D,
    )
        requires room { 2 * length self.old.station.peers + 5 ≤ D.spare desk.old }
        requires tick { IsTick tick }
        requires later { clock.now.at ≤ tick }
        requires peer { Contains self.old.station.peers p }
        requires role { self.old.station.role ≡ Master }
        requires audience { audience_of m.now.kind ≡ OfRoles }
        ensures row { Performs (PortTook (record { from = Peer p; taken = Good (MessageOf m.now) }))
            PortStands (master_takes p m.now) tick port (port_with self.old clock.now)
            (port_with self.new clock.now) (D.acts desk.old) (D.acts desk.new) }
        ensures peers { self.new.station.peers ≡ self.old.station.peers }
        ensures room { UsesAtMost (2 * length self.old.station.peers + 5)
            D.spare D.acts desk.old desk.new }
    {
        match m.kind() {
            Kind::Quit => self.take_quit(clock, At { tick, port }, p, m, desk),
            Kind::MasterUp => self.resolve.start(&mut self.station, tick, port, desk),
            Kind::Conflict => {
                self.station.post(p, Kind::Ack, m.number(), port, desk);
                self.resolve.start(&mut self.station, tick, port, desk)
            }
            Kind::MasterAck => self.resolve.rival(&self.station, p, port, desk),
            _ => {
                let station = &mut self.station;
                self.master.take(station, clock, tick, p, m, port, desk)
            }
        }
    }

    /// Takes a QUIT at a master, which then follows its sender.
    fn take_quit<D: Desk>(&mut self, clock: &Clock, at: At, p: PeerId, m: &Message, desk: &mut D)
        requires room { 5 ≤ D.spare desk.old }
        requires tick { IsTick at.tick }
        requires peer { Contains self.old.station.peers p }
        requires role { self.old.station.role ≡ Master }
        requires audience { audience_of m.now.kind ≡ OfRoles }
        ensures row { Performs (PortTook (record { from = Peer p; taken = Good (MessageOf m.now) }))
            PortStands (quits p m.now.number) at.tick at.port (port_with self.old clock.now)
            (port_with self.new clock.now) (D.acts desk.old) (D.acts desk.new) }
        ensures peers { self.new.station.peers ≡ self.old.station.peers }
        ensures room { UsesAtMost 5 D.spare D.acts desk.old desk.new }
    {
        let station = &mut self.station;
        take_quit(station, &mut self.last, clock, at, p, m, desk);
        self.part_from(true);
    }
}

/// Whether a port of this role ignores this kind of message, since it doesn't steer the clock: a correction
/// by the master that it follows.
fn leaves(role: Role, steer: bool, kind: Kind) -> bool
    ensures { result ≡ (not steer && (is_correction kind && is_follow role)) }
{
    !steer && kind.is_correction() && matches!(role, Role::Follow(_))
}
