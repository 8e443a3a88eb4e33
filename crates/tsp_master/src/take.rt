//! What a master does with messages of its peers.
ghost use Rattle.std.specs.Prelude.{◌≡◌, ℕ, ◌≤◌, ◌&&◌, not, nat_lt};
ghost use Rattle.tsp_base.specs.declared.role.Role.TheVariants.{Master as MasterRole};
ghost use Rattle.tsp_base.specs.SendFacts.{is_correction};
ghost use Rattle.tsp_rules.specs.MasterRows.{joins, sends_away};
ghost use Rattle.tsp_rules.specs.SendRows.{acknowledges, is_kind_quit};
ghost use Rattle.tsp_acks.specs.Openings.{is_of};
ghost use Rattle.tsp_acks.specs.Calls.{Contains, IsTick, Performs, UsesAtMost, IsSamePort, StandsActing};
ghost use Rattle.tsp_measure.specs.Slaves.{peers_of, entry_of, Changes, acks_where};
ghost use Rattle.tsp_master.specs.Frames.{MayServe};
ghost use Rattle.tsp_master.specs.MasterTakes.{master_takes_here};

use crate::master::Master;
use tsp_acks::station::Station;
use tsp_base::act::Act;
use tsp_base::at::At;
use tsp_base::desk::Desk;
use tsp_base::kind::Kind;
use tsp_base::message::Message;
use tsp_base::place::{PeerId, Port};
use tsp_clock::clock::Clock;
use tsp_measure::Change;

impl Master {
    ghost use Rattle.tsp_master.specs.MasterStands.{LeadStands, OwnStands, lead_of};

    /// Handles a message of another peer at a master: a MASTERREQ or a RESOLVE is answered by a MASTERACK, a
    /// SLAVEUP makes its sender a slave and sends it the time, and an ELECTION is answered by a QUIT. Other
    /// messages are passed over here. In this step a datagram was taken. At most two acts. The row is a
    /// master's; of another role nothing is said.
    pub fn take<D: Desk>(
        &mut self,
        station: &mut Station,
        clock: &Clock,
        tick: u64,
        from: PeerId,
        m: &Message,
        port: Port,
        desk: &mut D,
    )
        requires ready { MayServe from tick (lead_of self.old station.old clock.now) }
        requires room { 2 ≤ D.spare desk.old }
        ensures row { station.old.role ≡ MasterRole
            → Performs LeadStands LeadStands (master_takes_here from m.now) tick port
            (lead_of self.old station.old clock.now) (lead_of self.new station.new clock.now)
            (D.acts desk.old) (D.acts desk.new) }
        ensures room { UsesAtMost 2 D.spare D.acts desk.old desk.new }
        ensures port { IsSamePort station.old station.new }
        ensures peers { peers_of self.new.slaves ≡ peers_of self.old.slaves }
    {
        match m.kind() {
            Kind::MasterReq | Kind::Resolve => {
                station.post(from, Kind::MasterAck, m.number(), port, desk)
            }
            Kind::SlaveUp => { self.join(station, clock, At { tick, port }, from, m, desk) }
            Kind::Election => send_away(station, tick, from, port, desk),
            _ => {}
        }
    }

    /// Makes a peer a slave and sends it the time under its message's number. Nothing is done where that is no
    /// ticket (below 32,768), or it is a slave already.
    fn join<D: Desk>(
        &mut self,
        station: &mut Station,
        clock: &Clock,
        at: At,
        peer: PeerId,
        m: &Message,
        desk: &mut D,
    )
        requires ready { MayServe peer at.tick (lead_of self.old station.old clock.now) }
        requires room { 2 ≤ D.spare desk.old }
        ensures row { station.old.role ≡ MasterRole
            → Performs LeadStands LeadStands (joins peer m.now.number) at.tick at.port
            (lead_of self.old station.old clock.now) (lead_of self.new station.new clock.now)
            (D.acts desk.old) (D.acts desk.new) }
        ensures room { UsesAtMost 2 D.spare D.acts desk.old desk.new }
        ensures port { IsSamePort station.old station.new }
        ensures peers { peers_of self.new.slaves ≡ peers_of self.old.slaves }
    {
        let number = m.number();
        if self.may_join(peer, number) {
            desk.put(at.port, Act::Join(peer));
            self.slaves.change(peer, Change::Join);
            self.begin_settime(station, clock, at, peer, number, desk);
        }
    }

    /// Whether a number is a ticket, and its sender isn't a slave yet.
    fn may_join(&self, peer: PeerId, number: u16) -> bool
        ensures { result ≡ (nat_lt number 32768 && not (entry_of self.now.slaves peer).joined) }
    {
        number < 32768 && !self.slaves.of(peer).joined
    }

    /// Ends the open send to a peer that an ACK with this number names, whatever the role. A correction that
    /// it ends counts as acknowledged. At most one act.
    pub fn acknowledge<D: Desk>(
        &mut self,
        station: &mut Station,
        from: PeerId,
        number: u16,
        port: Port,
        desk: &mut D,
    )
        requires room { 1 ≤ D.spare desk.old }
        requires same { peers_of self.old.slaves ≡ station.old.peers }
        requires peer { Contains station.old.peers from }
        ensures row { (x : ℕ) → Performs OwnStands OwnStands (acknowledges from number) x port
            (record { master = self.old; station = station.old })
            (record { master = self.new; station = station.new })
            (D.acts desk.old) (D.acts desk.new) }
        ensures room { UsesAtMost 1 D.spare D.acts desk.old desk.new }
        ensures port { IsSamePort station.old station.new }
        ensures peers { peers_of self.new.slaves ≡ peers_of self.old.slaves }
    {
        let corrects = is_correction(station.sends.kind(from));
        let ended = station.acknowledge(from, number, port, desk);
        self.note_ack(ended, corrects, from);
    }

    /// Notes that a peer acknowledged the last correction, where a send was ended that corrects.
    fn note_ack(&mut self, ended: bool, corrects: bool, peer: PeerId)
        requires { Contains (peers_of self.old.slaves) peer }
        ensures entries { Changes peer (acks_where (ended && corrects)) self.old.slaves
            self.new.slaves }
        ensures peers { peers_of self.new.slaves ≡ peers_of self.old.slaves }
        ensures rounds { self.new.rounds ≡ self.old.rounds }
    {
        if ended && corrects {
            self.slaves.change(peer, Change::Acknowledge);
        }
    }
}

/// Sends a candidate away by a QUIT, unless one is open to it.
fn send_away<D: Desk>(station: &mut Station, tick: u64, peer: PeerId, port: Port, desk: &mut D)
    requires tick { IsTick tick }
    requires room { 1 ≤ D.spare desk.old }
    requires peer { Contains station.old.peers peer }
    ensures row { Performs StandsActing StandsActing (sends_away peer) tick port station.old
        station.new (D.acts desk.old) (D.acts desk.new) }
    ensures room { UsesAtMost 1 D.spare D.acts desk.old desk.new }
    ensures port { IsSamePort station.old station.new }
{
    if !is_quit(station.sends.kind(peer)) {
        station.begin(Kind::Quit, peer, tick, port, desk);
    }
}

/// Whether the open send is a QUIT.
fn is_quit(kind: Option<Kind>) -> bool
    ensures { result ≡ is_of is_kind_quit kind }
{
    matches!(kind, Some(Kind::Quit))
}

/// Whether the open send corrects.
fn is_correction(kind: Option<Kind>) -> bool
    ensures { result ≡ is_of is_correction kind }
{
    matches!(kind, Some(Kind::AdjTime) | Some(Kind::SetTime))
}
