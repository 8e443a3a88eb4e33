//! How answers end a station's numbered sends.
ghost use Rattle.std.specs.Prelude.{◌≡◌, ℕ, ◌≤◌, true, false, if◌then◌else◌, None, MatchBool};
ghost use Rattle.tsp_rules.specs.DateRows.{has_date};
ghost use Rattle.tsp_rules.specs.SendRows.{has_election, has_other, acknowledges};
ghost use Rattle.tsp_sends.specs.Slots.{SetsOnly};
ghost use Rattle.tsp_acks.specs.Calls.{Past, ActsBy, EndsWhere, Uses, ChangesSends};
ghost use Rattle.tsp_acks.specs.Openings.{is_of, answered_by, has_open};

use crate::station::Station;
use tsp_base::act::Act;
use tsp_base::desk::Desk;
use tsp_base::kind::Kind;
use tsp_base::place::{PeerId, Port};

/// What answers a numbered send.
#[derive(Clone, Copy)]
enum Answer {
    /// An ACCEPT or a REFUSE: it answers an ELECTION.
    Vote,
    /// A DATEACK: it answers a SETDATEREQ.
    Date,
    /// An ACK: it answers any other send.
    Ack,
}

impl Answer {
    /// Whether it ends the open send, of which this is the kind if one is open.
    #[inline(always)]
    fn ends(self, kind: Option<Kind>) -> bool
        ensures { result ≡ is_of (answered_by self) kind }
    {
        match kind {
            None => false,
            Some(Kind::Election) => matches!(self, Answer::Vote),
            Some(Kind::SetDateReq) => matches!(self, Answer::Date),
            Some(_) => matches!(self, Answer::Ack),
        }
    }
}

impl Station {
    ghost use Rattle.tsp_acks.specs.Stands.{StationStands};

    /// An ACCEPT or a REFUSE with this number came: ends the open ELECTION to the peer, where it has this
    /// number, and says whether it had.
    pub fn answered<D: Desk>(&mut self, p: PeerId, number: u16, port: Port, desk: &mut D) -> bool
        requires room { 1 ≤ D.spare desk.old }
        ensures { EndsWhere (has_election p number) p port self.old self.new result
            D.spare D.acts desk.old desk.new }
    {
        self.end(Answer::Vote, p, number, port, desk)
    }

    /// An ACK with this number came: ends the open send to the peer, where it has this number, and says whether
    /// it had. An ELECTION or a SETDATEREQ isn't ended so: they have answers of their own.
    pub fn acknowledge<D: Desk>(&mut self, p: PeerId, number: u16, port: Port, desk: &mut D) -> bool
        requires room { 1 ≤ D.spare desk.old }
        ensures test { (x : ℕ) (past : Past) → StationStands past self.old
            → has_other p number x past ≡ result }
        ensures row { (x : ℕ) → ActsBy (acknowledges p number) x port self.old self.new
            D.acts desk.old desk.new }
        ensures sends { MatchBool result (SetsOnly p None self.old.sends self.new.sends)
            (self.new ≡ self.old) }
        ensures same { result ≡ false → D.acts desk.new ≡ D.acts desk.old }
        ensures rest { ChangesSends self.old self.new }
        ensures begun { self.new.begun ≡ self.old.begun }
        ensures room { Uses (if result then 1 else 0) D.spare D.acts desk.old desk.new }
    {
        self.end(Answer::Ack, p, number, port, desk)
    }

    /// A DATEACK with this number came: ends the open SETDATEREQ to the peer, where it has this number, and says
    /// whether it had.
    pub fn dated<D: Desk>(&mut self, p: PeerId, number: u16, port: Port, desk: &mut D) -> bool
        requires room { 1 ≤ D.spare desk.old }
        ensures { EndsWhere (has_date p number) p port self.old self.new result
            D.spare D.acts desk.old desk.new }
    {
        self.end(Answer::Date, p, number, port, desk)
    }

    /// Ends the open send to a peer, where it has this number and such an answer ends it, and says whether it did.
    #[inline(always)]
    fn end<D: Desk>(
        &mut self,
        answer: Answer,
        p: PeerId,
        number: u16,
        port: Port,
        desk: &mut D,
    ) -> bool
        requires room { 1 ≤ D.spare desk.old }
        ensures { EndsWhere (has_open answer p number) p port self.old self.new result
            D.spare D.acts desk.old desk.new }
    {
        if !answer.ends(self.sends.kind(p)) {
            return false;
        }
        let ended = self.sends.ack(p, number);
        if ended {
            desk.put(port, Act::Acked(p));
        }
        ended
    }
}
