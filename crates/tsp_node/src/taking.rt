//! What a port does with octets that it takes.
ghost use Rattle.std.specs.Prelude.{◌≡◌, ℕ, ◌+◌, ◌*◌, ◌≤◌, ◌++◌, [], ◌∷◌, length};
ghost use Rattle.tsp_base.specs.declared.act.Act.TheVariants.{Took};
ghost use Rattle.tsp_base.specs.Frames.{IsTick, UsesAtMost};
ghost use Rattle.tsp_base.specs.History.{Past};
ghost use Rattle.tsp_rules.specs.RoundRows.{corrects};
ghost use Rattle.tsp_rules.specs.Guards.{is_own};
ghost use Rattle.tsp_node.specs.NodeStands.{TakeStands, TookStands, traced_with};

use crate::part::Part;
use crate::reply::reply;
use crate::terms::TakeTerms;
use tsp_base::act::Act;
use tsp_base::at::At;
use tsp_base::datagram::{Datagram, Taken};
use tsp_base::desk::Desk;
use tsp_base::place::{PeerId, Place, Port};
use tsp_base::stamp::Stamp;
use tsp_clock::clock::Clock;

impl Part {
    ghost use Rattle.tsp_base.specs.Performs.{Performs};
    ghost use Rattle.tsp_base.specs.Rows.{either_by, nothing};
    ghost use Rattle.tsp_rules.specs.Answers.{takes, handles};
    ghost use Rattle.tsp_slave.specs.Corrections.{TellsCorrection};

    /// Takes what was read of octets from `from`, and says whether that corrected the clock. Where the port
    /// doesn't `steer` its node's clock, it ignores the corrections of the master that it follows; where it
    /// isn't in `charge` of its node's date, it sets none.
    pub fn take<D: Desk>(
        &mut self,
        clock: &mut Clock,
        tracing: &mut bool,
        steer: bool,
        charge: bool,
        tick: u64,
        from: Place,
        taken: &Taken,
        port: Port,
        desk: &mut D,
    ) -> bool
        requires room { 2 * length self.old.station.peers + 16 ≤ D.spare desk.old }
        requires tick { IsTick tick }
        requires later { clock.old.at ≤ tick }
        ensures row { Performs TakeStands TakeStands (takes steer charge from taken.now) tick port
            (traced_with self.old clock.old tracing.old)
            (traced_with self.new clock.new tracing.new) (D.acts desk.old) (D.acts desk.new) }
        ensures corrects { (past : Past)
            → TakeStands past (traced_with self.old clock.old tracing.old)
            → result ≡ corrects (takes steer charge from taken.now tick past) }
        ensures peers { self.new.station.peers ≡ self.old.station.peers }
        ensures clock { clock.new.at ≤ tick }
        ensures room { UsesAtMost (2 * length self.old.station.peers + 16)
            D.spare D.acts desk.old desk.new }
    {
        put_taken(from, taken, port, desk);
        let terms = TakeTerms {
            at: At { tick, port },
            steer,
            charge,
        };
        self.handle(clock, tracing, terms, from, taken, desk)
    }

    /// Ignores what seems to come from the port itself and octets that aren't a datagram, answers a stamp
    /// request, and handles a message or a stamp reply. Says whether that corrected the clock.
    fn handle<D: Desk>(
        &mut self,
        clock: &mut Clock,
        tracing: &mut bool,
        terms: TakeTerms,
        from: Place,
        taken: &Taken,
        desk: &mut D,
    ) -> bool
        requires room { 2 * length self.old.station.peers + 10 ≤ D.spare desk.old }
        requires tick { IsTick terms.at.tick }
        requires later { clock.old.at ≤ terms.at.tick }
        ensures row { Performs (TookStands (record { from = from; taken = taken.now })) TakeStands
            (either_by (is_own from) nothing (handles terms.steer terms.charge from taken.now))
            terms.at.tick terms.at.port (traced_with self.old clock.old tracing.old)
            (traced_with self.new clock.new tracing.new) (D.acts desk.old) (D.acts desk.new) }
        ensures corrects { (past : Past)
            → TookStands (record { from = from; taken = taken.now }) past
            (traced_with self.old clock.old tracing.old)
            → TellsCorrection result terms.at.port (D.acts desk.old) (D.acts desk.new) }
        ensures peers { self.new.station.peers ≡ self.old.station.peers }
        ensures clock { clock.new.at ≤ terms.at.tick }
        ensures room { UsesAtMost (2 * length self.old.station.peers + 10)
            D.spare D.acts desk.old desk.new }
    {
        if is_own(from, self.station.me.own) {
            return false;
        }
        let Taken::Good(datagram) = taken else {
            return false;
        };
        let At { tick, port } = terms.at;
        match datagram {
            Datagram::Message(m) => self.hear(clock, tracing, terms, from, m, desk),
            Datagram::Stamp(stamp) => match stamp {
                Stamp::Request { word, counter } => {
                    reply(clock, tick, from, *word, *counter, port, desk);
                    false
                }
                Stamp::Reply(_) => {
                    self.hear_stamp(clock, tick, from, stamp, port, desk);
                    false
                }
            },
        }
    }
}

/// Puts the Took of what was read of octets. Each kind is copied by itself, since a stamp is much shorter than a
/// message.
fn put_taken<D: Desk>(from: Place, taken: &Taken, port: Port, desk: &mut D)
    requires { 1 ≤ D.spare desk.old }
    ensures acts { D.acts desk.new ≡ D.acts desk.old ++ record {
      port = port;
      act = Took from taken.now;
    } ∷ [] }
    ensures spare { D.spare desk.new + 1 ≡ D.spare desk.old }
{
    match taken {
        Taken::Good(Datagram::Message(m)) => {
            let datagram = Datagram::Message(m.copy());
            desk.put(port, Act::Took(from, Taken::Good(datagram)))
        }
        Taken::Good(Datagram::Stamp(stamp)) => {
            let datagram = Datagram::Stamp(*stamp);
            desk.put(port, Act::Took(from, Taken::Good(datagram)))
        }
        Taken::Bad(fault) => desk.put(port, Act::Took(from, Taken::Bad(*fault))),
    }
}

/// Whether a datagram seems to come from the peer with this number.
fn is_own(from: Place, own: PeerId) -> bool
    ensures { (x : ℕ) (past : Past) → own ≡ past.own → is_own from x past ≡ result }
{
    match from {
        Place::Peer(p) => p.0 == own.0,
        Place::Stranger => false,
    }
}
