//! How a station's due sends are posted again, or given up.
ghost use Rattle.std.specs.Prelude.{◌≡◌, ◌≤◌, if◌then◌else◌, is_some, IfSome, IfNone};
ghost use Rattle.tsp_rules.specs.SendRows.{bare_send};
ghost use Rattle.tsp_sends.specs.Repeating.{IsAfter, RepeatsNext, peer_of};
ghost use Rattle.tsp_acks.specs.Calls.{Contains, IsTick, Performs, Uses, ChangesSends};

use crate::station::Station;
use tsp_base::act::Act;
use tsp_base::datagram::Datagram;
use tsp_base::desk::Desk;
use tsp_base::place::{PeerId, Place, Port};
use tsp_sends::Due;

impl Station {
    ghost use Rattle.tsp_acks.specs.Stands.{StandsStill};

    /// Repeats the first due send to a peer after `after`, in the order of the peers: its message is posted
    /// again, or the send is given up. None exactly where there is none. It must come before any alarm or
    /// datagram of the step.
    pub fn repeat_next<D: Desk>(
        &mut self,
        after: Option<PeerId>,
        tick: u64,
        port: Port,
        desk: &mut D,
    ) -> Option<Due>
        requires room { 1 ≤ D.spare desk.old }
        requires tick { IsTick tick }
        ensures next { IfSome result (λ due. Contains self.old.peers (peer_of due)
            × IsAfter after (peer_of due)) }
        ensures sends { RepeatsNext after tick self.old.sends self.new.sends result }
        ensures row { IfSome result (λ due. Performs StandsStill StandsStill
            (bare_send (peer_of due)) tick port self.old self.new (D.acts desk.old)
            (D.acts desk.new)) }
        ensures same { IfNone result ((self.new ≡ self.old) × (desk.new ≡ desk.old)) }
        ensures rest { ChangesSends self.old self.new }
        ensures begun { self.new.begun ≡ self.old.begun }
        ensures room { Uses (if is_some result then 1 else 0) D.spare D.acts desk.old desk.new }
    {
        let due = self.sends.due(after, tick)?;
        match &due {
            Due::Again(p, message) => {
                let datagram = Datagram::Message(message.copy());
                desk.put(port, Act::Post(Place::Peer(*p), datagram));
            }
            Due::Gave(p, _) => desk.put(port, Act::Gave(*p)),
        }
        Some(due)
    }
}
