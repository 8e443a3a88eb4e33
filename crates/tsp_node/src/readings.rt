//! What a caller can read of a node, and of a port.
ghost use Rattle.std.specs.Prelude.{◌≡◌, ℕ, ◌≤◌, not, Option};
ghost use Rattle.tsp_base.specs.Alarms.{earlier, least_deadline};
ghost use Rattle.tsp_base.specs.SendFacts.{open_send};
ghost use Rattle.tsp_rules.specs.Guards.{is_over};
ghost use Rattle.tsp_sends.specs.Slots.{sending_to};
ghost use Rattle.tsp_sends.specs.Repeating.{IsEarliest};

use crate::node::Node;
use crate::part::Part;
use tsp_acks::station::Station;
use tsp_base::alarm::Alarm;
use tsp_base::alarms::earlier;
use tsp_base::role::Role;

impl Part {
    ghost use Rattle.tsp_node.specs.Dues.{IsPartDue};

    /// The earliest deadline of an armed alarm or an open send, which may be in the past; None exactly where no
    /// alarm is armed and no send open.
    pub fn due(&self) -> Option<u64>
        ensures { IsPartDue self.now result }
    {
        earlier(self.station.alarms.least(), self.station.sends.least())
    }

    /// Whether neither an alarm nor an open send is due at this tick.
    #[inline]
    pub fn rests(&self, tick: u64) -> bool
        ensures { (due : Option ℕ) × IsPartDue self.now due × (result ≡ not (is_over due tick)) }
    {
        let sends = self.station.sends.least();
        if is_any_due(&self.station, tick) {
            return false;
        }
        !is_over(sends, tick)
    }
}

/// Whether an alarm of a port is due at this tick.
#[inline]
fn is_any_due(station: &Station, tick: u64) -> bool
    ensures { result ≡ is_over (least_deadline station.now.alarms) tick }
{
    for alarm in &Alarm::ALL {
        if station.is_due(*alarm, tick) {
            return true;
        }
    }
    false
}

/// Whether a deadline has come at this tick; false where there is none.
fn is_over(due: Option<u64>, tick: u64) -> bool
    ensures { result ≡ is_over due tick }
{
    match due {
        Some(at) => at <= tick,
        None => false,
    }
}

impl Node {
    ghost use Rattle.tsp_base.specs.History.{Past, plain};
    ghost use Rattle.tsp_base.specs.NodeFacts.{shown, tracing};
    ghost use Rattle.tsp_base.specs.PortFacts.{role, armed};
    ghost use Rattle.tsp_clock.specs.Clocks.{shown_of};
    ghost use Rattle.tsp_node.specs.NodeStands.{NodeStands, clock_at, due_of};

    /// The tick at which the node needs its next step, if nothing comes before: the earliest deadline of an armed
    /// alarm or an open send, which may be in the past; `u64::MAX` where there is none.
    pub fn due(&self) -> u64
        ensures value { (o : Option ℕ) × IsEarliest (sending_to self.now.part.station.sends) o
            × (result ≡ due_of (earlier (least_deadline self.now.part.station.alarms) o)) }
        ensures past { (past : Past) → NodeStands past self.now
            → (o : Option ℕ) × IsEarliest (λ p. open_send p past.seen) o
            × (result ≡ due_of (earlier (least_deadline (armed past.seen)) o)) }
    {
        match self.part.due() {
            Some(at) => at,
            None => u64::MAX,
        }
    }

    /// Its role.
    pub fn role(&self) -> Role
        ensures value { result ≡ self.now.part.station.role }
        ensures past { (past : Past) → NodeStands past self.now → result ≡ role past.seen }
    {
        self.part.station().role
    }

    /// Whether its trace is on.
    pub fn tracing(&self) -> bool
        ensures value { result ≡ self.now.tracing }
        ensures past { (past : Past) → NodeStands past self.now
            → result ≡ tracing (plain past.seen) }
    {
        self.tracing
    }

    ghost use Rattle.tsp_base.specs.Frames.{IsTick};

    /// What its clock shows at a tick, in microseconds. The tick must not be before its last correction or boot.
    pub fn shown(&self, tick: u64) -> i64
        requires tick { IsTick tick }
        requires later { clock_at self.now ≤ tick }
        ensures value { result ≡ shown_of self.now.clock tick }
        ensures past { (past : Past) → NodeStands past self.now
            → result ≡ shown (plain past.seen) tick }
    {
        self.clock.shown(tick)
    }
}
