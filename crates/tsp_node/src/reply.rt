//! How a stamp request is answered.
ghost use Rattle.std.specs.Prelude.{◌≡◌, ◌≤◌, true, false, IfSome, IfNone};
ghost use Rattle.tsp_base.specs.Frames.{IsTick, UsesAtMost};
ghost use Rattle.tsp_base.specs.Performs.{Performs};
ghost use Rattle.tsp_rules.specs.CommonRows.{replies};
ghost use Rattle.tsp_rules.specs.Guards.{is_clock_value};
ghost use Rattle.tsp_clock.specs.Clocks.{target_of};
ghost use Rattle.tsp_node.specs.declared.part.Part.{Part};
ghost use Rattle.tsp_node.specs.NodeStands.{PortStands, port_with};

use tsp_base::act::Act;
use tsp_base::datagram::Datagram;
use tsp_base::desk::Desk;
use tsp_base::place::{Place, Port};
use tsp_base::stamp::Stamp;
use tsp_clock::clock::{Clock, is_clock_value};

/// Answers a request with the clock's ticket and target, unless the target is out of the range of clocks.
pub(crate) fn reply<D: Desk>(
    clock: &Clock,
    tick: u64,
    from: Place,
    word: u64,
    counter: u64,
    port: Port,
    desk: &mut D,
)
    requires room { 1 ≤ D.spare desk.old }
    requires tick { IsTick tick }
    requires later { clock.now.at ≤ tick }
    ensures row { (part : Part) → Performs PortStands PortStands (replies from word counter) tick
        port (port_with part clock.now) (port_with part clock.now) (D.acts desk.old)
        (D.acts desk.new) }
    ensures room { UsesAtMost 1 D.spare D.acts desk.old desk.new }
{
    match stamp_at(clock, tick, word, counter) {
        Some(stamp) => desk.put(port, Act::Post(from, Datagram::Stamp(stamp))),
        None => {}
    }
}

/// The reply to a request at a tick; None exactly where the target is out of the range of clocks.
fn stamp_at(clock: &Clock, tick: u64, word: u64, counter: u64) -> Option<Stamp>
    requires tick { IsTick tick }
    requires later { clock.now.at ≤ tick }
    ensures there { IfSome result (λ s. (is_clock_value (target_of clock.now tick) ≡ true)
        × (s ≡ Stamp.Reply (record {
          ticket = clock.now.ticket;
          word = word;
          counter = counter;
          reading = target_of clock.now tick;
        }))) }
    ensures none { IfNone result (is_clock_value (target_of clock.now tick) ≡ false) }
{
    let target = clock.target(tick);
    if is_clock_value(target) {
        Stamp::reply(clock.ticket(), word, counter, target)
    } else {
        None
    }
}
