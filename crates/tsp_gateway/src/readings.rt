//! What a caller can read of a gateway.
ghost use Rattle.std.specs.Prelude.{◌≡◌, ◌<◌, ◌≤◌, ◌+◌, ◌^◌, ◌<ℤ◌, pos, negsuc, nat_abs, length};
ghost use Rattle.tsp_base.specs.Frames.{IsTick};
ghost use Rattle.tsp_rules.specs.NodeRows.{NodePast};
ghost use Rattle.tsp_gateway.specs.Dues.{IsGatewayDue, IsNodeDue};
ghost use Rattle.tsp_gateway.specs.PortOf.{port_of};

use crate::gateway::{FIRST, Gateway, port_at};
use tsp_base::alarms::earlier;
use tsp_base::place::{PeerId, Port};
use tsp_rules::room::room_for;

impl Gateway {
    ghost use Rattle.tsp_base.specs.History.{dids};
    ghost use Rattle.tsp_base.specs.NodeFacts.{last_correct, rest, target, tracing, word};
    ghost use Rattle.tsp_gateway.specs.GatewayStands.{GatewayStands, clock_at};
    ghost use Rattle.tsp_gateway.specs.PortOf.{setups_in};
    ghost use Rattle.tsp_gateway.specs.Rooms.{ports_in, room_of_ports};

    /// How many acts a step may put: the desk must have room for so many.
    pub fn room(&self) -> usize
        ensures { result ≡ room_of_ports (ports_in self.now) }
    {
        let mut room = 0;
        for part in &self.ports {
            room += room_for(part.station().peers().len());
        }
        room
    }

    /// The tick at which the node needs its next step, if nothing comes before: the earliest deadline of an armed
    /// alarm or an open send of any port, which may be in the past; `u64::MAX` where there is none.
    pub fn due(&self) -> u64
        ensures past { (past : NodePast) → GatewayStands past self.now → IsNodeDue past result }
    {
        self.deadline()
    }

    /// The same, from the states of the ports: a turn before this tick does nothing.
    pub fn deadline(&self) -> u64
        ensures { IsGatewayDue self.now result }
    {
        let mut due = None;
        for part in &self.ports {
            due = earlier(due, part.due());
        }
        match due {
            Some(at) => at,
            None => u64::MAX,
        }
    }

    /// Whether its trace is on.
    pub fn tracing(&self) -> bool
        ensures value { result ≡ self.now.tracing }
        ensures past { (past : NodePast) → GatewayStands past self.now
            → result ≡ tracing (dids past.lines) }
    {
        self.tracing
    }

    /// The word with which it booted.
    pub fn word(&self) -> u64
        ensures past { (past : NodePast) → GatewayStands past self.now
            → result ≡ word (dids past.lines) }
    {
        self.ports[0].station().me.word
    }

    /// The tick of the clock's last correction, or of the boot where there was none.
    pub fn corrected(&self) -> u64
        ensures value { result ≡ clock_at self.now }
        ensures tick { IsTick (clock_at self.now) }
        ensures past { (past : NodePast) → GatewayStands past self.now
            → result ≡ last_correct (dids past.lines) }
    {
        self.clock.corrected()
    }

    /// How many microseconds were still to be slewed right after that.
    pub fn left(&self) -> i64
        ensures small { nat_abs result ≤ 2 ^ 61 + 2 ^ 52 }
        ensures past { (past : NodePast) → GatewayStands past self.now
            → result ≡ rest (dids past.lines) }
    {
        self.clock.left()
    }

    /// The clock's target at a tick, in microseconds since 1970. The tick must not be before the last correction.
    pub fn target(&self, tick: u64) -> i64
        requires tick { IsTick tick }
        requires later { clock_at self.now ≤ tick }
        ensures low { negsuc 2147483647999999 <ℤ result }
        ensures high { result <ℤ pos (2147483648000000 + tick) }
        ensures past { (past : NodePast) → GatewayStands past self.now
            → result ≡ target (dids past.lines) tick }
    {
        self.clock.target(tick)
    }

    /// The lowest port that has this peer, other than as the node itself; port 0 where none has.
    pub fn port_of(&self, p: PeerId) -> Port
        ensures value { result ≡ port_of p (setups_in self.now) }
        ensures past { (past : NodePast) → GatewayStands past self.now
            → result ≡ port_of p past.ports }
        ensures inside { result.0 < length (ports_in self.now) }
    {
        self.place_of(p)
    }

    /// The same, from the states of the ports.
    fn place_of(&self, p: PeerId) -> Port
        ensures value { result ≡ port_of p (setups_in self.now) }
        ensures inside { result.0 < length (ports_in self.now) }
    {
        for q in 0..self.ports.len() {
            let station = self.ports[q].station();
            if station.me.own.0 != p.0 && station.peers.has(p) {
                return port_at(q);
            }
        }
        FIRST
    }
}
