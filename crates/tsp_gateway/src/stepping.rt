//! The steps of a node that has booted.
ghost use Rattle.std.specs.Prelude.{◌≡◌, ◌≤◌, ◌<◌, length};
ghost use Rattle.tsp_base.specs.Frames.{IsTick, UsesAtMost};
ghost use Rattle.tsp_rules.specs.GateRows.{GotOn, NodeTurn, answers_all};
ghost use Rattle.tsp_rules.specs.NodePerforms.{PerformsAll};
ghost use Rattle.tsp_codec.specs.Taken.{taken_of};
ghost use Rattle.tsp_gateway.specs.GateInputs.{ComesOnPort, given_on};

use crate::gateway::Gateway;
use tsp_base::datagram::{Datagram, Taken};
use tsp_base::desk::Desk;
use tsp_base::input::Input;
use tsp_base::place::{Place, Port};
use tsp_codec::{read_any, read_stamp};

impl Gateway {
    ghost use Rattle.tsp_gateway.specs.GatewayStands.{GatewayBegun, GatewayStands, clock_at};
    ghost use Rattle.tsp_gateway.specs.Rooms.{ports_in, room_of_ports};

    /// A step: due sends and alarms of every port are handled, and then the input's octets are read and
    /// taken. Their port must be one of the node's, and the tick not before that of an earlier step.
    pub fn step<D: Desk>(&mut self, tick: u64, input: &Input, desk: &mut D)
        requires port { ComesOnPort (length (ports_in self.old)) input.now }
        requires room { room_of_ports (ports_in self.old) ≤ D.spare desk.old }
        requires tick { IsTick tick }
        requires later { clock_at self.old ≤ tick }
        ensures row { PerformsAll GatewayBegun GatewayStands (answers_all (given_on input.now)) tick
            self.old self.new (D.acts desk.old) (D.acts desk.new) }
        ensures ports { ports_in self.new ≡ ports_in self.old }
        ensures clock { clock_at self.new ≤ tick }
        ensures room { UsesAtMost (room_of_ports (ports_in self.old))
            D.spare D.acts desk.old desk.new }
    {
        match input {
            Input::Turn => self.turn(tick, desk),
            Input::Bytes { port, from, octets } => match read_stamp(octets) {
                Some(stamp) => {
                    let taken = Taken::Good(Datagram::Stamp(stamp));
                    self.take(tick, *port, *from, &taken, desk);
                }
                None => self.take_octets(tick, *port, *from, octets, desk),
            },
        }
    }

    /// A step that takes octets, be they a stamp or not. (A call of its own, so that a stamp needs no room for a
    /// message.)
    #[inline(never)]
    fn take_octets<D: Desk>(
        &mut self,
        tick: u64,
        port: Port,
        from: Place,
        octets: &[u8],
        desk: &mut D,
    )
        requires port { port.0 < length (ports_in self.old) }
        requires room { room_of_ports (ports_in self.old) ≤ D.spare desk.old }
        requires tick { IsTick tick }
        requires later { clock_at self.old ≤ tick }
        ensures row { PerformsAll GatewayBegun GatewayStands
            (answers_all (GotOn port from (taken_of octets.now))) tick self.old self.new
            (D.acts desk.old) (D.acts desk.new) }
        ensures ports { ports_in self.new ≡ ports_in self.old }
        ensures clock { clock_at self.new ≤ tick }
        ensures room { UsesAtMost (room_of_ports (ports_in self.old))
            D.spare D.acts desk.old desk.new }
    {
        let taken = read_any(octets);
        self.take(tick, port, from, &taken, desk);
    }

    /// A step without octets: due sends and alarms are handled.
    #[inline(always)]
    pub fn turn<D: Desk>(&mut self, tick: u64, desk: &mut D)
        requires room { room_of_ports (ports_in self.old) ≤ D.spare desk.old }
        requires tick { IsTick tick }
        requires later { clock_at self.old ≤ tick }
        ensures row { PerformsAll GatewayBegun GatewayStands (answers_all NodeTurn) tick self.old
            self.new (D.acts desk.old) (D.acts desk.new) }
        ensures ports { ports_in self.new ≡ ports_in self.old }
        ensures clock { clock_at self.new ≤ tick }
        ensures room { UsesAtMost (room_of_ports (ports_in self.old))
            D.spare D.acts desk.old desk.new }
    {
        self.turn_ports(tick, desk);
    }

    /// A step that also takes, on one of the node's ports, what was read of octets from `from`.
    #[inline(always)]
    pub fn take<D: Desk>(&mut self, tick: u64, port: Port, from: Place, taken: &Taken, desk: &mut D)
        requires port { port.0 < length (ports_in self.old) }
        requires room { room_of_ports (ports_in self.old) ≤ D.spare desk.old }
        requires tick { IsTick tick }
        requires later { clock_at self.old ≤ tick }
        ensures row { PerformsAll GatewayBegun GatewayStands
            (answers_all (GotOn port from taken.now)) tick self.old self.new (D.acts desk.old)
            (D.acts desk.new) }
        ensures ports { ports_in self.new ≡ ports_in self.old }
        ensures clock { clock_at self.new ≤ tick }
        ensures room { UsesAtMost (room_of_ports (ports_in self.old))
            D.spare D.acts desk.old desk.new }
    {
        self.turn_ports(tick, desk);
        self.take_in(tick, port.0 as usize, from, taken, desk);
    }
}
