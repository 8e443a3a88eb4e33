//! The daemon's session.
ghost use Rattle.std.specs.Prelude.{◌≡◌, ◌≤◌, ◌<◌, ◌*◌, ◌^◌};
ghost use Rattle.tsp_gateway.specs.GatewayStands.{clock_at};
ghost use Rattle.tsp_gateway.specs.Rooms.{ports_in, room_of_ports};
ghost use Rattle.tsp_query.specs.Faults.{Counts};
ghost use Rattle.tsp_query.specs.Outside.{paged};
ghost use Rattle.tsp_query.specs.Told.{HoldsOf, KeepsOn};
ghost use Rattle.tsp_daemon.specs.Ends.{IsAt, Lives, Serves};
ghost use Rattle.tsp_daemon.specs.Pages.{KeepsBoard};
ghost use Rattle.tsp_daemon.specs.Sessions.{Session};

use crate::counters::Counters;
use crate::end::ServeEnd;
use crate::page::begin;
use crate::room::Room;
use crate::turn::turn;
use std::alloc::Global;
use tsp_gateway::Gateway;
use tsp_io::link::Link;
use tsp_io::sink::Sink;
use tsp_io::ticker::Ticker;

/// Runs a node over a link for `turns` turns. The node is gone after the call.
///
/// Each turn reads the ticker, receives, reads the ticker again, and lets the node step with the
/// datagram that came, or with none. A peer's datagram comes on the lowest port that has the peer
/// as another node's number, and a stranger's on port 0. The turn tries one send for each datagram
/// that the step posts, in order; one that fails is a lost datagram. If the trace was on before the
/// step or is on after it, the lines of its acts are written then: the turn's number, from 1, is in
/// place of the event's, the node is node 0, each act has its port, and datagrams are numbered from
/// 0 over all turns. So they reach the sink before the next receive. There is one receive for each
/// turn, and one for the turn that ends the session, unless that ran out of memory before its
/// receive.
///
/// If the ticker has a board, and knows from where its ticks are counted, the daemon's half of the page
/// (`tsp_page`) is written there: at the beginning; in each turn whose step corrects the clock or changes
/// a role, before that turn's sends are tried; and in a turn that comes a second or more after the last
/// of these writes, to say that the daemon is alive. Each is three writes: the sequence, odd; the fields;
/// the sequence, even. `specs/Pages.antt` says what the fields are. Before the last kind the look's half is
/// read: if it asks for a rate, ticks are counted at that rate from then on, and the fields say so.
/// Without a board nothing else differs, and nothing is read.
///
/// `LinkFault` comes only if a receive failed, and the link's count of faults rose; `WriteFault`
/// only if a write failed, and the sink's count rose. The node must stand for a past, as each does
/// that `Gateway::boot` gave, and the turns must be few enough that the numbers of their datagrams
/// are less than 2^64.
pub fn serve<K: Sink, L: Link, T: Ticker>(
    alloc: Global,
    mut gateway: Gateway,
    turns: u64,
    sink: &mut K,
    link: &mut L,
    ticker: &mut T,
) -> ServeEnd
    requires lives { Lives gateway }
    requires later { clock_at gateway ≤ T.last ticker.old }
    requires few { turns * room_of_ports (ports_in gateway) < 2 ^ 64 }
    ensures serves { (s : Session)
        → HoldsOf L.Link T.Ticker (IsAt s gateway (record { turns = 0; posts = 0 })) link.old
        ticker.old (K.written sink.old)
        → HoldsOf L.Link T.Ticker (Serves turns s) link.new ticker.new (K.written sink.new)
        (L.waits link.old) (L.waits link.new) (paged T.Ticker ticker.old)
        (paged T.Ticker ticker.new) result }
    ensures keeps { KeepsOn L.Link T.Ticker link.old ticker.old link.new ticker.new }
    ensures board { KeepsBoard T.Ticker ticker.old ticker.new }
    ensures link { Counts (L.faults link.old) (L.faults link.new) (result ≡ ServeEnd.LinkFault) }
    ensures write { Counts (K.faults sink.old) (K.faults sink.new)
        (result ≡ ServeEnd.WriteFault) }
    ensures sends { L.send_faults link.old ≤ L.send_faults link.new }
{
    let mut room = Room::new(alloc, gateway.room());
    let mut counters = Counters { turns: 0, posts: 0 };
    let mut page = begin(&gateway, ticker);
    for _ in 0..turns {
        if let Err(end) = turn(
            &mut gateway,
            &mut room,
            &mut counters,
            &mut page,
            sink,
            link,
            ticker,
        ) {
            return end;
        }
    }
    ServeEnd::Done
}
