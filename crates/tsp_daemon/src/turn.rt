//! A turn of the daemon.
ghost use Rattle.std.specs.Prelude.{◌≡◌, ℕ, ◌≤◌, ◌<◌, ◌+◌, ◌^◌, length, IfErr, IfOk, List, MatchResult, OnOk, Err};
ghost use Rattle.std.specs.Prelude.{None, Some};
ghost use Rattle.tsp_io.specs.Boards.{Mark};
ghost use Rattle.tsp_io.specs.Streams.{Grows};
ghost use Rattle.tsp_gateway.specs.GatewayStands.{clock_at};
ghost use Rattle.tsp_gateway.specs.Rooms.{ports_in, room_of_ports};
ghost use Rattle.tsp_query.specs.Faults.{Counts};
ghost use Rattle.tsp_query.specs.Outside.{paged};
ghost use Rattle.tsp_query.specs.Told.{HoldsOf, KeepsOn};
ghost use Rattle.tsp_daemon.specs.Ends.{IsAt, Lives, EndsTurn, FinishesUntil, OnlySends, TriesAll};
ghost use Rattle.tsp_daemon.specs.Pages.{AreReads, EndsMarks, LeavesSheet, Sheet, marks_in_turn};
ghost use Rattle.tsp_daemon.specs.Pages.{sheet_in_turn};
ghost use Rattle.tsp_daemon.specs.Posts.{AreKnown, sends_of, shown_lines};
ghost use Rattle.tsp_daemon.specs.Sessions.{Session, turned};
ghost use Rattle.tsp_daemon.specs.Waits.{NotesTurn, NotesWait};

use crate::counters::Counters;
use crate::end::ServeEnd;
use crate::lines::{is_shown, tell};
use crate::page::{Page, show};
use crate::room::Room;
use crate::sends::send_all;
use crate::step::{make_room, step};
use crate::wait::wait_until;
use tsp_base::act::Placed;
use tsp_gateway::Gateway;
use tsp_io::link::{Link, Recv};
use tsp_io::sink::Sink;
use tsp_io::ticker::Ticker;

/// Tries the sends of the acts of a turn, and then writes their lines, if they are to be shown. Says how
/// many sends these were. Fails if a write fails, or if out of memory.
fn finish<K: Sink, L: Link>(
    shown: bool,
    counters: &Counters,
    tick: u64,
    acts: &[Placed],
    sink: &mut K,
    link: &mut L,
) -> Result<u64, ServeEnd>
    requires known { AreKnown (L.stranger link.old) acts.now }
    requires few { counters.now.posts + length acts.now < 2 ^ 64 }
    requires turns { counters.now.turns + 1 < 2 ^ 64 }
    ensures ok { OnOk result (TriesAll (sends_of acts.now) (L.tried link.old) (L.tried link.new)
        × Grows (K.written sink.old) (K.written sink.new) (shown_lines shown (counters.now.turns + 1)
        tick counters.now.posts acts.now)) }
    ensures posts { IfOk result (λ posts. posts ≡ length (sends_of acts.now)) }
    ensures few { IfOk result (λ posts. posts ≤ length acts.now) }
    ensures err { IfErr result (FinishesUntil (sends_of acts.now)
        (shown_lines shown (counters.now.turns + 1) tick counters.now.posts acts.now) (L.tried link.old)
        (L.tried link.new) (K.written sink.old) (K.written sink.new)) }
    ensures only { OnlySends L.Link link.old link.new }
    ensures write { Counts (K.faults sink.old) (K.faults sink.new)
        (result ≡ Err ServeEnd.WriteFault) }
{
    let Ok(posts) = send_all(link, acts) else {
        return Err(ServeEnd::OutOfMemory);
    };
    if shown {
        tell(sink, counters.turns + 1, tick, counters.posts, acts)?;
    }
    Ok(posts)
}

/// A turn: reads the tick, waits for a datagram, reads the tick again, and lets the node step; writes
/// on the page what that changes; then tries its sends, and writes the lines of a traced step. Fails if
/// the receive or a write fails, or if out of memory: that ends the session. What the room held is lost.
pub(crate) fn turn<K: Sink, L: Link, T: Ticker>(
    node: &mut Gateway,
    room: &mut Room,
    counters: &mut Counters,
    page: &mut Option<Page>,
    sink: &mut K,
    link: &mut L,
    ticker: &mut T,
) -> Result<(), ServeEnd>
    requires lives { Lives node.old }
    requires size { room.old.acts ≡ room_of_ports (ports_in node.old) }
    requires later { clock_at node.old ≤ T.last ticker.old }
    requires few { counters.old.posts + room_of_ports (ports_in node.old) < 2 ^ 64 }
    requires turns { counters.old.turns + 1 < 2 ^ 64 }
    ensures turns { (s : Session)
        → HoldsOf L.Link T.Ticker (IsAt s node.old counters.old) link.old ticker.old
        (K.written sink.old)
        → MatchResult result (λ _. HoldsOf L.Link T.Ticker (IsAt (turned s) node.new counters.new)
        link.new ticker.new (K.written sink.new)) (HoldsOf L.Link T.Ticker (EndsTurn s) link.new
        ticker.new (K.written sink.new)) }
    ensures waits { (s : Session)
        → HoldsOf L.Link T.Ticker (IsAt s node.old counters.old) link.old ticker.old
        (K.written sink.old)
        → MatchResult result (λ _. NotesWait s (L.waits link.old) (L.waits link.new))
        (NotesTurn s (L.waits link.old) (L.waits link.new)) }
    ensures marks { (left : List Mark) → AreReads left (T.views ticker.new) → (views : List Mark)
        × AreReads views (T.views ticker.old)
        × ((s : Session) (delay : ℕ) (sheet : Sheet)
        → HoldsOf L.Link T.Ticker (IsAt s node.old counters.old) link.old ticker.old
        (K.written sink.old) → T.delay_is ticker.old ≡ Some delay
        → T.origin_is ticker.old ≡ Some sheet.origin → page.old ≡ sheet.page
        → sheet.views ≡ views
        → MatchResult result (λ _. (page.new ≡ (sheet_in_turn delay s sheet).page)
        × ((sheet_in_turn delay s sheet).views ≡ left)
        × LeavesSheet (sheet_in_turn delay s sheet) (marks_in_turn delay s sheet)
        (paged T.Ticker ticker.old) (paged T.Ticker ticker.new)) (EndsMarks delay s sheet
        (L.calls link.new) (paged T.Ticker ticker.old) (paged T.Ticker ticker.new))) }
    ensures alone { page.old ≡ None → OnOk result (page.new ≡ None)
        × (T.origin_is ticker.new ≡ T.origin_is ticker.old)
        × (T.views ticker.new ≡ T.views ticker.old) }
    ensures keeps { KeepsOn L.Link T.Ticker link.old ticker.old link.new ticker.new }
    ensures board { (T.boarded ticker.new ≡ T.boarded ticker.old)
        × (T.delay_is ticker.new ≡ T.delay_is ticker.old) }
    ensures lives { OnOk result (Lives node.new) }
    ensures clock { OnOk result (clock_at node.new ≤ T.last ticker.new) }
    ensures counts { OnOk result ((counters.new.turns ≡ counters.old.turns + 1)
        × (counters.new.posts ≤ counters.old.posts + room_of_ports (ports_in node.old))) }
    ensures ports { OnOk result (ports_in node.new ≡ ports_in node.old) }
    ensures size { room.new.acts ≡ room.old.acts }
    ensures link { Counts (L.faults link.old) (L.faults link.new)
        (result ≡ Err ServeEnd.LinkFault) }
    ensures write { Counts (K.faults sink.old) (K.faults sink.new)
        (result ≡ Err ServeEnd.WriteFault) }
    ensures sends { L.send_faults link.old ≤ L.send_faults link.new }
{
    if make_room(&mut room.pad, room.acts).is_err() {
        return Err(ServeEnd::OutOfMemory);
    }
    let first = ticker.tick();
    let received = link.recv(&mut room.buf, wait_until(node.due(), first));
    if let Recv::Failed = received {
        return Err(ServeEnd::LinkFault);
    }
    let tick = ticker.tick();
    let before = node.tracing();
    step(node, tick, received, &room.buf, &mut room.pad);
    let shown = is_shown(before, node.tracing());
    let acts = room.pad.acts();
    show(page, node, tick, acts, ticker);
    let posts = match finish(shown, counters, tick, acts, sink, link) {
        Ok(posts) => posts,
        Err(end) => return Err(end),
    };
    counters.turns += 1;
    counters.posts += posts;
    Ok(())
}
