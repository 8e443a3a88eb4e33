//! Lines of a trace.
ghost use Rattle.std.specs.Prelude.{◌≡◌, ◌+◌, ◌≤◌, ◌++◌, decimal};
ghost use Rattle.arrayvec.specs.ArrayVec.{array_vec_len};
ghost use Rattle.tsp_script.specs.Texts.{space};
ghost use Rattle.tsp_script.specs.Traces.{trace_text};

use crate::acts::append_act;
use crate::numbers::{append, append_next_number, append_number};
use crate::text::Text;
use arrayvec::ArrayVec;
use tsp_base::act::Placed;
use tsp_base::place::Port;
use tsp_base::trace::Line2;

/// The trace's line of an act, without a line end, in at most 1,024 octets.
pub fn act_text(line: &Line2) -> ArrayVec<u8, 1024>
    ensures { result.items ≡ trace_text line.now.event line.now.node line.now.tick line.now.number
        line.now.placed }
{
    placed_text(line.event, line.node, line.tick, line.number, &line.placed).array()
}

/// The same as `act_text`, of values that aren't in a `Line2`. `number` is used for a post alone.
pub fn placed_text(event: u64, node: u32, tick: u64, number: u64, placed: &Placed) -> Text
    ensures { result.items ≡ trace_text event node tick number placed.now }
{
    let mut out = Text::new();
    append_placed(&mut out, event, node, tick, number, placed);
    out
}

/// Writes the trace's line of an act, without a line end, in at most 949 octets. `number` is used for a
/// post alone.
pub fn append_placed(out: &mut Text, event: u64, node: u32, tick: u64, number: u64, placed: &Placed)
    requires { array_vec_len out.old + 949 ≤ 1024 }
    ensures { out.new.items ≡ out.old.items ++ trace_text event node tick number placed.now }
{
    append_beginning(out, event, node, placed.port, tick);
    append_act(out, number, &placed.act);
}

/// Writes what a line of the trace has before its act, in at most 84 octets.
pub fn append_beginning(out: &mut Text, event: u64, node: u32, port: Port, tick: u64)
    requires { array_vec_len out.old + 84 ≤ 1024 }
    ensures text { out.new.items ≡ out.old.items ++ (decimal event ++ space ++ decimal
        node ++ space ++ decimal port.0 ++ space ++ decimal tick ++ space) }
    ensures short { array_vec_len out.new ≤ array_vec_len out.old + 84 }
{
    append_number(out, event);
    append_next_number(out, node as u64);
    append_next_number(out, port.0 as u64);
    append_next_number(out, tick);
    append(out, b" ");
}
