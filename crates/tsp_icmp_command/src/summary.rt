//! The lines of a group, and of the corrections to its mean.
ghost use Rattle.std.specs.Prelude.{◌≡◌, ◌≢◌, ℕ, ◌≤◌, ◌<◌, ◌++◌, List, length, flat_map, OnOk, OnErr};
ghost use Rattle.tsp_icmp_command.specs.Bests.{group_line, correct_line, corrections, summary_of};
ghost use Rattle.arrayvec.specs.ArrayVec.{array_vec_len};
ghost use Rattle.tsp_group.specs.Groups.{mean_of, HasMean};
ghost use Rattle.tsp_group.specs.Values.{IsNear};
ghost use Rattle.tsp_io.specs.Counts.{Rose};
ghost use Rattle.tsp_lines.specs.Lines.{close};
ghost use Rattle.tsp_lines.specs.Outputs.{Hands};

use crate::best::Best;
use tsp_group::{Group, correction, mean};
use tsp_io::sink::Sink;
use tsp_lines::output::{Output, Unwritten};
use tsp_script::numbers::{append, append_next_signed, append_number};
use tsp_script::text::Text;

/// The line of a group with this mean, with its line feed.
fn group_line(group: &Group, mean: i64) -> Text
    requires { mean ≡ mean_of group.now }
    ensures text { result.items ≡ close (group_line group.now) }
    ensures short { array_vec_len result ≤ 1024 }
{
    let mut text = Text::new();
    append(&mut text, b"group ");
    append_number(&mut text, u64::from(group.count));
    append_next_signed(&mut text, group.lo);
    append_next_signed(&mut text, group.width);
    append_next_signed(&mut text, mean);
    append(&mut text, b"\n");
    text
}

/// The line of the correction that takes a clock to the mean, with its line feed.
fn correct_line(mean: i64, best: &Best) -> Text
    requires { IsNear mean }
    ensures text { result.items ≡ close (correct_line mean best.now) }
    ensures short { array_vec_len result ≤ 1024 }
{
    let mut text = Text::new();
    append(&mut text, b"correct ");
    append(&mut text, best.name().octets());
    append_next_signed(&mut text, correction(mean, best.micros()));
    append(&mut text, b"\n");
    text
}

/// Puts the lines of the corrections into `output`; where it fails, the beginning of them.
fn tell_corrections<K: Sink>(
    mean: i64,
    bests: &[Best],
    output: &mut Output,
    sink: &mut K,
) -> Result<(), Unwritten>
    requires { IsNear mean }
    ensures later { K.faults sink.old ≤ K.faults sink.new }
    ensures ok { OnOk result (Hands (K.written sink.old) output.old (K.written sink.new) output.new
        (corrections mean bests.now)) }
    ensures err { OnErr result ((part : List ℕ) × (rest : List ℕ)
        × (corrections mean bests.now ≡ part ++ rest) × Hands (K.written sink.old) output.old
        (K.written sink.new) output.new part) }
    ensures cause { result ≡ Err Unwritten.WriteFault → Rose (K.faults sink.old) (K.faults sink.new)
        × (0 < length output.new) }
    ensures still { result ≢ Err Unwritten.WriteFault → K.faults sink.new ≡ K.faults sink.old }
{
    for best in bests {
        output.put(sink, correct_line(mean, best).as_slice())?;
    }
    Ok(())
}

/// Puts the lines of a group and of the corrections to its mean into `output`; where it fails, the beginning of
/// them.
pub(crate) fn tell_summary<K: Sink>(
    group: &Group,
    bests: &[Best],
    output: &mut Output,
    sink: &mut K,
) -> Result<(), Unwritten>
    requires mean { HasMean group.now }
    requires near { IsNear (mean_of group.now) }
    ensures later { K.faults sink.old ≤ K.faults sink.new }
    ensures ok { OnOk result (Hands (K.written sink.old) output.old (K.written sink.new) output.new
        (summary_of group.now bests.now)) }
    ensures err { OnErr result ((part : List ℕ) × (rest : List ℕ)
        × (summary_of group.now bests.now ≡ part ++ rest) × Hands (K.written sink.old) output.old
        (K.written sink.new) output.new part) }
    ensures cause { result ≡ Err Unwritten.WriteFault → Rose (K.faults sink.old) (K.faults sink.new)
        × (0 < length output.new) }
    ensures still { result ≢ Err Unwritten.WriteFault → K.faults sink.new ≡ K.faults sink.old }
{
    let mean = mean(group);
    output.put(sink, group_line(group, mean).as_slice())?;
    tell_corrections(mean, bests, output, sink)
}
