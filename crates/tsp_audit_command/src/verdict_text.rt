//! The text of a verdict.
ghost use Rattle.std.specs.Prelude.{◌≡◌, ◌≢◌, ◌≤◌, ◌<◌, length, OnOk, OnErr, IfErr, [], Err};
ghost use Rattle.tsp_audit_command.specs.Texts.{verdict_text};
ghost use Rattle.tsp_io.specs.Counts.{Rose};
ghost use Rattle.tsp_lines.specs.Meanings.{stop_of};
ghost use Rattle.tsp_lines.specs.Outputs.{Hands};
ghost use Rattle.tsp_lines.specs.declared.output.Unwritten.{Unwritten};

use tsp_audit::verdict::Failure;
use tsp_io::sink::Sink;
use tsp_lines::output::Output;
use tsp_lines::treatment::Stop;
use tsp_script::numbers::{append, append_number};
use tsp_script::text::Text;

/// `fails Dn E` with the numbers of this failure's part and event, or `holds` where there is none; with a line feed.
fn text_of(found: Option<Failure>) -> Text
    ensures { result.items ≡ verdict_text found }
{
    let mut text = Text::new();
    match found {
        None => append(&mut text, b"holds\n"),
        Some(failure) => {
            append(&mut text, b"fails D");
            append_number(&mut text, failure.part as u64);
            append(&mut text, b" ");
            append_number(&mut text, failure.event);
            append(&mut text, b"\n");
        }
    }
    text
}

/// Puts the verdict into `output`, which writes to the sink what it has no room for. `WriteFault` where that write
/// fails; else fails only if out of memory. After a fault nothing of the verdict was put.
pub(crate) fn tell<K: Sink>(
    found: Option<Failure>,
    output: &mut Output,
    sink: &mut K,
) -> Result<(), Stop>
    ensures ok { OnOk result (Hands (K.written sink.old) output.old (K.written sink.new) output.new
        (verdict_text found)) }
    ensures err { OnErr result (Hands (K.written sink.old) output.old (K.written sink.new)
        output.new []) }
    ensures stop { IfErr result (λ stop. (fault : Unwritten) × (stop ≡ stop_of fault)) }
    ensures later { K.faults sink.old ≤ K.faults sink.new }
    ensures cause { result ≡ Err Stop.WriteFault → Rose (K.faults sink.old) (K.faults sink.new)
        × (0 < length output.new) }
    ensures still { result ≢ Err Stop.WriteFault → K.faults sink.new ≡ K.faults sink.old }
{
    match output.put(sink, text_of(found).as_slice()) {
        Ok(()) => Ok(()),
        Err(fault) => Err(Stop::from(fault)),
    }
}
