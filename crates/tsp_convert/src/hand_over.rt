//! The output of a line.
ghost use Rattle.std.specs.Prelude.{◌≡◌, ◌≢◌, ℕ, ◌≤◌, ◌<◌, [], length, OnOk, OnErr, IfErr, Err};
ghost use Rattle.tsp_io.specs.Counts.{Rose};
ghost use Rattle.tsp_lines.specs.Meanings.{stop_of};
ghost use Rattle.tsp_lines.specs.Outputs.{Hands};
ghost use Rattle.tsp_lines.specs.declared.output.Unwritten.{Unwritten};

use tsp_io::sink::Sink;
use tsp_lines::output::Output;
use tsp_lines::treatment::Stop;

/// Puts the output of a line into `output`, and nothing of it where that fails.
pub(crate) fn hand_over<K: Sink>(text: &[u8], output: &mut Output, sink: &mut K) -> Result<(), Stop>
    requires { length text.now ≤ 1024 }
    ensures later { K.faults sink.old ≤ K.faults sink.new }
    ensures stop { IfErr result (λ stop. (fault : Unwritten) × (stop ≡ stop_of fault)) }
    ensures ok { OnOk result (Hands (K.written sink.old) output.old (K.written sink.new) output.new
        text.now) }
    ensures err { OnErr result (Hands (K.written sink.old) output.old (K.written sink.new)
        output.new []) }
    ensures cause { result ≡ Err Stop.WriteFault → Rose (K.faults sink.old) (K.faults sink.new)
        × (0 < length output.new) }
    ensures still { result ≢ Err Stop.WriteFault → K.faults sink.new ≡ K.faults sink.old }
{
    match output.put(sink, text) {
        Ok(()) => Ok(()),
        Err(fault) => Err(Stop::from(fault)),
    }
}
