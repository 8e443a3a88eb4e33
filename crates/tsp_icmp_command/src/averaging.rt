//! The averaging of exchanges as a treatment of lines.
ghost use Rattle.std.specs.Prelude.{◌≡◌};
ghost use Rattle.tsp_icmp_command.specs.Findings.{IsNearDay};
ghost use Rattle.tsp_icmp_command.specs.Bests.{difference_in};

use crate::best::Best;
use crate::exchange::{Exchange, exchange_of};
use crate::finding::{Finding, finding_line, finding_of};
use crate::summary::tell_summary;
use crate::tally::{Tally, group_in};
use std::alloc::Global;
use tsp_base::name::Name;
use tsp_io::sink::Sink;
use tsp_lines::cause::Cause;
use tsp_lines::output::Output;
use tsp_lines::treatment::{Stop, Treatment};

/// The command `icmp`: takes lines of exchanges, gives a line for each, and at the end the group of clocks
/// that agree and the corrections to its mean.
#[derive(Drop)]
pub(crate) struct Averaging {
    alloc: Global,
    tally: Tally,
}

impl Averaging {
    ghost use Rattle.std.specs.Prelude.{◌≡◌, []};

    /// Before the first line. Takes no memory.
    pub(crate) fn new(alloc: Global) -> Averaging
        ensures { result.tally ≡ record { bests = []; left = 1000 } }
    {
        Averaging {
            alloc,
            tally: Tally::new(alloc),
        }
    }
}

/// The difference that a finding gives, if it gives one.
fn difference_in(name: Name, finding: Finding) -> Option<Best>
    requires { IsNearDay finding }
    ensures { result ≡ difference_in name finding }
{
    match finding {
        Finding::Apart(apart) => Some(Best::new(name, apart.diff, apart.trip)),
        _ => None,
    }
}

impl Averaging {
    ghost use Rattle.std.specs.Prelude.{◌≡◌, ◌≢◌, ◌<◌, ◌≤◌, [], length, OnOk, OnErr, IfErr, Err};
    ghost use Rattle.tsp_io.specs.Counts.{Rose};
    ghost use Rattle.tsp_lines.specs.Lines.{close};
    ghost use Rattle.tsp_lines.specs.Meanings.{stop_of};
    ghost use Rattle.tsp_lines.specs.Outputs.{Hands};
    ghost use Rattle.tsp_lines.specs.declared.output.Unwritten.{Unwritten};
    ghost use Rattle.tsp_icmp_command.specs.Bests.{tally_with};
    ghost use Rattle.tsp_icmp_command.specs.Meaning.{exchange_line};

    /// Takes the exchange of a line, and gives its output line.
    fn take<K: Sink>(
        &mut self,
        exchange: Exchange,
        output: &mut Output,
        sink: &mut K,
    ) -> Result<(), Stop>
        requires room { 0 < self.old.tally.left }
        requires arrival { exchange.arrival < 86400000 }
        ensures taken { OnOk result (self.new.tally ≡ tally_with self.old.tally exchange) }
        ensures stop { IfErr result (λ stop. (fault : Unwritten) × (stop ≡ stop_of fault)) }
        ensures later { K.faults sink.old ≤ K.faults sink.new }
        ensures ok { OnOk result (Hands (K.written sink.old) output.old (K.written sink.new)
            output.new (close (exchange_line exchange))) }
        ensures err { OnErr result (Hands (K.written sink.old) output.old (K.written sink.new)
            output.new []) }
        ensures cause { result ≡ Err Stop.WriteFault → Rose (K.faults sink.old) (K.faults sink.new)
            × (0 < length output.new) }
        ensures still { result ≢ Err Stop.WriteFault → K.faults sink.new ≡ K.faults sink.old }
    {
        let finding = finding_of(&exchange);
        let text = finding_line(&exchange.name, &finding);
        let Ok(()) = self.tally.take(difference_in(exchange.name, finding)) else {
            return Err(Stop::OutOfMemory);
        };
        match output.put(sink, text.as_slice()) {
            Ok(()) => Ok(()),
            Err(fault) => Err(Stop::from(fault)),
        }
    }
}

impl Treatment for Averaging {
    ghost use Rattle.tsp_icmp_command.specs.Meaning.{averaging, TallyStands};

    ghost meaning = { averaging };

    ghost stands = { λ a lines. TallyStands a.tally lines };

    fn is_full(&self) -> bool {
        self.tally.is_full()
    }

    fn treat<K: Sink>(&mut self, line: &[u8], out: &mut Output, sink: &mut K) -> Result<(), Stop> {
        if self.tally.is_full() {
            return Err(Stop::Limit);
        }
        match exchange_of(line) {
            Ok(exchange) => self.take(exchange, out, sink),
            Err(cause) => Err(Stop::Bad(cause)),
        }
    }

    fn refuse_long(&mut self, _start: &[u8]) -> Cause {
        Cause::of(b"record")
    }

    fn end<K: Sink>(&mut self, output: &mut Output, sink: &mut K) -> Result<(), Stop> {
        let bests = self.tally.bests();
        let Ok(group) = group_in(self.alloc, bests) else {
            return Err(Stop::OutOfMemory);
        };
        match tell_summary(&group, bests, output, sink) {
            Ok(()) => Ok(()),
            Err(fault) => Err(Stop::from(fault)),
        }
    }
}
