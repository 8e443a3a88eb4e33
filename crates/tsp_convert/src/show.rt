//! Hexadecimal lines to message lines.
ghost use Rattle.std.specs.Prelude.{◌≡◌, ℕ, List, ◌≤◌, ◌<◌, ◌+◌, length, ⊤, MatchResult};
ghost use Rattle.arrayvec.specs.ArrayVec.{array_vec_len};
ghost use Rattle.tsp_io.specs.Counts.{Rose};
ghost use Rattle.tsp_base.specs.declared.datagram.Datagram.{Datagram};
ghost use Rattle.tsp_lines.specs.Lines.{NoFeed, close};
ghost use Rattle.tsp_lines.specs.Meanings.{Goes, StopsAt, Closes, StopsAtEnd};
ghost use Rattle.tsp_script.specs.Texts.{message_text};
ghost use Rattle.tsp_convert.specs.Shows.{IsHexLineOf, RefusesHex, show_meaning};

use crate::hand_over::hand_over;
use tsp_codec::decode;
use tsp_io::sink::Sink;
use tsp_lines::cause::Cause;
use tsp_lines::output::Output;
use tsp_lines::treatment::{Stop, Treatment};
use tsp_script::acts::fault_word;
use tsp_script::messages::append_datagram;
use tsp_script::numbers::{append, octets_in};
use tsp_script::text::Text;

/// Writes the message line of the datagram that a line is in hexadecimal, with a line feed. `buffer` gets
/// its octets.
fn shown(line: &[u8], buffer: &mut [u8; 512], text: &mut Text) -> Result<(), Cause>
    requires { length line.now ≤ 1024 }
    ensures { MatchResult result
        (λ _. (d : Datagram) × IsHexLineOf line.now d × (text.new.items ≡ close (message_text d)))
        (λ cause. RefusesHex line.now cause) }
{
    let Some(count) = octets_in(line, buffer) else {
        return Err(Cause::of(b"hex"));
    };
    match decode(&buffer[..count]) {
        Ok(datagram) => {
            text.clear();
            append_datagram(text, &datagram);
            append(text, b"\n");
            Ok(())
        }
        Err(fault) => Err(Cause::of(fault_word(fault))),
    }
}

/// The command `show`: takes lines of hexadecimal, in either case, and gives the message line of each
/// one's datagram.
///
/// A line is refused with the cause `hex` where it isn't pairs of hexadecimal digits or has more than
/// 1,024 octets, and else with the word of its octets' fault.
///
/// The buffers for a line's octets and its text are here, so that they aren't made anew for each line.
#[derive(Drop)]
pub(crate) struct Show {
    octets: [u8; 512],
    text: Text,
}

impl Show {
    /// Before the first line.
    pub(crate) fn new() -> Show {
        Show {
            octets: [0; 512],
            text: Text::new(),
        }
    }
}

impl Treatment for Show {
    ghost meaning = { show_meaning };

    ghost stands = { λ _ _. ⊤ };

    fn is_full(&self) -> bool {
        false
    }

    fn treat<K: Sink>(&mut self, line: &[u8], out: &mut Output, sink: &mut K) -> Result<(), Stop> {
        match shown(line, &mut self.octets, &mut self.text) {
            Ok(()) => hand_over(self.text.as_slice(), out, sink),
            Err(cause) => Err(Stop::Bad(cause)),
        }
    }

    fn refuse_long(&mut self, _start: &[u8]) -> Cause {
        Cause::of(b"hex")
    }

    fn end<K: Sink>(&mut self, _output: &mut Output, _sink: &mut K) -> Result<(), Stop> {
        Ok(())
    }
}
