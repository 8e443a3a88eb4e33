//! Message lines to hexadecimal lines.
ghost use Rattle.std.specs.Prelude.{◌≡◌, ℕ, List, ◌≤◌, ◌<◌, ◌+◌, length, take, ⊤, MatchResult};
ghost use Rattle.hex.specs.Hex.{encode_lower};
ghost use Rattle.tsp_io.specs.Counts.{Rose};
ghost use Rattle.tsp_codec.specs.Canon.{canon};
ghost use Rattle.tsp_base.specs.declared.datagram.Datagram.{Datagram};
ghost use Rattle.tsp_lines.specs.Lines.{NoFeed, close};
ghost use Rattle.tsp_lines.specs.Meanings.{Goes, StopsAt, Closes, StopsAtEnd};
ghost use Rattle.tsp_convert.specs.Packs.{IsLineOf, RefusesMessage, pack_meaning};

use crate::hand_over::hand_over;
use tsp_codec::encode;
use tsp_io::sink::Sink;
use tsp_lines::cause::Cause;
use tsp_lines::output::Output;
use tsp_lines::treatment::{Stop, Treatment};
use tsp_script::message_reader::message_of;

/// Writes the octets of a message line's datagram to the front of a buffer, in hexadecimal and with a
/// line feed, and gives the length of that text.
fn packed(line: &[u8], text: &mut [u8; 1024]) -> Result<usize, Cause>
    ensures { MatchResult result (λ n. (n ≤ 1024) × ((d : Datagram) × IsLineOf line.now d
        × (take n text.new ≡ close (encode_lower (canon d))))) (λ cause. RefusesMessage line.now
        cause) }
{
    match message_of(line) {
        Ok(datagram) => Ok(digits_of(encode(&datagram).as_slice(), text)),
        Err(_) => Err(Cause::of(b"message")),
    }
}

/// Writes octets to the front of a buffer, in hexadecimal and with a line feed, and gives the length of
/// that text.
fn digits_of(octets: &[u8], text: &mut [u8; 1024]) -> usize
    requires { length octets.now ≤ 268 }
    ensures short { result ≤ 1024 }
    ensures text { take result text.new ≡ close (encode_lower octets.now) }
{
    let count = octets.len() * 2;
    let _ = hex::encode_to_slice(octets, &mut text[..count]);
    text[count] = b'\n';
    count + 1
}

/// The command `pack`: takes message lines, and gives the octets of each one's datagram in hexadecimal, in
/// lower case.
///
/// A line is refused with the cause `message` where no datagram is written as this line.
///
/// The buffer for a line's text is here, so that it isn't made anew for each line.
#[derive(Drop)]
pub(crate) struct Pack {
    text: [u8; 1024],
}

impl Pack {
    /// Before the first line.
    pub(crate) fn new() -> Pack {
        Pack { text: [0; 1024] }
    }
}

impl Treatment for Pack {
    ghost meaning = { pack_meaning };

    ghost stands = { λ _ _. ⊤ };

    fn is_full(&self) -> bool {
        false
    }

    fn treat<K: Sink>(&mut self, line: &[u8], out: &mut Output, sink: &mut K) -> Result<(), Stop> {
        match packed(line, &mut self.text) {
            Ok(count) => hand_over(&self.text[..count], out, sink),
            Err(cause) => Err(Stop::Bad(cause)),
        }
    }

    fn refuse_long(&mut self, _start: &[u8]) -> Cause {
        Cause::of(b"message")
    }

    fn end<K: Sink>(&mut self, _output: &mut Output, _sink: &mut K) -> Result<(), Stop> {
        Ok(())
    }
}
