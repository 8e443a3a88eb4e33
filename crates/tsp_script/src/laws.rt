//! Theorems about message lines: writing and reading undo each other. Nothing here runs in the program.
ghost use Rattle.std.specs.Prelude.{◌≡◌};
ghost use Rattle.tsp_script.specs.Texts.{message_text};

use crate::line_fault::LineFault;
use crate::message_reader::message_of;
use crate::messages::message_text;
use tsp_base::datagram::Datagram;

/// Writes a datagram and reads its line: the same datagram comes back.
pub fn comes_back(datagram: &Datagram) -> Result<Datagram, LineFault>
    ensures { result ≡ Ok datagram.now }
{
    message_of(message_text(datagram).as_slice())
}

/// Datagrams that are written as the same line are equal.
pub fn one_line_one_datagram(one: &Datagram, other: &Datagram)
    requires { message_text one.now ≡ message_text other.now }
    ensures { one.now ≡ other.now }
{
    let line = message_text(one);
    let _same = message_text(other);
    let _read = message_of(line.as_slice());
}
