//! The text of a line of the trace. What it begins with is kept for a next line that begins alike.
ghost use Rattle.std.specs.Prelude.{◌≡◌, ◌≤◌, ◌+◌, ◌++◌, true, length};
ghost use Rattle.arrayvec.specs.ArrayVec.{array_vec_len};
ghost use Rattle.tsp_script.specs.Traces.{trace_text};
ghost use Rattle.tsp_replay.specs.LineTexts.{BeginsWith, beginning_text, beginning_of};
ghost use Rattle.tsp_replay.specs.Traces.{number_in};

use tsp_base::place::Port;
use tsp_run::line::Line;
use tsp_script::acts::append_act;
use tsp_script::text::Text;
use tsp_script::trace::append_beginning;

/// What a line has before its act. The lines of an event mostly have the same.
#[derive(Clone, Copy)]
struct Beginning {
    event: u64,
    node: u32,
    port: Port,
    tick: u64,
}

/// What a line has before its act.
fn beginning_of(line: &Line) -> Beginning
    ensures { result ≡ beginning_of line.now }
{
    Beginning {
        event: line.event,
        node: line.node,
        port: line.placed.port,
        tick: line.tick,
    }
}

/// Whether two lines begin alike.
fn is_same(one: Beginning, other: Beginning) -> bool
    ensures { result ≡ true → one ≡ other }
{
    one.event == other.event
        && one.tick == other.tick
        && one.node == other.node
        && one.port.0 == other.port.0
}

/// The number of a post; 0 for other acts.
fn number_in(number: Option<u64>) -> u64
    ensures { result ≡ number_in number }
{
    match number {
        Some(k) => k,
        None => 0,
    }
}

/// The text of a line, without a line end.
#[derive(Drop)]
pub(crate) struct LineText {
    text: Text,
    /// What the text begins with.
    beginning: Beginning,
    /// How long that is in the text.
    len: usize,
    ghost begins: { BeginsWith text.items beginning len },
}

impl LineText {
    /// A text before its first line: what a line begins with whose numbers are all 0.
    pub(crate) fn new() -> LineText {
        let beginning = Beginning {
            event: 0,
            node: 0,
            port: Port(0),
            tick: 0,
        };
        let mut text = Text::new();
        append_beginning(&mut text, 0, 0, Port(0), 0);
        let len = text.len();
        LineText {
            text,
            beginning,
            len,
        }
    }

    /// Makes this all of the text.
    fn begin(&mut self, beginning: Beginning)
        ensures text { self.new.text.items ≡ beginning_text beginning }
        ensures is { self.new.beginning ≡ beginning }
        ensures short { array_vec_len self.new.text ≤ 84 }
    {
        if is_same(beginning, self.beginning) {
            self.text.truncate(self.len);
        } else {
            self.begin_anew(beginning);
        }
    }

    /// The same where the text begins with something else.
    fn begin_anew(&mut self, beginning: Beginning)
        ensures text { self.new.text.items ≡ beginning_text beginning }
        ensures is { self.new.beginning ≡ beginning }
        ensures short { array_vec_len self.new.text ≤ 84 }
    {
        self.text.clear();
        let Beginning {
            event,
            node,
            port,
            tick,
        } = beginning;
        append_beginning(&mut self.text, event, node, port, tick);
        self.beginning = beginning;
        self.len = self.text.len();
    }

    /// Makes it the text of a line.
    pub(crate) fn write(&mut self, line: &Line)
        ensures { self.new.text.items ≡ trace_text line.now.event line.now.node line.now.tick
            (number_in line.now.number) line.now.placed }
    {
        self.begin(beginning_of(line));
        append_act(&mut self.text, number_in(line.number), &line.placed.act);
    }

    /// The octets.
    pub(crate) fn octets(&self) -> &[u8]
        ensures value { result.now ≡ self.now.text.items }
        ensures short { length result.now ≤ 1024 }
    {
        self.text.as_slice()
    }
}
