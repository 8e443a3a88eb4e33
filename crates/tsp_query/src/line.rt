//! The line that says how a question ended.
ghost use Rattle.std.specs.Prelude.{◌≡◌, ◌≤◌, length};
ghost use Rattle.tsp_query.specs.Lines.{master_line, diff_line, heard_line, date_line, end_line};

use crate::query::QueryEnd;
use tsp_args::query::Query;
use tsp_base::name::Name;
use tsp_script::names::append_name;
use tsp_script::numbers::{append, append_next_signed, append_signed};
use tsp_script::text::Text;

/// A copy of a text.
fn text_of(text: &[u8]) -> Text
    requires { length text.now ≤ 1024 }
    ensures { result.items ≡ text.now }
{
    let mut line = Text::new();
    append(&mut line, text);
    line
}

/// The line of the master's name; `no master` for the empty name.
fn master_line(name: &Name) -> Text
    ensures { result.items ≡ master_line name.now }
{
    if name.octets().is_empty() {
        return text_of(b"no master\n");
    }
    let mut line = Text::new();
    append(&mut line, b"master ");
    append_name(&mut line, name);
    append(&mut line, b"\n");
    line
}

/// The line of how far the daemon's clock is ahead, and by how much that may be wrong, in
/// microseconds.
fn diff_line(diff: i64, err: i64) -> Text
    ensures { result.items ≡ diff_line diff err }
{
    let mut line = Text::new();
    append(&mut line, b"clockdiff ");
    append_signed(&mut line, diff);
    append_next_signed(&mut line, err);
    append(&mut line, b"\n");
    line
}

/// The line of a question to which every answer means the same: the daemon has heard it.
fn heard_line(query: &Query) -> &'static [u8]
    ensures text { result.now ≡ heard_line query.now }
    ensures short { length result.now ≤ 1024 }
{
    match query {
        Query::Trace(true) => b"trace on\n",
        Query::Trace(false) => b"trace off\n",
        _ => b"election heard\n",
    }
}

/// The line of a date: it was set (true), or is passed on to the master (false).
fn date_line(set: bool) -> &'static [u8]
    ensures text { result.now ≡ date_line set }
    ensures short { length result.now ≤ 1024 }
{
    if set {
        b"date set\n"
    } else {
        b"date forwarded\n"
    }
}

/// The line that says how a question ended; empty if the link failed or memory ran out.
pub(crate) fn line_of(query: &Query, end: &QueryEnd) -> Text
    ensures { result.items ≡ end_line query.now end.now }
{
    match end {
        QueryEnd::Master(name) => master_line(name),
        QueryEnd::Diff(diff, err) => diff_line(*diff, *err),
        QueryEnd::Heard => text_of(heard_line(query)),
        QueryEnd::Date(set) => text_of(date_line(*set)),
        QueryEnd::NoAnswer => text_of(b"no answer\n"),
        QueryEnd::LinkFault => Text::new(),
        QueryEnd::OutOfMemory => Text::new(),
    }
}
