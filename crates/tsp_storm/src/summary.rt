//! The line that sums a run up.
ghost use Rattle.std.specs.Prelude.{◌≡◌, ◌+◌, ◌≤◌, ◌++◌, length, decimal};
ghost use Rattle.arrayvec.specs.ArrayVec.{array_vec_len};
ghost use Rattle.tsp_storm.specs.Summaries.{summary_text};

use crate::counts::Counts;
use itoa::Buffer;
use tsp_script::numbers::append;
use tsp_script::text::Text;

/// What came of a run.
#[derive(Clone, Copy, PartialEq, Eq, Debug)]
pub struct Summary {
    /// How many events happened.
    pub events: u32,
    /// How many datagrams were posted.
    pub posted: u64,
    /// What else was counted.
    pub counts: Counts,
}

/// Writes words and a number.
fn append_count(out: &mut Text, words: &[u8], number: u128)
    requires few { length words.now ≤ 20 }
    requires room { array_vec_len out.old + 60 ≤ 1024 }
    ensures text { out.new.items ≡ (out.old.items ++ words.now) ++ decimal number }
    ensures short { array_vec_len out.new ≤ array_vec_len out.old + 60 }
{
    let mut buffer = Buffer::new();
    append(out, words);
    append(out, buffer.format(number).as_bytes());
}

impl Summary {
    /// The words of the summary, with their line feed.
    pub fn text(&self) -> Text
        ensures { result.items ≡ summary_text self.now.events self.now.posted self.now.counts.took
            self.now.counts.corrects self.now.counts.masters }
    {
        let mut out = Text::new();
        append_count(&mut out, b"events ", self.events as u128);
        append_count(&mut out, b" posted ", self.posted as u128);
        append_count(&mut out, b" took ", self.counts.took);
        append_count(&mut out, b" corrects ", self.counts.corrects);
        append_count(&mut out, b" masters ", self.counts.masters);
        append(&mut out, b"\n");
        out
    }
}
