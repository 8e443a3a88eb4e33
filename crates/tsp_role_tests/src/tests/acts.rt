//! Acts as lines of a trace.

use tsp_base::act::{Act, Placed};
use tsp_script::acts::append_act;
use tsp_script::text::Text;

/// Whether an act has this text in a trace, where each posted datagram has the number 0.
fn is_told(act: &Act, text: &str) -> bool {
    let mut told = Text::new();
    append_act(&mut told, 0, act);
    told.as_slice() == text.as_bytes()
}

/// Whether these acts have these texts in a trace, one each.
pub(crate) fn are_told(acts: &[Placed], texts: &[&str]) -> bool {
    if acts.len() != texts.len() {
        return false;
    }
    for (placed, text) in acts.iter().zip(texts) {
        if !is_told(&placed.act, text) {
            return false;
        }
    }
    true
}
