//! Reads lines of a trace.
ghost use Rattle.std.specs.Prelude.{◌≡◌, ◌≢◌, ℕ, ◌<◌, ◌^◌, Some, Ok, IfSome, IsSomeAnd, decimal};
ghost use Rattle.tsp_base.specs.declared.act.Act.{Act};
ghost use Rattle.tsp_script.specs.ActLines.{IsAct, IsSilent, IsNumberOf, SpellsTrace, ReadsTrace};
ghost use Rattle.tsp_script.specs.Traces.{act_text};
ghost use Rattle.tsp_script.specs.Verbs.{verb_of, rest_of_act, act_of_peer, IsSpelled};
ghost use Rattle.tsp_base.specs.declared.trace.Line2.{Line2};
ghost use Rattle.tsp_script.specs.declared.verbs.Verb.{Verb};

use crate::act_parts::{
    read_arm, read_become, read_close, read_correct, read_peer, read_post, read_sample, read_took,
    read_trace_act,
};
use crate::act_words::alarm_of;
use crate::line_fault::LineFault;
use crate::numbers::{front_long, front_number, octet_of};
use crate::verbs::Verb;
use crate::words::{front_word, is_same};
use tsp_base::act::{Act, Placed};
use tsp_base::place::{PeerId, Port};
use tsp_base::trace::Line2;

/// The act with this word that names a peer and nothing else.
fn peer_act(verb: Verb, peer: PeerId) -> Option<Act>
    ensures act { result ≡ act_of_peer verb peer }
    ensures found { peer.0 < 2 ^ 32 → IfSome result (IsSpelled verb (decimal peer.0)) }
{
    match verb {
        Verb::Back => Some(Act::Back(peer)),
        Verb::Backer => Some(Act::Backer(peer)),
        Verb::Quit => Some(Act::Quit(peer)),
        Verb::Join => Some(Act::Join(peer)),
        Verb::Leave => Some(Act::Leave(peer)),
        Verb::Rival => Some(Act::Rival(peer)),
        Verb::Acked => Some(Act::Acked(peer)),
        Verb::Gave => Some(Act::Gave(peer)),
        _ => None,
    }
}

/// The act whose text is one word.
fn read_lone(word: &[u8]) -> Option<Act>
    ensures found { IfSome result (λ a. word.now ≡ act_text 0 a) }
    ensures boot { word.now ≡ act_text 0 Act.Boot → result ≡ Some Act.Boot }
    ensures abandon { word.now ≡ act_text 0 Act.Abandon → result ≡ Some Act.Abandon }
    ensures range { IfSome result IsSilent }
{
    if is_same(word, b"boot") {
        return Some(Act::Boot);
    }
    if is_same(word, b"abandon") {
        Some(Act::Abandon)
    } else {
        None
    }
}

/// The act, no post, whose text is this word, a space, and then `rest`.
fn read_silent(verb: Verb, rest: &[u8]) -> Option<Act>
    ensures reads { (a : Act) → IsAct a → verb ≢ Verb.Post → verb ≢ Verb.Boot
        → verb ≢ Verb.Abandon → verb ≡ verb_of a → rest.now ≡ rest_of_act 0 a → result ≡ Some a }
    ensures found { IfSome result (IsSpelled verb rest.now) }
    ensures apart { IfSome result (λ _. (verb ≢ Verb.Boot) × (verb ≢ Verb.Abandon)) }
{
    match verb {
        Verb::Boot => None,
        Verb::Abandon => None,
        Verb::Post => None,
        Verb::Took => read_took(rest),
        Verb::Become => read_become(rest),
        Verb::Arm => read_arm(rest),
        Verb::Ring => Some(Act::Ring(alarm_of(rest)?)),
        Verb::Late => Some(Act::Late(alarm_of(rest)?)),
        Verb::Sample => read_sample(rest),
        Verb::Close => read_close(rest),
        Verb::Correct => read_correct(rest),
        Verb::Trace => read_trace_act(rest),
        _ => peer_act(verb, read_peer(rest)?),
    }
}

/// The number of a post's datagram, or 0, and the act whose text this is.
fn read_act(text: &[u8]) -> Option<(u64, Act)>
    ensures reads { (number : ℕ) (a : Act) → IsAct a → IsNumberOf a number
        → text.now ≡ act_text number a → IsSomeAnd result (λ r. (r.0 ≡ number) × (r.1 ≡ a)) }
    ensures found { IfSome result (λ r. text.now ≡ act_text r.0 r.1) }
    ensures range { IfSome result (λ r. IsAct r.1 × IsNumberOf r.1 r.0) }
{
    let Some((word, rest)) = front_word(text) else {
        return Some((0, read_lone(text)?));
    };
    match Verb::of_word(word)? {
        Verb::Post => read_post(rest),
        verb => Some((0, read_silent(verb, rest)?)),
    }
}

/// The values of a line.
fn read_line(line: &[u8]) -> Option<Line2>
    ensures found { IfSome result (SpellsTrace line.now) }
    ensures reads { (l : Line2) → SpellsTrace line.now l → result ≡ Some l }
{
    let (event, rest) = front_number(line)?;
    let (node, rest) = front_long(rest)?;
    let (port, rest) = front_number(rest)?;
    let port = octet_of(port)?;
    let (tick, rest) = front_number(rest)?;
    let (number, act) = read_act(rest)?;
    let placed = Placed {
        port: Port(port),
        act,
    };
    Some(Line2 {
        event,
        node,
        tick,
        number,
        placed,
    })
}

/// The values of a line of a trace; `Bad` exactly where no act is written as this line. `number` is 0 for
/// every act but a post.
pub fn act_of(line: &[u8]) -> Result<Line2, LineFault>
    ensures reads { ReadsTrace line.now result }
    ensures one { (l : Line2) → SpellsTrace line.now l → result ≡ Ok l }
{
    match read_line(line) {
        Some(read) => Ok(read),
        None => Err(LineFault::Bad),
    }
}
