//! The words that begin an act's text.
ghost use Rattle.std.specs.Prelude.{◌≡◌, Some, IfSome};
ghost use Rattle.tsp_script.specs.Verbs.{verb_word};
ghost use Rattle.tsp_script.specs.declared.verbs.Verb.{Verb};

use crate::words::is_same;

/// The word that an act's text begins with.
#[derive(Clone, Copy)]
pub enum Verb {
    /// `boot`
    Boot,
    /// `took`
    Took,
    /// `post`
    Post,
    /// `become`
    Become,
    /// `back`
    Back,
    /// `backer`
    Backer,
    /// `quit`
    Quit,
    /// `arm`
    Arm,
    /// `ring`
    Ring,
    /// `late`
    Late,
    /// `join`
    Join,
    /// `leave`
    Leave,
    /// `rival`
    Rival,
    /// `acked`
    Acked,
    /// `gave`
    Gave,
    /// `sample`
    Sample,
    /// `close`
    Close,
    /// `correct`
    Correct,
    /// `abandon`
    Abandon,
    /// `trace`
    Trace,
}

/// All these words.
const VERBS: [Verb; 20] = [
    Verb::Boot,
    Verb::Took,
    Verb::Post,
    Verb::Become,
    Verb::Back,
    Verb::Backer,
    Verb::Quit,
    Verb::Arm,
    Verb::Ring,
    Verb::Late,
    Verb::Join,
    Verb::Leave,
    Verb::Rival,
    Verb::Acked,
    Verb::Gave,
    Verb::Sample,
    Verb::Close,
    Verb::Correct,
    Verb::Abandon,
    Verb::Trace,
];

impl Verb {
    /// The word's letters.
    #[tactic(auto, unfolding(crate::specs::Verbs::verb_word))]
    fn word(self) -> &'static [u8]
        ensures { result.now ≡ verb_word self }
    {
        match self {
            Verb::Boot => b"boot",
            Verb::Took => b"took",
            Verb::Post => b"post",
            Verb::Become => b"become",
            Verb::Back => b"back",
            Verb::Backer => b"backer",
            Verb::Quit => b"quit",
            Verb::Arm => b"arm",
            Verb::Ring => b"ring",
            Verb::Late => b"late",
            Verb::Join => b"join",
            Verb::Leave => b"leave",
            Verb::Rival => b"rival",
            Verb::Acked => b"acked",
            Verb::Gave => b"gave",
            Verb::Sample => b"sample",
            Verb::Close => b"close",
            Verb::Correct => b"correct",
            Verb::Abandon => b"abandon",
            Verb::Trace => b"trace",
        }
    }

    /// The word with these letters; None where there is none.
    pub(crate) fn of_word(word: &[u8]) -> Option<Verb>
        ensures found { IfSome result (λ v. word.now ≡ verb_word v) }
        ensures reads { (v : Verb) → word.now ≡ verb_word v → result ≡ Some v }
    {
        for verb in &VERBS {
            if is_same(verb.word(), word) {
                return Some(*verb);
            }
        }
        None
    }
}
