//! Questions, and what answers them.
ghost use Rattle.std.specs.Prelude.{◌≡◌};
ghost use Rattle.tsp_codec.specs.Taken.{taken_of};
ghost use Rattle.tsp_query.specs.Arrivals.{is_ack_kind, is_date_answer, answers, answer_of};

use tsp_base::datagram::{Datagram, Taken};
use tsp_base::kind::Kind;
use tsp_base::stamp::Stamp;
use tsp_codec::read;

/// What an answer must repeat of its question.
#[derive(Clone, Copy, PartialEq, Eq, Debug)]
pub enum Question {
    /// The number of a message, which an ACK answers.
    OfNumber(u16),
    /// The number of a message that sets the date, which an ACK or a DATEACK answers.
    OfDate(u16),
    /// The word of a stamp request with counter 0, which a reply answers.
    OfWord(u64),
}

/// Whether messages of this kind are ACKs.
fn is_ack_kind(kind: Kind) -> bool
    ensures { result ≡ is_ack_kind kind }
{
    matches!(kind, Kind::Ack)
}

/// Whether messages of this kind are ACKs or DATEACKs.
fn is_date_answer(kind: Kind) -> bool
    ensures { result ≡ is_date_answer kind }
{
    matches!(kind, Kind::Ack | Kind::DateAck)
}

/// Whether a datagram answers a question.
fn answers(question: Question, datagram: &Datagram) -> bool
    ensures { result ≡ answers question datagram.now }
{
    match question {
        Question::OfNumber(number) => match datagram {
            Datagram::Message(message) => is_ack_kind(message.kind()) && message.number() == number,
            Datagram::Stamp(_) => false,
        },
        Question::OfDate(number) => match datagram {
            Datagram::Message(message) => {
                is_date_answer(message.kind()) && message.number() == number
            }
            Datagram::Stamp(_) => false,
        },
        Question::OfWord(word) => match datagram {
            Datagram::Stamp(Stamp::Reply(reply)) => reply.word() == word && reply.counter() == 0,
            _ => false,
        },
    }
}

/// The datagram of these octets; None if it doesn't answer the question.
pub(crate) fn answer_of(question: Question, octets: &[u8]) -> Option<Datagram>
    ensures { result ≡ answer_of question (taken_of octets.now) }
{
    match read(octets) {
        Taken::Good(datagram) => {
            if answers(question, &datagram) {
                Some(datagram)
            } else {
                None
            }
        }
        Taken::Bad(_) => None,
    }
}
