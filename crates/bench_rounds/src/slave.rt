//! A slave that answers at once and is never corrected.
use tsp_base::datagram::{Datagram, Taken};
use tsp_base::kind::Kind;
use tsp_base::message::{Body, Message};
use tsp_base::name::Name;
use tsp_base::stamp::Stamp;

/// A slave's clock: how far it is ahead, in microseconds, and the number of its next correction.
#[derive(Drop)]
pub struct Slave {
    /// How far its clock is ahead, in microseconds.
    pub offset: i64,
    /// The number that its next correction has.
    pub ticket: u16,
}

impl Slave {
    /// What it answers to a datagram at this time, in microseconds; None where it doesn't answer.
    pub fn answer(&mut self, datagram: &Datagram, time: i64) -> Option<Taken> {
        match datagram {
            Datagram::Stamp(Stamp::Request { word, counter }) => {
                let reading = time.saturating_add(self.offset);
                let reply = Stamp::reply(self.ticket, *word, *counter, reading)?;
                Some(Taken::Good(Datagram::Stamp(reply)))
            }
            Datagram::Stamp(_) => None,
            Datagram::Message(message) => self.answer_message(message),
        }
    }

    /// It backs a candidate, reports to a master, and acknowledges a correction.
    fn answer_message(&mut self, message: &Message) -> Option<Taken> {
        let (kind, number) = match message.kind() {
            Kind::Election => (Kind::Accept, message.number()),
            Kind::MasterUp => (Kind::SlaveUp, self.ticket),
            Kind::AdjTime => (Kind::Ack, message.number()),
            Kind::SetTime => (Kind::Ack, message.number()),
            _ => return None,
        };
        if kind == Kind::Ack {
            self.ticket = self.ticket.wrapping_add(1) % 32_768;
        }
        let answer = Message::of(kind, number, Body::Nothing, Name::empty())?;
        Some(Taken::Good(Datagram::Message(answer)))
    }
}
