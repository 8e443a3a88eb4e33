//! What is done with a send that is due.
ghost use Rattle.std.specs.Prelude.{◌≡◌};
ghost use Rattle.tsp_sends.specs.Repeating.{peer_of};

use tsp_base::kind::Kind;
use tsp_base::message::Message;
use tsp_base::place::PeerId;

/// What is done with a send that is due.
#[derive(Drop)]
pub enum Due {
    /// Its message is posted to the peer again.
    Again(PeerId, Message),
    /// It is given up. It was of this kind.
    Gave(PeerId, Kind),
}

impl Due {
    /// The addressee of the send.
    pub fn peer(&self) -> PeerId
        ensures { result ≡ peer_of self.now }
    {
        match self {
            Due::Again(p, _) => *p,
            Due::Gave(p, _) => *p,
        }
    }
}
