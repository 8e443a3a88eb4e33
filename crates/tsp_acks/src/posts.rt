//! Messages that a station posts once: they carry a number and the node's own name, and nothing else.
ghost use Rattle.std.specs.Prelude.{◌≡◌, ℕ, ◌≤◌, true, length, [], ◌∷◌, ◌++◌};
ghost use Rattle.tsp_acks.specs.Calls.{Performs, Uses, UsesAtMost};
ghost use Rattle.tsp_base.specs.Rows.{posts, posts_back, posts_to_others, post_of, placed};
ghost use Rattle.tsp_acks.specs.Posts.{is_plain};

use crate::station::Station;
use tsp_base::act::Act;
use tsp_base::datagram::Datagram;
use tsp_base::desk::Desk;
use tsp_base::kind::Kind;
use tsp_base::message::{Body, Message};
use tsp_base::place::{PeerId, Place, Port};

impl Station {
    ghost use Rattle.tsp_acks.specs.Stands.{StationStands};

    /// Posts a message with nothing but a number to where a datagram came from. The kind must not be one of a
    /// numbered send.
    pub fn post_back<D: Desk>(&self, to: Place, kind: Kind, number: u16, port: Port, desk: &mut D)
        requires room { 1 ≤ D.spare desk.old }
        requires plain { is_plain kind ≡ true }
        ensures row { (x : ℕ) → Performs StationStands StationStands (posts_back to kind number) x port self.now
            self.now (D.acts desk.old) (D.acts desk.new) }
        ensures room { Uses 1 D.spare D.acts desk.old desk.new }
    {
        let message = Message::new(kind, number, Body::Nothing, self.me.name.copy());
        desk.put(port, Act::Post(to, Datagram::Message(message)));
    }

    /// Posts a message with nothing but a number to a peer. The kind must not be one of a numbered send.
    pub fn post<D: Desk>(&self, p: PeerId, kind: Kind, number: u16, port: Port, desk: &mut D)
        requires room { 1 ≤ D.spare desk.old }
        requires plain { is_plain kind ≡ true }
        ensures acts { D.acts desk.new ≡ D.acts desk.old ++ placed port
            (post_of kind number self.now.me.name p ∷ []) }
        ensures row { (x : ℕ) → Performs StationStands StationStands (posts p kind number) x port self.now
            self.now (D.acts desk.old) (D.acts desk.new) }
        ensures room { Uses 1 D.spare D.acts desk.old desk.new }
    {
        let message = Message::new(kind, number, Body::Nothing, self.me.name.copy());
        desk.put(port, Act::Post(Place::Peer(p), Datagram::Message(message)));
    }

    /// Posts the same to each other peer, ascending.
    pub fn post_to_others<D: Desk>(&self, kind: Kind, number: u16, port: Port, desk: &mut D)
        requires room { length self.now.peers ≤ D.spare desk.old }
        requires plain { is_plain kind ≡ true }
        ensures row { (x : ℕ) → Performs StationStands StationStands (posts_to_others kind number) x port self.now
            self.now (D.acts desk.old) (D.acts desk.new) }
        ensures room { UsesAtMost (length self.now.peers) D.spare D.acts desk.old desk.new }
    {
        for p in self.peers.as_slice() {
            if p.0 != self.me.own.0 {
                self.post(*p, kind, number, port, desk);
            }
        }
    }
}
