//! What a command does with the events of a schedule.
ghost use Rattle.std.specs.Prelude.{◌≡◌, ◌≤◌, List, [], ◌∷◌, length, true, IfOk, OnOk, OnErr, MatchResult, None};
ghost use Rattle.tsp_base.specs.Headers.{HeaderValue, is_whole};
ghost use Rattle.tsp_base.specs.declared.event.Event.{Event};
ghost use Rattle.tsp_schedule.specs.Refusing.{Refusing};
ghost use Rattle.tsp_run.specs.Refusals.{IsRefusal};
ghost use Rattle.tsp_base.specs.Plains.{event_in};
ghost use Rattle.tsp_script.specs.Schedules.{IsEvent};

use std::alloc::{AllocError, Global};
use tsp_base::event::{Event, EventFault};
use tsp_base::header::Header;
use tsp_base::octets::Octets;
use tsp_base::place::{Place, Port};
use tsp_base::plain::Plain;

/// A handler of a schedule's events. It gets the header once, and then one event after the other.
pub trait EventHandler: Drop {
    /// For which cause it refuses an event, if for one.
    ghost refused: { Refusing };

    /// It stands for this header and these events, the newest first: it is in the state after them.
    ghost stands: { HeaderValue → List Event → Self → Type 0 };

    /// A handler before the first event. Fails only if out of memory, and then drops the header.
    fn begin(alloc: Global, header: Header) -> Result<Self, AllocError>
        requires some { 1 ≤ length header.nodes }
        requires whole { is_whole header ≡ true }
        ensures { IfOk result (λ handler. stands header [] handler) };

    /// Lets an event happen, or refuses it: with the cause that `refused` gives, or if out of memory. A refused event
    /// changes nothing.
    fn event(&mut self, e: &Event) -> Result<(), EventFault>
        requires { IsEvent e.now }
        ensures happens { (header : HeaderValue) (events : List Event)
            → stands header events self.old
            → OnOk result (stands header (e.now ∷ events) self.new) }
        ensures kept { (header : HeaderValue) (events : List Event)
            → stands header events self.old
            → OnErr result (stands header events self.new) }
        ensures fault { (header : HeaderValue) (events : List Event) → stands header events self.old
            → MatchResult result (λ _. refused header events e.now ≡ None)
            (λ f. IsRefusal (refused header events e.now) f) };

    /// Does as `event` does with an event without octets. A handler of its own for these needs no room for octets.
    fn plain(&mut self, plain: &Plain) -> Result<(), EventFault>
        requires { IsEvent (event_in plain.now) }
        ensures happens { (header : HeaderValue) (events : List Event)
            → stands header events self.old
            → OnOk result (stands header (event_in plain.now ∷ events) self.new) }
        ensures kept { (header : HeaderValue) (events : List Event)
            → stands header events self.old
            → OnErr result (stands header events self.new) }
        ensures fault { (header : HeaderValue) (events : List Event) → stands header events self.old
            → MatchResult result (λ _. refused header events (event_in plain.now) ≡ None)
            (λ f. IsRefusal (refused header events (event_in plain.now)) f) }
    {
        self.event(&plain.event())
    }

    /// Does as `event` does with an event of these octets. A handler of its own for these need not keep them.
    fn bytes(
        &mut self,
        at: u64,
        node: u32,
        port: Port,
        from: Place,
        octets: &[u8],
    ) -> Result<(), EventFault>
        requires { IsEvent (Event.Bytes at node port from octets.now) }
        ensures happens { (header : HeaderValue) (events : List Event)
            → stands header events self.old
            → OnOk result (stands header (Event.Bytes at node port from octets.now ∷ events)
            self.new) }
        ensures kept { (header : HeaderValue) (events : List Event)
            → stands header events self.old
            → OnErr result (stands header events self.new) }
        ensures fault { (header : HeaderValue) (events : List Event) → stands header events self.old
            → MatchResult result (λ _. refused header events (Event.Bytes at node port from
            octets.now) ≡ None) (λ f. IsRefusal (refused header events (Event.Bytes at node port
            from octets.now)) f) }
    {
        match Octets::of(octets) {
            Some(octets) => self.event(&Event::Bytes {
                at,
                node,
                port,
                from,
                octets,
            }),
            None => unreachable!(),
        }
    }
}
