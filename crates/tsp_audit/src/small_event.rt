//! Events that are held, each in little room.
ghost use Rattle.std.specs.Prelude.{◌≡◌, IfOk};
ghost use Rattle.tsp_audit.specs.Premised.{boots_with};
ghost use Rattle.tsp_audit.specs.SmallEvents.{outside_event};
ghost use Rattle.tsp_base.specs.Plains.{event_in};

use std::alloc::{AllocError, Global};
use std::marker::Model;
use tsp_base::event::Event;
use tsp_base::octets::Octets;
use tsp_base::place::{Place, Port};
use tsp_base::plain::Plain;

/// Octets that no node posted reach a node: an event that takes much room.
#[derive(Drop)]
pub(crate) struct Outside {
    at: u64,
    node: u32,
    port: Port,
    from: Place,
    octets: Octets,
}

/// How an event is held.
#[derive(Drop)]
pub(crate) enum Held {
    /// It has no octets.
    Plain(Plain),
    /// It has octets, and room of its own.
    Boxed(Box<Outside>),
}

/// An event, which takes little room unless it has octets.
#[derive(Drop)]
pub struct SmallEvent {
    held: Held,
}

impl Model for SmallEvent {
    ghost use Rattle.tsp_audit.specs.SmallEvents.{event_of};
    ghost use Rattle.tsp_base.specs.declared.event.Event.{Event};

    ghost Value = { Event };

    ghost view = { λ s. event_of s.held };
}

/// A copy of octets. Takes no memory.
fn copy_octets(octets: &Octets) -> Octets
    ensures { result ≡ octets.now }
{
    match Octets::of(octets.octets()) {
        Some(copy) => copy,
        None => unreachable!(),
    }
}

/// The event of octets that no node posted. Takes no memory.
fn event_from(e: &Outside) -> Event
    ensures { result ≡ outside_event e.now }
{
    Event::Bytes {
        at: e.at,
        node: e.node,
        port: e.port,
        from: e.from,
        octets: copy_octets(&e.octets),
    }
}

/// An event without octets.
fn plain(e: Plain) -> SmallEvent
    ensures { result ≡ event_in e }
{
    SmallEvent {
        held: Held::Plain(e),
    }
}

/// An event in room of its own. Fails only if out of memory.
fn boxed(alloc: Global, e: Outside) -> Result<SmallEvent, AllocError>
    ensures { IfOk result (λ s. s ≡ outside_event e) }
{
    match Box::new(alloc, e) {
        Ok(held) => Ok(SmallEvent {
            held: Held::Boxed(held),
        }),
        Err(refused) => Err(AllocError::from(refused)),
    }
}

impl SmallEvent {
    /// A copy of an event. Fails only if out of memory, and an event without octets takes none.
    pub fn of(alloc: Global, e: &Event) -> Result<SmallEvent, AllocError>
        ensures { IfOk result (λ s. s ≡ e.now) }
    {
        match e {
            Event::Boot { at, node, word } => Ok(plain(Plain::Boot {
                at: *at,
                node: *node,
                word: *word,
            })),
            Event::Turn { at, node } => Ok(plain(Plain::Turn {
                at: *at,
                node: *node,
            })),
            Event::Take { at, datagram } => Ok(plain(Plain::Take {
                at: *at,
                datagram: *datagram,
            })),
            Event::Bytes {
                at,
                node,
                port,
                from,
                octets,
            } => boxed(
                alloc,
                Outside {
                    at: *at,
                    node: *node,
                    port: *port,
                    from: *from,
                    octets: copy_octets(octets),
                },
            ),
        }
    }

    /// The event.
    pub fn event(&self) -> Event
        ensures { result ≡ self.now }
    {
        match &self.held {
            Held::Plain(e) => e.event(),
            Held::Boxed(e) => event_from(e),
        }
    }

    /// Whether it is a boot with this word.
    pub(crate) fn boots_with(&self, word: u64) -> bool
        ensures { result ≡ boots_with word self.now }
    {
        match &self.held {
            Held::Plain(Plain::Boot { word: other, .. }) => *other == word,
            Held::Plain(_) | Held::Boxed(_) => false,
        }
    }
}
