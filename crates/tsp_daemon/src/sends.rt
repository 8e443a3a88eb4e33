//! The sends of a step.
ghost use Rattle.std.specs.Prelude.{◌≡◌, ◌≤◌, ◌<◌, ◌+◌, [], ◌∷◌, length, IfOk, OnOk, OnErr, true};
ghost use Rattle.tsp_rules.specs.Strangers.{IsKnown};
ghost use Rattle.tsp_codec.specs.Canon.{canon};
ghost use Rattle.tsp_daemon.specs.Ends.{OnlySends, TriesAll, TriesSome};
ghost use Rattle.tsp_daemon.specs.Posts.{AreKnown, send_of, sends_of};

use std::alloc::AllocError;
use tsp_base::act::{Act, Placed};
use tsp_base::datagram::Datagram;
use tsp_base::place::Place;
use tsp_codec::{encode, encode_stamp};
use tsp_io::link::{Link, Sent};

/// Tries a send. One that fails is a lost datagram, and no error. Fails only if out of memory: then the send
/// wasn't tried.
#[inline(always)]
fn send_octets<L: Link>(link: &mut L, to: Place, octets: &[u8]) -> Result<(), AllocError>
    requires known { to ≡ Place.Stranger → L.stranger link.old ≡ true }
    ensures ok { OnOk result (TriesAll ((to, octets.now) ∷ []) (L.tried link.old)
        (L.tried link.new)) }
    ensures err { OnErr result (L.tried link.new ≡ L.tried link.old) }
    ensures only { OnlySends L.Link link.old link.new }
{
    match link.send(to, octets) {
        Sent::OutOfMemory => Err(AllocError),
        Sent::Sent => Ok(()),
        Sent::Failed => Ok(()),
    }
}

/// Tries the send of a datagram, as `send_octets` does. (A call of its own, so that a stamp needs
/// no room for a message.)
#[inline(never)]
fn send_any<L: Link>(link: &mut L, to: Place, datagram: &Datagram) -> Result<(), AllocError>
    requires known { to ≡ Place.Stranger → L.stranger link.old ≡ true }
    ensures ok { OnOk result (TriesAll ((to, canon datagram.now) ∷ []) (L.tried link.old)
        (L.tried link.new)) }
    ensures err { OnErr result (L.tried link.new ≡ L.tried link.old) }
    ensures only { OnlySends L.Link link.old link.new }
{
    send_octets(link, to, encode(datagram).as_slice())
}

/// Tries the send of an act, if it is a post, and says how many sends that were: one or none. A send that
/// fails is a lost datagram, and no error. Fails only if out of memory: then the send wasn't tried.
fn send_one<L: Link>(link: &mut L, act: &Act) -> Result<u64, AllocError>
    requires known { IsKnown (L.stranger link.old) act.now }
    ensures ok { OnOk result (TriesAll (send_of act.now) (L.tried link.old) (L.tried link.new)) }
    ensures count { IfOk result (λ count. count ≡ length (send_of act.now)) }
    ensures one { IfOk result (λ count. count ≤ 1) }
    ensures err { OnErr result (L.tried link.new ≡ L.tried link.old) }
    ensures some { OnErr result (0 < length (send_of act.now)) }
    ensures only { OnlySends L.Link link.old link.new }
{
    match act {
        Act::Post(to, datagram) => {
            match datagram {
                Datagram::Stamp(stamp) => send_octets(link, *to, encode_stamp(stamp).as_slice())?,
                Datagram::Message(_) => send_any(link, *to, datagram)?,
            }
            Ok(1)
        }
        _ => Ok(0),
    }
}

/// Tries the sends of all posts among the acts, in order, and says how many these were. Fails only if out of
/// memory: then only the first of them were tried, and not all.
pub(crate) fn send_all<L: Link>(link: &mut L, acts: &[Placed]) -> Result<u64, AllocError>
    requires known { AreKnown (L.stranger link.old) acts.now }
    ensures ok { OnOk result (TriesAll (sends_of acts.now) (L.tried link.old) (L.tried link.new)) }
    ensures count { IfOk result (λ count. count ≡ length (sends_of acts.now)) }
    ensures few { IfOk result (λ count. count ≤ length acts.now) }
    ensures err { OnErr result (TriesSome (sends_of acts.now) (L.tried link.old)
        (L.tried link.new)) }
    ensures only { OnlySends L.Link link.old link.new }
{
    let mut count = 0;
    for placed in acts {
        count += send_one(link, &placed.act)?;
    }
    Ok(count)
}

/// How many sends an act asks for: one if it is a post.
pub(crate) fn posts_by(act: &Act) -> u64
    ensures count { result ≡ length (send_of act.now) }
    ensures one { result ≤ 1 }
{
    match act {
        Act::Post(..) => 1,
        _ => 0,
    }
}
