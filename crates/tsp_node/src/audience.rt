//! Who handles a message.
ghost use Rattle.std.specs.Prelude.{◌≡◌};

use tsp_base::kind::Kind;

/// Who handles a message.
#[derive(Clone, Copy)]
pub(crate) enum Audience {
    /// A question that anybody may ask, such as a client.
    OfClients,
    /// The message sets the network's date, passes one on, or says that one was set.
    OfDates,
    /// The message is for the node as a whole, and its port ignores it: a LOOP.
    OfNode,
    /// A peer's message to the port's role.
    OfRoles,
    /// A peer's answer to an open send, whatever the port's role: an ACK.
    OfSends,
}

ghost use Rattle.tsp_node.specs.Audiences.{audience_of};

/// Who handles messages of this kind.
pub(crate) fn audience_of(kind: Kind) -> Audience
    ensures { result ≡ audience_of kind }
{
    match kind {
        Kind::Msite | Kind::MsiteReq | Kind::TraceOn | Kind::TraceOff | Kind::Test => {
            Audience::OfClients
        }
        Kind::Date | Kind::SetDate | Kind::DateReq | Kind::SetDateReq | Kind::DateAck => {
            Audience::OfDates
        }
        Kind::Loop => Audience::OfNode,
        Kind::Ack => Audience::OfSends,
        _ => Audience::OfRoles,
    }
}
