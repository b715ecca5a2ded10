//! Who sent a datagram.

use rsvp_base::Addr;
use rsvp_messages::{Message, MsgErr};
use tree_routing::Routing;

// A link has at most so many ends.
const MOST_ENDS: usize = 8;

/// Who may have sent a datagram.
#[derive(Clone, Copy)]
pub(crate) enum From {
    /// No node.
    Nobody,
    /// This node.
    Node(u16),
    /// Any node.
    Anyone,
}

/// The end by which a datagram that goes to an end went out: of a link of two the other one; of a longer link that of the node, or
/// the one whose address is the hop of the message. `None` where there is none.
pub(crate) fn sender_of(
    routing: &Routing,
    from: From,
    end: u16,
    read: &Result<Message, MsgErr>,
) -> Option<u16> {
    if let From::Nobody = from {
        return None;
    }
    if routing.far(end, 1).is_none() {
        return routing.far(end, 0);
    }
    let hop = hop_of(read);
    for k in 0..MOST_ENDS {
        let Some(far) = routing.far(end, k) else {
            return None;
        };
        if is_sender(routing, from, hop, far) {
            return Some(far);
        }
    }
    None
}

// Whether an end may be that of the sender.
fn is_sender(routing: &Routing, from: From, hop: Option<Addr>, end: u16) -> bool {
    match from {
        From::Nobody => false,
        From::Node(node) => routing.node_of(end) == node,
        From::Anyone => match (hop, routing.ends().get(end as usize)) {
            (Some(hop), Some(end)) => end.iface.addr == hop,
            _ => false,
        },
    }
}

// The address of the hop that a message names, where it names one.
fn hop_of(read: &Result<Message, MsgErr>) -> Option<Addr> {
    match read {
        Ok(Message::Path(m)) => Some(m.hop.addr),
        Ok(Message::Resv(m)) => Some(m.hop.addr),
        Ok(Message::ResvErr(m)) => Some(m.hop.addr),
        Ok(Message::PathTear(m)) => Some(m.hop.addr),
        Ok(Message::ResvTear(m)) => Some(m.hop.addr),
        Ok(Message::PathErr(_)) | Ok(Message::ResvConf(_)) | Err(_) => None,
    }
}
