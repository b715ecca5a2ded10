//! What goes on to next hops, one message to each.
ghost use Rattle.std.specs.Prelude.{◌≡◌, ◌||◌, fold, is_some, [], List};
ghost use Rattle.std.specs.List.{cons_option};
ghost use Rattle.std.specs.Option.{option_map};
ghost use Rattle.std.specs.Ordering.{eq_by_cmp};
ghost use Rattle.style_rules.specs.Lines.{NextHop, next_hops};
ghost use Rattle.router_rules.specs.Inputs.{Send};
ghost use Rattle.error_sends.specs.Runs.{said_from};
ghost use Rattle.error_sends.specs.Going.{going_row};

use router_rules::Outbox;
use rsvp_base::Addr;
use rsvp_messages::Message;
use std::cmp::Ordering;

/// A message to a next hop.
#[derive(Drop)]
pub(crate) struct Outgoing {
    pub(crate) iface: u8,
    pub(crate) dst: Addr,
    pub(crate) message: Message,
}

// Whether two go to one next hop.
fn is_same_hop(a: &Outgoing, b: &Outgoing) -> bool
    ensures { result ≡ eq_by_cmp next_hops.cmp (a.now.iface, a.now.dst) (b.now.iface, b.now.dst) }
{
    a.iface.cmp(&b.iface).then(a.dst.cmp(&b.dst)) == Ordering::Equal
}

/// Posts the last message so far, if there is one.
pub(crate) fn post_last<O: Outbox>(last: Option<Outgoing>, out: &mut O)
    ensures { out.new ≡ fold O.posted out.old (said_from next_hops (option_map going_row last) []) }
{
    let Some(held) = last else {
        return;
    };
    out.post(held.iface, held.dst, &held.message, false);
}

/// What is held back once one more is there: it, in place of the last one, which is posted where it goes to another next
/// hop.
pub(crate) fn hold<O: Outbox>(
    last: Option<Outgoing>,
    more: Option<Outgoing>,
    out: &mut O,
) -> Option<Outgoing>
    ensures sent { (es : List (NextHop × Send))
        → fold O.posted out.new (said_from next_hops (option_map going_row result) es)
        ≡ fold O.posted out.old (said_from next_hops (option_map going_row last) (cons_option (option_map going_row more) es)) }
    ensures some { is_some result ≡ (is_some last || is_some more) }
{
    let Some(new) = more else {
        return last;
    };
    let Some(held) = last else {
        return Some(new);
    };
    if !is_same_hop(&held, &new) {
        out.post(held.iface, held.dst, &held.message, false);
    }
    Some(new)
}
