//! Policing flags.
ghost use Rattle.std.specs.Prelude.{◌≡◌, not};
ghost use Rattle.std.specs.List.{list_any};
ghost use Rattle.flow_merge.specs.FlowOrder.{flow_le};
ghost use Rattle.error_sends.specs.Passing.{policed};

use router_rules::Police;
use rsvp_base::{Flow, StyleKind};
use style_rules::Parts;

/// The flags with which an entry of a book is handed to traffic control (RFC 2205, 3.8). `matching` counts the paths whose
/// sender the entry names and whose tree goes out of its interface, `marked` is whether one of them has E_Police, and
/// `others` has what the reservations ask for that share a sender with the entry and are not merged into it. E: `marked`. M:
/// several senders share the entry. B: another reservation has a flow for which the entry's cannot stand.
pub fn police_flags(
    style: StyleKind,
    matching: usize,
    marked: bool,
    flow: &Flow,
    others: &Parts,
) -> Police
    ensures { result ≡ policed style matching marked flow.now others.now }
{
    Police {
        e: marked,
        m: style != StyleKind::Fixed && 1 < matching,
        b: is_passed(flow, others),
    }
}

// Whether a part has a flow for which this one cannot stand.
fn is_passed(flow: &Flow, others: &Parts) -> bool
    ensures { result ≡ list_any (λ e. not (flow_le e.1.flow flow.now)) others.now.rows }
{
    others
        .as_slice()
        .iter()
        .any(|row| !flow_merge::le(&row.1.flow, flow))
}
