//! Parts cut to some senders, and what a part takes of a link.
ghost use Rattle.std.specs.Prelude.{◌≡◌};
ghost use Rattle.style_rules.specs.Parts.{part_cut, part_charge};

use rsvp_base::{Part, Senders};

/// The part with those of its senders that are among `names`. `None` exactly where none is.
pub fn cut(part: &Part, names: &Senders) -> Option<Part>
    ensures { result ≡ part_cut part.now names.now }
{
    let senders = part.senders.cut(names);
    if senders.is_empty() {
        return None;
    }
    Some(Part {
        senders,
        flow: part.flow,
    })
}

/// What the part takes of a link's capacity: the token bucket rate of its flow, in bytes per second.
pub fn charge(part: &Part) -> u64
    ensures { result ≡ part_charge part.now }
{
    part.flow.r.value()
}
