//! Admission control.
ghost use Rattle.std.specs.Prelude.{◌≡◌, ◌+◌, ◌≤◌, IfOk, MatchResult, Some, None};
ghost use Rattle.admission_book.specs.Charges.{charge, refusal_beside};

use crate::refused::Refused;
use rsvp_base::{Flow, Iface};

// What the interface's entries charge it with this flow, or without one, beside others that charge `others`; or why the
// flow is refused.
pub(crate) fn admit(on: &Iface, others: u64, now: &Option<Flow>) -> Result<u64, Refused>
    requires { others ≤ on.now.capacity }
    ensures sum { IfOk result (λ sum. sum ≡ others + charge now.now) }
    ensures within { IfOk result (λ sum. sum ≤ on.now.capacity) }
    ensures cause { MatchResult result (λ _. refusal_beside on.now others now.now ≡ None) (λ why. refusal_beside on.now others now.now ≡ Some why) }
{
    let Some(flow) = now else {
        return Ok(others);
    };
    if flow.most > on.mtu {
        return Err(Refused::Mtu {
            most: flow.most,
            mtu: on.mtu,
        });
    }
    let want = flow.r.value();
    let free = on.capacity - others;
    if want > free {
        return Err(Refused::Rate { want, free });
    }
    Ok(others + want)
}
