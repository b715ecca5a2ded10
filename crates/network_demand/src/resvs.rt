//! Resvs, counted by sessions, styles and hops.
ghost use Rattle.std.specs.Prelude.{◌≡◌, ◌*◌, ◌≤◌, length, sum_by, IfOk};
ghost use Rattle.std.specs.List.{filter};
ghost use Rattle.network_demand.specs.Asked.{locals_of};
ghost use Rattle.network_demand.specs.Demands.{AreLocals};
ghost use Rattle.tree_routing.specs.Order.{AreByRank};
ghost use Rattle.network_demand.specs.Counts.{asked_in, is_something, resvs_of};

use crate::hop_want::HopWant;
use crate::locals::Locals;
use crate::wants::hop_wants;
use rsvp_base::{NoMemory, Session};
use std::alloc::Global;
use style_rules::{Fixed, Shared, Style, Wild};
use tree_routing::{GroupHop, Routing};

/// The Resvs of all these sessions at all nodes; these are all hops by rank. `NoMemory`: there was no room to count.
pub(crate) fn all_resvs(
    alloc: Global,
    routing: &Routing,
    order: &[GroupHop],
    locals: &Locals,
    sessions: &[Session],
) -> Result<u128, NoMemory>
    requires order { AreByRank routing.now order.now }
    requires locals { AreLocals routing.now (locals_of locals.now) }
    ensures resvs { IfOk result (λ n. n ≡ sum_by (resvs_of routing.now (locals_of locals.now) order.now) sessions.now) }
    ensures few { IfOk result (λ n. n ≤ length sessions.now * 24576) }
{
    let mut sum: u128 = 0;
    for session in sessions {
        sum += resvs_of(alloc, routing, order, locals, *session)? as u128;
    }
    Ok(sum)
}

// The Resvs of a session at all nodes.
fn resvs_of(
    alloc: Global,
    routing: &Routing,
    order: &[GroupHop],
    locals: &Locals,
    session: Session,
) -> Result<usize, NoMemory>
    requires order { AreByRank routing.now order.now }
    requires locals { AreLocals routing.now (locals_of locals.now) }
    ensures resvs { IfOk result (λ n. n ≡ resvs_of routing.now (locals_of locals.now) order.now session) }
    ensures few { IfOk result (λ n. n ≤ 24576) }
{
    let wild = asked_in::<Wild>(alloc, routing, order, locals, session)?;
    let fixed = asked_in::<Fixed>(alloc, routing, order, locals, session)?;
    let shared = asked_in::<Shared>(alloc, routing, order, locals, session)?;
    Ok(wild + (fixed + shared))
}

// Over how many hops something is wanted of a session in a style.
fn asked_in<S: Style>(
    alloc: Global,
    routing: &Routing,
    order: &[GroupHop],
    locals: &Locals,
    session: Session,
) -> Result<usize, NoMemory>
    requires order { AreByRank routing.now order.now }
    requires locals { AreLocals routing.now (locals_of locals.now) }
    ensures asked { IfOk result (λ n. n ≡ asked_in S.kind_is routing.now (locals_of locals.now) order.now session) }
    ensures few { IfOk result (λ n. n ≤ 8192) }
{
    let _nodes = routing.nodes();
    let wants = hop_wants::<S>(alloc, routing, order, locals, session)?;
    Ok(count_of_wanted(wants.as_slice()))
}

// For how many hops there is something.
fn count_of_wanted(wants: &[HopWant]) -> usize
    ensures { result ≡ length (filter is_something wants.now) }
{
    let mut count = 0;
    for want in wants {
        if is_something(want) {
            count += 1;
        }
    }
    count
}

// Whether something is wanted.
fn is_something(want: &HopWant) -> bool
    ensures { result ≡ is_something want.now }
{
    want.parts.len() > 0
}
