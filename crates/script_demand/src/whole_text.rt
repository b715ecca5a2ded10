//! The whole text of what is found.
ghost use Rattle.std.specs.Prelude.{◌≡◌, ◌≢◌, ◌↔◌, ◌++◌, ◌||◌, [], IfOk, IsTrue, OnOk};
ghost use Rattle.network_demand.specs.Asked.{locals_of};
ghost use Rattle.network_demand.specs.Demands.{AreLocals};
ghost use Rattle.script_demand.specs.Findings.{IsSaying};
ghost use Rattle.script_demand.specs.Texts.{findings_text};

use crate::misfit_lines::put_misfits;
use crate::room_line::put_room;
use crate::stray_lines::put_strays;
use network_demand::{Begun, Findings, Locals, find_all};
use rsvp_base::{EndName, NoMemory};
use std::alloc::Global;
use tree_routing::Routing;

/// What is said of a network.
#[derive(Drop)]
pub struct Saying {
    pub text: Vec<u8>,
    /// Whether something is found, or refreshes may crowd a later round.
    pub said: bool,
}

/// What is found in what hosts ask of a network: what does not fit, each with who asks for it, and then who meets nobody; and where
/// all fits, how much is in flight once it has settled. `begun` are those who ask, in the order in which they began. `NoMemory`: there
/// was no room for it.
pub fn findings_text(
    alloc: Global,
    nodes: &[EndName],
    names: &[EndName],
    routing: &Routing,
    locals: &Locals,
    begun: &[Begun],
) -> Result<Saying, NoMemory>
    requires { AreLocals routing.now (locals_of locals.now) }
    ensures { IfOk result (λ s. IsSaying nodes.now names.now routing.now (locals_of locals.now) begun.now s.said s.text.items) }
{
    let found = find_all(alloc, routing, locals, begun)?;
    let mut text = Vec::new(alloc);
    put_found(&mut text, nodes, names, routing, locals, &found)?;
    let some = is_something(text.as_slice());
    let crowds = put_room(alloc, &mut text, routing, locals, found.misfits.is_none())?;
    let said = is_either(some, crowds);
    Ok(Saying { text, said })
}

// Whether one of the two holds.
fn is_either(some: bool, crowds: bool) -> bool
    ensures { result ≡ (some || crowds) }
{
    some || crowds
}

// Appends what does not fit, and who meets nobody.
fn put_found(
    out: &mut Vec<u8>,
    nodes: &[EndName],
    names: &[EndName],
    routing: &Routing,
    locals: &Locals,
    found: &Findings,
) -> Result<(), NoMemory>
    ensures { OnOk result (out.new.items ≡ out.old.items ++ findings_text nodes.now names.now routing.now.ends (locals_of locals.now) found.now) }
{
    put_misfits(out, nodes, names, routing.ends(), found)?;
    put_strays(out, nodes, locals, found)
}

// Whether a text says something.
fn is_something(text: &[u8]) -> bool
    ensures { IsTrue result ↔ (text.now ≢ []) }
{
    !text.is_empty()
}
