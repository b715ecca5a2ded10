//! Who asks at which ends.
ghost use Rattle.std.specs.Prelude.{◌≡◌, map, IfOk};
ghost use Rattle.rsvp_base.specs.Members.{In};
ghost use Rattle.network_demand.specs.Asked.{locals_of};
ghost use Rattle.network_demand.specs.Demands.{AreLocals};
ghost use Rattle.network_demand.specs.Askers.{asking, numbers_owing, only_want, owes, what_it_asks};

use crate::end_book::EndBook;
use crate::ends::demand;
use crate::kept::keep_if;
use crate::locals::Locals;
use rsvp_base::NoMemory;
use std::alloc::Global;
use tree_model::LocalWant;
use tree_routing::Routing;

/// A want, and where it asks.
#[derive(Drop)]
pub struct Asker {
    pub want: LocalWant,
    /// The ends, by number, that owe something for this want by itself. Where there is none, no sender meets it.
    pub ends: Vec<usize>,
}

/// Each want, in order, and where it asks. `NoMemory`: there was no room for them.
pub(crate) fn askers(
    alloc: Global,
    routing: &Routing,
    locals: &Locals,
) -> Result<Vec<Asker>, NoMemory>
    requires { AreLocals routing.now (locals_of locals.now) }
    ensures { IfOk result (λ all. map what_it_asks all.items ≡ map (asking routing.now (locals_of locals.now)) locals.now.wants.items) }
{
    let mut all = Vec::new(alloc);
    for want in locals.wants.as_slice() {
        all.push(asker_of(alloc, routing, locals, want)?)?;
    }
    Ok(all)
}

// A want, and where it asks.
fn asker_of(
    alloc: Global,
    routing: &Routing,
    locals: &Locals,
    want: &LocalWant,
) -> Result<Asker, NoMemory>
    requires asked { AreLocals routing.now (locals_of locals.now) }
    requires one { In want.now locals.now.wants.items }
    ensures { IfOk result (λ a. what_it_asks a ≡ asking routing.now (locals_of locals.now) want.now) }
{
    let alone = only_want(alloc, locals, want)?;
    let demand = demand(alloc, routing, &alone)?;
    Ok(Asker {
        want: copy_of(want),
        ends: numbers_owing(alloc, demand.ends.as_slice())?,
    })
}

// The same senders, and this want alone.
fn only_want(alloc: Global, locals: &Locals, want: &LocalWant) -> Result<Locals, NoMemory>
    ensures { IfOk result (λ one. locals_of one ≡ only_want (locals_of locals.now) want.now) }
{
    let mut wants = Vec::new(alloc);
    wants.push(copy_of(want))?;
    Ok(Locals {
        senders: locals.senders.as_slice().to_vec(alloc)?,
        wants,
    })
}

/// This want once more.
pub(crate) fn copy_of(want: &LocalWant) -> LocalWant
    ensures { result ≡ want.now }
{
    LocalWant {
        node: want.node,
        session: want.session,
        style: want.style,
        part: want.part.copy(),
    }
}

// The ends that owe something.
fn numbers_owing(alloc: Global, books: &[EndBook]) -> Result<Vec<usize>, NoMemory>
    ensures { IfOk result (λ found. found.items ≡ numbers_owing books.now) }
{
    let mut found = Vec::new(alloc);
    for end in 0..books.len() {
        keep_if(&mut found, end, owes(&books[end]))?;
    }
    Ok(found)
}

// Whether an end owes something.
fn owes(book: &EndBook) -> bool
    ensures { result ≡ owes book.now }
{
    !book.as_slice().is_empty()
}
