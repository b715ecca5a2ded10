//! What does not fit.
ghost use Rattle.std.specs.Prelude.{◌≡◌, ◌↔◌, ◌&&◌, [], length, not, Some, IfOk, IsTrue};
ghost use Rattle.network_demand.specs.Asked.{locals_of};
ghost use Rattle.network_demand.specs.Books.{book_at};
ghost use Rattle.network_demand.specs.Demands.{AreDemands};
ghost use Rattle.tree_model.specs.Goals.{DemandsFit};
ghost use Rattle.network_demand.specs.Misfits.{AreMisfits, AreNone, is_large, is_over, numbers_with};

use crate::clashing::clashing;
use crate::end_book::EndBook;
use crate::kept::keep_if;
use crate::locals::Locals;
use crate::owed::Demand;
use crate::sums::{largest, sum_of_rates};
use rsvp_base::{NoMemory, Session};
use std::alloc::Global;
use tree_routing::{End, Routing};

/// What does not fit.
#[derive(Drop)]
pub struct Misfits {
    /// The ends, by number, that owe more than their capacity.
    pub over: Vec<usize>,
    /// The ends, by number, that owe packets above their MTU.
    pub large: Vec<usize>,
    /// The sessions that are wanted in two styles, each once.
    pub clashing: Vec<Session>,
    /// Whether a node needs more than its tables hold, which is looked at where nothing else is wrong.
    pub tables: bool,
}

impl Misfits {
    /// Whether there is none.
    pub fn is_none(&self) -> bool
        ensures { IsTrue result ↔ AreNone self.now }
    {
        are_empty(&self.over, &self.large, &self.clashing) && !self.tables
    }
}

// Whether no end and no session is among these.
fn are_empty(over: &Vec<usize>, large: &Vec<usize>, clashing: &Vec<Session>) -> bool
    ensures { IsTrue result ↔ ((over.now.items ≡ []) × (large.now.items ≡ []) × (clashing.now.items ≡ [])) }
{
    over.is_empty() && large.is_empty() && clashing.is_empty()
}

/// What does not fit in this demand. `NoMemory`: there was no room to keep it.
pub(crate) fn misfits_of(
    alloc: Global,
    demand: &Demand,
    routing: &Routing,
    locals: &Locals,
) -> Result<Misfits, NoMemory>
    requires ends { AreDemands routing.now (locals_of locals.now) demand.now.ends.items }
    requires fits { IsTrue demand.now.fits ↔ DemandsFit routing.now (locals_of locals.now) }
    ensures all { IfOk result (λ m. AreMisfits routing.now (locals_of locals.now) m) }
    ensures none { IfOk result (λ m. AreNone m ↔ DemandsFit routing.now (locals_of locals.now)) }
{
    let over = ends_over(alloc, routing.ends(), demand.ends.as_slice())?;
    let large = ends_large(alloc, routing.ends(), demand.ends.as_slice())?;
    let clashing = clashing(alloc, locals.wants.as_slice())?;
    let tables = is_left(demand.fits, are_empty(&over, &large, &clashing));
    Ok(Misfits {
        over,
        large,
        clashing,
        tables,
    })
}

// Whether tables are too small: it does not fit, and nothing else is wrong.
fn is_left(fits: bool, nothing: bool) -> bool
    ensures { result ≡ (not fits && nothing) }
{
    !fits && nothing
}

// Whether what an end owes passes its capacity.
fn is_over(end: &End, book: &EndBook) -> bool
    ensures { result ≡ is_over (Some end.now) book.now }
{
    sum_of_rates(book.as_slice()) > u128::from(end.iface.capacity)
}

// Whether a packet of what an end owes may be larger than its MTU.
fn is_large(end: &End, book: &EndBook) -> bool
    ensures { result ≡ is_large (Some end.now) book.now }
{
    largest(book.as_slice()) > end.iface.mtu
}

// The ends that owe more than their capacity.
fn ends_over(alloc: Global, ends: &[End], books: &[EndBook]) -> Result<Vec<usize>, NoMemory>
    requires { length books.now ≡ length ends.now }
    ensures { IfOk result (λ found. found.items ≡ numbers_with is_over ends.now (book_at books.now)) }
{
    let mut found = Vec::new(alloc);
    for end in 0..ends.len() {
        keep_if(&mut found, end, is_over(&ends[end], &books[end]))?;
    }
    Ok(found)
}

// The ends that owe packets above their MTU.
fn ends_large(alloc: Global, ends: &[End], books: &[EndBook]) -> Result<Vec<usize>, NoMemory>
    requires { length books.now ≡ length ends.now }
    ensures { IfOk result (λ found. found.items ≡ numbers_with is_large ends.now (book_at books.now)) }
{
    let mut found = Vec::new(alloc);
    for end in 0..ends.len() {
        keep_if(&mut found, end, is_large(&ends[end], &books[end]))?;
    }
    Ok(found)
}
