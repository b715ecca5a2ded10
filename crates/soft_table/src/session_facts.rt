//! The facts of a session, one after another.
ghost use Rattle.std.specs.Prelude.{◌≡◌, map};
ghost use Rattle.std.specs.Iterator.{YieldsFirstRef, item_count};
ghost use Rattle.rsvp_base.specs.Orders.{sessions};
ghost use Rattle.rsvp_base.specs.Under.{rows_under};
ghost use Rattle.soft_table.specs.Facts.{facts_by};
ghost use Rattle.soft_table.specs.Index.{facts_in, IsIndex};

use crate::cell::Slot;
use crate::fact::Fact;
use crate::order::Rests;
use crate::pool::Pool;
use crate::rows::nth;
use crate::session_lists::SessionLists;
use rsvp_base::Session;
use std::marker::Model;

/// The facts of a session in the order of the rests of their keys. Dead facts do not count. Contracts see the facts that are
/// still to come.
#[derive(Drop)]
pub struct SessionFacts<'a, F: Fact> {
    pool: &'a Pool<F>,
    rows: &'a SessionLists<Rests<F>>,
    session: Session,
    // Where the next one is.
    next: Option<Slot>,
}

impl<'a, F: Fact> Model for SessionFacts<'a, F> {
    ghost use Rattle.std.specs.Prelude.{◌≡◌, List, IfSome, length};
    ghost use Rattle.soft_table.specs.Index.{facts_in, IsIndex};
    ghost use Rattle.soft_table.specs.Walks.{facts_from, fact_in, IsRowOf};

    ghost Value = { List F };

    ghost view = { λ t. facts_from F.rests F.key_of t.session (facts_in t.pool.now t.rows.now.rows) (fact_in t.pool.now t.next) };

    ghost invariant = { λ t. IsIndex F.rests F.key_of t.pool.now t.rows.now.rows × IfSome t.next (λ s. IsRowOf F.rests t.pool.now t.rows.now.rows t.session s.0) };
}

impl<'a, F: Fact> Iterator for SessionFacts<'a, F> {
    type Item = &'a F;

    ghost next_gives = { YieldsFirstRef (λ it. it) };

    ghost remaining = { item_count (λ it. it) };

    fn next(&mut self) -> Option<&'a F> {
        let slot = self.next?;
        let behind = self.rows.after(self.session, slot.0);
        self.next = nth::<F>(self.pool, self.rows, self.session, behind, 0);
        Some(self.pool.get(slot))
    }
}

// The facts of a session, from its first on.
pub(crate) fn facts_of<'a, F: Fact>(
    pool: &'a Pool<F>,
    rows: &'a SessionLists<Rests<F>>,
    session: Session,
) -> SessionFacts<'a, F>
    requires { IsIndex F.rests F.key_of pool.now rows.now.rows }
    ensures { result ≡ map (λ e. e.1.0) (rows_under sessions F.rests session (facts_by F.key_of (facts_in pool.now rows.now.rows))) }
{
    let next = nth::<F>(pool, rows, session, rows.first(session), 0);
    SessionFacts {
        pool,
        rows,
        session,
        next,
    }
}
