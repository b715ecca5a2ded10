//! The demand of each end.
ghost use Rattle.std.specs.Prelude.{◌≡◌, ◌↔◌, ◌++◌, ◌<◌, ◌≤◌, [], ◌∷◌, List, length, map, replicate, IsTrue, IfOk, OnOk};
ghost use Rattle.rsvp_base.specs.Members.{In};
ghost use Rattle.rsvp_base.specs.Table.{empty};
ghost use Rattle.rsvp_base.specs.declared.session.Session.{Session};
ghost use Rattle.style_rules.specs.Lines.{Line};
ghost use Rattle.tree_routing.specs.Order.{AreByRank};
ghost use Rattle.tree_model.specs.Chains.{NoRepeats};
ghost use Rattle.tree_model.specs.Valid.{IsValid};
ghost use Rattle.network_demand.specs.Asked.{locals_of};
ghost use Rattle.network_demand.specs.Books.{HaveLines};
ghost use Rattle.network_demand.specs.Demands.{AreLocals, AreDemands, AreFed, style_lines};
ghost use Rattle.tree_model.specs.Goals.{DemandsFit};
ghost use Rattle.network_demand.specs.Fits.{FindRoom};

use crate::charging::charge_wants;
use crate::end_book::EndBook;
use crate::fits::{are_met, find_room};
use crate::locals::{Locals, is_among};
use crate::owed::Demand;
use crate::room::rooms;
use crate::wants::hop_wants;
use rsvp_base::{NoMemory, Session};
use std::alloc::Global;
use style_rules::{Fixed, Shared, Style, Wild};
use tree_model::LocalWant;
use tree_routing::{GroupHop, Routing};

// Adds a session, if it is not there.
fn add_session(sessions: &mut Vec<Session>, session: Session) -> Result<(), NoMemory>
    ensures once { OnOk result (NoRepeats sessions.old.items → NoRepeats sessions.new.items) }
    ensures all { OnOk result ((s : Session) → In s sessions.new.items ↔ In s (sessions.old.items ++ session ∷ [])) }
{
    if is_among(sessions.as_slice(), session) {
        return Ok(());
    }
    if sessions.push(session).is_err() {
        return Err(NoMemory);
    }
    Ok(())
}

/// The sessions that someone wants something of, each once.
fn sessions_of(alloc: Global, wants: &[LocalWant]) -> Result<Vec<Session>, NoMemory>
    ensures once { IfOk result (λ sessions. NoRepeats sessions.items) }
    ensures all { IfOk result (λ sessions. (s : Session) → In s sessions.items ↔ In s (map (λ w. w.session) wants.now)) }
{
    let mut sessions = Vec::new(alloc);
    for want in wants {
        add_session(&mut sessions, want.session)?;
    }
    Ok(sessions)
}

// So many ends that owe nothing.
fn nothing_owed(alloc: Global, ends: usize) -> Result<Vec<EndBook>, NoMemory>
    ensures { IfOk result (λ books. books.items ≡ replicate ends empty) }
{
    let mut books = Vec::new(alloc);
    for _end in 0..ends {
        books.push(EndBook::new(alloc))?;
    }
    Ok(books)
}

// Charges what is wanted of these sessions in a style. Whether it finds room at the nodes.
fn charge_style<S: Style>(
    alloc: Global,
    routing: &Routing,
    order: &[GroupHop],
    locals: &Locals,
    sessions: &[Session],
    books: &mut Vec<EndBook>,
) -> Result<bool, NoMemory>
    requires valid { IsValid routing.now }
    requires order { AreByRank routing.now order.now }
    requires locals { AreLocals routing.now (locals_of locals.now) }
    requires ends { length books.old.items ≡ length routing.now.ends }
    requires fed { AreFed (locals_of locals.now) books.old.items }
    ensures ends { OnOk result (length books.new.items ≡ length routing.now.ends) }
    ensures fed { OnOk result (AreFed (locals_of locals.now) books.new.items) }
    ensures lines { OnOk result ((fed : List Line) → HaveLines fed books.old.items
        → HaveLines (fed ++ style_lines S.kind_is routing.now (locals_of locals.now) order.now sessions.now) books.new.items) }
    ensures room { IfOk result (λ fits. IsTrue fits ↔ FindRoom S.kind_is routing.now (locals_of locals.now) order.now sessions.now) }
{
    let mut lines = rooms(alloc, routing.nodes(), 1024)?;
    let mut fits = true;
    for session in sessions {
        let wants = hop_wants::<S>(alloc, routing, order, locals, *session)?;
        charge_wants::<S>(books, *session, wants.as_slice())?;
        fits = find_room(alloc, routing, &mut lines, wants.as_slice(), fits)?;
    }
    Ok(fits)
}

/// What each end of a network owes when all is settled, by what its hosts ask of it: of each session and style, the style
/// merge (RFC 2205, 2.2) of what is wanted over the hops that go out of the end; and whether it fits. `NoMemory`: there was
/// no room for it.
pub fn demand(alloc: Global, routing: &Routing, locals: &Locals) -> Result<Demand, NoMemory>
    requires { AreLocals routing.now (locals_of locals.now) }
    ensures ends { IfOk result (λ d. AreDemands routing.now (locals_of locals.now) d.ends.items) }
    ensures fits { IfOk result (λ d. IsTrue d.fits ↔ DemandsFit routing.now (locals_of locals.now)) }
{
    let order = routing.by_rank();
    let sessions = sessions_of(alloc, locals.wants.as_slice())?;
    let mut ends = nothing_owed(alloc, routing.ends().len())?;
    let wild = charge_style::<Wild>(
        alloc,
        routing,
        order,
        locals,
        sessions.as_slice(),
        &mut ends,
    )?;
    let fixed = charge_style::<Fixed>(
        alloc,
        routing,
        order,
        locals,
        sessions.as_slice(),
        &mut ends,
    )?;
    let shared = charge_style::<Shared>(
        alloc,
        routing,
        order,
        locals,
        sessions.as_slice(),
        &mut ends,
    )?;
    let fits = are_met(
        wild && fixed && shared,
        locals.wants.as_slice(),
        sessions.as_slice(),
        ends.as_slice(),
        routing.ends(),
    );
    Ok(Demand { ends, fits })
}
