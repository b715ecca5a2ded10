//! Local receivers ask, and ask no more.
ghost use Rattle.std.specs.Prelude.{◌≡◌, ◌↔◌, ℕ, false, None, Some, IsErr, MatchResult, OnErr, OnOk};
ghost use Rattle.std.specs.Ordering.{eq_by_cmp};
ghost use Rattle.rsvp_base.specs.Orders.{sessions, units};
ghost use Rattle.rsvp_base.specs.SessionLimits.{has_room_at};
ghost use Rattle.rsvp_base.specs.Table.{get, with_rows};
ghost use Rattle.router_rules.specs.Calls.{act_call, call_refusal, unless, wanted};
ghost use Rattle.router_rules.specs.Facts.{WantKey};
ghost use Rattle.router_rules.specs.Inputs.{QuitAll, WantAs};
ghost use Rattle.router_state.specs.State.{Said, facts_of};
ghost use Rattle.router_state.specs.Whole.{ArePulled, IsBooked, state_of};
ghost use Rattle.router_arrivals.specs.Asked.{want_refusal};

use crate::names::put_each;
use local_state::{LocalWant, LocalWants};
use router_rules::LocalErr;
use router_state::Tables;
use rsvp_base::{Flow, Full, Part, Senders, Session, StyleKind, Unit};

/// A local receiver asks for a flow of a session and style, and whether it wants to hear that the reservation stands (RFC
/// 2205, 3.11.1: RESERVE): a wildcard filter is one unit of no senders, a shared explicit one is one unit of the senders, and
/// of a fixed filter each sender is a unit of its own. A unit that is there is replaced. `Style` exactly where a local want of
/// the session has another style; else `Full` exactly where it would be the first of a 33rd session, or the session would have
/// a 17th unit. Nothing changes after either.
pub fn put_wants(
    tables: &mut Tables,
    session: Session,
    style: StyleKind,
    senders: &Senders,
    flow: Flow,
    confirm: bool,
) -> Result<(), LocalErr>
    ensures refused { (c : ℕ) (said : Said)
        → MatchResult result
        (λ _. call_refusal tables.old.config (WantAs session style senders.now flow confirm) (facts_of c (state_of tables.old said)) ≡ None)
        (λ e. call_refusal tables.old.config (WantAs session style senders.now flow confirm) (facts_of c (state_of tables.old said)) ≡ Some e) }
    ensures facts { (c : ℕ) (said : Said)
        → facts_of c (state_of tables.new said)
        ≡ (act_call tables.old.config (WantAs session style senders.now flow confirm) (facts_of c (state_of tables.old said))).facts }
    ensures others { (j : WantKey) → eq_by_cmp sessions.cmp session j.0 ≡ false → get tables.old.wants j ≡ get tables.new.wants j }
    ensures booked { IsBooked tables.old → IsBooked tables.new }
    ensures pulled { ArePulled tables.old → ArePulled tables.new }
    ensures err { OnErr result (tables.new ≡ tables.old) }
    ensures rest { tables.new ≡ record tables.old { wants = tables.new.wants } }
{
    ask(&mut tables.wants, session, style, senders, flow, confirm)
}

/// All local receivers of a session ask for nothing more (RFC 2205, 3.11.1: RELEASE). `Absent` exactly where it has none;
/// nothing changes then.
pub fn drop_wants(tables: &mut Tables, session: Session) -> Result<(), LocalErr>
    ensures refused { (c : ℕ) (said : Said)
        → MatchResult result (λ _. call_refusal tables.old.config (QuitAll session) (facts_of c (state_of tables.old said)) ≡ None)
        (λ e. call_refusal tables.old.config (QuitAll session) (facts_of c (state_of tables.old said)) ≡ Some e) }
    ensures facts { (c : ℕ) (said : Said) → facts_of c (state_of tables.new said) ≡ (act_call tables.old.config (QuitAll session) (facts_of c (state_of tables.old said))).facts }
    ensures others { (j : WantKey) → eq_by_cmp sessions.cmp session j.0 ≡ false → get tables.old.wants j ≡ get tables.new.wants j }
    ensures booked { IsBooked tables.old → IsBooked tables.new }
    ensures pulled { ArePulled tables.old → ArePulled tables.new }
    ensures err { OnErr result (tables.new ≡ tables.old) }
    ensures rest { tables.new ≡ record tables.old { wants = tables.new.wants } }
{
    if tables.wants.quit(session) {
        Ok(())
    } else {
        Err(LocalErr::Absent)
    }
}

// Puts what a call asks for among the wants, where they are of its style and have room.
fn ask(
    wants: &mut LocalWants,
    session: Session,
    style: StyleKind,
    senders: &Senders,
    flow: Flow,
    confirm: bool,
) -> Result<(), LocalErr>
    ensures refused { MatchResult result (λ _. want_refusal wants.old session style senders.now flow confirm ≡ None) (λ e. want_refusal wants.old session style senders.now flow confirm ≡ Some e) }
    ensures wants { wants.new ≡ unless (want_refusal wants.old session style senders.now flow confirm) (with_rows wants.old (wanted session style senders.now flow confirm)) wants.old }
    ensures err { OnErr result (wants.new ≡ wants.old) }
{
    if wants.has_other(session, style) {
        return Err(LocalErr::Style);
    }
    match put_by_style(wants, session, style, senders, flow, confirm) {
        Ok(()) => Ok(()),
        Err(_) => Err(LocalErr::Full),
    }
}

// Puts the units that a call asks for. `Full` exactly where they have not all room; nothing changes then.
fn put_by_style(
    wants: &mut LocalWants,
    session: Session,
    style: StyleKind,
    senders: &Senders,
    flow: Flow,
    confirm: bool,
) -> Result<(), Full>
    ensures ok { OnOk result (wants.new ≡ with_rows wants.old (wanted session style senders.now flow confirm)) }
    ensures full { IsErr result ↔ (has_room_at units (with_rows wants.old (wanted session style senders.now flow confirm)) session ≡ false) }
    ensures err { OnErr result (wants.new ≡ wants.old) }
{
    let senders = match style {
        StyleKind::Wild => Senders::new(),
        StyleKind::Fixed => return put_each(wants, session, senders, flow, confirm),
        StyleKind::Shared => senders.copy(),
    };
    wants.put(LocalWant {
        session,
        unit: Unit::One,
        style,
        part: Part { senders, flow },
        confirm,
    })
}
