//! Reservations and blockades that are left over.
ghost use Rattle.std.specs.Prelude.{◌≡◌, ◌≤◌, ◌<◌, ℕ, false, None, Some, length, MatchResult, OnErr};
ghost use Rattle.std.specs.Ordering.{eq_by_cmp};
ghost use Rattle.rsvp_base.specs.Orders.{sessions};
ghost use Rattle.rsvp_base.specs.Table.{empty, get};
ghost use Rattle.rsvp_base.specs.declared.style.StyleKind.{StyleKind as KindOf};
ghost use Rattle.style_rules.specs.Lines.{LineKey};
ghost use Rattle.style_rules.specs.Parts.{IsOfStyle};
ghost use Rattle.style_rules.specs.Targets.{WallKey};
ghost use Rattle.router_rules.specs.Calls.{act_stale, stale_refusal};
ghost use Rattle.router_state.specs.State.{Said, facts_of, table_in};
ghost use Rattle.router_state.specs.Whole.{ArePulled, IsBooked, IsOfPlace, state_of};
ghost use Rattle.router_arrivals.specs.LeftOver.{AreFew, resv_left, wall_left};

use resv_admission::stand;
use resv_state::ResvFact;
use router_rules::StaleErr;
use router_state::Tables;
use rsvp_base::{Session, StyleKind};
use style_rules::{Target, Wall};

/// A reservation is left over at a node, with this much left, in milliseconds, in place of the one that stands under its key.
/// It is of the style, and its interface is one of the node's. `Full` exactly where the table of its style would not be within
/// its limits, else `Over` exactly where the book of its interface refuses its entry. Nothing changes after either.
pub fn leave_resv(
    tables: &mut Tables,
    style: StyleKind,
    fact: ResvFact,
    left: u32,
) -> Result<(), StaleErr>
    requires booked { IsBooked tables.old }
    requires pulled { ArePulled tables.old }
    requires place { IsOfPlace tables.old }
    requires exists { fact.iface < length tables.old.book.ifaces }
    requires style { IsOfStyle style fact.part }
    requires some { 1 ≤ left }
    ensures refused { (c : ℕ) (said : Said)
        → MatchResult result (λ _. stale_refusal tables.old.config (resv_left style c fact left) (facts_of c (state_of tables.old said)) ≡ None)
        (λ e. stale_refusal tables.old.config (resv_left style c fact left) (facts_of c (state_of tables.old said)) ≡ Some e) }
    ensures facts { (c : ℕ) (said : Said) → facts_of c (state_of tables.new said) ≡ act_stale tables.old.config (resv_left style c fact left) (facts_of c (state_of tables.old said)) }
    ensures others { (st : KindOf) (q : LineKey) → eq_by_cmp sessions.cmp fact.session q.0 ≡ false → get (table_in st (state_of tables.old empty)) q ≡ get (table_in st (state_of tables.new empty)) q }
    ensures booked { IsBooked tables.new }
    ensures pulled { ArePulled tables.new }
    ensures ifaces { tables.new.book.ifaces ≡ tables.old.book.ifaces }
    ensures err { OnErr result (tables.new ≡ tables.old) }
    ensures rest { tables.new ≡ record tables.old { wild = tables.new.wild; fixed = tables.new.fixed; shared = tables.new.shared; book = tables.new.book } }
{
    look(tables);
    match style {
        StyleKind::Wild => stand(&mut tables.wild, &mut tables.book, fact, left),
        StyleKind::Fixed => stand(&mut tables.fixed, &mut tables.book, fact, left),
        StyleKind::Shared => stand(&mut tables.shared, &mut tables.book, fact, left),
    }
}

/// A blockade is left over at a node, with this much left, in milliseconds, in place of the one that stands there. `Full`
/// exactly where this would be a 513th; nothing changes then.
pub fn leave_wall(
    tables: &mut Tables,
    session: Session,
    target: Target,
    wall: Wall,
    left: u32,
) -> Result<(), StaleErr>
    requires { 1 ≤ left }
    ensures refused { (c : ℕ) (said : Said)
        → MatchResult result (λ _. stale_refusal tables.old.config (wall_left (session, target) c wall left) (facts_of c (state_of tables.old said))
        ≡ None) (λ e. stale_refusal tables.old.config (wall_left (session, target) c wall left) (facts_of c (state_of tables.old said)) ≡ Some e) }
    ensures facts { (c : ℕ) (said : Said) → facts_of c (state_of tables.new said) ≡ act_stale tables.old.config (wall_left (session, target) c wall left) (facts_of c (state_of tables.old said)) }
    ensures others { (k : WallKey) → eq_by_cmp sessions.cmp session k.0 ≡ false → get tables.old.walls k ≡ get tables.new.walls k }
    ensures booked { IsBooked tables.old → IsBooked tables.new }
    ensures pulled { ArePulled tables.old → ArePulled tables.new }
    ensures err { OnErr result (tables.new ≡ tables.old) }
    ensures rest { tables.new ≡ record tables.old { walls = tables.new.walls } }
{
    error_sends::leave_wall(&mut tables.walls, session, target, wall, left)
}

// The proof sees here that no table has more than 1,024 reservations.
fn look(tables: &Tables)
    ensures { AreFew (state_of tables.now empty) }
{
    let _wild = tables.wild.limits();
    let _fixed = tables.fixed.limits();
    let _shared = tables.shared.limits();
}
