//! The wants of one session at one node, with what a line wants put among them.
ghost use Rattle.std.specs.Prelude.{◌≡◌, ◌&&◌, IfOk, IfErr, OnOk, count_by, length, map, not};
ghost use Rattle.std.specs.List.{filter};
ghost use Rattle.std.specs.Ordering.{eq_by_cmp};
ghost use Rattle.rsvp_base.specs.Orders.{styles as by_style, units as by_unit};
ghost use Rattle.rsvp_messages.specs.Units.{only};
ghost use Rattle.tree_model.specs.declared.locals.LocalWant.{LocalWant as WantOf};
ghost use Rattle.script_rules.specs.Refusals.{OnlyNoMemory};
ghost use Rattle.script_grammar.specs.Adds.{is_in_place_of, is_want_at, wanted, wants_at, with_want, with_wants};

use crate::session::is_session;
use crate::state::ScriptState;
use rsvp_base::{Flow, Part, Sender, Senders, Session, StyleKind, Unit};
use script_grammar::Stop;
use std::cmp::Ordering;
use tree_model::LocalWant;

/// How many wants of the session there are at the node with what a line wants.
pub(crate) fn count_with(
    state: &ScriptState,
    node: u16,
    session: Session,
    style: StyleKind,
    names: &Senders,
    flow: Flow,
) -> Result<usize, Stop>
    ensures ok { IfOk result (λ n. n ≡ length (wants_at (with_wants state.now.wants (wanted node session style names.now flow)) node session)) }
    ensures refused { IfErr result OnlyNoMemory }
{
    let mut own = state.wants.of(state.alloc, node, session)?;
    put(&mut own, node, session, style, names, flow)?;
    Ok(want_count(own.as_slice(), node, session))
}

// Whether it is a want of the session at the node.
fn is_want_at(node: u16, session: Session, want: &LocalWant) -> bool
    ensures { result ≡ is_want_at node session want.now }
{
    want.node == node && is_session(session, want.session)
}

// Whether two styles are the same.
fn is_style(style: StyleKind, other: StyleKind) -> bool
    ensures { result ≡ eq_by_cmp by_style.cmp style other }
{
    style == other
}

// Whether two units are one.
fn is_unit(unit: Unit, other: Unit) -> bool
    ensures { result ≡ eq_by_cmp by_unit.cmp unit other }
{
    unit.cmp(&other) == Ordering::Equal
}

// How many wants of the session there are at the node.
fn want_count(wants: &[LocalWant], node: u16, session: Session) -> usize
    ensures { result ≡ length (wants_at wants.now node session) }
{
    wants
        .iter()
        .filter(|want| is_want_at(node, session, want))
        .count()
}

// Whether a new want goes in the place of this one.
fn is_in_place_of(new: &LocalWant, want: &LocalWant) -> bool
    ensures { result ≡ is_in_place_of new.now want.now }
{
    is_want_at(new.node, new.session, want)
        && (is_style(new.style, want.style)
            && is_unit(new.part.unit(new.style), want.part.unit(want.style)))
}

// Takes out the want in whose place the new one goes.
fn make_place(wants: &mut Vec<LocalWant>, new: &LocalWant)
    ensures { wants.new.items ≡ filter (λ w. not (is_in_place_of new.now w)) wants.old.items }
{
    wants.retain(|want| !is_in_place_of(new, want));
}

// Puts a want in the place of that of its unit.
fn put_want(wants: &mut Vec<LocalWant>, new: LocalWant) -> Result<(), Stop>
    ensures ok { OnOk result (wants.new.items ≡ with_want wants.old.items new) }
    ensures refused { IfErr result OnlyNoMemory }
{
    make_place(wants, &new);
    wants.push(new)?;
    Ok(())
}

/// The list of one sender.
pub(crate) fn only(sender: Sender) -> Senders
    ensures { result ≡ only sender }
{
    let mut names = Senders::new();
    let Ok(()) = names.insert(sender) else {
        unreachable!();
    };
    names
}

// Puts a fixed want for each sender.
fn put_fixed(
    wants: &mut Vec<LocalWant>,
    node: u16,
    session: Session,
    senders: &[Sender],
    flow: Flow,
) -> Result<(), Stop>
    ensures ok { OnOk result (wants.new.items ≡ with_wants wants.old.items (map
        (λ x. record { node = node; session = session; style = StyleKind.Fixed; part = record { senders = only x; flow = flow } }) senders.now)) }
    ensures refused { IfErr result OnlyNoMemory }
{
    match senders {
        [] => Ok(()),
        [first, others @ ..] => {
            put_want(
                wants,
                LocalWant {
                    node,
                    session,
                    style: StyleKind::Fixed,
                    part: Part {
                        senders: only(*first),
                        flow,
                    },
                },
            )?;
            put_fixed(wants, node, session, others, flow)
        }
    }
}

// Puts what a line wants.
fn put(
    wants: &mut Vec<LocalWant>,
    node: u16,
    session: Session,
    style: StyleKind,
    names: &Senders,
    flow: Flow,
) -> Result<(), Stop>
    ensures ok { OnOk result (wants.new.items ≡ with_wants wants.old.items (wanted node session style names.now flow)) }
    ensures refused { IfErr result OnlyNoMemory }
{
    match style {
        StyleKind::Wild => put_one(wants, node, session, StyleKind::Wild, Senders::new(), flow),
        StyleKind::Fixed => put_fixed(wants, node, session, names.as_slice(), flow),
        StyleKind::Shared => put_one(wants, node, session, StyleKind::Shared, names.copy(), flow),
    }
}

// Puts a want of these senders together.
fn put_one(
    wants: &mut Vec<LocalWant>,
    node: u16,
    session: Session,
    style: StyleKind,
    senders: Senders,
    flow: Flow,
) -> Result<(), Stop>
    ensures ok { OnOk result (wants.new.items ≡ with_want wants.old.items (record { node = node; session = session; style = style; part = record { senders = senders; flow = flow } })) }
    ensures refused { IfErr result OnlyNoMemory }
{
    put_want(
        wants,
        LocalWant {
            node,
            session,
            style,
            part: Part { senders, flow },
        },
    )
}
