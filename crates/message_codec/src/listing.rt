//! Sets and tables of the senders that filters name.
//!
//! None of them is answered in an `Option`, whose place would be cleared and copied: that there is one is asked first, and then it is
//! made where it is wanted.
ghost use Rattle.std.specs.Prelude.{◌≡◌, ◌≤◌, ◌<◌, ◌+◌, ◌∷◌, ◌↔◌, [], length, IsTrue, Some, None, IfSome, IfNone};
ghost use Rattle.rsvp_base.specs.declared.style.StyleKind.TheVariants as AStyle;
ghost use Rattle.rsvp_base.specs.Sets.{with_key};
ghost use Rattle.rsvp_base.specs.Table.{empty, put_in, size, with_rows};
ghost use Rattle.message_codec.specs.Firsts.{IsFirst, IsStart, LacksFilter};
ghost use Rattle.message_codec.specs.Messages.{names_in, named, first_named, pairs_in, table_of_pairs};

use crate::filters::Filters;
use crate::seen::Seen;
use rsvp_base::{Flow, Sender, Senders, StyleKind};
use rsvp_messages::FixedList;

/// Whether there are no filters.
pub fn is_nobody_named(filters: &Filters) -> bool
    ensures { IsTrue result ↔ (filters.now ≡ []) }
{
    filters.as_slice().is_empty()
}

/// The senders of filters, of which there is one.
#[inline(always)]
pub fn names(filters: &Filters) -> Senders
    requires { filters.now ≡ [] → ⊥ }
    ensures { named filters.now ≡ Some result }
{
    names_of(filters.as_slice())
}

/// The senders that a ResvErr of FF or SE blames, of which there is one: of FF the first.
#[inline(always)]
pub fn blamed(style: StyleKind, filters: &Filters) -> Senders
    requires { filters.now ≡ [] → ⊥ }
    ensures fixed { style ≡ AStyle.Fixed → first_named filters.now ≡ Some result }
    ensures shared { style ≡ AStyle.Shared → named filters.now ≡ Some result }
{
    let filters = filters.as_slice();
    names_of(if style == StyleKind::Fixed {
        &filters[..1]
    } else {
        filters
    })
}

#[inline(always)]
fn names_of(filters: &[(Sender, Option<Flow>)]) -> Senders
    requires { length filters.now ≤ 16 }
    ensures { result ≡ names_in filters.now }
{
    let mut senders = Senders::new();
    for filter in filters {
        add(&mut senders, filter.0);
    }
    senders
}

fn add(senders: &mut Senders, sender: Sender)
    requires { size senders.old < 16 }
    ensures { senders.new ≡ with_key senders.old sender }
{
    let _ = senders.insert(sender);
}

/// How the list of a style begins.
#[derive(Clone, Copy)]
pub enum Start {
    /// It names nobody.
    Wild,
    /// With this filter, behind which there may be others.
    Fixed(First),
    /// With whichever filter, of which there is one.
    Shared,
}

/// How the list of a style begins. `None` exactly where a FILTER_SPEC is missing.
#[inline(always)]
pub fn start_of(style: StyleKind, seen: &Seen) -> Option<Start>
    ensures some { IfSome result (IsStart style seen.now) }
    ensures none { IfNone result (LacksFilter style seen.now) }
{
    match style {
        StyleKind::Wild => Some(Start::Wild),
        StyleKind::Fixed => {
            if seen.due {
                return None;
            }
            match first_with_flow(&seen.filters) {
                None => None,
                Some(first) => Some(Start::Fixed(first)),
            }
        }
        StyleKind::Shared => {
            if is_nobody_named(&seen.filters) {
                return None;
            }
            Some(Start::Shared)
        }
    }
}

/// A filter that is the first with a flow.
#[derive(Clone, Copy)]
pub struct First {
    pub sender: Sender,
    pub flow: Flow,
    /// The place behind it.
    pub behind: usize,
}

/// The first filter with a flow. `None` exactly where no filter has one.
pub fn first_with_flow(filters: &Filters) -> Option<First>
    ensures some { IfSome result (IsFirst filters.now) }
    ensures none { IfNone result (table_of_pairs (pairs_in filters.now) ≡ None) }
{
    first_of(filters.as_slice())
}

fn first_of(filters: &[(Sender, Option<Flow>)]) -> Option<First>
    requires { length filters.now ≤ 16 }
    ensures some { IfSome result (IsFirst filters.now) }
    ensures none { IfNone result (pairs_in filters.now ≡ []) }
{
    let mut behind = 0;
    for filter in filters {
        behind += 1;
        match filter.1 {
            None => {}
            Some(flow) => {
                return Some(First {
                    sender: filter.0,
                    flow,
                    behind,
                })
            }
        }
    }
    None
}

/// Puts each sender that has a flow behind the first, which stands in the list alone.
pub fn put_others(list: &mut FixedList, filters: &Filters, first: &First)
    requires first { IsFirst filters.now first.now }
    requires alone { list.old ≡ put_in empty first.now.sender first.now.flow }
    ensures { table_of_pairs (pairs_in filters.now) ≡ Some list.new }
{
    put_all(list, &filters.as_slice()[first.behind..]);
}

// Puts each sender that has a flow.
fn put_all(list: &mut FixedList, filters: &[(Sender, Option<Flow>)])
    requires { size list.old + length filters.now ≤ 16 }
    ensures { list.new ≡ with_rows list.old (pairs_in filters.now) }
{
    match filters {
        [] => {}
        [(_, None), rest @ ..] => put_all(list, rest),
        [(sender, Some(flow)), rest @ ..] => {
            put(list, *sender, *flow);
            put_all(list, rest)
        }
    }
}

fn put(list: &mut FixedList, sender: Sender, flow: Flow)
    requires { size list.old < 16 }
    ensures is { list.new ≡ put_in list.old sender flow }
    ensures grew { size list.new ≤ size list.old + 1 }
{
    let _ = list.put(sender, flow);
}
