//! Heads: where the rows of each session begin.
ghost use Rattle.std.specs.Prelude.{◌≡◌, ◌<◌, ◌≤◌, ℕ, map, length, IfOk, IfErr, Option, Some, None, slice_index_or, slice_get, vec_capacity, cond};
ghost use Rattle.std.specs.Option.{option_map};
ghost use Rattle.std.specs.FinMap.Entries.{find};
ghost use Rattle.std.specs.declared.cmp.Ordering.TheVariants.{Less};
ghost use Rattle.rsvp_base.specs.Orders.{sessions};
ghost use Rattle.rsvp_base.specs.Rows.{AreRows, HasRowAt, LacksRowAt};
ghost use Rattle.soft_table.specs.Lists.{head_row, leads, is_first, led};

use rsvp_base::Session;

/// A session that has rows, and the slot of the first of them.
#[derive(Clone, Copy)]
pub(crate) struct Head {
    pub(crate) session: Session,
    pub(crate) first: u32,
}

// Where the session's head stands, or where it would go.
#[inline(always)]
pub(crate) fn search(heads: &[Head], session: Session) -> Result<usize, usize>
    requires { AreRows sessions head_row heads.now }
    ensures there { IfOk result (HasRowAt sessions head_row heads.now session) }
    ensures absent { IfErr result (LacksRowAt sessions head_row heads.now session) }
{
    heads.binary_search_by(|head| head.session.cmp(&session))
}

// The slot of the session's first row.
pub(crate) fn first_in(heads: &[Head], session: Session) -> Option<u32>
    requires { AreRows sessions head_row heads.now }
    ensures { result ≡ find sessions.cmp session (map head_row heads.now) }
{
    match search(heads, session) {
        Ok(at) => Some(heads[at].first),
        Err(_) => None,
    }
}

// The slot of the session's first row. `Err`: it has none, and this is the first row behind the place of its rows.
pub(crate) fn led_to(heads: &[Head], session: Session) -> Result<u32, Option<u32>>
    requires { AreRows sessions head_row heads.now }
    ensures there { IfOk result (λ f. find sessions.cmp session (map head_row heads.now) ≡ Some f) }
    ensures absent { IfErr result (λ f. (at : ℕ) × LacksRowAt sessions head_row heads.now session at × (f ≡ option_map (λ h. h.first) (slice_get heads.now at))) }
{
    match search(heads, session) {
        Ok(at) => Ok(heads[at].first),
        Err(at) => match heads.get(at) {
            Some(head) => Err(Some(head.first)),
            None => Err(None),
        },
    }
}

// Lets the session's head lead to this slot, or takes it out where there is none. The room is there, so this takes no memory.
pub(crate) fn lead(heads: &mut Vec<Head>, session: Session, first: Option<u32>)
    requires rising { AreRows sessions head_row heads.old.items }
    requires room { find sessions.cmp session (map head_row heads.old.items) ≡ None → length heads.old.items < vec_capacity heads.old }
    ensures heads { map head_row heads.new.items ≡ led session first (map head_row heads.old.items) }
    ensures capacity { vec_capacity heads.old ≤ vec_capacity heads.new }
{
    match (search(heads.as_slice(), session), first) {
        (Ok(at), Some(first)) => heads[at] = Head { session, first },
        (Ok(at), None) => {
            heads.remove(at);
        }
        (Err(at), Some(first)) => {
            let _ = heads.insert(at, Head { session, first });
        }
        (Err(_), None) => {}
    }
}

// Whether a row that is put in before this one, or behind all, is its session's first.
fn leads(first: Option<u32>, behind: Option<u32>) -> bool
    ensures { result ≡ leads first behind }
{
    match (first, behind) {
        (None, _) => true,
        (Some(_), None) => false,
        (Some(first), Some(behind)) => first == behind,
    }
}

// Lets the session's head lead to a row that is put in before another, or behind all, where it is the session's first.
pub(crate) fn put_first(heads: &mut Vec<Head>, session: Session, behind: Option<u32>, slot: u32)
    requires rising { AreRows sessions head_row heads.old.items }
    requires room { find sessions.cmp session (map head_row heads.old.items) ≡ None → length heads.old.items < vec_capacity heads.old }
    ensures heads { let was = map head_row heads.old.items in map head_row heads.new.items ≡ cond (leads (find sessions.cmp session was) behind) (led session (Some slot) was) was }
    ensures capacity { vec_capacity heads.old ≤ vec_capacity heads.new }
{
    if leads(first_in(heads.as_slice(), session), behind) {
        lead(heads, session, Some(slot));
    }
}

// Whether a row is its session's first.
fn is_first(slot: u32, first: Option<u32>) -> bool
    ensures { result ≡ is_first slot first }
{
    match first {
        Some(first) => first == slot,
        None => false,
    }
}

// Lets the session's head lead to the row behind its first, where this is taken out, or takes the head out where there is
// none.
pub(crate) fn take_first(heads: &mut Vec<Head>, session: Session, slot: u32, behind: Option<u32>)
    requires { AreRows sessions head_row heads.old.items }
    ensures heads { let was = map head_row heads.old.items in map head_row heads.new.items ≡ cond (is_first slot (find sessions.cmp session was)) (led session behind was) was }
    ensures capacity { vec_capacity heads.old ≤ vec_capacity heads.new }
{
    if is_first(slot, first_in(heads.as_slice(), session)) {
        lead(heads, session, behind);
    }
}
