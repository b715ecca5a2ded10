//! The keys of rows, by slot.
ghost use Rattle.std.specs.Prelude.{◌≡◌, ◌<◌, ℕ, IfSome, Option, Some, None, slice_get, vec_capacity};
ghost use Rattle.soft_table.specs.Lists.{key_row, of_session};

use rsvp_base::Session;
use std::cmp::Ordering;

/// The key of a slot, where it has a row.
#[inline(always)]
pub(crate) fn key_of<R: Copy>(keys: &[Option<(Session, R)>], slot: u32) -> Option<(Session, R)>
    ensures { IfSome result (λ k. slice_get keys.now slot ≡ Some (Some k)) }
{
    match keys.get(slot as usize) {
        Some(key) => *key,
        None => None,
    }
}

/// The key of a slot that has a row.
#[inline(always)]
pub(crate) fn key_at<R: Copy>(keys: &[Option<(Session, R)>], slot: u32) -> (Session, R)
    requires { (k : Session × R) × (slice_get keys.now slot ≡ Some (Some k)) }
    ensures { slice_get keys.now slot ≡ Some (Some result) }
{
    match keys[slot as usize] {
        Some(key) => key,
        None => unreachable!(),
    }
}

/// Puts the key of a slot down. The room is there, so this takes no memory.
pub(crate) fn set_key<R: Copy>(keys: &mut Vec<Option<(Session, R)>>, slot: u32, key: (Session, R))
    requires { slot < vec_capacity keys.old }
    ensures here { slice_get keys.new.items slot ≡ Some (Some key) }
    ensures same { (t : ℕ) → (t ≡ slot → ⊥) → key_row t (slice_get keys.new.items t) ≡ key_row t (slice_get keys.old.items t) }
    ensures capacity { vec_capacity keys.new ≡ vec_capacity keys.old }
{
    for _more in keys.len()..slot as usize + 1 {
        keys.push_reserved(None);
    }
    keys[slot as usize] = Some(key);
}

/// Takes the key of a slot out.
pub(crate) fn unset_key<R: Copy>(keys: &mut Vec<Option<(Session, R)>>, slot: u32)
    requires { (k : Session × R) × (slice_get keys.old.items slot ≡ Some (Some k)) }
    ensures here { slice_get keys.new.items slot ≡ Some None }
    ensures same { (t : ℕ) → (t ≡ slot → ⊥) → slice_get keys.new.items t ≡ slice_get keys.old.items t }
    ensures capacity { vec_capacity keys.new ≡ vec_capacity keys.old }
{
    keys[slot as usize] = None;
}

/// A slot, where its row is of this session.
pub(crate) fn of_session<R: Copy>(
    keys: &[Option<(Session, R)>],
    slot: Option<u32>,
    session: Session,
) -> Option<u32>
    requires { IfSome slot (λ s. (k : Session × R) × (slice_get keys.now s ≡ Some (Some k))) }
    ensures { result ≡ of_session keys.now session slot }
{
    let Some(slot) = slot else {
        return None;
    };
    let key = key_at(keys, slot);
    if session.cmp(&key.0) == Ordering::Equal {
        Some(slot)
    } else {
        None
    }
}
