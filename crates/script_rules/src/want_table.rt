//! The wants that stand, in the order of their lines, and found by node.
ghost use Rattle.std.specs.Prelude.{◌≡◌, ◌↔◌, ◌/◌, ◌∷◌, ◌++◌, [], IfOk, IsTrue, None, OnOk, count_by, get_or, is_some, length, map, nat_le, not};
ghost use Rattle.std.specs.List.{All, filter};
ghost use Rattle.script_grammar.specs.Adds.{is_want_at, wants_at, with_want};
ghost use Rattle.script_rules.specs.Entries.{AreListed, is_meant_at, standing, with_slot, with_slots};

use crate::entries::{Entry, Which, at, clear, count_of, fit_in, is_of_session, put_down, strike};
use rsvp_base::{NoMemory, Session, StyleKind};
use std::alloc::Global;
use std::marker::Model;
use tree_model::LocalWant;

/// The wants that stand, in the order of their lines. Contracts see the list of them.
#[derive(Drop)]
pub struct WantTable {
    alloc: Global,
    // In the order of their lines, with empty slots where wants were taken out.
    slots: Vec<Option<LocalWant>>,
    // Of each node the entries of its wants.
    entries: Vec<Vec<Entry>>,
}

impl Model for WantTable {
    ghost use Rattle.std.specs.Prelude.{List, map};
    ghost use Rattle.tree_model.specs.declared.locals.LocalWant.{LocalWant as WantOf};
    ghost use Rattle.script_rules.specs.Entries.{AreListed, standing};

    ghost Value = { List WantOf };

    ghost view = { λ t. standing t.slots.items };

    ghost invariant = { λ t. AreListed t.slots.items (map (λ v. v.items) t.entries.items) };
}

// Takes the wants of a node that are meant out.
fn take_out(
    slots: &mut Vec<Option<LocalWant>>,
    entries: &mut Vec<Vec<Entry>>,
    node: u16,
    which: Which,
)
    requires { AreListed slots.old.items (map (λ v. v.items) entries.old.items) }
    ensures listed { AreListed slots.new.items (map (λ v. v.items) entries.new.items) }
    ensures wants { standing slots.new.items ≡ filter (λ w. not (is_meant_at node which w)) (standing slots.old.items) }
{
    clear(slots, at(entries.as_slice(), node), which);
    strike(entries, node, which);
}

// Puts a want behind all others.
fn put_behind(
    alloc: Global,
    slots: &mut Vec<Option<LocalWant>>,
    entries: &mut Vec<Vec<Entry>>,
    want: LocalWant,
) -> Result<(), NoMemory>
    requires { AreListed slots.old.items (map (λ v. v.items) entries.old.items) }
    ensures listed { AreListed slots.new.items (map (λ v. v.items) entries.new.items) }
    ensures ok { OnOk result (standing slots.new.items ≡ standing slots.old.items ++ want ∷ []) }
{
    let entry = Entry {
        session: want.session,
        style: want.style,
        unit: want.part.unit(want.style),
        slot: slots.len(),
    };
    slots.reserve(1)?;
    put_down(alloc, entries, want.node, entry)?;
    slots.push_reserved(Some(want));
    Ok(())
}

impl WantTable {
    /// No wants.
    pub fn new(alloc: Global) -> WantTable
        ensures { result ≡ [] }
    {
        WantTable {
            alloc,
            slots: Vec::new(alloc),
            entries: Vec::new(alloc),
        }
    }

    /// How many wants of a session there are at a node.
    pub fn count(&self, node: u16, session: Session) -> usize
        ensures { result ≡ length (wants_at self.now node session) }
    {
        count_of(at(self.entries.as_slice(), node), session)
    }

    /// The wants of a session at a node once more, in order.
    pub fn of(&self, alloc: Global, node: u16, session: Session) -> Result<Vec<LocalWant>, NoMemory>
        ensures { IfOk result (λ own. own.items ≡ wants_at self.now node session) }
    {
        let mut own = Vec::new(alloc);
        let entries = at(self.entries.as_slice(), node);
        draw(&mut own, self.slots.as_slice(), entries, session)?;
        Ok(own)
    }

    /// Whether the wants of a session at a node are of this style.
    pub fn are_of_style(&self, node: u16, session: Session, style: StyleKind) -> bool
        ensures { IsTrue result ↔ All (λ w. w.style ≡ style) (wants_at self.now node session) }
    {
        fit_in(at(self.entries.as_slice(), node), session, style)
    }

    /// Puts a want in the place of that of its unit, behind all others.
    pub fn put(&mut self, want: LocalWant) -> Result<(), NoMemory>
        ensures { OnOk result (self.new ≡ with_want self.old want) }
    {
        if self.slots.len() == self.slots.capacity() && is_half_empty(self.slots.as_slice()) {
            self.pack()?;
        }
        self.replace(want)
    }

    // Puts a want in the place of that of its unit.
    fn replace(&mut self, want: LocalWant) -> Result<(), NoMemory>
        ensures { OnOk result (self.new ≡ with_want self.old want) }
    {
        let which = Which {
            session: want.session,
            one: Some((want.style, want.part.unit(want.style))),
        };
        take_out(&mut self.slots, &mut self.entries, want.node, which);
        put_behind(self.alloc, &mut self.slots, &mut self.entries, want)
    }

    // Puts a want behind all others.
    fn append(&mut self, want: LocalWant) -> Result<(), NoMemory>
        ensures { OnOk result (self.new ≡ self.old ++ want ∷ []) }
    {
        put_behind(self.alloc, &mut self.slots, &mut self.entries, want)
    }

    // Leaves no slot empty.
    fn pack(&mut self) -> Result<(), NoMemory>
        ensures { OnOk result (self.new ≡ self.old) }
    {
        *self = packed(self.alloc, self.slots.as_slice())?;
        Ok(())
    }

    /// Takes the wants of a session at a node out.
    pub fn take_out(&mut self, node: u16, session: Session)
        ensures { self.new ≡ filter (λ w. not (is_want_at node session w)) self.old }
    {
        let which = Which { session, one: None };
        take_out(&mut self.slots, &mut self.entries, node, which);
    }

    /// The wants once more, in order.
    pub fn to_vec(&self, alloc: Global) -> Result<Vec<LocalWant>, NoMemory>
        ensures { IfOk result (λ to. to.items ≡ self.now) }
    {
        copies(alloc, self.slots.as_slice())
    }
}

// An equal want.
fn copy_of(want: &LocalWant) -> LocalWant
    ensures { result ≡ want.now }
{
    LocalWant {
        node: want.node,
        session: want.session,
        style: want.style,
        part: want.part.copy(),
    }
}

// Puts the want in a slot, where there is one, behind those of a list once more.
fn draw_one(own: &mut Vec<LocalWant>, slot: &Option<LocalWant>) -> Result<(), NoMemory>
    ensures { OnOk result (own.new.items ≡ with_slot own.old.items slot.now) }
{
    match slot {
        Some(want) => {
            own.push(copy_of(want))?;
            Ok(())
        }
        None => Ok(()),
    }
}

// Puts the want in the slot of this number, where there is one, behind those of a list.
fn draw_from(
    own: &mut Vec<LocalWant>,
    slots: &[Option<LocalWant>],
    slot: usize,
) -> Result<(), NoMemory>
    ensures { OnOk result (own.new.items ≡ with_slot own.old.items (get_or slots.now slot None)) }
{
    if slot < slots.len() {
        draw_one(own, &slots[slot])
    } else {
        Ok(())
    }
}

// Puts the wants of the entries of a session behind those of a list once more.
fn draw(
    own: &mut Vec<LocalWant>,
    slots: &[Option<LocalWant>],
    entries: &[Entry],
    session: Session,
) -> Result<(), NoMemory>
    ensures { OnOk result (own.new.items ≡ with_slots session slots.now own.old.items entries.now) }
{
    match entries {
        [] => Ok(()),
        [first, others @ ..] => {
            if is_of_session(session, first) {
                draw_from(own, slots, first.slot)?;
            }
            draw(own, slots, others, session)
        }
    }
}

// The wants in these slots once more.
fn copies(alloc: Global, slots: &[Option<LocalWant>]) -> Result<Vec<LocalWant>, NoMemory>
    ensures { IfOk result (λ to. to.items ≡ standing slots.now) }
{
    let mut to = Vec::new(alloc);
    for slot in slots {
        if let Some(want) = slot {
            to.push(copy_of(want))?;
        }
    }
    Ok(to)
}

// A table of the wants in these slots, with no slot empty.
fn packed(alloc: Global, slots: &[Option<LocalWant>]) -> Result<WantTable, NoMemory>
    ensures { IfOk result (λ to. to ≡ standing slots.now) }
{
    let mut to = WantTable::new(alloc);
    for slot in slots {
        if let Some(want) = slot {
            to.append(copy_of(want))?;
        }
    }
    Ok(to)
}

// Whether wants are in no more than half of these slots.
fn is_half_empty(slots: &[Option<LocalWant>]) -> bool
    ensures { result ≡ nat_le (count_by is_some slots.now) (length slots.now / 2) }
{
    slots.iter().filter(|slot| slot.is_some()).count() <= slots.len() / 2
}
