//! Lists that lines hold.
use rsvp_base::EndName;
use std::marker::Model;

/// A list of things. Contracts see the list.
#[derive(Drop)]
pub struct Listed<T: Drop> {
    list: Vec<T>,
}

impl<T: Drop> Model for Listed<T> {
    ghost use Rattle.std.specs.Prelude.{List};

    ghost Value = { List T };

    ghost view = { λ l. l.list.items };
}

impl<T: Drop> Listed<T> {
    ghost use Rattle.std.specs.Prelude.{◌≡◌};

    /// The list of these.
    pub fn of(list: Vec<T>) -> Listed<T>
        ensures { result ≡ list.items }
    {
        Listed { list }
    }

    /// The things, in order.
    pub fn as_slice(&self) -> &[T]
        ensures { result.now ≡ self.now }
    {
        self.list.as_slice()
    }
}

/// The ends of a link by their names: two to eight. Contracts see the list.
#[derive(Drop)]
pub struct LinkEnds {
    list: Vec<EndName>,
}

impl Model for LinkEnds {
    ghost use Rattle.std.specs.Prelude.{List, ℕ, ◌≤◌, length};

    ghost Value = { List (List ℕ) };

    ghost view = { λ l. l.list.items };

    ghost invariant = { λ l. (2 ≤ length l.list.items) × (length l.list.items ≤ 8) };
}

impl LinkEnds {
    ghost use Rattle.std.specs.Prelude.{◌≡◌, ◌≤◌, length};

    /// The list of these.
    pub fn of(list: Vec<EndName>) -> LinkEnds
        requires some { 2 ≤ length list.items }
        requires few { length list.items ≤ 8 }
        ensures { result ≡ list.items }
    {
        LinkEnds { list }
    }

    /// The names, in order.
    pub fn as_slice(&self) -> &[EndName]
        ensures names { result.now ≡ self.now }
        ensures some { 2 ≤ length result.now }
        ensures few { length result.now ≤ 8 }
    {
        self.list.as_slice()
    }
}
