//! Senders that match a Resv.
ghost use Rattle.std.specs.Prelude.{◌≡◌, ◌<◌, ◌↔◌, IfSome, IsNone, not, cond};
ghost use Rattle.rsvp_base.specs.Sets.{cut, is_none};
ghost use Rattle.rsvp_base.specs.Table.{has, kept, size, without};
ghost use Rattle.router_rules.specs.Asking.{names_that_match};

use rsvp_base::{Sender, Senders};
use std::marker::Model;

/// Known senders whose trees go out of an interface, by the names of a style: at most 32, in two lists, each of at most 16.
/// Contracts see the set of them all.
#[derive(Drop)]
pub struct Matching {
    pub first: Senders,
    pub others: Senders,
}

impl Model for Matching {
    ghost use Rattle.rsvp_base.specs.Orders.{Names, names_code};
    ghost use Rattle.rsvp_base.specs.Sets.{union};

    ghost Value = { Names };

    ghost coded = { names_code };

    ghost view = { λ m. union m.first m.others };
}

impl Matching {
    /// Whether a sender is one of them.
    pub fn has(&self, name: Sender) -> bool
        ensures { result ≡ has self.now name }
    {
        self.first.has(name) || self.others.has(name)
    }

    /// All of them. `None` exactly where they are more than 16.
    pub fn all(&self) -> Option<Senders>
        ensures all { IfSome result (λ names. names ≡ self.now) }
        ensures many { IsNone result ↔ (16 < size self.now) }
    {
        match self.first.union(&self.others) {
            Ok(names) => Some(names),
            Err(_) => None,
        }
    }

    /// Whether there are none.
    pub fn is_empty(&self) -> bool
        ensures { result ≡ is_none self.now }
    {
        match self.all() {
            Some(names) => names.is_empty(),
            None => false,
        }
    }

    /// Those of a list of names that match, or all of them where there is no list. `None` exactly where they are more than 16.
    pub fn of_list(&self, names: &Option<Senders>) -> Option<Senders>
        ensures those { IfSome result (λ those. those ≡ names_that_match names.now self.now) }
        ensures many { IsNone result ↔ (16 < size (names_that_match names.now self.now)) }
    {
        match names {
            Some(list) => {
                prove!(list.len() <= 16);
                Some(self.among(list))
            }
            None => self.all(),
        }
    }

    /// Those of some names that match.
    pub fn among(&self, names: &Senders) -> Senders
        ensures { result ≡ cut names.now self.now }
    {
        let mut left = names.copy();
        for name in names.as_slice() {
            keep_if(&mut left, *name, self.has(*name));
        }
        left
    }

    /// Those of some names that do not match.
    pub fn beside(&self, names: &Senders) -> Senders
        ensures { result ≡ kept (λ x. not (has self.now x)) names.now }
    {
        let mut left = names.copy();
        for name in names.as_slice() {
            keep_if(&mut left, *name, !self.has(*name));
        }
        left
    }
}

// Without the name, unless it may stay.
fn keep_if(names: &mut Senders, name: Sender, stays: bool)
    ensures { names.new ≡ cond stays names.old (without names.old name) }
{
    if !stays {
        names.remove(name);
    }
}
