//! The FILTER_SPECs of a message.
ghost use Rattle.std.specs.Prelude.{◌≡◌, ◌≤◌, ◌==◌, ◌++◌, ◌∷◌, [], length};
ghost use Rattle.message_codec.specs.Places.{is_named};

use arrayvec::ArrayVec;
use rsvp_base::{Flow, Sender};
use std::cmp::Ordering;
use std::marker::Model;

/// At most 16 senders in the order in which their FILTER_SPECs came, each with the flow of the FLOWSPEC before it.
/// Contracts see that list.
#[derive(Drop)]
pub struct Filters {
    list: ArrayVec<(Sender, Option<Flow>), 16>,
}

impl Model for Filters {
    ghost use Rattle.std.specs.Prelude.{List, Option, length, ◌≤◌};
    ghost use Rattle.rsvp_base.specs.TokenBucket.{TokenBucket};
    ghost use Rattle.rsvp_base.specs.declared.session.Sender.{Sender};

    ghost Value = { List (Sender × Option TokenBucket) };

    ghost view = { λ f. f.list.items };

    ghost invariant = { λ f. length f.list.items ≤ 16 };
}

impl Filters {
    /// No filters.
    pub fn new() -> Filters
        ensures { result ≡ [] }
    {
        Filters {
            list: ArrayVec::new(),
        }
    }

    /// Whether a filter names this sender.
    pub fn has(&self, sender: Sender) -> bool
        ensures { result ≡ is_named sender self.now }
    {
        is_named(sender, self.list.as_slice())
    }

    /// Whether there are 16.
    pub fn is_full(&self) -> bool
        ensures { result ≡ (length self.now == 16) }
    {
        self.list.is_full()
    }

    /// Adds a filter at the end.
    pub fn push(&mut self, sender: Sender, flow: Option<Flow>)
        requires { length self.old ≡ 16 → ⊥ }
        ensures { self.new ≡ self.old ++ (sender, flow) ∷ [] }
    {
        self.list.push((sender, flow));
    }

    /// The filters.
    pub fn as_slice(&self) -> &[(Sender, Option<Flow>)]
        ensures is { result.now ≡ self.now }
        ensures few { length self.now ≤ 16 }
    {
        self.list.as_slice()
    }
}

// Whether one of these filters names the sender.
fn is_named(sender: Sender, filters: &[(Sender, Option<Flow>)]) -> bool
    ensures { result ≡ is_named sender filters.now }
{
    for filter in filters {
        if sender.cmp(&filter.0) == Ordering::Equal {
            return true;
        }
    }
    false
}
