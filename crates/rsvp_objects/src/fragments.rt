//! Fragments of services that are not read.
ghost use Rattle.std.specs.Prelude.{◌≡◌, ◌≤◌, ◌<◌, ◌↔◌, ℕ, List, [], ◌∷◌, length, slice_index, IfSome, IsNone};
ghost use Rattle.rsvp_objects.specs.Fragment.{IsFragments, marked};

use crate::words::{counted, with_break};
use arrayvec::ArrayVec;
use std::marker::Model;

// The most words of fragments that are not read.
pub const MOST_WORDS: usize = 24;

/// At most 24 words: whole fragments of services other than the general one and controlled load, unread but for their
/// lengths (RFC 2210, 3.3). Contracts see the list of the words.
#[derive(Drop)]
pub struct Fragments {
    words: ArrayVec<u32, MOST_WORDS>,
}

impl Model for Fragments {
    ghost use Rattle.std.specs.Prelude.{List, ℕ};
    ghost use Rattle.rsvp_objects.specs.Fragment.{IsFragments};

    ghost Value = { List ℕ };

    ghost view = { λ f. f.words.items };

    ghost invariant = { λ f. IsFragments f.words.items };
}

impl Fragments {
    /// The empty list.
    pub fn new() -> Fragments
        ensures { result ≡ [] }
    {
        Fragments {
            words: ArrayVec::new(),
        }
    }

    /// The fragments that these words are.
    pub fn of(words: ArrayVec<u32, MOST_WORDS>) -> Fragments
        requires { IsFragments words.items }
        ensures is { result ≡ words.items }
        ensures few { length result ≤ 24 }
    {
        Fragments { words }
    }

    /// The same fragments, each with its break bit set: a router that does not know their services passes them on so.
    pub fn broken(&self) -> Fragments
        ensures { result ≡ marked 0 self.now }
    {
        let all = self.words();
        let mut words = ArrayVec::new();
        let mut due = 0;
        for word in all {
            let (still_due, next) = mark(due, *word);
            words.push(next);
            due = still_due;
        }
        Fragments::of(words)
    }

    /// Equal fragments.
    pub fn copy(&self) -> Fragments
        ensures { result ≡ self.now }
    {
        let mut words = ArrayVec::new();
        let _ = words.try_extend_from_slice(self.words());
        Fragments::of(words)
    }

    /// How many words they are.
    pub fn len(&self) -> usize
        ensures is { result ≡ length self.now }
        ensures few { result ≤ 24 }
    {
        self.words.len()
    }

    /// The k-th word, from 0. `None` exactly where k is not below their number.
    pub fn at(&self, k: usize) -> Option<u32>
        ensures some { IfSome result (λ w. w ≡ slice_index self.now k) }
        ensures none { IsNone result ↔ (length self.now ≤ k) }
    {
        self.words.as_slice().get(k).copied()
    }

    /// The words.
    pub fn words(&self) -> &[u32]
        ensures words { result.now ≡ self.now }
        ensures fragments { IsFragments self.now }
    {
        self.words.as_slice()
    }
}

impl Default for Fragments {
    fn default() -> Fragments {
        Fragments::new()
    }
}

// Where so many words of the fragment before are still due: how many are due behind this word, and the word with the break
// bit set where it is the first of a fragment.
fn mark(due: u32, word: u32) -> (u32, u32)
    ensures { (ws : List ℕ) → marked due (word ∷ ws) ≡ result.1 ∷ marked result.0 ws }
{
    if due > 0 {
        (due - 1, word)
    } else {
        (counted(word), with_break(word))
    }
}
