//! Reading fragments, word by word.
ghost use Rattle.std.specs.Prelude.{◌≡◌, ℕ, ◌<◌, ◌≤◌, ◌≢◌, [], ◌∷◌, List, length, true, OnSome, IsNone, None};
ghost use Rattle.rsvp_objects.specs.Fragment.{missing, heads, all_other, more_in, behind_in};
ghost use Rattle.rsvp_objects.specs.Fragment as spec;
ghost use Rattle.rsvp_objects.specs.Form.{words_in};

use crate::fragments::{Fragments, MOST_WORDS};
use crate::words::{counted, is_broken, service};
use crate::{part_places, part_values};
use arrayvec::ArrayVec;
use byteorder::{BigEndian, ByteOrder};

/// What fragments say: the break bit of controlled load where they have it, and the others. `None` exactly where they are
/// not whole, are of the general service, of controlled load twice or with words, or more than 24 words of others.
#[tactic(auto, unfolding(crate::specs::Fragment::behind_in))]
pub fn fragments(bytes: &[u8]) -> Option<(Option<bool>, Fragments)>
    ensures { result ≡ behind_in (words_in bytes.now) }
{
    let mut walk = Walk::new();
    let mut rest = bytes;
    while rest.len() >= part_places::WORD_SIZE {
        walk.take(BigEndian::read_u32(rest))?;
        rest = &rest[part_places::WORD_SIZE..];
    }
    walk.end()
}

// What the words up to a place say, and how many words of the last fragment there are still due.
#[derive(Drop)]
struct Walk {
    due: u32,
    load: Option<bool>,
    kept: ArrayVec<u32, MOST_WORDS>,
    ghost whole: { missing 0 kept.items ≡ due },
    ghost other: { all_other (heads 0 kept.items) ≡ true },
}

impl Walk {
    fn new() -> Walk
        ensures due { result.due ≡ 0 }
        ensures load { result.load ≡ None }
        ensures kept { result.kept.items ≡ [] }
    {
        Walk {
            due: 0,
            load: None,
            kept: ArrayVec::new(),
        }
    }

    // The next word. `None` exactly where no words with it are fragments.
    fn take(&mut self, word: u32) -> Option<()>
        ensures some { OnSome result ((ws : List ℕ) → more_in self.old.due self.old.load self.old.kept.items (word ∷ ws) ≡ more_in self.new.due self.new.load self.new.kept.items ws) }
        ensures none { IsNone result → (ws : List ℕ) → more_in self.old.due self.old.load self.old.kept.items (word ∷ ws) ≡ None }
    {
        if self.due != 0 {
            return self.follow(word);
        }
        match service(word) {
            part_values::service::GENERAL => None,
            part_values::service::CONTROLLED_LOAD => self.begin_load(word),
            _ => self.begin_other(word),
        }
    }

    // A word that follows the first of its fragment.
    fn follow(&mut self, word: u32) -> Option<()>
        requires { 0 < self.old.due }
        ensures some { OnSome result ((ws : List ℕ) → more_in self.old.due self.old.load self.old.kept.items (word ∷ ws) ≡ more_in self.new.due self.new.load self.new.kept.items ws) }
        ensures none { IsNone result → (ws : List ℕ) → more_in self.old.due self.old.load self.old.kept.items (word ∷ ws) ≡ None }
    {
        if self.kept.is_full() {
            return None;
        }
        self.kept.push(word);
        self.due -= 1;
        Some(())
    }

    // The first word of a controlled-load fragment.
    fn begin_load(&mut self, word: u32) -> Option<()>
        requires due { self.old.due ≡ 0 }
        requires service { spec.service word ≡ 5 }
        ensures some { OnSome result ((ws : List ℕ) → more_in self.old.due self.old.load self.old.kept.items (word ∷ ws) ≡ more_in self.new.due self.new.load self.new.kept.items ws) }
        ensures none { IsNone result → (ws : List ℕ) → more_in self.old.due self.old.load self.old.kept.items (word ∷ ws) ≡ None }
    {
        if self.load.is_some() {
            return None;
        }
        if counted(word) > 0 {
            return None;
        }
        self.load = Some(is_broken(word));
        Some(())
    }

    // The first word of a fragment of a service that is not read.
    fn begin_other(&mut self, word: u32) -> Option<()>
        requires due { self.old.due ≡ 0 }
        requires general { spec.service word ≢ 1 }
        requires load { spec.service word ≢ 5 }
        ensures some { OnSome result ((ws : List ℕ) → more_in self.old.due self.old.load self.old.kept.items (word ∷ ws) ≡ more_in self.new.due self.new.load self.new.kept.items ws) }
        ensures none { IsNone result → (ws : List ℕ) → more_in self.old.due self.old.load self.old.kept.items (word ∷ ws) ≡ None }
    {
        if self.kept.is_full() {
            return None;
        }
        self.kept.push(word);
        self.due = counted(word);
        Some(())
    }

    // What the words say, if they are all.
    fn end(self) -> Option<(Option<bool>, Fragments)>
        ensures { result ≡ more_in self.due self.load self.kept.items [] }
    {
        if self.due > 0 {
            return None;
        }
        Some((self.load, Fragments::of(self.kept)))
    }
}
