//! The first of the words of a line that is not of its form, or is out of its range.
ghost use Rattle.std.specs.Prelude.{◌≡◌, ◌<◌, IfSome, length, map};
ghost use Rattle.script_grammar.specs.FirstWords.{IsFirstOut, unformed_from};

use crate::kind::Kind;

/// The place of the first of these words that has not the form of its field. `None` exactly where each has.
pub fn unformed(kind: Kind, words: &[&[u8]]) -> Option<usize>
    ensures first { result ≡ unformed_from kind 0 (map (λ w. w.now) words.now) }
    ensures within { IfSome result (λ place. place < length words.now) }
{
    let mut place: usize = 0;
    let mut rest = words;
    while let [word, behind @ ..] = rest {
        if !kind.field_at(place).has_form(word) {
            return Some(place);
        }
        place += 1;
        rest = behind;
    }
    None
}

/// The place of the first of these words that is out of the range of its field, where the refresh period is this, in milliseconds.
/// `None` exactly where each is in range.
pub fn first_out(period: u32, kind: Kind, words: &[&[u8]]) -> Option<usize>
    ensures first { IsFirstOut period kind (map (λ w. w.now) words.now) result }
    ensures within { IfSome result (λ place. place < length words.now) }
{
    let mut place: usize = 0;
    let mut rest = words;
    while let [word, behind @ ..] = rest {
        if !kind.field_at(place).is_in_range(period, word) {
            return Some(place);
        }
        place += 1;
        rest = behind;
    }
    None
}
