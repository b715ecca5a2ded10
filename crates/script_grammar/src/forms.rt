//! What of the words of a line is not of its form.
ghost use Rattle.std.specs.Prelude.{◌≡◌, ◌<◌, IfSome, length, map};
ghost use Rattle.script_grammar.specs.Blames.{begins_comment, behind_first, comment_from, count_blame, has_inner_return, has_return, have_inner_return, kind_blame, word_blame};

use crate::blame::{Blame, behind_first};
use crate::first_words::unformed;
use crate::kind::Kind;

/// What of these words is not of its form: where carriage returns stand for line feeds, these; else the first word, a comment behind
/// the others, their number, or the first that has not the form of its field.
pub fn word_blame(words: &[&[u8]]) -> Blame
    ensures { result ≡ word_blame (map (λ w. w.now) words.now) }
{
    if have_inner_return(words) {
        return Blame::Returns;
    }
    kind_blame(Kind::of(words), behind_first(words))
}

fn kind_blame(kind: Option<Kind>, behind: &[&[u8]]) -> Blame
    ensures { result ≡ kind_blame kind (map (λ w. w.now) behind.now) }
{
    let Some(kind) = kind else {
        return Blame::First;
    };
    match comment_place(behind) {
        Some(place) => Blame::Comment { word: place + 1 },
        None => count_blame(kind, behind),
    }
}

fn count_blame(kind: Kind, behind: &[&[u8]]) -> Blame
    ensures { result ≡ count_blame kind (map (λ w. w.now) behind.now) }
{
    if !kind.has_count(behind.len()) {
        return Blame::Count(kind);
    }
    match unformed(kind, behind) {
        Some(place) => Blame::Form {
            word: place + 1,
            field: kind.field_at(place),
        },
        None => Blame::Count(kind),
    }
}

// The place of the first word that begins as a comment. `None` exactly where none does.
fn comment_place(words: &[&[u8]]) -> Option<usize>
    ensures first { result ≡ comment_from 0 (map (λ w. w.now) words.now) }
    ensures within { IfSome result (λ place. place < length words.now) }
{
    let mut place: usize = 0;
    let mut rest = words;
    while let [word, behind @ ..] = rest {
        if begins_comment(word) {
            return Some(place);
        }
        place += 1;
        rest = behind;
    }
    None
}

fn begins_comment(word: &[u8]) -> bool
    ensures { result ≡ begins_comment word.now }
{
    match word {
        [first, ..] => *first == b'#',
        [] => false,
    }
}

// Whether a carriage return stands before the last byte of these words.
fn have_inner_return(words: &[&[u8]]) -> bool
    ensures { result ≡ have_inner_return (map (λ w. w.now) words.now) }
{
    match words {
        [] => false,
        [last] => has_inner_return(last),
        [first, others @ ..] => has_return(first) || have_inner_return(others),
    }
}

fn has_inner_return(word: &[u8]) -> bool
    ensures { result ≡ has_inner_return word.now }
{
    if word.is_empty() {
        return false;
    }
    has_return(&word[..word.len() - 1])
}

fn has_return(word: &[u8]) -> bool
    ensures { result ≡ has_return word.now }
{
    word.iter().any(|c| *c == b'\r')
}
