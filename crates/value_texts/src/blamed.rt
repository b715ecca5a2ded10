//! The line of text that says what breaks a rule in a bad line, and what is wanted.
ghost use Rattle.std.specs.Prelude.{◌≡◌, ◌⊎◌, ◌++◌, [], MatchOption, None, OnOk, Some};
ghost use Rattle.value_texts.specs.Blamed.{blamed_line, blamed_text, blamed_word};

use crate::place::word_at;
use crate::quote::{put_quoted, put_strange};
use crate::texts::{put, put_number};
use rsvp_base::NoMemory;

/// What breaks a rule in a bad line, and what is wanted.
pub trait Blames {
    ghost use Rattle.std.specs.Prelude.{ℕ, List, Option, ◌≡◌, ◌++◌, OnOk};

    /// The number of the word that does, from 0; `None` where it is the line as a whole.
    ghost number: { Self → Option ℕ };
    /// What is wanted.
    ghost wanted: { Self → List ℕ };

    /// The number of the word that is to blame, if one is.
    fn number_of_word(&self) -> Option<usize>
        ensures { result ≡ number self.now };

    /// Appends what is wanted. `NoMemory`: there was no memory for the whole of it.
    fn put_wanted(&self, out: &mut Vec<u8>) -> Result<(), NoMemory>
        ensures { OnOk result (out.new.items ≡ out.old.items ++ wanted self.now) };
}

/// Makes `advice` the text that says what is wrong with a bad line, without a line feed: two spaces; the column and the word that is to
/// blame, if the line has it; and what is wanted. Where memory runs out, `advice` is empty.
pub fn put_blamed_line<B: Blames>(advice: &mut Vec<u8>, line: &[u8], blame: &B)
    ensures { (advice.new.items ≡ []) ⊎ (advice.new.items ≡ blamed_line line.now (B.number blame.now) (B.wanted blame.now)) }
{
    advice.clear();
    if put_blamed(advice, line, blame).is_err() {
        advice.clear();
    }
}

// Appends what is to blame for a line.
fn put_blamed<B: Blames>(out: &mut Vec<u8>, line: &[u8], blame: &B) -> Result<(), NoMemory>
    ensures { OnOk result (out.new.items ≡ out.old.items ++ blamed_line line.now (B.number blame.now) (B.wanted blame.now)) }
{
    match blamed_word(line, blame.number_of_word()) {
        None => put_whole(out, blame),
        Some((column, word)) => put_at(out, column, word, blame),
    }
}

// Appends what is wanted of a line as a whole.
#[tactic(auto, unfolding(crate::specs::Blamed::blamed_text))]
fn put_whole<B: Blames>(out: &mut Vec<u8>, blame: &B) -> Result<(), NoMemory>
    ensures { OnOk result (out.new.items ≡ out.old.items ++ blamed_text None (B.wanted blame.now)) }
{
    put(out, b"  ")?;
    blame.put_wanted(out)
}

// Appends a word with its column, and what is wanted of it.
#[tactic(auto, unfolding(crate::specs::Blamed::blamed_text))]
fn put_at<B: Blames>(
    out: &mut Vec<u8>,
    column: usize,
    word: &[u8],
    blame: &B,
) -> Result<(), NoMemory>
    ensures { OnOk result (out.new.items ≡ out.old.items ++ blamed_text (Some (column, word.now)) (B.wanted blame.now)) }
{
    put(out, b"  column ")?;
    put_number(out, column as u64)?;
    put(out, b", ")?;
    put_quoted(out, word)?;
    put(out, b": ")?;
    blame.put_wanted(out)?;
    put_strange(out, word)
}

// The word of this number, if one is to blame, with its column.
fn blamed_word(line: &[u8], number: Option<usize>) -> Option<(usize, &[u8])>
    ensures { MatchOption result (blamed_word line.now number ≡ None) (λ p. blamed_word line.now number ≡ Some (p.0, p.1.now)) }
{
    word_at(line, number?)
}
