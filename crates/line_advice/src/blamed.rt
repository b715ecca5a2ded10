//! The line of text that says what breaks a rule in a bad line, and what is wanted.
ghost use Rattle.std.specs.Prelude.{◌≡◌, ◌≤◌, ◌<◌, ◌++◌, [], length, MatchOption, None, OnErr, OnOk, Some, vec_capacity};
ghost use Rattle.line_advice.specs.Blamed.{blamed_line, blamed_text, blamed_word, most_advice, most_wanted};

use rsvp_base::NoMemory;
use value_texts::{put, put_number, put_quoted, put_strange, word_at};

// No line of text that says what is wrong has more bytes.
const MOST_ADVICE: usize = 1024;

/// What breaks a rule in a bad line, and what is wanted.
pub trait Blames {
    ghost use Rattle.std.specs.Prelude.{ℕ, List, Option, ◌≡◌, ◌≤◌, ◌<◌, ◌++◌, length, OnErr, OnOk, vec_capacity};
    ghost use Rattle.line_advice.specs.Blamed.{most_wanted};

    /// The number of the word that does, from 0; `None` where it is the line as a whole.
    ghost number: { Self → Option ℕ };
    /// What is wanted.
    ghost wanted: { Self → List ℕ };

    /// The number of the word that is to blame, if one is.
    fn number_of_word(&self) -> Option<usize>
        ensures { result ≡ number self.now };

    /// Does nothing: what is wanted has at most 512 bytes.
    fn is_short(&self)
        ensures { length (wanted self.now) ≤ most_wanted };

    /// Appends what is wanted. `NoMemory`: the room that the text had did not suffice, and there was no memory for more. Room never
    /// shrinks.
    fn put_wanted(&self, out: &mut Vec<u8>) -> Result<(), NoMemory>
        ensures text { OnOk result (out.new.items ≡ out.old.items ++ wanted self.now) }
        ensures full { OnErr result (vec_capacity out.old < length (out.old.items ++ wanted self.now)) }
        ensures kept { vec_capacity out.old ≤ vec_capacity out.new };
}

/// Makes room for any advice behind an empty text, so that no memory is taken for it later. `NoMemory`: there was none.
pub fn make_room(advice: &mut Vec<u8>) -> Result<(), NoMemory>
    requires empty { advice.old.items ≡ [] }
    ensures empty { advice.new.items ≡ [] }
    ensures room { OnOk result (most_advice ≤ vec_capacity advice.new) }
    ensures full { OnErr result (vec_capacity advice.old < most_advice) }
{
    Ok(advice.reserve(MOST_ADVICE)?)
}

/// Makes `advice`, for which there is room, the text that says what is wrong with a bad line, without a line feed: two spaces; the
/// column and the word that is to blame, if the line has it; and what is wanted.
pub fn put_blamed_line<B: Blames>(advice: &mut Vec<u8>, line: &[u8], blame: &B)
    requires room { most_advice ≤ vec_capacity advice.old }
    ensures { advice.new.items ≡ blamed_line line.now (B.number blame.now) (B.wanted blame.now) }
{
    advice.clear();
    blame.is_short();
    match put_blamed(advice, line, blame) {
        Ok(()) => {}
        Err(_) => {}
    }
}

// Appends what is to blame for a line.
#[tactic(auto, using(crate::proofs::Short::whole_short))]
fn put_blamed<B: Blames>(out: &mut Vec<u8>, line: &[u8], blame: &B) -> Result<(), NoMemory>
    requires few { length (B.wanted blame.now) ≤ most_wanted }
    ensures text { OnOk result (out.new.items ≡ out.old.items ++ blamed_line line.now (B.number blame.now) (B.wanted blame.now)) }
    ensures full { OnErr result (vec_capacity out.old < length (out.old.items ++ blamed_line line.now (B.number blame.now) (B.wanted blame.now))) }
    ensures few { length (blamed_line line.now (B.number blame.now) (B.wanted blame.now)) ≤ most_advice }
{
    match blamed_word(line, blame.number_of_word()) {
        None => put_whole(out, blame),
        Some((column, word)) => {
            is_short_at(column, word, blame);
            put_at(out, column, word, blame)
        }
    }
}

// Does nothing: a word with its column, and what is wanted of it, are no longer than advice may be.
#[tactic(auto, using(crate::proofs::Short::word_short))]
fn is_short_at<B: Blames>(column: usize, word: &[u8], blame: &B)
    requires few { length (B.wanted blame.now) ≤ most_wanted }
    ensures { length (blamed_text (Some (column, word.now)) (B.wanted blame.now)) ≤ most_advice }
{
    let _ = (column, word.len(), blame.number_of_word());
}

// Appends what is wanted of a line as a whole.
#[tactic(auto, unfolding(crate::specs::Blamed::blamed_text))]
fn put_whole<B: Blames>(out: &mut Vec<u8>, blame: &B) -> Result<(), NoMemory>
    ensures text { OnOk result (out.new.items ≡ out.old.items ++ blamed_text None (B.wanted blame.now)) }
    ensures full { OnErr result (vec_capacity out.old < length (out.old.items ++ blamed_text None (B.wanted blame.now))) }
    ensures kept { vec_capacity out.old ≤ vec_capacity out.new }
{
    put(out, b"  ")?;
    blame.put_wanted(out)
}

// Appends a word with its column, and what is wanted of it.
#[tactic(auto, unfolding(crate::specs::Blamed::blamed_text))]
fn put_at<B: Blames>(
    out: &mut Vec<u8>,
    column: usize,
    word: &[u8],
    blame: &B,
) -> Result<(), NoMemory>
    ensures text { OnOk result (out.new.items ≡ out.old.items ++ blamed_text (Some (column, word.now)) (B.wanted blame.now)) }
    ensures full { OnErr result (vec_capacity out.old < length (out.old.items ++ blamed_text (Some (column, word.now)) (B.wanted blame.now))) }
    ensures kept { vec_capacity out.old ≤ vec_capacity out.new }
{
    put(out, b"  column ")?;
    put_number(out, column as u64)?;
    put(out, b", ")?;
    put_quoted(out, word)?;
    put(out, b": ")?;
    blame.put_wanted(out)?;
    put_strange(out, word)
}

// The word of this number, if one is to blame, with its column.
fn blamed_word(line: &[u8], number: Option<usize>) -> Option<(usize, &[u8])>
    ensures { MatchOption result (blamed_word line.now number ≡ None) (λ p. blamed_word line.now number ≡ Some (p.0, p.1.now)) }
{
    word_at(line, number?)
}
