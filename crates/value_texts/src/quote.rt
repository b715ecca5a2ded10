//! How a word of a line is quoted.
ghost use Rattle.std.specs.Prelude.{◌≡◌, ◌≤◌, ◌<◌, ◌++◌, length, OnOk, OnErr, find, nat_eq, not, take, vec_capacity};
ghost use Rattle.std.specs.Io.{StartsWith};
ghost use Rattle.std.specs.List.{flat_map, starts_with};
ghost use Rattle.value_texts.specs.Quotes.{byte_text, cut_mark, is_visible, kind_text, named_byte, order_mark, quoted, strange_text};

use crate::texts::put;
use rsvp_base::NoMemory;

// The most bytes of a word that are shown.
const MOST_SHOWN: usize = 40;

// The sixteen hexadecimal digits.
const DIGITS: [u8; 16] = *b"0123456789abcdef";

/// Appends a word between quotes, its invisible bytes by their names. A long one is cut, and a mark stands behind the quotes.
/// `NoMemory`, here and in each call of this module: the room that the text had did not suffice, and there was no memory for
/// more; what was there stands at the front of what is.
#[tactic(auto, unfolding(crate::specs::Quotes::quoted))]
pub fn put_quoted(out: &mut Vec<u8>, word: &[u8]) -> Result<(), NoMemory>
    ensures text { OnOk result (out.new.items ≡ out.old.items ++ quoted word.now) }
    ensures front { OnErr result (StartsWith out.new.items out.old.items) }
    ensures full { OnErr result (vec_capacity out.old < length (out.old.items ++ quoted word.now)) }
    ensures kept { vec_capacity out.old ≤ vec_capacity out.new }
{
    put(out, b"\"")?;
    put_bytes(out, shown(word))?;
    put(out, b"\"")?;
    put(out, cut_mark(word))
}

// What is shown of a word.
fn shown(word: &[u8]) -> &[u8]
    ensures { result.now ≡ take 40 word.now }
{
    if word.len() <= MOST_SHOWN {
        return word;
    }
    let (front, _) = word.split_at(MOST_SHOWN);
    front
}

fn cut_mark(word: &[u8]) -> &'static [u8]
    ensures { result.now ≡ cut_mark word.now }
{
    if word.len() <= MOST_SHOWN {
        return b"";
    }
    b".."
}

/// Appends what the first invisible byte of a word is, where it has one.
#[tactic(auto, unfolding(crate::specs::Quotes::strange_text))]
pub fn put_strange(out: &mut Vec<u8>, word: &[u8]) -> Result<(), NoMemory>
    ensures text { OnOk result (out.new.items ≡ out.old.items ++ strange_text word.now) }
    ensures front { OnErr result (StartsWith out.new.items out.old.items) }
    ensures full { OnErr result (vec_capacity out.old < length (out.old.items ++ strange_text word.now)) }
    ensures kept { vec_capacity out.old ≤ vec_capacity out.new }
{
    if has_mark(word) {
        put(out, b"; ")?;
        put_bytes(out, b"\xef\xbb\xbf")?;
        return put(out, b" is a byte order mark");
    }
    put_named(out, strange_byte(word))
}

fn put_named(out: &mut Vec<u8>, strange: Option<u8>) -> Result<(), NoMemory>
    ensures text { OnOk result (out.new.items ≡ out.old.items ++ named_byte strange) }
    ensures front { OnErr result (StartsWith out.new.items out.old.items) }
    ensures full { OnErr result (vec_capacity out.old < length (out.old.items ++ named_byte strange)) }
    ensures kept { vec_capacity out.old ≤ vec_capacity out.new }
{
    match strange {
        None => Ok(()),
        Some(c) => {
            put(out, b"; ")?;
            put_byte(out, c)?;
            put(out, kind_text(c))
        }
    }
}

fn has_mark(word: &[u8]) -> bool
    ensures { result ≡ starts_with nat_eq word.now order_mark }
{
    word.starts_with(b"\xef\xbb\xbf")
}

// The first invisible byte.
fn strange_byte(word: &[u8]) -> Option<u8>
    ensures { result ≡ find (λ c. not (is_visible c)) word.now }
{
    word.iter().copied().find(|c| !is_visible(*c))
}

fn put_bytes(out: &mut Vec<u8>, bytes: &[u8]) -> Result<(), NoMemory>
    ensures text { OnOk result (out.new.items ≡ out.old.items ++ flat_map byte_text bytes.now) }
    ensures front { OnErr result (StartsWith out.new.items out.old.items) }
    ensures full { OnErr result (vec_capacity out.old < length (out.old.items ++ flat_map byte_text bytes.now)) }
    ensures kept { vec_capacity out.old ≤ vec_capacity out.new }
{
    for c in bytes {
        put_byte(out, *c)?;
    }
    Ok(())
}

#[tactic(auto, unfolding(crate::specs::Quotes::byte_text))]
fn put_byte(out: &mut Vec<u8>, c: u8) -> Result<(), NoMemory>
    ensures text { OnOk result (out.new.items ≡ out.old.items ++ byte_text c) }
    ensures front { OnErr result (StartsWith out.new.items out.old.items) }
    ensures full { OnErr result (vec_capacity out.old < length (out.old.items ++ byte_text c)) }
    ensures kept { vec_capacity out.old ≤ vec_capacity out.new }
{
    if c == b'\t' {
        return put(out, b"\\t");
    }
    if c == b'\r' {
        return put(out, b"\\r");
    }
    if c == b'\\' || c == b'"' {
        return put(out, &[b'\\', c]);
    }
    if is_visible(c) {
        return put(out, &[c]);
    }
    put(
        out,
        &[
            b'\\',
            b'x',
            DIGITS[(c / 16) as usize],
            DIGITS[(c % 16) as usize],
        ],
    )
}

fn is_visible(c: u8) -> bool
    ensures { result ≡ is_visible c }
{
    b' ' <= c && c <= b'~'
}

fn kind_text(c: u8) -> &'static [u8]
    ensures { result.now ≡ kind_text c }
{
    if c == b'\t' {
        return b" is a tab";
    }
    if c == b'\r' {
        return b" is a carriage return";
    }
    if c == 0 {
        return b" is a NUL";
    }
    b" is no printable ASCII character"
}
