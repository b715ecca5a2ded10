//! The line of text that says what is wrong with a line of digits.
ghost use Rattle.std.specs.Prelude.{◌≡◌, ◌≤◌, ◌<◌, ◌++◌, OnErr, OnOk, Some, length, nat_eq, vec_capacity};
ghost use Rattle.std.specs.List.{starts_with};
ghost use Rattle.hex.specs.Hex.{is_hex_digit};
ghost use Rattle.line_advice.specs.Blamed.{most_advice};
ghost use Rattle.value_texts.specs.Quotes.{order_mark};
ghost use Rattle.message_show.specs.ShowAdvice.{IsDigitsAdvice, bytes_text, digits_advice, digits_text, mark_text, strange_digit};

use rsvp_base::NoMemory;
use script_words::LineWhy;
use value_texts::{put, put_number, put_quoted, put_strange};

/// Makes `advice`, for which there is room, the text that says what is wrong with a line of digits, without a line feed.
pub fn put_digits_advice(advice: &mut Vec<u8>, line: &[u8], why: LineWhy)
    requires room { most_advice ≤ vec_capacity advice.old }
    ensures { IsDigitsAdvice line.now why advice.new.items }
{
    advice.clear();
    match put_told(advice, line, why) {
        Ok(()) => {}
        Err(_) => {}
    }
}

#[tactic(auto, using(crate::proofs::Short::limit_short))]
fn put_told(out: &mut Vec<u8>, line: &[u8], why: LineWhy) -> Result<(), NoMemory>
    ensures text { OnOk result (out.new.items ≡ out.old.items ++ digits_advice line.now why) }
    ensures full { OnErr result (vec_capacity out.old < length (out.old.items ++ digits_advice line.now why)) }
    ensures few { length (digits_advice line.now why) ≤ most_advice }
{
    match why {
        LineWhy::Limit => put(out, b"  a line has at most 8194 digits"),
        _ => put_of_bytes(out, line),
    }
}

// Of a line whose bytes are not right.
fn put_of_bytes(out: &mut Vec<u8>, line: &[u8]) -> Result<(), NoMemory>
    ensures text { OnOk result (out.new.items ≡ out.old.items ++ bytes_text line.now) }
    ensures full { OnErr result (vec_capacity out.old < length (out.old.items ++ bytes_text line.now)) }
    ensures few { length (bytes_text line.now) ≤ most_advice }
{
    if has_mark(line) {
        return put_mark(out);
    }
    put_digit(out, strange_digit(line))
}

// Whether a line begins with a byte order mark.
fn has_mark(line: &[u8]) -> bool
    ensures { result ≡ starts_with nat_eq line.now order_mark }
{
    line.starts_with(b"\xef\xbb\xbf")
}

#[tactic(auto, using(crate::proofs::Short::mark_short), unfolding(crate::specs::ShowAdvice::mark_text))]
fn put_mark(out: &mut Vec<u8>) -> Result<(), NoMemory>
    ensures text { OnOk result (out.new.items ≡ out.old.items ++ mark_text) }
    ensures full { OnErr result (vec_capacity out.old < length (out.old.items ++ mark_text)) }
    ensures few { length mark_text ≤ most_advice }
{
    put(out, b"  column 1, ")?;
    put_quoted(out, b"\xef\xbb\xbf")?;
    put(out, b": a byte order mark: save the file without it")
}

#[tactic(auto, using(crate::proofs::Short::even_short, crate::proofs::Short::digit_short), unfolding(crate::specs::ShowAdvice::digits_text))]
fn put_digit(out: &mut Vec<u8>, strange: Option<(usize, u8)>) -> Result<(), NoMemory>
    ensures text { OnOk result (out.new.items ≡ out.old.items ++ digits_text strange) }
    ensures full { OnErr result (vec_capacity out.old < length (out.old.items ++ digits_text strange)) }
    ensures few { length (digits_text strange) ≤ most_advice }
{
    match strange {
        None => put(
            out,
            b"  a line is an even number of hexadecimal digits without spaces",
        ),
        Some((column, c)) => put_strange_digit(out, column, c),
    }
}

#[tactic(auto, unfolding(crate::specs::ShowAdvice::digits_text))]
fn put_strange_digit(out: &mut Vec<u8>, column: usize, c: u8) -> Result<(), NoMemory>
    ensures text { OnOk result (out.new.items ≡ out.old.items ++ digits_text (Some (column, c))) }
    ensures full { OnErr result (vec_capacity out.old < length (out.old.items ++ digits_text (Some (column, c)))) }
{
    put(out, b"  column ")?;
    put_number(out, column as u64)?;
    put(out, b", ")?;
    put_quoted(out, &[c])?;
    put(out, b": ")?;
    put(
        out,
        b"a line is an even number of hexadecimal digits without spaces",
    )?;
    put_strange(out, &[c])
}

// The first byte that is no hexadecimal digit, with its column, from 1.
fn strange_digit(line: &[u8]) -> Option<(usize, u8)>
    ensures { result ≡ strange_digit 1 line.now }
{
    let mut column: usize = 1;
    let mut rest = line;
    while let [c, behind @ ..] = rest {
        if !is_hex_digit(*c) {
            return Some((column, *c));
        }
        column += 1;
        rest = behind;
    }
    None
}

fn is_hex_digit(c: u8) -> bool
    ensures { result ≡ is_hex_digit c }
{
    (b'0' <= c && c <= b'9') || (b'A' <= c && c <= b'F') || (b'a' <= c && c <= b'f')
}
