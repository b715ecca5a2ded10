//! The parts of lines of JSON.
ghost use Rattle.std.specs.Prelude.{◌≡◌, ◌++◌, ◌∷◌, [], OnOk};
ghost use Rattle.std.specs.List.{flat_map};
ghost use Rattle.script_events.specs.Json.{address_member, close_text, count_member, escaped, event_head, hex_member, hex_text, member, text_member, word_member};
ghost use Rattle.value_texts.specs.Quotes.{is_visible};

use rsvp_base::{Addr, NoMemory};
use value_texts::{put, put_addr, put_number};

// The sixteen hexadecimal digits.
const DIGITS: [u8; 16] = *b"0123456789abcdef";

/// Appends the beginning of an event: its kind, and its time in milliseconds. `NoMemory`, here and in each call of this crate that
/// appends: there was no memory for it.
#[tactic(auto, unfolding(crate::specs::Json::event_head))]
pub(crate) fn put_event(out: &mut Vec<u8>, kind: &[u8], clock: u64) -> Result<(), NoMemory>
    ensures { OnOk result (out.new.items ≡ out.old.items ++ event_head kind.now clock) }
{
    put(out, b"{\"event\":\"")?;
    put(out, kind)?;
    put(out, b"\",\"t\":")?;
    put_number(out, clock)
}

/// Appends the end of an event.
pub(crate) fn put_close(out: &mut Vec<u8>) -> Result<(), NoMemory>
    ensures { OnOk result (out.new.items ≡ out.old.items ++ close_text) }
{
    put(out, b"}\n")
}

/// Appends the name of a member.
#[tactic(auto, unfolding(crate::specs::Json::member))]
pub(crate) fn put_member(out: &mut Vec<u8>, name: &[u8]) -> Result<(), NoMemory>
    ensures { OnOk result (out.new.items ≡ out.old.items ++ member name.now) }
{
    put(out, b",\"")?;
    put(out, name)?;
    put(out, b"\":")
}

/// Appends a member that is a number.
#[tactic(auto, unfolding(crate::specs::Json::count_member))]
pub(crate) fn put_count(out: &mut Vec<u8>, name: &[u8], n: u64) -> Result<(), NoMemory>
    ensures { OnOk result (out.new.items ≡ out.old.items ++ count_member name.now n) }
{
    put_member(out, name)?;
    put_number(out, n)
}

/// Appends a member that is a word which has nothing to escape.
#[tactic(auto, unfolding(crate::specs::Json::word_member))]
pub(crate) fn put_word(out: &mut Vec<u8>, name: &[u8], word: &[u8]) -> Result<(), NoMemory>
    ensures { OnOk result (out.new.items ≡ out.old.items ++ word_member name.now word.now) }
{
    put_member(out, name)?;
    put(out, b"\"")?;
    put(out, word)?;
    put(out, b"\"")
}

/// Appends a member that is an address.
#[tactic(auto, unfolding(crate::specs::Json::address_member))]
pub(crate) fn put_address(out: &mut Vec<u8>, name: &[u8], addr: Addr) -> Result<(), NoMemory>
    ensures { OnOk result (out.new.items ≡ out.old.items ++ address_member name.now addr) }
{
    put_member(out, name)?;
    put(out, b"\"")?;
    put_addr(out, addr)?;
    put(out, b"\"")
}

/// Appends a member that is bytes, two digits each.
#[tactic(auto, unfolding(crate::specs::Json::hex_member))]
pub(crate) fn put_hex(out: &mut Vec<u8>, name: &[u8], bytes: &[u8]) -> Result<(), NoMemory>
    ensures { OnOk result (out.new.items ≡ out.old.items ++ hex_member name.now bytes.now) }
{
    put_member(out, name)?;
    put(out, b"\"")?;
    put_digits(out, bytes)?;
    put(out, b"\"")
}

// Appends the digits of bytes.
fn put_digits(out: &mut Vec<u8>, bytes: &[u8]) -> Result<(), NoMemory>
    ensures { OnOk result (out.new.items ≡ out.old.items ++ flat_map hex_text bytes.now) }
{
    for byte in bytes {
        put(out, &digits(*byte))?;
    }
    Ok(())
}

// The two digits of a byte.
#[tactic(auto, unfolding(crate::specs::Json::hex_text))]
fn digits(byte: u8) -> [u8; 2]
    ensures { result ≡ hex_text byte }
{
    [DIGITS[(byte / 16) as usize], DIGITS[(byte % 16) as usize]]
}

/// Appends a member that is a text: a quote, a backslash and bytes that are not printable ASCII are escaped.
#[tactic(auto, unfolding(crate::specs::Json::text_member))]
pub(crate) fn put_text(out: &mut Vec<u8>, name: &[u8], text: &[u8]) -> Result<(), NoMemory>
    ensures { OnOk result (out.new.items ≡ out.old.items ++ text_member name.now text.now) }
{
    put_member(out, name)?;
    put(out, b"\"")?;
    put_escaped(out, text)?;
    put(out, b"\"")
}

// Appends a text.
fn put_escaped(out: &mut Vec<u8>, text: &[u8]) -> Result<(), NoMemory>
    ensures { OnOk result (out.new.items ≡ out.old.items ++ flat_map escaped text.now) }
{
    for byte in text {
        put_byte(out, *byte)?;
    }
    Ok(())
}

// Appends a byte of a text.
#[tactic(auto, unfolding(crate::specs::Json::escaped))]
fn put_byte(out: &mut Vec<u8>, c: u8) -> Result<(), NoMemory>
    ensures { OnOk result (out.new.items ≡ out.old.items ++ escaped c) }
{
    if c == b'"' {
        return put(out, b"\\\"");
    }
    if c == b'\\' {
        return put(out, b"\\\\");
    }
    if c == b'\n' {
        return put(out, b"\\n");
    }
    if is_visible(c) {
        return put(out, &[c]);
    }
    put(out, b"\\u00")?;
    put(out, &digits(c))
}

fn is_visible(c: u8) -> bool
    ensures { result ≡ is_visible c }
{
    b' ' <= c && c <= b'~'
}
