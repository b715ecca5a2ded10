//! Names of nodes and ends.
ghost use Rattle.std.specs.Prelude.{◌≡◌, IsTrue};
ghost use Rattle.std.specs.List.{list_all};
ghost use Rattle.rsvp_base.specs.EndNames.{is_name, is_name_byte, is_lower_case, name_of};

use arrayvec::ArrayVec;
use std::marker::Model;

/// The name of a node or an end: 1 to 16 lower-case letters, digits and `_`, beginning with a letter. It needs no
/// memory.
#[derive(Debug, Drop)]
pub struct EndName {
    list: ArrayVec<u8, 16>,
}

impl Model for EndName {
    ghost use Rattle.std.specs.Prelude.{List, ℕ, ◌≡◌, true};
    ghost use Rattle.rsvp_base.specs.EndNames.{is_name};

    ghost Value = { List ℕ };

    ghost view = { λ n. n.list.items };

    ghost invariant = { λ n. is_name n.list.items ≡ true };
}

impl EndName {
    /// The name with these bytes; None exactly where they are no name.
    pub fn of(bytes: &[u8]) -> Option<EndName>
        ensures { result ≡ name_of bytes.now }
    {
        if !is_name(bytes) {
            return None;
        }
        let mut list = ArrayVec::new();
        for c in bytes {
            list.push(*c);
        }
        Some(EndName { list })
    }

    /// The bytes of the name.
    pub fn bytes(&self) -> &[u8]
        ensures value { result.now ≡ self.now }
        ensures name { IsTrue (is_name self.now) }
    {
        self.list.as_slice()
    }

    /// The same name once more.
    pub fn copy(&self) -> EndName
        ensures { result ≡ self.now }
    {
        let mut list = ArrayVec::new();
        for c in self.list.as_slice() {
            list.push(*c);
        }
        EndName { list }
    }
}

fn is_name(bytes: &[u8]) -> bool
    ensures { result ≡ is_name bytes.now }
{
    !bytes.is_empty() && bytes.len() <= 16 && is_lower_case(bytes[0]) && has_name_bytes_only(bytes)
}

fn has_name_bytes_only(bytes: &[u8]) -> bool
    ensures { result ≡ list_all is_name_byte bytes.now }
{
    bytes.iter().all(|c| is_name_byte(*c))
}

fn is_lower_case(c: u8) -> bool
    ensures { result ≡ is_lower_case c }
{
    b'a' <= c && c <= b'z'
}

fn is_name_byte(c: u8) -> bool
    ensures { result ≡ is_name_byte c }
{
    is_lower_case(c) || (b'0' <= c && c <= b'9') || c == b'_'
}
