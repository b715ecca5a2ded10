//! Fields of objects: numbers in network byte order.
ghost use Rattle.std.specs.Prelude.{◌≡◌, ◌≤◌, ◌+◌, length};
ghost use Rattle.rsvp_objects.specs.Fields as spec;
ghost use Rattle.rsvp_objects.specs.RateFields.{peak_at};

use crate::rate_word::rate_of_word;
use byteorder::{BigEndian, ByteOrder};
use rsvp_base::{Addr, Peak};

/// The 16-bit number at a place.
#[inline(always)]
pub fn half_at(bytes: &[u8], place: usize) -> u16
    requires { place + 2 ≤ length bytes.now }
    ensures { result ≡ spec.half_at place bytes.now }
{
    BigEndian::read_u16(&bytes[place..])
}

/// The 32-bit number at a place.
#[inline(always)]
pub fn word_at(bytes: &[u8], place: usize) -> u32
    requires { place + 4 ≤ length bytes.now }
    ensures { result ≡ spec.word_at place bytes.now }
{
    BigEndian::read_u32(&bytes[place..])
}

/// The address at a place.
#[inline(always)]
pub fn addr_at(bytes: &[u8], place: usize) -> Addr
    requires { place + 4 ≤ length bytes.now }
    ensures { result ≡ spec.addr_at place bytes.now }
{
    Addr(word_at(bytes, place))
}

/// The rate or infinity of the word at a place. `None` exactly where the word stands for none.
#[inline(always)]
pub fn peak_at(bytes: &[u8], place: usize) -> Option<Peak>
    requires { place + 4 ≤ length bytes.now }
    ensures { result ≡ peak_at place bytes.now }
{
    rate_of_word(word_at(bytes, place)).ok()
}
