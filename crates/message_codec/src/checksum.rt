//! The checksum of a message (RFC 2205, 3.1.1).
ghost use Rattle.std.specs.Prelude.{◌≡◌, ◌≤◌, length};
ghost use Rattle.message_codec.specs.Sum.{plus, ones_sum, is_right};

use byteorder::{BigEndian, ByteOrder};

// Where the checksum stands in the header.
const CHECKSUM: usize = 2;

// All bits of a 16-bit word.
const ONES: u32 = 0xffff;

/// The one's complement sum of the 16-bit words of bytes, at most 65,535.
pub fn ones_sum(bytes: &[u8]) -> u32
    ensures is { result ≡ ones_sum bytes.now }
    ensures word { result ≤ 65535 }
{
    if bytes.len() <= 4096 {
        return folded(bytes);
    }
    summed(bytes)
}

// The sum of a message: two words at once are added, and it is folded once, at the end.
#[tactic(auto, using(crate::proofs::Closed::plus_closed))]
fn folded(bytes: &[u8]) -> u32
    requires { length bytes.now ≤ 4096 }
    ensures is { result ≡ ones_sum bytes.now }
    ensures word { result ≤ 65535 }
{
    let mut rest = bytes;
    let mut sum: u64 = 0;
    'pairs: while rest.len() >= 4 {
        sum += BigEndian::read_u32(rest) as u64;
        rest = &rest[4..];
    }
    'words: while rest.len() >= 2 {
        sum += BigEndian::read_u16(rest) as u64;
        rest = &rest[2..];
    }
    if !rest.is_empty() {
        sum += rest[0] as u64 * 256;
    }
    if sum == 0 {
        0
    } else {
        ((sum - 1) % 65535 + 1) as u32
    }
}

fn summed(bytes: &[u8]) -> u32
    ensures is { result ≡ ones_sum bytes.now }
    ensures word { result ≤ 65535 }
{
    let mut rest = bytes;
    let mut sum = 0;
    while rest.len() >= 2 {
        sum = plus(sum, BigEndian::read_u16(rest) as u32);
        rest = &rest[2..];
    }
    if rest.is_empty() {
        return sum;
    }
    plus(sum, rest[0] as u32 * 256)
}

fn plus(x: u32, y: u32) -> u32
    requires x { x ≤ 65535 }
    requires y { y ≤ 65535 }
    ensures is { result ≡ plus x y }
    ensures word { result ≤ 65535 }
{
    (x + y) % 65536 + (x + y) / 65536
}

/// Whether no checksum was sent, or the right one.
pub fn is_right(bytes: &[u8]) -> bool
    requires { 8 ≤ length bytes.now }
    ensures { result ≡ is_right bytes.now }
{
    BigEndian::read_u16(&bytes[CHECKSUM..]) == 0 || ones_sum(bytes) == ONES
}
