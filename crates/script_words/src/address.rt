//! Addresses: their form and their range.
ghost use Rattle.std.specs.Prelude.{◌≡◌, ◌↔◌, IsSome, IfSome, IsTrue, map};
ghost use Rattle.script_words.specs.Unread.{ReadsAs};
ghost use Rattle.script_words.specs.Addresses.{quad_of, quads_of, IsAddr, addr_value, IsGroup, IsHost};

use crate::numbers::number;
use crate::parts::{first_part, four_parts};
use crate::raw::DottedQuad;
use crate::unread::Unread;
use rsvp_base::Addr;
use std::alloc::Global;

impl DottedQuad {
    /// The four numbers of an address word; None where it is not four numbers joined by dots.
    #[tactic(auto, unfolding(crate::specs::Addresses::quad_of))]
    pub fn of(word: &[u8]) -> Option<DottedQuad>
        ensures { result ≡ quad_of word.now }
    {
        let (a, b, c, d) = four_parts(word, b'.')?;
        Some(DottedQuad {
            a: number(a)?,
            b: number(b)?,
            c: number(c)?,
            d: number(d)?,
        })
    }

    /// The address with these four bytes; None exactly where one of them is above 255.
    pub fn addr(&self) -> Option<Addr>
        ensures some { IsSome result ↔ IsAddr self.now }
        ensures value { IfSome result (λ addr. addr ≡ addr_value self.now) }
    {
        let a = u8::try_from(self.a).ok()?;
        let b = u8::try_from(self.b).ok()?;
        let c = u8::try_from(self.c).ok()?;
        let d = u8::try_from(self.d).ok()?;
        Some(Addr(u32::from_be_bytes([a, b, c, d])))
    }
}

/// The addresses of a word, joined by commas.
///
/// `Word` exactly where a part is no address word.
pub fn addresses(alloc: Global, word: &[u8]) -> Result<Vec<DottedQuad>, Unread>
    ensures { ReadsAs (λ v. v.items) result (quads_of word.now) }
{
    let mut quads = Vec::new(alloc);
    let mut rest = word;
    while let Some((first, behind)) = first_part(rest, b',') {
        quads.push(DottedQuad::of(first).ok_or(Unread::Word)?)?;
        rest = behind;
    }
    quads.push(DottedQuad::of(rest).ok_or(Unread::Word)?)?;
    Ok(quads)
}

/// Whether an address is a multicast group: 224.0.0.0 to 239.255.255.255 (RFC 1112, 4).
pub fn is_group(addr: Addr) -> bool
    ensures { IsTrue result ↔ IsGroup addr }
{
    0xe000_0000 <= addr.0 && addr.0 <= 0xefff_ffff
}

/// Whether an address may be that of an end: neither a multicast group nor 0.0.0.0.
pub fn is_host(addr: Addr) -> bool
    ensures { IsTrue result ↔ IsHost addr }
{
    !is_group(addr) && addr.0 != 0
}
