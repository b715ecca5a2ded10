//! The reservations of a full table.
ghost use Rattle.std.specs.Prelude.{◌≡◌, not, true, IfSome};
ghost use Rattle.rsvp_base.specs.Sets.{is_none};
ghost use Rattle.rsvp_base.specs.Table.{size};
ghost use Rattle.style_rules.specs.Parts.{IsOfStyle};

use resv_state::ResvFact;
use rsvp_base::{Addr, Flow, Part, Peak, Rate, Sender, Senders, Session};
use style_rules::{Fixed, Shared, Style};

/// How many sessions there are.
pub const SESSIONS: u16 = 32;

/// How many reservations each has.
pub const EACH: u16 = 32;

/// A style with reservations that fill a table of it.
pub trait Sample: Style {
    /// The k-th reservation of the session of this number.
    fn reservation(number: u16, k: u16) -> Option<ResvFact>
        ensures { IfSome result (λ f. IsOfStyle Self.kind_is f.part) };
}

impl Sample for Fixed {
    fn reservation(number: u16, k: u16) -> Option<ResvFact> {
        let senders = one(source(k % 16))?;
        fact(number, k / 16, k / 16, senders, 1000 + u64::from(k))
    }
}

impl Sample for Shared {
    fn reservation(number: u16, k: u16) -> Option<ResvFact> {
        let senders = sources()?;
        fact(number, k / 16, k, senders, 1000 + u64::from(k))
    }
}

/// The session of this number.
pub fn session(number: u16) -> Session {
    Session {
        group: Addr(0xef01_0101),
        proto: 17,
        port: number,
    }
}

/// The sender of this number.
pub fn source(k: u16) -> Sender {
    Sender {
        addr: Addr(0x0a00_0101 + u32::from(k)),
        port: 5004,
    }
}

// One sender.
fn one(name: Sender) -> Option<Senders>
    ensures { IfSome result (λ s. size s ≡ 1) }
{
    let names = Senders::of(&[name]).ok()?;
    if names.len() == 1 { Some(names) } else { None }
}

// The 16 senders.
fn sources() -> Option<Senders>
    ensures { IfSome result (λ s. not (is_none s) ≡ true) }
{
    let mut names = Senders::new();
    for k in 0u16..16 {
        names.insert(source(k)).ok()?;
    }
    if names.is_empty() { None } else { Some(names) }
}

// The reservation for these senders at a next hop of this number.
fn fact(number: u16, iface: u16, hop: u16, senders: Senders, rate: u64) -> Option<ResvFact>
    ensures { IfSome result (λ f. f.part.senders ≡ senders) }
{
    let flow = Flow::new(Rate::of(rate)?, Rate::of(2000)?, Peak::Infinite, 64, 1500)?;
    Some(ResvFact {
        session: session(number),
        iface: (iface % 16) as u8,
        next: Addr(0x0a01_0001 + u32::from(hop)),
        part: Part { senders, flow },
        confirm: None,
    })
}
