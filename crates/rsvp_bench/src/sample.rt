//! The objects that are read and written.

use rsvp_base::{Addr, Flow, Hop, Peak, Rate, Sender, Senders, Session, StyleKind};
use rsvp_objects::Object;

/// The objects of a Resv of the wildcard-filter style, for three senders.
pub fn objects() -> Option<[Object; 6]> {
    let flow = Flow::new(Rate::of(1000)?, Rate::of(2000)?, Peak::Infinite, 64, 1500)?;
    let scope = Senders::of(&[
        source(0x0a00_0101),
        source(0x0a00_0201),
        source(0x0a00_0301),
    ])
    .ok()?;
    Some([
        Object::Session {
            session: Session {
                group: Addr(0xef01_0101),
                proto: 17,
                port: 5004,
            },
            police: false,
        },
        Object::HopOf(Hop {
            addr: Addr(0x0a00_0202),
            handle: 0,
        }),
        Object::Time(30_000),
        Object::Scope(scope),
        Object::StyleOf(StyleKind::Wild),
        Object::FlowOf(flow),
    ])
}

// A sender that a scope names.
fn source(addr: u32) -> Sender {
    Sender {
        addr: Addr(addr),
        port: 0,
    }
}
