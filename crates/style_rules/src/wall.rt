//! What stands toward a previous hop.
use rsvp_base::sorted::Row;
use rsvp_base::{Flow, Sender};

/// A blockade: the flow that was refused, and by the value of its refusal whether for its rate (2) or its packet size (3)
/// (RFC 2205, 3.5 and appendix B, 01).
#[derive(Clone, Copy, Debug, PartialEq, Eq, Hash)]
pub struct Wall {
    pub flow: Flow,
    pub sub: u16,
}

/// A name via a previous hop: the interfaces by which its tree goes out (bit i is interface i), and the blockade that
/// stands for it.
#[derive(Clone, Copy, Debug, Default, PartialEq, Eq, Hash)]
pub struct UpLine {
    pub name: Sender,
    pub outward: u16,
    pub wall: Option<Wall>,
}

impl Row for UpLine {
    ghost use Rattle.style_rules.specs.Ways.{Way, way_of};

    type Key = Sender;

    ghost Rest = { Way };

    ghost as_row = { way_of };

    fn key(&self) -> Sender {
        self.name
    }
}
