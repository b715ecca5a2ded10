//! Lists of previous hops.
ghost use Rattle.std.specs.Prelude.{◌≡◌, ◌≤◌, length, IfOk, IfErr};
ghost use Rattle.rsvp_base.specs.Rows.{AreRows, HasRowAt, LacksRowAt};
ghost use Rattle.path_state.specs.Paths.{path_hops, hop_row};

use arrayvec::ArrayVec;
use rsvp_base::Addr;
use std::cmp::Ordering;
use std::marker::Model;

/// Previous hops, each an interface and the address of the node behind it, in this order: at most 16. Contracts see the set
/// of them.
#[derive(Drop)]
pub struct Hops {
    list: ArrayVec<(u8, Addr), 16>,
    ghost rising: { AreRows path_hops hop_row list.items },
    ghost few: { length list.items ≤ 16 },
}

impl Model for Hops {
    ghost use Rattle.rsvp_base.specs.Rows.{table_of};
    ghost use Rattle.path_state.specs.Paths.{HopSet, hop_set_code, path_hops, hop_row};

    ghost Value = { HopSet };

    ghost coded = { hop_set_code };

    ghost view = { λ h. table_of path_hops hop_row h.list.items h.rising };
}

impl Hops {
    ghost use Rattle.rsvp_base.specs.Table.{empty, keys, size};
    ghost use Rattle.rsvp_base.specs.Sets.{with_key};

    // None.
    pub(crate) fn new() -> Hops
        ensures { result ≡ empty }
    {
        Hops {
            list: ArrayVec::new(),
        }
    }

    /// The hops in order.
    pub fn as_slice(&self) -> &[(u8, Addr)]
        ensures hops { result.now ≡ keys self.now }
        ensures few { length result.now ≤ 16 }
    {
        self.list.as_slice()
    }

    /// Adds a hop, if it is not there. At most 16 are there then.
    pub fn add(&mut self, hop: (u8, Addr))
        requires { size (with_key self.old hop) ≤ 16 }
        ensures { self.new ≡ with_key self.old hop }
    {
        if let Err(place) = search(self.list.as_slice(), hop) {
            self.list.insert(place, hop);
        }
    }
}

// Where the hop stands, or where it would go.
fn search(list: &[(u8, Addr)], hop: (u8, Addr)) -> Result<usize, usize>
    requires { AreRows path_hops hop_row list.now }
    ensures there { IfOk result (HasRowAt path_hops hop_row list.now hop) }
    ensures absent { IfErr result (LacksRowAt path_hops hop_row list.now hop) }
{
    list.binary_search_by(|row| hop_order(*row, hop))
}

// Hops by interface and address.
fn hop_order(a: (u8, Addr), b: (u8, Addr)) -> Ordering
    ensures { result ≡ path_hops.cmp a b }
{
    a.0.cmp(&b.0).then(a.1.cmp(&b.1))
}
