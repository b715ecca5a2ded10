//! What a node's interfaces have promised.
ghost use Rattle.std.specs.Prelude.{◌≡◌, ◌≤◌, ℕ, length, slice_get};
ghost use Rattle.router_rules.specs.Books.{book};
ghost use Rattle.router_rules.specs.Flags.{entries_of};
ghost use Rattle.style_rules.specs.Lines.{held};
ghost use Rattle.router_state.specs.State.{facts_at};

use crate::node::Node;
use router_rules::Entry;
use traffic_control::entry_at;

impl Node {
    /// What the entries of an interface's book charge it together, in bytes per second.
    pub fn held(&self, iface: u8) -> u64
        ensures { (c : ℕ) → result ≡ held (book (facts_at c self.now) iface) }
    {
        self.tables.book.held(iface)
    }

    /// The k-th entry of an interface's book by session, style and unit, from 0, with its policing flags (RFC 2205, 3.8). `None`
    /// exactly where k is not below their number, which is at most 3,072.
    pub fn entry_at(&self, iface: u8, k: usize) -> Option<Entry>
        ensures entry { (c : ℕ) → result ≡ slice_get (entries_of self.now.place (facts_at c self.now) iface) k }
        ensures few { (c : ℕ) → length (entries_of self.now.place (facts_at c self.now) iface) ≤ 3072 }
    {
        entry_at(&self.tables, iface, k)
    }
}
