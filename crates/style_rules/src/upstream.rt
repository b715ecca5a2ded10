//! Lists of the names via a previous hop.
ghost use Rattle.std.specs.Prelude.{◌≡◌, ◌≤◌, ◌<◌, ◌↔◌, length, map, IsTrue, IsErr, OnOk, OnErr, IfOk, IfErr, slice_get};
ghost use Rattle.std.specs.Option.{option_copied, option_map};
ghost use Rattle.rsvp_base.specs.Orders.{senders};
ghost use Rattle.rsvp_base.specs.Rows.{AreRows};
ghost use Rattle.style_rules.specs.Ways.{way_of, up_line_of};

use crate::wall::UpLine;
use arrayvec::ArrayVec;
use rsvp_base::sorted::search;
use rsvp_base::{Full, Sender};
use std::marker::Model;

/// At most 16 lines with distinct names, in order of name. Contracts see the table of the ways out and the blockades by
/// name.
#[derive(Drop)]
pub struct Upstream {
    lines: ArrayVec<UpLine, 16>,
    ghost rising: { AreRows senders way_of lines.items },
    ghost few: { length lines.items ≤ 16 },
}

impl Model for Upstream {
    ghost use Rattle.rsvp_base.specs.Orders.{senders};
    ghost use Rattle.rsvp_base.specs.Rows.{table_of};
    ghost use Rattle.style_rules.specs.Ways.{WayTable, way_table_code, way_of};

    ghost Value = { WayTable };

    ghost coded = { way_table_code };

    ghost view = { λ u. table_of senders way_of u.lines.items u.rising };
}

impl Upstream {
    ghost use Rattle.rsvp_base.specs.Table.{empty, get, put_in, size};

    /// No line.
    pub fn new() -> Upstream
        ensures { result ≡ empty }
    {
        Upstream {
            lines: ArrayVec::new(),
        }
    }

    /// How many there are, at most 16.
    pub fn len(&self) -> usize
        ensures size { result ≡ size self.now }
        ensures few { result ≤ 16 }
    {
        self.lines.len()
    }

    /// Whether there are none.
    pub fn is_empty(&self) -> bool
        ensures { IsTrue result ↔ (size self.now ≡ 0) }
    {
        self.lines.is_empty()
    }

    /// The lines in order of name.
    pub fn as_slice(&self) -> &[UpLine]
        ensures lines { result.now ≡ map up_line_of self.now.rows }
        ensures few { length result.now ≤ 16 }
    {
        self.lines.as_slice()
    }

    /// The k-th line by name, from 0. `None` exactly where k is not below the length.
    pub fn at(&self, k: usize) -> Option<UpLine>
        ensures { result ≡ slice_get (map up_line_of self.now.rows) k }
    {
        self.as_slice().get(k).copied()
    }

    /// The line of a name. `None` exactly where it has none.
    pub fn get(&self, name: Sender) -> Option<&UpLine>
        ensures { option_copied result ≡ option_map (λ way. up_line_of (name, way)) (get self.now name) }
    {
        let place = search(self.lines.as_slice(), &name).ok()?;
        Some(&self.lines.as_slice()[place])
    }

    /// Adds a line, in place of that of its name. `Full` exactly where the name is new and 16 are there; nothing changes
    /// then.
    pub fn add(&mut self, line: UpLine) -> Result<(), Full>
        ensures ok { OnOk result (self.new ≡ put_in self.old (way_of line).0 (way_of line).1) }
        ensures full { IsErr result ↔ (16 < size (put_in self.old (way_of line).0 (way_of line).1)) }
        ensures err { OnErr result (self.new ≡ self.old) }
    {
        match search(self.lines.as_slice(), &line.name) {
            Ok(place) => self.lines[place] = line,
            Err(place) => {
                if self.lines.is_full() {
                    return Err(Full);
                }
                self.lines.insert(place, line);
            }
        }
        Ok(())
    }

    /// An equal list.
    pub fn copy(&self) -> Upstream
        ensures { result ≡ self.now }
    {
        let mut lines = ArrayVec::new();
        for line in self.lines.as_slice() {
            lines.push(*line);
        }
        Upstream { lines }
    }
}

impl Default for Upstream {
    fn default() -> Upstream {
        Upstream::new()
    }
}
