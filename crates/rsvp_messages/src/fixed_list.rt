//! Lists of fixed filters.
ghost use Rattle.std.specs.Prelude.{◌≡◌, ◌≤◌, ◌<◌, ◌↔◌, length, IsErr, OnOk, OnErr, IfOk, IfErr, slice_get};
ghost use Rattle.rsvp_base.specs.Orders.{senders};
ghost use Rattle.rsvp_base.specs.Rows.{AreRows, HasRowAt, LacksRowAt};

use arrayvec::ArrayVec;
use rsvp_base::{Flow, Full, Sender};
use std::cmp::Ordering;
use std::marker::Model;

/// 1 to 16 distinct senders, each with its flow, in order of sender: the flow descriptors of a fixed-filter reservation
/// (RFC 2205, 3.1.4). Contracts see the table of the flows by sender.
#[derive(Drop)]
pub struct FixedList {
    rows: ArrayVec<(Sender, Flow), 16>,
    ghost rising: { AreRows senders (λ e. e) rows.items },
    ghost few: { length rows.items ≤ 16 },
    ghost some: { 1 ≤ length rows.items },
}

impl Model for FixedList {
    ghost use Rattle.rsvp_base.specs.Codes.{bucket_code};
    ghost use Rattle.rsvp_base.specs.Orders.{senders, sender_code};
    ghost use Rattle.rsvp_base.specs.Rows.{table_of};
    ghost use Rattle.rsvp_base.specs.Table.{table_code};
    ghost use Rattle.rsvp_messages.specs.FlowTable.{FlowTable};

    ghost Value = { FlowTable };

    ghost coded = { table_code senders sender_code bucket_code };

    ghost view = { λ l. table_of senders (λ e. e) l.rows.items l.rising };
}

impl FixedList {
    ghost use Rattle.rsvp_base.specs.Table.{empty, put_in, size};

    /// The list of this sender alone, with its flow.
    #[inline(always)]
    pub fn new(sender: Sender, flow: Flow) -> FixedList
        ensures { result ≡ put_in empty sender flow }
    {
        let mut rows = ArrayVec::new();
        rows.push((sender, flow));
        FixedList { rows }
    }

    /// Puts a sender with its flow, in place of the flow that it had. `Full` exactly where it would be a 17th sender;
    /// nothing changes then.
    pub fn put(&mut self, sender: Sender, flow: Flow) -> Result<(), Full>
        ensures ok { OnOk result (self.new ≡ put_in self.old sender flow) }
        ensures full { IsErr result ↔ (16 < size (put_in self.old sender flow)) }
        ensures err { OnErr result (self.new ≡ self.old) }
    {
        match search(self.rows.as_slice(), sender) {
            Ok(place) => {
                self.rows[place] = (sender, flow);
                Ok(())
            }
            Err(place) => {
                if self.rows.is_full() {
                    return Err(Full);
                }
                self.rows.insert(place, (sender, flow));
                Ok(())
            }
        }
    }

    /// How many senders there are, 1 to 16.
    pub fn len(&self) -> usize
        ensures size { result ≡ size self.now }
        ensures few { result ≤ 16 }
        ensures some { 1 ≤ result }
    {
        self.rows.len()
    }

    /// The senders with their flows, in order of sender.
    pub fn as_slice(&self) -> &[(Sender, Flow)]
        ensures rows { result.now ≡ self.now.rows }
        ensures few { length result.now ≤ 16 }
        ensures some { 1 ≤ length result.now }
    {
        self.rows.as_slice()
    }

    /// The k-th sender with its flow, from 0. `None` exactly where k is not below the length.
    pub fn at(&self, k: usize) -> Option<(Sender, Flow)>
        ensures { result ≡ slice_get self.now.rows k }
    {
        self.as_slice().get(k).copied()
    }

    /// An equal list.
    pub fn copy(&self) -> FixedList
        ensures { result ≡ self.now }
    {
        let mut rows = ArrayVec::new();
        for row in self.as_slice() {
            rows.push(*row);
        }
        FixedList { rows }
    }
}

// Where the sender stands, or where it would go.
fn search(rows: &[(Sender, Flow)], sender: Sender) -> Result<usize, usize>
    requires { AreRows senders (λ e. e) rows.now }
    ensures there { IfOk result (HasRowAt senders (λ e. e) rows.now sender) }
    ensures absent { IfErr result (LacksRowAt senders (λ e. e) rows.now sender) }
{
    rows.binary_search_by(|row| sender_order(row.0, sender))
}

// Senders by address and port.
fn sender_order(a: Sender, b: Sender) -> Ordering
    ensures { result ≡ senders.cmp a b }
{
    a.cmp(&b)
}
