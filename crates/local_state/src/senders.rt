//! Local senders.
ghost use Rattle.std.specs.Prelude.{◌≡◌, ◌≤◌, ◌↔◌, cond, false, is_some, map, length, vec_capacity, IfOk, IfSome, IsErr, OnOk, OnErr};
ghost use Rattle.std.specs.List.{list_any};
ghost use Rattle.std.specs.Option.{option_map};
ghost use Rattle.std.specs.Ordering.{is_le, is_lt};
ghost use Rattle.rsvp_base.specs.Orders.{sessions, senders};
ghost use Rattle.rsvp_base.specs.Rows.{AreRows, table_of};
ghost use Rattle.rsvp_base.specs.SessionLimits.{IsWithinSessionLimits, has_room_at};
ghost use Rattle.rsvp_base.specs.Sets.{with_key};
ghost use Rattle.rsvp_base.specs.Table.{empty, get, has, keys, put_in, without};
ghost use Rattle.rsvp_base.specs.Under.{rows_under, under};
ghost use Rattle.router_rules.specs.Facts.{sender_keys};
ghost use Rattle.router_rules.specs.NodeConfig.{is_addr};
ghost use Rattle.local_state.specs.Rows.{mark_row, sender_row, tspec_row, IsCounted};

use crate::insert::insert_row;
use crate::sizes::{has_room, with_session, without_session};
use rsvp_base::sorted::search;
use rsvp_base::{Addr, Flow, Full, NoMemory, Sender, Session, sorted};
use std::alloc::Global;
use std::marker::Model;

// At most so many senders: 16 of each of 32 sessions.
const ROOM: usize = 512;

/// A local sender, the traffic that it announces, and whether its node tells what its path offers (RFC 2210, 3.3).
#[derive(Clone, Copy, Debug, PartialEq, Eq)]
pub struct LocalSender {
    pub session: Session,
    pub sender: Sender,
    pub tspec: Flow,
    pub advertised: bool,
}

impl sorted::Row for LocalSender {
    ghost use Rattle.rsvp_base.specs.TokenBucket.{TokenBucket};
    ghost use Rattle.local_state.specs.Rows.{sender_row};

    type Key = (Session, Sender);

    ghost Rest = { TokenBucket };

    ghost as_row = { sender_row };

    fn key(&self) -> (Session, Sender) {
        (self.session, self.sender)
    }
}

/// The local senders, one for a session and sender. Contracts see a finite map from session and sender to the traffic that
/// the sender announces, and the set of those that are advertised. At most 32 sessions have some, and at most 16 each.
#[derive(Drop)]
pub struct LocalSenders {
    rows: Vec<LocalSender>,
    // How many sessions have some.
    held: usize,
    ghost rising: { AreRows sender_keys sender_row rows.items },
    ghost marks: { AreRows sender_keys mark_row rows.items },
    ghost within: { IsWithinSessionLimits senders (table_of sender_keys sender_row rows.items rising) },
    ghost counted: { IsCounted held (table_of sender_keys sender_row rows.items rising) },
    ghost room: { 512 ≤ vec_capacity rows },
}

impl Model for LocalSenders {
    ghost use Rattle.rsvp_base.specs.Rows.{table_of};
    ghost use Rattle.rsvp_base.specs.Table.{changed};
    ghost use Rattle.router_rules.specs.Facts.{sender_keys};
    ghost use Rattle.local_state.specs.Rows.{Announced, is_marked, mark_row, sender_row, senders_code};

    ghost Value = { Announced };

    ghost coded = { senders_code };

    ghost view = { λ t. record {
      tspecs = table_of sender_keys sender_row t.rows.items t.rising;
      advertised = changed is_marked (table_of sender_keys mark_row t.rows.items t.marks);
    } };
}

impl LocalSenders {
    /// No sender. It takes no memory later. `NoMemory`: the room could not be had.
    pub fn open(alloc: Global) -> Result<LocalSenders, NoMemory>
        ensures { IfOk result (λ t. t ≡ record { tspecs = empty; advertised = empty }) }
    {
        let rows = Vec::with_capacity(alloc, ROOM)?;
        Ok(LocalSenders { rows, held: 0 })
    }

    /// A sender, as it is here. `None` exactly where there is no such local sender.
    pub fn find(&self, session: Session, sender: Sender) -> Option<LocalSender>
        ensures there { is_some result ≡ has self.now.tspecs (session, sender) }
        ensures flow { option_map (λ r. r.tspec) result ≡ get self.now.tspecs (session, sender) }
        ensures advertised { IfSome result (λ r. r.advertised ≡ has self.now.advertised (session, sender)) }
        // What holds of every table.
        ensures within { IsWithinSessionLimits senders self.now.tspecs }
    {
        match search(self.rows.as_slice(), &(session, sender)) {
            Ok(at) => Some(self.rows[at]),
            Err(_) => None,
        }
    }

    /// What holds of every table: it is within its limits. This says it to who needs to know, and looks nothing up.
    pub fn limits(&self)
        ensures { IsWithinSessionLimits senders self.now.tspecs }
    {
        let _rows = &self.rows;
    }

    /// All of them, in order of session and sender.
    pub fn as_slice(&self) -> &[LocalSender]
        ensures { map sender_row result.now ≡ self.now.tspecs.rows }
    {
        self.rows.as_slice()
    }

    /// Those of a session, in order of sender: at most 16.
    pub fn of(&self, session: Session) -> &[LocalSender]
        ensures rows { map tspec_row result.now ≡ (under sessions senders self.now.tspecs session).rows }
        ensures few { length result.now ≤ 16 }
    {
        of_session(self.rows.as_slice(), session)
    }

    /// Whether a session has a local sender of this address.
    pub fn has_address(&self, session: Session, addr: Addr) -> bool
        ensures { result ≡ list_any (λ x. is_addr x.addr addr) (keys (under sessions senders self.now.tspecs session)) }
    {
        any_of_address(self.of(session), addr)
    }

    /// Puts a sender with what it announces, in place of what it announced before; one that is advertised stays so. `Full`
    /// exactly where this would be the first of a 33rd session, or a 17th of its session; nothing changes then.
    pub fn put(&mut self, session: Session, sender: Sender, tspec: Flow) -> Result<(), Full>
        ensures ok { OnOk result (self.new ≡ record self.old { tspecs = put_in self.old.tspecs (session, sender) tspec }) }
        ensures full { IsErr result ↔ (has_room_at senders (put_in self.old.tspecs (session, sender) tspec) session ≡ false) }
        ensures err { OnErr result (self.new ≡ self.old) }
    {
        match search(self.rows.as_slice(), &(session, sender)) {
            Ok(at) => {
                self.rows[at].tspec = tspec;
                Ok(())
            }
            Err(at) => {
                let among = of_session(self.rows.as_slice(), session).len();
                if !has_room(among, self.held) {
                    return Err(Full);
                }
                self.held = with_session(among, self.held);
                let row = LocalSender {
                    session,
                    sender,
                    tspec,
                    advertised: false,
                };
                insert_row(&mut self.rows, at, row);
                Ok(())
            }
        }
    }

    /// A sender is advertised from now on. False exactly where there is no such local sender; nothing changes then.
    pub fn advertise(&mut self, session: Session, sender: Sender) -> bool
        ensures was { result ≡ has self.old.tspecs (session, sender) }
        ensures marked { self.new ≡ record self.old { advertised = cond result (with_key self.old.advertised (session, sender)) self.old.advertised } }
    {
        let Ok(at) = search(self.rows.as_slice(), &(session, sender)) else {
            return false;
        };
        self.rows[at].advertised = true;
        true
    }

    /// Takes a sender out, and that it is advertised. False exactly where there is no such local sender; nothing changes then.
    pub fn remove(&mut self, session: Session, sender: Sender) -> bool
        ensures was { result ≡ has self.old.tspecs (session, sender) }
        ensures gone { self.new
            ≡ cond result (record { tspecs = without self.old.tspecs (session, sender); advertised = without self.old.advertised (session, sender) }) self.old }
    {
        let Ok(at) = search(self.rows.as_slice(), &(session, sender)) else {
            return false;
        };
        self.rows.remove(at);
        let among = of_session(self.rows.as_slice(), session).len();
        self.held = without_session(among, self.held);
        true
    }
}

// Whether a row stands before those of the session.
fn is_before(row: &LocalSender, session: Session) -> bool
    ensures { result ≡ is_lt (sessions.cmp row.now.session session) }
{
    row.session.cmp(&session).is_lt()
}

// Whether a row stands before those of the session or is one of them.
fn is_up_to(row: &LocalSender, session: Session) -> bool
    ensures { result ≡ is_le (sessions.cmp row.now.session session) }
{
    row.session.cmp(&session).is_le()
}

// The rows of a session, which stand together.
fn of_session(rows: &[LocalSender], session: Session) -> &[LocalSender]
    requires { AreRows sender_keys sender_row rows.now }
    ensures { map tspec_row result.now ≡ rows_under sessions senders session (map sender_row rows.now) }
{
    let from = &rows[rows.partition_point(|row| is_before(row, session))..];
    &from[..from.partition_point(|row| is_up_to(row, session))]
}

// Whether one of the senders has this address.
fn any_of_address(rows: &[LocalSender], addr: Addr) -> bool
    ensures { result ≡ list_any (λ r. is_addr r.sender.addr addr) rows.now }
{
    rows.iter().any(|row| row.sender.addr == addr)
}
