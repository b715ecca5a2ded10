//! The known senders of a session: local ones, and those with a path.
ghost use Rattle.std.specs.Prelude.{◌≡◌, ◌≤◌, ℕ, length, map, IfOk, IfErr};
ghost use Rattle.rsvp_base.specs.Orders.{senders, sessions};
ghost use Rattle.rsvp_base.specs.Rows.{AreRows, HasRowAt, LacksRowAt};
ghost use Rattle.rsvp_base.specs.Table.{empty, keys, size};
ghost use Rattle.rsvp_base.specs.Sets.{with_key, with_keys};
ghost use Rattle.rsvp_base.specs.Under.{under};
ghost use Rattle.router_rules.specs.Known.{known};
ghost use Rattle.path_sends.specs.RouterState.State.{State, facts_of};
ghost use Rattle.router_aging.specs.Passing.{sender_row};
ghost use Rattle.router_aging.specs.Telling.{known_names};

use arrayvec::ArrayVec;
use local_state::{LocalSender, LocalSenders};
use path_state::PathTable;
use rsvp_base::{Sender, Session};
use std::marker::Model;

/// The known senders of a session in order, local ones and those with a path: at most 32. Contracts see the set of them.
#[derive(Drop)]
pub struct KnownSenders {
    list: ArrayVec<Sender, 32>,
    ghost rising: { AreRows senders sender_row list.items },
    ghost few: { length list.items ≤ 32 },
}

impl Model for KnownSenders {
    ghost use Rattle.rsvp_base.specs.Orders.{Names, names_code, senders};
    ghost use Rattle.rsvp_base.specs.Rows.{table_of};
    ghost use Rattle.router_aging.specs.Passing.{sender_row};

    ghost Value = { Names };

    ghost coded = { names_code };

    ghost view = { λ k. table_of senders sender_row k.list.items k.rising };
}

impl KnownSenders {
    /// Those of a session.
    pub fn of(senders: &LocalSenders, paths: &PathTable, session: Session) -> KnownSenders
        ensures known { (c : ℕ) (n : State) → n.senders ≡ senders.now.tspecs → n.paths ≡ paths.now.facts → result ≡ known (facts_of c n) session }
        ensures names { result ≡ known_names senders.now.tspecs paths.now.facts session }
    {
        let mut found = KnownSenders::new();
        add_own(&mut found, senders.of(session));
        add_paths(&mut found, paths, session);
        found
    }

    /// The senders in order.
    pub fn as_slice(&self) -> &[Sender]
        ensures senders { result.now ≡ keys self.now }
        ensures few { length result.now ≤ 32 }
    {
        self.list.as_slice()
    }

    // None.
    fn new() -> KnownSenders
        ensures { result ≡ empty }
    {
        KnownSenders {
            list: ArrayVec::new(),
        }
    }

    // Adds a sender, if it is not there.
    fn add(&mut self, sender: Sender)
        requires { size (with_key self.old sender) ≤ 32 }
        ensures { self.new ≡ with_key self.old sender }
    {
        if let Err(place) = search(self.list.as_slice(), sender) {
            self.list.insert(place, sender);
        }
    }
}

// Where the sender stands, or where it would go.
fn search(list: &[Sender], sender: Sender) -> Result<usize, usize>
    requires { AreRows senders sender_row list.now }
    ensures there { IfOk result (HasRowAt senders sender_row list.now sender) }
    ensures absent { IfErr result (LacksRowAt senders sender_row list.now sender) }
{
    list.binary_search(&sender)
}

// Adds the senders of local ones.
fn add_own(found: &mut KnownSenders, own: &[LocalSender])
    requires none { size found.old ≤ 0 }
    requires few { length own.now ≤ 16 }
    ensures senders { found.new ≡ with_keys found.old (map (λ r. r.sender) own.now) }
    ensures size { size found.new ≤ 16 }
{
    for i in 0..own.len() {
        found.add(own[i].sender);
    }
}

// Adds the senders of the paths of a session.
fn add_paths(found: &mut KnownSenders, paths: &PathTable, session: Session)
    requires { size found.old ≤ 16 }
    ensures { found.new ≡ with_keys found.old (keys (under sessions senders paths.now.facts session)) }
{
    for fact in paths.of_session(session) {
        found.add(fact.sender);
    }
}
