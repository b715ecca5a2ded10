//! Walks along the paths of a session.
ghost use Rattle.std.specs.Prelude.{◌≡◌, ◌≤◌, map, length, if◌then◌else◌};
ghost use Rattle.std.specs.List.{list_any};
ghost use Rattle.rsvp_base.specs.Orders.{names_from};
ghost use Rattle.rsvp_base.specs.Sets.{with_key};
ghost use Rattle.rsvp_base.specs.Table.{size};
ghost use Rattle.path_state.specs.Paths.{comes_by, hops_by, is_from, paths_under, senders_by};

use crate::fact::PathFact;
use crate::hops::Hops;
use rsvp_base::{Addr, Sender, Senders, Session};
use soft_table::SoftTable;

// Whether a sender has this address.
fn is_address(sender: Sender, addr: Addr) -> bool
    ensures { result ≡ is_from addr sender }
{
    sender.addr == addr
}

// The senders of a session whose paths came by an interface and a hop address.
pub(crate) fn senders_via(
    table: &SoftTable<PathFact>,
    session: Session,
    iface: u8,
    addr: Addr,
) -> Senders
    requires { length (paths_under session table.now.facts) ≤ 16 }
    ensures { result ≡ names_from (senders_by iface addr (paths_under session table.now.facts)) }
{
    let mut found = Senders::new();
    for fact in table.of_session(session) {
        add_via(&mut found, fact, iface, addr);
    }
    found
}

// One sender more, if its fact has this interface and this hop address.
fn add_via(found: &mut Senders, fact: &PathFact, iface: u8, addr: Addr)
    requires { size (with_key found.old fact.now.sender) ≤ 16 }
    ensures { found.new ≡ if comes_by iface addr fact.now then with_key found.old fact.now.sender else found.old }
{
    if fact.iface == iface && fact.hop.addr == addr {
        let Ok(()) = found.insert(fact.sender) else {
            unreachable!();
        };
    }
}

// The previous hops of a session.
pub(crate) fn hops(table: &SoftTable<PathFact>, session: Session) -> Hops
    requires { length (paths_under session table.now.facts) ≤ 16 }
    ensures { result ≡ hops_by (paths_under session table.now.facts) }
{
    let mut found = Hops::new();
    for fact in table.of_session(session) {
        found.add((fact.iface, fact.hop.addr));
    }
    found
}

// Whether a session has a path of a sender with this address.
pub(crate) fn has_address(table: &SoftTable<PathFact>, session: Session, addr: Addr) -> bool
    ensures { result ≡ list_any (is_from addr) (map (λ e. e.0) (paths_under session table.now.facts)) }
{
    table
        .of_session(session)
        .any(|fact| is_address(fact.sender, addr))
}
