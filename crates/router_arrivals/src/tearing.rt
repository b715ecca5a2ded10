//! A ResvTear arrives.
ghost use Rattle.std.specs.Prelude.{◌≡◌, ℕ};
ghost use Rattle.rsvp_messages.specs.Units.{tear_names, tear_style};
ghost use Rattle.router_rules.specs.Asking.{act_resv_tear, names_one, torn_resvs};
ghost use Rattle.router_rules.specs.Facts.{resvs_of, with_resvs};
ghost use Rattle.router_state.specs.State.{Said, facts_of};
ghost use Rattle.router_state.specs.Whole.{ArePulled, IsBooked, state_of};

use resv_admission::{tear_all, tear_names};
use router_rules::{Heard, Why};
use router_state::Tables;
use rsvp_messages::{ResvTearMsg, Tear};

/// A ResvTear arrives by an interface: its senders leave the reservations of its next hop, session and style, and the entries
/// of their units are worked out anew. `NoState` exactly where no reservation of the next hop had one of them; nothing changes
/// then.
pub fn tear_resv(tables: &mut Tables, iface: u8, message: &ResvTearMsg) -> Heard
    requires { IsBooked tables.old }
    ensures heard { (c : ℕ) (said : Said) → result ≡ (act_resv_tear iface message.now (facts_of c (state_of tables.old said))).heard }
    ensures facts { (c : ℕ) (said : Said) → facts_of c (state_of tables.new said) ≡ (act_resv_tear iface message.now (facts_of c (state_of tables.old said))).facts }
    ensures booked { IsBooked tables.new }
    ensures pulled { ArePulled tables.old → ArePulled tables.new }
    ensures ifaces { tables.new.book.ifaces ≡ tables.old.book.ifaces }
    ensures rest { tables.new ≡ record tables.old { wild = tables.new.wild; fixed = tables.new.fixed; shared = tables.new.shared; book = tables.new.book } }
{
    if tear_by_style(tables, iface, message) {
        Heard::Taken
    } else {
        Heard::Dropped(Why::NoState)
    }
}

// The senders of a ResvTear leave the table of its style. False exactly where no reservation of the next hop had one of them.
fn tear_by_style(tables: &mut Tables, iface: u8, message: &ResvTearMsg) -> bool
    requires { IsBooked tables.old }
    ensures had { (c : ℕ) (said : Said)
        → result ≡ names_one message.now.session (iface, message.now.hop.addr) (tear_names message.now.tear) (resvs_of (tear_style message.now.tear) (facts_of c (state_of tables.old said))) }
    ensures facts { (c : ℕ) (said : Said)
        → facts_of c (state_of tables.new said)
        ≡ with_resvs (tear_style message.now.tear)
        (torn_resvs result message.now.session (iface, message.now.hop.addr) (tear_names message.now.tear) (resvs_of (tear_style message.now.tear) (facts_of c (state_of tables.old said))))
        (facts_of c (state_of tables.old said)) }
    ensures booked { IsBooked tables.new }
    ensures pulled { ArePulled tables.old → ArePulled tables.new }
    ensures ifaces { tables.new.book.ifaces ≡ tables.old.book.ifaces }
    ensures rest { tables.new ≡ record tables.old { wild = tables.new.wild; fixed = tables.new.fixed; shared = tables.new.shared; book = tables.new.book } }
{
    let session = message.session;
    let next = message.hop.addr;
    match &message.tear {
        Tear::Wild { scope: Some(names) } => tear_names(
            &mut tables.wild,
            &mut tables.book,
            session,
            iface,
            next,
            names,
        ),
        Tear::Wild { scope: None } => {
            tear_all(&mut tables.wild, &mut tables.book, session, iface, next)
        }
        Tear::Fixed(names) => tear_names(
            &mut tables.fixed,
            &mut tables.book,
            session,
            iface,
            next,
            names,
        ),
        Tear::Shared(names) => tear_names(
            &mut tables.shared,
            &mut tables.book,
            session,
            iface,
            next,
            names,
        ),
    }
}
