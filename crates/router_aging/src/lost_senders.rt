//! A sender goes, and its names with it.
ghost use Rattle.std.specs.Prelude.{◌≡◌};
ghost use Rattle.router_state.specs.State.{Said};
ghost use Rattle.router_state.specs.Whole.{state_of};
ghost use Rattle.router_aging.specs.Steps.{AreSound, names_gone};

use crate::dead::DeadPath;
use crate::forgetting::forget_one;
use router_state::Tables;
use rsvp_base::{Sender, Session};

/// The names of a sender that went leave the reservations, where no known sender has them any more: a local one, or one with
/// a path; for the wildcard style any of the same address (RFC 2209, 2: PATH TEAR MESSAGE ARRIVES). The entries of their
/// units are worked out anew.
pub fn forget_lost(tables: &mut Tables, session: Session, sender: Sender)
    requires { AreSound tables.old }
    ensures state { (said : Said) → state_of tables.new said ≡ names_gone (session, sender) (state_of tables.old said) }
    ensures sound { AreSound tables.new }
    ensures ifaces { tables.new.book.ifaces ≡ tables.old.book.ifaces }
{
    let gone = DeadPath { session, sender };
    forget_one(
        &mut tables.wild,
        &mut tables.book,
        &tables.senders,
        &tables.paths,
        &gone,
    );
    forget_one(
        &mut tables.fixed,
        &mut tables.book,
        &tables.senders,
        &tables.paths,
        &gone,
    );
    forget_one(
        &mut tables.shared,
        &mut tables.book,
        &tables.senders,
        &tables.paths,
        &gone,
    );
}
