//! Resvs and ResvTears change the reservations of a session.
ghost use Rattle.std.specs.Prelude.{◌≡◌, ◌<◌, ℕ, false, length};
ghost use Rattle.rsvp_base.specs.Table.{empty};
ghost use Rattle.rsvp_base.specs.declared.session.Sender.{Sender as Sending};
ghost use Rattle.router_rules.specs.Asking.{act_resv, act_resv_tear, asker_of as asker_of_rule};
ghost use Rattle.router_state.specs.State.{Said, facts_of};
ghost use Rattle.laws_sends.specs.Changed.{IsChangedFor};
ghost use Rattle.router_state.specs.Whole.{IsOfPlace, state_of};
ghost use Rattle.router_arrivals.specs.Taken.{AreSameParts, IsAnswer};
ghost use Rattle.router_aging.specs.Steps.{AreSound};
ghost use Rattle.router_arrivals.specs.Styled.{AreOfStyles};

use crate::taking::{Answer, take_resv};
use crate::tearing::tear_resv;
use router_rules::Heard;
use router_state::Tables;
use rsvp_messages::{ResvMsg, ResvTearMsg};

/// The senders of a ResvTear leave the reservations of its next hop, session and style (RFC 2209, 2: RESV TEAR MESSAGE
/// ARRIVES). Nothing of other sessions changes.
pub fn tear_resvs(tables: &mut Tables, iface: u8, message: &ResvTearMsg) -> Heard
    requires { AreSound tables.old }
    ensures heard { (c : ℕ) (said : Said) → result ≡ (act_resv_tear iface message.now (facts_of c (state_of tables.old said))).heard }
    ensures facts { (c : ℕ) (said : Said) → facts_of c (state_of tables.new said) ≡ (act_resv_tear iface message.now (facts_of c (state_of tables.old said))).facts }
    ensures change { (said : Said) (x : Sending) → IsChangedFor (message.now.session, x) (state_of tables.old said) (state_of tables.new said) }
    ensures sound { AreSound tables.new }
    ensures ifaces { tables.new.book.ifaces ≡ tables.old.book.ifaces }
    ensures rest { tables.new ≡ record tables.old { wild = tables.new.wild; fixed = tables.new.fixed; shared = tables.new.shared; book = tables.new.book } }
{
    look(tables);
    let heard = tear_resv(tables, iface, message);
    look(tables);
    heard
}

/// The units of a Resv that came by one of the node's interfaces are taken, refused or left out (RFC 2209, 2: RESV MESSAGE
/// ARRIVES). Nothing of other sessions changes. Where nothing that was taken is news, each part stands as it did. What came of it
/// is left in `answer`, in place of what was there.
pub fn take_resvs(tables: &mut Tables, iface: u8, message: &ResvMsg, answer: &mut Answer)
    requires sound { AreSound tables.old }
    requires place { IsOfPlace tables.old }
    requires exists { iface < length tables.old.book.ifaces }
    ensures answer { (c : ℕ) (said : Said)
        → IsAnswer tables.old.config (asker_of_rule tables.old.config c iface message.now) answer.new (act_resv tables.old.config c iface message.now (facts_of c (state_of tables.old said))) }
    ensures facts { (c : ℕ) (said : Said) → facts_of c (state_of tables.new said) ≡ (act_resv tables.old.config c iface message.now (facts_of c (state_of tables.old said))).facts }
    ensures change { (said : Said) (x : Sending) → IsChangedFor (message.now.session, x) (state_of tables.old said) (state_of tables.new said) }
    ensures sound { AreSound tables.new }
    ensures ifaces { tables.new.book.ifaces ≡ tables.old.book.ifaces }
    ensures rest { tables.new ≡ record tables.old { wild = tables.new.wild; fixed = tables.new.fixed; shared = tables.new.shared; book = tables.new.book } }
    ensures quiet { answer.new.done.news ≡ false → AreSameParts (state_of tables.old empty) (state_of tables.new empty) }
{
    look(tables);
    take_resv(tables, iface, message, answer);
    look(tables);
}

// The proof sees here that each reservation stands under its key.
fn look(tables: &Tables)
    ensures { (said : Said) → AreOfStyles (state_of tables.now said) }
{
    let _wild = tables.wild.limits();
    let _fixed = tables.fixed.limits();
    let _shared = tables.shared.limits();
}
