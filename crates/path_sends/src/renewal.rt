//! A path that is kept anew: where what is offered of its sender is new.
ghost use Rattle.std.specs.Prelude.{◌≡◌, Bool, Option, Some, fold, is_some};
ghost use Rattle.laws_sends.specs.Told.{told_new};
ghost use Rattle.rsvp_base.specs.TokenBucket.{TokenBucket};
ghost use Rattle.path_sends.specs.Renewing.{AreNews, offer_by};
ghost use Rattle.router_rules.specs.Offers.{Offer};

use crate::offered::{Offered, is_same_flow};
use crate::paths::tell_new;
use adspec_path::same_told;
use path_state::PathFact;
use router_rules::Outbox;
use router_state::Config;
use rsvp_base::{Flow, Sender, Session};
use rsvp_objects::Adspec;

/// What is offered of a sender before and after its path is kept anew, where that may be new.
#[derive(Drop)]
pub struct Renewal {
    before: Option<Offered>,
    after: Option<Offered>,
}

impl Renewal {
    /// Of a sender, local or not, that has this path and is to have one with this flow and this ADSPEC. `None`: what is offered is
    /// new at no interface.
    pub fn of(local: bool, was: &PathFact, tspec: Flow, kept: &Option<Adspec>) -> Option<Renewal>
        ensures { (own : Option (Bool × TokenBucket)) → is_some own ≡ local → AreNews result (offer_by own was.now.tspec was.now.adspec) (offer_by own tspec kept.now) }
    {
        if local {
            return None;
        }
        if is_same_flow(&tspec, &was.tspec) && same_told(kept, &was.adspec) {
            return None;
        }
        Some(Renewal {
            before: Some(Offered::passed(was.tspec, &was.adspec)),
            after: Some(Offered::passed(tspec, kept)),
        })
    }
}

/// The Paths of a sender whose path is kept anew, by each interface of its tree at which what is offered is new.
pub fn tell_renewal<O: Outbox>(
    config: &Config,
    session: Session,
    sender: Sender,
    renewal: &Option<Renewal>,
    out: &mut O,
)
    ensures { (old now : Offer) → AreNews renewal.now old now → out.new ≡ fold O.posted out.old (told_new config.now (session, sender) (Some old) (Some now)) }
{
    let Some(renewal) = renewal else {
        return;
    };
    tell_new(
        config,
        session,
        sender,
        &renewal.before,
        &renewal.after,
        out,
    );
}
