//! What a node tells where a Resv or a ResvErr changed a session: what is gone, the errors and a confirmation, and what is new.
ghost use Rattle.std.specs.Prelude.{◌≡◌, ℕ, [], ◌++◌, None, fold};
ghost use Rattle.std.specs.Option.{option_map};
ghost use Rattle.rsvp_base.specs.Table.{empty};
ghost use Rattle.router_rules.specs.Asking.{asked_of, asker_of};
ghost use Rattle.router_rules.specs.Errors.{act_resv_err};
ghost use Rattle.router_rules.specs.Inputs.{Change};
ghost use Rattle.router_rules.specs.Sends.{conf_sends, error_sends, sends};
ghost use Rattle.router_state.specs.State.{IsSaid, State, facts_of};
ghost use Rattle.laws_sends.specs.Before.{IsBefore};
ghost use Rattle.path_sends.specs.Offering.{as_offer};
ghost use Rattle.router_state.specs.Whole.{state_of};
ghost use Rattle.error_sends.specs.ResvErrs.{resv_err_facts, resv_err_heard};
ghost use Rattle.resv_sends.specs.Halves.{facts_told};
ghost use Rattle.router_arrivals.specs.Taken.{IsAnswer};
ghost use Rattle.router_core.specs.Confirming.{confirmed_here};

use crate::confirming::{confirm, confirm_here};
use error_sends::pass_resv_err;
use resv_sends::{PriorOffer, tell_news, tell_tears};
use router_arrivals::{Answer, tell_refusals};
use router_rules::{Heard, Outbox};
use router_state::{Config, Tables};
use rsvp_messages::{ResvErrMsg, ResvMsg};
use sent_state::LaneTable;

/// All that a node tells once a Resv was taken, in order: ResvTears, the refusals, the confirmation, and Resvs. These ask to
/// confirm whom the Resv names, else the node for its marked wants, whose marks are used then. What was offered of a sender,
/// and the session's previous hops, are those from before.
pub(crate) fn tell_resv<O: Outbox>(
    tables: &mut Tables,
    said: &mut LaneTable,
    prior: &PriorOffer,
    iface: u8,
    message: &ResvMsg,
    answer: &Answer,
    out: &mut O,
)
    requires { (n : State) × IsBefore (message.now.session, prior.now.sender) n (state_of tables.old said.old) (option_map as_offer prior.now.offer) prior.now.near }
    ensures sent { (n : State) (c : ℕ) (k : Change)
        → IsBefore (message.now.session, prior.now.sender) n (state_of tables.old said.old) (option_map as_offer prior.now.offer) prior.now.near
        → IsAnswer n.place (asker_of n.place c iface message.now) answer.now k → k.confs ≡ [] → k.fired ≡ empty
        → out.new ≡ fold O.posted out.old (sends n.place n.place (facts_of c n) (facts_of c (state_of tables.old said.old)) k) }
    ensures facts { (n : State) (c : ℕ)
        → IsBefore (message.now.session, prior.now.sender) n (state_of tables.old said.old) (option_map as_offer prior.now.offer) prior.now.near
        → facts_of c (state_of tables.new said.new)
        ≡ facts_told n.place (facts_of c n) (facts_of c (state_of tables.old said.old)) (asked_of (asker_of n.place c iface message.now) answer.now.taken message.now.confirm) }
    ensures said { IsSaid said.new (state_of tables.new said.new) }
    ensures rest { tables.new ≡ record tables.old { wants = tables.new.wants } }
{
    let session = message.session;
    tell_tears(tables, said, session, prior, out);
    tell_refusals(&tables.config, iface, message, &answer.done.errors, out);
    confirm(tables, said, iface, message, &answer.taken, out);
    tell_news(tables, said, session, prior, message.confirm, out);
}

/// All that a node tells once a Resv was taken of which nothing is news, in order: the refusals, and the confirmation. What goes
/// toward each hop is what went there before.
pub(crate) fn tell_answer<O: Outbox>(
    config: &Config,
    iface: u8,
    message: &ResvMsg,
    answer: &Answer,
    out: &mut O,
)
    ensures { (c : ℕ) (k : Change) → IsAnswer config.now (asker_of config.now c iface message.now) answer.now k
        → out.new ≡ fold O.posted out.old (error_sends k.errors ++ conf_sends (confirmed_here config.now k.asked)) }
{
    tell_refusals(config, iface, message, &answer.done.errors, out);
    confirm_here(config, iface, message, &answer.taken, out);
}

/// All that a node tells once a ResvErr set its blockades, in order: ResvTears, the errors that go on, and Resvs. What was heard
/// is the answer of `set_blockades`; what was offered of a sender, and the session's previous hops, are those from before.
pub(crate) fn tell_resv_err<O: Outbox>(
    tables: &mut Tables,
    said: &mut LaneTable,
    prior: &PriorOffer,
    iface: u8,
    message: &ResvErrMsg,
    heard: Heard,
    out: &mut O,
)
    requires { (n : State) × IsBefore (message.now.session, prior.now.sender) n (state_of tables.old said.old) (option_map as_offer prior.now.offer) prior.now.near }
    ensures sent { (n : State) (c : ℕ)
        → IsBefore (message.now.session, prior.now.sender) n (state_of tables.old said.old) (option_map as_offer prior.now.offer) prior.now.near
        → state_of tables.old said.old ≡ record n { walls = tables.old.walls } → heard ≡ resv_err_heard c n iface message.now
        → facts_of c (state_of tables.old said.old) ≡ resv_err_facts c n iface message.now
        → out.new ≡ fold O.posted out.old (sends n.place n.place (facts_of c n) (facts_of c (state_of tables.old said.old)) (act_resv_err n.place c iface message.now (facts_of c n))) }
    ensures facts { (n : State) (c : ℕ)
        → IsBefore (message.now.session, prior.now.sender) n (state_of tables.old said.old) (option_map as_offer prior.now.offer) prior.now.near
        → facts_of c (state_of tables.new said.new) ≡ facts_told n.place (facts_of c n) (facts_of c (state_of tables.old said.old)) None }
    ensures said { IsSaid said.new (state_of tables.new said.new) }
    ensures rest { tables.new ≡ record tables.old { wants = tables.new.wants } }
{
    let session = message.session;
    tell_tears(tables, said, session, prior, out);
    pass_resv_err(tables, heard, iface, message, out);
    tell_news(tables, said, session, prior, None, out);
}
