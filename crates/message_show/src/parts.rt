//! The texts of what messages say.
ghost use Rattle.std.specs.Prelude.{◌≡◌, ◌≤◌, ◌<◌, ◌++◌, codes, length, OnOk, OnErr, vec_capacity};
ghost use Rattle.std.specs.Io.{StartsWith};
ghost use Rattle.std.specs.Fmt.{decimal};
ghost use Rattle.std.specs.List.{flat_map};
ghost use Rattle.value_texts.specs.Texts.{addr_text};
ghost use Rattle.message_show.specs.PartTexts.{amount_text, ask_text, blame_text, confirm_text, error_text, hop_text, listed_text, offer_text, period_text, scope_text, scope_word};
ghost use Rattle.message_show.specs.PartTexts.{senders_text, tear_text, where_set, where_there};

use rsvp_base::{Addr, ErrSpec, Flow, Hop, NoMemory, Sender, Senders, StyleKind};
use rsvp_messages::{Ask, Blame, Tear};
use value_texts::{put, put_addr, put_flow, put_names, put_number, put_sender, put_style};

#[tactic(auto, unfolding(crate::specs::PartTexts::hop_text))]
pub fn put_hop(out: &mut Vec<u8>, hop: Hop) -> Result<(), NoMemory>
    ensures text { OnOk result (out.new.items ≡ out.old.items ++ hop_text hop) }
    ensures front { OnErr result (StartsWith out.new.items out.old.items) }
    ensures full { OnErr result (vec_capacity out.old < length (out.old.items ++ hop_text hop)) }
    ensures kept { vec_capacity out.old ≤ vec_capacity out.new }
{
    put(out, b" hop ")?;
    put_addr(out, hop.addr)?;
    put(out, b"/")?;
    put_number(out, u64::from(hop.handle))
}

#[tactic(auto, unfolding(crate::specs::PartTexts::period_text))]
pub fn put_period(out: &mut Vec<u8>, ms: u32) -> Result<(), NoMemory>
    ensures text { OnOk result (out.new.items ≡ out.old.items ++ period_text ms) }
    ensures front { OnErr result (StartsWith out.new.items out.old.items) }
    ensures full { OnErr result (vec_capacity out.old < length (out.old.items ++ period_text ms)) }
    ensures kept { vec_capacity out.old ≤ vec_capacity out.new }
{
    put(out, b" period ")?;
    put_number(out, u64::from(ms))
}

#[tactic(auto, unfolding(crate::specs::PartTexts::confirm_text))]
pub fn put_confirm(out: &mut Vec<u8>, addr: Addr) -> Result<(), NoMemory>
    ensures text { OnOk result (out.new.items ≡ out.old.items ++ confirm_text addr) }
    ensures front { OnErr result (StartsWith out.new.items out.old.items) }
    ensures full { OnErr result (vec_capacity out.old < length (out.old.items ++ confirm_text addr)) }
    ensures kept { vec_capacity out.old ≤ vec_capacity out.new }
{
    put(out, b" confirm ")?;
    put_addr(out, addr)
}

// A word where something is set.
pub fn put_where(out: &mut Vec<u8>, is_set: bool, word: &[u8]) -> Result<(), NoMemory>
    ensures text { OnOk result (out.new.items ≡ out.old.items ++ where_set is_set word.now) }
    ensures front { OnErr result (StartsWith out.new.items out.old.items) }
    ensures full { OnErr result (vec_capacity out.old < length (out.old.items ++ where_set is_set word.now)) }
    ensures kept { vec_capacity out.old ≤ vec_capacity out.new }
{
    if is_set {
        return put(out, word);
    }
    Ok(())
}

// Where an error came up, and which it is.
fn put_code(out: &mut Vec<u8>, err: ErrSpec) -> Result<(), NoMemory>
    ensures text { OnOk result (out.new.items ≡ out.old.items ++ (codes " error " ++ addr_text err.node ++ codes " " ++ decimal err.code ++ codes "/" ++ decimal err.value)) }
    ensures front { OnErr result (StartsWith out.new.items out.old.items) }
    ensures full { OnErr result (vec_capacity out.old < length (out.old.items ++ (codes " error " ++ addr_text err.node ++ codes " " ++ decimal err.code ++ codes "/" ++ decimal err.value))) }
    ensures kept { vec_capacity out.old ≤ vec_capacity out.new }
{
    put(out, b" error ")?;
    put_addr(out, err.node)?;
    put(out, b" ")?;
    put_number(out, u64::from(err.code))?;
    put(out, b"/")?;
    put_number(out, u64::from(err.value))
}

// The flags of an error.
fn put_flags(out: &mut Vec<u8>, err: ErrSpec) -> Result<(), NoMemory>
    ensures text { OnOk result (out.new.items ≡ out.old.items ++ (where_set err.in_place (codes " inplace") ++ where_set err.not_guilty (codes " notguilty"))) }
    ensures front { OnErr result (StartsWith out.new.items out.old.items) }
    ensures full { OnErr result (vec_capacity out.old < length (out.old.items ++ (where_set err.in_place (codes " inplace") ++ where_set err.not_guilty (codes " notguilty")))) }
    ensures kept { vec_capacity out.old ≤ vec_capacity out.new }
{
    put_where(out, err.in_place, b" inplace")?;
    put_where(out, err.not_guilty, b" notguilty")
}

#[tactic(auto, unfolding(crate::specs::PartTexts::error_text))]
pub fn put_error(out: &mut Vec<u8>, err: ErrSpec) -> Result<(), NoMemory>
    ensures text { OnOk result (out.new.items ≡ out.old.items ++ error_text err) }
    ensures front { OnErr result (StartsWith out.new.items out.old.items) }
    ensures full { OnErr result (vec_capacity out.old < length (out.old.items ++ error_text err)) }
    ensures kept { vec_capacity out.old ≤ vec_capacity out.new }
{
    put_code(out, err)?;
    put_flags(out, err)
}

#[tactic(auto, unfolding(crate::specs::PartTexts::senders_text))]
fn put_senders(out: &mut Vec<u8>, senders: &Senders) -> Result<(), NoMemory>
    ensures text { OnOk result (out.new.items ≡ out.old.items ++ senders_text senders.now) }
    ensures front { OnErr result (StartsWith out.new.items out.old.items) }
    ensures full { OnErr result (vec_capacity out.old < length (out.old.items ++ senders_text senders.now)) }
    ensures kept { vec_capacity out.old ≤ vec_capacity out.new }
{
    put(out, b" ")?;
    put_names(out, StyleKind::Shared, senders.as_slice())
}

#[tactic(auto, unfolding(crate::specs::PartTexts::amount_text))]
fn put_amount(out: &mut Vec<u8>, flow: Flow) -> Result<(), NoMemory>
    ensures text { OnOk result (out.new.items ≡ out.old.items ++ amount_text flow) }
    ensures front { OnErr result (StartsWith out.new.items out.old.items) }
    ensures full { OnErr result (vec_capacity out.old < length (out.old.items ++ amount_text flow)) }
    ensures kept { vec_capacity out.old ≤ vec_capacity out.new }
{
    put(out, b" ")?;
    put_flow(out, flow)
}

#[tactic(auto, unfolding(crate::specs::PartTexts::offer_text))]
pub fn put_offer(out: &mut Vec<u8>, offer: (Sender, Flow)) -> Result<(), NoMemory>
    ensures text { OnOk result (out.new.items ≡ out.old.items ++ offer_text offer) }
    ensures front { OnErr result (StartsWith out.new.items out.old.items) }
    ensures full { OnErr result (vec_capacity out.old < length (out.old.items ++ offer_text offer)) }
    ensures kept { vec_capacity out.old ≤ vec_capacity out.new }
{
    put(out, b" ")?;
    put_sender(out, offer.0)?;
    put(out, b" ")?;
    put_flow(out, offer.1)
}

fn put_addresses(out: &mut Vec<u8>, names: &[Sender]) -> Result<(), NoMemory>
    ensures text { OnOk result (out.new.items ≡ out.old.items ++ scope_word names.now) }
    ensures front { OnErr result (StartsWith out.new.items out.old.items) }
    ensures full { OnErr result (vec_capacity out.old < length (out.old.items ++ scope_word names.now)) }
    ensures kept { vec_capacity out.old ≤ vec_capacity out.new }
{
    if names.is_empty() {
        return put(out, b"-");
    }
    put_names(out, StyleKind::Wild, names)
}

#[tactic(auto, unfolding(crate::specs::PartTexts::scope_text))]
fn put_scope(out: &mut Vec<u8>, scope: &Senders) -> Result<(), NoMemory>
    ensures text { OnOk result (out.new.items ≡ out.old.items ++ scope_text scope.now) }
    ensures front { OnErr result (StartsWith out.new.items out.old.items) }
    ensures full { OnErr result (vec_capacity out.old < length (out.old.items ++ scope_text scope.now)) }
    ensures kept { vec_capacity out.old ≤ vec_capacity out.new }
{
    put(out, b" scope ")?;
    put_addresses(out, scope.as_slice())
}

// The scope or the senders that a message of this style lists, where it does.
fn put_listed(out: &mut Vec<u8>, style: StyleKind, names: &Option<Senders>) -> Result<(), NoMemory>
    ensures text { OnOk result (out.new.items ≡ out.old.items ++ listed_text style names.now) }
    ensures front { OnErr result (StartsWith out.new.items out.old.items) }
    ensures full { OnErr result (vec_capacity out.old < length (out.old.items ++ listed_text style names.now)) }
    ensures kept { vec_capacity out.old ≤ vec_capacity out.new }
{
    match (style, names) {
        (_, None) => Ok(()),
        (StyleKind::Wild, Some(scope)) => put_scope(out, scope),
        (StyleKind::Fixed, Some(senders)) => put_senders(out, senders),
        (StyleKind::Shared, Some(senders)) => put_senders(out, senders),
    }
}

fn put_offers(out: &mut Vec<u8>, offers: &[(Sender, Flow)]) -> Result<(), NoMemory>
    ensures text { OnOk result (out.new.items ≡ out.old.items ++ flat_map offer_text offers.now) }
    ensures front { OnErr result (StartsWith out.new.items out.old.items) }
    ensures full { OnErr result (vec_capacity out.old < length (out.old.items ++ flat_map offer_text offers.now)) }
    ensures kept { vec_capacity out.old ≤ vec_capacity out.new }
{
    for offer in offers {
        put_offer(out, *offer)?;
    }
    Ok(())
}

// What is asked for (RFC 2205, 3.1.4): the style and its flow descriptors.
pub fn put_ask(out: &mut Vec<u8>, ask: &Ask) -> Result<(), NoMemory>
    ensures text { OnOk result (out.new.items ≡ out.old.items ++ ask_text ask.now) }
    ensures front { OnErr result (StartsWith out.new.items out.old.items) }
    ensures full { OnErr result (vec_capacity out.old < length (out.old.items ++ ask_text ask.now)) }
    ensures kept { vec_capacity out.old ≤ vec_capacity out.new }
{
    match ask {
        Ask::Wild { scope, flow } => {
            put(out, b" WF")?;
            put_listed(out, StyleKind::Wild, scope)?;
            put_amount(out, *flow)
        }
        Ask::Fixed(list) => {
            put(out, b" FF")?;
            put_offers(out, list.as_slice())
        }
        Ask::Shared(part) => {
            put(out, b" SE")?;
            put_senders(out, &part.senders)?;
            put_amount(out, part.flow)
        }
    }
}

// What is torn down (RFC 2205, 3.1.6).
#[tactic(auto, unfolding(crate::specs::PartTexts::tear_text))]
pub fn put_tear(out: &mut Vec<u8>, tear: &Tear) -> Result<(), NoMemory>
    ensures text { OnOk result (out.new.items ≡ out.old.items ++ tear_text tear.now) }
    ensures front { OnErr result (StartsWith out.new.items out.old.items) }
    ensures full { OnErr result (vec_capacity out.old < length (out.old.items ++ tear_text tear.now)) }
    ensures kept { vec_capacity out.old ≤ vec_capacity out.new }
{
    match tear {
        Tear::Wild { scope } => {
            put(out, b" WF")?;
            put_listed(out, StyleKind::Wild, scope)
        }
        Tear::Fixed(senders) => {
            put(out, b" FF")?;
            put_senders(out, senders)
        }
        Tear::Shared(senders) => {
            put(out, b" SE")?;
            put_senders(out, senders)
        }
    }
}

// What a ResvErr was made for (RFC 2205, 3.1.8).
#[tactic(auto, unfolding(crate::specs::PartTexts::blame_text))]
pub fn put_blame(out: &mut Vec<u8>, blame: &Blame) -> Result<(), NoMemory>
    ensures text { OnOk result (out.new.items ≡ out.old.items ++ blame_text blame.now) }
    ensures front { OnErr result (StartsWith out.new.items out.old.items) }
    ensures full { OnErr result (vec_capacity out.old < length (out.old.items ++ blame_text blame.now)) }
    ensures kept { vec_capacity out.old ≤ vec_capacity out.new }
{
    put(out, b" ")?;
    put_style(out, blame.style)?;
    put_listed(out, blame.style, &blame.senders)?;
    put_where_there(out, blame.flow)
}

fn put_where_there(out: &mut Vec<u8>, flow: Option<Flow>) -> Result<(), NoMemory>
    ensures text { OnOk result (out.new.items ≡ out.old.items ++ where_there amount_text flow) }
    ensures front { OnErr result (StartsWith out.new.items out.old.items) }
    ensures full { OnErr result (vec_capacity out.old < length (out.old.items ++ where_there amount_text flow)) }
    ensures kept { vec_capacity out.old ≤ vec_capacity out.new }
{
    match flow {
        Some(flow) => put_amount(out, flow),
        None => Ok(()),
    }
}
