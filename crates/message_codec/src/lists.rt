//! Writing the lists of the three styles.
ghost use Rattle.std.specs.Prelude.{◌≡◌, ◌<◌, ◌+◌, ◌++◌, ◌∷◌, [], length, OnOk, IsErr};
ghost use Rattle.rsvp_objects.specs.declared.object.Object.TheVariants as AnObject;
ghost use Rattle.message_codec.specs.Encoding.{spellings};
ghost use Rattle.message_codec.specs.Objects.{where_there, pair_objects, filter_objects, ask_objects, tear_objects, named_objects, blame_objects};

use rsvp_base::{Flow, Full, Sender, Senders, StyleKind};
use rsvp_messages::{Ask, Blame, Tear};
use rsvp_objects::{Packet, put};

/// What is asked for.
pub fn put_ask(ask: &Ask, packet: &mut Packet) -> Result<(), Full>
    ensures ok { OnOk result (packet.new ≡ packet.old ++ spellings (ask_objects ask.now)) }
    ensures full { IsErr result → 4096 < length packet.old + length (spellings (ask_objects ask.now)) }
{
    match ask {
        Ask::Wild { scope, flow } => {
            put_scope(scope, packet)?;
            put::style(StyleKind::Wild, packet)?;
            put::flow(flow, packet)
        }
        Ask::Fixed(list) => {
            put::style(StyleKind::Fixed, packet)?;
            put_pairs(list.as_slice(), packet)
        }
        Ask::Shared(part) => {
            put::style(StyleKind::Shared, packet)?;
            put::flow(&part.flow, packet)?;
            put_filters(part.senders.as_slice(), packet)
        }
    }
}

/// What is torn down.
pub fn put_tear(tear: &Tear, packet: &mut Packet) -> Result<(), Full>
    ensures ok { OnOk result (packet.new ≡ packet.old ++ spellings (tear_objects tear.now)) }
    ensures full { IsErr result → 4096 < length packet.old + length (spellings (tear_objects tear.now)) }
{
    match tear {
        Tear::Wild { scope } => {
            put_scope(scope, packet)?;
            put::style(StyleKind::Wild, packet)
        }
        Tear::Fixed(senders) => {
            put::style(StyleKind::Fixed, packet)?;
            put_filters(senders.as_slice(), packet)
        }
        Tear::Shared(senders) => {
            put::style(StyleKind::Shared, packet)?;
            put_filters(senders.as_slice(), packet)
        }
    }
}

/// What is blamed.
pub fn put_blame(blame: &Blame, packet: &mut Packet) -> Result<(), Full>
    ensures ok { OnOk result (packet.new ≡ packet.old ++ spellings (blame_objects blame.now)) }
    ensures full { IsErr result → 4096 < length packet.old + length (spellings (blame_objects blame.now)) }
{
    match blame.style {
        StyleKind::Wild => {
            put_scope(&blame.senders, packet)?;
            put::style(StyleKind::Wild, packet)?;
            put_flow(&blame.flow, packet)
        }
        StyleKind::Fixed => {
            put::style(StyleKind::Fixed, packet)?;
            put_flow(&blame.flow, packet)?;
            put_named(&blame.senders, packet)
        }
        StyleKind::Shared => {
            put::style(StyleKind::Shared, packet)?;
            put_flow(&blame.flow, packet)?;
            put_named(&blame.senders, packet)
        }
    }
}

fn put_scope(scope: &Option<Senders>, packet: &mut Packet) -> Result<(), Full>
    ensures ok { OnOk result (packet.new ≡ packet.old ++ spellings (where_there AnObject.Scope scope.now)) }
    ensures full { IsErr result → 4096 < length packet.old + length (spellings (where_there AnObject.Scope scope.now)) }
{
    match scope {
        None => Ok(()),
        Some(senders) => put::scope(senders, packet),
    }
}

fn put_flow(flow: &Option<Flow>, packet: &mut Packet) -> Result<(), Full>
    ensures ok { OnOk result (packet.new ≡ packet.old ++ spellings (where_there AnObject.FlowOf flow.now)) }
    ensures full { IsErr result → 4096 < length packet.old + length (spellings (where_there AnObject.FlowOf flow.now)) }
{
    match flow {
        None => Ok(()),
        Some(flow) => put::flow(flow, packet),
    }
}

fn put_named(senders: &Option<Senders>, packet: &mut Packet) -> Result<(), Full>
    ensures ok { OnOk result (packet.new ≡ packet.old ++ spellings (named_objects senders.now)) }
    ensures full { IsErr result → 4096 < length packet.old + length (spellings (named_objects senders.now)) }
{
    match senders {
        None => Ok(()),
        Some(senders) => put_filters(senders.as_slice(), packet),
    }
}

// The FILTER_SPECs of senders.
fn put_filters(senders: &[Sender], packet: &mut Packet) -> Result<(), Full>
    ensures ok { OnOk result (packet.new ≡ packet.old ++ spellings (filter_objects senders.now)) }
    ensures full { IsErr result → 4096 < length packet.old + length (spellings (filter_objects senders.now)) }
{
    match senders {
        [] => Ok(()),
        [sender, rest @ ..] => {
            put::filter(*sender, packet)?;
            put_filters(rest, packet)
        }
    }
}

// Each sender's FILTER_SPEC behind its FLOWSPEC.
fn put_pairs(pairs: &[(Sender, Flow)], packet: &mut Packet) -> Result<(), Full>
    ensures ok { OnOk result (packet.new ≡ packet.old ++ spellings (pair_objects pairs.now)) }
    ensures full { IsErr result → 4096 < length packet.old + length (spellings (pair_objects pairs.now)) }
{
    match pairs {
        [] => Ok(()),
        [(sender, flow), rest @ ..] => {
            put::flow(flow, packet)?;
            put::filter(*sender, packet)?;
            put_pairs(rest, packet)
        }
    }
}
