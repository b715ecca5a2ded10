//! Senders that match a Resv.
ghost use Rattle.std.specs.Prelude.{◌≡◌, ◌≤◌, length, map, cond};
ghost use Rattle.std.specs.List.{filter};
ghost use Rattle.rsvp_base.specs.Sets.{set_of, with_key};
ghost use Rattle.rsvp_base.specs.Styles.{name_of};
ghost use Rattle.rsvp_base.specs.Table.{kept, size};
ghost use Rattle.router_rules.specs.Known.{named_as};
ghost use Rattle.router_rules.specs.NodeConfig.{goes_out};

use path_sends::name_of;
use resv_admission::Matching;
use router_aging::KnownSenders;
use router_state::Config;
use rsvp_base::{Sender, Senders, Session, StyleKind};

// A list of senders has at most so many.
const SENDERS: usize = 16;

/// The known senders of a session whose trees go out of an interface, by the names of a style.
pub(crate) fn matching(
    config: &Config,
    known: &KnownSenders,
    session: Session,
    iface: u8,
    style: StyleKind,
) -> Matching
    ensures { result ≡ named_as style (kept (goes_out config.now session iface) known.now) }
{
    let list = known.as_slice();
    let half = list.len().min(SENDERS);
    Matching {
        first: names_out(config, &list[..half], session, iface, style),
        others: names_out(config, &list[half..], session, iface, style),
    }
}

// Those of some senders whose trees go out of the interface, by the names of the style.
fn names_out(
    config: &Config,
    list: &[Sender],
    session: Session,
    iface: u8,
    style: StyleKind,
) -> Senders
    requires { length list.now ≤ 16 }
    ensures { result ≡ set_of (map (name_of style) (filter (goes_out config.now session iface) list.now)) }
{
    let mut names = Senders::new();
    for i in 0..list.len() {
        add_if(
            &mut names,
            name_of(style, list[i]),
            config.goes_out(session, iface, list[i]),
        );
    }
    names
}

// With the name, if it is one of them.
fn add_if(names: &mut Senders, name: Sender, out: bool)
    requires { size (with_key names.old name) ≤ 16 }
    ensures { names.new ≡ cond out (with_key names.old name) names.old }
{
    if out {
        let Ok(()) = names.insert(name) else {
            unreachable!();
        };
    }
}
