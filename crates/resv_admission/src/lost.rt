//! Names that are refused for want of a sender.
ghost use Rattle.std.specs.Prelude.{◌≡◌, cond};
ghost use Rattle.rsvp_base.specs.Sets.{is_none};
ghost use Rattle.rsvp_base.specs.declared.style.StyleKind.TheVariants.{Wild};
ghost use Rattle.router_rules.specs.Asking.{Nobody, These, lost, unmatched};
ghost use Rattle.resv_admission.specs.Units.{blamed};

use crate::matching::Matching;
use rsvp_base::{Senders, StyleKind};

// Whom an error blames.
pub(crate) enum Lost {
    Nobody,
    Everyone,
    These(Senders),
}

// The names of a unit that are refused for want of a sender; without a list, everyone, where nobody matches.
pub(crate) fn lost_of(style: StyleKind, names: &Option<Senders>, all: &Matching) -> Lost
    ensures { blamed result ≡ lost style names.now all.now }
{
    match style {
        StyleKind::Wild => lost_of_wild(names, all),
        StyleKind::Fixed | StyleKind::Shared => lost_of_list(names, all),
    }
}

// Of a wildcard filter nobody, where someone is left, and else all that it lists.
fn lost_of_wild(names: &Option<Senders>, all: &Matching) -> Lost
    ensures { blamed result ≡ lost Wild names.now all.now }
{
    match names {
        Some(list) => {
            if all.among(list).is_empty() {
                Lost::These(list.copy())
            } else {
                Lost::Nobody
            }
        }
        None => {
            if all.is_empty() {
                Lost::Everyone
            } else {
                Lost::Nobody
            }
        }
    }
}

// Of a list those that do not match.
fn lost_of_list(names: &Option<Senders>, all: &Matching) -> Lost
    ensures { blamed result ≡ unmatched names.now all.now }
{
    match names {
        Some(list) => these(all.beside(list)),
        None => Lost::Nobody,
    }
}

// These, if there are some.
fn these(names: Senders) -> Lost
    ensures { blamed result ≡ cond (is_none names) Nobody (These names) }
{
    if names.is_empty() {
        Lost::Nobody
    } else {
        Lost::These(names)
    }
}
