//! Offers.
ghost use Rattle.std.specs.Prelude.{◌≡◌, ◌&&◌, ℕ, Some, true, false, slice_get};
ghost use Rattle.std.specs.Option.{option_map};
ghost use Rattle.adspec_path.specs.Same.{same_told};
ghost use Rattle.router_rules.specs.NodeConfig.{NodeConfig};
ghost use Rattle.router_rules.specs.Offers.{advert_by, advert_of, own_advert, own_offer};
ghost use Rattle.router_rules.specs.Sends.{is_new_offer, same_flow};
ghost use Rattle.router_rules.specs.declared.advert.Advert.TheVariants.{Passes};
ghost use Rattle.path_sends.specs.Offering.{as_offer, is_offered_again, passed_offer, same_source};

use adspec_path::{pass_on, same_adspec, same_told, start};
use router_rules::Advert;
use rsvp_base::{Flow, Iface};
use rsvp_objects::Adspec;

/// What a node offers of a sender: what it sends, in the sender's own words where it is a local one, else in those of its
/// path; and where the ADSPEC of its Paths comes from.
#[derive(Drop)]
pub struct Offered {
    pub tspec: Flow,
    pub local: bool,
    pub advert: Advert,
}

impl Offered {
    /// What is offered of a local sender, by what it announces and whether it is advertised.
    pub fn own(tspec: Flow, advertised: bool) -> Offered
        ensures { as_offer result ≡ own_offer advertised tspec }
    {
        Offered {
            tspec,
            local: true,
            advert: own_advert(advertised),
        }
    }

    /// What is offered of a sender by its path: the flow, and the ADSPEC that the path keeps.
    pub fn passed(tspec: Flow, kept: &Option<Adspec>) -> Offered
        ensures { as_offer result ≡ passed_offer tspec kept.now }
    {
        Offered {
            tspec,
            local: false,
            advert: advert_of(kept),
        }
    }

    /// Whether this is new at an interface: there was no offer before, or one of which it sent another flow or another ADSPEC.
    pub fn is_new(&self, before: &Option<Offered>, on: Iface) -> bool
        ensures { (p : NodeConfig) (i : ℕ) → slice_get p.ifaces i ≡ Some on → result ≡ is_new_offer p i (as_offer self.now) (option_map as_offer before.now) }
    {
        match before {
            Some(old) => !self.is_same(old, on),
            None => true,
        }
    }

    /// Whether this is what was offered before: the same flow, told from the same ADSPEC or none. So it is new at no interface.
    pub fn is_again(&self, before: &Option<Offered>) -> bool
        ensures again { result ≡ is_offered_again (as_offer self.now) (option_map as_offer before.now) }
        ensures old { result ≡ true → (p : NodeConfig) (i : ℕ) → is_new_offer p i (as_offer self.now) (option_map as_offer before.now) ≡ false }
    {
        let Some(old) = before else {
            return false;
        };
        if !is_same_flow(&self.tspec, &old.tspec) {
            return false;
        }
        is_same_advert(&self.advert, &old.advert)
    }

    // Whether an interface sends the same of this and of another offer.
    fn is_same(&self, old: &Offered, on: Iface) -> bool
        ensures { result
            ≡ (same_flow self.now.tspec old.now.tspec && same_told (advert_by (Some on) self.now.advert) (advert_by (Some on) old.now.advert)) }
    {
        is_same_flow(&self.tspec, &old.tspec)
            && same_told(&advert_by(&self.advert, on), &advert_by(&old.advert, on))
    }
}

/// Whether two flows are the same.
pub fn is_same_flow(a: &Flow, b: &Flow) -> bool
    ensures { result ≡ same_flow a.now b.now }
{
    flow_merge::le(a, b) && flow_merge::le(b, a)
}

// Whether what is told comes from the same.
fn is_same_advert(a: &Advert, b: &Advert) -> bool
    ensures { result ≡ same_source a.now b.now }
{
    match a {
        Advert::Silent => matches!(b, Advert::Silent),
        Advert::Begins => matches!(b, Advert::Begins),
        Advert::Passes(kept) => is_passed(kept, b),
    }
}

// Whether it is this ADSPEC that goes on.
fn is_passed(kept: &Adspec, advert: &Advert) -> bool
    ensures { result ≡ same_source (Passes kept.now) advert.now }
{
    match advert {
        Advert::Silent => false,
        Advert::Begins => false,
        Advert::Passes(other) => same_adspec(kept, other),
    }
}

// What is told of a local sender: it begins here where the sender is advertised.
fn own_advert(advertised: bool) -> Advert
    ensures { result ≡ own_advert advertised }
{
    if advertised {
        return Advert::Begins;
    }
    Advert::Silent
}

// What is told of a path that keeps this ADSPEC.
fn advert_of(kept: &Option<Adspec>) -> Advert
    ensures { result ≡ advert_of kept.now }
{
    match kept {
        Some(kept) => Advert::Passes(kept.copy()),
        None => Advert::Silent,
    }
}

// The ADSPEC of a Path that leaves by an interface.
pub(crate) fn advert_by(advert: &Advert, on: Iface) -> Option<Adspec>
    ensures { result ≡ advert_by (Some on) advert.now }
{
    match advert {
        Advert::Silent => None,
        Advert::Begins => Some(start(on)),
        Advert::Passes(kept) => Some(pass_on(kept, on)),
    }
}
