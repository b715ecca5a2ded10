//! What the paths of a node offer.
ghost use Rattle.std.specs.Prelude.{◌≡◌, ◌+◌, ◌≤◌, ℕ, [], ◌∷◌, MatchResult, Some, length, slice_get};
ghost use Rattle.std.specs.List.{filter_map, flat_map};
ghost use Rattle.std.specs.Option.{option_map};
ghost use Rattle.rsvp_base.specs.Table.{get, keys};
ghost use Rattle.router_core.specs.Adverts.{fact_advert, kept_in, session_adverts};
ghost use Rattle.router_rules.specs.Adverts.{adverts_of};
ghost use Rattle.router_state.specs.State.{facts_at};

use crate::node::Node;
use local_state::Countdowns;
use path_state::{PathFact, PathTable, copy_of};
use rsvp_base::{Sender, Session};
use rsvp_objects::Adspec;

impl Node {
    /// The ADSPEC that the path of a sender keeps: that of the last Path that was taken (RFC 2210, 3.3). `None` exactly where the sender
    /// has no path, or its path keeps none.
    pub fn advert(&self, session: Session, sender: Sender) -> Option<Adspec>
        ensures { (c : ℕ) → result ≡ kept_in (get (facts_at c self.now).paths (session, sender)) }
    {
        match self.tables.paths.find(session, sender) {
            Some(fact) => copy_of(&fact.adspec),
            None => None,
        }
    }

    /// The k-th path by session and sender, from 0, of those that came by an interface and keep an ADSPEC, with that ADSPEC
    /// (RFC 2210, 3.3). `None` exactly where k is not below their number, which is at most 512.
    pub fn advert_at(&self, iface: u8, k: usize) -> Option<(Session, Sender, Adspec)>
        ensures advert { (c : ℕ) → option_map (λ a. ((a.0, a.1), a.2)) result ≡ slice_get (adverts_of (facts_at c self.now) iface) k }
        ensures few { (c : ℕ) → length (adverts_of (facts_at c self.now) iface) ≤ 512 }
    {
        // The proof sees here that the paths are few.
        self.tables.paths.limits();
        // Each session that has paths has a countdown.
        advert_among(&self.tables.due, &self.tables.paths, iface, k)
    }
}

// The k-th of those of the sessions that have a countdown.
fn advert_among(
    due: &Countdowns,
    paths: &PathTable,
    iface: u8,
    k: usize,
) -> Option<(Session, Sender, Adspec)>
    ensures { option_map (λ a. ((a.0, a.1), a.2)) result ≡ slice_get (flat_map (session_adverts iface paths.now.facts) (keys due.now)) k }
{
    let mut before = k;
    for i in 0..due.len() {
        let Some((session, _left)) = due.at(i) else {
            return None;
        };
        match advert_in(paths, session, iface, before) {
            Ok(found) => return Some(found),
            Err(left) => before = left,
        }
    }
    None
}

// The k-th of those of a session; else how many are still to be passed.
fn advert_in(
    paths: &PathTable,
    session: Session,
    iface: u8,
    k: usize,
) -> Result<(Session, Sender, Adspec), usize>
    ensures { MatchResult result (λ a. slice_get (session_adverts iface paths.now.facts session) k ≡ Some ((a.0, a.1), a.2))
        (λ left. k ≡ length (session_adverts iface paths.now.facts session) + left) }
{
    let mut before = k;
    for fact in paths.of_session(session) {
        match advert_here(fact, iface, before) {
            Ok(adspec) => return Ok((fact.session, fact.sender, adspec)),
            Err(left) => before = left,
        }
    }
    Err(before)
}

// What a path offers, where none is to be passed before it; else how many are still to be passed.
fn advert_here(fact: &PathFact, iface: u8, before: usize) -> Result<Adspec, usize>
    ensures { MatchResult result (λ a. slice_get (filter_map (fact_advert iface) (fact.now ∷ [])) before ≡ Some ((fact.now.session, fact.now.sender), a))
        (λ left. before ≡ length (filter_map (fact_advert iface) (fact.now ∷ [])) + left) }
{
    match advert_by(fact, iface) {
        Some(adspec) => first_or(adspec, before),
        None => Err(before),
    }
}

// An ADSPEC, where none is to be passed before it; else how many are to be passed after it.
fn first_or(adspec: &Adspec, before: usize) -> Result<Adspec, usize>
    ensures { MatchResult result (λ a. (a ≡ adspec.now) × (before ≡ 0)) (λ left. before ≡ 1 + left) }
{
    if before == 0 {
        return Ok(adspec.copy());
    }
    Err(before - 1)
}

// The ADSPEC that a path keeps, where it came by an interface.
fn advert_by(fact: &PathFact, iface: u8) -> Option<&Adspec>
    ensures { option_map (λ a. ((fact.now.session, fact.now.sender), a.now)) result ≡ fact_advert iface fact.now }
{
    if fact.iface != iface {
        return None;
    }
    match &fact.adspec {
        Some(adspec) => Some(adspec),
        None => None,
    }
}
