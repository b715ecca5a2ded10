//! The styles, with their laws.
ghost use Rattle.std.specs.Prelude.{◌≡◌, ◌≤◌, ◌↔◌, ℕ, IsTrue, Some, None, IsSomeAnd};
ghost use Rattle.rsvp_base.specs.declared.part.Part.{Part};
ghost use Rattle.rsvp_base.specs.declared.session.Sender.{Sender};
ghost use Rattle.rsvp_base.specs.declared.style.StyleKind.{StyleKind};
ghost use Rattle.rsvp_base.specs.declared.style.Unit.{Unit};
ghost use Rattle.rsvp_base.specs.Orders.{Names};
ghost use Rattle.rsvp_base.specs.Sets.{union, cut, IsWithin};
ghost use Rattle.rsvp_base.specs.Table.{size};
ghost use Rattle.flow_merge.specs.FlowOrder.{IsAtMost, flow_join, flow_meet};
ghost use Rattle.rsvp_base.specs.Styles.{name_of, unit_of};
ghost use Rattle.style_rules.specs.Parts.{part_join, part_meet, IsPartAtMost, part_cut, part_charge};

use rsvp_base::{Part, Sender, StyleKind, Unit};

/// A reservation style: how it lists senders, keeps parts apart and merges them (RFC 2205, 1.3 and 2.2). The laws hold of
/// all parts, whatever the number of their senders; only the calls need room for them.
pub trait Style {
    /// Which style it is.
    ghost kind_is: { StyleKind };

    /// The name under which it lists a sender.
    ghost name: { Sender → Sender };

    /// The unit of a sender.
    ghost unit: { Sender → Unit };

    /// The least part that can stand for both.
    ghost joined: { Part → Part → Part };

    /// The senders of both, with the greatest flow for which both flows can stand.
    ghost met: { Part → Part → Part };

    /// The second can stand for the first.
    ghost at_most: { Part → Part → Type 0 };

    /// Which style it is.
    fn kind() -> StyleKind
        ensures { result ≡ kind_is };

    /// The name under which the style lists a sender: for a wildcard filter the address with port 0, else the sender.
    fn name_of(sender: Sender) -> Sender
        ensures { result ≡ name sender };

    /// The unit of a sender: its own for a fixed filter, else the one of all.
    fn unit_of(sender: Sender) -> Unit
        ensures { result ≡ unit sender };

    /// The senders of both parts, with the join of their flows.
    fn join(a: &Part, b: &Part) -> Part
        requires { size (union a.now.senders b.now.senders) ≤ 16 }
        ensures { result ≡ joined a.now b.now };

    /// The senders of both parts, with the meet of their flows.
    fn meet(a: &Part, b: &Part) -> Part
        requires { size (union a.now.senders b.now.senders) ≤ 16 }
        ensures { result ≡ met a.now b.now };

    /// Whether `a` is at most `b`: the senders of `a` are among those of `b`, and the flow of `a` is at most that of `b`.
    fn le(a: &Part, b: &Part) -> bool
        ensures { IsTrue result ↔ at_most a.now b.now };

    // What the members mean.
    ghost name_by_kind: { (s : Sender) → name s ≡ name_of kind_is s };

    ghost unit_by_kind: { (s : Sender) → unit s ≡ unit_of kind_is s };

    ghost at_most_by_names_and_flow: { (a b : Part) → at_most a b ↔ (IsWithin a.senders b.senders × IsAtMost a.flow b.flow) };

    ghost senders_of_join: { (a b : Part) → (joined a b).senders ≡ union a.senders b.senders };

    ghost flow_of_join: { (a b : Part) → (joined a b).flow ≡ flow_join a.flow b.flow };

    ghost senders_of_meet: { (a b : Part) → (met a b).senders ≡ union a.senders b.senders };

    ghost flow_of_meet: { (a b : Part) → (met a b).flow ≡ flow_meet a.flow b.flow };

    ghost senders_of_cut: { (a x : Part) (names : Names) → part_cut a names ≡ Some x → x.senders ≡ cut a.senders names };

    ghost flow_of_cut: { (a x : Part) (names : Names) → part_cut a names ≡ Some x → x.flow ≡ a.flow };

    // The laws of merging.
    ghost join_comm: { (a b : Part) → joined a b ≡ joined b a };

    ghost join_assoc: { (a b c : Part) → joined (joined a b) c ≡ joined a (joined b c) };

    ghost join_idem: { (a : Part) → joined a a ≡ a };

    ghost at_most_is_join: { (a b : Part) → at_most a b ↔ (joined a b ≡ b) };

    ghost meet_below_join: { (a b : Part) → at_most (met a b) (joined a b) };

    ghost cut_keeps_order: { (a b x y : Part) (names : Names) → at_most a b → part_cut a names ≡ Some x → part_cut b names ≡ Some y → at_most x y };

    ghost cut_of_join: { (a b x y : Part) (names : Names) → part_cut a names ≡ Some x → part_cut b names ≡ Some y → part_cut (joined a b) names ≡ Some (joined x y) };

    ghost cut_of_one: { (a b x : Part) (names : Names) → part_cut a names ≡ Some x → part_cut b names ≡ None → IsSomeAnd (part_cut (joined a b) names) (at_most x) };

    ghost charge_follows: { (a b : Part) → at_most a b → part_charge a ≤ part_charge b };

    ghost most_follows: { (a b : Part) → at_most a b → a.flow.most ≤ b.flow.most };
}

/// Wildcard-filter: all senders of an address under one unit.
pub struct Wild;

/// Fixed-filter: each sender under a unit of its own.
pub struct Fixed;

/// Shared-explicit: the senders that it lists under one unit.
pub struct Shared;

fn join_parts(a: &Part, b: &Part) -> Part
    requires { size (union a.now.senders b.now.senders) ≤ 16 }
    ensures { result ≡ part_join a.now b.now }
{
    match a.senders.union(&b.senders) {
        Ok(senders) => Part {
            senders,
            flow: flow_merge::join(&a.flow, &b.flow),
        },
        Err(_) => unreachable!(),
    }
}

fn meet_parts(a: &Part, b: &Part) -> Part
    requires { size (union a.now.senders b.now.senders) ≤ 16 }
    ensures { result ≡ part_meet a.now b.now }
{
    match a.senders.union(&b.senders) {
        Ok(senders) => Part {
            senders,
            flow: flow_merge::meet(&a.flow, &b.flow),
        },
        Err(_) => unreachable!(),
    }
}

pub(crate) fn le_parts(a: &Part, b: &Part) -> bool
    ensures { IsTrue result ↔ IsPartAtMost a.now b.now }
{
    a.senders.is_within(&b.senders) && flow_merge::le(&a.flow, &b.flow)
}

impl Style for Wild {
    ghost use Rattle.std.proofs.Common.{refl};
    ghost use Rattle.style_rules.specs.Parts.{part_join, part_meet, IsPartAtMost};
    ghost use Rattle.style_rules.specs.PartLaws.{part_at_most_apart, part_join_comm, part_join_assoc, part_join_idem, part_at_most_is_join, part_meet_below_join, charge_below, most_below};
    ghost use Rattle.style_rules.specs.CutLaws.{cut_senders, cut_flow, cut_keeps_order, cut_of_join, cut_of_one};

    ghost kind_is = { StyleKind.Wild };

    ghost name = { λ s. record { addr = s.addr; port = 0 } };

    ghost unit = { λ s. Unit.One };

    ghost joined = { part_join };

    ghost met = { part_meet };

    ghost at_most = { IsPartAtMost };

    fn kind() -> StyleKind {
        StyleKind::Wild
    }

    fn name_of(sender: Sender) -> Sender {
        Sender {
            addr: sender.addr,
            port: 0,
        }
    }

    fn unit_of(_sender: Sender) -> Unit {
        Unit::One
    }

    fn join(a: &Part, b: &Part) -> Part {
        join_parts(a, b)
    }

    fn meet(a: &Part, b: &Part) -> Part {
        meet_parts(a, b)
    }

    fn le(a: &Part, b: &Part) -> bool {
        le_parts(a, b)
    }

    ghost name_by_kind = { λ s. refl };

    ghost unit_by_kind = { λ s. refl };

    ghost at_most_by_names_and_flow = { part_at_most_apart };

    ghost senders_of_join = { λ a b. refl };

    ghost flow_of_join = { λ a b. refl };

    ghost senders_of_meet = { λ a b. refl };

    ghost flow_of_meet = { λ a b. refl };

    ghost senders_of_cut = { cut_senders };

    ghost flow_of_cut = { cut_flow };

    ghost join_comm = { part_join_comm };

    ghost join_assoc = { part_join_assoc };

    ghost join_idem = { part_join_idem };

    ghost at_most_is_join = { part_at_most_is_join };

    ghost meet_below_join = { part_meet_below_join };

    ghost cut_keeps_order = { cut_keeps_order };

    ghost cut_of_join = { cut_of_join };

    ghost cut_of_one = { λ a b x names e f. cut_of_one a b x names e };

    ghost charge_follows = { charge_below };

    ghost most_follows = { most_below };
}

impl Style for Fixed {
    ghost use Rattle.std.proofs.Common.{refl};
    ghost use Rattle.style_rules.specs.Parts.{part_join, part_meet, IsPartAtMost};
    ghost use Rattle.style_rules.specs.PartLaws.{part_at_most_apart, part_join_comm, part_join_assoc, part_join_idem, part_at_most_is_join, part_meet_below_join, charge_below, most_below};
    ghost use Rattle.style_rules.specs.CutLaws.{cut_senders, cut_flow, cut_keeps_order, cut_of_join, cut_of_one};

    ghost kind_is = { StyleKind.Fixed };

    ghost name = { λ s. s };

    ghost unit = { λ s. Unit.Of s };

    ghost joined = { part_join };

    ghost met = { part_meet };

    ghost at_most = { IsPartAtMost };

    fn kind() -> StyleKind {
        StyleKind::Fixed
    }

    fn name_of(sender: Sender) -> Sender {
        sender
    }

    fn unit_of(sender: Sender) -> Unit {
        Unit::Of(sender)
    }

    fn join(a: &Part, b: &Part) -> Part {
        join_parts(a, b)
    }

    fn meet(a: &Part, b: &Part) -> Part {
        meet_parts(a, b)
    }

    fn le(a: &Part, b: &Part) -> bool {
        le_parts(a, b)
    }

    ghost name_by_kind = { λ s. refl };

    ghost unit_by_kind = { λ s. refl };

    ghost at_most_by_names_and_flow = { part_at_most_apart };

    ghost senders_of_join = { λ a b. refl };

    ghost flow_of_join = { λ a b. refl };

    ghost senders_of_meet = { λ a b. refl };

    ghost flow_of_meet = { λ a b. refl };

    ghost senders_of_cut = { cut_senders };

    ghost flow_of_cut = { cut_flow };

    ghost join_comm = { part_join_comm };

    ghost join_assoc = { part_join_assoc };

    ghost join_idem = { part_join_idem };

    ghost at_most_is_join = { part_at_most_is_join };

    ghost meet_below_join = { part_meet_below_join };

    ghost cut_keeps_order = { cut_keeps_order };

    ghost cut_of_join = { cut_of_join };

    ghost cut_of_one = { λ a b x names e f. cut_of_one a b x names e };

    ghost charge_follows = { charge_below };

    ghost most_follows = { most_below };
}

impl Style for Shared {
    ghost use Rattle.std.proofs.Common.{refl};
    ghost use Rattle.style_rules.specs.Parts.{part_join, part_meet, IsPartAtMost};
    ghost use Rattle.style_rules.specs.PartLaws.{part_at_most_apart, part_join_comm, part_join_assoc, part_join_idem, part_at_most_is_join, part_meet_below_join, charge_below, most_below};
    ghost use Rattle.style_rules.specs.CutLaws.{cut_senders, cut_flow, cut_keeps_order, cut_of_join, cut_of_one};

    ghost kind_is = { StyleKind.Shared };

    ghost name = { λ s. s };

    ghost unit = { λ s. Unit.One };

    ghost joined = { part_join };

    ghost met = { part_meet };

    ghost at_most = { IsPartAtMost };

    fn kind() -> StyleKind {
        StyleKind::Shared
    }

    fn name_of(sender: Sender) -> Sender {
        sender
    }

    fn unit_of(_sender: Sender) -> Unit {
        Unit::One
    }

    fn join(a: &Part, b: &Part) -> Part {
        join_parts(a, b)
    }

    fn meet(a: &Part, b: &Part) -> Part {
        meet_parts(a, b)
    }

    fn le(a: &Part, b: &Part) -> bool {
        le_parts(a, b)
    }

    ghost name_by_kind = { λ s. refl };

    ghost unit_by_kind = { λ s. refl };

    ghost at_most_by_names_and_flow = { part_at_most_apart };

    ghost senders_of_join = { λ a b. refl };

    ghost flow_of_join = { λ a b. refl };

    ghost senders_of_meet = { λ a b. refl };

    ghost flow_of_meet = { λ a b. refl };

    ghost senders_of_cut = { cut_senders };

    ghost flow_of_cut = { cut_flow };

    ghost join_comm = { part_join_comm };

    ghost join_assoc = { part_join_assoc };

    ghost join_idem = { part_join_idem };

    ghost at_most_is_join = { part_at_most_is_join };

    ghost meet_below_join = { part_meet_below_join };

    ghost cut_keeps_order = { cut_keeps_order };

    ghost cut_of_join = { cut_of_join };

    ghost cut_of_one = { λ a b x names e f. cut_of_one a b x names e };

    ghost charge_follows = { charge_below };

    ghost most_follows = { most_below };
}
