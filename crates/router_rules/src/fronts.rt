//! The shut fronts of the rule.
ghost use Rattle.router_rules.specs.Fronts.{FrontsAreTheRule};

/// The shut fronts, which contracts cite, are the rule.
#[tactic(auto, using(crate::proofs::Fronting::fronts_are_the_rule))]
pub fn fronts_are_the_rule()
    ensures { FrontsAreTheRule }
{}
