//! The laws.
ghost use Rattle.std.specs.Prelude.{ℕ};
ghost use Rattle.tree_model.specs.Goals.{DemandsFit};
ghost use Rattle.tree_model.specs.Networks.{Net};
ghost use Rattle.tree_model.specs.Wants.{Locals};
ghost use Rattle.grown_network.specs.GrownDemands.{GrownDemandsFit};
ghost use Rattle.grown_network.specs.Modest.{IsModest};

/// Where little is asked of a network the demands fit.
#[tactic(auto, using(crate::proofs::Modest::fits))]
pub fn modest_demands_fit()
    ensures { (net : Net) (l : Locals) → IsModest net l → DemandsFit net l }
{}

/// What is asked of a grown network fits, whatever the seed.
pub fn grown_demands_fit()
    ensures { GrownDemandsFit }
{}
