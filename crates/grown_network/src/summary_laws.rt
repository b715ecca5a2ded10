//! Laws of what is asked of a grown network.
ghost use Rattle.std.specs.Prelude.{ℕ};
ghost use Rattle.network_demand.specs.Demands.{AreLocals};
ghost use Rattle.grown_network.specs.Grown.{asked, grown_net};

/// Its network can be asked for it, whatever the seed.
pub fn a_grown_network_can_be_asked()
    ensures { (seed : ℕ) → AreLocals (grown_net seed) (asked seed) }
{}
