//! The laws.
ghost use Rattle.std.specs.Prelude.{◌≡◌, ℕ, length};
ghost use Rattle.rsvp_base.specs.declared.addr.Addr.{Addr};
ghost use Rattle.rsvp_base.specs.Members.{In};
ghost use Rattle.tree_model.specs.declared.hops.LinkHop.{LinkHop};
ghost use Rattle.tree_model.specs.Networks.{peers};
ghost use Rattle.tree_model.specs.Ranks.{Follows};
ghost use Rattle.tree_model.specs.Trees.{tree};
ghost use Rattle.tree_model.specs.Valid.{IsValid};
ghost use Rattle.grown_network.specs.Grown.{grown_net};
ghost use Rattle.grown_network.specs.SeedOne.{SeedOneIsAsWorked};

/// The network of each seed is valid: its trees are grown hop by hop, and no chain of hops is closed.
pub fn a_grown_network_is_valid()
    ensures { (seed : ℕ) → IsValid (grown_net seed) }
{}

/// Its trees have 756 hops together.
#[tactic(auto, using(crate::proofs::Senders::all_hops))]
pub fn a_grown_network_has_756_hops()
    ensures { (seed : ℕ) → length (grown_net seed).hops ≡ 756 }
{}

/// No link of it has more than two ends.
pub fn links_of_a_grown_network_have_two_ends()
    ensures { (seed a b c : ℕ) → In b (peers (grown_net seed).links a) → In c (peers (grown_net seed).links a) → b ≡ c }
{}

/// Where a hop follows another in a tree of a group, each tree of the group that has the one before has both.
pub fn hops_of_a_grown_network_are_nested()
    ensures { (seed : ℕ) (g : Addr) (h h' : LinkHop) → Follows (grown_net seed) g h h' → (source : Addr) → In h (tree (grown_net seed).hops g source) → In h' (tree (grown_net seed).hops g source) }
{}

/// The network of seed 1 begins as it comes out by hand.
pub fn seed_one_is_as_worked()
    ensures { SeedOneIsAsWorked }
{}
