//! Laws of path state (RFC 2205, 3.1.3 and 3.1.5; RFC 2209, 2: Path, PathTear).
ghost use Rattle.laws_steps.specs.PathLaws.{WhereAPathFactComesFrom, APathOnTheTreeIsLearnt, HowAPathFactGoes};

/// Path state after a step was there before, or a Path that came by the sender's tree brought it.
#[tactic(auto, using(crate::proofs::Learning::where_a_path_fact_comes_from))]
pub fn where_a_path_fact_comes_from()
    ensures { WhereAPathFactComesFrom }
{}
/// A Path that came by its sender's tree is learnt where the table has room with it, and else changes nothing.
#[tactic(auto, using(crate::proofs::Learning::a_path_on_the_tree_is_learnt))]
pub fn a_path_on_the_tree_is_learnt()
    ensures { APathOnTheTreeIsLearnt }
{}

/// Path state stays as it is, unless a Path replaces it, its own hop tears it down, it dies, or the node is cleared.
#[tactic(auto, using(crate::proofs::Learning::how_a_path_fact_goes))]
pub fn how_a_path_fact_goes()
    ensures { HowAPathFactGoes }
{}
