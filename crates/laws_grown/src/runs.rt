//! The laws.
ghost use Rattle.laws_grown.specs.Runs.{AGrownRunIsItsDemand, GrownRunsAreFit, GrownRunsEndSettled};

/// The run of each seed is fit: what is asked in it is sound, its network is valid, and few send at each moment.
pub fn grown_runs_are_fit()
    ensures { GrownRunsAreFit }
{}

/// It ends settled: its last step is the report, 16 H + 16 calm rounds lie before it, H the longest chain of hops, and the nodes
/// then have exactly the senders and wants that are asked of them, in the network that was grown.
pub fn grown_runs_end_settled()
    ensures { GrownRunsEndSettled }
{}

/// So the run of a seed writes the demand of its network, whole and nothing besides.
pub fn a_grown_run_is_its_demand()
    ensures { AGrownRunIsItsDemand }
{}
