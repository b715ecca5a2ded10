//! The run of a grown network is summed up.
ghost use Rattle.std.specs.Prelude.{◌≡◌, IfOk};
ghost use Rattle.grown_network.specs.Grown.{grown_plan};
ghost use Rattle.grown_network.specs.Summaries.{summary};
ghost use Rattle.grown_player.specs.Growing.{IsExpected};
ghost use Rattle.grown_player.specs.Playing.{IsPlayed};

use crate::counting::count;
use crate::growing::Expected;
use grown_network::{Summary, is_demand, put_summary};
use network_replay::{Router, World};
use rsvp_base::NoMemory;
use std::alloc::Global;

// How many hops the trees of a grown network have together: twelve trees of a network of 64 nodes.
const HOPS: u64 = 12 * 63;

/// The summary of the run of a seed's network, which wrote this report. `NoMemory`: there was no room for it.
pub(crate) fn sum_up<R: Router + Drop>(
    alloc: Global,
    seed: u64,
    world: &World<R>,
    expected: &Expected,
    report: &[u8],
) -> Result<Vec<u8>, NoMemory>
    requires expected { IsExpected seed expected.now }
    requires played { IsPlayed R.seen (grown_plan seed) world.now report.now }
    ensures { IfOk result (λ text. text.items ≡ summary seed) }
{
    let equal = is_demand(alloc, report, expected.demand.as_slice(), expected.longest)?;
    let summary = Summary {
        seed,
        nodes: expected.wires.routing().nodes(),
        hops: HOPS,
        longest: expected.longest,
        rounds: expected.rounds,
        delivered: world.delivered(),
        booked: count(world, &expected.wires),
        equal,
    };
    let mut text = Vec::new(alloc);
    put_summary(&mut text, &summary)?;
    Ok(text)
}
