//! Which number of a flow is out of range.
ghost use Rattle.std.specs.Prelude.{◌≡◌, ◌≤◌, ◌<◌, ◌^◌, MatchOption, None, Some};
ghost use Rattle.rsvp_base.specs.Rates.{IsRate};
ghost use Rattle.script_words.specs.Flows.{IsFlow, IsPeak};
ghost use Rattle.line_advice.specs.FlowFaults.{IsFlowFault, IsRateFault, IsSizeFault, IsSomeRate, MayBeNone, rate_of};
ghost use Rattle.line_advice.specs.declared.flow_faults.FlowRate.TheVariants as letter;

use crate::rates::nearest;
use rsvp_base::Rate;
use script_words::FlowWord;

// The largest rate: 24 bits set below 2^46.
const LARGEST: u64 = 70_368_739_983_360;

/// Which of the rates of a flow, by its letter in RFC 2210, 3.2.
#[derive(Clone, Copy)]
pub enum FlowRate {
    /// The token bucket rate r.
    R,
    /// The token bucket size b.
    B,
    /// The peak data rate p.
    P,
}

/// What is wrong with the first number of a flow, in the order r, b, p, m, M, that is out of range.
#[derive(Clone, Copy)]
pub enum FlowFault {
    /// This rate, r or b, is 0.
    Zero {
        rate: FlowRate,
    },
    /// This rate is above the largest one.
    Large {
        rate: FlowRate,
    },
    /// This rate is none: the nearest below and above are these.
    NoRate {
        rate: FlowRate,
        below: u64,
        above: u64,
    },
    /// The minimum policed unit m is 0.
    NoUnit,
    /// The minimum policed unit m is above the maximum packet size M.
    LargeUnit,
    /// The maximum packet size M is above 4,294,967,295.
    LargePacket,
}

/// What is wrong with a flow. `None` exactly where each of its numbers is in range.
pub fn flow_fault(flow: &FlowWord) -> Option<FlowFault>
    ensures { MatchOption result (IsFlow flow.now) (IsFlowFault flow.now) }
{
    if let Some(fault) = depth_fault(FlowRate::R, flow.r) {
        return Some(fault);
    }
    if let Some(fault) = depth_fault(FlowRate::B, flow.b) {
        return Some(fault);
    }
    if let Some(fault) = peak_fault(flow.p) {
        return Some(fault);
    }
    size_fault(flow.low, flow.most)
}

// What is wrong with a rate that is not to be 0.
fn depth_fault(rate: FlowRate, n: u128) -> Option<FlowFault>
    requires { MayBeNone rate → ⊥ }
    ensures { MatchOption result (IsSomeRate n) (λ f. (rate_of f ≡ Some rate) × IsRateFault rate (Some n) f) }
{
    if n == 0 {
        return Some(FlowFault::Zero { rate });
    }
    number_fault(rate, n)
}

// What is wrong with a peak rate.
fn peak_fault(peak: Option<u128>) -> Option<FlowFault>
    ensures { MatchOption result (IsPeak peak) (λ f. (rate_of f ≡ Some letter.P) × IsRateFault letter.P peak f) }
{
    match peak {
        None => None,
        Some(n) => number_fault(FlowRate::P, n),
    }
}

// What is wrong with a number that is to be a rate.
#[tactic(auto, using(crate::proofs::NearestRates::too_large))]
fn number_fault(rate: FlowRate, n: u128) -> Option<FlowFault>
    ensures { MatchOption result (IsRate n) (λ f. (rate_of f ≡ Some rate) × IsRateFault rate (Some n) f) }
{
    if n > u128::from(LARGEST) {
        return Some(FlowFault::Large { rate });
    }
    if Rate::of(n as u64).is_some() {
        return None;
    }
    let (below, above) = nearest(n as u64);
    Some(FlowFault::NoRate { rate, below, above })
}

// What is wrong with the sizes of packets.
fn size_fault(low: u128, most: u128) -> Option<FlowFault>
    ensures { MatchOption result ((1 ≤ low) × (low ≤ most) × (most < 2 ^ 32)) (λ f. (rate_of f ≡ None) × IsSizeFault low most f) }
{
    if low == 0 {
        return Some(FlowFault::NoUnit);
    }
    if most > 4_294_967_295 {
        return Some(FlowFault::LargePacket);
    }
    if low > most {
        return Some(FlowFault::LargeUnit);
    }
    None
}
