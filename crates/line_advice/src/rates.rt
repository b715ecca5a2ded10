//! The nearest rates of a number that is none.
ghost use Rattle.std.specs.Prelude.{◌≤◌};
ghost use Rattle.rsvp_base.specs.Rates.{IsRate};
ghost use Rattle.line_advice.specs.FlowFaults.{AreNearest, NoRateIsLarger, largest_rate};

/// The nearest rates below and above a number that is none: those of the 24 highest bits of the number, and one more.
pub fn nearest(n: u64) -> (u64, u64)
    requires none { IsRate n → ⊥ }
    requires small { n ≤ largest_rate }
    ensures { AreNearest n result.0 result.1 }
{
    let step = 1_u64 << (40 - n.leading_zeros());
    let below = n / step * step;
    (below, below + step)
}

/// No rate is above 70,368,739,983,360, which is one.
pub fn no_rate_is_larger()
    ensures { NoRateIsLarger }
{}
