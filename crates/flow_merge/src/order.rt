//! The order of flows.
ghost use Rattle.std.specs.Prelude.{◌≡◌, ◌↔◌, IsTrue};
ghost use Rattle.flow_merge.specs.FlowOrder.{IsAtMost, flow_le, flow_join, flow_meet, peak_le, larger_peak, smaller_peak};

use rsvp_base::{Flow, Peak};

/// Whether `b` can stand for `a`: r, b, p and `most` of `b` are at least those of `a`, and `low` of `b` is at most that
/// of `a`. No peak rate at all is the largest.
pub fn le(a: &Flow, b: &Flow) -> bool
    ensures order { IsTrue result ↔ IsAtMost a.now b.now }
    ensures test { result ≡ flow_le a.now b.now }
{
    a.r <= b.r && a.b <= b.b && peak_le(a.p, b.p) && b.low <= a.low && a.most <= b.most
}

/// The least flow that can stand for both: the largest r, b, p and `most`, and the smallest `low`.
pub fn join(a: &Flow, b: &Flow) -> Flow
    ensures { result ≡ flow_join a.now b.now }
{
    Flow {
        r: a.r.max(b.r),
        b: a.b.max(b.b),
        p: larger_peak(a.p, b.p),
        low: a.low.min(b.low),
        most: a.most.max(b.most),
    }
}

/// The greatest flow for which both can stand: the smallest r, b, p and `most`, and the largest `low`.
pub fn meet(a: &Flow, b: &Flow) -> Flow
    ensures { result ≡ flow_meet a.now b.now }
{
    Flow {
        r: a.r.min(b.r),
        b: a.b.min(b.b),
        p: smaller_peak(a.p, b.p),
        low: a.low.max(b.low),
        most: a.most.min(b.most),
    }
}

fn peak_le(a: Peak, b: Peak) -> bool
    ensures { result ≡ peak_le a b }
{
    match b {
        Peak::Infinite => true,
        Peak::Finite(y) => match a {
            Peak::Finite(x) => x <= y,
            Peak::Infinite => false,
        },
    }
}

fn larger_peak(a: Peak, b: Peak) -> Peak
    ensures { result ≡ larger_peak a b }
{
    match a {
        Peak::Infinite => Peak::Infinite,
        Peak::Finite(x) => match b {
            Peak::Finite(y) => Peak::Finite(x.max(y)),
            Peak::Infinite => Peak::Infinite,
        },
    }
}

fn smaller_peak(a: Peak, b: Peak) -> Peak
    ensures { result ≡ smaller_peak a b }
{
    match a {
        Peak::Infinite => b,
        Peak::Finite(x) => match b {
            Peak::Finite(y) => Peak::Finite(x.min(y)),
            Peak::Infinite => a,
        },
    }
}
