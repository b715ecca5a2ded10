//! How an ADSPEC begins, and how it goes on.
ghost use Rattle.std.specs.Prelude.{◌≡◌};
ghost use Rattle.adspec_path.specs.Composing.{least_rate, pass_on, start};

use crate::rates::rate_below;
use rsvp_base::{Iface, Peak, Rate};
use rsvp_objects::{Adspec, Fragments};

/// The ADSPEC with which the Path of a sender leaves the sender's own node by this interface (RFC 2210, 3.3): one hop, what the
/// interface has, nothing broken, controlled load, and no other service.
#[tactic(auto, unfolding(crate::specs::Composing::start))]
pub fn start(on: Iface) -> Adspec
    ensures { result ≡ start on }
{
    Adspec {
        broken: false,
        hops: 1,
        rate: Peak::Finite(rate_below(on.capacity)),
        latency: on.latency,
        mtu: on.mtu,
        load: Some(false),
        others: Fragments::new(),
    }
}

/// What a router sends on by this interface of an ADSPEC that it kept (RFC 2215, 3): one hop more, the least bandwidth, the sum of
/// latencies, which stays at 2^32 - 1, the least MTU; break bits as they are, but set in the fragment of each other service.
#[tactic(auto, unfolding(crate::specs::Composing::pass_on))]
pub fn pass_on(kept: &Adspec, on: Iface) -> Adspec
    ensures { result ≡ pass_on kept.now on }
{
    Adspec {
        broken: kept.broken,
        hops: kept.hops.saturating_add(1),
        rate: Peak::Finite(least_rate(kept.rate, rate_below(on.capacity))),
        latency: kept.latency.saturating_add(on.latency),
        mtu: kept.mtu.min(on.mtu),
        load: kept.load,
        others: kept.others.broken(),
    }
}

// The lesser one of the two.
fn least_rate(peak: Peak, rate: Rate) -> Rate
    ensures { result ≡ least_rate peak rate }
{
    match peak {
        Peak::Infinite => rate,
        Peak::Finite(other) => {
            if other.value() <= rate.value() {
                other
            } else {
                rate
            }
        }
    }
}
