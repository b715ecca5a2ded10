//! Flows.
ghost use Rattle.std.specs.Prelude.{◌≡◌, ◌↔◌, IsSome, IfSome};
ghost use Rattle.rsvp_base.specs.TokenBucket.{IsSound};

use crate::rate::Rate;
use std::marker::Model;

/// A peak rate in bytes per second, or none at all (RFC 2210, 3.1: positive infinity).
#[derive(Clone, Copy, Debug, PartialEq, Eq, Hash)]
pub enum Peak {
    Finite(Rate),
    Infinite,
}

/// What a sender sends, or a receiver asks for: a token bucket with packet sizes (RFC 2210, 3.1 and 3.2). Contracts see
/// it as the record of its five fields, of which `r`, `b`, `low` and `most` are at least 1 in every flow.
#[derive(Clone, Copy, Debug, PartialEq, Eq, Hash)]
pub struct Flow {
    /// Token bucket rate r, in bytes per second.
    pub r: Rate,
    /// Token bucket size b, in bytes.
    pub b: Rate,
    /// Peak data rate p.
    pub p: Peak,
    /// Minimum policed unit m, in bytes.
    pub low: u32,
    /// Maximum packet size M, in bytes. In a message `low` may pass it.
    pub most: u32,
}

impl Model for Flow {
    ghost use Rattle.rsvp_base.specs.TokenBucket.{TokenBucket, IsSound};

    ghost Value = { TokenBucket };

    ghost view = { λ f. record { r = f.r; b = f.b; p = f.p; low = f.low; most = f.most } };

    ghost invariant = { λ f. IsSound (record { r = f.r; b = f.b; p = f.p; low = f.low; most = f.most }) };

    ghost inverse = { λ f. record { r = f.r; b = f.b; p = f.p; low = f.low; most = f.most } };
}

impl Flow {
    ghost use Rattle.rsvp_base.specs.TokenBucket.{TokenBucket};

    /// The flow of these. `None` exactly where r, b, `low` or `most` is 0.
    pub fn new(r: Rate, b: Rate, p: Peak, low: u32, most: u32) -> Option<Flow>
        ensures some { IsSome result ↔ IsSound (record { r = r; b = b; p = p; low = low; most = most }) }
        ensures value { IfSome result (λ f. f ≡ record { r = r; b = b; p = p; low = low; most = most }) }
    {
        if r.value() == 0 || b.value() == 0 || low == 0 || most == 0 {
            return None;
        }
        Some(Flow { r, b, p, low, most })
    }
}

/// The least flow there is, 1/1/inf/1/1: what the unused places of a list of fixed room hold.
impl Default for Flow {
    #[tactic(auto, using(crate::proofs::RateBits::one_is_rate))]
    fn default() -> Flow {
        let Some(one) = Rate::of(1) else {
            unreachable!()
        };
        Flow {
            r: one,
            b: one,
            p: Peak::Infinite,
            low: 1,
            most: 1,
        }
    }
}
