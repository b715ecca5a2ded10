//! The policer.
ghost use Rattle.std.specs.Prelude.{◌≡◌, ◌≤◌, ◌<◌, ◌*◌, ◌^◌, nat_lt, List};
ghost use Rattle.load_policer.specs.Policing.{Agrees, IsVerdict, Packet, level_with, packet, with_passed};

use rsvp_base::Flow;
use std::marker::Model;

/// What a policer says of a packet.
#[derive(Clone, Copy, Debug, PartialEq, Eq)]
pub enum Verdict {
    /// It conforms.
    Pass,
    /// It does not: with it, some stretch of the packets passed has more bytes than its time allows.
    Over,
    /// It is larger than the largest packet of the flow.
    Big,
}

// A byte a second drains one millionth of a byte in a microsecond.
const MICROS: u128 = 1_000_000;

/// The token bucket of a flow. Contracts see the flow, what the packets passed have put into the bucket and time has not drained, in
/// millionths of a byte, and when the last one passed, in microseconds.
#[derive(Drop)]
pub struct Policer {
    flow: Flow,
    level: u128,
    at: u64,
}

impl Model for Policer {
    ghost use Rattle.std.specs.Prelude.{◌≤◌, ◌*◌};
    ghost use Rattle.load_policer.specs.Policing.{Bucket};

    ghost Value = { Bucket };

    ghost view = { λ p. record { flow = p.flow; level = p.level; at = p.at } };

    ghost invariant = { λ p. p.level ≤ p.flow.b * 1000000 };
}

impl Policer {
    ghost use Rattle.load_policer.specs.Policing.{empty_bucket};

    /// A policer to which nothing was offered yet: its bucket is empty.
    pub fn open(flow: Flow) -> Policer
        ensures { result ≡ empty_bucket flow }
    {
        Policer {
            flow,
            level: 0,
            at: 0,
        }
    }

    /// What is to be said of a packet of this size, in bytes, that came at this moment, in microseconds: not before the last one
    /// that passed. The peak rate is not tested.
    ///
    /// `Big`: exactly where the packet is larger than M. `Over`: exactly where it is not, and with it some stretch of the packets
    /// passed has more bytes than r times its time and b. What is not `Pass` counts for nothing afterwards.
    pub fn offer(&mut self, at: u64, size: u32) -> Verdict
        requires later { self.old.at ≤ at }
        requires time { at < 2 ^ 63 }
        ensures exact { (passed : List Packet) → Agrees self.old passed
            → IsVerdict self.old.flow passed (packet at size) result × Agrees self.new (with_passed result passed (packet at size)) }
        ensures flow { self.new.flow ≡ self.old.flow }
    {
        if self.is_big(size) {
            return Verdict::Big;
        }
        let level = self.level_with(at, size);
        if self.is_over(level) {
            return Verdict::Over;
        }
        self.level = level;
        self.at = at;
        Verdict::Pass
    }

    // Whether a packet is larger than the largest of the flow.
    fn is_big(&self, size: u32) -> bool
        ensures { result ≡ nat_lt self.now.flow.most size }
    {
        size > self.flow.most
    }

    // Whether a level passes the bucket.
    fn is_over(&self, level: u128) -> bool
        ensures { result ≡ nat_lt (self.now.flow.b * 1000000) level }
    {
        level > u128::from(self.flow.b.value()) * MICROS
    }

    // The level with a packet of this size that came at this moment.
    fn level_with(&self, at: u64, size: u32) -> u128
        requires later { self.now.at ≤ at }
        requires time { at < 2 ^ 63 }
        ensures { result ≡ level_with self.now.flow self.now.level self.now.at (packet at size) }
    {
        // The proof sees here that the bucket is below 2^46.
        let _bucket = self.flow.b.value();
        let drained = u128::from(self.flow.r.value()) * u128::from(at - self.at);
        let count = u128::from(size.max(self.flow.low));
        self.level.saturating_sub(drained) + count * MICROS
    }
}
