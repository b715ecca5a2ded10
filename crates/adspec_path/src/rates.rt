//! The largest rate that is at most a number.
ghost use Rattle.std.specs.Prelude.{◌≡◌, ◌≤◌, ◌<◌, ◌+◌, ◌^◌};
ghost use Rattle.adspec_path.specs.RateBelow.{IsRateBelow, rate_below};

use rsvp_base::Rate;

// A rate is below this (RFC 2210, 3.1, as far as rates go here).
const END: u64 = 1 << 46;

// So many bits of a number a rate word has.
const BITS: u32 = 24;

/// The largest rate that is at most this number: what a word can tell of a capacity in bytes per second.
pub fn rate_below(n: u64) -> Rate
    ensures is { result ≡ rate_below n }
    ensures largest { IsRateBelow n result }
{
    match Rate::of(top_bits(n.min(END - 1))) {
        Some(rate) => rate,
        None => unreachable!(),
    }
}

// The number with its 24 highest bits alone.
fn top_bits(n: u64) -> u64
    requires { n < 2 ^ 46 }
    ensures { IsRateBelow n result }
{
    if n < 1 << BITS {
        return n;
    }
    without(n, bits_below(n))
}

// How many bits of the number stand below its 24 highest.
fn bits_below(n: u64) -> u32
    requires long { 2 ^ 24 ≤ n }
    requires short { n < 2 ^ 46 }
    ensures low { 2 ^ (result + 23) ≤ n }
    ensures high { n < 2 ^ (result + 24) }
    ensures few { result ≤ 22 }
{
    (u64::BITS - BITS).saturating_sub(n.leading_zeros())
}

// The number with so many of its lowest bits 0.
fn without(n: u64, k: u32) -> u64
    requires low { 2 ^ (k + 23) ≤ n }
    requires high { n < 2 ^ (k + 24) }
    requires few { k ≤ 22 }
    requires short { n < 2 ^ 46 }
    ensures { IsRateBelow n result }
{
    (n >> k) << k
}
