//! Rates as 32-bit words.
ghost use Rattle.std.specs.Prelude.{◌≡◌, ℕ, ◌+◌, ◌*◌, ◌<◌, ◌≤◌, ◌^◌, Ok, IfOk, IfErr};
ghost use Rattle.rsvp_base.specs.Rates.{IsRate};
ghost use Rattle.rsvp_base.specs.declared.flow.Peak.{Peak};
ghost use Rattle.rsvp_objects.specs.RateWord.{StandsFor, IsNumberWord, word_of, mantissa, number_word};
ghost use Rattle.rsvp_objects.specs.RateFault.{IsFirstFault, rate_word};

use crate::rate_err::RateErr;
use rsvp_base::{Peak, Rate};

// Where the fields of a word begin, and what the exponent of infinity is (IEEE 754, single precision).
const SIGN_AT: u32 = 31;

const EXPONENT_AT: u32 = 23;

const EXPONENT_MASK: u32 = 0xff;

const FRACTION_MASK: u32 = 0x7f_ffff;

const INFINITE: u32 = 255;

const INFINITE_WORD: u32 = 0x7f80_0000;
// The exponent of a number whose mantissa is the number itself, and that of 1.
const WHOLE: u32 = 150;

const ONE: u32 = 127;
// A mantissa is 1 before its fraction.
const LEADING_ONE: u64 = 1 << 23;
// A mantissa may be moved up by less than this: the number has 46 bits then.
const ROOM_ABOVE: u32 = 23;

/// The rate or infinity that a word of an object stands for (RFC 2210, 3.1).
///
/// Refused with the first of the causes of `RateErr` that holds.
#[tactic(auto, using(crate::proofs::WordAnswers::only_answer))]
#[inline(always)]
pub fn rate_of_word(word: u32) -> Result<Peak, RateErr>
    ensures ok { IfOk result (StandsFor word) }
    ensures err { IfErr result (IsFirstFault word) }
    ensures only { (p : Peak) → StandsFor word p → result ≡ Ok p }
    ensures is { result ≡ rate_word word }
{
    read_word(word)
}

#[inline(always)]
fn read_word(word: u32) -> Result<Peak, RateErr>
    ensures ok { IfOk result (StandsFor word) }
    ensures err { IfErr result (IsFirstFault word) }
{
    if word >> SIGN_AT == 1 {
        return Err(RateErr::Signed);
    }
    let exponent = word >> EXPONENT_AT & EXPONENT_MASK;
    let fraction = word & FRACTION_MASK;
    if exponent == INFINITE {
        if fraction == 0 {
            return Ok(Peak::Infinite);
        }
        return Err(RateErr::NotANumber);
    }
    if exponent == 0 {
        if fraction == 0 {
            return Ok(Peak::Finite(moved_up(0, 0)));
        }
        return Err(RateErr::Fraction);
    }
    let mantissa = LEADING_ONE + fraction as u64;
    if exponent >= WHOLE {
        let up = exponent - WHOLE;
        if up >= ROOM_ABOVE {
            return Err(RateErr::Large);
        }
        return Ok(Peak::Finite(moved_up(mantissa, up)));
    }
    let down = WHOLE - exponent;
    if down > EXPONENT_AT || (mantissa >> down) << down != mantissa {
        return Err(RateErr::Fraction);
    }
    Ok(Peak::Finite(moved_up(mantissa >> down, 0)))
}

// The rate `mantissa << up`.
#[inline(always)]
fn moved_up(mantissa: u64, up: u32) -> Rate
    requires short { mantissa < 2 ^ 24 }
    requires low { up < 23 }
    ensures { result ≡ mantissa * 2 ^ up }
{
    match Rate::of(mantissa << up) {
        Some(rate) => rate,
        None => unreachable!(),
    }
}

/// The one word that stands for a rate or for infinity.
#[tactic(auto, unfolding(crate::specs::RateWord::word_of))]
pub fn word_of_rate(peak: Peak) -> u32
    ensures stands { StandsFor result peak }
    ensures only { (w : ℕ) → StandsFor w peak → w ≡ result }
    ensures is { result ≡ word_of peak }
{
    match peak {
        Peak::Infinite => INFINITE_WORD,
        Peak::Finite(rate) => {
            let n = rate.value();
            if n == 0 { 0 } else { number_word(n) }
        }
    }
}

// The word of a rate that is not 0.
fn number_word(n: u64) -> u32
    requires positive { 0 < n }
    requires rate { IsRate n }
    ensures is { result ≡ number_word n }
    ensures stands { IsNumberWord result n }
{
    let highest = 63 - n.leading_zeros();
    let mantissa = mantissa_of(n, highest);
    ((highest + ONE) << EXPONENT_AT) + (mantissa - LEADING_ONE) as u32
}

// The 24 bits of a rate from its highest bit on.
fn mantissa_of(n: u64, highest: u32) -> u64
    requires rate { IsRate n }
    requires top { 2 ^ highest ≤ n }
    requires fits { n < 2 ^ (highest + 1) }
    ensures low { 2 ^ 23 ≤ result }
    ensures short { result < 2 ^ 24 }
    ensures is { result ≡ mantissa n highest }
    ensures scaled { n * 2 ^ 150 ≡ result * 2 ^ (highest + 127) }
{
    if highest <= EXPONENT_AT {
        n << (EXPONENT_AT - highest)
    } else {
        n >> (highest - EXPONENT_AT)
    }
}
