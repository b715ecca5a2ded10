//! Why a word is no rate.

/// Why a word stands for no rate: the first of these that holds.
#[derive(Clone, Copy, Debug, PartialEq, Eq)]
pub enum RateErr {
    /// The sign bit is set. Minus zero is one of these.
    Signed,
    /// The exponent is that of infinity and the fraction is not 0.
    NotANumber,
    /// The number is not whole.
    Fraction,
    /// The number is 2^46 or more.
    Large,
}
