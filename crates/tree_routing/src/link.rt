//! Links.
ghost use Rattle.std.specs.Prelude.{◌≤◌};

/// A link, as the numbers of its ends in order: at most eight.
#[derive(Clone, Copy, Debug, PartialEq, Eq)]
pub(crate) struct Link {
    /// The ends, and behind them zeros.
    pub(crate) ends: [u16; 8],
    /// How many they are.
    pub(crate) count: u8,
    ghost few: { count ≤ 8 },
}
