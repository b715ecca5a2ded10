//! Rates.
ghost use Rattle.std.specs.Prelude.{◌≡◌, ◌↔◌, IsSome, IfSome};
ghost use Rattle.rsvp_base.specs.Rates.{IsRate};

use std::marker::Model;

/// A rate in bytes per second, or a bucket depth in bytes: a whole number that a floating-point word of RFC 2210 spells
/// exactly. Contracts see it as that number.
#[derive(Clone, Copy, Debug, PartialEq, Eq, PartialOrd, Ord, Hash)]
pub struct Rate {
    number: u64,
}

impl Model for Rate {
    ghost use Rattle.std.specs.Prelude.{ℕ};
    ghost use Rattle.rsvp_base.specs.Rates.{IsRate};

    ghost Value = { ℕ };

    ghost view = { λ r. r.number };

    ghost invariant = { λ r. IsRate r.number };

    ghost inverse = { λ n. record { number = n } };
}

impl Rate {
    /// The rate of this number. `None` exactly where it is 2^46 or more, or has two set bits more than 23 places apart.
    pub fn of(n: u64) -> Option<Rate>
        ensures some { IsSome result ↔ IsRate n }
        ensures value { IfSome result (λ r. r ≡ n) }
    {
        if n >= 1 << 46 {
            return None;
        }
        if n == 0 {
            return Some(Rate { number: 0 });
        }
        let lowest = n.trailing_zeros();
        let highest = 63 - n.leading_zeros();
        if highest > lowest + 23 {
            return None;
        }
        Some(Rate { number: n })
    }

    /// The number.
    pub fn value(self) -> u64
        ensures number { result ≡ self }
        ensures rate { IsRate self }
    {
        self.number
    }
}
