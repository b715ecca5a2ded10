//! What entries come to together.
ghost use Rattle.std.specs.Prelude.{◌≡◌, sum_by};
ghost use Rattle.style_rules.specs.Parts.{part_charge};
ghost use Rattle.network_demand.specs.Misfits.{largest_of};

use rsvp_base::{EntryKey, Part};
use style_rules::charge;

/// What entries charge together, in bytes per second. It need not fit a capacity, nor the 64 bits of one.
pub fn sum_of_rates(entries: &[(EntryKey, Part)]) -> u128
    ensures { result ≡ sum_by (λ r. part_charge r.1) entries.now }
{
    let mut sum: u128 = 0;
    for entry in entries {
        sum += u128::from(charge(&entry.1));
    }
    sum
}

/// The size of the largest packet that entries allow, in bytes; 0 where there is no entry.
pub fn largest(entries: &[(EntryKey, Part)]) -> u32
    ensures { result ≡ largest_of entries.now }
{
    let mut most = 0;
    for entry in entries {
        most = most.max(entry.1.flow.most);
    }
    most
}
