//! Whether two ADSPECs are the same.
ghost use Rattle.std.specs.Prelude.{◌≡◌};
ghost use Rattle.adspec_path.specs.Same.{same_adspec, same_load, same_rate, same_told};

use rsvp_base::Peak;
use rsvp_objects::Adspec;

/// Whether two ADSPECs are the same, or both are missing.
pub fn same_told(a: &Option<Adspec>, b: &Option<Adspec>) -> bool
    ensures { result ≡ same_told a.now b.now }
{
    match a {
        Some(a) => match b {
            Some(b) => same_adspec(a, b),
            None => false,
        },
        None => b.is_none(),
    }
}

/// Whether two ADSPECs are the same.
pub fn same_adspec(a: &Adspec, b: &Adspec) -> bool
    ensures { result ≡ same_adspec a.now b.now }
{
    a.broken == b.broken
        && a.hops == b.hops
        && same_rate(a.rate, b.rate)
        && a.latency == b.latency
        && a.mtu == b.mtu
        && same_load(a.load, b.load)
        && *a.others.words() == *b.others.words()
}

// Whether two bandwidths are the same.
fn same_rate(a: Peak, b: Peak) -> bool
    ensures { result ≡ same_rate a b }
{
    match a {
        Peak::Infinite => matches!(b, Peak::Infinite),
        Peak::Finite(rate) => match b {
            Peak::Infinite => false,
            Peak::Finite(other) => rate.value() == other.value(),
        },
    }
}

// Whether two break bits are the same, or both are missing.
fn same_load(a: Option<bool>, b: Option<bool>) -> bool
    ensures { result ≡ same_load a b }
{
    match a {
        Some(bit) => match b {
            Some(other) => bit == other,
            None => false,
        },
        None => b.is_none(),
    }
}
