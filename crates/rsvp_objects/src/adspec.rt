//! ADSPECs.
ghost use Rattle.std.specs.Prelude.{◌≡◌};

use crate::fragments::Fragments;
use rsvp_base::Peak;

/// What the path of a sender offers, as far as the routers on it have told (RFC 2210, 3.3).
#[derive(Drop)]
pub struct Adspec {
    /// The break bit of the general part: some router on the path does not know RSVP or integrated services.
    pub broken: bool,
    /// How many routers of integrated services the path has.
    pub hops: u32,
    /// The bandwidth of the path, in bytes per second.
    pub rate: Peak,
    /// The least latency of the path, in microseconds.
    pub latency: u32,
    /// The largest packet that the path takes whole, in bytes.
    pub mtu: u32,
    /// Where the path tells of controlled load: its break bit, that some router does not offer it (RFC 2211).
    pub load: Option<bool>,
    /// The fragments of other services.
    pub others: Fragments,
}

impl Adspec {
    /// An equal value.
    pub fn copy(&self) -> Adspec
        ensures { result ≡ self.now }
    {
        Adspec {
            broken: self.broken,
            hops: self.hops,
            rate: self.rate,
            latency: self.latency,
            mtu: self.mtu,
            load: self.load,
            others: self.others.copy(),
        }
    }
}
