//! Blockade.
ghost use Rattle.std.specs.Prelude.{◌≡◌, ◌↔◌, IsTrue};
ghost use Rattle.flow_merge.specs.Blockade.{Blockades, does_blockade};

use rsvp_base::Flow;

/// Whether a flow `qb` that was refused keeps a request `qi` from being merged (RFC 2205, 3.5). `sub` is the value of the
/// refusal, an admission control failure: 2 where the rate was too large, and then r of `qb` is at most r of `qi`; 3 where
/// the packet size was, and then `most` of `qb` is at most `most` of `qi`. No other refusal blockades.
pub fn blockades(qb: &Flow, sub: u16, qi: &Flow) -> bool
    ensures meaning { IsTrue result ↔ Blockades qb.now sub qi.now }
    ensures test { result ≡ does_blockade qb.now sub qi.now }
{
    match sub {
        2 => qb.r <= qi.r,
        3 => qb.most <= qi.most,
        _ => false,
    }
}
