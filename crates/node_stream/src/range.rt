//! Whether the numbers of a frame are in range.
ghost use Rattle.std.specs.Prelude.{◌≡◌, ◌≤◌, ◌<◌, ◌*◌, ◌^◌, ◌≢◌, List, ℕ, true, length, Some, IfSome, IfNone};
ghost use Rattle.router_rules.specs.NodeConfig.{NodeConfig};
ghost use Rattle.node_stream.specs.Layout as spec;
ghost use Rattle.node_stream.specs.Blames.{IsOpenBlame, IsPlaceBlame, IsSame};
ghost use Rattle.node_stream.specs.Rules.{IsIface, IsInRange, IsInTurn, IsMtu, IsPeriod, IsRoute, IsWait, iface_addr};

use crate::blame::Blame;
use crate::frame::Frame;
use crate::layout::{iface_at, iface_count, period_in, route_at, route_count};
use rsvp_base::Iface;

const LEAST_PERIOD: u32 = 1_000;

const MOST_PERIOD: u32 = 60_000;

const MOST_IFACES: usize = 16;

// Capacities are below this.
const END_OF_RATES: u64 = 1 << 46;

const MOST_MTU: u32 = 65_535;

/// What is to blame for a frame behind the first, for a router with so many interfaces and this quarter of its period, in
/// milliseconds. `None` if and only if it is in range.
pub fn fault_of(frame: Frame, ifaces: usize, quarter: u32) -> Option<Blame>
    requires turn { IsInTurn true frame }
    requires short { quarter ≤ 15000 }
    ensures none { (q : NodeConfig) (contents : List ℕ) → length q.ifaces ≡ ifaces → q.quarter ≡ quarter → IfNone result (IsInRange (Some q) contents frame) }
    ensures some { (q : NodeConfig) → length q.ifaces ≡ ifaces → q.quarter ≡ quarter → IfSome result (IsOpenBlame q frame) }
{
    match frame {
        Frame::Opens | Frame::Clears => None,
        Frame::Comes { iface, .. } => comes_fault(iface, ifaces),
        Frame::Waits { ms, .. } => wait_fault(ms, quarter),
    }
}

// Of a datagram that comes by this interface, of so many.
fn comes_fault(iface: u8, ifaces: usize) -> Option<Blame>
    ensures none { IfNone result (iface < ifaces) }
    ensures some { IfSome result (λ b. (b ≡ Blame.NoIface iface ifaces) × (ifaces ≤ iface)) }
{
    if usize::from(iface) < ifaces {
        return None;
    }
    Some(Blame::NoIface {
        iface,
        count: ifaces,
    })
}

// Of a wait of so many milliseconds, where this is a quarter of the period.
fn wait_fault(ms: u32, quarter: u32) -> Option<Blame>
    requires { quarter ≤ 15000 }
    ensures none { IfNone result (IsWait quarter ms) }
    ensures some { IfSome result (λ b. (b ≡ Blame.Wait ms (2 * quarter)) × (IsWait quarter ms → ⊥)) }
{
    if 1 <= ms && ms <= 2 * quarter {
        return None;
    }
    Some(Blame::Wait {
        ms,
        most: 2 * quarter,
    })
}

/// What is to blame for the numbers of a frame that opens a router. `None`: all are in range, and no two interfaces have the same
/// address. Of the routes it is not looked whether two have the same group and source.
pub(crate) fn numbers_blame(contents: &[u8]) -> Option<Blame>
    requires { spec.HasForm contents.now }
    ensures period { IfNone result (IsPeriod (spec.period_in contents.now)) }
    ensures few { IfNone result (spec.iface_count contents.now ≤ 16) }
    ensures ifaces { IfNone result ((k : ℕ) → k < spec.iface_count contents.now → IsIface (spec.iface_at contents.now k)) }
    ensures apart { IfNone result ((j k : ℕ) → j < k → k < spec.iface_count contents.now → iface_addr contents.now j ≢ iface_addr contents.now k) }
    ensures routes { IfNone result ((k : ℕ) → k < spec.route_count contents.now → IsRoute (spec.iface_count contents.now) (spec.route_at contents.now k)) }
    ensures some { IfSome result (IsPlaceBlame contents.now) }
{
    let ms = period_in(contents);
    if !is_period(ms) {
        return Some(Blame::Period { ms });
    }
    let count = iface_count(contents);
    if count > MOST_IFACES {
        return Some(Blame::ManyIfaces { count });
    }
    if let Some(blame) = ifaces_blame(contents) {
        return Some(blame);
    }
    if let Some(blame) = addrs_blame(contents) {
        return Some(blame);
    }
    routes_blame(contents, count)
}

fn is_period(ms: u32) -> bool
    ensures yes { result ≡ true → IsPeriod ms }
    ensures no { IsPeriod ms → result ≡ true }
{
    LEAST_PERIOD <= ms && ms <= MOST_PERIOD && ms % 4 == 0
}

// The first interface with a number out of range.
fn ifaces_blame(contents: &[u8]) -> Option<Blame>
    requires { spec.HasForm contents.now }
    ensures none { IfNone result ((k : ℕ) → k < spec.iface_count contents.now → IsIface (spec.iface_at contents.now k)) }
    ensures some { IfSome result (IsPlaceBlame contents.now) }
{
    for k in 0..iface_count(contents) {
        if let Some(blame) = iface_blame(contents, k) {
            return Some(blame);
        }
    }
    None
}

fn iface_blame(contents: &[u8], k: usize) -> Option<Blame>
    requires form { spec.HasForm contents.now }
    requires there { k < spec.iface_count contents.now }
    ensures none { IfNone result (IsIface (spec.iface_at contents.now k)) }
    ensures some { IfSome result (IsPlaceBlame contents.now) }
{
    let Iface { capacity, mtu, .. } = iface_at(contents, k);
    if capacity >= END_OF_RATES {
        return Some(Blame::Capacity {
            iface: k,
            bytes: capacity,
        });
    }
    if mtu == 0 || mtu > MOST_MTU {
        return Some(Blame::Mtu {
            iface: k,
            bytes: mtu,
        });
    }
    None
}

// The first interface with the address of one before it.
fn addrs_blame(contents: &[u8]) -> Option<Blame>
    requires { spec.HasForm contents.now }
    ensures none { IfNone result ((j k : ℕ) → j < k → k < spec.iface_count contents.now → iface_addr contents.now j ≢ iface_addr contents.now k) }
    ensures some { IfSome result (IsPlaceBlame contents.now) }
{
    for k in 0..iface_count(contents) {
        if is_same_addr(contents, k) {
            return Some(Blame::SameAddr { iface: k });
        }
    }
    None
}

// Whether an interface before has the address of this one.
fn is_same_addr(contents: &[u8], k: usize) -> bool
    requires form { spec.HasForm contents.now }
    requires there { k < spec.iface_count contents.now }
    ensures yes { result ≡ true → IsSame (iface_addr contents.now) k }
    ensures no { IsSame (iface_addr contents.now) k → result ≡ true }
{
    let addr = iface_at(contents, k).addr;
    for j in 0..k {
        if iface_at(contents, j).addr.0 == addr.0 {
            return true;
        }
    }
    false
}

// The first route of which an interface is not there, of so many interfaces.
fn routes_blame(contents: &[u8], count: usize) -> Option<Blame>
    requires form { spec.HasForm contents.now }
    requires count { count ≡ spec.iface_count contents.now }
    requires few { count ≤ 16 }
    ensures none { IfNone result ((k : ℕ) → k < spec.route_count contents.now → IsRoute (spec.iface_count contents.now) (spec.route_at contents.now k)) }
    ensures some { IfSome result (IsPlaceBlame contents.now) }
{
    for k in 0..route_count(contents) {
        if let Some(blame) = route_blame(contents, k, count) {
            return Some(blame);
        }
    }
    None
}

fn route_blame(contents: &[u8], k: usize, count: usize) -> Option<Blame>
    requires form { spec.HasForm contents.now }
    requires there { k < spec.route_count contents.now }
    requires count { count ≡ spec.iface_count contents.now }
    requires few { count ≤ 16 }
    ensures none { IfNone result (IsRoute count (spec.route_at contents.now k)) }
    ensures some { IfSome result (IsPlaceBlame contents.now) }
{
    match inward_blame(contents, k, count) {
        Some(blame) => Some(blame),
        None => outward_blame(contents, k, count),
    }
}

// The inward interface of a route, where there is no such interface.
fn inward_blame(contents: &[u8], k: usize, count: usize) -> Option<Blame>
    requires form { spec.HasForm contents.now }
    requires there { k < spec.route_count contents.now }
    requires count { count ≡ spec.iface_count contents.now }
    ensures none { IfNone result (IfSome (spec.route_at contents.now k).inward (λ i. i < count)) }
    ensures some { IfSome result (IsPlaceBlame contents.now) }
{
    match route_at(contents, k).inward {
        Some(iface) => {
            if usize::from(iface) < count {
                None
            } else {
                Some(Blame::Inward {
                    route: k,
                    iface,
                    count,
                })
            }
        }
        None => None,
    }
}

// The outward interfaces of a route, where one of them is not there.
fn outward_blame(contents: &[u8], k: usize, count: usize) -> Option<Blame>
    requires form { spec.HasForm contents.now }
    requires there { k < spec.route_count contents.now }
    requires count { count ≡ spec.iface_count contents.now }
    requires few { count ≤ 16 }
    ensures none { IfNone result ((spec.route_at contents.now k).outward < 2 ^ count) }
    ensures some { IfSome result (IsPlaceBlame contents.now) }
{
    let ways = route_at(contents, k).outward;
    if u32::from(ways) < 1 << count {
        return None;
    }
    Some(Blame::Outward {
        route: k,
        ways,
        count,
    })
}
