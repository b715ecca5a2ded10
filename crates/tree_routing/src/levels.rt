//! The length of the longest chain.
ghost use Rattle.std.specs.Prelude.{◌≡◌, ◌≤◌, false, length, replicate, IfOk};
ghost use Rattle.tree_routing.specs.Levels.{level, rises, lift_along, lift, lifts, levels, highest};

use crate::known::Known;
use rsvp_base::NoMemory;
use std::alloc::Global;

/// The level of a vertex; 0 where it is not there.
pub(crate) fn level(levels: &[u16], vertex: u16) -> u16
    ensures { result ≡ level levels.now vertex }
{
    match levels.get(vertex as usize) {
        Some(level) => *level,
        None => 0,
    }
}

// Whether the first vertex is to be lifted above the second.
fn is_to_rise(levels: &[u16], before: Option<u16>, vertex: u16) -> bool
    ensures { result ≡ rises before vertex levels.now }
{
    match before {
        Some(before) => {
            (before as usize) < levels.len()
                && level(levels, before) <= level(levels, vertex)
                && level(levels, vertex) < u16::MAX
        }
        None => false,
    }
}

// Lifts the first vertex above the second, if it is not there yet. Returns whether it rose.
fn lift_along(levels: &mut [u16], before: Option<u16>, vertex: u16) -> bool
    ensures lifted { levels.new ≡ lift_along before vertex levels.old }
    ensures still { (result ≡ false) → levels.new ≡ levels.old }
{
    let Some(above) = before else {
        return false;
    };
    let rises = is_to_rise(levels, before, vertex);
    if rises {
        levels[above as usize] = level(levels, vertex) + 1;
    }
    rises
}

// Lifts along each edge once. A hop stands behind the one before it in its tree, so that the last come first. Returns whether a
// vertex rose.
fn lift_all(levels: &mut [u16], hops: &[Known]) -> bool
    ensures lifted { levels.new ≡ lift hops.now levels.old }
    ensures still { (result ≡ false) → levels.new ≡ levels.old }
{
    let mut rose = false;
    for hop in hops {
        rose = lift_along(levels, hop.before, hop.vertex) || rose;
    }
    rose
}

// Lifts along each edge until nothing rises any more, which is no more often than there are hops.
fn settle(levels: &mut [u16], hops: &[Known])
    ensures { levels.new ≡ lifts (length hops.now) hops.now levels.old }
{
    for _pass in 0..hops.len() {
        if !lift_all(levels, hops) {
            return;
        }
    }
}

// So many vertices at level 1.
fn lowest(alloc: Global, n: usize) -> Result<Vec<u16>, NoMemory>
    ensures { IfOk result (λ levels. levels.items ≡ replicate n 1) }
{
    Ok(vec![in alloc; 1u16; n]?)
}

/// The highest level of a hop: the length of the longest chain.
pub(crate) fn highest(levels: &[u16], hops: &[Known]) -> u16
    ensures { result ≡ highest hops.now levels.now }
{
    let mut most = 0;
    for hop in hops {
        most = most.max(level(levels, hop.vertex));
    }
    most
}

/// The level of each vertex: how long a chain from it is. `NoMemory`: there was no room for them.
pub(crate) fn levels(alloc: Global, hops: &[Known]) -> Result<Vec<u16>, NoMemory>
    ensures { IfOk result (λ all. all.items ≡ levels hops.now) }
{
    let mut levels = lowest(alloc, hops.len())?;
    settle(levels.as_mut_slice(), hops);
    Ok(levels)
}
