//! The work on a pool of slots that is timed: waits in which nothing runs out.

use crate::tables::{Served, both, once};
use soft_table::Pool;
use std::alloc::Global;

/// How many values live while time passes.
#[derive(Clone, Copy)]
pub enum Living {
    One,
    /// One in each slot.
    All,
}

const SLOTS: u32 = 1024;

// The milliseconds of a wait, how many waits there are, and how long a value lives, which is longer than these.
const WAIT: u32 = 64;

const WAITS: u32 = 4000;

const LIFETIME: u32 = 262_000;

/// Puts the values into an empty pool and waits, so many times. `None`: memory ran out.
pub fn wait_times(alloc: Global, living: Living, times: u32) -> Option<Served> {
    let mut pool = Pool::open(alloc, SLOTS as usize).ok()?;
    let mut all = Served::default();
    for _ in 0..times {
        pool.clear();
        fill(&mut pool, living)?;
        all = both(all, wait(&mut pool)?);
    }
    Some(all)
}

fn fill(pool: &mut Pool<u32>, living: Living) -> Option<()> {
    let count = match living {
        Living::One => 1,
        Living::All => SLOTS,
    };
    for value in 0..count {
        pool.add(value, LIFETIME).ok()?;
    }
    Some(())
}

// Lets time pass wait by wait. A value that is due is counted, and none is.
fn wait(pool: &mut Pool<u32>) -> Option<Served> {
    let mut served = Served::default();
    for _ in 0..WAITS {
        if pool.pull_due().is_some() {
            return None;
        }
        pool.advance(WAIT);
        served = both(served, once(u64::from(WAIT)));
    }
    Some(served)
}
