//! A pool of four slots over long waits, and one of none.
use soft_table::Pool;
use std::alloc::Global;
use std::test::Fail;

// The sum of the values that are due after a wait, and how many these are, where none is due before it.
fn due_after(pool: &mut Pool<u8>, ms: u32) -> Option<(u8, u8)> {
    let None = pool.pull_due() else {
        return None;
    };
    pool.advance(ms);
    let mut sum = 0u8;
    let mut count = 0u8;
    for _pull in 0..4 {
        if let Some((_, value)) = pool.pull_due() {
            sum = sum.saturating_add(value);
            count = count.saturating_add(1);
        }
    }
    Some((sum, count))
}

#[test]
fn four_values_run_out_one_after_another(rt: HostRuntime) -> Result<(), Fail> {
    let mut pool = Pool::<u8>::open(rt.alloc(), 4).or(Err("memory"))?;
    for (value, left) in [(1u8, 1u32), (2, 70_000), (3, 4_294_967_295), (4, 70_001)] {
        assert!(rt; pool.add(value, left).is_ok());
    }
    assert!(rt; pool.add(5, 1).err() == Some(5));

    // The waits, and the sums of the values that are due after each.
    for (ms, due, number) in [(70_000u32, 3u8, 2u8), (1, 4, 1), (4_294_897_294, 3, 1)] {
        assert!(rt; due_after(&mut pool, ms) == Some((due, number)));
        assert!(rt; pool.pull_due().is_none());
    }
    Ok(())
}

// Whether the one slot of a pool is read, changed, renewed and emptied while it lives.
fn is_used(alloc: Global) -> Option<bool> {
    let mut pool = Pool::<u8>::open(alloc, 1).ok()?;
    let slot = pool.add(7, 10).ok()?;
    if !pool.live(slot) || *pool.get(slot) != 7 || pool.set(slot, 8) != 7 {
        return Some(false);
    }
    pool.renew(slot, 5);
    pool.advance(4);
    if !pool.live(slot) {
        return Some(false);
    }
    Some(pool.remove(slot) == 8 && !pool.live(slot))
}

#[test]
fn a_live_slot_is_read_changed_renewed_and_emptied(rt: HostRuntime) {
    assert!(rt; is_used(rt.alloc()) == Some(true));
}

#[test]
fn a_cleared_pool_has_room_again(rt: HostRuntime) -> Result<(), Fail> {
    let mut pool = Pool::<u8>::open(rt.alloc(), 1).or(Err("memory"))?;
    assert!(rt; pool.add(9, 1).is_ok());
    pool.clear();
    assert!(rt; pool.pull_due().is_none());
    assert!(rt; pool.add(9, 1).is_ok());
    Ok(())
}

#[test]
fn a_pool_without_slots_gives_every_value_back(rt: HostRuntime) -> Result<(), Fail> {
    let mut pool = Pool::<u8>::open(rt.alloc(), 0).or(Err("memory"))?;
    assert!(rt; pool.add(1, 1).err() == Some(1));
    assert!(rt; pool.pull_due().is_none());
    pool.advance(1);
    assert!(rt; pool.add(2, 4_294_967_295).err() == Some(2));
    Ok(())
}
