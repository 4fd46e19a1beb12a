ghost use Rattle.std.specs.Prelude.{◌≡◌, ◌<◌, length};

use crate::{BLOCK_SIZE, Pool};
use std::test::Fail;

/// Puts a block that repeats a byte, if there are two owners and this one may hold it there.
fn try_put(pool: &mut Pool, owner: u16, place: u8, byte: u8) -> bool
    requires { length pool.old.quotas ≡ 2 }
    ensures { pool.new.quotas ≡ pool.old.quotas }
{
    if owner >= 2 || pool.held(owner, place) || pool.free(owner) == 0 {
        return false;
    }
    pool.put(owner, place, &[byte; BLOCK_SIZE]);
    true
}

/// The byte that the block at a place repeats.
fn byte_at(pool: &Pool, owner: u16, place: u8) -> Option<u8>
    requires { owner < length pool.now.quotas }
{
    if !pool.held(owner, place) {
        return None;
    }
    let mut block = [0; BLOCK_SIZE];
    pool.copy_part(pool.chain(owner), place, &mut block);
    let byte = block[0];
    if block == [byte; BLOCK_SIZE] {
        Some(byte)
    } else {
        None
    }
}

/// Writes what an owner holds from its place 0 on, and what it holds from its place 1 on.
fn read_front(pool: &Pool, owner: u16, all: &mut [u8; 264], rest: &mut [u8; 100]) -> bool
    requires { owner < length pool.now.quotas }
{
    if !pool.held(owner, 0) || !pool.held(owner, 1) || !pool.held(owner, 2) {
        return false;
    }
    pool.copy_out(pool.chain(owner), all);
    pool.copy_part(pool.chain(owner), 1, rest);
    true
}

#[test]
fn each_owner_has_its_own_quota(rt: HostRuntime) -> Result<(), Fail> {
    let mut pool = Pool::open(rt.alloc(), &[2, 3])?;
    for (owner, place, fits) in [
        (0, 7, true),
        (0, 8, true),
        (0, 9, false),
        (1, 7, true),
        (1, 0, true),
        (1, 0, false),
        (1, 255, true),
        (1, 9, false),
    ] {
        assert!(rt;
            try_put(&mut pool, owner, place, place) == fits,
            "{owner} at {place}"
        );
    }
    assert!(rt; pool.free(0) == 0 && pool.free(1) == 0);
    Ok(())
}

#[test]
fn slots_are_used_again(rt: HostRuntime) -> Result<(), Fail> {
    let mut pool = Pool::open(rt.alloc(), &[3, 1])?;
    for place in 0..3 {
        assert!(rt; try_put(&mut pool, 0, place, place), "at {place}");
    }
    pool.clear_part(0, 1, 1);
    assert!(rt; try_put(&mut pool, 0, 200, 9));
    assert!(rt; !try_put(&mut pool, 0, 1, 1));
    for (place, byte) in [(0, Some(0)), (1, None), (2, Some(2)), (200, Some(9))] {
        assert!(rt; byte_at(&pool, 0, place) == byte, "at {place}");
    }
    pool.clear(0);
    assert!(rt; pool.free(0) == 3 && byte_at(&pool, 0, 200).is_none());
    Ok(())
}

#[test]
fn blocks_are_joined_and_cut(rt: HostRuntime) -> Result<(), Fail> {
    let mut pool = Pool::open(rt.alloc(), &[3, 3])?;
    for place in 0..3 {
        assert!(rt; try_put(&mut pool, 1, place, place), "at {place}");
    }
    let mut all = [9; 264];
    let mut rest = [9; 100];
    assert!(rt; read_front(&pool, 1, &mut all, &mut rest));
    for (i, byte) in all.iter().enumerate() {
        assert!(rt; usize::from(*byte) == i / 88, "byte {i} of all");
    }
    for (i, byte) in rest.iter().enumerate() {
        assert!(rt; usize::from(*byte) == i / 88 + 1, "byte {i} of the rest");
    }
    Ok(())
}

fn is_shared<T: Send + Sync>(_value: &T) {}

#[test]
fn pools_may_go_to_other_threads(rt: HostRuntime) -> Result<(), Fail> {
    let pool = Pool::open(rt.alloc(), &[1, 2])?;
    is_shared(&pool);
    Ok(())
}
