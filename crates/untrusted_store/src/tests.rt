use crate::{Blob, PlanRow, PlannedStore, Slot, Store, StoreAction};
use levels::Partition;
use std::alloc::{AllocError, Global};
use std::test::Fail;

const FIRST: Slot = Slot {
    level: 0,
    version: 1,
};

const SECOND: Slot = Slot {
    level: 0,
    version: 2,
};

const OF_FIRST: StoreAction = StoreAction::Of {
    level: 0,
    version: 1,
};

fn row(reader: u8, action: StoreAction) -> PlanRow {
    PlanRow {
        reader: Partition(reader),
        action,
    }
}

/// Asks a store for a slot, through the bound: whether the answer is the record that is named.
fn answers<T: Store>(
    store: &mut T,
    slot: Slot,
    reader: u8,
    record: Option<&[u8]>,
) -> Result<bool, AllocError> {
    let found = store.get(slot, reader)?;
    Ok(match (&found, record) {
        (Some(blob), Some(bytes)) => blob.bytes() == bytes,
        (None, None) => true,
        _ => false,
    })
}

/// A store with this plan for level 0 that was given two records there.
fn two_records(alloc: Global, action: StoreAction) -> Result<PlannedStore, AllocError> {
    let mut store = PlannedStore::open(alloc, &[row(0, action)])?;
    store.put(FIRST, b"one")?;
    store.put(SECOND, b"two")?;
    Ok(store)
}

#[test]
fn an_old_record(rt: HostRuntime) -> Result<(), Fail> {
    let mut store = two_records(rt.alloc(), OF_FIRST)?;
    assert_eq!(rt; store.next_action(0), OF_FIRST);
    assert!(rt; answers(&mut store, SECOND, 0, Some(b"one"))?);
    assert_eq!(rt; store.next_action(0), StoreAction::Honest);
    assert!(rt; answers(&mut store, SECOND, 0, Some(b"two"))?);
    Ok(())
}

#[test]
fn the_record_itself(rt: HostRuntime) -> Result<(), Fail> {
    let mut store = PlannedStore::open(rt.alloc(), &[row(0, OF_FIRST)])?;
    store.put(FIRST, b"one")?;
    assert!(rt; answers(&mut store, FIRST, 0, Some(b"one"))?);
    Ok(())
}

#[test]
fn no_record(rt: HostRuntime) -> Result<(), Fail> {
    let mut store = two_records(rt.alloc(), StoreAction::Gone)?;
    assert!(rt; answers(&mut store, FIRST, 0, None)?);
    assert!(rt; answers(&mut store, FIRST, 0, Some(b"one"))?);
    Ok(())
}

/// A slot that was never put has no record, whatever the action; a dropped one keeps its record.
#[test]
fn never_put_and_dropped(rt: HostRuntime) -> Result<(), Fail> {
    let flip = StoreAction::Flip { offset: 0, xor: 1 };
    let mut store = PlannedStore::open(rt.alloc(), &[row(0, flip), row(0, OF_FIRST)])?;
    assert!(rt; answers(&mut store, SECOND, 0, None)?);
    assert!(rt; answers(&mut store, SECOND, 0, None)?);
    assert!(rt; answers(&mut store, SECOND, 0, None)?);
    store.put(SECOND, b"two")?;
    store.put(SECOND, b"three")?;
    store.drop_slot(SECOND);
    assert!(rt; answers(&mut store, SECOND, 0, Some(b"three"))?);
    Ok(())
}

#[test]
fn changed_bytes(rt: HostRuntime) -> Result<(), Fail> {
    let flip = StoreAction::Flip {
        offset: 4_294_967_294,
        xor: 0x20,
    };
    let mut store = PlannedStore::open(rt.alloc(), &[row(0, flip), row(0, flip)])?;
    store.put(FIRST, b"abc")?;
    store.put(SECOND, b"")?;
    assert!(rt; answers(&mut store, FIRST, 0, Some(b"abC"))?);
    assert!(rt; answers(&mut store, SECOND, 0, Some(b""))?);
    Ok(())
}

/// Each reader goes its own way through the plan.
#[test]
fn readers_count_for_themselves(rt: HostRuntime) -> Result<(), Fail> {
    let rows = [
        row(1, StoreAction::Gone),
        row(0, OF_FIRST),
        row(1, StoreAction::Honest),
        row(0, StoreAction::Gone),
        row(1, OF_FIRST),
    ];
    let mut store = PlannedStore::open(rt.alloc(), &rows)?;
    store.put(FIRST, b"one")?;
    store.put(SECOND, b"two")?;
    assert!(rt; answers(&mut store, SECOND, 2, Some(b"two"))?);
    assert!(rt; answers(&mut store, SECOND, 1, None)?);
    assert!(rt; answers(&mut store, SECOND, 0, Some(b"one"))?);
    assert!(rt; answers(&mut store, SECOND, 1, Some(b"two"))?);
    assert!(rt; answers(&mut store, SECOND, 1, Some(b"one"))?);
    assert!(rt; answers(&mut store, SECOND, 0, None)?);
    assert!(rt; answers(&mut store, SECOND, 0, Some(b"two"))?);
    assert_eq!(rt; store.next_action(255), StoreAction::Honest);
    Ok(())
}

#[test]
fn blobs(rt: HostRuntime) -> Result<(), Fail> {
    let blob = Blob::new(rt.alloc(), b"\x00\xff")?;
    assert!(rt; blob.bytes() == b"\x00\xff".as_slice());
    Ok(())
}
