ghost use Rattle.std.specs.Prelude.{◌≤◌, None, IfOk};
ghost use Rattle.file_calls.specs.Spelling.{HasCount};

use crate::{Got, Manager, Outcome};
use file_calls::{Call, Content, Name, Reply, write_call, write_reply};
use guarantor::Guarantor;
use levels::{Level, LevelName, Partition, Roster, Sealing};
use seal_core::{ClearSeal, KeyPair};
use std::alloc::{AllocError, Global};
use std::test::Fail;
use untrusted_store::{Blob, PlanRow, PlannedStore, Slot, Store, StoreAction};

/// The guarantor's keys of clear sealing.
const KEYS: KeyPair = KeyPair {
    main: [0; 8],
    check: [0xff; 8],
};

/// The lower of two levels, and the higher one.
const LOW: u8 = 0;

const HIGH: u8 = 1;

const PUT_NOTE: &[u8] = b"\x01\x04note\0\x02ab";

const GET_NOTE: &[u8] = b"\x02\0\x04note";

const DONE_1: &[u8] = b"\x01\0\0\0\0\0\0\0\x01";

const DONE_2: &[u8] = b"\x01\0\0\0\0\0\0\0\x02";

/// A level with a message from it, and the spelling of the reply.
type Row<'a> = (u8, &'a [u8], &'a [u8]);

fn add_level(roster: &mut Roster, name: &[u8], level: Level) -> Result<(), Fail>
    requires { level.rank ≤ 7 }
{
    let name = LevelName::new(name).ok_or("no name")?;
    if roster.add_level(name, level).is_err() {
        return Err(Fail::from("no level"));
    }
    Ok(())
}

fn new_manager(alloc: Global) -> Result<Manager<ClearSeal>, Fail> {
    let mut roster = Roster::new(alloc, Sealing::Clear);
    add_level(&mut roster, b"U", Level { rank: 0, cats: 0 })?;
    add_level(&mut roster, b"S", Level { rank: 2, cats: 1 })?;
    let guarantor = Guarantor::open(alloc, ClearSeal, KEYS);
    Ok(Manager::open(alloc, &roster, guarantor)?)
}

/// What a message of a level is answered.
fn ask<T: Store>(
    manager: &mut Manager<ClearSeal>,
    store: &mut T,
    from: u8,
    message: &[u8],
) -> Result<Outcome, Fail>
    ensures { IfOk result (λ outcome. HasCount outcome.reply) }
{
    let from = Partition(from);
    if !manager.has_level(from) {
        return Err(Fail::from("no level"));
    }
    Ok(manager.call(from, message, store)?)
}

/// Whether each message in turn is answered so, over a store with this plan.
fn are_answered(alloc: Global, plan: &[PlanRow], rows: &[Row]) -> Result<bool, Fail> {
    let mut manager = new_manager(alloc)?;
    let mut store = PlannedStore::open(alloc, plan)?;
    for (from, message, want) in rows {
        let outcome = ask(&mut manager, &mut store, *from, message)?;
        let text = write_reply(alloc, &outcome.reply)?;
        if text.as_slice() != *want {
            return Ok(false);
        }
    }
    Ok(true)
}

fn planned(reader: u8, action: StoreAction) -> PlanRow {
    PlanRow {
        reader: Partition(reader),
        action,
    }
}

/// The first version of the lower level.
const OF_FIRST: StoreAction = StoreAction::Of {
    level: LOW,
    version: 1,
};

#[test]
fn reads_down_and_not_up(rt: HostRuntime) -> Result<(), Fail> {
    let rows: [Row; 5] = [
        (LOW, PUT_NOTE, DONE_1),
        (HIGH, GET_NOTE, b"\x02\0\0\0\0\0\0\0\x01\0\x02ab"),
        (LOW, b"\x02\x01\x04plan", b"\x03"),
        (HIGH, b"\x01\x04plan\0\0", DONE_1),
        (LOW, b"\x02\x01\x04plan", b"\x03"),
    ];
    assert!(rt; are_answered(rt.alloc(), &[], &rows)?);
    Ok(())
}

#[test]
fn old_records_are_damage(rt: HostRuntime) -> Result<(), Fail> {
    let first: Row = (LOW, b"\x01\x04note\0\x01a", DONE_1);
    let second: Row = (LOW, b"\x01\x04note\0\x01b", DONE_2);
    let old = [planned(LOW, OF_FIRST)];
    let damaged: Row = (LOW, GET_NOTE, b"\x05\0\0\0\0\0\0\0\x02");
    assert!(rt; are_answered(rt.alloc(), &old, &[first, second, damaged])?);
    let whole: Row = (LOW, GET_NOTE, b"\x02\0\0\0\0\0\0\0\x01\0\x01a");
    assert!(rt; are_answered(rt.alloc(), &old, &[first, whole])?);
    let gone = [planned(LOW, StoreAction::Gone)];
    let lost: Row = (LOW, GET_NOTE, b"\x05\0\0\0\0\0\0\0\x01");
    assert!(rt; are_answered(rt.alloc(), &gone, &[first, lost])?);
    Ok(())
}

#[test]
fn lists_and_removes(rt: HostRuntime) -> Result<(), Fail> {
    let rows: [Row; 7] = [
        (LOW, PUT_NOTE, DONE_1),
        (LOW, b"\x01\x05a.txt\0\x01a", DONE_2),
        (LOW, b"\x03\0", b"\x08\x02\x05a.txt\x04note"),
        (LOW, b"\x04\x04note", b"\x07"),
        (LOW, b"\x04\x04note", b"\x04"),
        (LOW, b"\xff", b"\x09"),
        (LOW, b"\x03\x01", b"\x03"),
    ];
    assert!(rt; are_answered(rt.alloc(), &[], &rows)?);
    Ok(())
}

#[test]
fn files_have_blocks(rt: HostRuntime) -> Result<(), Fail> {
    let put: Row = (LOW, b"\x01\x03big\0\x01a", DONE_1);
    let append: Row = (LOW, b"\x05\x03big\0\x01b", DONE_2);
    let block: &[u8] = b"\x06\0\x03big\x01";
    let rows: [Row; 6] = [
        put,
        append,
        (HIGH, block, b"\x0a\0\0\0\0\0\0\0\x02\x02\0\x01b"),
        (HIGH, b"\x06\0\x03big\x02", b"\x0b\x02"),
        (LOW, b"\x05\x04none\0\x01\0", b"\x04"),
        (LOW, b"\x06\x01\x03big\0", b"\x03"),
    ];
    assert!(rt; are_answered(rt.alloc(), &[], &rows)?);
    let old = [planned(HIGH, OF_FIRST)];
    let damaged: Row = (HIGH, block, b"\x05\0\0\0\0\0\0\0\x02");
    assert!(rt; are_answered(rt.alloc(), &old, &[put, append, damaged])?);
    Ok(())
}

/// A Put of a name that ends in a number, or an Append.
fn numbered(alloc: Global, number: u8, is_put: bool, content: &[u8]) -> Result<Vec<u8>, Fail> {
    let digits = [number / 100, number / 10 % 10, number % 10];
    let text = [b'n', b'0' + digits[0], b'0' + digits[1], b'0' + digits[2]];
    let name = Name::new(alloc, &text)?.ok_or("no name")?;
    let content = Content::new(alloc, content)?.ok_or("no content")?;
    if is_put {
        Ok(write_call(alloc, &Call::Put { name, content })?)
    } else {
        Ok(write_call(alloc, &Call::Append { name, content })?)
    }
}

/// 128 files of a level, and 64 blocks of a file of 4,096 bytes each.
#[test]
fn limits(rt: HostRuntime) -> Result<(), Fail> {
    let alloc = rt.alloc();
    let mut manager = new_manager(alloc)?;
    let mut store = PlannedStore::open(alloc, &[])?;
    for number in 0..128u8 {
        let put = numbered(alloc, number, true, b"")?;
        let outcome = ask(&mut manager, &mut store, LOW, &put)?;
        assert!(rt; matches!(outcome.reply, Reply::Done(n) if n == u64::from(number) + 1));
    }
    let put = numbered(alloc, 128, true, b"")?;
    let outcome = ask(&mut manager, &mut store, LOW, &put)?;
    assert!(rt; matches!(outcome.reply, Reply::Full));
    let whole = vec![in alloc; 0xff; 4096]?;
    let put = numbered(alloc, 0, true, &whole)?;
    let outcome = ask(&mut manager, &mut store, LOW, &put)?;
    assert!(rt; matches!(outcome.reply, Reply::Done(0x81)));
    let append = numbered(alloc, 0, false, &whole)?;
    for block in 1..64u8 {
        let outcome = ask(&mut manager, &mut store, LOW, &append)?;
        assert!(rt; matches!(outcome.reply, Reply::Done(n) if n == 0x81 + u64::from(block)));
    }
    let outcome = ask(&mut manager, &mut store, LOW, &append)?;
    assert!(rt; matches!(outcome.reply, Reply::Full));
    let outcome = ask(&mut manager, &mut store, HIGH, b"\x06\0\x04n000\x3f")?;
    let Reply::Block {
        version,
        count,
        content,
    } = outcome.reply
    else {
        return Err(Fail::from("no block"));
    };
    assert!(rt; (version, count) == (0xc0, 64) && content.bytes() == whole.as_slice());
    let outcome = ask(&mut manager, &mut store, HIGH, PUT_NOTE)?;
    assert!(rt; matches!(outcome.reply, Reply::Done(1)));
    Ok(())
}

/// A store that tells nothing: it answers each question with the same bytes, and notes what is
/// dropped.
#[derive(Drop)]
struct Liar {
    answer: Option<Vec<u8>>,
    dropped: Vec<u64>,
    alloc: Global,
}

impl Store for Liar {
    ghost rows = { λ s. None };

    ghost last = { λ s. None };

    ghost asked = { λ s. None };

    ghost next = { λ s. None };

    fn put(&mut self, _slot: Slot, _bytes: &[u8]) -> Result<(), AllocError> {
        Ok(())
    }

    fn get(&mut self, _slot: Slot, _reader: u8) -> Result<Option<Blob>, AllocError> {
        match &self.answer {
            Some(bytes) => Ok(Some(Blob::new(self.alloc, bytes)?)),
            None => Ok(None),
        }
    }

    fn drop_slot(&mut self, slot: Slot) {
        let _noted = self.dropped.push(slot.version);
    }
}

#[test]
fn answers_are_opened(rt: HostRuntime) -> Result<(), Fail> {
    let alloc = rt.alloc();
    let mut manager = new_manager(alloc)?;
    let mut store = Liar {
        answer: None,
        dropped: Vec::new(alloc),
        alloc,
    };
    ask(&mut manager, &mut store, LOW, PUT_NOTE)?;
    let slot = Slot {
        level: LOW,
        version: 1,
    };
    let guarantor = Guarantor::open(alloc, ClearSeal, KEYS);
    let name = Name::new(alloc, b"note")?.ok_or("no name")?;
    store.answer = Some(guarantor.seal_record(LOW, &name, 0, 1, b"xyz")?);
    let outcome = ask(&mut manager, &mut store, HIGH, GET_NOTE)?;
    assert!(rt;
        outcome.got
            == Some(Got {
                slot,
                current: true
            })
    );
    assert!(rt;
        write_reply(alloc, &outcome.reply)?.as_slice()
            == b"\x02\0\0\0\0\0\0\0\x01\0\x03xyz".as_slice()
    );
    for (block, version) in [(1u8, 1u64), (0, 2)] {
        store.answer = Some(guarantor.seal_record(LOW, &name, block, version, b"ab")?);
        let outcome = ask(&mut manager, &mut store, HIGH, GET_NOTE)?;
        assert!(rt;
            outcome.got
                == Some(Got {
                    slot,
                    current: false
                })
        );
        assert!(rt; matches!(outcome.reply, Reply::Damaged(1)));
    }
    let outcome = ask(&mut manager, &mut store, LOW, b"\x03\0")?;
    assert!(rt; outcome.got.is_none());
    Ok(())
}

#[test]
fn old_slots_are_dropped(rt: HostRuntime) -> Result<(), Fail> {
    let alloc = rt.alloc();
    let mut manager = new_manager(alloc)?;
    let mut store = Liar {
        answer: None,
        dropped: Vec::new(alloc),
        alloc,
    };
    ask(&mut manager, &mut store, LOW, PUT_NOTE)?;
    ask(&mut manager, &mut store, LOW, b"\x05\x04note\0\0")?;
    assert!(rt; store.dropped.is_empty());
    ask(&mut manager, &mut store, LOW, PUT_NOTE)?;
    assert!(rt; store.dropped.as_slice() == [1u64, 2].as_slice());
    ask(&mut manager, &mut store, LOW, b"\x05\x04note\0\0")?;
    ask(&mut manager, &mut store, LOW, b"\x04\x04note")?;
    assert!(rt; store.dropped.as_slice() == [1u64, 2, 3, 4].as_slice());
    Ok(())
}
