ghost use Rattle.std.specs.Prelude.{◌≡◌, ◌≤◌, length, IfOk};

use crate::{Answer, PlannedFiles};
use guarantor::Guarantor;
use levels::{Level, LevelName, Partition, Roster, Sealing};
use seal_core::{ClearSeal, KeyPair};
use std::alloc::Global;
use std::test::Fail;
use untrusted_store::{PlanRow, StoreAction};

/// The guarantor's keys of clear sealing.
const KEYS: KeyPair = KeyPair {
    main: [0; 8],
    check: [0xff; 8],
};

const PUT_NOTE: &[u8] = b"\x01\x04note\0\x02ab";

const GET_NOTE: &[u8] = b"\x02\0\x04note";

/// The files of two levels.
fn new_files(alloc: Global, rows: &[PlanRow]) -> Result<PlannedFiles<ClearSeal>, Fail>
    ensures { IfOk result (λ files. length files.manager.levels ≡ 2) }
{
    let mut roster = Roster::new(alloc, Sealing::Clear);
    for (name, rank, cats) in [(b"U", 0u8, 0u16), (b"S", 2, 1)] {
        let name = LevelName::new(name).ok_or("no name")?;
        if rank > 7 || roster.add_level(name, Level { rank, cats }).is_err() {
            return Err(Fail::from("no level"));
        }
    }
    if roster.level_count() != 2 {
        return Err(Fail::from("no two levels"));
    }
    let guarantor = Guarantor::open(alloc, ClearSeal, KEYS);
    Ok(PlannedFiles::open(alloc, &roster, rows, guarantor)?)
}

fn is_reply(answer: &Answer, text: &[u8]) -> bool {
    match answer {
        Answer::Reply(reply) => reply.as_slice() == text,
        Answer::FalseRecord => false,
    }
}

/// A changed record is damage, and one that is unchanged where the plan says that it is changed is
/// a false record.
#[test]
fn answers_by_the_plan(rt: HostRuntime) -> Result<(), Fail> {
    let alloc = rt.alloc();
    let low = Partition(0);
    let high = Partition(1);
    let flip = |xor| StoreAction::Flip { offset: 70, xor };
    let rows = [
        PlanRow {
            reader: high,
            action: flip(1),
        },
        PlanRow {
            reader: high,
            action: StoreAction::Of {
                level: 0,
                version: 1,
            },
        },
        PlanRow {
            reader: low,
            action: flip(0),
        },
    ];
    let mut files = new_files(alloc, &rows)?;
    let done = files.answer(low, PUT_NOTE)?;
    assert!(rt; is_reply(&done, b"\x01\0\0\0\0\0\0\0\x01"));
    let damaged = files.answer(high, GET_NOTE)?;
    assert!(rt; is_reply(&damaged, b"\x05\0\0\0\0\0\0\0\x01"));
    let whole = files.answer(high, GET_NOTE)?;
    assert!(rt; is_reply(&whole, b"\x02\0\0\0\0\0\0\0\x01\0\x02ab"));
    let bad = files.answer(low, b"\xff")?;
    assert!(rt; is_reply(&bad, b"\x09"));
    let unchanged = files.answer(low, GET_NOTE)?;
    assert!(rt; matches!(unchanged, Answer::FalseRecord));
    Ok(())
}
