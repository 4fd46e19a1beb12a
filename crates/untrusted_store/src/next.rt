ghost use Rattle.std.specs.Prelude.{◌≡◌, ◌<◌, ◌^◌, length, drop, map, replicate, IfOk};
ghost use Rattle.untrusted_store.specs.Telling.{one_more};
ghost use Rattle.untrusted_store.specs.Planned.{actions};
ghost use Rattle.untrusted_store.specs.inside.Ahead.{IsNext, IsAhead, AreAhead};

use crate::asked::Asked;
use crate::plan::PlanRow;
use std::alloc::{AllocError, Global};

/// The numbers that a reader can have.
const READERS: usize = 256;

/// The place of a reader's first row from a place on, or the end.
fn next_place(rows: &[PlanRow], start: usize, reader: u8) -> usize
    ensures same { actions (drop result rows.now) reader ≡ actions (drop start rows.now) reader }
    ensures next { IsNext rows.now reader result }
{
    for place in start..rows.len() {
        if rows[place].reader.0 == reader {
            return place;
        }
    }
    rows.len()
}

/// The state of a reader after one more question.
pub fn asked_more(rows: &[PlanRow], asked: Asked, reader: u8) -> Asked
    requires ahead { IsAhead rows.now reader asked }
    requires few { length rows.now < 2 ^ 64 }
    ensures count { result.count ≡ one_more asked.count }
    ensures ahead { IsAhead rows.now reader result }
{
    let count = asked.count.saturating_add(1);
    let place = asked.place;
    if place < rows.len() {
        let place = next_place(rows, place + 1, reader);
        return Asked { count, place };
    }
    Asked { count, place }
}

/// The states of all readers before any question.
pub fn first_states(alloc: Global, rows: &[PlanRow]) -> Result<Vec<Asked>, AllocError>
    ensures ahead { IfOk result (λ readers. AreAhead rows.now readers.items) }
    ensures unasked { IfOk result (λ readers.
        map (λ asked. asked.count) readers.items ≡ replicate 256 0) }
{
    let end = Asked {
        count: 0,
        place: rows.len(),
    };
    let mut readers = vec![in alloc; end; READERS]?;
    for place in (0..rows.len()).rev() {
        let reader = rows[place].reader.0;
        readers[reader as usize] = Asked { count: 0, place };
    }
    Ok(readers)
}
