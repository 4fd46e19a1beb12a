ghost use Rattle.std.specs.Prelude.{◌≡◌, [], Some, IfOk, replicate};
ghost use Rattle.std.specs.BTreeMap.{get as tree_get};
ghost use Rattle.untrusted_store.specs.Planned.{slot_cmp, last_in, asked_by, action_at, flipped, answer_by, next_answer};

use crate::asked::Asked;
use crate::next::{asked_more, first_states};
use crate::plan::{PlanRow, StoreAction};
use crate::slot::{Blob, Slot};
use crate::store::Store;
use std::alloc::{AllocError, Global};
use std::collections::BTreeMap;
use std::marker::Model;

/// A store that keeps every record and answers by a plan: the k-th question of a reader by the
/// k-th action that the plan has for it, and as an honest store past the last one.
#[derive(Drop)]
pub struct PlannedStore {
    rows: Vec<PlanRow>,
    records: BTreeMap<Slot, Blob>,
    readers: Vec<Asked>,
    alloc: Global,
}

impl Model for PlannedStore {
    ghost use Rattle.untrusted_store.specs.Planned.{PlannedView};

    ghost Value = { PlannedView };

    ghost use Rattle.untrusted_store.specs.inside.Store.{view_of, IsPlanned};

    ghost view = { view_of };

    ghost invariant = { IsPlanned };
}

/// A copy of the record that was put last in a slot.
fn record_in(
    alloc: Global,
    records: &BTreeMap<Slot, Blob>,
    slot: Slot,
) -> Result<Option<Blob>, AllocError>
    ensures { IfOk result (λ found. found ≡ tree_get slot_cmp records.now slot) }
{
    match records.get(&slot) {
        Some(record) => {
            let copy = Blob::new(alloc, record.bytes())?;
            Ok(Some(copy))
        }
        None => Ok(None),
    }
}

/// A record with one byte changed.
fn flip(alloc: Global, whole: &Blob, offset: u32, xor: u8) -> Result<Blob, AllocError>
    ensures { IfOk result (λ blob. blob ≡ flipped offset xor whole.now) }
{
    let mut bytes = Vec::from_slice(alloc, whole.bytes())?;
    let length = bytes.len();
    if length > 0 {
        let place = offset as usize % length;
        bytes[place] ^= xor;
    }
    Blob::new(alloc, &bytes)
}

impl PlannedStore {
    pub fn open(alloc: Global, rows: &[PlanRow]) -> Result<PlannedStore, AllocError>
        ensures { IfOk result (λ store. store
            ≡ record { rows = rows.now; records = []; asked = replicate 256 0 }) }
    {
        let readers = first_states(alloc, rows)?;
        let rows = Vec::from_slice(alloc, rows)?;
        Ok(PlannedStore {
            rows,
            records: BTreeMap::new(alloc),
            readers,
            alloc,
        })
    }

    /// The action for the reader's next question.
    pub fn next_action(&self, reader: u8) -> StoreAction
        ensures { result ≡ action_at self.now.rows reader (asked_by self.now reader) }
    {
        let asked = self.readers[reader as usize];
        match self.rows.get(asked.place) {
            Some(row) => row.action,
            None => StoreAction::Honest,
        }
    }

    /// The answer of an action for a slot.
    fn answer(&self, slot: Slot, action: StoreAction) -> Result<Option<Blob>, AllocError>
        ensures { IfOk result (λ answer. answer ≡ answer_by (last_in self.now) slot action) }
    {
        match action {
            StoreAction::Honest => record_in(self.alloc, &self.records, slot),
            StoreAction::Of { level, version } => {
                record_in(self.alloc, &self.records, Slot { level, version })
            }
            StoreAction::Flip { offset, xor } => {
                match record_in(self.alloc, &self.records, slot)? {
                    Some(record) => Ok(Some(flip(self.alloc, &record, offset, xor)?)),
                    None => Ok(None),
                }
            }
            StoreAction::Gone => Ok(None),
        }
    }
}

impl Store for PlannedStore {
    ghost rows = { λ s. Some s.rows };

    ghost last = { λ s. Some (last_in s) };

    ghost asked = { λ s. Some (asked_by s) };

    ghost next = { λ s. Some (next_answer s) };

    fn put(&mut self, slot: Slot, bytes: &[u8]) -> Result<(), AllocError> {
        let record = Blob::new(self.alloc, bytes)?;
        self.records.insert(slot, record)?;
        Ok(())
    }

    fn get(&mut self, slot: Slot, reader: u8) -> Result<Option<Blob>, AllocError> {
        let answer = self.answer(slot, self.next_action(reader))?;
        let asked = self.readers[reader as usize];
        self.readers[reader as usize] = asked_more(&self.rows, asked, reader);
        Ok(answer)
    }

    fn drop_slot(&mut self, _slot: Slot) {}
}
