ghost use Rattle.std.specs.Prelude.{◌≡◌, ℕ, ◌<◌, List, [], ◌∷◌, length, IfOk, OnOk};
ghost use Rattle.levels.specs.declared.level.Party.{Party};
ghost use Rattle.machine.specs.Setup.{Setup};
ghost use Rattle.machine.specs.Files.{CallRow};
ghost use Rattle.planned_files.specs.Standing.{StandsFor};
ghost use Rattle.planned_files.specs.Answers.{IsAnswer, FitsMessage};
ghost use Rattle.planned_files.specs.inside.Kept.{is_intact_in, is_false_record};

use file_calls::write_reply;
use file_manager::{Got, Manager};
use guarantor::{Guarantor, records_have_one_content};
use levels::{Partition, Roster};
use machine::questions_ask_for_what_was_written;
use seal_core::Seal;
use std::alloc::{AllocError, Global};
use std::marker::Model;
use untrusted_store::{PlanRow, PlannedStore, Slot, StoreAction};

/// What a message to a manager unit is answered.
#[derive(Debug, Drop)]
pub enum Answer {
    /// The spelling of the reply.
    Reply(Vec<u8>),
    /// The store's answer is not intact, and yet it opens as the block that is asked for.
    FalseRecord,
}

/// The files of each level of a roster, over a store that answers by a plan.
#[derive(Drop)]
pub struct PlannedFiles<S: Seal> {
    manager: Manager<S>,
    store: PlannedStore,
    alloc: Global,
}

impl<S: Seal> Model for PlannedFiles<S> {
    ghost use Rattle.std.specs.Prelude.{◌<◌, ◌^◌, length};
    ghost use Rattle.planned_files.specs.FilesView.{FilesView};

    ghost Value = { FilesView };

    ghost view = { λ a. record { manager = a.manager; store = a.store } };

    ghost invariant = { λ a. length a.store.rows < 2 ^ 64 };
}

/// Whether the answer to a question for a slot is the record that was put there, by its action.
fn is_intact(action: StoreAction, slot: Slot) -> bool
    ensures { result ≡ is_intact_in action slot }
{
    match action {
        StoreAction::Honest => true,
        StoreAction::Of { level, version } => level == slot.level && version == slot.version,
        StoreAction::Flip { .. } => false,
        StoreAction::Gone => false,
    }
}

/// Whether the answer opened and isn't that record.
fn is_false_record(action: StoreAction, got: Option<Got>) -> bool
    ensures { result ≡ is_false_record action got }
{
    match got {
        Some(got) => got.current && !is_intact(action, got.slot),
        None => false,
    }
}

impl<S: Seal> PlannedFiles<S> {
    /// No files, and a store that was asked nothing.
    pub fn open(
        alloc: Global,
        roster: &Roster,
        rows: &[PlanRow],
        guarantor: Guarantor<S>,
    ) -> Result<PlannedFiles<S>, AllocError>
        ensures stands { IfOk result (λ files. (m : Setup) → m.roster ≡ roster.now
            → m.guard ≡ guarantor → m.rows ≡ rows.now → StandsFor m files []) }
        ensures levels { IfOk result
            (λ files. length files.manager.levels ≡ length roster.now.levels) }
    {
        let manager = Manager::open(alloc, roster, guarantor)?;
        let store = PlannedStore::open(alloc, rows)?;
        Ok(PlannedFiles {
            manager,
            store,
            alloc,
        })
    }

    /// Answers a message that is given to the manager unit of a level. After an Err the files are
    /// not to be used again.
    pub fn answer(&mut self, from: Partition, message: &[u8]) -> Result<Answer, AllocError>
        requires { from.0 < length self.old.manager.levels }
        ensures levels { self.new.manager.levels ≡ self.old.manager.levels }
        ensures stands { OnOk result ((m : Setup) (calls : List CallRow) (caller : Party)
            → m.sealed ≡ S.sealed_text → StandsFor m self.old calls
            → StandsFor m self.new
            (record { caller = caller; level = from.0; message = message.now } ∷ calls)) }
        ensures answer { IfOk result (λ answer. (m : Setup) (calls : List CallRow)
            (caller : Party) → m.sealed ≡ S.sealed_text → StandsFor m self.old calls
            → IsAnswer m calls
            (record { caller = caller; level = from.0; message = message.now }) answer) }
        ensures short { IfOk result (λ answer. FitsMessage answer) }
    {
        records_have_one_content();
        questions_ask_for_what_was_written();
        let action = self.store.next_action(from.0);
        let outcome = self.manager.call(from, message, &mut self.store)?;
        if is_false_record(action, outcome.got) {
            return Ok(Answer::FalseRecord);
        }
        let text = write_reply(self.alloc, &outcome.reply)?;
        Ok(Answer::Reply(text))
    }
}
