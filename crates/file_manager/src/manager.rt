ghost use Rattle.std.specs.Prelude.{◌≡◌, ℕ, ◌<◌, ◌↔◌, List, [], ◌∷◌, length, map, replicate, IsTrue, IfOk, OnOk, OnErr};
ghost use Rattle.levels.specs.declared.level.Party.{Party};
ghost use Rattle.levels.specs.Rosters.{RosterView};
ghost use Rattle.file_calls.specs.Spelling.{call_of, HasCount};
ghost use Rattle.machine.specs.Files.{CallRow};
ghost use Rattle.machine.specs.Replies.{sight, question_by, reply_with};
ghost use Rattle.file_manager.specs.Standing.{StandsFor};
ghost use Rattle.file_manager.specs.Effects.{last_after, asked_after, writing_by, MakesChange};
ghost use Rattle.file_manager.specs.Outcomes.{IsOutcome};
ghost use Rattle.file_manager.specs.inside.Shelves.{empty_shelf, shelves_after};
ghost use Rattle.file_manager.specs.inside.Sights.{sight_in};

use crate::calls::answer;
use crate::outcome::Outcome;
use crate::shelf::Shelf;
use file_calls::{Reply, read_call};
use guarantor::Guarantor;
use levels::{Level, Partition, Roster};
use seal_core::Seal;
use std::alloc::{AllocError, Global};
use std::marker::Model;
use untrusted_store::Store;

/// The files of each level of a roster.
#[derive(Drop)]
pub struct Manager<S: Seal> {
    levels: Vec<Level>,
    shelves: Vec<Shelf>,
    guarantor: Guarantor<S>,
    alloc: Global,
}

impl<S: Seal> Model for Manager<S> {
    ghost use Rattle.std.specs.Prelude.{◌≡◌, length};
    ghost use Rattle.file_manager.specs.ManagerView.{ManagerView};

    ghost Value = { ManagerView };

    ghost view = { λ a. record {
      levels = a.levels.items;
      shelves = a.shelves.items;
      keys = a.guarantor;
    } };

    ghost invariant = { λ a. length a.shelves.items ≡ length a.levels.items };
}

/// The levels of a roster, in order.
fn levels_of(alloc: Global, roster: &Roster) -> Result<Vec<Level>, AllocError>
    ensures { IfOk result (λ levels. levels.items ≡ map (λ row. row.level) roster.now.levels) }
{
    let mut levels = Vec::new(alloc);
    for i in 0..roster.level_count() {
        levels.push(roster.level_at(Partition(i)))?;
    }
    Ok(levels)
}

fn empty_shelves(alloc: Global, count: usize) -> Result<Vec<Shelf>, AllocError>
    ensures { IfOk result (λ shelves. shelves.items ≡ replicate count empty_shelf) }
{
    let mut shelves = Vec::new(alloc);
    for _made in 0..count {
        shelves.push(Shelf::new(alloc))?;
    }
    Ok(shelves)
}

impl<S: Seal> Manager<S> {
    /// A manager that has no files.
    pub fn open(
        alloc: Global,
        roster: &Roster,
        guarantor: Guarantor<S>,
    ) -> Result<Manager<S>, AllocError>
        ensures stands { IfOk result (λ manager. StandsFor roster.now manager []) }
        ensures keys { IfOk result (λ manager. manager.keys ≡ guarantor) }
    {
        let levels = levels_of(alloc, roster)?;
        let shelves = empty_shelves(alloc, levels.len())?;
        Ok(Manager {
            levels,
            shelves,
            guarantor,
            alloc,
        })
    }

    /// Whether the roster had this partition.
    #[cfg(test)]
    pub(crate) fn has_level(&self, partition: Partition) -> bool
        ensures { IsTrue result ↔ (partition.0 < length self.now.levels) }
    {
        usize::from(partition.0) < self.levels.len()
    }

    /// The same as `call`, by what is kept.
    #[tactic(auto, unfolding(machine::specs::Replies::question_by, machine::specs::Replies::reply_with))]
    fn call_kept<T: Store>(
        &mut self,
        from: Partition,
        message: &[u8],
        store: &mut T,
    ) -> Result<Outcome, AllocError>
        requires { from.0 < length self.old.levels }
        ensures within { from.0 < length self.old.shelves }
        ensures fits { length self.old.shelves ≡ length self.old.levels }
        ensures rows { T.rows store.new ≡ T.rows store.old }
        ensures last { let s = sight_in self.old.levels self.old.shelves from.0 in
            let w = writing_by s (call_of message.now) in
            MakesChange result (T.last store.old)
            (last_after S.sealed_text self.old.keys from.0 w (T.last store.old))
            (T.last store.new) }
        ensures asked { let s = sight_in self.old.levels self.old.shelves from.0 in
            let question = question_by s (call_of message.now) in
            MakesChange result (T.asked store.old)
            (asked_after from.0 question (T.asked store.old)) (T.asked store.new) }
        ensures outcome { let s = sight_in self.old.levels self.old.shelves from.0 in
            let call = call_of message.now in
            IfOk result (λ outcome.
            IsOutcome S.sealed_text self.old.keys from.0 (T.next store.old)
            (question_by s call) (λ opened. reply_with s opened call) outcome) }
        ensures count { IfOk result (λ outcome. HasCount outcome.reply) }
        ensures ok { OnOk result (self.new ≡ record self.old {
          shelves = shelves_after from.0 (call_of message.now) self.old.shelves;
        }) }
        ensures err { OnErr result (self.new ≡ self.old) }
    {
        let Some(call) = read_call(self.alloc, message)? else {
            return Ok(Outcome::unasked(Reply::Bad));
        };
        answer(
            self.alloc,
            &self.guarantor,
            &self.levels,
            &mut self.shelves,
            from.0,
            call,
            store,
        )
    }

    /// Answers a message that is given to the manager unit of a level. For a question it asks the
    /// store once, whatever the number of files. A Put over a file and a Remove drop the slots of
    /// the old blocks.
    pub fn call<T: Store>(
        &mut self,
        from: Partition,
        message: &[u8],
        store: &mut T,
    ) -> Result<Outcome, AllocError>
        requires { from.0 < length self.old.levels }
        ensures levels { self.new.levels ≡ self.old.levels }
        ensures keys { self.new.keys ≡ self.old.keys }
        ensures stands { OnOk result ((roster : RosterView) (calls : List CallRow) (caller : Party)
            → StandsFor roster self.old calls
            → StandsFor roster self.new
            (record { caller = caller; level = from.0; message = message.now } ∷ calls)) }
        ensures stopped { OnErr result (self.new ≡ self.old) }
        ensures outcome { IfOk result (λ outcome. (roster : RosterView) (calls : List CallRow)
            → StandsFor roster self.old calls
            → (let s = sight roster from.0 calls in
            let call = call_of message.now in
            IsOutcome S.sealed_text self.old.keys from.0 (T.next store.old)
            (question_by s call) (λ opened. reply_with s opened call) outcome)) }
        ensures count { IfOk result (λ outcome. HasCount outcome.reply) }
        ensures rows { T.rows store.new ≡ T.rows store.old }
        ensures last { (roster : RosterView) (calls : List CallRow)
            → StandsFor roster self.old calls
            → (let w = writing_by (sight roster from.0 calls) (call_of message.now) in
            MakesChange result (T.last store.old)
            (last_after S.sealed_text self.old.keys from.0 w (T.last store.old))
            (T.last store.new)) }
        ensures asked { (roster : RosterView) (calls : List CallRow)
            → StandsFor roster self.old calls
            → (let question = question_by (sight roster from.0 calls) (call_of message.now) in
            MakesChange result (T.asked store.old)
            (asked_after from.0 question (T.asked store.old)) (T.asked store.new)) }
    {
        self.call_kept(from, message, store)
    }
}
