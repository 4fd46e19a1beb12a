ghost use Rattle.std.specs.Prelude.{◌≡◌, ℕ, ◌<◌, length, Some, IfOk, OnOk, OnErr, slice_set};
ghost use Rattle.std.specs.Option.{option_copied};
ghost use Rattle.file_calls.specs.Spelling.{HasCount};
ghost use Rattle.machine.specs.Replies.{question_by, reply_with};
ghost use Rattle.file_manager.specs.Effects.{last_after, asked_after, writing_by, MakesChange};
ghost use Rattle.file_manager.specs.Outcomes.{IsOutcome};
ghost use Rattle.file_manager.specs.inside.Shelves.{shelf_at, shelf_after};
ghost use Rattle.file_manager.specs.inside.Sights.{is_below_in, shelf_below, sight_in};

use crate::outcome::Outcome;
use crate::read::{Wanted, list, read};
use crate::shelf::Shelf;
use crate::write::{append, put, remove};
use file_calls::Call;
use guarantor::Guarantor;
use levels::Level;
use seal_core::Seal;
use std::alloc::{AllocError, Global};
use untrusted_store::Store;

/// Whether level q is at or below level p.
fn is_below(levels: &[Level], q: u8, p: u8) -> bool
    ensures { result ≡ is_below_in levels.now q p }
{
    match (levels.get(usize::from(q)), levels.get(usize::from(p))) {
        (Some(x), Some(y)) => x.at_most(y),
        (Some(_), None) => false,
        (None, _) => false,
    }
}

/// The shelf of level q, where level p may read it.
fn shelf_below<'a>(levels: &[Level], shelves: &'a [Shelf], q: u8, p: u8) -> Option<&'a Shelf>
    ensures { option_copied result ≡ shelf_below levels.now shelves.now q p }
{
    if is_below(levels, q, p) {
        shelves.get(usize::from(q))
    } else {
        None
    }
}

/// Answers a call of a level.
#[tactic(auto, unfolding(machine::specs::Replies::question_by, machine::specs::Replies::reply_with, machine::specs::Files::writing))]
pub fn answer<S: Seal, T: Store>(
    alloc: Global,
    guarantor: &Guarantor<S>,
    levels: &[Level],
    shelves: &mut [Shelf],
    from: u8,
    call: Call,
    store: &mut T,
) -> Result<Outcome, AllocError>
    requires { from < length shelves.old }
    ensures rows { T.rows store.new ≡ T.rows store.old }
    ensures last { let w = writing_by (sight_in levels.now shelves.old from) (Some call) in
        MakesChange result (T.last store.old)
        (last_after S.sealed_text guarantor.now from w (T.last store.old)) (T.last store.new) }
    ensures asked { let question = question_by (sight_in levels.now shelves.old from) (Some call) in
        MakesChange result (T.asked store.old) (asked_after from question (T.asked store.old))
        (T.asked store.new) }
    ensures outcome { let s = sight_in levels.now shelves.old from in
        IfOk result (λ outcome. IsOutcome S.sealed_text guarantor.now from (T.next store.old)
        (question_by s (Some call)) (λ opened. reply_with s opened (Some call)) outcome) }
    ensures count { IfOk result (λ outcome. HasCount outcome.reply) }
    ensures ok { OnOk result (shelves.new
        ≡ slice_set shelves.old from (shelf_after call (shelf_at shelves.old from))) }
    ensures err { OnErr result (shelves.new ≡ shelves.old) }
{
    match call {
        Call::Put { name, content } => {
            let own = &mut shelves[usize::from(from)];
            let reply = put(alloc, guarantor, own, from, name, &content, store)?;
            Ok(Outcome::unasked(reply))
        }
        Call::Append { name, content } => {
            let own = &mut shelves[usize::from(from)];
            let reply = append(alloc, guarantor, own, from, name, &content, store)?;
            Ok(Outcome::unasked(reply))
        }
        Call::Remove { name } => {
            let own = &mut shelves[usize::from(from)];
            let reply = remove(own, from, &name, store);
            Ok(Outcome::unasked(reply))
        }
        Call::Get { level, name } => {
            let shelf = shelf_below(levels, shelves, level, from);
            read(guarantor, shelf, level, &name, Wanted::First, from, store)
        }
        Call::GetBlock { level, name, block } => {
            let shelf = shelf_below(levels, shelves, level, from);
            let wanted = Wanted::Numbered(block);
            read(guarantor, shelf, level, &name, wanted, from, store)
        }
        Call::List { level } => {
            let shelf = shelf_below(levels, shelves, level, from);
            let reply = list(alloc, shelf)?;
            Ok(Outcome::unasked(reply))
        }
    }
}
