ghost use Rattle.std.specs.Prelude.{◌≡◌, ℕ, ◌<◌, ◌≤◌, ◌^◌, Some, IfOk};
ghost use Rattle.std.specs.Option.{option_copied};
ghost use Rattle.std.specs.Map.{keys_of};
ghost use Rattle.file_calls.specs.declared.call.Reply.TheVariants.{Names};
ghost use Rattle.file_calls.specs.Spelling.{HasCount};
ghost use Rattle.machine.specs.Replies.{question_for, question_in, if_below};
ghost use Rattle.file_manager.specs.Effects.{asked_after, MakesChange};
ghost use Rattle.file_manager.specs.Outcomes.{OpensAsBlock, WasOpened, IsOutcome};
ghost use Rattle.file_manager.specs.inside.Sights.{names_in, number_of, found_as, read_reply};

use crate::outcome::{Got, Outcome};
use crate::shelf::Shelf;
use file_calls::{Content, Name, Reply};
use guarantor::{CheckStop, Guarantor, records_have_one_content};
use seal_core::Seal;
use std::alloc::{AllocError, Global};
use untrusted_store::{Slot, Store};

/// Which block of a file is wanted: the first one, or the one of this number.
#[derive(Clone, Copy, Debug, PartialEq, Eq)]
pub enum Wanted {
    First,
    Numbered(u8),
}

impl Wanted {
    fn number(self) -> u8
        ensures { result ≡ number_of self }
    {
        match self {
            Wanted::First => 0,
            Wanted::Numbered(block) => block,
        }
    }

    /// The reply with the block, of a file that has so many.
    fn reply(self, count: u8, version: u64, content: Content) -> Reply
        requires { (1 ≤ count) × (count ≤ 64) }
        ensures reply { result ≡ found_as self count version content }
        ensures count { HasCount result }
    {
        match self {
            Wanted::First => Reply::Bytes { version, content },
            Wanted::Numbered(_) => Reply::Block {
                version,
                count,
                content,
            },
        }
    }
}

/// The content of a block, where a text is its record.
fn open_record<S: Seal>(
    guarantor: &Guarantor<S>,
    text: &[u8],
    slot: Slot,
    name: &Name,
    block: u8,
) -> Result<Option<Content>, AllocError>
    requires block { block ≤ 63 }
    requires version { slot.version < 2 ^ 56 }
    ensures { let question = question_for slot.level name.now block slot.version in
        IfOk result (λ opened.
        OpensAsBlock S.sealed_text guarantor.now question (Some text.now) opened) }
{
    records_have_one_content();
    let _bytes = name.bytes();
    match guarantor.check(text, slot.level, name, block, slot.version) {
        Ok(content) => Ok(Some(content)),
        Err(CheckStop::Damage(_)) => Ok(None),
        Err(CheckStop::OutOfMemory) => Err(AllocError),
    }
}

/// Asks the store for a block, and opens its answer.
fn open_block<S: Seal, T: Store>(
    guarantor: &Guarantor<S>,
    slot: Slot,
    name: &Name,
    block: u8,
    reader: u8,
    store: &mut T,
) -> Result<Option<Content>, AllocError>
    requires block { block ≤ 63 }
    requires version { slot.version < 2 ^ 56 }
    ensures rows { T.rows store.new ≡ T.rows store.old }
    ensures last { T.last store.new ≡ T.last store.old }
    ensures asked { let question = question_for slot.level name.now block slot.version in
        MakesChange result (T.asked store.old)
        (asked_after reader (Some question) (T.asked store.old)) (T.asked store.new) }
    ensures opened { let question = question_for slot.level name.now block slot.version in
        IfOk result (λ opened. WasOpened S.sealed_text guarantor.now reader (T.next store.old)
        (Some question) opened) }
{
    match store.get(slot, reader)? {
        Some(blob) => open_record(guarantor, blob.bytes(), slot, name, block),
        None => Ok(None),
    }
}

/// Answers with a block of a level's file; the shelf is there where the level may be read.
pub fn read<S: Seal, T: Store>(
    guarantor: &Guarantor<S>,
    shelf: Option<&Shelf>,
    level: u8,
    name: &Name,
    wanted: Wanted,
    reader: u8,
    store: &mut T,
) -> Result<Outcome, AllocError>
    ensures rows { T.rows store.new ≡ T.rows store.old }
    ensures last { T.last store.new ≡ T.last store.old }
    ensures asked { let below = names_in (option_copied shelf.entry) in
        let question = question_in level name.now (number_of wanted) below in
        MakesChange result (T.asked store.old) (asked_after reader question (T.asked store.old))
        (T.asked store.new) }
    ensures outcome { let below = names_in (option_copied shelf.entry) in
        let question = question_in level name.now (number_of wanted) below in
        IfOk result (λ outcome. IsOutcome S.sealed_text guarantor.now reader (T.next store.old)
        question (read_reply below name.now wanted) outcome) }
    ensures count { IfOk result (λ outcome. HasCount outcome.reply) }
{
    let Some(shelf) = shelf else {
        return Ok(Outcome::unasked(Reply::Refused));
    };
    let Some(versions) = shelf.versions_of(name) else {
        return Ok(Outcome::unasked(Reply::Missing));
    };
    let block = wanted.number();
    let Some(version) = versions.get(block) else {
        return Ok(Outcome::unasked(Reply::Past(versions.count())));
    };
    let slot = Slot { level, version };
    let opened = open_block(guarantor, slot, name, block, reader, store)?;
    let got = Some(Got {
        slot,
        current: opened.is_some(),
    });
    let reply = match opened {
        Some(content) => wanted.reply(versions.count(), version, content),
        None => Reply::Damaged(version),
    };
    Ok(Outcome { reply, got })
}

/// Answers with the names of a level.
pub fn list(alloc: Global, shelf: Option<&Shelf>) -> Result<Reply, AllocError>
    ensures reply { let below = names_in (option_copied shelf.entry) in
        IfOk result (λ reply. reply ≡ if_below below (λ names. Names (keys_of names))) }
    ensures count { IfOk result (λ reply. HasCount reply) }
{
    match shelf {
        Some(shelf) => Ok(Reply::Names(shelf.names(alloc)?)),
        None => Ok(Reply::Refused),
    }
}
