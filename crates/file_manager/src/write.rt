ghost use Rattle.std.specs.Prelude.{◌≡◌, ℕ, ◌<◌, ◌≤◌, ◌^◌, IfOk, OnOk, OnErr};
ghost use Rattle.std.specs.Option.{option_map};
ghost use Rattle.file_calls.specs.declared.call.Call.TheVariants.{Put, Append};
ghost use Rattle.file_calls.specs.declared.call.Reply.TheVariants.{Removed};
ghost use Rattle.file_calls.specs.Spelling.{HasCount};
ghost use Rattle.guarantor.specs.Records.{record_of};
ghost use Rattle.untrusted_store.specs.Telling.{with_put};
ghost use Rattle.machine.specs.Files.{versions_of};
ghost use Rattle.machine.specs.Replies.{write_reply, if_there};
ghost use Rattle.file_manager.specs.Effects.{last_after, MakesChange};
ghost use Rattle.file_manager.specs.inside.Shelves.{shelf_with, shelf_writes, without_name};

use crate::shelf::Shelf;
use crate::versions::Versions;
use file_calls::{Content, Name, Reply};
use guarantor::Guarantor;
use seal_core::Seal;
use std::alloc::{AllocError, Global};
use untrusted_store::{Slot, Store};

/// The most blocks of a file.
const BLOCK_LIMIT: u8 = 64;

/// Tells the store that the records of these versions are needed no more.
fn drop_slots<T: Store>(level: u8, versions: &Versions, store: &mut T)
    ensures rows { T.rows store.new ≡ T.rows store.old }
    ensures last { T.last store.new ≡ T.last store.old }
    ensures asked { T.asked store.new ≡ T.asked store.old }
{
    for version in versions.as_slice() {
        store.drop_slot(Slot {
            level,
            version: *version,
        });
    }
}

/// Puts the record of a block in its slot.
fn put_record<S: Seal, T: Store>(
    guarantor: &Guarantor<S>,
    slot: Slot,
    name: &Name,
    block: u8,
    content: &Content,
    store: &mut T,
) -> Result<(), AllocError>
    requires block { block ≤ 63 }
    requires version { slot.version < 2 ^ 56 }
    ensures rows { T.rows store.new ≡ T.rows store.old }
    ensures asked { T.asked store.new ≡ T.asked store.old }
    ensures ok { OnOk result (T.last store.new ≡ option_map (with_put slot
        (record_of S.sealed_text guarantor.now slot.level name.now block slot.version
        content.now)) (T.last store.old)) }
    ensures err { OnErr result (T.last store.new ≡ T.last store.old) }
{
    let text = guarantor.seal_record(slot.level, name, block, slot.version, content.bytes())?;
    store.put(slot, &text)
}

/// Makes a file of one block.
#[tactic(auto, unfolding(machine::specs::Files::writing))]
pub fn put<S: Seal, T: Store>(
    alloc: Global,
    guarantor: &Guarantor<S>,
    shelf: &mut Shelf,
    level: u8,
    name: Name,
    content: &Content,
    store: &mut T,
) -> Result<Reply, AllocError>
    ensures rows { T.rows store.new ≡ T.rows store.old }
    ensures asked { T.asked store.new ≡ T.asked store.old }
    ensures last { let w = shelf_writes shelf.old (Put name content.now) in
        MakesChange result (T.last store.old)
        (last_after S.sealed_text guarantor.now level w (T.last store.old)) (T.last store.new) }
    ensures reply { let w = shelf_writes shelf.old (Put name content.now) in
        IfOk result (λ reply. reply ≡ write_reply w) }
    ensures count { IfOk result (λ reply. HasCount reply) }
    ensures ok { let w = shelf_writes shelf.old (Put name content.now) in
        OnOk result (shelf.new ≡ shelf_with w shelf.old) }
    ensures err { OnErr result (shelf.new ≡ shelf.old) }
{
    if !shelf.takes_name(&name) {
        return Ok(Reply::Full);
    }
    let Some(version) = shelf.next_version() else {
        return Ok(Reply::Full);
    };
    let versions = Versions::first(alloc, version)?;
    let slot = Slot { level, version };
    put_record(guarantor, slot, &name, 0, content, store)?;
    if let Some(old) = shelf.write(name, versions)? {
        drop_slots(level, &old, store);
    }
    Ok(Reply::Done(version))
}

/// Writes one block more of a file.
#[tactic(auto, unfolding(machine::specs::Files::writing))]
pub fn append<S: Seal, T: Store>(
    alloc: Global,
    guarantor: &Guarantor<S>,
    shelf: &mut Shelf,
    level: u8,
    name: Name,
    content: &Content,
    store: &mut T,
) -> Result<Reply, AllocError>
    ensures rows { T.rows store.new ≡ T.rows store.old }
    ensures asked { T.asked store.new ≡ T.asked store.old }
    ensures last { let w = shelf_writes shelf.old (Append name content.now) in
        MakesChange result (T.last store.old)
        (last_after S.sealed_text guarantor.now level w (T.last store.old)) (T.last store.new) }
    ensures reply { let w = shelf_writes shelf.old (Append name content.now) in
        IfOk result (λ reply. reply
        ≡ if_there (versions_of name shelf.old.names) (λ versions. write_reply w)) }
    ensures count { IfOk result (λ reply. HasCount reply) }
    ensures ok { let w = shelf_writes shelf.old (Append name content.now) in
        OnOk result (shelf.new ≡ shelf_with w shelf.old) }
    ensures err { OnErr result (shelf.new ≡ shelf.old) }
{
    let Some(old) = shelf.versions_of(&name) else {
        return Ok(Reply::Missing);
    };
    let block = old.count();
    if block >= BLOCK_LIMIT {
        return Ok(Reply::Full);
    }
    let Some(version) = shelf.next_version() else {
        return Ok(Reply::Full);
    };
    let mut versions = old.copy(alloc)?;
    versions.push(version)?;
    let slot = Slot { level, version };
    put_record(guarantor, slot, &name, block, content, store)?;
    shelf.write(name, versions)?;
    Ok(Reply::Done(version))
}

/// Takes a file out.
pub fn remove<T: Store>(shelf: &mut Shelf, level: u8, name: &Name, store: &mut T) -> Reply
    ensures rows { T.rows store.new ≡ T.rows store.old }
    ensures last { T.last store.new ≡ T.last store.old }
    ensures asked { T.asked store.new ≡ T.asked store.old }
    ensures reply { result ≡ if_there (versions_of name.now shelf.old.names) (λ versions. Removed) }
    ensures count { HasCount result }
    ensures new { shelf.new ≡ without_name name.now shelf.old }
{
    match shelf.remove(name) {
        None => Reply::Missing,
        Some(versions) => {
            drop_slots(level, &versions, store);
            Reply::Removed
        }
    }
}
