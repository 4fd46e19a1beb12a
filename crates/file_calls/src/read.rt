ghost use Rattle.std.specs.Prelude.{◌≡◌, IfOk};
ghost use Rattle.file_calls.specs.Spelling.{call_of, reply_of};
ghost use Rattle.file_calls.specs.inside.Reading.{call_by, alone, reply_by};

use crate::call::{Call, Reply};
use crate::fields::{
    count_in, level_in, read_block, read_bytes, read_counted, read_file, read_name, read_names,
    read_place, version_in,
};
use std::alloc::{AllocError, Global};

/// The call of a kind, with these fields.
fn call_by(alloc: Global, kind: u8, fields: &[u8]) -> Result<Option<Call>, AllocError>
    ensures { IfOk result (λ call. call ≡ call_by kind fields.now) }
{
    match kind {
        1 => {
            let file = read_file(alloc, fields)?;
            Ok(file.map(|(name, content)| Call::Put { name, content }))
        }
        2 => {
            let place = read_place(alloc, fields)?;
            Ok(place.map(|(level, name)| Call::Get { level, name }))
        }
        3 => Ok(level_in(fields).map(|level| Call::List { level })),
        4 => {
            let name = read_name(alloc, fields)?;
            Ok(name.map(|name| Call::Remove { name }))
        }
        5 => {
            let file = read_file(alloc, fields)?;
            Ok(file.map(|(name, content)| Call::Append { name, content }))
        }
        6 => {
            let place = read_block(alloc, fields)?;
            Ok(place.map(|(level, name, block)| Call::GetBlock { level, name, block }))
        }
        _ => Ok(None),
    }
}

/// The call that the bytes spell, if they spell one.
pub fn read_call(alloc: Global, bytes: &[u8]) -> Result<Option<Call>, AllocError>
    ensures { IfOk result (λ call. call ≡ call_of bytes.now) }
{
    match bytes {
        [kind, fields @ ..] => call_by(alloc, *kind, fields),
        [] => Ok(None),
    }
}

/// A reply that has no fields.
fn alone(fields: &[u8], reply: Reply) -> Option<Reply>
    ensures { result ≡ alone fields.now reply }
{
    if fields.is_empty() { Some(reply) } else { None }
}

/// The reply of a kind, with these fields.
fn reply_by(alloc: Global, kind: u8, fields: &[u8]) -> Result<Option<Reply>, AllocError>
    ensures { IfOk result (λ reply. reply ≡ reply_by kind fields.now) }
{
    match kind {
        1 => Ok(version_in(fields).map(|version| Reply::Done(version))),
        2 => {
            let block = read_bytes(alloc, fields)?;
            Ok(block.map(|(version, content)| Reply::Bytes { version, content }))
        }
        3 => Ok(alone(fields, Reply::Refused)),
        4 => Ok(alone(fields, Reply::Missing)),
        5 => Ok(version_in(fields).map(|version| Reply::Damaged(version))),
        6 => Ok(alone(fields, Reply::Full)),
        7 => Ok(alone(fields, Reply::Removed)),
        8 => {
            let names = read_names(alloc, fields)?;
            Ok(names.map(|names| Reply::Names(names)))
        }
        9 => Ok(alone(fields, Reply::Bad)),
        10 => {
            let block = read_counted(alloc, fields)?;
            Ok(block.map(|(version, count, content)| Reply::Block {
                version,
                count,
                content,
            }))
        }
        11 => Ok(count_in(fields).map(|count| Reply::Past(count))),
        _ => Ok(None),
    }
}

/// The reply that the bytes spell, if they spell one.
pub fn read_reply(alloc: Global, bytes: &[u8]) -> Result<Option<Reply>, AllocError>
    ensures { IfOk result (λ reply. reply ≡ reply_of bytes.now) }
{
    match bytes {
        [kind, fields @ ..] => reply_by(alloc, *kind, fields),
        [] => Ok(None),
    }
}
