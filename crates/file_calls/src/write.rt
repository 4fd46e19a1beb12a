ghost use Rattle.std.specs.Prelude.{◌≡◌, ◌≤◌, ◌++◌, ◌∷◌, IfOk, OnOk, true, vec_len, length};
ghost use Rattle.std.specs.List.{flat_map};
ghost use Rattle.file_calls.specs.Names.{is_name, is_content, is_name_list};
ghost use Rattle.file_calls.specs.Spelling.{name_text, content_text, version_text, call_text, is_call, HasBlock, reply_text, is_reply, HasCount};

use crate::call::{Call, Reply};
use crate::name::{Content, Name, NameList};
use std::alloc::{AllocError, Global};

/// Appends a name behind its length.
fn push_name(text: &mut Vec<u8>, name: &Name) -> Result<(), AllocError>
    ensures text { OnOk result (text.new.items ≡ text.old.items ++ name_text name.now) }
    ensures name { is_name name.now ≡ true }
{
    let bytes = name.bytes();
    text.push(bytes.len() as u8)?;
    text.extend_from_slice(bytes)?;
    Ok(())
}

/// Appends a content behind its length.
fn push_content(text: &mut Vec<u8>, content: &Content) -> Result<(), AllocError>
    ensures text { OnOk result (text.new.items ≡ text.old.items ++ content_text content.now) }
    ensures content { is_content content.now ≡ true }
{
    let bytes = content.bytes();
    text.extend_from_slice(&(bytes.len() as u16).to_be_bytes())?;
    text.extend_from_slice(bytes)?;
    Ok(())
}

/// Appends a version.
fn push_version(text: &mut Vec<u8>, version: u64) -> Result<(), AllocError>
    ensures { OnOk result (text.new.items ≡ text.old.items ++ version_text version) }
{
    text.extend_from_slice(&version.to_be_bytes())?;
    Ok(())
}

/// Appends names behind their number.
fn push_names(text: &mut Vec<u8>, names: &NameList) -> Result<(), AllocError>
    ensures text { OnOk result
        (text.new.items ≡ text.old.items ++ length names.now ∷ flat_map name_text names.now) }
    ensures names { is_name_list names.now ≡ true }
{
    let names = names.names();
    text.push(names.len() as u8)?;
    for name in names {
        push_name(text, name)?;
    }
    Ok(())
}

/// Appends a call's fields behind the number of its kind.
#[tactic(auto, unfolding(crate::specs::Spelling::call_text))]
fn push_call(text: &mut Vec<u8>, call: &Call) -> Result<(), AllocError>
    requires { HasBlock call.now }
    ensures text { OnOk result (text.new.items ≡ text.old.items ++ call_text call.now) }
    ensures call { OnOk result (is_call call.now ≡ true) }
{
    match call {
        Call::Put { name, content } => {
            text.push(1)?;
            push_name(text, name)?;
            push_content(text, content)
        }
        Call::Get { level, name } => {
            text.extend_from_slice(&[2, *level])?;
            push_name(text, name)
        }
        Call::List { level } => text.extend_from_slice(&[3, *level]),
        Call::Remove { name } => {
            text.push(4)?;
            push_name(text, name)
        }
        Call::Append { name, content } => {
            text.push(5)?;
            push_name(text, name)?;
            push_content(text, content)
        }
        Call::GetBlock { level, name, block } => {
            text.extend_from_slice(&[6, *level])?;
            push_name(text, name)?;
            text.push(*block)?;
            Ok(())
        }
    }
}

/// The spelling of a call.
pub fn write_call(alloc: Global, call: &Call) -> Result<Vec<u8>, AllocError>
    requires { HasBlock call.now }
    ensures text { IfOk result (λ text. text.items ≡ call_text call.now) }
    ensures call { OnOk result (is_call call.now ≡ true) }
    ensures short { IfOk result (λ text. vec_len text ≤ 5632) }
{
    let mut text = Vec::new(alloc);
    push_call(&mut text, call)?;
    Ok(text)
}

/// Appends a reply's fields behind the number of its kind.
#[tactic(auto, unfolding(crate::specs::Spelling::reply_text))]
fn push_reply(text: &mut Vec<u8>, reply: &Reply) -> Result<(), AllocError>
    requires { HasCount reply.now }
    ensures text { OnOk result (text.new.items ≡ text.old.items ++ reply_text reply.now) }
    ensures reply { OnOk result (is_reply reply.now ≡ true) }
{
    match reply {
        Reply::Done(version) => {
            text.push(1)?;
            push_version(text, *version)
        }
        Reply::Bytes { version, content } => {
            text.push(2)?;
            push_version(text, *version)?;
            push_content(text, content)
        }
        Reply::Refused => text.extend_from_slice(&[3]),
        Reply::Missing => text.extend_from_slice(&[4]),
        Reply::Damaged(version) => {
            text.push(5)?;
            push_version(text, *version)
        }
        Reply::Full => text.extend_from_slice(&[6]),
        Reply::Removed => text.extend_from_slice(&[7]),
        Reply::Names(names) => {
            text.push(8)?;
            push_names(text, names)
        }
        Reply::Bad => text.extend_from_slice(&[9]),
        Reply::Block {
            version,
            count,
            content,
        } => {
            text.push(10)?;
            push_version(text, *version)?;
            text.push(*count)?;
            push_content(text, content)
        }
        Reply::Past(count) => text.extend_from_slice(&[11, *count]),
    }
}

/// The spelling of a reply.
pub fn write_reply(alloc: Global, reply: &Reply) -> Result<Vec<u8>, AllocError>
    requires { HasCount reply.now }
    ensures text { IfOk result (λ text. text.items ≡ reply_text reply.now) }
    ensures reply { OnOk result (is_reply reply.now ≡ true) }
    ensures short { IfOk result (λ text. vec_len text ≤ 5632) }
{
    let mut text = Vec::new(alloc);
    push_reply(&mut text, reply)?;
    Ok(text)
}
