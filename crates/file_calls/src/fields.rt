ghost use Rattle.std.specs.Prelude.{◌≡◌, IfOk};
ghost use Rattle.std.specs.Option.{option_map};
ghost use Rattle.file_calls.specs.Spelling.{is_count};
ghost use Rattle.file_calls.specs.inside.Reading.{name_parts, content_bytes, file_in, name_in, level_in, place_in, block_number, block_in, version_parts, version_in, bytes_in, counted_in, count_in, names_in};

use crate::name::{Content, Name, NameList};
use std::alloc::{AllocError, Global};

/// The most blocks of a file.
const BLOCK_LIMIT: u8 = 64;

/// The most names of a level.
const NAMES_LIMIT: u8 = 128;

/// The bytes of a name behind their number, and what is behind them.
pub fn name_parts(bytes: &[u8]) -> Option<(&[u8], &[u8])>
    ensures { option_map (λ parts. (parts.0.now, parts.1.now)) result ≡ name_parts bytes.now }
{
    let [count, rest @ ..] = bytes else {
        return None;
    };
    let count = *count as usize;
    if count > rest.len() {
        return None;
    }
    Some((&rest[..count], &rest[count..]))
}

/// The bytes of a content behind their number, with nothing behind them.
pub fn content_bytes(bytes: &[u8]) -> Option<&[u8]>
    ensures { option_map (λ content. content.now) result ≡ content_bytes bytes.now }
{
    let [high, low, content @ ..] = bytes else {
        return None;
    };
    if u16::from_be_bytes([*high, *low]) as usize != content.len() {
        return None;
    }
    Some(content)
}

/// A name and a content.
pub fn read_file(alloc: Global, bytes: &[u8]) -> Result<Option<(Name, Content)>, AllocError>
    ensures { IfOk result (λ file. file ≡ file_in bytes.now) }
{
    let Some((name, rest)) = name_parts(bytes) else {
        return Ok(None);
    };
    let Some(content) = content_bytes(rest) else {
        return Ok(None);
    };
    let Some(name) = Name::new(alloc, name)? else {
        return Ok(None);
    };
    let Some(content) = Content::new(alloc, content)? else {
        return Ok(None);
    };
    Ok(Some((name, content)))
}

/// A name with nothing behind it.
pub fn read_name(alloc: Global, bytes: &[u8]) -> Result<Option<Name>, AllocError>
    ensures { IfOk result (λ name. name ≡ name_in bytes.now) }
{
    match name_parts(bytes) {
        Some((name, [])) => Name::new(alloc, name),
        _ => Ok(None),
    }
}

/// A level's number and a name.
pub fn read_place(alloc: Global, bytes: &[u8]) -> Result<Option<(u8, Name)>, AllocError>
    ensures { IfOk result (λ place. place ≡ place_in bytes.now) }
{
    let [level, name @ ..] = bytes else {
        return Ok(None);
    };
    let name = read_name(alloc, name)?;
    Ok(name.map(|name| (*level, name)))
}

/// The number of a block.
fn block_number(bytes: &[u8]) -> Option<u8>
    ensures { result ≡ block_number bytes.now }
{
    match bytes {
        [block] if *block < BLOCK_LIMIT => Some(*block),
        _ => None,
    }
}

/// A level's number with nothing behind it.
pub fn level_in(bytes: &[u8]) -> Option<u8>
    ensures { result ≡ level_in bytes.now }
{
    match bytes {
        [level] => Some(*level),
        _ => None,
    }
}

/// A level's number, a name and a block's number.
pub fn read_block(alloc: Global, bytes: &[u8]) -> Result<Option<(u8, Name, u8)>, AllocError>
    ensures { IfOk result (λ place. place ≡ block_in bytes.now) }
{
    let [level, rest @ ..] = bytes else {
        return Ok(None);
    };
    let Some((name, rest)) = name_parts(rest) else {
        return Ok(None);
    };
    let Some(block) = block_number(rest) else {
        return Ok(None);
    };
    let name = Name::new(alloc, name)?;
    Ok(name.map(|name| (*level, name, block)))
}

/// A version, and what is behind it.
fn version_parts(bytes: &[u8]) -> Option<(u64, &[u8])>
    ensures { option_map (λ parts. (parts.0, parts.1.now)) result ≡ version_parts bytes.now }
{
    let (version, rest) = bytes.split_first_chunk::<8>()?;
    Some((u64::from_be_bytes(*version), rest))
}

/// A version with nothing behind it.
pub fn version_in(bytes: &[u8]) -> Option<u64>
    ensures { result ≡ version_in bytes.now }
{
    match version_parts(bytes) {
        Some((version, [])) => Some(version),
        _ => None,
    }
}

/// A version and a content.
pub fn read_bytes(alloc: Global, bytes: &[u8]) -> Result<Option<(u64, Content)>, AllocError>
    ensures { IfOk result (λ block. block ≡ bytes_in bytes.now) }
{
    let Some((version, rest)) = version_parts(bytes) else {
        return Ok(None);
    };
    let Some(content) = content_bytes(rest) else {
        return Ok(None);
    };
    let content = Content::new(alloc, content)?;
    Ok(content.map(|content| (version, content)))
}

/// Whether a file can have so many blocks.
fn is_count(count: u8) -> bool
    ensures { result ≡ is_count count }
{
    1 <= count && count <= BLOCK_LIMIT
}

/// A version, a number of blocks and a content.
pub fn read_counted(alloc: Global, bytes: &[u8]) -> Result<Option<(u64, u8, Content)>, AllocError>
    ensures { IfOk result (λ block. block ≡ counted_in bytes.now) }
{
    let Some((version, [count, rest @ ..])) = version_parts(bytes) else {
        return Ok(None);
    };
    if !is_count(*count) {
        return Ok(None);
    }
    let Some(content) = content_bytes(rest) else {
        return Ok(None);
    };
    let content = Content::new(alloc, content)?;
    Ok(content.map(|content| (version, *count, content)))
}

/// A number of blocks with nothing behind it.
pub fn count_in(bytes: &[u8]) -> Option<u8>
    ensures { result ≡ count_in bytes.now }
{
    match bytes {
        [count] if is_count(*count) => Some(*count),
        _ => None,
    }
}

/// Names behind their number, with nothing behind them.
pub fn read_names(alloc: Global, bytes: &[u8]) -> Result<Option<NameList>, AllocError>
    ensures { IfOk result (λ names. names ≡ names_in bytes.now) }
{
    let [count, rest @ ..] = bytes else {
        return Ok(None);
    };
    if *count > NAMES_LIMIT {
        return Ok(None);
    }
    let mut names = NameList::new(alloc);
    let mut rest = rest;
    for _name in 0..*count {
        let Some((name, behind)) = name_parts(rest) else {
            return Ok(None);
        };
        let Some(name) = Name::new(alloc, name)? else {
            return Ok(None);
        };
        if !names.is_below(&name) {
            return Ok(None);
        }
        names.push(name)?;
        rest = behind;
    }
    if !rest.is_empty() {
        return Ok(None);
    }
    Ok(Some(names))
}
