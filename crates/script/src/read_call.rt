ghost use Rattle.std.specs.Prelude.{◌≡◌};
ghost use Rattle.script.specs.inside.Readers.{meant, call_meant, Reads, Gives, words_behind};
ghost use Rattle.script.specs.inside.Readers.{asked, call_read};
ghost use Rattle.script.specs.inside.Readers.{put_form, get_form, list_form, remove_form};
ghost use Rattle.script.specs.inside.Readers.{append_form, block_form};

use crate::bytes::{content_word, file_word};
use crate::line::{CallWords, EventWords, Line, formed};
use crate::number::small_number;
use crate::parties::{host_address, level_name};
use crate::refusal::{Reason, Stop};
use crate::words::{four_words, three_words, two_words};
use std::alloc::Global;

/// The greatest number of a block of a file.
const BLOCK_LIMIT: u8 = 63;

fn asked(from: u8, call: CallWords) -> Line
    ensures { meant result ≡ asked from (call_meant call) }
{
    Line::Event(EventWords::Ask { from, call })
}

#[tactic(auto, unfolding(crate::specs::inside::Readers::put_form))]
fn put_line(alloc: Global, behind: Option<&[u8]>) -> Result<Line, Stop>
    ensures { Gives meant result (put_form (words_behind behind.entry)) }
{
    let (from, name, content) = three_words(behind).ok_or(Stop::Refused(Reason::Form))?;
    let from = host_address(from).ok_or(Stop::Refused(Reason::Form))?;
    let name = file_word(alloc, name)?;
    let content = content_word(alloc, content)?;
    Ok(asked(from, CallWords::Put { name, content }))
}

#[tactic(auto, unfolding(crate::specs::inside::Readers::get_form))]
fn get_line(alloc: Global, behind: Option<&[u8]>) -> Result<Line, Stop>
    ensures { Gives meant result (get_form (words_behind behind.entry)) }
{
    let (from, level, name) = three_words(behind).ok_or(Stop::Refused(Reason::Form))?;
    let from = host_address(from).ok_or(Stop::Refused(Reason::Form))?;
    let level = level_name(level).ok_or(Stop::Refused(Reason::Form))?;
    let name = file_word(alloc, name)?;
    Ok(asked(from, CallWords::Get { level, name }))
}

#[tactic(auto, unfolding(crate::specs::inside::Readers::list_form))]
fn list_line(behind: Option<&[u8]>) -> Option<Line>
    ensures { Reads meant result (list_form (words_behind behind.entry)) }
{
    let (from, level) = two_words(behind)?;
    let from = host_address(from)?;
    let level = level_name(level)?;
    Some(asked(from, CallWords::List { level }))
}

#[tactic(auto, unfolding(crate::specs::inside::Readers::remove_form))]
fn remove_line(alloc: Global, behind: Option<&[u8]>) -> Result<Line, Stop>
    ensures { Gives meant result (remove_form (words_behind behind.entry)) }
{
    let (from, name) = two_words(behind).ok_or(Stop::Refused(Reason::Form))?;
    let from = host_address(from).ok_or(Stop::Refused(Reason::Form))?;
    let name = file_word(alloc, name)?;
    Ok(asked(from, CallWords::Remove { name }))
}

#[tactic(auto, unfolding(crate::specs::inside::Readers::append_form))]
fn append_line(alloc: Global, behind: Option<&[u8]>) -> Result<Line, Stop>
    ensures { Gives meant result (append_form (words_behind behind.entry)) }
{
    let (from, name, content) = three_words(behind).ok_or(Stop::Refused(Reason::Form))?;
    let from = host_address(from).ok_or(Stop::Refused(Reason::Form))?;
    let name = file_word(alloc, name)?;
    let content = content_word(alloc, content)?;
    Ok(asked(from, CallWords::Append { name, content }))
}

#[tactic(auto, unfolding(crate::specs::inside::Readers::block_form))]
fn block_line(alloc: Global, behind: Option<&[u8]>) -> Result<Line, Stop>
    ensures { Gives meant result (block_form (words_behind behind.entry)) }
{
    let (from, level, name, block) = four_words(behind).ok_or(Stop::Refused(Reason::Form))?;
    let from = host_address(from).ok_or(Stop::Refused(Reason::Form))?;
    let level = level_name(level).ok_or(Stop::Refused(Reason::Form))?;
    let name = file_word(alloc, name)?;
    let block = small_number(block, 0, BLOCK_LIMIT).ok_or(Stop::Refused(Reason::Form))?;
    Ok(asked(from, CallWords::Block { level, name, block }))
}

/// The line of what a host asks, by its first word.
#[tactic(auto, unfolding(crate::specs::inside::Readers::call_read))]
pub fn call_line(alloc: Global, first: &[u8], behind: Option<&[u8]>) -> Result<Line, Stop>
    ensures { Gives meant result (call_read first.now (words_behind behind.entry)) }
{
    if first == b"put".as_slice() {
        put_line(alloc, behind)
    } else if first == b"get".as_slice() {
        get_line(alloc, behind)
    } else if first == b"list".as_slice() {
        formed(list_line(behind))
    } else if first == b"remove".as_slice() {
        remove_line(alloc, behind)
    } else if first == b"append".as_slice() {
        append_line(alloc, behind)
    } else if first == b"block".as_slice() {
        block_line(alloc, behind)
    } else {
        Err(Stop::Refused(Reason::Form))
    }
}
