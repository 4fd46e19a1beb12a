ghost use Rattle.std.specs.Prelude.{◌≡◌, ◌∷◌};
ghost use Rattle.script.specs.inside.Readers.{meant, action_meant, Reads, Gives, words_behind};
ghost use Rattle.script.specs.inside.Readers.{words, nothing, version_form, seal_form};
ghost use Rattle.script.specs.inside.Readers.{level_form, key_form, guard_form, host_form};
ghost use Rattle.script.specs.inside.Readers.{of_form, flip_form, action_read, store_form};
ghost use Rattle.script.specs.inside.Readers.{form_read, line_read};
ghost use Rattle.script.specs.Lines as line;

use crate::bytes::{change_word, key_word};
use crate::categories::categories;
use crate::cut::cut;
use crate::line::{Line, StoreWords, formed};
use crate::number::{number, small_number, wide_number};
use crate::parties::{host_address, level_name};
use crate::read_event::event_line;
use crate::refusal::Stop;
use crate::words::{first_word, one_word, three_words, two_words};
use levels::Level;
use seal_core::KeyPair;
use std::alloc::Global;

/// The greatest rank of a level.
const RANK_LIMIT: u8 = 7;

/// The greatest version of a record.
const VERSION_LIMIT: u64 = 72_057_594_037_927_935;

/// The mark between two words of a line.
const SPACE: u8 = b' ';

/// A line of one word.
fn lone_line(behind: Option<&[u8]>, line: Line) -> Option<Line>
    ensures { Reads meant result (nothing (meant line) (words_behind behind.entry)) }
{
    match behind {
        None => Some(line),
        Some(_) => None,
    }
}

#[tactic(auto, unfolding(crate::specs::inside::Readers::version_form))]
fn version_line(behind: Option<&[u8]>) -> Option<Line>
    ensures { Reads meant result (version_form (words_behind behind.entry)) }
{
    let number = one_word(behind)?;
    if number == b"1".as_slice() {
        Some(Line::Version)
    } else {
        None
    }
}

#[tactic(auto, unfolding(crate::specs::inside::Readers::seal_form))]
fn seal_line(behind: Option<&[u8]>) -> Option<Line>
    ensures { Reads meant result (seal_form (words_behind behind.entry)) }
{
    let word = one_word(behind)?;
    if word != b"des".as_slice() {
        return None;
    }
    Some(Line::Seal)
}

#[tactic(auto, unfolding(crate::specs::inside::Readers::level_form))]
fn level_line(behind: Option<&[u8]>) -> Option<Line>
    ensures { Reads meant result (level_form (words_behind behind.entry)) }
{
    let (name, rank, cats) = three_words(behind)?;
    let name = level_name(name)?;
    let rank = small_number(rank, 0, RANK_LIMIT)?;
    let cats = categories(cats)?;
    let level = Level { rank, cats };
    Some(Line::Level { name, level })
}

#[tactic(auto, unfolding(crate::specs::inside::Readers::key_form))]
fn key_line(behind: Option<&[u8]>) -> Option<Line>
    ensures { Reads meant result (key_form (words_behind behind.entry)) }
{
    let (level, main, check) = three_words(behind)?;
    let level = level_name(level)?;
    let main = key_word(main)?;
    let check = key_word(check)?;
    let pair = KeyPair { main, check };
    Some(Line::Keys { level, pair })
}

#[tactic(auto, unfolding(crate::specs::inside::Readers::guard_form))]
fn guard_line(behind: Option<&[u8]>) -> Option<Line>
    ensures { Reads meant result (guard_form (words_behind behind.entry)) }
{
    let (main, check) = two_words(behind)?;
    let main = key_word(main)?;
    let check = key_word(check)?;
    Some(Line::Guard(KeyPair { main, check }))
}

#[tactic(auto, unfolding(crate::specs::inside::Readers::host_form))]
fn host_line(behind: Option<&[u8]>) -> Option<Line>
    ensures { Reads meant result (host_form (words_behind behind.entry)) }
{
    let (address, level) = two_words(behind)?;
    let address = host_address(address)?;
    let level = level_name(level)?;
    Some(Line::Host { address, level })
}

/// An action of one word.
fn lone_action(behind: Option<&[u8]>, action: StoreWords) -> Option<StoreWords>
    ensures { Reads action_meant result
        (nothing (action_meant action) (words_behind behind.entry)) }
{
    match behind {
        None => Some(action),
        Some(_) => None,
    }
}

fn of_words(behind: Option<&[u8]>) -> Option<StoreWords>
    ensures { Reads action_meant result (of_form (words_behind behind.entry)) }
{
    let (level, version) = two_words(behind)?;
    let level = level_name(level)?;
    let version = number(version, 1, VERSION_LIMIT)?;
    Some(StoreWords::Of { level, version })
}

fn flip_words(behind: Option<&[u8]>) -> Option<StoreWords>
    ensures { Reads action_meant result (flip_form (words_behind behind.entry)) }
{
    let (offset, xor) = two_words(behind)?;
    let offset = wide_number(offset, 0, u32::MAX)?;
    let xor = change_word(xor)?;
    Some(StoreWords::Flip { offset, xor })
}

/// What the store does.
#[tactic(auto, unfolding(crate::specs::inside::Readers::action_read))]
fn action_words(text: &[u8]) -> Option<StoreWords>
    ensures { Reads action_meant result (action_read (words text.now)) }
{
    let (first, behind) = first_word(text);
    if first == b"true".as_slice() {
        lone_action(behind, StoreWords::Honest)
    } else if first == b"of".as_slice() {
        of_words(behind)
    } else if first == b"flip".as_slice() {
        flip_words(behind)
    } else if first == b"gone".as_slice() {
        lone_action(behind, StoreWords::Gone)
    } else {
        None
    }
}

#[tactic(auto, unfolding(crate::specs::inside::Readers::store_form))]
fn store_line(behind: Option<&[u8]>) -> Option<Line>
    ensures { Reads meant result (store_form (words_behind behind.entry)) }
{
    let (reader, action) = cut(behind?, SPACE)?;
    let reader = level_name(reader)?;
    let words = action_words(action)?;
    Some(Line::Store { reader, words })
}

/// The line of a first word and of what stands behind it.
#[tactic(auto, unfolding(crate::specs::inside::Readers::form_read))]
fn form_line(alloc: Global, first: &[u8], behind: Option<&[u8]>) -> Result<Line, Stop>
    ensures { Gives meant result (form_read (first.now ∷ words_behind behind.entry)) }
{
    if first == b"dss".as_slice() {
        formed(version_line(behind))
    } else if first == b"seal".as_slice() {
        formed(seal_line(behind))
    } else if first == b"level".as_slice() {
        formed(level_line(behind))
    } else if first == b"key".as_slice() {
        formed(key_line(behind))
    } else if first == b"guard".as_slice() {
        formed(guard_line(behind))
    } else if first == b"host".as_slice() {
        formed(host_line(behind))
    } else if first == b"store".as_slice() {
        formed(store_line(behind))
    } else if first == b"begin".as_slice() {
        formed(lone_line(behind, Line::Begin))
    } else if first == b"end".as_slice() {
        formed(lone_line(behind, Line::End))
    } else {
        event_line(alloc, first, behind)
    }
}

/// The line that a text spells.
pub fn read_line(alloc: Global, text: &[u8]) -> Result<Line, Stop>
    ensures { Gives meant result (line_read text.now) }
{
    let (first, behind) = first_word(text);
    form_line(alloc, first, behind)
}
