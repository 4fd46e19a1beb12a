ghost use Rattle.std.specs.Prelude.{◌≡◌};
ghost use Rattle.script.specs.inside.Readers.{number_read, name_read, manager_read, party_read};
ghost use Rattle.script.specs.inside.Readers.{stream_read, message_read, numbers_read, piece_read};

use crate::line::{PartyWord, StreamWord};
use crate::number::{small_number, wide_number};
use crate::words::two_parts;
use levels::LevelName;

/// The greatest address of a host.
const ADDRESS_LIMIT: u8 = 250;

/// The greatest number of a piece.
const PIECE_LIMIT: u8 = 63;

/// The address of a host.
pub fn host_address(word: &[u8]) -> Option<u8>
    ensures { result ≡ number_read 1 250 word.now }
{
    small_number(word, 1, ADDRESS_LIMIT)
}

#[tactic(auto, unfolding(crate::specs::inside::Readers::name_read))]
pub fn level_name(word: &[u8]) -> Option<LevelName>
    ensures { result ≡ name_read word.now }
{
    LevelName::new(word)
}

fn manager_word(word: &[u8]) -> Option<PartyWord>
    ensures { result ≡ manager_read word.now }
{
    let level = level_name(word)?;
    Some(PartyWord::Name(level))
}

/// A party: a host by its address, or a manager unit by the name of its level.
#[tactic(auto, unfolding(crate::specs::inside::Readers::party_read))]
pub fn party_word(word: &[u8]) -> Option<PartyWord>
    ensures { result ≡ party_read word.now }
{
    match host_address(word) {
        Some(address) => Some(PartyWord::Address(address)),
        None => manager_word(word),
    }
}

#[tactic(auto, unfolding(crate::specs::inside::Readers::stream_read))]
fn stream_word(word: &[u8]) -> Option<StreamWord>
    ensures { result ≡ stream_read word.now }
{
    let (from, to) = two_parts(word, b'>')?;
    let from = party_word(from)?;
    let to = party_word(to)?;
    Some(StreamWord { from, to })
}

/// A message: its stream and its number.
#[tactic(auto, unfolding(crate::specs::inside::Readers::message_read))]
pub fn message_word(word: &[u8]) -> Option<(StreamWord, u32)>
    ensures { result ≡ message_read word.now }
{
    let (stream, number) = two_parts(word, b'#')?;
    let stream = stream_word(stream)?;
    let number = wide_number(number, 0, u32::MAX)?;
    Some((stream, number))
}

/// The number of a message, and that of one of its pieces.
#[tactic(auto, unfolding(crate::specs::inside::Readers::numbers_read))]
fn numbers_word(word: &[u8]) -> Option<(u32, u8)>
    ensures { result ≡ numbers_read word.now }
{
    let (message, piece) = two_parts(word, b'.')?;
    let message = wide_number(message, 0, u32::MAX)?;
    let piece = small_number(piece, 0, PIECE_LIMIT)?;
    Some((message, piece))
}

/// A piece: its stream and its numbers.
#[tactic(auto, unfolding(crate::specs::inside::Readers::piece_read))]
pub fn piece_word(word: &[u8]) -> Option<(StreamWord, (u32, u8))>
    ensures { result ≡ piece_read word.now }
{
    let (stream, numbers) = two_parts(word, b'#')?;
    let stream = stream_word(stream)?;
    let numbers = numbers_word(numbers)?;
    Some((stream, numbers))
}
