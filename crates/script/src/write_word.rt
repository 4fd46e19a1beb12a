ghost use Rattle.std.specs.Prelude.{◌≡◌, ◌++◌, ◌∷◌, ◌<◌, OnOk, true, [], length};
ghost use Rattle.std.specs.Fmt.{decimal};
ghost use Rattle.events.specs.Scripts.{is_known};
ghost use Rattle.script.specs.Spelling.{letters, cats_word, party_text, stream_text};
ghost use Rattle.script.specs.Spelling.{message_text, numbers_text, piece_text, byte_text};
ghost use Rattle.script.specs.Spelling.{edit_text};
ghost use Rattle.script.specs.Text.{name_or_none, party_said, stream_said};

use crate::line::PartyWord;
use events::{Stream, push_hex, push_number};
use levels::{Partition, Party, Roster};
use std::alloc::{AllocError, Global};

/// Writes a number of eight bytes.
pub fn write_wide(alloc: Global, text: &mut Vec<u8>, n: u64) -> Result<(), AllocError>
    ensures { OnOk result (text.new.items ≡ text.old.items ++ decimal n) }
{
    let digits = n.to_string(alloc)?;
    text.extend_from_slice(digits.as_bytes())
}

/// Writes two digits.
pub fn write_byte(text: &mut Vec<u8>, byte: u8) -> Result<(), AllocError>
    ensures { OnOk result (text.new.items ≡ text.old.items ++ byte_text byte) }
{
    push_hex(text, &[byte])
}

fn write_letters(text: &mut Vec<u8>, cats: u16) -> Result<(), AllocError>
    ensures { OnOk result (text.new.items ≡ text.old.items ++ letters 16 97 cats) }
{
    let mut left = cats;
    for i in 0..16u8 {
        if left % 2 == 1 {
            text.push(b'a' + i)?;
        }
        left /= 2;
    }
    Ok(())
}

/// Writes a set of categories.
pub fn write_cats(text: &mut Vec<u8>, cats: u16) -> Result<(), AllocError>
    ensures { OnOk result (text.new.items ≡ text.old.items ++ cats_word cats) }
{
    if cats == 0 {
        text.extend_from_slice(b"-".as_slice())
    } else {
        write_letters(text, cats)
    }
}

/// Writes the name of a level.
pub fn write_name(text: &mut Vec<u8>, roster: &Roster, level: u8) -> Result<(), AllocError>
    requires { level < length roster.now.levels }
    ensures { OnOk result (text.new.items ≡ text.old.items ++ name_or_none roster.now level) }
{
    let name = roster.name_at(Partition(level));
    text.extend_from_slice(name.bytes())
}

/// The word of a party.
fn party_word(roster: &Roster, party: Party) -> PartyWord
    requires { is_known roster.now party ≡ true }
    ensures { result ≡ party_said roster.now party }
{
    match party {
        Party::Host(address) => PartyWord::Address(address),
        Party::Manager(partition) => PartyWord::Name(roster.name_at(partition)),
    }
}

pub fn write_party(text: &mut Vec<u8>, roster: &Roster, party: Party) -> Result<(), AllocError>
    requires { is_known roster.now party ≡ true }
    ensures { OnOk result
        (text.new.items ≡ text.old.items ++ party_text (party_said roster.now party)) }
{
    match party_word(roster, party) {
        PartyWord::Address(address) => push_number(text, u32::from(address)),
        PartyWord::Name(level) => text.extend_from_slice(level.bytes()),
    }
}

fn write_stream(text: &mut Vec<u8>, roster: &Roster, stream: Stream) -> Result<(), AllocError>
    requires from { is_known roster.now stream.from ≡ true }
    requires to { is_known roster.now stream.to ≡ true }
    ensures { OnOk result
        (text.new.items ≡ text.old.items ++ stream_text (stream_said roster.now stream)) }
{
    write_party(text, roster, stream.from)?;
    text.push(b'>')?;
    write_party(text, roster, stream.to)
}

/// Writes a message: its stream and its number.
pub fn write_message(
    text: &mut Vec<u8>,
    roster: &Roster,
    stream: Stream,
    message: u32,
) -> Result<(), AllocError>
    requires from { is_known roster.now stream.from ≡ true }
    requires to { is_known roster.now stream.to ≡ true }
    ensures { OnOk result (text.new.items ≡
        text.old.items ++ message_text (stream_said roster.now stream, message)) }
{
    write_stream(text, roster, stream)?;
    text.push(b'#')?;
    push_number(text, message)
}

/// Writes the number of a message and that of its piece.
fn write_numbers(text: &mut Vec<u8>, message: u32, piece: u8) -> Result<(), AllocError>
    ensures { OnOk result (text.new.items ≡ text.old.items ++ numbers_text (message, piece)) }
{
    push_number(text, message)?;
    text.push(b'.')?;
    push_number(text, u32::from(piece))
}

/// Writes a piece: its stream and its numbers.
pub fn write_piece(
    text: &mut Vec<u8>,
    roster: &Roster,
    stream: Stream,
    message: u32,
    piece: u8,
) -> Result<(), AllocError>
    requires from { is_known roster.now stream.from ≡ true }
    requires to { is_known roster.now stream.to ≡ true }
    ensures { OnOk result (text.new.items ≡
        text.old.items ++ piece_text (stream_said roster.now stream, (message, piece))) }
{
    write_stream(text, roster, stream)?;
    text.push(b'#')?;
    write_numbers(text, message, piece)
}

/// Writes an offset and what the byte there is changed by.
pub fn write_edit(text: &mut Vec<u8>, offset: u8, xor: u8) -> Result<(), AllocError>
    ensures { OnOk result (text.new.items ≡ text.old.items ++ edit_text (offset, xor)) }
{
    push_number(text, u32::from(offset))?;
    text.push(b'^')?;
    write_byte(text, xor)
}
