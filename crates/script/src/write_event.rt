ghost use Rattle.std.specs.Prelude.{◌≡◌, ◌++◌, ◌∷◌, ◌<◌, codes, OnOk, true, [], map, length};
ghost use Rattle.std.specs.List.{flat_map, join_with_byte};
ghost use Rattle.events.specs.Scripts.{is_known, has_level, is_call_named, is_named};
ghost use Rattle.script.specs.Lines as line;
ghost use Rattle.script.specs.Spelling.{edit_text, party_text, ended_text};
ghost use Rattle.script.specs.Text.{name_or_none, party_said, call_said, line_of_event};

use crate::write_word::{write_edit, write_message, write_name, write_party, write_piece};
use events::{Edits, Event, Stream, push_hex, push_number};
use file_calls::{Call, Content, Name};
use levels::{Party, Roster};
use std::alloc::AllocError;

fn write_send(
    text: &mut Vec<u8>,
    roster: &Roster,
    from: u8,
    to: Party,
    message: &[u8],
) -> Result<(), AllocError>
    requires { is_known roster.now to ≡ true }
    ensures { OnOk result (text.new.items ≡
        text.old.items ++ ended_text (line_of_event roster.now (Event.Send from to message.now))) }
{
    text.extend_from_slice(b"send ".as_slice())?;
    push_number(text, u32::from(from))?;
    text.push(b' ')?;
    write_party(text, roster, to)?;
    text.push(b' ')?;
    push_hex(text, message)?;
    text.push(b'\n')?;
    Ok(())
}

fn write_put(text: &mut Vec<u8>, from: u8, name: &Name, content: &Content) -> Result<(), AllocError>
    ensures { OnOk result (text.new.items ≡ text.old.items ++
        ended_text (line.Event (line.Ask from (line.Put name.now content.now)))) }
{
    text.extend_from_slice(b"put ".as_slice())?;
    push_number(text, u32::from(from))?;
    text.push(b' ')?;
    text.extend_from_slice(name.bytes())?;
    text.push(b' ')?;
    push_hex(text, content.bytes())?;
    text.push(b'\n')?;
    Ok(())
}

/// Writes a level and the name of a file.
fn write_file(text: &mut Vec<u8>, roster: &Roster, level: u8, name: &Name) -> Result<(), AllocError>
    requires { level < length roster.now.levels }
    ensures { OnOk result (text.new.items ≡
        text.old.items ++ name_or_none roster.now level ++ 32 ∷ name.now) }
{
    write_name(text, roster, level)?;
    text.push(b' ')?;
    text.extend_from_slice(name.bytes())
}

fn write_get(
    text: &mut Vec<u8>,
    roster: &Roster,
    from: u8,
    level: u8,
    name: &Name,
) -> Result<(), AllocError>
    requires { level < length roster.now.levels }
    ensures { OnOk result (text.new.items ≡ text.old.items ++
        ended_text (line.Event
        (line.Ask from (line.Get (name_or_none roster.now level) name.now)))) }
{
    text.extend_from_slice(b"get ".as_slice())?;
    push_number(text, u32::from(from))?;
    text.push(b' ')?;
    write_file(text, roster, level, name)?;
    text.push(b'\n')?;
    Ok(())
}

fn write_list(text: &mut Vec<u8>, roster: &Roster, from: u8, level: u8) -> Result<(), AllocError>
    requires { level < length roster.now.levels }
    ensures { OnOk result (text.new.items ≡ text.old.items ++
        ended_text (line.Event (line.Ask from (line.ListNames (name_or_none roster.now level))))) }
{
    text.extend_from_slice(b"list ".as_slice())?;
    push_number(text, u32::from(from))?;
    text.push(b' ')?;
    write_name(text, roster, level)?;
    text.push(b'\n')?;
    Ok(())
}

fn write_remove(text: &mut Vec<u8>, from: u8, name: &Name) -> Result<(), AllocError>
    ensures { OnOk result (text.new.items ≡ text.old.items ++
        ended_text (line.Event (line.Ask from (line.Remove name.now)))) }
{
    text.extend_from_slice(b"remove ".as_slice())?;
    push_number(text, u32::from(from))?;
    text.push(b' ')?;
    text.extend_from_slice(name.bytes())?;
    text.push(b'\n')?;
    Ok(())
}

fn write_append(
    text: &mut Vec<u8>,
    from: u8,
    name: &Name,
    content: &Content,
) -> Result<(), AllocError>
    ensures { OnOk result (text.new.items ≡ text.old.items ++
        ended_text (line.Event (line.Ask from (line.Append name.now content.now)))) }
{
    text.extend_from_slice(b"append ".as_slice())?;
    push_number(text, u32::from(from))?;
    text.push(b' ')?;
    text.extend_from_slice(name.bytes())?;
    text.push(b' ')?;
    push_hex(text, content.bytes())?;
    text.push(b'\n')?;
    Ok(())
}

fn write_block(
    text: &mut Vec<u8>,
    roster: &Roster,
    from: u8,
    level: u8,
    name: &Name,
    block: u8,
) -> Result<(), AllocError>
    requires { level < length roster.now.levels }
    ensures { OnOk result (text.new.items ≡ text.old.items ++ ended_text
        (line.Event (line.Ask from (line.Block (name_or_none roster.now level) name.now block)))) }
{
    text.extend_from_slice(b"block ".as_slice())?;
    push_number(text, u32::from(from))?;
    text.push(b' ')?;
    write_file(text, roster, level, name)?;
    text.push(b' ')?;
    push_number(text, u32::from(block))?;
    text.push(b'\n')?;
    Ok(())
}

/// Writes what a host asks of the manager unit of its level.
fn write_ask(text: &mut Vec<u8>, roster: &Roster, from: u8, call: &Call) -> Result<(), AllocError>
    requires { is_call_named roster.now call.now ≡ true }
    ensures { OnOk result (text.new.items ≡
        text.old.items ++ ended_text (line_of_event roster.now (Event.Ask from call.now))) }
{
    match call {
        Call::Put { name, content } => write_put(text, from, name, content),
        Call::Get { level, name } => write_get(text, roster, from, *level, name),
        Call::List { level } => write_list(text, roster, from, *level),
        Call::Remove { name } => write_remove(text, from, name),
        Call::Append { name, content } => write_append(text, from, name, content),
        Call::GetBlock { level, name, block } => {
            write_block(text, roster, from, *level, name, *block)
        }
    }
}

/// Writes to whom something is handed.
fn write_at(text: &mut Vec<u8>, roster: &Roster, at: Party) -> Result<(), AllocError>
    requires { is_known roster.now at ≡ true }
    ensures { OnOk result (text.new.items ≡
        text.old.items ++ codes " to " ++ party_text (party_said roster.now at)) }
{
    text.extend_from_slice(b" to ".as_slice())?;
    write_party(text, roster, at)
}

fn write_deliver(
    text: &mut Vec<u8>,
    roster: &Roster,
    stream: Stream,
    message: u32,
    piece: u8,
    at: Party,
) -> Result<(), AllocError>
    requires from { is_known roster.now stream.from ≡ true }
    requires to { is_known roster.now stream.to ≡ true }
    requires at { is_known roster.now at ≡ true }
    ensures { OnOk result (text.new.items ≡ text.old.items ++
        ended_text (line_of_event roster.now (Event.Arrive stream message piece at))) }
{
    text.extend_from_slice(b"deliver ".as_slice())?;
    write_piece(text, roster, stream, message, piece)?;
    write_at(text, roster, at)?;
    text.push(b'\n')?;
    Ok(())
}

fn write_carry(
    text: &mut Vec<u8>,
    roster: &Roster,
    stream: Stream,
    message: u32,
    at: Party,
) -> Result<(), AllocError>
    requires from { is_known roster.now stream.from ≡ true }
    requires to { is_known roster.now stream.to ≡ true }
    requires at { is_known roster.now at ≡ true }
    ensures { OnOk result (text.new.items ≡ text.old.items ++
        ended_text (line_of_event roster.now (Event.Carry stream message at))) }
{
    text.extend_from_slice(b"carry ".as_slice())?;
    write_message(text, roster, stream, message)?;
    write_at(text, roster, at)?;
    text.push(b'\n')?;
    Ok(())
}

fn write_forge(
    text: &mut Vec<u8>,
    roster: &Roster,
    at: Party,
    bytes: &[u8; 128],
) -> Result<(), AllocError>
    requires { is_known roster.now at ≡ true }
    ensures { OnOk result (text.new.items ≡
        text.old.items ++ ended_text (line_of_event roster.now (Event.Forge at bytes.now))) }
{
    text.extend_from_slice(b"forge ".as_slice())?;
    write_party(text, roster, at)?;
    text.push(b' ')?;
    push_hex(text, bytes)?;
    text.push(b'\n')?;
    Ok(())
}

/// Writes edits, with a space in front of each.
fn write_edits(text: &mut Vec<u8>, edits: &[(u8, u8)]) -> Result<(), AllocError>
    ensures { OnOk result (text.new.items ≡
        text.old.items ++ flat_map (λ edit. 32 ∷ edit_text edit) edits.now) }
{
    for (offset, xor) in edits {
        text.push(b' ')?;
        write_edit(text, *offset, *xor)?;
    }
    Ok(())
}

/// Writes to whom something is handed, and the edits.
fn write_edited(
    text: &mut Vec<u8>,
    roster: &Roster,
    at: Party,
    edits: &Edits,
) -> Result<(), AllocError>
    requires { is_known roster.now at ≡ true }
    ensures { OnOk result (text.new.items ≡ text.old.items ++ codes " to " ++
        join_with_byte 32 (party_text (party_said roster.now at) ∷ map edit_text edits.now)) }
{
    write_at(text, roster, at)?;
    write_edits(text, edits.pairs())
}

fn write_tamper(
    text: &mut Vec<u8>,
    roster: &Roster,
    stream: Stream,
    message: u32,
    piece: u8,
    at: Party,
    edits: &Edits,
) -> Result<(), AllocError>
    requires from { is_known roster.now stream.from ≡ true }
    requires to { is_known roster.now stream.to ≡ true }
    requires at { is_known roster.now at ≡ true }
    ensures { OnOk result (text.new.items ≡ text.old.items ++
        ended_text (line_of_event roster.now (Event.Tamper stream message piece at edits.now))) }
{
    text.extend_from_slice(b"tamper ".as_slice())?;
    write_piece(text, roster, stream, message, piece)?;
    write_edited(text, roster, at, edits)?;
    text.push(b'\n')?;
    Ok(())
}

/// Writes the line of an event.
pub fn write_event(text: &mut Vec<u8>, roster: &Roster, event: &Event) -> Result<(), AllocError>
    requires { is_named roster.now event.now ≡ true }
    ensures { OnOk result (text.new.items ≡
        text.old.items ++ ended_text (line_of_event roster.now event.now)) }
{
    match event {
        Event::Send { from, to, message } => {
            write_send(text, roster, *from, *to, message.bytes())
        }
        Event::Ask { from, call } => write_ask(text, roster, *from, call.call()),
        Event::Arrive {
            stream,
            message,
            piece,
            at,
        } => write_deliver(text, roster, *stream, *message, *piece, *at),
        Event::Carry {
            stream,
            message,
            at,
        } => write_carry(text, roster, *stream, *message, *at),
        Event::Forge { at, frame } => write_forge(text, roster, *at, frame.bytes()),
        Event::Tamper {
            stream,
            message,
            piece,
            at,
            edits,
        } => write_tamper(text, roster, *stream, *message, *piece, *at, edits),
    }
}
