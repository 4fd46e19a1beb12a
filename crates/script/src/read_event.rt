ghost use Rattle.std.specs.Prelude.{◌≡◌};
ghost use Rattle.script.specs.inside.Readers.{meant, Reads, Gives, words_behind, event_read};
ghost use Rattle.script.specs.inside.Readers.{send_form, deliver_form, carry_form, forge_form};
ghost use Rattle.script.specs.inside.Readers.{tamper_form};

use crate::bytes::frame_word;
use crate::cut::cut;
use crate::edits::edit_words;
use crate::line::{EventWords, Line, formed};
use crate::message::message_bytes;
use crate::parties::{host_address, message_word, party_word, piece_word};
use crate::read_call::call_line;
use crate::refusal::{Reason, Stop};
use crate::words::{three_words, two_words};
use events::ForgedFrame;
use std::alloc::Global;

/// The mark between two words of a line.
const SPACE: u8 = b' ';

#[tactic(auto, unfolding(crate::specs::inside::Readers::send_form))]
fn send_line(alloc: Global, behind: Option<&[u8]>) -> Result<Line, Stop>
    ensures { Gives meant result (send_form (words_behind behind.entry)) }
{
    let (from, to, message) = three_words(behind).ok_or(Stop::Refused(Reason::Form))?;
    let from = host_address(from).ok_or(Stop::Refused(Reason::Form))?;
    let to = party_word(to).ok_or(Stop::Refused(Reason::Form))?;
    let message = message_bytes(alloc, message)?;
    Ok(Line::Event(EventWords::Send { from, to, message }))
}

#[tactic(auto, unfolding(crate::specs::inside::Readers::deliver_form))]
fn deliver_line(behind: Option<&[u8]>) -> Option<Line>
    ensures { Reads meant result (deliver_form (words_behind behind.entry)) }
{
    let (piece, to, at) = three_words(behind)?;
    let (stream, (message, piece)) = piece_word(piece)?;
    if to != b"to".as_slice() {
        return None;
    }
    let at = party_word(at)?;
    Some(Line::Event(EventWords::Deliver {
        stream,
        message,
        piece,
        at,
    }))
}

#[tactic(auto, unfolding(crate::specs::inside::Readers::carry_form))]
fn carry_line(behind: Option<&[u8]>) -> Option<Line>
    ensures { Reads meant result (carry_form (words_behind behind.entry)) }
{
    let (message, to, at) = three_words(behind)?;
    let (stream, message) = message_word(message)?;
    if to != b"to".as_slice() {
        return None;
    }
    let at = party_word(at)?;
    Some(Line::Event(EventWords::Carry {
        stream,
        message,
        at,
    }))
}

#[tactic(auto, unfolding(crate::specs::inside::Readers::forge_form))]
fn forge_line(alloc: Global, behind: Option<&[u8]>) -> Result<Line, Stop>
    ensures { Gives meant result (forge_form (words_behind behind.entry)) }
{
    let (at, frame) = two_words(behind).ok_or(Stop::Refused(Reason::Form))?;
    let at = party_word(at).ok_or(Stop::Refused(Reason::Form))?;
    let frame = frame_word(frame).ok_or(Stop::Refused(Reason::Form))?;
    let frame = ForgedFrame::new(alloc, &frame)?;
    Ok(Line::Event(EventWords::Forge { at, frame }))
}

#[tactic(auto, unfolding(crate::specs::inside::Readers::tamper_form))]
fn tamper_line(behind: Option<&[u8]>) -> Option<Line>
    ensures { Reads meant result (tamper_form (words_behind behind.entry)) }
{
    let (piece, rest) = cut(behind?, SPACE)?;
    let (to, rest) = cut(rest, SPACE)?;
    let (at, edits) = cut(rest, SPACE)?;
    let (stream, (message, piece)) = piece_word(piece)?;
    if to != b"to".as_slice() {
        return None;
    }
    let at = party_word(at)?;
    let edits = edit_words(edits)?;
    Some(Line::Event(EventWords::Tamper {
        stream,
        message,
        piece,
        at,
        edits,
    }))
}

/// The line of what happens, by its first word.
#[tactic(auto, unfolding(crate::specs::inside::Readers::event_read))]
pub fn event_line(alloc: Global, first: &[u8], behind: Option<&[u8]>) -> Result<Line, Stop>
    ensures { Gives meant result (event_read first.now (words_behind behind.entry)) }
{
    if first == b"send".as_slice() {
        send_line(alloc, behind)
    } else if first == b"deliver".as_slice() {
        formed(deliver_line(behind))
    } else if first == b"carry".as_slice() {
        formed(carry_line(behind))
    } else if first == b"forge".as_slice() {
        forge_line(alloc, behind)
    } else if first == b"tamper".as_slice() {
        formed(tamper_line(behind))
    } else {
        call_line(alloc, first, behind)
    }
}
