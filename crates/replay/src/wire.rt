ghost use Rattle.std.specs.Prelude.{◌≡◌, ◌++◌, OnOk, IfOk};
ghost use Rattle.std.specs.List.{flat_map};
ghost use Rattle.engine.specs.Reports.{IsReport};
ghost use Rattle.events.specs.Words.{hex_word};
ghost use Rattle.machine.specs.Text.{piece_word, frame_text, wire_text};

use crate::print::push_party;
use engine::Report;
use events::push_number;
use levels::Roster;
use machine::FrameRow;
use std::alloc::{AllocError, Global};

/// Room for the line of a frame: two parties of at most eight characters, a message's number of at
/// most ten digits, a piece's of at most two, 256 digits, and the marks between and behind them.
const LINE_ROOM: usize = 289;

fn push_piece(out: &mut Vec<u8>, roster: &Roster, row: &FrameRow) -> Result<(), AllocError>
    ensures { OnOk result (out.new.items ≡ out.old.items ++ piece_word roster.now row.now) }
{
    push_party(out, roster, row.stream.from)?;
    out.extend_from_slice(b">".as_slice())?;
    push_party(out, roster, row.stream.to)?;
    out.extend_from_slice(b"#".as_slice())?;
    push_number(out, row.message)?;
    out.extend_from_slice(b".".as_slice())?;
    push_number(out, u32::from(row.piece))
}

/// Appends the bytes of a frame in hexadecimal digits.
fn push_digits(out: &mut Vec<u8>, bytes: &[u8; 128]) -> Result<(), AllocError>
    ensures { OnOk result (out.new.items ≡ out.old.items ++ hex_word bytes.now) }
{
    let mut digits = [0; 256];
    match hex::encode_to_slice(bytes.as_slice(), &mut digits) {
        Ok(()) => out.extend_from_slice(&digits),
        Err(_) => unreachable!(),
    }
}

fn push_frame(out: &mut Vec<u8>, roster: &Roster, row: &FrameRow) -> Result<(), AllocError>
    ensures { OnOk result (out.new.items ≡ out.old.items ++ frame_text roster.now row.now) }
{
    push_piece(out, roster, row)?;
    out.extend_from_slice(b" ".as_slice())?;
    push_digits(out, &row.bytes)?;
    out.extend_from_slice(b"\n".as_slice())
}

fn frame_lines(alloc: Global, roster: &Roster, frames: &[FrameRow]) -> Result<Vec<u8>, AllocError>
    ensures { IfOk result (λ written. written.items
        ≡ flat_map (frame_text roster.now) frames.now) }
{
    // The room for all lines is taken at once, since there can be millions.
    let mut out = Vec::with_capacity(alloc, frames.len().saturating_mul(LINE_ROOM))?;
    for row in frames {
        push_frame(&mut out, roster, row)?;
    }
    Ok(out)
}

/// The wire of a run: a line for each of its frames.
pub fn wire(alloc: Global, report: &Report) -> Result<Vec<u8>, AllocError>
    requires { IsReport report.now.script report.now }
    ensures { IfOk result (λ written. written.items ≡ wire_text report.now.script) }
{
    frame_lines(alloc, report.script().roster(), report.frames())
}
