ghost use Rattle.std.specs.Prelude.{◌≡◌, IfOk};
ghost use Rattle.replay.specs.Lines.{reason_word, refused_line, check_line, opened_line, apart_line};

use events::push_number;
use script::{Reason, Refusal, Script};
use std::alloc::{AllocError, Global};

fn reason_word(reason: Reason) -> &'static [u8]
    ensures { result.now ≡ reason_word reason }
{
    match reason {
        Reason::Form => b"form".as_slice(),
        Reason::Place => b"place".as_slice(),
        Reason::Name => b"name".as_slice(),
        Reason::Twice => b"twice".as_slice(),
        Reason::Many => b"many".as_slice(),
        Reason::Key => b"key".as_slice(),
        Reason::End => b"end".as_slice(),
    }
}

pub fn refused_line(alloc: Global, refusal: Refusal) -> Result<Vec<u8>, AllocError>
    ensures { IfOk result (λ line. line.items ≡ refused_line refusal) }
{
    let mut line = Vec::new(alloc);
    line.extend_from_slice(b"refused ".as_slice())?;
    push_number(&mut line, refusal.line)?;
    line.extend_from_slice(b" ".as_slice())?;
    line.extend_from_slice(reason_word(refusal.reason))?;
    line.extend_from_slice(b"\n".as_slice())?;
    Ok(line)
}

pub fn check_line(alloc: Global, script: &Script) -> Result<Vec<u8>, AllocError>
    ensures { IfOk result (λ line. line.items ≡ check_line script.now) }
{
    let roster = script.roster();
    let rows = script.rows().len() as u32;
    let events = script.events().len() as u32;
    let mut line = Vec::new(alloc);
    line.extend_from_slice(b"ok levels ".as_slice())?;
    push_number(&mut line, u32::from(roster.level_count()))?;
    line.extend_from_slice(b" hosts ".as_slice())?;
    push_number(&mut line, u32::from(roster.host_count()))?;
    line.extend_from_slice(b" store ".as_slice())?;
    push_number(&mut line, rows)?;
    line.extend_from_slice(b" events ".as_slice())?;
    push_number(&mut line, events)?;
    line.extend_from_slice(b"\n".as_slice())?;
    Ok(line)
}

pub fn opened_line(alloc: Global, number: u32) -> Result<Vec<u8>, AllocError>
    ensures { IfOk result (λ line. line.items ≡ opened_line number) }
{
    let mut line = Vec::new(alloc);
    line.extend_from_slice(b"opened ".as_slice())?;
    push_number(&mut line, number)?;
    line.extend_from_slice(b"\n".as_slice())?;
    Ok(line)
}

pub fn apart_line(alloc: Global, place: u32) -> Result<Vec<u8>, AllocError>
    ensures { IfOk result (λ line. line.items ≡ apart_line place) }
{
    let mut line = Vec::new(alloc);
    line.extend_from_slice(b"apart ".as_slice())?;
    push_number(&mut line, place)?;
    line.extend_from_slice(b"\n".as_slice())?;
    Ok(line)
}
