ghost use Rattle.std.specs.Prelude.{◌≡◌, ◌+◌, ◌≤◌, List, [], ◌∷◌, ◌++◌, All, length, drop, IfOk, OnOk};
ghost use Rattle.unit_core.specs.declared.rows.SendAnswer.{SendAnswer};
ghost use Rattle.desk.specs.declared.batch.Waiting.{Waiting};
ghost use Rattle.desk.specs.Deeds.{party_at, address_in};
ghost use Rattle.desk.specs.inside.Merging.{line_answered, line_given, merged, Covers, wire_merged};

use crate::batch::Waiting;
use crate::wire::Wire;
use events::Body;
use frame::pieces;
use levels::{Partition, Party};
use machine::OutLine;
use std::alloc::{AllocError, Global};
use unit_core::{GivenRow, SendAnswer};

/// Who has an address in a partition.
pub(crate) fn party_at(partition: u8, address: u8) -> Party
    ensures { result ≡ party_at partition address }
{
    if address == 0 {
        Party::Manager(Partition(partition))
    } else {
        Party::Host(address)
    }
}

/// The address of a party for the units of a partition.
pub(crate) fn address_in(partition: u8, party: Party) -> u8
    ensures { result ≡ address_in partition party }
{
    match party {
        Party::Host(address) => address,
        Party::Manager(Partition(other)) if other == partition => 0,
        Party::Manager(_) => 255,
    }
}

fn line_answered(to: Party, answer: SendAnswer) -> OutLine
    ensures { result ≡ line_answered to answer }
{
    match answer {
        SendAnswer::Sent(message) => OutLine::Sent { to, message },
        SendAnswer::Refused(why) => OutLine::Refused { to, why },
    }
}

fn line_given(
    alloc: Global,
    partition: u8,
    bodies: &[u8],
    row: &GivenRow,
) -> Result<OutLine, AllocError>
    requires { row.now.start + row.now.length ≤ length bodies.now }
    ensures { IfOk result (λ line. line ≡ line_given partition bodies.now row.now) }
{
    let start = row.start as usize;
    let end = start + usize::from(row.length);
    Ok(OutLine::From {
        from: party_at(partition, row.from),
        body: Body::new(alloc, &bodies[start..end])?,
    })
}

/// The line of the message that a frame gave, if it gave the next one. Ok has how many it gave.
fn tell_frame(
    alloc: Global,
    partition: u8,
    frame: usize,
    given: &[GivenRow],
    bodies: &[u8],
    lines: &mut Vec<OutLine>,
) -> Result<usize, AllocError>
    requires { All (λ row. row.start + row.length ≤ length bodies.now) given.now }
    ensures few { IfOk result (λ rows. rows ≤ length given.now) }
    ensures lines { IfOk result (λ rows. (order : List Waiting) (answers : List SendAnswer) →
        lines.new.items
        ++ merged partition bodies.now order answers (frame + 1) (drop rows given.now)
        ≡ lines.old.items
        ++ merged partition bodies.now (Waiting.Frame ∷ order) answers frame given.now) }
{
    match given.first() {
        Some(row) if usize::from(row.frame) == frame => {
            lines.push(line_given(alloc, partition, bodies, row)?)?;
            Ok(1)
        }
        _ => Ok(0),
    }
}

/// The lines of a turn join in the order of its batch.
pub(crate) fn tell(
    alloc: Global,
    partition: u8,
    order: &[Waiting],
    answers: &[SendAnswer],
    given: &[GivenRow],
    bodies: &[u8],
    lines: &mut Vec<OutLine>,
) -> Result<(), AllocError>
    requires { All (λ row. row.start + row.length ≤ length bodies.now) given.now }
    ensures { OnOk result (lines.new.items
        ≡ lines.old.items ++ merged partition bodies.now order.now answers.now 0 given.now) }
{
    let mut sends: usize = 0;
    let mut frames: usize = 0;
    let mut rows: usize = 0;
    for waiting in order {
        match *waiting {
            Waiting::Send { to, .. } => {
                if sends < answers.len() {
                    lines.push(line_answered(to, answers[sends]))?;
                    sends += 1;
                } else {
                    return Ok(());
                }
            }
            Waiting::Frame => {
                rows += tell_frame(alloc, partition, frames, &given[rows..], bodies, lines)?;
                frames += 1;
            }
        }
    }
    Ok(())
}

/// The frames of a turn's accepted sends join what was sealed.
pub(crate) fn keep(
    partition: u8,
    order: &[Waiting],
    answers: &[SendAnswer],
    sealed: &[[u8; 128]],
    wire: &mut Wire,
) -> Result<(), AllocError>
    requires { Covers order.now answers.now sealed.now }
    ensures { OnOk result
        (wire.new ≡ wire_merged partition wire.old order.now answers.now sealed.now) }
{
    let mut sends: usize = 0;
    let mut at: usize = 0;
    for waiting in order {
        if let Waiting::Send { to, size } = *waiting {
            if let SendAnswer::Sent(_) = answers[sends] {
                let end = at + usize::from(pieces(size));
                wire.add(address_in(partition, to), &sealed[at..end])?;
                at = end;
            }
            sends += 1;
        }
    }
    Ok(())
}
