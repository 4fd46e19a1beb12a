ghost use Rattle.std.specs.Prelude.{◌≡◌, ◌+◌, ◌-◌, ◌^◌, ◌<◌, ◌≤◌, ◌++◌, ℕ, List, [], length, take, drop, slice_index, slice_set, IfOk, OnOk};
ghost use Rattle.machine.specs.declared.line.FrameRow.{FrameRow};
ghost use Rattle.engine.specs.Slots.{slot_of, HasSlot};
ghost use Rattle.engine.specs.inside.Merging.{counter_of, rows_of, sealed_at, AreFramesOf, IsMerged};

use crate::slots::{SLOTS, slot_of};
use desk::Wire;
use events::Stream;
use levels::Party;
use machine::FrameRow;
use std::alloc::{AllocError, Global};

/// How many streams there can be between two slots.
const STREAMS: usize = SLOTS * SLOTS;

/// A message that was sent.
#[derive(Clone, Copy)]
pub(crate) struct SentRow {
    pub stream: Stream,
    pub pieces: u8,
}

/// Where the messages of a stream are counted.
fn counter_of(stream: Stream) -> usize
    ensures counter { result ≡ counter_of stream }
    ensures room { result < 262144 }
    ensures from { HasSlot stream.from }
    ensures to { HasSlot stream.to }
{
    SLOTS * slot_of(stream.from) + slot_of(stream.to)
}

/// The number of the next message of the stream that is counted there.
fn next_number(counter: usize, counts: &mut [u32]) -> u32
    requires room { counter < length counts.old }
    requires few { slice_index counts.old counter < 2 ^ 32 - 1 }
    ensures number { result ≡ slice_index counts.old counter }
    ensures counts { counts.new ≡ slice_set counts.old counter (result + 1) }
{
    let number = counts[counter];
    counts[counter] = number + 1;
    number
}

/// What the unit of a party sealed.
fn frames_of(wires: &[Option<Wire>], party: Party) -> &[[u8; 128]]
    requires { length wires.now ≡ 512 }
    ensures { result.now ≡ sealed_at wires.now (slot_of party) }
{
    match &wires[slot_of(party)] {
        None => &[],
        Some(wire) => wire.frames(),
    }
}

/// The frames of a message, which has this number in its stream.
fn push_frames(
    stream: Stream,
    number: u32,
    frames: &[[u8; 128]],
    rows: &mut Vec<FrameRow>,
) -> Result<(), AllocError>
    requires { length frames.now < 256 }
    ensures { OnOk result (rows.new.items ≡ rows.old.items ++ rows_of stream number 0 frames.now) }
{
    for (piece, bytes) in frames.iter().enumerate() {
        rows.push(FrameRow {
            stream,
            message: number,
            piece: piece as u8,
            bytes: *bytes,
        })?;
    }
    Ok(())
}

/// The next frames of a sender, as those of the next message of a stream.
fn merge_one(
    row: &SentRow,
    own: &[[u8; 128]],
    counter: usize,
    taken: &mut [usize],
    counts: &mut [u32],
    frames: &mut Vec<FrameRow>,
) -> Result<(), AllocError>
    requires slots { length taken.old ≡ 512 }
    requires room { counter < length counts.old }
    requires own { slice_index taken.old (slot_of row.now.stream.from) + row.now.pieces
        ≤ length own.now }
    requires few { slice_index counts.old counter < 2 ^ 32 - 1 }
    ensures taken { let slot = slot_of row.now.stream.from in
        taken.new ≡ slice_set taken.old slot (slice_index taken.old slot + row.now.pieces) }
    ensures counts { counts.new
        ≡ slice_set counts.old counter (slice_index counts.old counter + 1) }
    ensures frames { OnOk result (
        let start = slice_index taken.old (slot_of row.now.stream.from) in
        frames.new.items ≡ frames.old.items
        ++ rows_of row.now.stream (slice_index counts.old counter) 0
        (take row.now.pieces (drop start own.now))) }
{
    let slot = slot_of(row.stream.from);
    let start = taken[slot];
    let end = start + usize::from(row.pieces);
    taken[slot] = end;
    let number = next_number(counter, counts);
    push_frames(row.stream, number, &own[start..end], frames)
}

/// The next frames of each sender, message by message.
fn merge_rows(
    sent: &[SentRow],
    wires: &[Option<Wire>],
    taken: &mut [usize],
    counts: &mut [u32],
    frames: &mut Vec<FrameRow>,
) -> Result<(), AllocError>
    requires few { length sent.now < 2 ^ 32 }
    requires slots { length wires.now ≡ 512 }
    requires sealed { (rows : List FrameRow) × AreFramesOf sent.now wires.now rows }
    requires none { IsMerged wires.now [] taken.old counts.old frames.old.items }
    ensures { OnOk result (IsMerged wires.now sent.now taken.new counts.new frames.new.items) }
{
    for row in sent {
        let own = frames_of(wires, row.stream.from);
        let counter = counter_of(row.stream);
        merge_one(row, own, counter, taken, counts, frames)?;
    }
    Ok(())
}

/// No frame is taken of so many units.
fn none_taken(alloc: Global, units: usize) -> Result<Vec<usize>, AllocError>
    ensures length { IfOk result (λ taken. length taken.items ≡ units) }
    ensures none { IfOk result (λ taken. (k : ℕ) → slice_index taken.items k ≡ 0) }
{
    vec![in alloc; 0usize; units]
}

/// No message came of so many streams.
fn none_counted(alloc: Global, streams: usize) -> Result<Vec<u32>, AllocError>
    ensures length { IfOk result (λ counts. length counts.items ≡ streams) }
    ensures none { IfOk result (λ counts. (k : ℕ) → slice_index counts.items k ≡ 0) }
{
    vec![in alloc; 0u32; streams]
}

/// How many frames there are of these messages.
fn frame_count(sent: &[SentRow]) -> usize {
    let mut count: usize = 0;
    for row in sent {
        count = count.saturating_add(usize::from(row.pieces));
    }
    count
}

/// All frames, in order of event and piece: those of each message are the next of its sender.
pub(crate) fn merge_all(
    alloc: Global,
    sent: &[SentRow],
    wires: &[Option<Wire>],
) -> Result<Vec<FrameRow>, AllocError>
    requires few { length sent.now < 2 ^ 32 }
    requires slots { length wires.now ≡ 512 }
    requires sealed { (rows : List FrameRow) × AreFramesOf sent.now wires.now rows }
    ensures { IfOk result (λ frames. (rows : List FrameRow) →
        AreFramesOf sent.now wires.now rows → frames.items ≡ rows) }
{
    let mut taken = none_taken(alloc, SLOTS)?;
    let mut counts = none_counted(alloc, STREAMS)?;
    let mut frames = Vec::with_capacity(alloc, frame_count(sent))?;
    merge_rows(sent, wires, &mut taken, &mut counts, &mut frames)?;
    Ok(frames)
}
