ghost use Rattle.std.specs.Prelude.{◌≡◌, ◌+◌, ◌^◌, ◌<◌, ◌≤◌, [], ◌∷◌, ◌++◌, length, map, vec_capacity, slice_index, IfOk};
ghost use Rattle.unit_core.specs.inside.Messages.{joined, rows_from, renumbered, row_renumbered};

use crate::bodies::Bodies;
use crate::rows::GivenRow;
use std::alloc::{AllocError, Global};
use std::marker::Model;

/// How many messages a turn gives at most, one for each frame.
const ROWS: usize = 256;

/// How many bytes they have at most, 5,632 each.
const BODIES: usize = 1_441_792;

/// The messages that a turn gives: their rows, and the bytes of all, one after the other.
#[derive(Drop)]
pub(crate) struct Messages {
    rows: Vec<GivenRow>,
    bodies: Bodies,
}

impl Model for Messages {
    ghost use Rattle.unit_core.specs.inside.Messages.{MessagesView, view_of, AreMessages};

    ghost Value = { MessagesView };

    ghost view = { view_of };

    ghost invariant = { AreMessages };
}

/// The index of the frame at this place, or 0 past the last one.
fn frame_at(places: &[u16], place: u16) -> u16
    ensures { result ≡ slice_index places.now place }
{
    places.get(usize::from(place)).copied().unwrap_or(0)
}

/// A row with the frame at its place, in place of that place.
fn with_frame(row: GivenRow, places: &[u16]) -> GivenRow
    ensures { result ≡ row_renumbered places.now row }
{
    GivenRow {
        frame: frame_at(places, row.frame),
        ..row
    }
}

fn renumber_rows(rows: &mut Vec<GivenRow>, places: &[u16])
    ensures rows { rows.new.items ≡ map (row_renumbered places.now) rows.old.items }
    ensures memory { vec_capacity rows.new ≡ vec_capacity rows.old }
{
    for i in 0..rows.len() {
        rows[i] = with_frame(rows[i], places);
    }
}

impl Messages {
    pub(crate) fn open(alloc: Global) -> Result<Messages, AllocError>
        ensures { IfOk result (λ messages. messages.list ≡ []) }
    {
        Ok(Messages {
            rows: Vec::with_capacity(alloc, ROWS)?,
            bodies: Bodies::open(alloc, BODIES)?,
        })
    }

    pub(crate) fn clear(&mut self)
        ensures none { self.new.list ≡ [] }
        ensures memory { self.new.room ≡ self.old.room }
    {
        self.rows.clear();
        self.bodies.clear();
    }

    /// Adds a message. It takes no memory.
    pub(crate) fn push(&mut self, frame: u16, from: u8, message: u32, body: &[u8])
        requires few { length self.old.list < 256 }
        requires short { length body.now ≤ 5632 }
        requires bytes { length (joined self.old.list) + length body.now ≤ 1441792 }
        ensures pushed { self.new.list ≡ self.old.list ++ record {
          frame = frame;
          from = from;
          message = message;
          body = body.now;
        } ∷ [] }
        ensures memory { self.new.room ≡ self.old.room }
    {
        let row = GivenRow {
            frame,
            from,
            message,
            start: self.bodies.len() as u32,
            length: body.len() as u16,
        };
        self.rows.push_reserved(row);
        self.bodies.append(body);
    }

    /// Gives each message the frame at its place, in place of that place.
    pub(crate) fn renumber(&mut self, places: &[u16])
        ensures renumbered { self.new.list ≡ map (renumbered places.now) self.old.list }
        ensures memory { self.new.room ≡ self.old.room }
    {
        renumber_rows(&mut self.rows, places);
    }

    pub(crate) fn len(&self) -> usize
        ensures { result ≡ length self.now.list }
    {
        self.rows.len()
    }

    /// One row for each message.
    pub(crate) fn rows(&self) -> &[GivenRow]
        ensures { result.now ≡ rows_from 0 self.now.list }
    {
        &self.rows
    }

    pub(crate) fn bodies(&self) -> &[u8]
        ensures { result.now ≡ joined self.now.list }
    {
        self.bodies.bytes()
    }
}
