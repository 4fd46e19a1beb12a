ghost use Rattle.std.specs.Prelude.{◌≡◌, ◌+◌, ◌≤◌, [], map, length, replicate, IfOk, OnOk};
ghost use Rattle.desk.specs.inside.Kept.{items_of, part_of};
ghost use Rattle.desk.specs.Wires.{no_wire, message_frames, with_message};

use std::alloc::{AllocError, Global};
use std::marker::Model;

/// For how many frames there is room at first: 128 KiB, which the system gives as pages of its
/// own, so that none is used before a frame needs it and a larger room takes no copy.
const ROOM: usize = 1024;

/// Where the frames of a message stand: from the frame `first`, `count` of them.
#[derive(Clone, Copy)]
struct Run {
    first: usize,
    count: usize,
}

/// What a unit sealed, in order, and where the frames of each message stand among it.
#[derive(Drop)]
pub struct Wire {
    frames: Vec<[u8; 128]>,
    /// For each address, the messages to it.
    runs: Vec<Vec<Run>>,
}

impl Model for Wire {
    ghost use Rattle.desk.specs.Wires.{WireView};

    ghost Value = { WireView };

    ghost use Rattle.desk.specs.inside.Kept.{kept_of, view_of, IsKept};

    ghost view = { view_of };

    ghost invariant = { λ a. IsKept (kept_of a) };
}

/// An empty list for each address.
fn no_runs(alloc: Global) -> Result<Vec<Vec<Run>>, AllocError>
    ensures { IfOk result (λ runs. map items_of runs.items ≡ replicate 256 []) }
{
    let mut runs = Vec::with_capacity(alloc, 256)?;
    for _address in 0..256u16 {
        runs.push(Vec::new(alloc))?;
    }
    Ok(runs)
}

/// The frames of a run.
fn part<'a>(frames: &'a [[u8; 128]], run: &Run) -> &'a [[u8; 128]]
    requires { run.now.first + run.now.count ≤ length frames.now }
    ensures { result.now ≡ part_of frames.now run.now }
{
    &frames[run.first..run.first + run.count]
}

impl Wire {
    /// Nothing sealed yet.
    pub(crate) fn new(alloc: Global) -> Result<Wire, AllocError>
        ensures { IfOk result (λ wire. wire ≡ no_wire) }
    {
        let frames = Vec::with_capacity(alloc, ROOM)?;
        let runs = no_runs(alloc)?;
        Ok(Wire { frames, runs })
    }

    /// All frames, in the order in which they were sealed.
    pub fn frames(&self) -> &[[u8; 128]]
        ensures { result.now ≡ self.now.frames }
    {
        &self.frames
    }

    /// The frames of a message, in constant time: none where it isn't sealed.
    pub fn message(&self, to: u8, number: u32) -> &[[u8; 128]]
        ensures { result.now ≡ message_frames self.now to number }
    {
        match self.runs[usize::from(to)].get(number as usize) {
            None => &[],
            Some(run) => part(&self.frames, run),
        }
    }

    /// Keeps the frames of the next message to an address.
    pub(crate) fn add(&mut self, to: u8, frames: &[[u8; 128]]) -> Result<(), AllocError>
        ensures { OnOk result (self.new ≡ with_message self.old to frames.now) }
    {
        let first = self.frames.len();
        self.frames.extend_from_slice(frames)?;
        self.runs[usize::from(to)].push(Run {
            first,
            count: frames.len(),
        })?;
        Ok(())
    }
}
