ghost use Rattle.std.specs.Prelude.{◌≡◌, ◌==◌, ◌≤◌, ◌<◌, ◌+◌, [], ◌∷◌, ◌++◌, length, map, OnOk};
ghost use Rattle.desk.specs.Views.{no_batch};
ghost use Rattle.desk.specs.inside.Merging.{batch_send, batch_frames, size_of, sizes_in};

use levels::Party;
use std::alloc::{AllocError, Global};
use std::marker::Model;
use unit_core::Sends;

/// What waits for a turn: a message of so many bytes to a party, or a frame.
#[derive(Clone, Copy, Debug, PartialEq, Eq)]
pub enum Waiting {
    Send { to: Party, size: usize },
    Frame,
}

/// What is still to be done in a unit's next turn, in order.
#[derive(Drop)]
pub(crate) struct Batch {
    order: Vec<Waiting>,
    sends: Sends,
    frames: Vec<[u8; 128]>,
}

impl Model for Batch {
    ghost use Rattle.desk.specs.Views.{BatchView};

    ghost Value = { BatchView };

    ghost use Rattle.desk.specs.inside.Merging.{IsBatch};

    ghost view = { λ a. record {
      order = a.order.items;
      sends = a.sends;
      frames = a.frames.items;
    } };

    ghost invariant = { λ a. IsBatch (record {
      order = a.order.items;
      sends = a.sends;
      frames = a.frames.items;
    }) };
}

impl Batch {
    pub(crate) fn new(alloc: Global) -> Batch
        ensures { result ≡ no_batch }
    {
        Batch {
            order: Vec::new(alloc),
            sends: Sends::new(alloc),
            frames: Vec::new(alloc),
        }
    }

    pub(crate) fn order(&self) -> &[Waiting]
        ensures order { result.now ≡ self.now.order }
        ensures sizes { sizes_in result.now ≡ map size_of self.now.sends }
    {
        &self.order
    }

    pub(crate) fn sends(&self) -> &Sends
        ensures sends { result.now ≡ self.now.sends }
        ensures few { length result.now ≤ 4 }
    {
        &self.sends
    }

    pub(crate) fn frames(&self) -> &[[u8; 128]]
        ensures frames { result.now ≡ self.now.frames }
        ensures few { length result.now ≤ 256 }
    {
        &self.frames
    }

    /// Whether nothing waits.
    pub(crate) fn is_idle(&self) -> bool
        ensures test { result ≡ (length self.now.order == 0) }
        ensures all { length self.now.sends + length self.now.frames ≤ length self.now.order }
    {
        self.order.is_empty()
    }

    /// A message joins, which goes to a party with this address.
    pub(crate) fn push_send(
        &mut self,
        address: u8,
        to: Party,
        message: &[u8],
    ) -> Result<(), AllocError>
        requires { length self.old.sends < 4 }
        ensures { OnOk result (self.new ≡ batch_send self.old address to message.now) }
    {
        let size = message.len();
        self.order.reserve(1)?;
        self.sends.add(address, message)?;
        self.order.push_reserved(Waiting::Send { to, size });
        Ok(())
    }

    /// Frames join.
    pub(crate) fn push_frames(&mut self, frames: &[[u8; 128]]) -> Result<(), AllocError>
        requires { length self.old.frames + length frames.now ≤ 256 }
        ensures { OnOk result (self.new ≡ batch_frames self.old frames.now) }
    {
        let end = self.order.len() + frames.len();
        self.order.resize(end, Waiting::Frame)?;
        self.frames.extend_from_slice(frames)
    }

    pub(crate) fn clear(&mut self)
        ensures { self.new ≡ no_batch }
    {
        self.order.clear();
        self.sends.clear();
        self.frames.clear();
    }
}
