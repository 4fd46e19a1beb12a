ghost use Rattle.std.specs.Prelude.{◌≤◌, vec_capacity};

use crate::messages::Messages;
use crate::rows::{FrameKind, SendAnswer};
use frame::MESSAGE_LIMIT;
use std::alloc::{AllocError, Global};

/// How many sends a turn takes.
const SENDS: usize = 4;

/// How many frames a turn takes. It seals as many at most, 64 for each send.
const FRAMES: usize = 256;

/// What the host's side fills in a turn.
#[derive(Drop)]
pub(crate) struct HostOut {
    pub(crate) answers: Vec<SendAnswer>,
    pub(crate) messages: Messages,
    /// Where a message is put together before it joins the others.
    pub(crate) body: [u8; MESSAGE_LIMIT],
    ghost answers_room: { 4 ≤ vec_capacity answers },
}

/// What the network's side fills in a turn.
#[derive(Drop)]
pub(crate) struct NetOut {
    pub(crate) kinds: Vec<FrameKind>,
    /// The index of each frame that is the unit's.
    pub(crate) places: Vec<u16>,
    pub(crate) sealed: Vec<[u8; 128]>,
    ghost kinds_room: { 256 ≤ vec_capacity kinds },
    ghost places_room: { 256 ≤ vec_capacity places },
    ghost sealed_room: { 256 ≤ vec_capacity sealed },
}

impl HostOut {
    ghost use Rattle.std.specs.Prelude.{◌≡◌, [], map, IfOk};
    ghost use Rattle.unit_core.specs.inside.Messages.{renumbered};

    pub(crate) fn open(alloc: Global) -> Result<HostOut, AllocError>
        ensures answers { IfOk result (λ out. out.answers.items ≡ []) }
        ensures messages { IfOk result (λ out. out.messages.list ≡ []) }
    {
        let answers = Vec::with_capacity(alloc, SENDS)?;
        Ok(HostOut {
            answers,
            messages: Messages::open(alloc)?,
            body: [0; MESSAGE_LIMIT],
        })
    }

    pub(crate) fn clear(&mut self)
        ensures answers { self.new.answers.items ≡ [] }
        ensures messages { self.new.messages.list ≡ [] }
        ensures answers_memory { vec_capacity self.new.answers ≡ vec_capacity self.old.answers }
        ensures messages_memory { self.new.messages.room ≡ self.old.messages.room }
    {
        self.answers.clear();
        self.messages.clear();
    }

    /// Gives each message the frame at its place, in place of that place.
    pub(crate) fn renumber(&mut self, places: &[u16])
        ensures answers { self.new.answers ≡ self.old.answers }
        ensures messages { self.new.messages.list
            ≡ map (renumbered places.now) self.old.messages.list }
        ensures memory { self.new.messages.room ≡ self.old.messages.room }
    {
        self.messages.renumber(places);
    }
}

impl NetOut {
    ghost use Rattle.std.specs.Prelude.{◌≡◌, [], IfOk};
    ghost use Rattle.unit_core.specs.inside.Outs.{SameRoom};

    pub(crate) fn open(alloc: Global) -> Result<NetOut, AllocError>
        ensures kinds { IfOk result (λ out. out.kinds.items ≡ []) }
        ensures sealed { IfOk result (λ out. out.sealed.items ≡ []) }
    {
        Ok(NetOut {
            kinds: Vec::with_capacity(alloc, FRAMES)?,
            places: Vec::with_capacity(alloc, FRAMES)?,
            sealed: Vec::with_capacity(alloc, FRAMES)?,
        })
    }

    pub(crate) fn clear(&mut self)
        ensures kinds { self.new.kinds.items ≡ [] }
        ensures places { self.new.places.items ≡ [] }
        ensures sealed { self.new.sealed.items ≡ [] }
        ensures memory { SameRoom self.old self.new }
    {
        self.kinds.clear();
        self.places.clear();
        self.sealed.clear();
    }
}
