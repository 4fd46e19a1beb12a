ghost use Rattle.std.specs.Prelude.{◌≡◌, ◌+◌, ◌≤◌, [], ◌++◌, length, IfOk};

use std::alloc::{AllocError, Global};
use std::marker::Model;

/// Bytes that stand one after the other, in memory that is taken once.
#[derive(Drop)]
pub(crate) struct Bodies {
    /// All bytes that there is room for. Those behind the used ones are of no matter.
    all: Vec<u8>,
    used: usize,
}

impl Model for Bodies {
    ghost use Rattle.std.specs.Prelude.{◌≤◌, length};
    ghost use Rattle.unit_core.specs.inside.Bodies.{BodiesView, view_of};

    ghost Value = { BodiesView };

    ghost view = { view_of };

    ghost invariant = { λ a. a.used ≤ length a.all.items };
}

impl Bodies {
    /// No bytes, with room for as many as are asked for.
    pub(crate) fn open(alloc: Global, most: usize) -> Result<Bodies, AllocError>
        ensures { IfOk result (λ bodies. (bodies.items ≡ []) × (bodies.most ≡ most)) }
    {
        Ok(Bodies {
            all: vec![in alloc; 0; most]?,
            used: 0,
        })
    }

    pub(crate) fn clear(&mut self)
        ensures none { self.new.items ≡ [] }
        ensures most { self.new.most ≡ self.old.most }
        ensures memory { self.new.room ≡ self.old.room }
    {
        self.used = 0;
    }

    /// Appends bytes for which there is room, and takes no memory.
    pub(crate) fn append(&mut self, bytes: &[u8])
        requires { length self.old.items + length bytes.now ≤ self.old.most }
        ensures items { self.new.items ≡ self.old.items ++ bytes.now }
        ensures most { self.new.most ≡ self.old.most }
        ensures memory { self.new.room ≡ self.old.room }
    {
        let end = self.used + bytes.len();
        self.all[self.used..end].copy_from_slice(bytes);
        self.used = end;
    }

    pub(crate) fn len(&self) -> usize
        ensures { result ≡ length self.now.items }
    {
        self.used
    }

    pub(crate) fn bytes(&self) -> &[u8]
        ensures { result.now ≡ self.now.items }
    {
        &self.all[..self.used]
    }
}
