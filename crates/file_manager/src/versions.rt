ghost use Rattle.std.specs.Prelude.{◌≡◌, ℕ, ◌<◌, ◌≤◌, ◌^◌, [], ◌∷◌, ◌++◌, length, IfOk, IfSome, OnOk, OnErr, slice_get};

use std::alloc::{AllocError, Global};
use std::marker::Model;

/// The versions of a file's blocks, in order of block: 1 to 64, each below 2^56.
#[derive(Debug, Drop)]
pub struct Versions {
    items: Vec<u64>,
}

impl Model for Versions {
    ghost use Rattle.std.specs.Prelude.{List, ℕ};
    ghost use Rattle.file_manager.specs.inside.Kept.{AreVersions};

    ghost Value = { List ℕ };

    ghost view = { λ a. a.items.items };

    ghost invariant = { λ a. AreVersions a.items.items };
}

impl Versions {
    /// The versions of a file of one block.
    pub fn first(alloc: Global, version: u64) -> Result<Versions, AllocError>
        requires { version < 2 ^ 56 }
        ensures { IfOk result (λ versions. versions ≡ version ∷ []) }
    {
        let items = vec![in alloc; version; 1]?;
        Ok(Versions { items })
    }

    /// How many blocks there are.
    pub fn count(&self) -> u8
        ensures count { result ≡ length self.now }
        ensures some { 1 ≤ length self.now }
        ensures few { length self.now ≤ 64 }
    {
        self.items.len() as u8
    }

    /// The version of a block, if there is the block.
    pub fn get(&self, block: u8) -> Option<u64>
        ensures version { result ≡ slice_get self.now block }
        ensures small { IfSome result (λ version. (version < 2 ^ 56) × (block ≤ 63)) }
    {
        self.items.get(usize::from(block)).copied()
    }

    pub fn as_slice(&self) -> &[u64]
        ensures { result.now ≡ self.now }
    {
        &self.items
    }

    pub fn copy(&self, alloc: Global) -> Result<Versions, AllocError>
        ensures { IfOk result (λ copy. copy ≡ self.now) }
    {
        let items = Vec::from_slice(alloc, &self.items)?;
        Ok(Versions { items })
    }

    /// Appends the version of one block more.
    pub fn push(&mut self, version: u64) -> Result<(), AllocError>
        requires room { length self.old < 64 }
        requires small { version < 2 ^ 56 }
        ensures ok { OnOk result (self.new ≡ self.old ++ version ∷ []) }
        ensures err { OnErr result (self.new ≡ self.old) }
    {
        self.items.push(version)?;
        Ok(())
    }
}
