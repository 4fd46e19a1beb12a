ghost use Rattle.std.specs.Prelude.{◌≡◌, ℕ, ◌-◌, ◌<◌, ◌≤◌, ◌^◌, true, IfOk, IfSome, OnOk, OnErr};
ghost use Rattle.std.specs.Option.{option_copied};
ghost use Rattle.std.specs.Map.{keys_of};
ghost use Rattle.std.specs.BTreeMap.{btree_map_len, keys};
ghost use Rattle.machine.specs.Files.{versions_of, takes_name, next_version};
ghost use Rattle.file_manager.specs.inside.Shelves.{empty_shelf, with_versions, without_name};

use crate::versions::Versions;
use file_calls::{Name, NameList};
use std::alloc::{AllocError, Global};
use std::collections::BTreeMap;
use std::marker::Model;

/// The most files of a level.
const FILE_LIMIT: usize = 128;

/// The most versions that a level draws.
const VERSION_LIMIT: u64 = (1 << 56) - 1;

/// What is kept of a level: the versions of its files, and how many versions were drawn.
#[derive(Drop)]
pub struct Shelf {
    files: BTreeMap<Name, Versions>,
    drawn: u64,
}

impl Model for Shelf {
    ghost use Rattle.std.specs.Prelude.{◌<◌, ◌≤◌, ◌^◌, length};
    ghost use Rattle.file_manager.specs.ShelfView.{ShelfView};

    ghost Value = { ShelfView };

    ghost view = { λ a. record { names = a.files.entries; drawn = a.drawn } };

    ghost invariant = { λ a. (length a.files.entries ≤ 128) × (a.drawn < 2 ^ 56) };
}

/// The names in order.
fn name_list(alloc: Global, files: &BTreeMap<Name, Versions>) -> Result<NameList, AllocError>
    requires { btree_map_len files.now ≤ 128 }
    ensures { IfOk result (λ names. names ≡ keys files.now) }
{
    let mut names = NameList::new(alloc);
    for name in files.keys() {
        names.push(name.copy(alloc)?)?;
    }
    Ok(names)
}

impl Shelf {
    pub fn new(alloc: Global) -> Shelf
        ensures { result ≡ empty_shelf }
    {
        Shelf {
            files: BTreeMap::new(alloc),
            drawn: 0,
        }
    }

    /// The version that the next write draws, where one is left.
    pub fn next_version(&self) -> Option<u64>
        ensures next { result ≡ next_version self.now.drawn }
        ensures left { IfSome result
            (λ version. (self.now.drawn < 2 ^ 56 - 1) × (version < 2 ^ 56)) }
    {
        if self.drawn < VERSION_LIMIT {
            Some(self.drawn + 1)
        } else {
            None
        }
    }

    pub fn versions_of(&self, name: &Name) -> Option<&Versions>
        ensures { option_copied result ≡ versions_of name.now self.now.names }
    {
        self.files.get(name)
    }

    /// Whether a name is there, or there is room for it.
    pub fn takes_name(&self, name: &Name) -> bool
        ensures { result ≡ takes_name self.now.names name.now }
    {
        self.files.contains_key(name) || self.files.len() < FILE_LIMIT
    }

    /// Gives a name these versions, the last of which is drawn now; the versions that it had.
    pub fn write(&mut self, name: Name, versions: Versions) -> Result<Option<Versions>, AllocError>
        requires room { takes_name self.old.names name ≡ true }
        requires left { self.old.drawn < 2 ^ 56 - 1 }
        ensures old { IfOk result (λ old. old ≡ versions_of name self.old.names) }
        ensures ok { OnOk result (self.new ≡ with_versions name versions self.old) }
        ensures err { OnErr result (self.new ≡ self.old) }
    {
        let old = self.files.insert(name, versions)?;
        self.drawn += 1;
        Ok(old)
    }

    /// Takes a name out; the versions that it had.
    pub fn remove(&mut self, name: &Name) -> Option<Versions>
        ensures old { result ≡ versions_of name.now self.old.names }
        ensures new { self.new ≡ without_name name.now self.old }
    {
        self.files.remove(name)
    }

    pub fn names(&self, alloc: Global) -> Result<NameList, AllocError>
        ensures { IfOk result (λ names. names ≡ keys_of self.now.names) }
    {
        name_list(alloc, &self.files)
    }
}
