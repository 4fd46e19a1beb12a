ghost use Rattle.std.specs.Prelude.{◌≡◌, ℕ, ◌+◌, ◌<◌, ◌≤◌, ◌↔◌, [], length, map, filter, find, position, ◌==◌, ◌||◌, not, true, false, IsTrue, IsFalse, IsNone, IsSome, IfOk, IfSome, ◌++◌, OnOk, OnErr, IsErrOf, Some, None, slice_get};
ghost use Rattle.std.specs.List.{list_any};
ghost use Rattle.std.specs.Str.{bytes_eq};
ghost use Rattle.std.specs.Option.{option_map};
ghost use Rattle.levels.specs.Rosters.{is_same_level, level_named, partition_of, level_at, name_at, level_of, is_same_partition, addresses_but, partners_of};
ghost use Rattle.seal_core.specs.Blocks.{IsBlock};
ghost use Rattle.levels.specs.Kept.{IsRoster, IsKeyPair, IsComplete};
ghost use Rattle.levels.specs.Keys.{keys_at, guard_of, keys_of, pairs_of, is_key_refused};
ghost use Rattle.levels.specs.Adding.{AddsLevel, AddsKeys, SetsGuard, AddsHost, is_refused};
ghost use Rattle.levels.specs.declared.level.Sealing.TheVariants.{Des};
ghost use Rattle.levels.specs.declared.roster.RosterStop.TheVariants.{OutOfMemory};

use crate::hosts::Hosts;
use crate::keys::{clear_pair, is_key_of, is_key_of_guard, is_same_key, is_weak_key};
use crate::level::{Level, Partition, Party, Sealing};
use crate::name::LevelName;
use crate::rows::{HostRow, LevelRow};
use seal_core::KeyPair;
use std::alloc::{AllocError, AllocFailed, Global};
use std::marker::Model;

/// The most levels of a roster.
const LEVEL_LIMIT: usize = 16;

/// The most hosts of a roster.
const HOST_LIMIT: usize = 64;

/// The address that stands for a partition's manager unit.
const MANAGER_ADDRESS: u8 = 0;

/// The byte of the guarantor's check key under clear sealing.
const GUARD_BYTE: u8 = 0xff;

/// Why something was not added to a roster.
#[derive(Clone, Copy, Debug, PartialEq, Eq)]
pub enum RosterStop {
    /// The name, the value or the address is there.
    Twice,
    /// There are as many as a roster holds.
    Many,
    /// A key is weak, or is there; the parity bits are left out.
    Key,
    OutOfMemory,
}

impl From<AllocError> for RosterStop {
    ghost from_gives = { λ _ stop. stop ≡ OutOfMemory };

    fn from(_failed: AllocError) -> RosterStop {
        RosterStop::OutOfMemory
    }
}

impl<T: Drop> From<AllocFailed<T>> for RosterStop {
    ghost from_gives = { λ _ stop. stop ≡ OutOfMemory };

    fn from(_failed: AllocFailed<T>) -> RosterStop {
        RosterStop::OutOfMemory
    }
}

/// The levels, numbered from 0, and the hosts of a network, with the keys that it is sealed under.
#[derive(Debug, Drop)]
pub struct Roster {
    sealing: Sealing,
    levels: Vec<LevelRow>,
    keys: Vec<KeyPair>,
    guard: Option<KeyPair>,
    hosts: Hosts,
}

impl Model for Roster {
    ghost use Rattle.levels.specs.Rosters.{RosterView};

    ghost Value = { RosterView };

    ghost use Rattle.levels.specs.inside.Rosters.{view_of};
    ghost use Rattle.levels.specs.Kept.{IsRoster};

    ghost view = { view_of };

    ghost invariant = { λ a. IsRoster (view_of a) };
}

fn is_taken(levels: &[LevelRow], name: &[u8], level: Level) -> bool
    ensures { result ≡
        list_any (λ row. bytes_eq row.name name.now || is_same_level row.level level) levels.now }
{
    for row in levels {
        if row.name.bytes() == name || row.level == level {
            return true;
        }
    }
    false
}

fn place_of(levels: &[LevelRow], name: &LevelName) -> Option<usize>
    ensures { result ≡ position (λ row. bytes_eq row.name name.now) levels.now }
{
    levels
        .iter()
        .position(|row| row.name.bytes() == name.bytes())
}

/// Appends the addresses of a partition's hosts, one of them left out.
fn push_addresses(
    found: &mut Vec<u8>,
    hosts: &[HostRow],
    partition: Partition,
    but: Option<u8>,
) -> Result<(), AllocError>
    ensures { OnOk result (found.new.items ≡
        found.old.items ++ addresses_but hosts.now partition but) }
{
    for row in hosts {
        if row.partition == partition && Some(row.address) != but {
            found.push(row.address)?;
        }
    }
    Ok(())
}

impl Roster {
    /// A roster with no level, no key and no host.
    pub fn new(alloc: Global, sealing: Sealing) -> Roster
        ensures { result ≡
            record { sealing = sealing; levels = []; keys = []; guard = None; hosts = [] } }
    {
        Roster {
            sealing,
            levels: Vec::new(alloc),
            keys: Vec::new(alloc),
            guard: None,
            hosts: Hosts::new(alloc),
        }
    }

    /// Adds a level behind the others. Under clear sealing it has its key pair with that.
    pub fn add_level(&mut self, name: LevelName, level: Level) -> Result<Partition, RosterStop>
        requires { level.rank ≤ 7 }
        ensures { AddsLevel self.old self.new name level result }
    {
        if is_taken(&self.levels, name.bytes(), level) {
            return Err(RosterStop::Twice);
        }
        if self.levels.len() >= LEVEL_LIMIT {
            return Err(RosterStop::Many);
        }
        let partition = Partition(self.levels.len() as u8);
        let Level { rank, cats } = level;
        self.levels.push(LevelRow {
            name,
            level: Level { rank, cats },
        })?;
        Ok(partition)
    }

    /// Whether a key is weak or the same as one that is there.
    fn is_key_refused(&self, key: &[u8; 8]) -> bool
        ensures refused { result ≡ is_key_refused (keys_of (pairs_of self.now)) key.now }
        ensures block { IsBlock key.now }
    {
        is_weak_key(key) || is_key_of_guard(&self.guard, key) || is_key_of(&self.keys, key)
    }

    /// Whether one of two keys is weak, or the same as the other one or as one that is there.
    fn is_refused(&self, pair: &KeyPair) -> bool
        ensures refused { result ≡ is_refused self.now pair.now }
        ensures pair { IsFalse result → IsKeyPair pair.now }
    {
        self.is_key_refused(&pair.main)
            || self.is_key_refused(&pair.check)
            || is_same_key(&pair.main, &pair.check)
    }

    /// Adds the key pair of the first level without one.
    pub fn add_keys(&mut self, keys: KeyPair) -> Result<(), RosterStop>
        requires des { self.old.sealing ≡ Des }
        requires level { length self.old.keys < length self.old.levels }
        ensures { AddsKeys self.old self.new keys result }
    {
        if self.is_refused(&keys) {
            return Err(RosterStop::Key);
        }
        self.keys.push(keys)?;
        Ok(())
    }

    /// Sets the guarantor's key pair. It takes no memory.
    pub fn set_guard(&mut self, keys: KeyPair) -> Result<(), RosterStop>
        requires des { self.old.sealing ≡ Des }
        requires levels { length self.old.keys ≡ length self.old.levels }
        requires unset { IsNone self.old.guard }
        ensures { SetsGuard self.old self.new keys result }
    {
        if self.is_refused(&keys) {
            return Err(RosterStop::Key);
        }
        self.guard = Some(keys);
        Ok(())
    }

    /// Adds a host of a partition behind the others.
    pub fn add_host(&mut self, address: u8, partition: Partition) -> Result<(), RosterStop>
        requires address { (1 ≤ address) × (address ≤ 250) }
        requires partition { partition.0 < length self.old.levels }
        ensures { AddsHost self.old self.new address partition result }
    {
        if self.hosts.partition_of(address).is_some() {
            return Err(RosterStop::Twice);
        }
        if self.hosts.rows().len() >= HOST_LIMIT {
            return Err(RosterStop::Many);
        }
        self.hosts.push(HostRow { address, partition })?;
        Ok(())
    }

    /// Whether the roster has a level and all keys are set, so that it can be used.
    pub fn is_complete(&self) -> bool
        ensures complete { IsTrue result ↔ IsComplete self.now }
        ensures kept { IsRoster self.now }
    {
        let has_keys = match self.sealing {
            Sealing::Clear => true,
            Sealing::Des => self.keys.len() == self.levels.len() && self.guard.is_some(),
        };
        !self.levels.is_empty() && has_keys
    }

    pub fn sealing(&self) -> Sealing
        ensures { result ≡ self.now.sealing }
    {
        self.sealing
    }

    pub fn level_count(&self) -> u8
        ensures { result ≡ length self.now.levels }
    {
        self.levels.len() as u8
    }

    /// How many levels have a key pair that was added; none has under clear sealing.
    pub fn key_count(&self) -> u8
        ensures { result ≡ length self.now.keys }
    {
        self.keys.len() as u8
    }

    pub fn host_count(&self) -> u8
        ensures { result ≡ length self.now.hosts }
    {
        self.hosts.rows().len() as u8
    }

    /// The i-th host in script order, from 0.
    pub fn host_at(&self, i: u8) -> (u8, Partition)
        requires { i < length self.now.hosts }
        ensures { slice_get self.now.hosts i
            ≡ Some (record { address = result.0; partition = result.1 }) }
    {
        let row = self.hosts.rows()[i as usize];
        (row.address, row.partition)
    }

    pub fn level_at(&self, partition: Partition) -> Level
        requires { partition.0 < length self.now.levels }
        ensures { level_at self.now (Some partition) ≡ Some result }
    {
        self.levels[partition.0 as usize].level
    }

    pub fn name_at(&self, partition: Partition) -> LevelName
        requires { partition.0 < length self.now.levels }
        ensures { name_at self.now partition ≡ Some result }
    {
        self.levels[partition.0 as usize].name
    }

    /// The key pair of a level. Under clear sealing it is eight zero bytes and eight times the byte
    /// one above the partition's number.
    pub fn keys_at(&self, partition: Partition) -> KeyPair
        requires { IsSome (keys_at self.now partition) }
        ensures { keys_at self.now partition ≡ Some result }
    {
        match self.sealing {
            Sealing::Clear => clear_pair(partition.0 + 1),
            Sealing::Des => self.keys[partition.0 as usize],
        }
    }

    /// The guarantor's key pair. Under clear sealing it is eight zero bytes and eight bytes 255.
    pub fn guard_keys(&self) -> KeyPair
        requires { IsSome (guard_of self.now) }
        ensures { guard_of self.now ≡ Some result }
    {
        match self.guard {
            Some(keys) => keys,
            None => clear_pair(GUARD_BYTE),
        }
    }

    /// The partition of a level's name.
    pub fn find_level(&self, name: &LevelName) -> Option<Partition>
        ensures found { result ≡ level_named self.now name.now }
        ensures within { IfSome result (λ partition. partition.0 < length self.now.levels) }
    {
        place_of(&self.levels, name).map(|place| Partition(place as u8))
    }

    /// The partition of a party of the roster.
    pub fn partition_of(&self, party: Party) -> Option<Partition>
        ensures found { result ≡ partition_of self.now party }
        ensures within { IfSome result (λ partition. partition.0 < length self.now.levels) }
    {
        match party {
            Party::Host(address) => self.hosts.partition_of(address),
            Party::Manager(partition) => {
                if (partition.0 as usize) < self.levels.len() {
                    Some(partition)
                } else {
                    None
                }
            }
        }
    }

    /// The level of a party of the roster.
    pub fn level_of(&self, party: Party) -> Option<Level>
        ensures { result ≡ level_of self.now party }
    {
        match self.partition_of(party) {
            Some(partition) => Some(self.level_at(partition)),
            None => None,
        }
    }

    /// Whether both are parties of the roster and have one partition.
    pub fn same_partition(&self, a: Party, b: Party) -> bool
        ensures { result ≡ is_same_partition self.now a b }
    {
        match (self.partition_of(a), self.partition_of(b)) {
            (Some(p), Some(q)) => p.0 == q.0,
            _ => false,
        }
    }

    /// The addresses of a party's partners: of a host first 0, for the manager unit, and then the
    /// other hosts of its partition in script order; of a manager unit the hosts of its partition.
    pub fn partners_of(&self, alloc: Global, party: Party) -> Result<Vec<u8>, AllocError>
        requires { IsSome (partition_of self.now party) }
        ensures { IfOk result (λ partners. Some partners.items ≡ partners_of self.now party) }
    {
        let mut partners = Vec::new(alloc);
        let but = match party {
            Party::Host(address) => {
                partners.push(MANAGER_ADDRESS)?;
                Some(address)
            }
            Party::Manager(_) => None,
        };
        if let Some(partition) = self.partition_of(party) {
            push_addresses(&mut partners, self.hosts.rows(), partition, but)?;
        }
        Ok(partners)
    }
}
