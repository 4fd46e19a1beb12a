ghost use Rattle.std.specs.Prelude.{◌≡◌, ◌↔◌, ◌<◌, length, slice_get, IsTrue};
ghost use Rattle.levels.specs.declared.level.Sealing.TheVariants.{Des};

use events::Script;
use levels::{Partition, Roster, Sealing};

/// Whether the two rosters' levels of this number have one name and one value.
fn same_level(a: &Roster, b: &Roster, level: Partition) -> bool
    requires a { level.0 < length a.now.levels }
    requires b { level.0 < length b.now.levels }
    ensures { IsTrue result
        ↔ (slice_get a.now.levels level.0 ≡ slice_get b.now.levels level.0) }
{
    let (name, other) = (a.name_at(level), b.name_at(level));
    a.level_at(level) == b.level_at(level) && name.bytes() == other.bytes()
}

fn same_levels(a: &Roster, b: &Roster) -> bool
    ensures { IsTrue result ↔ (a.now.levels ≡ b.now.levels) }
{
    if a.level_count() != b.level_count() {
        return false;
    }
    for i in 0..a.level_count() {
        if !same_level(a, b, Partition(i)) {
            return false;
        }
    }
    true
}

/// Whether the hosts of this number, from 0, have one address and one partition.
fn same_host(a: &Roster, b: &Roster, i: u8) -> bool
    requires a { i < length a.now.hosts }
    requires b { i < length b.now.hosts }
    ensures { IsTrue result ↔ (slice_get a.now.hosts i ≡ slice_get b.now.hosts i) }
{
    let (address, partition) = a.host_at(i);
    let (other, other_partition) = b.host_at(i);
    address == other && partition == other_partition
}

fn same_hosts(a: &Roster, b: &Roster) -> bool
    ensures { IsTrue result ↔ (a.now.hosts ≡ b.now.hosts) }
{
    if a.host_count() != b.host_count() {
        return false;
    }
    for i in 0..a.host_count() {
        if !same_host(a, b, i) {
            return false;
        }
    }
    true
}

/// Whether the two rosters' levels of this number have one key pair.
fn same_pair(a: &Roster, b: &Roster, level: Partition) -> bool
    requires a_des { a.now.sealing ≡ Des }
    requires b_des { b.now.sealing ≡ Des }
    requires a { level.0 < length a.now.keys }
    requires b { level.0 < length b.now.keys }
    ensures { IsTrue result ↔ (slice_get a.now.keys level.0 ≡ slice_get b.now.keys level.0) }
{
    a.keys_at(level) == b.keys_at(level)
}

/// Whether the levels of two rosters have the same key pairs.
fn same_keys(a: &Roster, b: &Roster) -> bool
    requires a { a.now.sealing ≡ Des }
    requires b { b.now.sealing ≡ Des }
    ensures { IsTrue result ↔ (a.now.keys ≡ b.now.keys) }
{
    if a.key_count() != b.key_count() {
        return false;
    }
    for i in 0..a.key_count() {
        if !same_pair(a, b, Partition(i)) {
            return false;
        }
    }
    true
}

/// Whether two scripts have one roster.
pub fn same_roster(a: &Script, b: &Script) -> bool
    ensures { IsTrue result ↔ (a.now.roster ≡ b.now.roster) }
{
    let (first, second) = (a.roster(), b.roster());
    if first.sealing() != second.sealing()
        || !same_levels(first, second)
        || !same_hosts(first, second)
    {
        return false;
    }
    match first.sealing() {
        Sealing::Clear => true,
        Sealing::Des => { first.guard_keys() == second.guard_keys() && same_keys(first, second) }
    }
}
