ghost use Rattle.std.specs.Prelude.{◌≡◌, ◌<◌, ◌≤◌, [], length, true, false, None, Some, IsNone, IfOk, OnOk};
ghost use Rattle.levels.specs.declared.level.Sealing.TheVariants.{Des};
ghost use Rattle.levels.specs.Names.{is_level_name};
ghost use Rattle.levels.specs.Rosters.{is_taken, host_row, with_level, with_keys, with_guard, with_host};
ghost use Rattle.levels.specs.Adding.{is_refused};
ghost use Rattle.drill.specs.Rosters.{pair_of, drill_levels, drill_pairs, drill_guard, drill_hosts, drill_roster};

use levels::{Level, LevelName, Partition, Roster, RosterStop, Sealing};
use seal_core::KeyPair;
use std::alloc::{AllocError, Global};

fn add_level(roster: &mut Roster, name: &[u8], rank: u8, cats: u16) -> Result<(), AllocError>
    requires name { is_level_name name.now ≡ true }
    requires rank { rank ≤ 7 }
    requires new { is_taken roster.old name.now (record { rank = rank; cats = cats }) ≡ false }
    requires room { length roster.old.levels < 16 }
    ensures { OnOk result (roster.new
        ≡ with_level roster.old name.now (record { rank = rank; cats = cats })) }
{
    let Some(name) = LevelName::new(name) else {
        unreachable!()
    };
    match roster.add_level(name, Level { rank, cats }) {
        Ok(_) => Ok(()),
        Err(RosterStop::OutOfMemory) => Err(AllocError),
        Err(RosterStop::Twice | RosterStop::Many | RosterStop::Key) => unreachable!(),
    }
}

/// Two keys, each of them one byte eight times.
fn pair_of(main: u8, check: u8) -> KeyPair
    ensures { result ≡ pair_of main check }
{
    KeyPair {
        main: [main; 8],
        check: [check; 8],
    }
}

fn add_keys(roster: &mut Roster, main: u8, check: u8) -> Result<(), AllocError>
    requires des { roster.old.sealing ≡ Des }
    requires level { length roster.old.keys < length roster.old.levels }
    requires keys { is_refused roster.old (pair_of main check) ≡ false }
    ensures { OnOk result (roster.new ≡ with_keys roster.old (pair_of main check)) }
{
    match roster.add_keys(pair_of(main, check)) {
        Ok(()) => Ok(()),
        Err(RosterStop::OutOfMemory) => Err(AllocError),
        Err(RosterStop::Twice | RosterStop::Many | RosterStop::Key) => unreachable!(),
    }
}

fn set_guard(roster: &mut Roster, main: u8, check: u8)
    requires des { roster.old.sealing ≡ Des }
    requires levels { length roster.old.keys ≡ length roster.old.levels }
    requires unset { IsNone roster.old.guard }
    requires keys { is_refused roster.old (pair_of main check) ≡ false }
    ensures { roster.new ≡ with_guard roster.old (pair_of main check) }
{
    match roster.set_guard(pair_of(main, check)) {
        Ok(()) => {}
        Err(_) => unreachable!(),
    }
}

fn add_host(roster: &mut Roster, address: u8, level: u8) -> Result<(), AllocError>
    requires address { (1 ≤ address) × (address ≤ 250) }
    requires partition { level < length roster.old.levels }
    requires new { host_row roster.old address ≡ None }
    requires room { length roster.old.hosts < 64 }
    ensures { OnOk result (roster.new ≡ with_host roster.old address (record { 0 = level })) }
{
    match roster.add_host(address, Partition(level)) {
        Ok(()) => Ok(()),
        Err(RosterStop::OutOfMemory) => Err(AllocError),
        Err(RosterStop::Twice | RosterStop::Many | RosterStop::Key) => unreachable!(),
    }
}

/// The levels of a drill, with no key and no host.
fn levels(alloc: Global) -> Result<Roster, AllocError>
    ensures { IfOk result (λ roster. roster ≡
        record { sealing = Des; levels = drill_levels; keys = []; guard = None; hosts = [] }) }
{
    let mut roster = Roster::new(alloc, Sealing::Des);
    add_level(&mut roster, b"U", 0, 0b00)?;
    add_level(&mut roster, b"C", 1, 0b01)?;
    add_level(&mut roster, b"S", 2, 0b11)?;
    Ok(roster)
}

/// Adds the keys of the levels and of the guarantor.
fn add_all_keys(roster: &mut Roster) -> Result<(), AllocError>
    requires { roster.old ≡
        record { sealing = Des; levels = drill_levels; keys = []; guard = None; hosts = [] } }
    ensures { OnOk result (roster.new ≡
        record roster.old { keys = drill_pairs; guard = Some drill_guard }) }
{
    add_keys(roster, 0x20, 0x30)?;
    add_keys(roster, 0x40, 0x50)?;
    add_keys(roster, 0x60, 0x70)?;
    set_guard(roster, 0x80, 0x90);
    Ok(())
}

/// Adds two hosts of each level.
fn add_all_hosts(roster: &mut Roster) -> Result<(), AllocError>
    requires levels { length roster.old.levels ≡ 3 }
    requires hosts { roster.old.hosts ≡ [] }
    ensures { OnOk result (roster.new ≡ record roster.old { hosts = drill_hosts }) }
{
    add_host(roster, 1, 0)?;
    add_host(roster, 2, 0)?;
    add_host(roster, 3, 1)?;
    add_host(roster, 4, 1)?;
    add_host(roster, 5, 2)?;
    add_host(roster, 6, 2)?;
    Ok(())
}

/// The roster of every drill.
pub fn drill_roster(alloc: Global) -> Result<Roster, AllocError>
    ensures { IfOk result (λ roster. roster ≡ drill_roster) }
{
    let mut roster = levels(alloc)?;
    add_all_keys(&mut roster)?;
    add_all_hosts(&mut roster)?;
    Ok(roster)
}
