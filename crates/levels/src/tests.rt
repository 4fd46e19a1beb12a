ghost use Rattle.std.specs.Prelude.{◌≤◌};

use crate::{Level, LevelName, Partition, Party, Roster, RosterStop, Sealing};
use seal_core::KeyPair;
use std::alloc::Global;
use std::test::Fail;

fn add_level(
    roster: &mut Roster,
    name: &[u8],
    rank: u8,
    cats: u16,
) -> Result<Result<Partition, RosterStop>, Fail>
    requires { rank ≤ 7 }
{
    let name = LevelName::new(name).ok_or("no name")?;
    Ok(roster.add_level(name, Level { rank, cats }))
}

fn add_host(roster: &mut Roster, address: u8, level: &[u8]) -> Result<Result<(), RosterStop>, Fail>
    requires { (1 ≤ address) × (address ≤ 250) }
{
    let name = LevelName::new(level).ok_or("no name")?;
    let partition = roster.find_level(&name).ok_or("no such level")?;
    Ok(roster.add_host(address, partition))
}

/// The levels `U 0 -` and `S 2 a`, of which the first has the hosts 1 and 2, the second 5 and 6.
fn small_roster(alloc: Global) -> Result<Roster, Fail> {
    let mut roster = Roster::new(alloc, Sealing::Clear);
    add_level(&mut roster, b"U", 0, 0)??;
    add_level(&mut roster, b"S", 2, 1)??;
    add_host(&mut roster, 1, b"U")??;
    add_host(&mut roster, 2, b"U")??;
    add_host(&mut roster, 5, b"S")??;
    add_host(&mut roster, 6, b"S")??;
    Ok(roster)
}

#[test]
fn order(rt: HostRuntime) {
    for (low, high, up, down) in [
        ((0, 0), (2, 1), true, false),
        ((1, 1), (2, 3), true, false),
        ((2, 1), (2, 1), true, true),
        ((2, 1), (2, 3), true, false),
        ((1, 1), (2, 2), false, false),
        ((2, 1), (1, 3), false, false),
        ((0, 0x8001), (7, 0x8003), true, false),
        ((0, 0x8000), (7, 0x7fff), false, false),
    ] {
        let (low, high) = (
            Level {
                rank: low.0,
                cats: low.1,
            },
            Level {
                rank: high.0,
                cats: high.1,
            },
        );
        assert_eq!(rt; low.at_most(&high), up, "{low:?} below {high:?}");
        assert_eq!(rt; high.at_most(&low), down, "{high:?} below {low:?}");
    }
}

#[test]
fn ranks(rt: HostRuntime) {
    assert_eq!(rt; Level::new(0, 0), Some(Level { rank: 0, cats: 0 }));
    assert_eq!(rt;
        Level::new(7, 0xffff),
        Some(Level {
            rank: 7,
            cats: 0xffff
        })
    );
    assert_eq!(rt; Level::new(8, 0), None);
}

#[test]
fn names(rt: HostRuntime) -> Result<(), Fail> {
    for text in ["U", "A9", "Z0A", "ABCDEFGH", "A2345678"] {
        let name = LevelName::new(text.as_bytes()).ok_or("no name")?;
        assert!(rt; name.bytes() == text.as_bytes(), "{text}");
    }
    for text in [
        "",
        "ABCDEFGHI",
        "1A",
        "9",
        "u",
        "Aa",
        "A-",
        "A/",
        "A:",
        "A@",
        "A[",
        "A ",
        " A",
        "A\n",
        "\u{c4}",
    ] {
        assert!(rt; LevelName::new(text.as_bytes()).is_none(), "{text}");
    }
    Ok(())
}

#[test]
fn reads_a_roster(rt: HostRuntime) -> Result<(), Fail> {
    let roster = small_roster(rt.alloc())?;
    assert!(rt; roster.is_complete());
    assert!(rt; roster.sealing() == Sealing::Clear);
    assert_eq!(rt; roster.level_count(), 2);
    assert_eq!(rt; roster.host_count(), 4);
    for (i, address, partition) in [(0, 1, 0), (1, 2, 0), (2, 5, 1), (3, 6, 1)] {
        assert!(rt; i < roster.host_count());
        let (at, of) = roster.host_at(i);
        assert_eq!(rt; (at, of.0), (address, partition));
    }
    for (text, partition, rank, cats) in [("U", 0, 0, 0), ("S", 1, 2, 1)] {
        let name = LevelName::new(text.as_bytes()).ok_or("no name")?;
        let found = roster.find_level(&name).ok_or("no such level")?;
        assert_eq!(rt; found.0, partition);
        assert_eq!(rt; roster.level_at(found), Level { rank, cats });
        assert!(rt; roster.name_at(found).bytes() == text.as_bytes());
    }
    let other = LevelName::new(b"T").ok_or("no name")?;
    assert_eq!(rt; roster.find_level(&other), None);
    Ok(())
}

#[test]
fn an_empty_roster(rt: HostRuntime) {
    let roster = Roster::new(rt.alloc(), Sealing::Clear);
    assert!(rt; !roster.is_complete());
    assert_eq!(rt; roster.level_count(), 0);
    assert_eq!(rt; roster.host_count(), 0);
    assert_eq!(rt; roster.partition_of(Party::Manager(Partition(0))), None);
}

#[test]
fn parties(rt: HostRuntime) -> Result<(), Fail> {
    let roster = small_roster(rt.alloc())?;
    let low = Some(Level { rank: 0, cats: 0 });
    let high = Some(Level { rank: 2, cats: 1 });
    for (party, partition, level) in [
        (Party::Host(1), Some(Partition(0)), low),
        (Party::Host(6), Some(Partition(1)), high),
        (Party::Manager(Partition(0)), Some(Partition(0)), low),
        (Party::Manager(Partition(1)), Some(Partition(1)), high),
        (Party::Manager(Partition(2)), None, None),
        (Party::Host(9), None, None),
        (Party::Host(0), None, None),
    ] {
        assert_eq!(rt; roster.partition_of(party), partition, "of {party:?}");
        assert_eq!(rt; roster.level_of(party), level, "of {party:?}");
    }
    for (a, b, same) in [
        (Party::Host(1), Party::Host(2), true),
        (Party::Host(1), Party::Host(1), true),
        (Party::Host(5), Party::Manager(Partition(1)), true),
        (Party::Host(1), Party::Host(5), false),
        (Party::Host(1), Party::Manager(Partition(1)), false),
        (Party::Host(1), Party::Host(9), false),
        (Party::Host(9), Party::Host(9), false),
        (
            Party::Manager(Partition(2)),
            Party::Manager(Partition(2)),
            false,
        ),
    ] {
        assert_eq!(rt; roster.same_partition(a, b), same, "{a:?} and {b:?}");
    }
    Ok(())
}

#[test]
fn partners(rt: HostRuntime) -> Result<(), Fail> {
    let mut roster = small_roster(rt.alloc())?;
    add_host(&mut roster, 250, b"S")??;
    add_host(&mut roster, 3, b"S")??;
    for (party, partners) in [
        (Party::Host(1), [0, 2].as_slice()),
        (Party::Host(2), [0, 1].as_slice()),
        (Party::Host(250), [0, 5, 6, 3].as_slice()),
        (Party::Manager(Partition(0)), [1, 2].as_slice()),
        (Party::Manager(Partition(1)), [5, 6, 250, 3].as_slice()),
    ] {
        assert!(rt; roster.partition_of(party).is_some());
        let found = roster.partners_of(rt.alloc(), party)?;
        assert_eq!(rt; found.as_slice(), partners, "of {party:?}");
    }
    Ok(())
}

#[test]
fn refuses_levels(rt: HostRuntime) -> Result<(), Fail> {
    let mut roster = Roster::new(rt.alloc(), Sealing::Clear);
    for i in 0..16u8 {
        let added = add_level(&mut roster, &[b'L', b'A' + i], i / 8, u16::from(i))?;
        assert_eq!(rt; added, Ok(Partition(i)));
        for (name, rank, cats) in [(b"LA", 7, 0), (b"ZZ", 0, 0)] {
            let again = add_level(&mut roster, name, rank, cats)?;
            assert_eq!(rt; again, Err(RosterStop::Twice));
        }
        assert_eq!(rt; roster.level_count(), i + 1);
    }
    let one_more = add_level(&mut roster, b"ZZ", 7, 0)?;
    assert_eq!(rt; one_more, Err(RosterStop::Many));
    assert_eq!(rt; roster.level_count(), 16);
    Ok(())
}

#[test]
fn refuses_hosts(rt: HostRuntime) -> Result<(), Fail> {
    let mut roster = Roster::new(rt.alloc(), Sealing::Clear);
    add_level(&mut roster, b"U", 0, 0)??;
    add_level(&mut roster, b"S", 2, 1)??;
    for address in 1..=64u8 {
        assert_eq!(rt; add_host(&mut roster, address, b"U")?, Ok(()));
        assert_eq!(rt; add_host(&mut roster, 1, b"S")?, Err(RosterStop::Twice));
        assert_eq!(rt; roster.host_count(), address);
    }
    assert_eq!(rt; add_host(&mut roster, 250, b"U")?, Err(RosterStop::Many));
    assert_eq!(rt; roster.host_count(), 64);
    assert_eq!(rt; roster.partition_of(Party::Host(250)), None);
    assert_eq!(rt; roster.partition_of(Party::Host(1)), Some(Partition(0)));
    Ok(())
}

/// Two keys that are neither weak nor the same, and those of the second level and the guarantor.
const FIRST: (u64, u64) = (0x1334_5779_9bbc_dff1, 0x0e32_9232_ea6d_0d73);

const SECOND: (u64, u64) = (0x0123_4567_89ab_cdef, 0xfedc_ba98_7654_3210);

const GUARD: (u64, u64) = (0x2222_2222_2222_2222, 0x4444_4444_4444_4444);

fn pair(keys: (u64, u64)) -> KeyPair {
    KeyPair {
        main: keys.0.to_be_bytes(),
        check: keys.1.to_be_bytes(),
    }
}

fn des_roster(alloc: Global) -> Result<Roster, Fail> {
    let mut roster = Roster::new(alloc, Sealing::Des);
    add_level(&mut roster, b"U", 0, 0)??;
    add_level(&mut roster, b"S", 2, 1)??;
    Ok(roster)
}

fn add_keys(roster: &mut Roster, keys: (u64, u64)) -> Result<Result<(), RosterStop>, Fail> {
    let Sealing::Des = roster.sealing() else {
        return Err("clear sealing")?;
    };
    if roster.key_count() >= roster.level_count() {
        return Err("all levels have keys")?;
    }
    Ok(roster.add_keys(pair(keys)))
}

fn set_guard(roster: &mut Roster, keys: (u64, u64)) -> Result<Result<(), RosterStop>, Fail> {
    let Sealing::Des = roster.sealing() else {
        return Err("clear sealing")?;
    };
    if roster.level_count() == 0 || roster.key_count() != roster.level_count() {
        return Err("a level has no keys")?;
    }
    if roster.is_complete() {
        return Err("the guarantor has keys")?;
    }
    Ok(roster.set_guard(pair(keys)))
}

/// The key pairs of both levels and the guarantor's.
fn all_keys(roster: &Roster) -> Result<[KeyPair; 3], Fail> {
    if !roster.is_complete() || roster.level_count() != 2 {
        return Err("not complete")?;
    }
    let first = roster.keys_at(Partition(0));
    let second = roster.keys_at(Partition(1));
    Ok([first, second, roster.guard_keys()])
}

#[test]
fn keys_of_a_des_roster(rt: HostRuntime) -> Result<(), Fail> {
    let mut roster = des_roster(rt.alloc())?;
    assert!(rt; roster.sealing() == Sealing::Des);
    for keys in [FIRST, SECOND] {
        assert!(rt; !roster.is_complete());
        assert_eq!(rt; add_keys(&mut roster, keys)?, Ok(()));
    }
    assert_eq!(rt; roster.key_count(), 2);
    assert!(rt; !roster.is_complete());
    assert_eq!(rt; set_guard(&mut roster, GUARD)?, Ok(()));
    assert!(rt; roster.is_complete());
    add_host(&mut roster, 1, b"U")??;
    assert!(rt; all_keys(&roster)? == [pair(FIRST), pair(SECOND), pair(GUARD)]);
    Ok(())
}

#[test]
fn keys_of_a_clear_roster(rt: HostRuntime) -> Result<(), Fail> {
    let roster = small_roster(rt.alloc())?;
    assert_eq!(rt; roster.key_count(), 0);
    let zeros = [0; 8];
    let expected = [[1; 8], [2; 8], [255; 8]].map(|check| KeyPair { main: zeros, check });
    assert!(rt; all_keys(&roster)? == expected);
    Ok(())
}

/// Keys that are weak or the same, with and without their parity bits.
#[test]
fn refuses_keys(rt: HostRuntime) -> Result<(), Fail> {
    let mut roster = des_roster(rt.alloc())?;
    for keys in [
        (0, FIRST.0),
        (FIRST.0, 0x0101_0101_0101_0101),
        (FIRST.0, 0x1334_5779_9bbc_dff1),
        (FIRST.0, 0x1234_5678_9abc_def0),
        (0xffff_ffff_ffff_ffff, FIRST.0),
        (0x1f1f_1f1f_0e0e_0e0e, FIRST.0),
        (FIRST.0, 0xe1e0_e1e0_f0f1_f0f1),
    ] {
        assert_eq!(rt; add_keys(&mut roster, keys)?, Err(RosterStop::Key));
        assert_eq!(rt; roster.key_count(), 0);
    }
    assert_eq!(rt; add_keys(&mut roster, FIRST)?, Ok(()));
    for keys in [
        FIRST,
        (FIRST.1, FIRST.0),
        (SECOND.0, FIRST.0),
        (FIRST.1 ^ 0x0100_0100_0001_0001, SECOND.0),
    ] {
        assert_eq!(rt; add_keys(&mut roster, keys)?, Err(RosterStop::Key));
        assert_eq!(rt; roster.key_count(), 1);
    }
    assert_eq!(rt; add_keys(&mut roster, SECOND)?, Ok(()));
    for keys in [
        SECOND,
        (GUARD.0, FIRST.1),
        (FIRST.0 ^ 1, GUARD.0),
        (GUARD.0, GUARD.0 ^ 1),
    ] {
        assert_eq!(rt; set_guard(&mut roster, keys)?, Err(RosterStop::Key));
        assert!(rt; !roster.is_complete());
    }
    assert_eq!(rt; set_guard(&mut roster, GUARD)?, Ok(()));
    Ok(())
}

/// A level that is added behind the guarantor's keys gets none of those.
#[test]
fn refuses_the_keys_of_the_guarantor(rt: HostRuntime) -> Result<(), Fail> {
    let mut roster = Roster::new(rt.alloc(), Sealing::Des);
    add_level(&mut roster, b"U", 0, 0)??;
    add_keys(&mut roster, FIRST)??;
    set_guard(&mut roster, GUARD)??;
    add_level(&mut roster, b"S", 2, 1)??;
    assert!(rt; !roster.is_complete());
    for keys in [GUARD, (SECOND.0, GUARD.1), (GUARD.0 ^ 1, SECOND.1)] {
        assert_eq!(rt; add_keys(&mut roster, keys)?, Err(RosterStop::Key));
    }
    assert_eq!(rt; add_keys(&mut roster, SECOND)?, Ok(()));
    assert!(rt; roster.is_complete());
    Ok(())
}
