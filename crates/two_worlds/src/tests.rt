ghost use Rattle.std.specs.Prelude.{◌≤◌};

use crate::{Comparison, LowItem, LowPart, compare, low_part};
use events::{AskedCall, Body, Edits, Event, ForgedFrame, Script, Stream};
use file_calls::{Call, Content, Name};
use levels::{Level, LevelName, Partition, Party, Roster, Sealing};
use std::alloc::Global;
use std::test::Fail;
use untrusted_store::{PlanRow, StoreAction};

const U: Partition = Partition(0);

const S: Partition = Partition(1);

fn add_level(roster: &mut Roster, name: &[u8], rank: u8, cats: u16) -> Result<Partition, Fail>
    requires { rank ≤ 7 }
{
    let name = LevelName::new(name).ok_or("no name")?;
    Ok(roster.add_level(name, Level { rank, cats })?)
}

fn add_host(roster: &mut Roster, address: u8, level: &[u8]) -> Result<(), Fail>
    requires { (1 ≤ address) × (address ≤ 250) }
{
    let name = LevelName::new(level).ok_or("no name")?;
    let partition = roster.find_level(&name).ok_or("no such level")?;
    Ok(roster.add_host(address, partition)?)
}

/// The levels `U 0 -` and `S 2 a`, of which the first has the hosts 1 and 2, the second 5 and 6.
fn small_roster(alloc: Global) -> Result<Roster, Fail> {
    let mut roster = Roster::new(alloc, Sealing::Clear);
    add_level(&mut roster, b"U", 0, 0)?;
    add_level(&mut roster, b"S", 2, 1)?;
    add_host(&mut roster, 1, b"U")?;
    add_host(&mut roster, 2, b"U")?;
    add_host(&mut roster, 5, b"S")?;
    add_host(&mut roster, 6, b"S")?;
    Ok(roster)
}

fn script_of(alloc: Global, roster: Roster) -> Result<Script, Fail> {
    if !roster.is_complete() {
        return Err("no level")?;
    }
    Ok(Script::start(alloc, roster))
}

fn small_script(alloc: Global) -> Result<Script, Fail> {
    script_of(alloc, small_roster(alloc)?)
}

fn send(alloc: Global, script: &mut Script, from: u8, to: u8, message: &[u8]) -> Result<(), Fail> {
    script.add_event(Event::Send {
        from,
        to: Party::Host(to),
        message: Body::new(alloc, message)?,
    })?;
    Ok(())
}

fn carry(script: &mut Script, from: u8, to: u8) -> Result<(), Fail> {
    let stream = Stream {
        from: Party::Host(from),
        to: Party::Host(to),
    };
    script.add_event(Event::Carry {
        stream,
        message: 0,
        at: stream.to,
    })?;
    Ok(())
}

fn plan(script: &mut Script, reader: Partition, action: StoreAction) -> Result<(), Fail> {
    script.add_plan(PlanRow { reader, action })?;
    Ok(())
}

/// The low part at a level that the roster has.
fn part_at(alloc: Global, script: &Script, level: Partition) -> Result<LowPart, Fail> {
    if level.0 >= script.roster().level_count() {
        return Err("no such level")?;
    }
    Ok(low_part(alloc, script, level)?)
}

/// How two scripts compare at a level that the first one's roster has.
fn compared(alloc: Global, a: &Script, b: &Script, level: Partition) -> Result<Comparison, Fail> {
    if level.0 >= a.roster().level_count() {
        return Err("no such level")?;
    }
    Ok(compare(alloc, a, b, level)?)
}

/// A script with plan rows of `S` and `U`, and a send and an arrival at each of them, `S` first.
fn mixed_script(alloc: Global) -> Result<Script, Fail> {
    let mut script = small_script(alloc)?;
    plan(&mut script, S, StoreAction::Gone)?;
    plan(&mut script, U, StoreAction::Honest)?;
    send(alloc, &mut script, 5, 6, b"high")?;
    send(alloc, &mut script, 1, 2, b"low")?;
    carry(&mut script, 5, 6)?;
    carry(&mut script, 1, 2)?;
    Ok(script)
}

#[test]
fn items_of_a_low_part(rt: HostRuntime) -> Result<(), Fail> {
    let script = mixed_script(rt.alloc())?;
    let low = part_at(rt.alloc(), &script, U)?;
    let expected = [LowItem::Row(1), LowItem::Event(1), LowItem::Event(3)];
    assert!(rt; low.items() == expected.as_slice());
    Ok(())
}

#[test]
fn items_of_all(rt: HostRuntime) -> Result<(), Fail> {
    let script = mixed_script(rt.alloc())?;
    let all = part_at(rt.alloc(), &script, S)?;
    let expected = [
        LowItem::Row(0),
        LowItem::Row(1),
        LowItem::Event(0),
        LowItem::Event(1),
        LowItem::Event(2),
        LowItem::Event(3),
    ];
    assert!(rt; all.items() == expected.as_slice());
    Ok(())
}

#[test]
fn high_events_do_not_count(rt: HostRuntime) -> Result<(), Fail> {
    let alloc = rt.alloc();
    let (mut a, mut b) = (small_script(alloc)?, small_script(alloc)?);
    send(alloc, &mut a, 1, 2, b"low")?;
    plan(&mut b, S, StoreAction::Gone)?;
    send(alloc, &mut b, 5, 6, b"high")?;
    send(alloc, &mut b, 1, 2, b"low")?;
    assert!(rt; compared(alloc, &a, &b, U)? == Comparison::Alike);
    assert!(rt; compared(alloc, &a, &b, S)? == Comparison::Apart(1));
    Ok(())
}

/// A script with a plan row of `U` and a send there.
fn planned_send(alloc: Global, message: &[u8]) -> Result<Script, Fail> {
    let mut script = small_script(alloc)?;
    plan(&mut script, U, StoreAction::Gone)?;
    send(alloc, &mut script, 1, 2, message)?;
    Ok(script)
}

#[test]
fn first_place_apart(rt: HostRuntime) -> Result<(), Fail> {
    let alloc = rt.alloc();
    let (a, mut b) = (planned_send(alloc, b"low")?, planned_send(alloc, b"lo")?);
    assert!(rt; compared(alloc, &a, &b, U)? == Comparison::Apart(2));
    plan(&mut b, U, StoreAction::Honest)?;
    assert!(rt; compared(alloc, &a, &b, U)? == Comparison::Apart(2));
    Ok(())
}

#[test]
fn one_past_the_shorter(rt: HostRuntime) -> Result<(), Fail> {
    let alloc = rt.alloc();
    let (mut a, mut b) = (small_script(alloc)?, small_script(alloc)?);
    assert!(rt; compared(alloc, &a, &b, U)? == Comparison::Alike);
    send(alloc, &mut a, 1, 2, b"low")?;
    send(alloc, &mut b, 1, 2, b"low")?;
    carry(&mut b, 1, 2)?;
    assert!(rt; compared(alloc, &a, &b, U)? == Comparison::Apart(2));
    assert!(rt; compared(alloc, &b, &a, U)? == Comparison::Apart(2));
    Ok(())
}

#[test]
fn rosters_apart(rt: HostRuntime) -> Result<(), Fail> {
    let alloc = rt.alloc();
    let mut roster = small_roster(alloc)?;
    add_host(&mut roster, 7, b"S")?;
    let (a, b) = (small_script(alloc)?, script_of(alloc, roster)?);
    assert!(rt; compared(alloc, &a, &b, U)? == Comparison::Apart(0));
    assert!(rt; compared(alloc, &b, &a, U)? == Comparison::Apart(0));
    Ok(())
}

/// A script with an event of each form at `U`, whose last event makes this change.
fn all_forms(alloc: Global, xor: u8) -> Result<Script, Fail> {
    let mut script = small_script(alloc)?;
    let stream = Stream {
        from: Party::Host(1),
        to: Party::Manager(U),
    };
    let at = stream.to;
    let name = Name::new(alloc, b"note")?.ok_or("no name")?;
    let content = Content::new(alloc, b"ab")?.ok_or("no content")?;
    send(alloc, &mut script, 1, 2, b"low")?;
    let call = AskedCall::new(alloc, Call::Put { name, content })?;
    script.add_event(Event::Ask { from: 1, call })?;
    script.add_event(Event::Arrive {
        stream,
        message: 0,
        piece: 63,
        at,
    })?;
    carry(&mut script, 1, 2)?;
    let frame = ForgedFrame::new(alloc, &[0; 128])?;
    script.add_event(Event::Forge { at, frame })?;
    let edits = Edits::new(&[(0, 1), (127, xor)]).ok_or("no edits")?;
    script.add_event(Event::Tamper {
        stream,
        message: 0,
        piece: 0,
        at,
        edits,
    })?;
    Ok(script)
}

#[test]
fn each_form_is_compared(rt: HostRuntime) -> Result<(), Fail> {
    let alloc = rt.alloc();
    let (a, b) = (all_forms(alloc, 2)?, all_forms(alloc, 3)?);
    assert!(rt; compared(alloc, &a, &all_forms(alloc, 2)?, U)? == Comparison::Alike);
    assert!(rt; compared(alloc, &a, &b, U)? == Comparison::Apart(6));
    Ok(())
}
