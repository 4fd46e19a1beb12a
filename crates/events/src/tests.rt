ghost use Rattle.std.specs.Prelude.{◌≤◌};
ghost use Rattle.events.specs.Scripts.{HasBlockNumber};

use crate::{
    AskedCall, Body, Edits, Event, ForgedFrame, Script, ScriptStop, Stream, push_hex, push_number,
};
use file_calls::{Call, Content, Name};
use levels::{Level, LevelName, Partition, Party, Roster, Sealing};
use seal_core::KeyPair;
use std::alloc::Global;
use std::test::Fail;
use untrusted_store::{PlanRow, StoreAction};

fn add_level(roster: &mut Roster, name: &[u8], rank: u8, cats: u16) -> Result<Partition, Fail>
    requires { rank ≤ 7 }
{
    let name = LevelName::new(name).ok_or("no name")?;
    Ok(roster.add_level(name, Level { rank, cats })?)
}

fn add_host(roster: &mut Roster, address: u8, level: &[u8]) -> Result<(), Fail>
    requires { (1 ≤ address) × (address ≤ 250) }
{
    let name = LevelName::new(level).ok_or("no name")?;
    let partition = roster.find_level(&name).ok_or("no such level")?;
    Ok(roster.add_host(address, partition)?)
}

/// The script whose first lines are `dss 1`, `level U 0 -`, `level S 2 a`, `host 1 U`, `host 2 U`,
/// `host 5 S`, `host 6 S` and `begin`.
fn small_script(alloc: Global) -> Result<Script, Fail> {
    let mut roster = Roster::new(alloc, Sealing::Clear);
    add_level(&mut roster, b"U", 0, 0)?;
    add_level(&mut roster, b"S", 2, 1)?;
    add_host(&mut roster, 1, b"U")?;
    add_host(&mut roster, 2, b"U")?;
    add_host(&mut roster, 5, b"S")?;
    add_host(&mut roster, 6, b"S")?;
    if !roster.is_complete() {
        return Err("no level")?;
    }
    Ok(Script::start(alloc, roster))
}

const STREAM: Stream = Stream {
    from: Party::Host(1),
    to: Party::Host(2),
};

#[test]
fn holds_events(rt: HostRuntime) -> Result<(), Fail> {
    let alloc = rt.alloc();
    let mut script = small_script(alloc)?;
    assert_eq!(rt; script.roster().level_count(), 2);
    assert_eq!(rt; script.roster().host_count(), 4);
    assert_eq!(rt; script.events().len(), 0);
    script.add_event(Event::Send {
        from: 1,
        to: Party::Host(2),
        message: Body::new(alloc, b"hi")?,
    })?;
    script.add_event(Event::Arrive {
        stream: STREAM,
        message: 0,
        piece: 63,
        at: Party::Host(2),
    })?;
    assert_eq!(rt; script.events().len(), 2);
    assert_eq!(rt; script.line_of(0), 9);
    assert_eq!(rt; script.line_of(1), 10);
    match &script.events()[0] {
        Event::Send { from, to, message } => {
            assert_eq!(rt; (*from, *to), (1, Party::Host(2)));
            assert_eq!(rt; message.bytes(), b"hi".as_slice());
        }
        _ => assert!(rt; false, "the first event is no send"),
    }
    match &script.events()[1] {
        Event::Arrive {
            stream,
            message,
            piece,
            at,
        } => {
            assert_eq!(rt; *stream, STREAM);
            assert_eq!(rt; (*message, *piece, *at), (0, 63, Party::Host(2)));
        }
        _ => assert!(rt; false, "the second event is no arrival"),
    }
    Ok(())
}

/// A send to no partner and an event of a message that wasn't sent are events as others are.
#[test]
fn names_parties_of_the_roster(rt: HostRuntime) -> Result<(), Fail> {
    let alloc = rt.alloc();
    let manager = Party::Manager(Partition(1));
    let absent = Party::Manager(Partition(2));
    let mut script = small_script(alloc)?;
    for (from, to, known) in [
        (1, Party::Host(5), true),
        (1, Party::Host(1), true),
        (1, manager, true),
        (9, Party::Host(2), false),
        (0, Party::Host(2), false),
        (1, Party::Host(9), false),
        (1, absent, false),
    ] {
        let message = Body::new(alloc, &[0])?;
        let before = script.events().len();
        let added = script.add_event(Event::Send { from, to, message });
        let (answer, count) = if known {
            (Ok(()), 1)
        } else {
            (Err(ScriptStop::Name), 0)
        };
        assert!(rt; added == answer, "from {from} to {to:?}");
        assert!(rt;
            script.events().len() - before == count,
            "from {from} to {to:?}"
        );
    }
    for (from, to, at, known) in [
        (Party::Host(6), manager, Party::Host(1), true),
        (manager, Party::Host(5), manager, true),
        (Party::Host(9), Party::Host(2), Party::Host(2), false),
        (Party::Host(1), absent, Party::Host(2), false),
        (Party::Host(1), Party::Host(2), Party::Host(9), false),
    ] {
        let stream = Stream { from, to };
        let answer = if known { Ok(()) } else { Err(ScriptStop::Name) };
        let arrive = Event::Arrive {
            stream,
            message: 4_294_967_295,
            piece: 0,
            at,
        };
        assert!(rt; script.add_event(arrive) == answer, "{stream:?} at {at:?}");
        let carry = Event::Carry {
            stream,
            message: 7,
            at,
        };
        assert!(rt; script.add_event(carry) == answer, "{stream:?} at {at:?}");
    }
    Ok(())
}

fn name(alloc: Global) -> Result<Name, Fail> {
    Ok(Name::new(alloc, b"note")?.ok_or("no name")?)
}

fn content(alloc: Global) -> Result<Content, Fail> {
    Ok(Content::new(alloc, b"ab")?.ok_or("no content")?)
}

fn ask(alloc: Global, script: &mut Script, from: u8, call: Call) -> Result<(), ScriptStop>
    requires { HasBlockNumber call }
{
    let call = AskedCall::new(alloc, call).map_err(|_| ScriptStop::OutOfMemory)?;
    script.add_event(Event::Ask { from, call })
}

/// A call names its host, and a level where it has one.
#[test]
fn names_levels_of_the_roster(rt: HostRuntime) -> Result<(), Fail> {
    let alloc = rt.alloc();
    let mut script = small_script(alloc)?;
    for (from, level, known) in [(1, 1, true), (6, 0, true), (9, 1, false), (1, 2, false)] {
        let answer = if known { Ok(()) } else { Err(ScriptStop::Name) };
        let get = Call::Get {
            level,
            name: name(alloc)?,
        };
        assert!(rt;
            ask(alloc, &mut script, from, get) == answer,
            "get {from} {level}"
        );
        let list = Call::List { level };
        assert!(rt;
            ask(alloc, &mut script, from, list) == answer,
            "list {from} {level}"
        );
        let block = Call::GetBlock {
            level,
            name: name(alloc)?,
            block: 63,
        };
        assert!(rt;
            ask(alloc, &mut script, from, block) == answer,
            "block {from} {level}"
        );
    }
    for (from, known) in [(5, true), (0, false)] {
        let answer = if known { Ok(()) } else { Err(ScriptStop::Name) };
        let put = Call::Put {
            name: name(alloc)?,
            content: content(alloc)?,
        };
        assert!(rt; ask(alloc, &mut script, from, put) == answer, "put {from}");
        let append = Call::Append {
            name: name(alloc)?,
            content: content(alloc)?,
        };
        assert!(rt;
            ask(alloc, &mut script, from, append) == answer,
            "append {from}"
        );
        let remove = Call::Remove { name: name(alloc)? };
        assert!(rt;
            ask(alloc, &mut script, from, remove) == answer,
            "remove {from}"
        );
    }
    assert_eq!(rt; script.events().len(), 9);
    Ok(())
}

#[test]
fn holds_forged_and_changed_frames(rt: HostRuntime) -> Result<(), Fail> {
    let mut script = small_script(rt.alloc())?;
    for (at, known) in [
        (Party::Manager(Partition(0)), true),
        (Party::Host(9), false),
    ] {
        let answer = if known { Ok(()) } else { Err(ScriptStop::Name) };
        let forge = Event::Forge {
            at,
            frame: ForgedFrame::new(rt.alloc(), &[0x44; 128])?,
        };
        assert!(rt; script.add_event(forge) == answer, "forged at {at:?}");
        let tamper = Event::Tamper {
            stream: STREAM,
            message: 4_294_967_295,
            piece: 63,
            at,
            edits: Edits::new(&[(32, 1), (40, 1)]).ok_or("no edits")?,
        };
        assert!(rt; script.add_event(tamper) == answer, "changed at {at:?}");
    }
    match script.events() {
        [Event::Forge { frame, .. }, Event::Tamper { edits, .. }] => {
            assert!(rt; frame.bytes() == &[0x44; 128]);
            assert!(rt; edits.pairs() == [(32, 1), (40, 1)].as_slice());
        }
        _ => assert!(rt; false, "other events"),
    }
    Ok(())
}

#[test]
fn edits(rt: HostRuntime) -> Result<(), Fail> {
    let eight = [
        (0, 1),
        (1, 255),
        (2, 2),
        (3, 3),
        (64, 4),
        (65, 5),
        (126, 6),
        (127, 7),
    ];
    for pairs in [
        [(0, 255)].as_slice(),
        &[(127, 1)],
        &[(5, 1), (6, 1)],
        &eight,
    ] {
        let edits = Edits::new(pairs).ok_or("no edits")?;
        assert!(rt; edits.pairs() == pairs);
    }
    let nine = [
        (0, 1),
        (1, 1),
        (2, 1),
        (3, 1),
        (4, 1),
        (5, 1),
        (6, 1),
        (7, 1),
        (8, 1),
    ];
    for pairs in [
        [].as_slice(),
        &[(128, 1)],
        &[(5, 0)],
        &[(5, 1), (5, 2)],
        &[(6, 1), (5, 1)],
        &nine,
    ] {
        assert!(rt; Edits::new(pairs).is_none());
    }
    Ok(())
}

fn row(reader: u8, action: StoreAction) -> PlanRow {
    PlanRow {
        reader: Partition(reader),
        action,
    }
}

#[test]
fn holds_rows(rt: HostRuntime) -> Result<(), Fail> {
    let mut script = small_script(rt.alloc())?;
    let version = 72_057_594_037_927_935;
    let flip = StoreAction::Flip {
        offset: 4_294_967_295,
        xor: 128,
    };
    for (row, known) in [
        (row(0, StoreAction::Honest), true),
        (row(1, StoreAction::Of { level: 0, version }), true),
        (row(0, flip), true),
        (row(1, StoreAction::Gone), true),
        (row(2, StoreAction::Honest), false),
        (row(0, StoreAction::Of { level: 2, version }), false),
    ] {
        let answer = if known { Ok(()) } else { Err(ScriptStop::Name) };
        assert!(rt; script.add_plan(row) == answer, "{row:?}");
    }
    assert_eq!(rt; script.rows().len(), 4);
    assert!(rt; script.rows()[2] == row(0, flip));
    script.add_event(Event::Carry {
        stream: STREAM,
        message: 0,
        at: STREAM.to,
    })?;
    assert!(rt; script.events().len() == 1);
    assert_eq!(rt; script.line_of(0), 13);
    Ok(())
}

#[test]
fn holds_so_many_rows(rt: HostRuntime) -> Result<(), Fail> {
    let mut script = small_script(rt.alloc())?;
    for _ in 0..100_000 {
        script.add_plan(row(1, StoreAction::Honest))?;
    }
    let one_more = script.add_plan(row(1, StoreAction::Gone));
    assert!(rt; one_more == Err(ScriptStop::Many));
    let unknown = script.add_plan(row(2, StoreAction::Gone));
    assert!(rt; unknown == Err(ScriptStop::Name));
    assert_eq!(rt; script.rows().len(), 100_000);
    Ok(())
}

fn pair(main: u64, check: u64) -> KeyPair {
    KeyPair {
        main: main.to_be_bytes(),
        check: check.to_be_bytes(),
    }
}

/// The lines `dss 1`, `seal des`, `level U 0 -`, `key U ..`, `guard ..`, `begin` and an event.
#[test]
fn lines_of_a_des_script(rt: HostRuntime) -> Result<(), Fail> {
    let mut roster = Roster::new(rt.alloc(), Sealing::Des);
    add_level(&mut roster, b"U", 0, 0)?;
    let Sealing::Des = roster.sealing() else {
        return Err("clear sealing")?;
    };
    if roster.key_count() >= roster.level_count() {
        return Err("all levels have keys")?;
    }
    roster.add_keys(pair(0x1334_5779_9bbc_dff1, 0x0e32_9232_ea6d_0d73))?;
    if roster.key_count() != roster.level_count() || roster.is_complete() {
        return Err("no room for the guarantor's keys")?;
    }
    roster.set_guard(pair(0x0123_4567_89ab_cdef, 0xfedc_ba98_7654_3210))?;
    if !roster.is_complete() {
        return Err("keys are missing")?;
    }
    let mut script = Script::start(rt.alloc(), roster);
    let at = Party::Manager(Partition(0));
    script.add_event(Event::Forge {
        at,
        frame: ForgedFrame::new(rt.alloc(), &[0; 128])?,
    })?;
    assert!(rt; script.events().len() == 1);
    assert_eq!(rt; script.line_of(0), 7);
    Ok(())
}

#[test]
fn holds_so_many_events(rt: HostRuntime) -> Result<(), Fail> {
    let mut script = small_script(rt.alloc())?;
    for _ in 0..100_000 {
        script.add_event(Event::Carry {
            stream: STREAM,
            message: 0,
            at: STREAM.to,
        })?;
    }
    for (at, stop) in [(2, ScriptStop::Many), (9, ScriptStop::Name)] {
        let one_more = Event::Carry {
            stream: STREAM,
            message: 0,
            at: Party::Host(at),
        };
        assert!(rt; script.add_event(one_more) == Err(stop), "at {at}");
        assert_eq!(rt; script.events().len(), 100_000);
    }
    assert!(rt; script.events().len() == 100_000);
    assert_eq!(rt; script.line_of(99_999), 100_008);
    Ok(())
}

#[test]
fn bodies(rt: HostRuntime) -> Result<(), Fail> {
    let long = vec![in rt.alloc(); 0xff; 6000]?;
    for bytes in [b"".as_slice(), b"\0", b"hi", &long] {
        let copy = Body::new(rt.alloc(), bytes)?;
        assert!(rt; copy.bytes() == bytes);
        let taken = Body::from(Vec::from_slice(rt.alloc(), bytes)?);
        assert!(rt; taken.bytes() == bytes);
    }
    Ok(())
}

#[test]
fn words(rt: HostRuntime) -> Result<(), Fail> {
    let mut text = Vec::new(rt.alloc());
    for n in [0, 9, 10, 250, 100_000, 4_294_967_295] {
        push_number(&mut text, n)?;
        text.push(b' ')?;
    }
    for bytes in [b"".as_slice(), b"\0", b"hi", b"\x0a\xf0\xff"] {
        push_hex(&mut text, bytes)?;
        text.push(b' ')?;
    }
    let expected = b"0 9 10 250 100000 4294967295 - 00 6869 0af0ff ".as_slice();
    assert!(rt; text.as_slice() == expected);
    Ok(())
}

/// Neither a call nor a forged frame makes events wide.
#[test]
fn events_are_narrow(rt: HostRuntime) -> Result<(), Fail> {
    let size = size_of::<Event>();
    assert_eq!(rt; size, 32);
    Ok(())
}
