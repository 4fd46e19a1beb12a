use crate::{Engine, EngineStop, Report};
use events::{AskedCall, Body, Event, ForgedFrame, Script, Stream};
use file_calls::{Call, Content, Name};
use levels::{Level, LevelName, Partition, Party, Roster, Sealing};
use machine::OutLine;
use ring_link::NoGate;
use std::alloc::Global;
use std::process::Abort;
use std::test::Fail;

const FIRST: Party = Party::Host(1);

const SECOND: Party = Party::Host(2);

const MANAGER: Party = Party::Manager(Partition(0));

/// The script whose first lines are `dss 1`, `level U 0 -`, `host 1 U`, `host 2 U` and `begin`.
fn small_script(alloc: Global) -> Result<Script, Fail> {
    let mut roster = Roster::new(alloc, Sealing::Clear);
    let name = LevelName::new(b"U").ok_or("no name")?;
    roster.add_level(name, Level { rank: 0, cats: 0 })?;
    let name = LevelName::new(b"U").ok_or("no name")?;
    let partition = roster.find_level(&name).ok_or("no such level")?;
    roster.add_host(1, partition)?;
    roster.add_host(2, partition)?;
    if !roster.is_complete() {
        return Err("no level")?;
    }
    Ok(Script::start(alloc, roster))
}

/// What was sent from one party to another comes to the other.
fn carry(script: &mut Script, from: Party, to: Party) -> Result<(), Fail> {
    script.add_event(Event::Carry {
        stream: Stream { from, to },
        message: 0,
        at: to,
    })?;
    Ok(())
}

/// Host 1 sends to host 2, and asks its manager to write a file.
fn files_and_messages(alloc: Global) -> Result<Script, Fail> {
    let mut script = small_script(alloc)?;
    let message = Body::new(alloc, b"hi")?;
    script.add_event(Event::Send {
        from: 1,
        to: SECOND,
        message,
    })?;
    carry(&mut script, FIRST, SECOND)?;
    let put = Call::Put {
        name: Name::new(alloc, b"note")?.ok_or("no file name")?,
        content: Content::new(alloc, b"ab")?.ok_or("too long")?,
    };
    let call = AskedCall::new(alloc, put)?;
    script.add_event(Event::Ask { from: 1, call })?;
    carry(&mut script, FIRST, MANAGER)?;
    carry(&mut script, MANAGER, FIRST)?;
    Ok(script)
}

fn is_sent(line: &OutLine, party: Party) -> bool {
    match line {
        OutLine::Sent { to, message } => *to == party && *message == 0,
        _ => false,
    }
}

fn is_from(line: &OutLine, party: Party, bytes: &[u8]) -> bool {
    match line {
        OutLine::From { from, body } => *from == party && body.bytes() == bytes,
        _ => false,
    }
}

fn has_told(report: &Report) -> bool {
    let (first, second) = (report.lines_of(1), report.lines_of(2));
    first.len() == 3
        && is_sent(&first[0], SECOND)
        && is_sent(&first[1], MANAGER)
        && is_from(&first[2], MANAGER, b"\x01\0\0\0\0\0\0\0\x01")
        && second.len() == 1
        && is_from(&second[0], FIRST, b"hi")
}

#[test]
fn runs_a_script(rt: HostRuntime) -> Result<(), Fail> {
    let script = files_and_messages(rt.alloc())?;
    let engine = Engine::open(rt.alloc(), script)?;
    let Ok(report) = engine.run(&rt, &NoGate) else {
        return Err("no report")?;
    };
    assert!(rt; has_told(&report));
    assert_eq!(rt; report.frames().len(), 3);
    assert!(rt; report.frames()[2].stream.from == MANAGER);
    assert_eq!(rt; report.turns(), 6);
    Ok(())
}

/// Bytes that hold nothing come to a unit, and then the frame of a piece that was never sent.
#[test]
fn stops_at_a_false_frame(rt: HostRuntime) -> Result<(), Fail> {
    let mut frame = [0; 128];
    let mut script = small_script(rt.alloc())?;
    script.add_event(Event::Forge {
        at: SECOND,
        frame: ForgedFrame::new(rt.alloc(), &frame)?,
    })?;
    frame[..4].copy_from_slice(&[0x44, 0x53, 1, 0]);
    frame[8..10].copy_from_slice(&[1, 2]);
    frame[16..18].copy_from_slice(&[1, 2]);
    frame[24] = 2;
    frame[32..34].copy_from_slice(b"hi");
    frame[120..].copy_from_slice(&[0x6b, 0x68, 1, 1, 1, 1, 1, 1]);
    script.add_event(Event::Forge {
        at: SECOND,
        frame: ForgedFrame::new(rt.alloc(), &frame)?,
    })?;
    let engine = Engine::open(rt.alloc(), script)?;
    match engine.run(&rt, &NoGate) {
        Err(EngineStop::Opened(line)) => assert_eq!(rt; line, 7),
        _ => return Err("no false frame")?,
    }
    Ok(())
}
