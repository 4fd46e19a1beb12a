ghost use Rattle.std.specs.Prelude.{◌<◌, ◌≤◌};
ghost use Rattle.events.specs.Scripts.{HasBlockNumber};

use crate::{
    AskedCall, Body, Edits, Event, ForgedFrame, Reason, Refusal, Script, ScriptRefused, Stream,
    read_script, write_script,
};
use file_calls::{Call, Content, Name};
use levels::{Level, LevelName, Partition, Party, Roster, Sealing};
use seal_core::KeyPair;
use std::alloc::{AllocError, Global};
use std::process::Abort;
use std::test::Fail;
use untrusted_store::{PlanRow, StoreAction};

mod forms;
mod keys;
mod long;
mod plan;

const HEAD: &str =
    "dss 1\nlevel U 0 -\nlevel S 2 a\nhost 1 U\nhost 2 U\nhost 5 S\nhost 6 S\nbegin\n";

fn joined(alloc: Global, parts: &[&str]) -> Result<Vec<u8>, AllocError> {
    let mut text = Vec::new(alloc);
    for part in parts {
        text.extend_from_slice(part.as_bytes())?;
    }
    Ok(text)
}

/// The first refusal of a text, or None where it is read.
fn refusal_of(alloc: Global, text: &[u8]) -> Result<Option<Refusal>, AllocError> {
    match read_script(alloc, text) {
        Ok(_) => Ok(None),
        Err(ScriptRefused::Refused(refusal)) => Ok(Some(refusal)),
        Err(ScriptRefused::OutOfMemory) => Err(AllocError),
    }
}

fn expect_refused(
    rt: &impl Abort,
    alloc: Global,
    text: &[u8],
    line: u32,
    reason: Reason,
) -> Result<(), AllocError> {
    let refusal = refusal_of(alloc, text)?;
    assert_eq!(rt; refusal, Some(Refusal { line, reason }), "at line {line}");
    Ok(())
}

/// A text with each of some lines behind it: it is refused there or, where the reason is `end`, one
/// line further, since the line was taken.
fn expect_each(
    rt: &impl Abort,
    alloc: Global,
    head: &[u8],
    number: u32,
    lines: &str,
    reason: Reason,
) -> Result<(), Fail>
    requires { number < 1000000 }
{
    let line = if reason == Reason::End {
        number + 1
    } else {
        number
    };
    for last in lines.lines() {
        let mut text = Vec::from_slice(alloc, head)?;
        text.extend_from_slice(last.as_bytes())?;
        text.push(b'\n')?;
        let refusal = refusal_of(alloc, &text)?;
        assert_eq!(rt; refusal, Some(Refusal { line, reason }), "{last}");
    }
    Ok(())
}

#[test]
fn refuses_whole_texts(rt: HostRuntime) -> Result<(), Fail> {
    for (text, line, reason) in [
        ("", 1, Reason::End),
        ("dss 1\n", 2, Reason::End),
        ("dss 2\n", 1, Reason::Form),
        ("dss 1", 1, Reason::Form),
        ("dss 1\r\n", 1, Reason::Form),
        ("dss 1\0\n", 1, Reason::Form),
        ("dss 1 \n", 1, Reason::Form),
        (" dss 1\n", 1, Reason::Form),
        ("dss  1\n", 1, Reason::Form),
        ("\n", 1, Reason::Form),
        ("level U 0 -\n", 1, Reason::Place),
        ("host 1 U\n", 1, Reason::Place),
        ("begin\n", 1, Reason::Place),
        ("send 1 2 00\n", 1, Reason::Place),
        ("end\n", 1, Reason::Place),
        ("dss 1\ndss 1\n", 2, Reason::Place),
        ("dss 1\nhost 1 U\n", 2, Reason::Place),
        ("dss 1\nbegin\n", 2, Reason::Place),
        (
            "dss 1\nlevel U 0 -\nhost 1 U\nlevel T 1 -\n",
            4,
            Reason::Place,
        ),
        ("dss 1\nlevel U 0 -\nbegin\nend\nx", 5, Reason::Form),
        ("dss 1\nlevel U 0 -\nbegin\nend\n\n", 5, Reason::Form),
        ("dss 1\nlevel U 0 -\nbegin\nend\nend\n", 5, Reason::Place),
    ] {
        expect_refused(&rt, rt.alloc(), text.as_bytes(), line, reason)?;
    }
    Ok(())
}

#[test]
fn refuses_lines_above_begin(rt: HostRuntime) -> Result<(), Fail> {
    let head = joined(rt.alloc(), &["dss 1\nlevel U 0 -\n"])?;
    let lines = "level t 1 -\n\
         level 1T 1 -\n\
         level ABCDEFGHI 1 -\n\
         level \u{e9} 1 -\n\
         level T 8 -\n\
         level T 01 -\n\
         level T 1 ba\n\
         level T 1 aa\n\
         level T 1 q\n\
         level T 1 -a\n\
         level T 1\n\
         level T 1 \n\
         level T 1 - -\n\
         host 0 U\n\
         host 251 U\n\
         host 01 U\n\
         host 18446744073709551617 U\n\
         host 1 u\n\
         host 1\tU\n\
         begin 1";
    expect_each(&rt, rt.alloc(), &head, 3, lines, Reason::Form)?;
    let lines = "dss 1\n\
         send 1 1 00\n\
         end";
    expect_each(&rt, rt.alloc(), &head, 3, lines, Reason::Place)?;
    let lines = "host 1 T";
    expect_each(&rt, rt.alloc(), &head, 3, lines, Reason::Name)?;
    let lines = "level U 3 -\n\
         level T 0 -";
    expect_each(&rt, rt.alloc(), &head, 3, lines, Reason::Twice)?;
    Ok(())
}

#[test]
fn refuses_lines_behind_begin(rt: HostRuntime) -> Result<(), Fail> {
    let head = joined(rt.alloc(), &[HEAD])?;
    let lines = "send 01 2 00\n\
         send 0 2 00\n\
         send 1 2 6A\n\
         send 1 2 6\n\
         send 1 2 \n\
         send 1 2 --\n\
         send 1 2\n\
         deliver 1>2#0.64 to 2\n\
         deliver 1>2#0.00 to 2\n\
         deliver 1>2#4294967296.0 to 2\n\
         deliver 1>2#0 to 2\n\
         deliver 1>2#0.0.0 to 2\n\
         carry 1>2#01 to 2\n\
         carry 1>2#0 at 2\n\
         carry 1>2>5#0 to 2";
    expect_each(&rt, rt.alloc(), &head, 9, lines, Reason::Form)?;
    let lines = "level T 1 -\n\
         host 9 X\n\
         begin";
    expect_each(&rt, rt.alloc(), &head, 9, lines, Reason::Place)?;
    let lines = "send 1 9 00\n\
         send 9 1 00\n\
         deliver 1>2#0.0 to 9\n\
         carry 9>2#0 to 2\n\
         carry 1>9#0 to 2";
    expect_each(&rt, rt.alloc(), &head, 9, lines, Reason::Name)?;
    let text = joined(rt.alloc(), &[HEAD, "carry 1>2#0 to 2\r\n"])?;
    expect_refused(&rt, rt.alloc(), &text, 9, Reason::Form)?;
    let text = joined(rt.alloc(), &[HEAD, "\n"])?;
    expect_refused(&rt, rt.alloc(), &text, 9, Reason::Form)?;
    Ok(())
}

#[test]
fn refuses_one_too_many(rt: HostRuntime) -> Result<(), Fail> {
    let mut text = joined(rt.alloc(), &["dss 1\n"])?;
    for rank in 0..2u8 {
        for cats in ["-", "a", "b", "c", "d", "e", "f", "g"] {
            let line = format!(in rt.alloc(); "level {}{} {} {}\n", "L", text.len(), rank, cats)?;
            text.extend_from_slice(line.as_bytes())?;
        }
    }
    let mut levels = joined(rt.alloc(), &["level L6 7 -\n"])?;
    let mut first = text.clone()?;
    first.extend_from_slice(&levels)?;
    expect_refused(&rt, rt.alloc(), &first, 18, Reason::Twice)?;
    levels = joined(rt.alloc(), &["level Z 7 -\n"])?;
    let mut second = text.clone()?;
    second.extend_from_slice(&levels)?;
    expect_refused(&rt, rt.alloc(), &second, 18, Reason::Many)?;
    for address in 1..65u8 {
        let line = format!(in rt.alloc(); "host {} L6\n", address)?;
        text.extend_from_slice(line.as_bytes())?;
    }
    let hosts = text.clone()?;
    text.extend_from_slice(b"host 250 L6\n".as_slice())?;
    expect_refused(&rt, rt.alloc(), &text, 82, Reason::Many)?;
    let mut again = hosts.clone()?;
    again.extend_from_slice(b"host 64 L6\n".as_slice())?;
    expect_refused(&rt, rt.alloc(), &again, 82, Reason::Twice)?;
    let mut full = hosts;
    full.extend_from_slice(b"begin\nend\n".as_slice())?;
    assert_eq!(rt; refusal_of(rt.alloc(), &full)?, None);
    Ok(())
}

#[test]
fn refuses_too_many_events(rt: HostRuntime) -> Result<(), Fail> {
    let mut text = joined(rt.alloc(), &[HEAD])?;
    for _ in 0..100_000u32 {
        text.extend_from_slice(b"send 1 2 -\n".as_slice())?;
    }
    let mut full = text.clone()?;
    full.extend_from_slice(b"end\n".as_slice())?;
    assert_eq!(rt; refusal_of(rt.alloc(), &full)?, None);
    text.extend_from_slice(b"send 1 2 -\n".as_slice())?;
    expect_refused(&rt, rt.alloc(), &text, 100_009, Reason::Many)?;
    Ok(())
}

#[test]
fn refuses_too_many_bytes(rt: HostRuntime) -> Result<(), Fail> {
    let mut long = vec![in rt.alloc(); b' '; 16_777_216]?;
    expect_refused(&rt, rt.alloc(), &long, 1, Reason::Form)?;
    long.push(b' ')?;
    expect_refused(&rt, rt.alloc(), &long, 0, Reason::Many)?;
    Ok(())
}

#[test]
fn writes_what_it_read(rt: HostRuntime) -> Result<(), Fail> {
    const DIGITS: &str = "0123456789abcdef0123456789abcdef0123456789abcdef0123456789abcdef";
    for body in [
        ["", "", ""],
        ["send 1 2 6869\n", "deliver 1>2#0.0 to 2\n", ""],
        ["send 1 2 -\n", "carry 1>2#0 to 2\n", ""],
        ["deliver 6>5#4294967295.63 to 1\n", "", ""],
        ["send 5 6 ", DIGITS, "00\n"],
    ] {
        let [first, second, third] = body;
        let text = joined(rt.alloc(), &[HEAD, first, second, third, "end\n"])?;
        let script = read_script(rt.alloc(), &text)?;
        let again = write_script(rt.alloc(), &script)?;
        assert_eq!(rt; again.as_slice(), text.as_slice());
    }
    Ok(())
}

fn pair(main: u8, check: u8) -> KeyPair {
    KeyPair {
        main: [main; 8],
        check: [check; 8],
    }
}

fn add_level(roster: &mut Roster, name: &[u8], rank: u8, cats: u16) -> Result<(), Fail>
    requires { rank ≤ 7 }
{
    let name = LevelName::new(name).ok_or("no name")?;
    roster.add_level(name, Level { rank, cats })?;
    Ok(())
}

fn add_host(roster: &mut Roster, address: u8, level: &[u8]) -> Result<(), Fail>
    requires { (1 ≤ address) × (address ≤ 250) }
{
    let name = LevelName::new(level).ok_or("no name")?;
    let partition = roster.find_level(&name).ok_or("no such level")?;
    Ok(roster.add_host(address, partition)?)
}

fn add_keys(roster: &mut Roster, keys: KeyPair) -> Result<(), Fail> {
    let Sealing::Des = roster.sealing() else {
        return Err("clear sealing")?;
    };
    if roster.key_count() >= roster.level_count() {
        return Err("all levels have keys")?;
    }
    Ok(roster.add_keys(keys)?)
}

fn set_guard(roster: &mut Roster, keys: KeyPair) -> Result<(), Fail> {
    let Sealing::Des = roster.sealing() else {
        return Err("clear sealing")?;
    };
    if roster.level_count() == 0 || roster.key_count() != roster.level_count() {
        return Err("a level has no keys")?;
    }
    if roster.is_complete() {
        return Err("the guarantor has keys")?;
    }
    Ok(roster.set_guard(keys)?)
}

/// A script of DES sealing with two levels and two hosts, and a plan with each kind of row.
fn planned_script(alloc: Global) -> Result<Script, Fail> {
    let mut roster = Roster::new(alloc, Sealing::Des);
    add_level(&mut roster, b"U", 0, 0)?;
    add_level(&mut roster, b"S", 2, 3)?;
    add_keys(&mut roster, pair(0x20, 0x30))?;
    add_keys(&mut roster, pair(0x60, 0x70))?;
    set_guard(&mut roster, pair(0x80, 0x90))?;
    add_host(&mut roster, 1, b"U")?;
    add_host(&mut roster, 5, b"S")?;
    if !roster.is_complete() {
        return Err("keys are missing")?;
    }
    let mut script = Script::start(alloc, roster);
    for (reader, action) in [
        (0, StoreAction::Honest),
        (
            1,
            StoreAction::Of {
                level: 0,
                version: 72_057_594_037_927_935,
            },
        ),
        (
            1,
            StoreAction::Flip {
                offset: 4_294_967_295,
                xor: 10,
            },
        ),
        (1, StoreAction::Gone),
    ] {
        let reader = Partition(reader);
        script.add_plan(PlanRow { reader, action })?;
    }
    Ok(script)
}

fn file_name(alloc: Global, text: &[u8]) -> Result<Name, Fail> {
    Ok(Name::new(alloc, text)?.ok_or("no file name")?)
}

fn content(alloc: Global, bytes: &[u8]) -> Result<Content, Fail> {
    Ok(Content::new(alloc, bytes)?.ok_or("too long")?)
}

fn add_call(alloc: Global, script: &mut Script, call: Call) -> Result<(), Fail>
    requires { HasBlockNumber call }
{
    let from = 5;
    let call = AskedCall::new(alloc, call)?;
    script.add_event(Event::Ask { from, call })?;
    Ok(())
}

/// Adds a call of each form.
fn add_calls(alloc: Global, script: &mut Script) -> Result<(), Fail> {
    let put = Call::Put {
        name: file_name(alloc, b"note")?,
        content: content(alloc, b"ab")?,
    };
    add_call(alloc, script, put)?;
    let get = Call::Get {
        level: 0,
        name: file_name(alloc, b"note")?,
    };
    add_call(alloc, script, get)?;
    add_call(alloc, script, Call::List { level: 1 })?;
    let remove = Call::Remove {
        name: file_name(alloc, b"a.txt")?,
    };
    add_call(alloc, script, remove)?;
    let append = Call::Append {
        name: file_name(alloc, b"note")?,
        content: content(alloc, b"")?,
    };
    add_call(alloc, script, append)?;
    let block = Call::GetBlock {
        level: 0,
        name: file_name(alloc, b"0-_.z")?,
        block: 63,
    };
    add_call(alloc, script, block)
}

#[test]
fn writes_lines_of_every_form(rt: HostRuntime) -> Result<(), Fail> {
    let alloc = rt.alloc();
    let mut script = planned_script(alloc)?;
    let host = Party::Host(1);
    let manager = Party::Manager(Partition(1));
    script.add_event(Event::Send {
        from: 5,
        to: manager,
        message: Body::new(alloc, b"hi")?,
    })?;
    add_calls(alloc, &mut script)?;
    let (up, down) = (
        Stream {
            from: host,
            to: manager,
        },
        Stream {
            from: manager,
            to: host,
        },
    );
    script.add_event(Event::Arrive {
        stream: up,
        message: 0,
        piece: 63,
        at: manager,
    })?;
    script.add_event(Event::Carry {
        stream: down,
        message: 4_294_967_295,
        at: host,
    })?;
    script.add_event(Event::Forge {
        at: manager,
        frame: ForgedFrame::new(alloc, &[0xa5; 128])?,
    })?;
    let edits = Edits::new(&[(0, 1), (40, 0xff), (127, 0x80)]).ok_or("no edits")?;
    script.add_event(Event::Tamper {
        stream: up,
        message: 2,
        piece: 0,
        at: manager,
        edits,
    })?;
    let bytes = vec![in alloc; 0xa5; 128]?;
    let digits = hex::encode(alloc, &bytes)?;
    let expected = joined(
        alloc,
        &[
            "dss 1\nseal des\nlevel U 0 -\nlevel S 2 ab\n",
            "key U 2020202020202020 3030303030303030\nkey S 6060606060606060 7070707070707070\n",
            "guard 8080808080808080 9090909090909090\nhost 1 U\nhost 5 S\nstore U true\n",
            "store S of U 72057594037927935\nstore S flip 4294967295 0a\nstore S gone\nbegin\n",
            "send 5 S 6869\nput 5 note 6162\nget 5 U note\nlist 5 S\nremove 5 a.txt\n",
            "append 5 note -\nblock 5 U 0-_.z 63\ndeliver 1>S#0.63 to S\n",
            "carry S>1#4294967295 to 1\nforge S ",
            digits.as_str(),
            "\ntamper 1>S#2.0 to S 0^01 40^ff 127^80\nend\n",
        ],
    )?;
    let text = write_script(alloc, &script)?;
    assert_eq!(rt; text.as_slice(), expected.as_slice());
    assert_eq!(rt; script.line_of(0), 15);
    let again = write_script(alloc, &read_script(alloc, &text)?)?;
    assert_eq!(rt; again.as_slice(), expected.as_slice());
    Ok(())
}

#[test]
fn reads_the_first_example(rt: HostRuntime) -> Result<(), Fail> {
    let text = joined(
        rt.alloc(),
        &[HEAD, "send 1 2 6869\ndeliver 1>2#0.0 to 2\nend\n"],
    )?;
    let script = read_script(rt.alloc(), &text)?;
    assert_eq!(rt; script.roster().level_count(), 2);
    assert_eq!(rt; script.roster().host_count(), 4);
    assert_eq!(rt; script.events().len(), 2);
    assert_eq!(rt; script.line_of(1), 10);
    match &script.events()[0] {
        Event::Send { from, message, .. } => {
            assert_eq!(rt; *from, 1);
            assert_eq!(rt; message.bytes(), b"hi".as_slice());
        }
        _ => assert!(rt; false, "the first event is no send"),
    }
    Ok(())
}
