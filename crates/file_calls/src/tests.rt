ghost use Rattle.std.specs.Prelude.{◌≤◌};
ghost use Rattle.file_calls.specs.Spelling.{HasBlock, HasCount};

use crate::{Call, Content, Name, NameList, Reply, read_call, read_reply, write_call, write_reply};
use std::alloc::Global;
use std::process::Abort;
use std::test::Fail;

fn name(alloc: Global, text: &[u8]) -> Result<Name, Fail> {
    Ok(Name::new(alloc, text)?.ok_or("no name")?)
}

fn content(alloc: Global, bytes: &[u8]) -> Result<Content, Fail> {
    Ok(Content::new(alloc, bytes)?.ok_or("too long")?)
}

/// Appends a name that is greater than the last one.
fn push(names: &mut NameList, name: Name) -> Result<(), Fail> {
    if names.names().len() >= 128 || !names.is_below(&name) {
        return Err("no room for the name")?;
    }
    names.push(name)?;
    Ok(())
}

/// The call is spelled so, and is read back.
fn expect_call(rt: &impl Abort, alloc: Global, call: &Call, text: &[u8]) -> Result<(), Fail>
    requires { HasBlock call.now }
{
    assert!(rt; write_call(alloc, call)?.as_slice() == text);
    let read = read_call(alloc, text)?.ok_or("no call")?;
    assert_eq!(rt;
        format!(in alloc; "{read:?}")?,
        format!(in alloc; "{call:?}")?
    );
    Ok(())
}

fn expect_reply(rt: &impl Abort, alloc: Global, reply: &Reply, text: &[u8]) -> Result<(), Fail>
    requires { HasCount reply.now }
{
    assert!(rt; write_reply(alloc, reply)?.as_slice() == text);
    let read = read_reply(alloc, text)?.ok_or("no reply")?;
    assert_eq!(rt;
        format!(in alloc; "{read:?}")?,
        format!(in alloc; "{reply:?}")?
    );
    Ok(())
}

#[test]
fn calls(rt: HostRuntime) -> Result<(), Fail> {
    let alloc = rt.alloc();
    let put = Call::Put {
        name: name(alloc, b"note")?,
        content: content(alloc, b"ab")?,
    };
    expect_call(&rt, alloc, &put, b"\x01\x04note\x00\x02ab")?;
    let get = Call::Get {
        level: 0,
        name: name(alloc, b"note")?,
    };
    expect_call(&rt, alloc, &get, b"\x02\x00\x04note")?;
    expect_call(&rt, alloc, &Call::List { level: 1 }, b"\x03\x01")?;
    let remove = Call::Remove {
        name: name(alloc, b"note")?,
    };
    expect_call(&rt, alloc, &remove, b"\x04\x04note")?;
    Ok(())
}

#[test]
fn calls_of_blocks(rt: HostRuntime) -> Result<(), Fail> {
    let alloc = rt.alloc();
    let append = Call::Append {
        name: name(alloc, b"big")?,
        content: content(alloc, b"b")?,
    };
    expect_call(&rt, alloc, &append, b"\x05\x03big\x00\x01b")?;
    let block = Call::GetBlock {
        level: 0,
        name: name(alloc, b"big")?,
        block: 63,
    };
    expect_call(&rt, alloc, &block, b"\x06\x00\x03big\x3f")?;
    Ok(())
}

#[test]
fn replies(rt: HostRuntime) -> Result<(), Fail> {
    let alloc = rt.alloc();
    expect_reply(&rt, alloc, &Reply::Done(1), b"\x01\0\0\0\0\0\0\0\x01")?;
    let bytes = Reply::Bytes {
        version: 1,
        content: content(alloc, b"ab")?,
    };
    expect_reply(&rt, alloc, &bytes, b"\x02\0\0\0\0\0\0\0\x01\0\x02ab")?;
    expect_reply(&rt, alloc, &Reply::Refused, b"\x03")?;
    expect_reply(&rt, alloc, &Reply::Missing, b"\x04")?;
    expect_reply(&rt, alloc, &Reply::Damaged(2), b"\x05\0\0\0\0\0\0\0\x02")?;
    expect_reply(&rt, alloc, &Reply::Full, b"\x06")?;
    expect_reply(&rt, alloc, &Reply::Removed, b"\x07")?;
    let mut names = NameList::new(alloc);
    expect_reply(&rt, alloc, &Reply::Names(NameList::new(alloc)), b"\x08\x00")?;
    push(&mut names, name(alloc, b"a.txt")?)?;
    push(&mut names, name(alloc, b"note")?)?;
    expect_reply(
        &rt,
        alloc,
        &Reply::Names(names),
        b"\x08\x02\x05a.txt\x04note",
    )?;
    expect_reply(&rt, alloc, &Reply::Bad, b"\x09")?;
    let block = Reply::Block {
        version: 2,
        count: 2,
        content: content(alloc, b"b")?,
    };
    expect_reply(&rt, alloc, &block, b"\x0a\0\0\0\0\0\0\0\x02\x02\0\x01b")?;
    expect_reply(&rt, alloc, &Reply::Past(2), b"\x0b\x02")?;
    Ok(())
}

#[test]
fn no_calls(rt: HostRuntime) -> Result<(), Fail> {
    let alloc = rt.alloc();
    let texts = [
        b"".as_slice(),
        b"\x00",
        b"\x01\x04note\x00\x02ab\x00",
        b"\x01\x04note\x00\x03ab",
        b"\x01\x04note\x00",
        b"\x01\x05note",
        b"\x01\x04Note\x00\x02ab",
        b"\x02\x00\x00",
        b"\x02\x00\x04note\x00",
        b"\x03",
        b"\x03\x00\x00",
        b"\x04\x00",
        b"\x06\x00\x03big\x40",
        b"\x06\x00\x03big",
        b"\x06\x00\x03big\x00\x00",
        b"\x07",
    ];
    for text in texts {
        assert!(rt; read_call(alloc, text)?.is_none(), "{text:?}");
    }
    Ok(())
}

#[test]
fn no_replies(rt: HostRuntime) -> Result<(), Fail> {
    let alloc = rt.alloc();
    let texts = [
        b"".as_slice(),
        b"\x00",
        b"\x01\0\0\0\0\0\0\x01",
        b"\x01\0\0\0\0\0\0\0\x01\0",
        b"\x03\x00",
        b"\x08",
        b"\x08\x00\x00",
        b"\x08\x01",
        b"\x08\x02\x04note\x05a.txt",
        b"\x08\x02\x04note\x04note",
        b"\x0a\0\0\0\0\0\0\0\x02\x00\0\x01b",
        b"\x0a\0\0\0\0\0\0\0\x02\x41\0\x01b",
        b"\x0b\x00",
        b"\x0b\x41",
        b"\x0c",
    ];
    for text in texts {
        assert!(rt; read_reply(alloc, text)?.is_none(), "{text:?}");
    }
    Ok(())
}

#[test]
fn names(rt: HostRuntime) -> Result<(), Fail> {
    let alloc = rt.alloc();
    let longest = [b'z'; 32];
    assert!(rt; name(alloc, &longest)?.bytes() == longest.as_slice());
    assert!(rt; Name::new(alloc, &[b'z'; 33])?.is_none());
    assert!(rt; Name::new(alloc, b"")?.is_none());
    assert!(rt; Name::new(alloc, b"a/b")?.is_none());
    let note = name(alloc, b"note")?;
    let copy = note.copy(alloc)?;
    assert!(rt; copy == note);
    assert!(rt; name(alloc, b"a.txt")? < note);
    assert!(rt; name(alloc, b"no")? < note);
    assert!(rt; note < name(alloc, b"notes")?);
    Ok(())
}

#[test]
fn contents(rt: HostRuntime) -> Result<(), Fail> {
    let alloc = rt.alloc();
    assert!(rt; content(alloc, b"")?.bytes().is_empty());
    let longest = vec![in alloc; 0xff; 4096]?;
    assert!(rt; content(alloc, &longest)?.bytes() == longest.as_slice());
    let longer = vec![in alloc; 0xff; 4097]?;
    assert!(rt; Content::new(alloc, &longer)?.is_none());
    let mut text = vec![in alloc; 0; 4102]?;
    text[..6].copy_from_slice(b"\x01\x02no\x10\x00");
    assert!(rt; read_call(alloc, &text)?.is_some());
    text[5] = 1;
    text.push(0)?;
    assert!(rt; read_call(alloc, &text)?.is_none());
    Ok(())
}

/// The longest list of names, and one name more than its number says or than there may be.
#[test]
fn long_lists(rt: HostRuntime) -> Result<(), Fail> {
    let alloc = rt.alloc();
    let mut text = vec![in alloc; 8, 128]?;
    for i in 0..128u8 {
        text.extend_from_slice(&[2, b'a' + i / 16, b'a' + i % 16])?;
    }
    let Some(Reply::Names(names)) = read_reply(alloc, &text)? else {
        return Err("no names")?;
    };
    assert_eq!(rt; names.names().len(), 128);
    assert!(rt; write_reply(alloc, &Reply::Names(names))?.as_slice() == text.as_slice());
    text.extend_from_slice(b"\x02zz")?;
    assert!(rt; read_reply(alloc, &text)?.is_none());
    text[1] = 129;
    assert!(rt; read_reply(alloc, &text)?.is_none());
    Ok(())
}
