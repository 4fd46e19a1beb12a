mod drills;
mod false_bytes;
mod faults;
mod orders;
mod runs;
mod twins;
mod units;

use crate::{Status, run};
use dss_io::{Sink, Source, SureSink, SureSource};
use ring_link::NoGate;
use script::{Reason, Refusal};
use std::alloc::{AllocError, Global};
use std::process::Abort;
use std::test::Fail;
use std::thread::Threads;

/// The lines of two levels and four hosts, in front of the store's.
pub const ROSTER: &str =
    "dss 1\nlevel U 0 -\nlevel S 2 a\nhost 1 U\nhost 2 U\nhost 5 S\nhost 6 S\n";

/// The same, and the beginning.
pub const HEAD: &str =
    "dss 1\nlevel U 0 -\nlevel S 2 a\nhost 1 U\nhost 2 U\nhost 5 S\nhost 6 S\nbegin\n";

pub const FIRST: &str = "send 1 2 6869\ndeliver 1>2#0.0 to 2\n";

pub const FIRST_TOLD: &str = "host 1 U\nsent 2 0\nhost 2 U\nfrom 1 6869\nhost 5 S\nhost 6 S\n";

/// What is told where the message doesn't come.
pub const FIRST_LOST: &str = "host 1 U\nsent 2 0\nhost 2 U\nhost 5 S\nhost 6 S\n";

pub fn joined(alloc: Global, parts: &[&str]) -> Result<Vec<u8>, AllocError> {
    let mut text = Vec::new(alloc);
    for part in parts {
        text.extend_from_slice(part.as_bytes())?;
    }
    Ok(text)
}

pub fn words(alloc: Global, parts: &[&str]) -> Result<Vec<String>, AllocError> {
    let mut words = Vec::new(alloc);
    for part in parts {
        words.push(String::from_str(alloc, part)?)?;
    }
    Ok(words)
}

/// Asks over a source and a sink. Answers the status, and whether a report is kept.
pub fn ask<R: Threads, S: Source, K: Sink>(
    rt: &R,
    alloc: Global,
    asked: &[&str],
    source: &mut S,
    sink: &mut K,
) -> Result<(Status, bool), AllocError> {
    let words = words(alloc, asked)?;
    let mut kept = None;
    let answer = run(rt, alloc, &words, source, sink, &NoGate, &mut kept);
    Ok((answer, kept.is_some()))
}

/// Asks over objects that never fail, and compares the status, what is written, and whether a
/// report is kept.
pub fn expect_bytes<R: Threads + Abort>(
    rt: &R,
    alloc: Global,
    asked: &[&str],
    input: &[u8],
    status: Status,
    written: &[u8],
) -> Result<(), AllocError> {
    let mut source = SureSource::new(alloc, input)?;
    let mut sink = SureSink::new(alloc);
    let (answer, is_kept) = ask(rt, alloc, asked, &mut source, &mut sink)?;
    assert_eq!(rt; answer, status);
    assert!(rt; sink.contents() == written);
    let keeps = asked.iter().all(|word| *word != "check" && *word != "twin");
    assert_eq!(rt; is_kept, keeps && status == Status::Fine);
    Ok(())
}

pub fn expect<R: Threads + Abort>(
    rt: &R,
    alloc: Global,
    asked: &[&str],
    input: &[u8],
    status: Status,
    written: &str,
) -> Result<(), AllocError> {
    expect_bytes(rt, alloc, asked, input, status, written.as_bytes())
}

#[test]
fn tells_each_host_what_it_is_to_be_told(rt: HostRuntime) -> Result<(), Fail> {
    for (events, told) in [
        (FIRST, FIRST_TOLD),
        ("", "host 1 U\nhost 2 U\nhost 5 S\nhost 6 S\n"),
        (
            "send 1 2 6869\ndeliver 1>2#0.0 to 2\ndeliver 1>2#0.0 to 2\ndeliver 1>2#0.0 to 2\n",
            FIRST_TOLD,
        ),
        (
            "send 1 5 00\nsend 1 1 00\n",
            "host 1 U\nrefused 5 nopartner\nrefused 1 nopartner\nhost 2 U\nhost 5 S\nhost 6 S\n",
        ),
        (
            "send 1 S 00\n",
            "host 1 U\nrefused S nopartner\nhost 2 U\nhost 5 S\nhost 6 S\n",
        ),
        (
            "send 1 2 -\ncarry 1>2#0 to 2\n",
            "host 1 U\nsent 2 0\nhost 2 U\nfrom 1 -\nhost 5 S\nhost 6 S\n",
        ),
        (
            "send 1 2 01\nsend 1 2 02\ndeliver 1>2#1.0 to 2\ndeliver 1>2#0.0 to 2\n",
            "host 1 U\nsent 2 0\nsent 2 1\nhost 2 U\nfrom 1 02\nhost 5 S\nhost 6 S\n",
        ),
        (
            "send 5 6 99\ndeliver 5>6#0.0 to 2\ndeliver 5>6#0.0 to 5\n",
            "host 1 U\nhost 2 U\nhost 5 S\nsent 6 0\nhost 6 S\n",
        ),
        (
            "deliver 1>2#0.0 to 2\nsend 1 2 00\ndeliver 1>2#7.0 to 2\n",
            FIRST_LOST,
        ),
        ("send 1 2 01\ndeliver 1>2#0.1 to 2\n", FIRST_LOST),
    ] {
        let input = joined(rt.alloc(), &[HEAD, events, "end\n"])?;
        expect(&rt, rt.alloc(), &["replay"], &input, Status::Fine, told)?;
    }
    Ok(())
}

/// A message in hex: so many bytes aa.
fn message_of(alloc: Global, count: usize) -> Result<String, AllocError> {
    let mut hex = String::new(alloc);
    for _ in 0..count {
        hex.push_str("aa")?;
    }
    Ok(hex)
}

/// Host 1 sends a message of so many bytes, and then events happen. Host 1 is told of its sends;
/// host 2 is given the message or not, and then other lines.
type Sending<'a> = (usize, &'a str, &'a str, bool, &'a str);

fn expect_together<R: Threads + Abort>(
    rt: &R,
    alloc: Global,
    sending: Sending,
) -> Result<(), AllocError> {
    let (count, events, own, gives, other) = sending;
    let hex = message_of(alloc, count)?;
    let input = joined(
        alloc,
        &[HEAD, "send 1 2 ", hex.as_str(), "\n", events, "end\n"],
    )?;
    let given = joined(alloc, &["from 1 ", hex.as_str(), "\n"])?;
    let mut told = joined(alloc, &["host 1 U\n", own, "host 2 U\n"])?;
    if gives {
        told.extend_from_slice(&given)?;
    }
    told.extend_from_slice(other.as_bytes())?;
    told.extend_from_slice(b"host 5 S\nhost 6 S\n".as_slice())?;
    expect_bytes(rt, alloc, &["replay"], &input, Status::Fine, &told)
}

#[test]
fn puts_messages_together(rt: HostRuntime) -> Result<(), Fail> {
    let rows: [Sending; 6] = [
        (89, "deliver 1>2#0.1 to 2\n", "sent 2 0\n", false, ""),
        (
            89,
            "deliver 1>2#0.1 to 2\ndeliver 1>2#0.0 to 2\n",
            "sent 2 0\n",
            true,
            "",
        ),
        (
            176,
            "deliver 1>2#0.2 to 2\ndeliver 1>2#0.1 to 2\n",
            "sent 2 0\n",
            false,
            "",
        ),
        (
            176,
            "deliver 1>2#0.2 to 2\ndeliver 1>2#0.1 to 2\ndeliver 1>2#0.0 to 2\n",
            "sent 2 0\n",
            true,
            "",
        ),
        (
            89,
            "send 1 2 02\ndeliver 1>2#0.0 to 2\ndeliver 1>2#1.0 to 2\ndeliver 1>2#0.1 to 2\n",
            "sent 2 0\nsent 2 1\n",
            false,
            "from 1 02\n",
        ),
        (
            5632,
            "carry 1>2#0 to 2\ncarry 1>2#0 to 2\n",
            "sent 2 0\n",
            true,
            "",
        ),
    ];
    for row in rows {
        expect_together(&rt, rt.alloc(), row)?;
    }
    Ok(())
}

#[test]
fn a_longer_message_is_refused(rt: HostRuntime) -> Result<(), Fail> {
    let long = message_of(rt.alloc(), 5633)?;
    let hex = message_of(rt.alloc(), 5632)?;
    let input = joined(
        rt.alloc(),
        &[
            HEAD,
            "send 1 2 ",
            long.as_str(),
            "\nsend 1 2 ",
            hex.as_str(),
            "\ncarry 1>2#0 to 2\nend\n",
        ],
    )?;
    let told = joined(
        rt.alloc(),
        &[
            "host 1 U\nrefused 2 toolong\nsent 2 0\nhost 2 U\nfrom 1 ",
            hex.as_str(),
            "\nhost 5 S\nhost 6 S\n",
        ],
    )?;
    expect_bytes(&rt, rt.alloc(), &["replay"], &input, Status::Fine, &told)?;
    Ok(())
}

#[test]
fn checks_a_script(rt: HostRuntime) -> Result<(), Fail> {
    let input = joined(rt.alloc(), &[HEAD, FIRST, "end\n"])?;
    let counts = "ok levels 2 hosts 4 store 0 events 2\n";
    expect(&rt, rt.alloc(), &["check"], &input, Status::Fine, counts)?;
    let rows = "store U of U 1\nstore U gone\n";
    let input = joined(rt.alloc(), &[ROSTER, rows, "begin\nend\n"])?;
    let counts = "ok levels 2 hosts 4 store 2 events 0\n";
    expect(&rt, rt.alloc(), &["check"], &input, Status::Fine, counts)?;
    Ok(())
}

/// An input is refused at this line, for this reason and in this word.
pub fn expect_refused<R: Threads + Abort>(
    rt: &R,
    alloc: Global,
    asked: &str,
    input: &[u8],
    line: u32,
    reason: Reason,
    word: &str,
) -> Result<(), AllocError> {
    let number = line.to_string(alloc)?;
    let told = joined(alloc, &["refused ", number.as_str(), " ", word, "\n"])?;
    let status = Status::Refused(Refusal { line, reason });
    expect_bytes(rt, alloc, &[asked], input, status, &told)
}

/// The two parts of an input, and the line, the reason and the word at which it is refused.
type Refusing<'a> = (&'a str, &'a str, u32, Reason, &'a str);

fn expect_refused_always<R: Threads + Abort>(
    rt: &R,
    alloc: Global,
    refusing: Refusing,
) -> Result<(), AllocError> {
    let (head, rest, line, reason, word) = refusing;
    let input = joined(alloc, &[head, rest])?;
    for asked in ["replay", "check", "wire"] {
        expect_refused(rt, alloc, asked, &input, line, reason, word)?;
    }
    Ok(())
}

#[test]
fn refuses_where_a_line_is_missing_or_out_of_place(rt: HostRuntime) -> Result<(), Fail> {
    let rows: [Refusing; 7] = [
        ("", "", 1, Reason::End, "end"),
        ("dss 1\n", "", 2, Reason::End, "end"),
        ("dss 2\n", "", 1, Reason::Form, "form"),
        (HEAD, FIRST, 11, Reason::End, "end"),
        (
            HEAD,
            "send 1 2 6869\ndeliver 1>2#0.0 to 2\nend",
            11,
            Reason::Form,
            "form",
        ),
        (
            HEAD,
            "send 1 2 6869\ndeliver 1>2#0.0 to 2\nend\nend\n",
            12,
            Reason::Place,
            "place",
        ),
        ("dss 1\nhost 1 U\n", "", 2, Reason::Place, "place"),
    ];
    for row in rows {
        expect_refused_always(&rt, rt.alloc(), row)?;
    }
    Ok(())
}

/// Two levels.
const LEVELS: &str = "dss 1\nlevel U 0 -\nlevel S 2 a\n";

/// A level under DES, in front of its keys.
const KEYED: &str = "dss 1\nseal des\nlevel U 0 -\n";

#[test]
fn refuses_what_a_line_says(rt: HostRuntime) -> Result<(), Fail> {
    let rows: [Refusing; 7] = [
        (LEVELS, "level U 3 -\n", 4, Reason::Twice, "twice"),
        (LEVELS, "level T 0 -\n", 4, Reason::Twice, "twice"),
        (
            KEYED,
            "key U 0000000000000000 133457799bbcdff1\n",
            4,
            Reason::Key,
            "key",
        ),
        (
            KEYED,
            "key U 133457799bbcdff1 123456789abcdef0\n",
            4,
            Reason::Key,
            "key",
        ),
        (HEAD, "send 1 9 00\nend\n", 9, Reason::Name, "name"),
        (HEAD, "send 01 2 00\nend\n", 9, Reason::Form, "form"),
        (HEAD, "send 1 2 6A\nend\n", 9, Reason::Form, "form"),
    ];
    for row in rows {
        expect_refused_always(&rt, rt.alloc(), row)?;
    }
    Ok(())
}

#[test]
fn refuses_an_input_that_is_too_long(rt: HostRuntime) -> Result<(), Fail> {
    let mut input = Vec::new(rt.alloc());
    input.resize(16_777_217, b'a')?;
    let status = Status::Refused(Refusal {
        line: 0,
        reason: Reason::Many,
    });
    expect(
        &rt,
        rt.alloc(),
        &["check"],
        &input,
        status,
        "refused 0 many\n",
    )?;
    Ok(())
}

#[test]
fn other_words_have_no_form(rt: HostRuntime) -> Result<(), Fail> {
    let input = joined(rt.alloc(), &[HEAD, FIRST, "end\n"])?;
    let other: [&[&str]; 7] = [
        &[],
        &["replay", "replay"],
        &["Replay"],
        &["repla"],
        &["checks"],
        &["wire", "wire"],
        &[""],
    ];
    for asked in other {
        expect(&rt, rt.alloc(), asked, &input, Status::Usage, "")?;
    }
    Ok(())
}

#[test]
fn each_status_has_its_number(rt: HostRuntime) {
    let refused = Status::Refused(Refusal {
        line: 7,
        reason: Reason::Name,
    });
    for (status, code) in [
        (Status::Fine, 0),
        (Status::Usage, 1),
        (refused, 2),
        (Status::ReadFault, 3),
        (Status::WriteFault, 4),
        (Status::Opened(10), 5),
        (Status::OutOfMemory, 6),
    ] {
        assert_eq!(rt; status.code(), code);
    }
}
