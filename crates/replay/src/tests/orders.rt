use super::{HEAD, expect_bytes, joined};
use crate::Status;
use std::alloc::{AllocError, Global};
use std::process::Abort;
use std::test::Fail;
use std::thread::Threads;

/// The bytes of host 1's messages, each of which says one byte 89 times and so has two pieces.
const BYTES: [&str; 5] = ["a0", "a1", "a2", "a3", "a4"];

/// What host 1 is told of its sends.
const SENT: &str = "host 1 U\nsent 2 0\nsent 2 1\nsent 2 2\nsent 2 3\nsent 2 4\nhost 2 U\n";

/// What comes of the messages, and the bytes of those that host 2 is given.
type Coming<'a> = (&'a str, &'a [&'a str]);

/// Appends a line with a message.
fn push_message(line: &mut Vec<u8>, front: &str, byte: &str) -> Result<(), AllocError> {
    line.extend_from_slice(front.as_bytes())?;
    for _ in 0..89 {
        line.extend_from_slice(byte.as_bytes())?;
    }
    line.extend_from_slice(b"\n".as_slice())
}

fn expect_given<R: Threads + Abort>(
    rt: &R,
    alloc: Global,
    coming: Coming,
) -> Result<(), AllocError> {
    let (events, given) = coming;
    let mut input = joined(alloc, &[HEAD])?;
    for byte in BYTES {
        push_message(&mut input, "send 1 2 ", byte)?;
    }
    input.extend_from_slice(events.as_bytes())?;
    input.extend_from_slice(b"end\n".as_slice())?;
    let mut told = joined(alloc, &[SENT])?;
    for byte in given {
        push_message(&mut told, "from 1 ", byte)?;
    }
    told.extend_from_slice(b"host 5 S\nhost 6 S\n".as_slice())?;
    expect_bytes(rt, alloc, &["replay"], &input, Status::Fine, &told)
}

#[test]
fn four_messages_come_at_a_time(rt: HostRuntime) -> Result<(), Fail> {
    let rows: [Coming; 4] = [
        (
            "deliver 1>2#0.0 to 2\ndeliver 1>2#1.0 to 2\n\
             deliver 1>2#0.1 to 2\ndeliver 1>2#1.1 to 2\n",
            &["a0", "a1"],
        ),
        (
            "deliver 1>2#0.0 to 2\ndeliver 1>2#3.0 to 2\ndeliver 1>2#0.1 to 2\n",
            &["a0"],
        ),
        (
            "deliver 1>2#0.0 to 2\ndeliver 1>2#4.0 to 2\ndeliver 1>2#0.1 to 2\n",
            &[],
        ),
        (
            "deliver 1>2#0.0 to 2\ndeliver 1>2#1.0 to 2\n\
             deliver 1>2#1.1 to 2\ndeliver 1>2#0.1 to 2\n",
            &["a1"],
        ),
    ];
    for row in rows {
        expect_given(&rt, rt.alloc(), row)?;
    }
    Ok(())
}
