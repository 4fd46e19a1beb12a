use super::false_bytes::FOREIGN;
use super::runs::Pushes;
use super::{FIRST, HEAD, ROSTER, expect_bytes, joined, words};
use crate::{Status, run};
use dss_io::{SureSink, SureSource};
use script::{Reason, Refusal};
use std::alloc::{AllocError, Global};
use std::process::Abort;
use std::test::Fail;
use std::thread::Threads;

/// What is told of two scripts that are alike at the lower level.
const ALIKE: &str = "alike\nhost 1 U\nsent 2 0\nhost 2 U\nfrom 1 6869\n";

/// The level, the three parts of the second script, and the status and the text that are due.
type Twin<'a> = (&'a str, [&'a str; 3], Status, &'a str);

/// Compares a second script with the first one.
fn expect_twin<R: Threads + Abort>(rt: &R, alloc: Global, twin: Twin) -> Result<(), AllocError> {
    let (level, [head, events, end], status, told) = twin;
    let input = joined(alloc, &[HEAD, FIRST, "end\n", head, events, end])?;
    expect_bytes(rt, alloc, &["twin", level], &input, status, told.as_bytes())
}

#[test]
fn two_scripts_are_alike_or_apart(rt: HostRuntime) -> Result<(), Fail> {
    let rows: [Twin; 4] = [
        (
            "U",
            [HEAD, FIRST, "send 5 6 77\nend\n"],
            Status::Fine,
            ALIKE,
        ),
        (
            "S",
            [HEAD, FIRST, "send 5 6 77\nend\n"],
            Status::Fine,
            "apart 3\n",
        ),
        (
            "U",
            [HEAD, "send 1 2 6868\n", "end\n"],
            Status::Fine,
            "apart 1\n",
        ),
        (
            "U",
            [ROSTER, "host 7 S\nbegin\n", "end\n"],
            Status::Fine,
            "apart 0\n",
        ),
    ];
    for row in rows {
        expect_twin(&rt, rt.alloc(), row)?;
    }
    Ok(())
}

fn refused(line: u32, reason: Reason) -> Status {
    Status::Refused(Refusal { line, reason })
}

#[test]
fn lines_are_counted_over_both_scripts(rt: HostRuntime) -> Result<(), Fail> {
    let rows: [Twin; 3] = [
        (
            "U",
            ["", "", ""],
            refused(12, Reason::End),
            "refused 12 end\n",
        ),
        (
            "U",
            [HEAD, "send 1 9 00\n", "end\n"],
            refused(20, Reason::Name),
            "refused 20 name\n",
        ),
        (
            "T",
            [HEAD, FIRST, "end\n"],
            refused(0, Reason::Name),
            "refused 0 name\n",
        ),
    ];
    for row in rows {
        expect_twin(&rt, rt.alloc(), row)?;
    }
    Ok(())
}

#[test]
fn false_bytes_open_in_the_second_script(rt: HostRuntime) -> Result<(), Fail> {
    let alloc = rt.alloc();
    let script = [HEAD, FIRST, "end\n"];
    let [head, events, end] = script;
    let input = joined(
        alloc,
        &[
            head, events, end, head, events, "forge 5 ", FOREIGN, "\n", end,
        ],
    )?;
    expect_bytes(
        &rt,
        alloc,
        &["twin", "U"],
        &input,
        Status::Opened(22),
        b"opened 22\n".as_slice(),
    )?;
    Ok(())
}

#[test]
fn both_scripts_are_run(rt: HostRuntime) -> Result<(), Fail> {
    let alloc = rt.alloc();
    let input = joined(
        alloc,
        &[HEAD, FIRST, "end\n", HEAD, FIRST, "send 5 6 77\nend\n"],
    )?;
    let mut source = SureSource::new(alloc, &input)?;
    let mut sink = SureSink::new(alloc);
    let words = words(alloc, &["twin", "U"])?;
    let gate = Pushes::new();
    let mut kept = None;
    let answer = run(&rt, alloc, &words, &mut source, &mut sink, &gate, &mut kept);
    assert_eq!(rt; answer, Status::Fine);
    // Three messages are sent, of which one comes in each script.
    assert_eq!(rt; gate.counted(), (3, 2));
    assert!(rt; kept.is_none());
    Ok(())
}
