use super::{FIRST, FIRST_TOLD, HEAD, ask, expect_refused, joined};
use crate::Status;
use dss_io::{MemSink, MemSource, SureSink, SureSource};
use script::Reason;
use std::alloc::{AllocError, Global};
use std::process::Abort;
use std::test::Fail;
use std::thread::Threads;

/// A source of single bytes whose call of this number fails.
fn read_with_a_fault<R: Threads + Abort>(
    rt: &R,
    alloc: Global,
    failing: u64,
    status: Status,
    written: &str,
) -> Result<(), AllocError> {
    let input = joined(alloc, &[HEAD, FIRST, "end\n"])?;
    let mut source = MemSource::new(alloc, &input, 1, &[failing])?;
    let mut sink = SureSink::new(alloc);
    let (answer, is_kept) = ask(rt, alloc, &["replay"], &mut source, &mut sink)?;
    assert_eq!(rt; answer, status, "at {failing}");
    assert!(rt; sink.contents() == written.as_bytes(), "at {failing}");
    assert_eq!(rt; is_kept, status == Status::Fine, "at {failing}");
    Ok(())
}

#[test]
fn a_fault_of_reading_leaves_nothing_written(rt: HostRuntime) -> Result<(), Fail> {
    for failing in 1..113u64 {
        read_with_a_fault(&rt, rt.alloc(), failing, Status::ReadFault, "")?;
    }
    read_with_a_fault(&rt, rt.alloc(), 113, Status::Fine, FIRST_TOLD)?;
    Ok(())
}

/// A sink of ten bytes a call whose call of this number fails.
fn write_with_a_fault<R: Threads + Abort>(
    rt: &R,
    alloc: Global,
    failing: u64,
    status: Status,
    count: usize,
) -> Result<(), AllocError> {
    let input = joined(alloc, &[HEAD, FIRST, "end\n"])?;
    let mut source = SureSource::new(alloc, &input)?;
    let mut sink = MemSink::new(alloc, 10, &[failing])?;
    let (answer, is_kept) = ask(rt, alloc, &["replay"], &mut source, &mut sink)?;
    assert_eq!(rt; answer, status, "at {failing}");
    let told = FIRST_TOLD.as_bytes();
    assert!(rt; told.starts_with(sink.contents()), "at {failing}");
    assert_eq!(rt; sink.contents().len(), count, "at {failing}");
    assert_eq!(rt; is_kept, status == Status::Fine, "at {failing}");
    Ok(())
}

#[test]
fn a_fault_of_writing_leaves_a_beginning(rt: HostRuntime) -> Result<(), Fail> {
    for failing in 1..7u64 {
        let count = 10 * (failing as usize - 1);
        write_with_a_fault(&rt, rt.alloc(), failing, Status::WriteFault, count)?;
    }
    write_with_a_fault(&rt, rt.alloc(), 7, Status::Fine, 57)?;
    Ok(())
}

#[test]
fn a_script_that_is_cut_off_is_refused(rt: HostRuntime) -> Result<(), Fail> {
    let alloc = rt.alloc();
    let input = joined(alloc, &[HEAD, FIRST, "end\n"])?;
    assert_eq!(rt; input.len(), 111);
    let mut line = 1u32;
    let mut is_whole = true;
    for (count, byte) in input.iter().enumerate() {
        let text = &input[..count];
        if is_whole {
            expect_refused(&rt, alloc, "replay", text, line, Reason::End, "end")?;
        } else {
            expect_refused(&rt, alloc, "replay", text, line, Reason::Form, "form")?;
        }
        is_whole = *byte == b'\n';
        line = line.saturating_add(u32::from(is_whole));
    }
    Ok(())
}
