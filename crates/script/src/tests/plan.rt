use super::{expect_each, expect_refused, joined};
use crate::Reason;
use std::alloc::{AllocError, Global};
use std::test::Fail;

const LEVELS: &str = "dss 1\nlevel U 0 -\nlevel S 2 a\n";

#[test]
fn reads_rows_of_the_plan(rt: HostRuntime) -> Result<(), Fail> {
    let head = joined(rt.alloc(), &[LEVELS])?;
    let lines = "store S of U 0\n\
         store S of U 72057594037927936\n\
         store S of U 01\n\
         store S of u 1\n\
         store S of U\n\
         store S of U 1 1\n\
         store S flip 4294967296 01\n\
         store S flip 0 00\n\
         store S flip 0 1\n\
         store S flip 0 0A\n\
         store S flip 0 001\n\
         store S flip 0 -\n\
         store S flip 0\n\
         store S\n\
         store S true true\n\
         store S gone 1\n\
         store S honest\n\
         store s true\n\
         store S \n\
         store T of U 0";
    expect_each(&rt, rt.alloc(), &head, 4, lines, Reason::Form)?;
    let lines = "store T true\n\
         store S of T 1\n\
         store T of T 1";
    expect_each(&rt, rt.alloc(), &head, 4, lines, Reason::Name)?;
    let lines = "store U true\n\
         store S of U 1\n\
         store S of S 72057594037927935\n\
         store S flip 4294967295 ff\n\
         store S gone";
    expect_each(&rt, rt.alloc(), &head, 4, lines, Reason::End)?;
    let head = joined(rt.alloc(), &[LEVELS, "host 1 U\nstore U true\n"])?;
    let lines = "host 2 U\n\
         level T 1 -\n\
         end";
    expect_each(&rt, rt.alloc(), &head, 6, lines, Reason::Place)?;
    expect_each(&rt, rt.alloc(), &head, 6, "store T gone", Reason::Name)?;
    let lines = "store S gone\n\
         begin";
    expect_each(&rt, rt.alloc(), &head, 6, lines, Reason::End)?;
    Ok(())
}

/// A script up to the most rows that a plan has.
fn full_plan(alloc: Global) -> Result<Vec<u8>, AllocError> {
    let mut text = joined(alloc, &[LEVELS])?;
    for _ in 0..100_000u32 {
        text.extend_from_slice(b"store S gone\n".as_slice())?;
    }
    Ok(text)
}

#[test]
fn refuses_one_row_too_many(rt: HostRuntime) -> Result<(), Fail> {
    let mut text = full_plan(rt.alloc())?;
    text.extend_from_slice(b"store S gone\n".as_slice())?;
    expect_refused(&rt, rt.alloc(), &text, 100_004, Reason::Many)?;
    Ok(())
}

#[test]
fn takes_a_full_plan(rt: HostRuntime) -> Result<(), Fail> {
    let text = full_plan(rt.alloc())?;
    expect_each(&rt, rt.alloc(), &text, 100_004, "begin", Reason::End)?;
    let last = "store T gone";
    expect_each(&rt, rt.alloc(), &text, 100_004, last, Reason::Name)?;
    Ok(())
}
