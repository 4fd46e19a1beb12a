use super::{HEAD, expect_refused, joined};
use crate::search::before;
use crate::{Reason, TEXT_LIMIT, read_script, write_script};
use std::alloc::{AllocError, Global};
use std::test::Fail;

/// In texts of up to 99 bytes, a mark at each place with other marks behind it.
#[test]
fn finds_a_mark_at_each_place(rt: HostRuntime) -> Result<(), Fail> {
    for length in 0..100 {
        let mut text = vec![in rt.alloc(); b'a'; length]?;
        assert_eq!(rt; before(&text, b'b'), length);
        for behind in 0..length {
            let place = length - 1 - behind;
            text[place] = b'b';
            assert_eq!(rt; before(&text, b'b'), place);
        }
    }
    Ok(())
}

/// A text as long as it may be: a beginning, and then one byte all along.
fn longest(alloc: Global, head: &str, byte: u8) -> Result<Vec<u8>, AllocError> {
    let filling = vec![in alloc; byte; TEXT_LIMIT.saturating_sub(head.len())]?;
    let mut text = joined(alloc, &[head])?;
    text.extend_from_slice(&filling)?;
    Ok(text)
}

/// Lines without a mark and with marks only, alone or as the second line.
#[test]
fn refuses_the_longest_lines(rt: HostRuntime) -> Result<(), Fail> {
    for (head, byte, line) in [
        ("", b'a', 1),
        ("", b'\n', 1),
        ("dss 1\n", b'a', 2),
        ("dss 1\n", b' ', 2),
    ] {
        let text = longest(rt.alloc(), head, byte)?;
        expect_refused(&rt, rt.alloc(), &text, line, Reason::Form)?;
    }
    Ok(())
}

/// A message of 524,288 bytes, and the same with another last digit.
#[test]
fn reads_a_long_message(rt: HostRuntime) -> Result<(), Fail> {
    let alloc = rt.alloc();
    let mut text = joined(alloc, &[HEAD, "send 1 2 "])?;
    let digits = vec![in alloc; b'f'; 1_048_576]?;
    text.extend_from_slice(&digits)?;
    let end = text.len();
    text.extend_from_slice(b"\nend\n".as_slice())?;
    let script = read_script(alloc, &text)?;
    let again = write_script(alloc, &script)?;
    assert_eq!(rt; again.as_slice(), text.as_slice());
    text[end - 1] = b'F';
    expect_refused(&rt, alloc, &text, 9, Reason::Form)?;
    Ok(())
}
