use super::{HEAD, expect_each, joined};
use crate::{Reason, read_script, write_script};
use std::test::Fail;

#[test]
fn reads_parties_that_are_levels(rt: HostRuntime) -> Result<(), Fail> {
    let head = joined(rt.alloc(), &[HEAD])?;
    let lines = "send 1 u 00\n\
         send U 1 00\n\
         send 1 ABCDEFGHI 00\n\
         deliver 1>#0.0 to U\n\
         deliver 9>U#0.64 to T\n\
         carry S>6#7 to 1 2";
    expect_each(&rt, rt.alloc(), &head, 9, lines, Reason::Form)?;
    let lines = "send 1 T 00\n\
         deliver U>T#0.0 to U\n\
         deliver 1>U#0.0 to T\n\
         carry T>6#7 to 6";
    expect_each(&rt, rt.alloc(), &head, 9, lines, Reason::Name)?;
    let lines = "send 1 U 00\n\
         send 1 S -\n\
         deliver 1>U#0.0 to U\n\
         deliver U>1#4294967295.63 to S\n\
         carry S>6#7 to 6";
    expect_each(&rt, rt.alloc(), &head, 9, lines, Reason::End)?;
    Ok(())
}

#[test]
fn reads_calls(rt: HostRuntime) -> Result<(), Fail> {
    let head = joined(rt.alloc(), &[HEAD])?;
    let lines = "put 0 note 61\n\
         put 1 Note 61\n\
         put 1 no/te 61\n\
         put 1 note\n\
         put 1 note 6\n\
         put 1 note 6A\n\
         put 1 n23456789012345678901234567890123 61\n\
         put U note 61\n\
         get 1 5 note\n\
         get 1 U NOTE\n\
         get 1 U\n\
         get 1 U note 1\n\
         list 1\n\
         list 1 U U\n\
         list 1 1\n\
         remove 1 Note\n\
         remove 1\n\
         remove 1 a b\n\
         append 1 note\n\
         append 1 n\u{e9} 00\n\
         block 5 U note 64\n\
         block 5 U note 00\n\
         block 5 U note";
    expect_each(&rt, rt.alloc(), &head, 9, lines, Reason::Form)?;
    let lines = "put 9 note 61\n\
         get 1 T note\n\
         get 9 U note\n\
         list 9 U\n\
         list 1 T\n\
         remove 9 note\n\
         append 9 note 00\n\
         block 5 T note 0\n\
         block 9 U note 0";
    expect_each(&rt, rt.alloc(), &head, 9, lines, Reason::Name)?;
    let lines = "put 1 note 6162\n\
         put 1 0-_.z -\n\
         put 1 n2345678901234567890123456789012 61\n\
         get 1 S note\n\
         get 5 U a.txt\n\
         list 1 U\n\
         list 5 U\n\
         remove 1 note\n\
         remove 1 -\n\
         append 1 note 00\n\
         append 1 note -\n\
         block 5 U note 63";
    expect_each(&rt, rt.alloc(), &head, 9, lines, Reason::End)?;
    Ok(())
}

/// Lines with a word of so many times two digits.
#[test]
fn reads_long_words(rt: HostRuntime) -> Result<(), Fail> {
    let alloc = rt.alloc();
    let head = joined(alloc, &[HEAD])?;
    for (first, digits, count, reason) in [
        ("put 1 note ", "61", 4096, Reason::End),
        ("put 1 note ", "61", 4097, Reason::Form),
        ("append 1 note ", "61", 4096, Reason::End),
        ("append 1 note ", "61", 4097, Reason::Form),
        ("forge 2 ", "a5", 128, Reason::End),
        ("forge S ", "00", 128, Reason::End),
        ("forge 9 ", "00", 128, Reason::Name),
        ("forge T ", "00", 128, Reason::Name),
        ("forge 2 ", "00", 127, Reason::Form),
        ("forge 2 ", "00", 129, Reason::Form),
        ("forge 2 ", "A5", 128, Reason::Form),
        ("forge 2 ", "-", 1, Reason::Form),
    ] {
        let mut line = String::from_str(alloc, first)?;
        for _ in 0..count {
            line.push_str(digits)?;
        }
        expect_each(&rt, alloc, &head, 9, line.as_str(), reason)?;
    }
    Ok(())
}

#[test]
fn reads_changed_frames(rt: HostRuntime) -> Result<(), Fail> {
    let head = joined(rt.alloc(), &[HEAD])?;
    let lines = "tamper 1>2#0.0 to 2 0^01 1^01 2^01 3^01 4^01 5^01 6^01 7^01 127^01\n\
         tamper 1>2#0.0 to 2\n\
         tamper 1>2#0.0 to 2 \n\
         tamper 1>2#0.0 to 2 32^00\n\
         tamper 1>2#0.0 to 2 128^01\n\
         tamper 1>2#0.0 to 2 40^01 32^01\n\
         tamper 1>2#0.0 to 2 32^01 32^02\n\
         tamper 1>2#0.0 to 2 032^01\n\
         tamper 1>2#0.0 to 2 32^1\n\
         tamper 1>2#0.0 to 2 32^0A\n\
         tamper 1>2#0.0 to 2 32^0101\n\
         tamper 1>2#0.0 to 2 32^\n\
         tamper 1>2#0.0 to 2 32\n\
         tamper 1>2#0.0 to 2 32^01^01\n\
         tamper 1>2#0.0 at 2 32^01\n\
         tamper 1>2#0.64 to 2 32^01";
    expect_each(&rt, rt.alloc(), &head, 9, lines, Reason::Form)?;
    let lines = "tamper 1>9#0.0 to 2 32^01\n\
         tamper 1>2#0.0 to T 32^01";
    expect_each(&rt, rt.alloc(), &head, 9, lines, Reason::Name)?;
    let lines = "tamper 1>2#0.0 to 2 32^01 40^01\n\
         tamper 1>U#0.63 to U 0^ff\n\
         tamper 1>2#0.0 to 2 0^01 1^01 2^01 3^01 4^01 5^01 6^01 127^01";
    expect_each(&rt, rt.alloc(), &head, 9, lines, Reason::End)?;
    Ok(())
}

#[test]
fn other_lines_stand_elsewhere(rt: HostRuntime) -> Result<(), Fail> {
    let head = joined(rt.alloc(), &[HEAD])?;
    let lines = "grow 1\n\
         PUT 1 note 61";
    expect_each(&rt, rt.alloc(), &head, 9, lines, Reason::Form)?;
    let lines = "store U true\n\
         key U 2020202020202020 3030303030303030\n\
         guard 2020202020202020 3030303030303030\n\
         seal des";
    expect_each(&rt, rt.alloc(), &head, 9, lines, Reason::Place)?;
    Ok(())
}

/// An event of each form, read and written again.
#[test]
fn writes_each_event_as_it_read_it(rt: HostRuntime) -> Result<(), Fail> {
    let alloc = rt.alloc();
    let lines = "send 1 U 6869\n\
         put 1 note 6162\n\
         get 5 U note\n\
         list 6 S\n\
         remove 2 a.txt\n\
         append 1 note -\n\
         block 5 U note 63\n\
         deliver U>1#4294967295.63 to S\n\
         carry S>6#7 to 6\n\
         tamper 1>2#0.0 to 2 0^01 40^ff 127^80\n";
    let text = joined(alloc, &[HEAD, lines, "end\n"])?;
    let script = read_script(alloc, &text)?;
    assert_eq!(rt; script.events().len(), 10);
    let again = write_script(alloc, &script)?;
    assert_eq!(rt; again.as_slice(), text.as_slice());
    Ok(())
}
