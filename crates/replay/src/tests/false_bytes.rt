use super::{FIRST, FIRST_LOST, FIRST_TOLD, HEAD, expect, expect_bytes, joined};
use crate::Status;
use std::alloc::{AllocError, Global};
use std::process::Abort;
use std::test::Fail;
use std::thread::Threads;

/// The first frame under clear sealing: of the message 6869 from host 1 to host 2.
const FRAME: &str = "4453010000000000010200000000000001020000000000000200000000000000\
     6869000000000000000000000000000000000000000000000000000000000000\
     0000000000000000000000000000000000000000000000000000000000000000\
     0000000000000000000000000000000000000000000000006b68010101010101";

/// The same as a frame of the other level, sealed anew.
pub const FOREIGN: &str = "4453010100000000010200000000000001020000000000000200000000000000\
     6869000000000000000000000000000000000000000000000000000000000000\
     0000000000000000000000000000000000000000000000000000000000000000\
     000000000000000000000000000000000000000000000000686b020202020202";

/// The first frame under DES.
const DES_FRAME: &str = "44530100000000000102000000000000948a43f98a834f7ee71a270a06ec53f0\
     4a207ece0bbc168868b1499815152a4c80d5a2f6ef311bd31bff563b1af54700\
     ab59ad147f656fb190317d00a8389d98c4664e6a68f4e1a2050cafd108ae38fc\
     74c22c5c54fe438044083c16c1b91ff8941c5a85b68ab5ace456b20426786e15";

/// Two levels and four hosts under DES.
const DES_HEAD: &str = "dss 1\nseal des\nlevel U 0 -\nlevel S 2 a\n\
     key U 133457799bbcdff1 0e329232ea6d0d73\nkey S 0123456789abcdef 1234567890abcdef\n\
     guard 2020202020202020 3030303030303030\n\
     host 1 U\nhost 2 U\nhost 5 S\nhost 6 S\nbegin\n";

#[test]
fn writes_each_frame(rt: HostRuntime) -> Result<(), Fail> {
    for (head, events, piece, frame, mark) in [
        (HEAD, FIRST, "1>2#0.0 ", FRAME, "\n"),
        (DES_HEAD, FIRST, "1>2#0.0 ", DES_FRAME, "\n"),
        (HEAD, "send 1 5 00\nsend 1 1 00\nsend 1 S 00\n", "", "", ""),
    ] {
        let input = joined(rt.alloc(), &[head, events, "end\n"])?;
        let told = joined(rt.alloc(), &[piece, frame, mark])?;
        expect_bytes(&rt, rt.alloc(), &["wire"], &input, Status::Fine, &told)?;
    }
    Ok(())
}

/// What `replay` answers to events in three parts.
fn expect_events<R: Threads + Abort>(
    rt: &R,
    alloc: Global,
    head: &str,
    events: [&str; 3],
    status: Status,
    told: &str,
) -> Result<(), AllocError> {
    let [first, second, third] = events;
    let input = joined(alloc, &[head, first, second, third, "end\n"])?;
    expect(rt, alloc, &["replay"], &input, status, told)
}

#[test]
fn sealing_makes_no_difference_to_what_is_told(rt: HostRuntime) -> Result<(), Fail> {
    for (events, told) in [
        (FIRST, FIRST_TOLD),
        ("send 1 2 6869\ntamper 1>2#0.0 to 2 40^80\n", FIRST_LOST),
    ] {
        expect_events(
            &rt,
            rt.alloc(),
            DES_HEAD,
            [events, "", ""],
            Status::Fine,
            told,
        )?;
    }
    Ok(())
}

#[test]
fn frames_that_were_never_sent(rt: HostRuntime) -> Result<(), Fail> {
    let sent = "send 1 2 6869\n";
    for (events, status, told) in [
        (
            [sent, "tamper 1>2#0.0 to 2 32^01 40^01\n", ""],
            Status::Opened(10),
            "opened 10\n",
        ),
        (
            [sent, "tamper 1>2#0.0 to 2 32^01\n", ""],
            Status::Fine,
            FIRST_LOST,
        ),
        (
            [sent, "tamper 1>2#0.0 to 2 8^01 16^01\n", ""],
            Status::Opened(10),
            "opened 10\n",
        ),
        (
            ["send 1 2 6869\nforge 2 ", FRAME, "\n"],
            Status::Fine,
            FIRST_TOLD,
        ),
        (
            ["forge 2 ", FRAME, "\nsend 1 2 6869\n"],
            Status::Opened(9),
            "opened 9\n",
        ),
        (
            ["send 1 2 6869\nforge 5 ", FRAME, "\n"],
            Status::Fine,
            FIRST_LOST,
        ),
        (["forge 5 ", FOREIGN, "\n"], Status::Opened(9), "opened 9\n"),
    ] {
        expect_events(&rt, rt.alloc(), HEAD, events, status, told)?;
    }
    Ok(())
}

#[test]
fn a_byte_of_a_frame_is_changed(rt: HostRuntime) -> Result<(), Fail> {
    for offset in 0..128u32 {
        let place = offset.to_string(rt.alloc())?;
        let events = [
            "send 1 2 6869\ntamper 1>2#0.0 to 2 ",
            place.as_str(),
            "^01\n",
        ];
        expect_events(&rt, rt.alloc(), HEAD, events, Status::Fine, FIRST_LOST)?;
    }
    Ok(())
}
