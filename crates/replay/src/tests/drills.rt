use super::{FIRST, HEAD, expect, joined};
use crate::Status;
use std::test::Fail;

const ONE_STEP: &str = "drill 7 1\nevents 3\nframes 2\n\
     host 1 U sent 0 given 0 bytes 0\nhost 2 U sent 0 given 0 bytes 0\n\
     host 3 C sent 0 given 0 bytes 0\nhost 4 C sent 0 given 0 bytes 0\n\
     host 5 S sent 1 given 1 bytes 1\nhost 6 S sent 0 given 0 bytes 0\n";

const NO_STEP: &str = "drill 7 0\nevents 0\nframes 0\n\
     host 1 U sent 0 given 0 bytes 0\nhost 2 U sent 0 given 0 bytes 0\n\
     host 3 C sent 0 given 0 bytes 0\nhost 4 C sent 0 given 0 bytes 0\n\
     host 5 S sent 0 given 0 bytes 0\nhost 6 S sent 0 given 0 bytes 0\n";

#[test]
fn drills_are_summed_up(rt: HostRuntime) -> Result<(), Fail> {
    for (count, told) in [("1", ONE_STEP), ("0", NO_STEP)] {
        let asked = ["drill", "7", count];
        expect(&rt, rt.alloc(), &asked, b"".as_slice(), Status::Fine, told)?;
    }
    Ok(())
}

#[test]
fn words_have_forms_of_their_own(rt: HostRuntime) -> Result<(), Fail> {
    let input = joined(rt.alloc(), &[HEAD, FIRST, "end\n"])?;
    let other: [&[&str]; 9] = [
        &["drill", "7", "20001"],
        &["drill", "2147483648", "1"],
        &["drill", "07", "1"],
        &["drill", "+7", "1"],
        &["drill", "7"],
        &["twin"],
        &["twin", "u"],
        &["twin", "TOOLONGNAME"],
        &["twin", "U", "U"],
    ];
    for asked in other {
        expect(&rt, rt.alloc(), asked, &input, Status::Usage, "")?;
    }
    Ok(())
}
