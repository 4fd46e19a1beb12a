use super::{ROSTER, expect, expect_bytes, joined};
use crate::Status;
use std::test::Fail;

pub const OLD: &str = "put 1 note 61\ncarry 1>U#0 to U\nput 1 note 62\ncarry 1>U#1 to U\n\
     get 1 U note\ncarry 1>U#2 to U\ncarry U>1#2 to 1\n";

const ONE: &str = "put 1 note 61\ncarry 1>U#0 to U\n\
     get 1 U note\ncarry 1>U#1 to U\ncarry U>1#1 to 1\n";

const OTHER: &str = "put 1 note 61\ncarry 1>U#0 to U\nput 1 b 62\ncarry 1>U#1 to U\n\
     get 1 U b\ncarry 1>U#2 to U\ncarry U>1#2 to 1\n";

const DAMAGED: &str = "sent U 0\nsent U 1\nsent U 2\nfrom U 050000000000000002\n";

/// Rows of the store, events, and what host 1 is told; the other hosts are told nothing.
const STORED: [(&str, &str, &str); 6] = [
    ("store U of U 1\n", OLD, DAMAGED),
    (
        "store U of U 1\n",
        ONE,
        "sent U 0\nsent U 1\nfrom U 020000000000000001000161\n",
    ),
    (
        "store U gone\n",
        ONE,
        "sent U 0\nsent U 1\nfrom U 050000000000000001\n",
    ),
    ("store U flip 0 01\n", OLD, DAMAGED),
    ("store U of U 1\n", OTHER, DAMAGED),
    (
        "",
        "send 1 U ff\ncarry 1>U#0 to U\ncarry U>1#0 to 1\n",
        "sent U 0\nfrom U 09\n",
    ),
];

#[test]
fn a_host_is_told_what_the_store_gives(rt: HostRuntime) -> Result<(), Fail> {
    for (rows, events, told) in STORED {
        let input = joined(rt.alloc(), &[ROSTER, rows, "begin\n", events, "end\n"])?;
        let text = joined(
            rt.alloc(),
            &["host 1 U\n", told, "host 2 U\nhost 5 S\nhost 6 S\n"],
        )?;
        expect_bytes(&rt, rt.alloc(), &["replay"], &input, Status::Fine, &text)?;
    }
    Ok(())
}

pub const BETWEEN_LEVELS: &str = "put 1 note 6162\ncarry 1>U#0 to U\ncarry U>1#0 to 1\n\
     get 5 U note\ncarry 5>S#0 to S\ncarry S>5#0 to 5\n\
     get 1 S plan\ncarry 1>U#1 to U\ncarry U>1#1 to 1\n";

const BETWEEN_LEVELS_TOLD: &str = "host 1 U\nsent U 0\nfrom U 010000000000000001\n\
     sent U 1\nfrom U 03\nhost 2 U\n\
     host 5 S\nsent S 0\nfrom S 02000000000000000100026162\nhost 6 S\n";

const NAMES: &str = "put 1 note 00\ncarry 1>U#0 to U\nput 1 a.txt 00\ncarry 1>U#1 to U\n\
     list 1 U\ncarry 1>U#2 to U\ncarry U>1#2 to 1\n\
     remove 1 note\ncarry 1>U#3 to U\ncarry U>1#3 to 1\n\
     remove 1 note\ncarry 1>U#4 to U\ncarry U>1#4 to 1\n\
     list 1 S\ncarry 1>U#5 to U\ncarry U>1#5 to 1\n";

const NAMES_TOLD: &str = "host 1 U\nsent U 0\nsent U 1\n\
     sent U 2\nfrom U 080205612e747874046e6f7465\n\
     sent U 3\nfrom U 07\nsent U 4\nfrom U 04\nsent U 5\nfrom U 03\n\
     host 2 U\nhost 5 S\nhost 6 S\n";

const DAY_ROSTER: &str = "dss 1\nlevel U 0 -\nlevel C 1 a\nlevel S 2 ab\n\
     host 1 U\nhost 2 U\nhost 3 C\nhost 4 C\nhost 5 S\nhost 6 S\n";

pub const DAY: &str = "put 1 rota 6d6f6e\ncarry 1>U#0 to U\ncarry U>1#0 to 1\n\
     send 3 4 68656c6c6f\ncarry 3>4#0 to 4\ncarry 3>4#0 to 4\n\
     send 3 4 6c6f7374\nsend 3 4 627965\ncarry 3>4#2 to 4\n\
     put 5 plan 7631\ncarry 5>S#0 to S\nget 6 U rota\ncarry 6>S#0 to S\ncarry S>6#0 to 6\n\
     get 3 S plan\ncarry 3>C#0 to C\ncarry C>3#0 to 3\n";

const DAY_TOLD: &str = "host 1 U\nsent U 0\nfrom U 010000000000000001\nhost 2 U\n\
     host 3 C\nsent 4 0\nsent 4 1\nsent 4 2\nsent C 0\nfrom C 03\n\
     host 4 C\nfrom 3 68656c6c6f\nfrom 3 627965\n\
     host 5 S\nsent S 0\nhost 6 S\nsent S 0\nfrom S 02000000000000000100036d6f6e\n";

#[test]
fn files_are_read_at_a_level_or_below(rt: HostRuntime) -> Result<(), Fail> {
    for (roster, events, told) in [
        (ROSTER, BETWEEN_LEVELS, BETWEEN_LEVELS_TOLD),
        (ROSTER, NAMES, NAMES_TOLD),
        (DAY_ROSTER, DAY, DAY_TOLD),
    ] {
        let input = joined(rt.alloc(), &[roster, "begin\n", events, "end\n"])?;
        expect(&rt, rt.alloc(), &["replay"], &input, Status::Fine, told)?;
    }
    Ok(())
}
