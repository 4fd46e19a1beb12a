use super::units::{BETWEEN_LEVELS, DAY, OLD};
use super::{FIRST, HEAD, joined, words};
use crate::{Status, run};
use dss_io::{SureSink, SureSource};
use engine::Report;
use levels::{Partition, Party};
use ring_link::{Gate, NoGate, Side};
use std::alloc::{AllocError, Global};
use std::process::Abort;
use std::sync::atomic::{AtomicU64, Ordering};
use std::test::Fail;
use std::thread::Threads;

/// Counts the pushes of each side.
#[derive(Drop)]
pub struct Pushes {
    host: AtomicU64,
    net: AtomicU64,
}

impl Pushes {
    pub fn new() -> Pushes {
        Pushes {
            host: AtomicU64::new(0),
            net: AtomicU64::new(0),
        }
    }

    /// How often the hosts' sides pushed, and how often the networks' sides.
    pub fn counted(&self) -> (u64, u64) {
        let host = self.host.load(Ordering::SeqCst);
        (host, self.net.load(Ordering::SeqCst))
    }
}

impl Gate for Pushes {
    fn pushed(&self, side: Side) {
        let count = match side {
            Side::Host => &self.host,
            Side::Net => &self.net,
        };
        count.fetch_add(1, Ordering::SeqCst);
    }

    fn popped(&self, _side: Side) {}
}

/// Runs a script's last lines under a gate, and answers the report that is kept.
fn kept_of<R: Threads + Abort, G: Gate + Sync>(
    rt: &R,
    alloc: Global,
    word: &str,
    lines: [&str; 2],
    gate: &G,
) -> Result<Option<Report>, AllocError> {
    let [head, events] = lines;
    let input = joined(alloc, &[head, events, "end\n"])?;
    let mut source = SureSource::new(alloc, &input)?;
    let mut sink = SureSink::new(alloc);
    let words = words(alloc, &[word])?;
    let mut kept = None;
    let answer = run(rt, alloc, &words, &mut source, &mut sink, gate, &mut kept);
    assert_eq!(rt; answer, Status::Fine);
    Ok(kept)
}

#[test]
fn both_sides_of_units_push(rt: HostRuntime) -> Result<(), Fail> {
    let gate = Pushes::new();
    let _report = kept_of(&rt, rt.alloc(), "replay", [HEAD, FIRST], &gate)?;
    assert_eq!(rt; gate.counted(), (1, 1));
    Ok(())
}

/// What the unit of a party counted: turns, frames sealed, frames to it, messages given.
fn counts(report: &Report, party: Party) -> Option<[u64; 4]> {
    let _partition = report.script().roster().partition_of(party)?;
    let tally = report.tally(party);
    Some([tally.turns(), tally.sealed(), tally.ours(), tally.given()])
}

/// The roster and the store's lines, events, and what the units of hosts 1, 2, 5 and 6 and of the
/// first two levels' managers counted.
type Counted<'a> = ([&'a str; 2], [[u64; 4]; 6]);

fn expect_counts<R: Threads + Abort>(
    rt: &R,
    alloc: Global,
    word: &str,
    counted: Counted,
) -> Result<(), AllocError> {
    let (lines, [one, two, five, six, low, next]) = counted;
    let kept = kept_of(rt, alloc, word, lines, &NoGate)?;
    let report = kept.expect(rt, "a report is kept");
    for (party, wanted) in [
        (Party::Host(1), one),
        (Party::Host(2), two),
        (Party::Host(5), five),
        (Party::Host(6), six),
        (Party::Manager(Partition(0)), low),
        (Party::Manager(Partition(1)), next),
    ] {
        assert_eq!(rt; counts(&report, party), Some(wanted));
    }
    Ok(())
}

/// No turn, no frame and no message.
const NOTHING: [u64; 4] = [0; 4];

#[test]
fn units_count_what_they_do(rt: HostRuntime) -> Result<(), Fail> {
    let sent = [1, 1, 0, 0];
    let rows: [Counted; 4] = [
        (
            [HEAD, FIRST],
            [sent, [1, 0, 1, 1], NOTHING, NOTHING, NOTHING, NOTHING],
        ),
        (
            [
                HEAD,
                "send 1 2 6869\ndeliver 1>2#0.0 to 2\ndeliver 1>2#0.0 to 2\n\
                 deliver 1>2#0.0 to 2\n",
            ],
            [sent, [1, 0, 3, 1], NOTHING, NOTHING, NOTHING, NOTHING],
        ),
        (
            [
                HEAD,
                "send 5 6 99\ndeliver 5>6#0.0 to 2\ndeliver 5>6#0.0 to 5\n",
            ],
            [
                NOTHING,
                [1, 0, 0, 0],
                [2, 1, 0, 0],
                NOTHING,
                NOTHING,
                NOTHING,
            ],
        ),
        (
            [
                HEAD,
                "send 1 2 01\nsend 1 2 01\nsend 1 2 01\nsend 1 2 01\nsend 1 2 01\n",
            ],
            [[2, 5, 0, 0], NOTHING, NOTHING, NOTHING, NOTHING, NOTHING],
        ),
    ];
    for row in rows {
        expect_counts(&rt, rt.alloc(), "replay", row)?;
        expect_counts(&rt, rt.alloc(), "wire", row)?;
    }
    Ok(())
}

/// Two levels and four hosts, and a store that gives the first version of a file.
const OLD_HEAD: &str = "dss 1\nlevel U 0 -\nlevel S 2 a\nhost 1 U\nhost 2 U\nhost 5 S\nhost 6 S\n\
     store U of U 1\nbegin\n";

/// Three levels, the third between the two others, and six hosts.
const DAY_HEAD: &str = "dss 1\nlevel U 0 -\nlevel S 2 ab\nlevel C 1 a\n\
     host 1 U\nhost 2 U\nhost 3 C\nhost 4 C\nhost 5 S\nhost 6 S\nbegin\n";

#[test]
fn units_of_managers_count_too(rt: HostRuntime) -> Result<(), Fail> {
    let rows: [Counted; 3] = [
        (
            [HEAD, BETWEEN_LEVELS],
            [
                [4, 2, 2, 2],
                NOTHING,
                [2, 1, 1, 1],
                NOTHING,
                [4, 2, 2, 2],
                [2, 1, 1, 1],
            ],
        ),
        (
            [OLD_HEAD, OLD],
            [
                [4, 3, 1, 1],
                NOTHING,
                NOTHING,
                NOTHING,
                [6, 3, 3, 3],
                NOTHING,
            ],
        ),
        (
            [DAY_HEAD, DAY],
            [
                [2, 1, 1, 1],
                NOTHING,
                [1, 1, 0, 0],
                [2, 1, 1, 1],
                [2, 1, 1, 1],
                [4, 2, 2, 2],
            ],
        ),
    ];
    for row in rows {
        expect_counts(&rt, rt.alloc(), "replay", row)?;
    }
    Ok(())
}

#[test]
fn nothing_is_kept_of_an_earlier_call(rt: HostRuntime) -> Result<(), Fail> {
    let alloc = rt.alloc();
    let mut kept = kept_of(&rt, alloc, "replay", [HEAD, FIRST], &NoGate)?;
    assert!(rt; kept.is_some());
    let mut source = SureSource::new(alloc, b"".as_slice())?;
    let mut sink = SureSink::new(alloc);
    let words = words(alloc, &["other"])?;
    let answer = run(
        &rt,
        alloc,
        &words,
        &mut source,
        &mut sink,
        &NoGate,
        &mut kept,
    );
    assert_eq!(rt; answer, Status::Usage);
    assert!(rt; kept.is_none());
    Ok(())
}
