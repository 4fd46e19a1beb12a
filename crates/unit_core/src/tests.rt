use crate::{FrameKind, GivenRow, SendAnswer, Sends, TurnOut, Unit};
use frame::{SendRefused, cut, pieces, seal_frame};
use ring_link::{Gate, NoGate, Side};
use seal_core::{ClearSeal, KeyPair};
use std::alloc::{AllocError, Global};
use std::sync::atomic::{AtomicU64, Ordering};
use std::test::Fail;
use std::thread::Threads;

/// The keys of the first partition under clear sealing.
const KEYS: KeyPair = KeyPair {
    main: [0; 8],
    check: [1; 8],
};

/// How often a side looks for the other before it goes on alone.
const SPINS: u32 = 100_000_000;

/// The unit of the first partition with this address, and one partner.
fn unit_of(alloc: Global, address: u8, partner: u8) -> Result<Unit<ClearSeal>, AllocError> {
    Unit::open(alloc, ClearSeal, KEYS, address, 0, &[partner])
}

/// Makes a turn, if the unit takes so many sends and frames.
fn turn<R: Threads, G: Gate + Sync>(
    rt: &R,
    gate: &G,
    unit: &mut Unit<ClearSeal>,
    sends: &Sends,
    frames: &[[u8; 128]],
    out: &mut TurnOut,
) -> bool {
    if sends.len() > 4 || frames.len() > 256 {
        return false;
    }
    unit.turn(rt, gate, sends, frames, out);
    true
}

/// The frame of one piece of a short message from host 1 to host 2.
fn frame_with(message: u32, body: &[u8; 2]) -> [u8; 128] {
    let mut frame = [0; 128];
    if pieces(2) == 1 {
        seal_frame(
            &ClearSeal,
            &KEYS,
            &cut(1, 2, 0, message, body, 0),
            &mut frame,
        );
    }
    frame
}

/// Whether a turn gave just this message, in this frame.
fn gave(out: &TurnOut, frame: u16, message: u32, body: &[u8]) -> bool {
    let row = GivenRow {
        frame,
        from: 1,
        message,
        start: 0,
        length: 2,
    };
    out.given() == [row].as_slice() && out.bodies() == body
}

/// Holds each side's first push until the other side's first push.
#[derive(Drop)]
struct Meeting {
    host: AtomicU64,
    net: AtomicU64,
    met: AtomicU64,
}

impl Gate for Meeting {
    fn pushed(&self, side: Side) {
        let (own, other) = match side {
            Side::Host => (&self.host, &self.net),
            Side::Net => (&self.net, &self.host),
        };
        if own.swap(1, Ordering::SeqCst) == 1 {
            return;
        }
        for _ in 0..SPINS {
            if other.load(Ordering::SeqCst) == 1 {
                self.met.fetch_add(1, Ordering::SeqCst);
                return;
            }
        }
    }

    fn popped(&self, _side: Side) {}
}

#[test]
fn both_sides_work_at_once(rt: HostRuntime) -> Result<(), Fail> {
    let mut unit = unit_of(rt.alloc(), 2, 1)?;
    let mut out = TurnOut::open(rt.alloc())?;
    let gate = Meeting {
        host: AtomicU64::new(0),
        net: AtomicU64::new(0),
        met: AtomicU64::new(0),
    };
    let mut sends = Sends::new(rt.alloc());
    sends.add(1, b"yo")?;
    let frames = [frame_with(0, b"hi")];
    assert!(rt; turn(&rt, &gate, &mut unit, &sends, &frames, &mut out));
    assert_eq!(rt; gate.met.load(Ordering::SeqCst), 2);
    assert!(rt; out.answers() == [SendAnswer::Sent(0)].as_slice());
    assert!(rt; gave(&out, 0, 0, b"hi"));
    Ok(())
}

/// The frame with one bit of a byte changed.
fn changed(frame: &[u8; 128], at: usize) -> [u8; 128] {
    let mut other = *frame;
    if at < 128 {
        other[at] ^= 1;
    }
    other
}

/// What host 1's unit seals.
#[test]
fn a_message_is_sealed(rt: HostRuntime) -> Result<(), Fail> {
    let mut unit = unit_of(rt.alloc(), 1, 2)?;
    let mut out = TurnOut::open(rt.alloc())?;
    let mut sends = Sends::new(rt.alloc());
    sends.add(2, b"hi")?;
    assert!(rt; turn(&rt, &NoGate, &mut unit, &sends, &[], &mut out));
    assert!(rt; out.sealed() == [frame_with(0, b"hi")].as_slice());
    sends.clear();
    assert_eq!(rt; sends.len(), 0);
    let tally = unit.close();
    assert_eq!(rt; (tally.turns(), tally.sealed()), (1, 1));
    assert_eq!(rt; (tally.ours(), tally.given()), (0, 0));
    Ok(())
}

/// Three frames of one turn, of which the second is closed.
#[test]
fn frames_are_given(rt: HostRuntime) -> Result<(), Fail> {
    let mut unit = unit_of(rt.alloc(), 2, 1)?;
    let mut out = TurnOut::open(rt.alloc())?;
    let sends = Sends::new(rt.alloc());
    let first = frame_with(0, b"hi");
    let frames = [first, changed(&first, 32), frame_with(1, b"yo")];
    assert!(rt; turn(&rt, &NoGate, &mut unit, &sends, &[first], &mut out));
    assert!(rt; gave(&out, 0, 0, b"hi"));
    assert!(rt; turn(&rt, &NoGate, &mut unit, &sends, &frames, &mut out));
    let kinds = [FrameKind::Ours, FrameKind::Closed, FrameKind::Ours];
    assert!(rt; out.kinds() == kinds.as_slice());
    assert!(rt; gave(&out, 2, 1, b"yo"));
    let tally = unit.close();
    assert_eq!(rt; (tally.turns(), tally.sealed()), (2, 0));
    assert_eq!(rt; (tally.ours(), tally.given()), (3, 2));
    Ok(())
}

/// Four sends of one turn, of which two are refused.
#[test]
fn sends_are_answered_in_order(rt: HostRuntime) -> Result<(), Fail> {
    let mut unit = unit_of(rt.alloc(), 1, 2)?;
    let mut out = TurnOut::open(rt.alloc())?;
    let mut sends = Sends::new(rt.alloc());
    let long = [7u8; 5633];
    sends.add(2, &long[..5632])?;
    sends.add(255, &[])?;
    sends.add(2, &long)?;
    sends.add(2, b"hi")?;
    assert!(rt; turn(&rt, &NoGate, &mut unit, &sends, &[], &mut out));
    let answers = [
        SendAnswer::Sent(0),
        SendAnswer::Refused(SendRefused::NoPartner),
        SendAnswer::Refused(SendRefused::TooLong),
        SendAnswer::Sent(1),
    ];
    assert!(rt; out.answers() == answers.as_slice());
    assert_eq!(rt; out.sealed().len(), 65);
    assert!(rt; out.sealed()[64] == frame_with(1, b"hi"));
    Ok(())
}

/// Each other way in which a frame isn't the unit's.
#[test]
fn frames_of_each_kind(rt: HostRuntime) -> Result<(), Fail> {
    let mut unit = unit_of(rt.alloc(), 2, 3)?;
    let mut out = TurnOut::open(rt.alloc())?;
    let sends = Sends::new(rt.alloc());
    let frame = frame_with(0, b"hi");
    let shut = changed(&frame, 32);
    let frames = [changed(&frame, 3), shut, changed(&shut, 40), frame];
    assert!(rt; turn(&rt, &NoGate, &mut unit, &sends, &frames, &mut out));
    let kinds = [
        FrameKind::Foreign,
        FrameKind::Closed,
        FrameKind::Malformed,
        FrameKind::NotMine,
    ];
    assert!(rt; out.kinds() == kinds.as_slice());
    assert!(rt; out.given().is_empty() && out.bodies().is_empty());
    Ok(())
}

fn is_sent<T: Send>(_value: &T) {}

fn is_shared<T: Send + Sync>(_value: &T) {}

#[test]
fn units_may_go_to_other_threads(rt: HostRuntime) -> Result<(), Fail> {
    is_sent(&unit_of(rt.alloc(), 1, 2)?);
    is_shared(&TurnOut::open(rt.alloc())?);
    is_shared(&Sends::new(rt.alloc()));
    Ok(())
}
