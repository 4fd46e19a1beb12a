use crate::{ClosedDesk, Desk};
use frame::SendRefused;
use levels::{Partition, Party};
use machine::OutLine;
use ring_link::NoGate;
use seal_core::{ClearSeal, KeyPair};
use std::alloc::{AllocError, Global};
use std::test::Fail;
use std::thread::Threads;
use unit_core::TurnOut;

/// The keys of the first partition under clear sealing.
const KEYS: KeyPair = KeyPair {
    main: [0; 8],
    check: [1; 8],
};

/// The manager unit of another partition.
const ELSEWHERE: Party = Party::Manager(Partition(3));

/// The desk of a party of the first partition with this address, and one partner.
fn desk_of(alloc: Global, address: u8, partner: u8) -> Result<Desk<ClearSeal>, AllocError> {
    Desk::open(alloc, ClearSeal, KEYS, address, 0, &[partner])
}

fn send<R: Threads>(
    rt: &R,
    desk: &mut Desk<ClearSeal>,
    to: Party,
    out: &mut TurnOut,
) -> Result<(), Fail> {
    desk.send(rt, &NoGate, to, b"hi", out)?;
    Ok(())
}

fn end<R: Threads>(
    rt: &R,
    mut desk: Desk<ClearSeal>,
    out: &mut TurnOut,
) -> Result<ClosedDesk, Fail> {
    desk.flush(rt, &NoGate, out)?;
    Ok(desk.close())
}

fn is_sent(line: &OutLine, party: Party, number: u32) -> bool {
    match line {
        OutLine::Sent { to, message } => *to == party && *message == number,
        _ => false,
    }
}

fn is_refused(line: &OutLine, party: Party, reason: SendRefused) -> bool {
    match line {
        OutLine::Refused { to, why } => *to == party && *why == reason,
        _ => false,
    }
}

/// Whether a unit counted these turns, frames that it sealed, frames of its own and messages.
fn has_tally(desk: &ClosedDesk, turns: u64, sealed: u64, ours: u64, given: u64) -> bool {
    let tally = &desk.tally;
    tally.turns() == turns
        && tally.sealed() == sealed
        && tally.ours() == ours
        && tally.given() == given
}

#[test]
fn the_fifth_send_is_in_another_turn(rt: HostRuntime) -> Result<(), Fail> {
    let mut desk = desk_of(rt.alloc(), 1, 2)?;
    let mut out = TurnOut::open(rt.alloc())?;
    for _ in 0..4u8 {
        send(&rt, &mut desk, Party::Host(2), &mut out)?;
    }
    send(&rt, &mut desk, ELSEWHERE, &mut out)?;
    let sent = end(&rt, desk, &mut out)?;
    assert!(rt; has_tally(&sent, 2, 4, 0, 0));
    assert_eq!(rt; sent.lines.len(), 5);
    assert!(rt; is_sent(&sent.lines[3], Party::Host(2), 3));
    assert!(rt; is_refused(&sent.lines[4], ELSEWHERE, SendRefused::NoPartner));
    Ok(())
}
