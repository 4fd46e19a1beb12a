use crate::{Inbound, NetSide};
use frame::{Piece, cut, pieces};
use seal_core::{ClearSeal, KeyPair, Seal};
use std::test::Fail;

/// The keys of the first partition under clear sealing.
const KEYS: KeyPair = KeyPair {
    main: [0; 8],
    check: [1; 8],
};

/// The frame of one piece of two bytes, from host 1 to host 2 in the first partition.
fn short_frame() -> [u8; 128] {
    let mut frame = [0; 128];
    frame[..4].copy_from_slice(&[0x44, 0x53, 1, 0]);
    frame[8..10].copy_from_slice(&[1, 2]);
    frame[16..18].copy_from_slice(&[1, 2]);
    frame[24] = 2;
    frame[32..34].copy_from_slice(b"hi");
    frame[120..].copy_from_slice(&[0x6b, 0x68, 1, 1, 1, 1, 1, 1]);
    frame
}

fn short_piece() -> Result<Piece, Fail> {
    if pieces(2) != 1 {
        return Err("a short message has one piece")?;
    }
    Ok(cut(1, 2, 0, 0, b"hi", 0))
}

/// Opens through the bound.
fn opened<S: Seal>(net: &NetSide<S>, frame: &[u8; 128]) -> Inbound {
    net.inbound(frame)
}

#[test]
fn seals_what_the_other_opens(rt: HostRuntime) -> Result<(), Fail> {
    let sender = NetSide::open(ClearSeal, KEYS, 1, 0, &[0, 2]);
    let receiver = NetSide::open(ClearSeal, KEYS, 2, 0, &[0, 1]);
    let mut frame = [0xff; 128];
    sender.outbound(&short_piece()?, &mut frame);
    assert!(rt; frame == short_frame());
    assert!(rt; opened(&receiver, &frame) == Inbound::Ours(short_piece()?));
    assert!(rt; opened(&sender, &frame) == Inbound::NotMine);
    Ok(())
}

/// Each other thing that a frame can be. A frame is foreign by its header alone, whatever the rest
/// holds, at each of its eight bytes.
#[test]
fn frames_of_each_kind(rt: HostRuntime) {
    let net = NetSide::open(ClearSeal, KEYS, 2, 0, &[1]);
    let stranger = NetSide::open(ClearSeal, KEYS, 2, 0, &[3, 4]);
    assert!(rt; opened(&stranger, &short_frame()) == Inbound::NotMine);
    for at in 0..8 {
        let mut frame = short_frame();
        frame[at] ^= 1;
        assert!(rt; opened(&net, &frame) == Inbound::Foreign, "at {at}");
    }
    let mut frame = short_frame();
    frame[32] ^= 1;
    assert!(rt; opened(&net, &frame) == Inbound::Closed);
    frame[40] ^= 1;
    assert!(rt; opened(&net, &frame) == Inbound::Malformed);
}

fn is_shared<T: Send + Sync>(_value: &T) {}

#[test]
fn network_sides_may_go_to_other_threads() {
    is_shared(&NetSide::open(ClearSeal, KEYS, 2, 0, &[1]));
}
