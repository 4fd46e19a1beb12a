use crate::{
    MESSAGE_LIMIT, Opening, PIECE_SIZE, Piece, cut, open_frame, pieces, read_plain, seal_frame,
    write_plain,
};
use seal_core::{ClearSeal, KeyPair, Seal};
use std::process::Abort;
use std::test::Fail;

#[test]
fn limits(rt: HostRuntime) {
    assert_eq!(rt; PIECE_SIZE, 88);
    assert_eq!(rt; MESSAGE_LIMIT, 5632);
}

#[test]
fn counts_pieces(rt: HostRuntime) {
    for (len, count) in [
        (0, 1),
        (1, 1),
        (88, 1),
        (89, 2),
        (176, 2),
        (177, 3),
        (5544, 63),
        (5545, 64),
        (5632, 64),
    ] {
        assert_eq!(rt; pieces(len), count, "at {len} bytes");
    }
}

/// The place of a piece, and what it carries: some bytes that are alike, and zeros.
fn expect_piece(rt: &impl Abort, piece: &Piece, place: (u8, u8), used: u8, byte: u8) {
    assert_eq!(rt; (piece.piece(), piece.last()), place);
    assert_eq!(rt; piece.used(), used, "of piece {}", piece.piece());
    for (i, carried) in piece.payload().iter().enumerate() {
        let expected = if i < used as usize { byte } else { 0 };
        assert_eq!(rt;
            *carried,
            expected,
            "at byte {i} of piece {}",
            piece.piece()
        );
    }
}

#[test]
fn cuts_a_short_message(rt: HostRuntime) {
    assert_eq!(rt; pieces(2), 1);
    let piece = cut(1, 2, 0, 0, b"hi", 0);
    assert_eq!(rt; (piece.from(), piece.to()), (1, 2));
    assert_eq!(rt; (piece.message(), piece.partition()), (0, 0));
    assert_eq!(rt; (piece.piece(), piece.last()), (0, 0));
    assert_eq!(rt; piece.used(), 2);
    assert!(rt; piece.payload().starts_with(b"hi".as_slice()));
    assert!(rt; piece.payload()[2..].iter().all(|byte| *byte == 0));
}

#[test]
fn cuts_to_and_from_a_manager(rt: HostRuntime) {
    assert_eq!(rt; pieces(1), 1);
    let call = cut(250, 0, 15, 4_294_967_295, b"\xff", 0);
    assert_eq!(rt; (call.from(), call.to()), (250, 0));
    assert_eq!(rt; (call.message(), call.partition()), (4_294_967_295, 15));
    let reply = cut(0, 250, 15, 7, b"\x09", 0);
    assert_eq!(rt; (reply.from(), reply.to()), (0, 250));
    assert_eq!(rt; (reply.message(), reply.partition()), (7, 15));
}

#[test]
fn cuts_at_each_length(rt: HostRuntime) -> Result<(), Fail> {
    for (len, i, last, used) in [
        (0usize, 0, 0, 0),
        (1, 0, 0, 1),
        (88, 0, 0, 88),
        (89, 0, 1, 88),
        (89, 1, 1, 1),
        (176, 1, 1, 88),
        (177, 1, 2, 88),
        (177, 2, 2, 1),
        (5545, 63, 63, 1),
        (5632, 0, 63, 88),
        (5632, 63, 63, 88),
    ] {
        let body = vec![in rt.alloc(); 0xaa; len]?;
        assert!(rt; body.len() <= MESSAGE_LIMIT);
        assert!(rt; i < pieces(body.len()));
        expect_piece(&rt, &cut(1, 2, 0, 0, &body, i), (i, last), used, 0xaa);
    }
    Ok(())
}

/// The pieces of a message carry its bytes in order.
#[test]
fn pieces_are_parts_in_order(rt: HostRuntime) -> Result<(), Fail> {
    let mut body = vec![in rt.alloc(); 1; 88]?;
    body.extend_from_slice([2; 88].as_slice())?;
    body.extend_from_slice([3; 4].as_slice())?;
    assert_eq!(rt; body.len(), 180);
    for (i, used) in [(0, 88), (1, 88), (2, 4)] {
        assert!(rt; i < pieces(180));
        expect_piece(&rt, &cut(5, 6, 1, 9, &body, i), (i, 2), used, i + 1);
    }
    Ok(())
}

/// The keys of the first partition under clear sealing.
const KEYS: KeyPair = KeyPair {
    main: [0; 8],
    check: [1; 8],
};

/// The frame of one piece of two bytes, from host 1 to host 2 in the first partition.
fn short_frame() -> [u8; 128] {
    let mut frame = [0; 128];
    frame[..4].copy_from_slice(&[0x44, 0x53, 1, 0]);
    frame[8..10].copy_from_slice(&[1, 2]);
    frame[16..18].copy_from_slice(&[1, 2]);
    frame[24] = 2;
    frame[32..34].copy_from_slice(b"hi");
    frame[120..].copy_from_slice(&[0x6b, 0x68, 1, 1, 1, 1, 1, 1]);
    frame
}

/// Seals through the bound.
fn sealed<S: Seal>(seal: &S, piece: &Piece) -> [u8; 128] {
    let mut frame = [0xff; 128];
    seal_frame(seal, &KEYS, piece, &mut frame);
    frame
}

/// Opens through the bound.
fn opened<S: Seal>(seal: &S, partition: u8, frame: &[u8; 128]) -> Opening {
    open_frame(seal, &KEYS, partition, frame)
}

#[test]
fn plain_texts_both_ways(rt: HostRuntime) {
    assert_eq!(rt; pieces(89), 2);
    let mut plain = [0xff; 104];
    let piece = cut(250, 0, 15, 0x0102_0304, &[7; 89], 1);
    write_plain(&piece, &mut plain);
    assert!(rt; plain[..17] == [250, 0, 1, 2, 3, 4, 1, 1, 1, 15, 0, 0, 0, 0, 0, 0, 7][..]);
    assert!(rt; plain[17..].iter().all(|byte| *byte == 0));
    assert!(rt; read_plain(&plain) == Some(piece));
    for at in [6, 7, 8, 10, 15, 17, 103] {
        let mut other = plain;
        other[at] = 255;
        assert!(rt; read_plain(&other) == None, "at byte {at}");
    }
}

#[test]
fn frames_both_ways(rt: HostRuntime) {
    assert_eq!(rt; pieces(2), 1);
    let piece = cut(1, 2, 0, 0, b"hi", 0);
    assert!(rt; sealed(&ClearSeal, &piece) == short_frame());
    assert!(rt; opened(&ClearSeal, 0, &short_frame()) == Opening::Opened(piece));
}

/// Each way in which a frame holds no piece. The same change in two blocks goes unseen by the
/// clear sealing.
#[test]
fn frames_without_a_piece(rt: HostRuntime) {
    assert_eq!(rt; pieces(2), 1);
    assert!(rt; opened(&ClearSeal, 1, &short_frame()) == Opening::Foreign);
    let rows: [(&[usize], Opening); 5] = [
        (&[0], Opening::Foreign),
        (&[32], Opening::Closed),
        (&[32, 40], Opening::Malformed),
        (&[8, 120], Opening::Malformed),
        (&[8, 16], Opening::Opened(cut(0, 2, 0, 0, b"hi", 0))),
    ];
    for (edits, expected) in rows {
        let mut frame = short_frame();
        for at in edits {
            frame[*at] ^= 1;
        }
        assert!(rt; opened(&ClearSeal, 0, &frame) == expected, "at {edits:?}");
    }
}

fn is_shared<T: Send + Sync>(_value: &T) {}

#[test]
fn pieces_may_go_to_other_threads(rt: HostRuntime) {
    assert_eq!(rt; pieces(2), 1);
    is_shared(&cut(1, 2, 0, 0, b"hi", 0));
}
