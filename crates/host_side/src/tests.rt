use crate::host::{Given, HostSide};
use frame::{MESSAGE_LIMIT, Piece, SendRefused, cut, pieces};
use std::test::Fail;

/// A piece of the first message from one address to another.
fn piece(from: u8, to: u8, partition: u8, body: &[u8], i: u8) -> Option<Piece> {
    if body.len() > MESSAGE_LIMIT || i >= pieces(body.len()) {
        return None;
    }
    Some(cut(from, to, partition, 0, body, i))
}

/// What a host's side is given by a piece, if it takes it.
fn hear(host: &mut HostSide, piece: &Piece, out: &mut [u8; 5632]) -> Option<Given> {
    if host.takes(piece) {
        host.receive(piece, out)
    } else {
        None
    }
}

fn begins_with(out: &[u8; 5632], body: &[u8]) -> bool {
    body.len() <= out.len() && &out[..body.len()] == body
}

fn is_taken(host: &HostSide, piece: &Option<Piece>) -> bool {
    match piece {
        None => false,
        Some(piece) => host.takes(piece),
    }
}

#[test]
fn sends_are_refused_in_order(rt: HostRuntime) -> Result<(), Fail> {
    let mut host = HostSide::open_at(rt.alloc(), 1, 0, &[2], 4_294_967_294)?;
    let long = [0u8; 5633];
    assert!(rt; host.send(3, &long) == Err(SendRefused::NoPartner));
    assert!(rt; host.send(2, &long) == Err(SendRefused::TooLong));
    assert!(rt; host.send(2, &[]) == Ok(4_294_967_294));
    assert!(rt; host.send(2, &long) == Err(SendRefused::TooLong));
    assert!(rt; host.send(2, &long[..5632]) == Err(SendRefused::Spent));
    Ok(())
}

#[test]
fn messages_are_numbered_and_given(rt: HostRuntime) -> Result<(), Fail> {
    let mut sender = HostSide::open(rt.alloc(), 1, 0, &[0, 2])?;
    let mut receiver = HostSide::open(rt.alloc(), 2, 0, &[0, 1])?;
    let body = [0xaa; 89];
    assert!(rt; sender.send(2, &body) == Ok(0));
    assert!(rt; sender.send(2, &body[..5]) == Ok(1));
    assert!(rt; sender.send(0, &body) == Ok(0));
    let mut out = [7u8; 5632];
    let whole = Given {
        from: 1,
        message: 0,
        length: 89,
    };
    for (place, want) in &[(1u8, None), (0, Some(whole)), (1, None)] {
        let heard = piece(1, 2, 0, &body, *place);
        assert!(rt; is_taken(&receiver, &heard));
        if let Some(heard) = &heard {
            assert!(rt; hear(&mut receiver, heard, &mut out) == *want, "at {place}");
        }
    }
    assert!(rt; begins_with(&out, &body));
    assert!(rt; out[89] == 7);
    assert!(rt; !is_taken(&receiver, &piece(1, 2, 1, &body, 0)));
    assert!(rt; !is_taken(&receiver, &piece(1, 1, 0, &body, 0)));
    assert!(rt; !is_taken(&receiver, &piece(3, 2, 0, &body, 0)));
    Ok(())
}

fn is_shared<T: Send + Sync>(_value: &T) {}

#[test]
fn host_sides_may_go_to_other_threads(rt: HostRuntime) -> Result<(), Fail> {
    let host = HostSide::open(rt.alloc(), 1, 0, &[2])?;
    is_shared(&host);
    Ok(())
}
