use frame::{MESSAGE_LIMIT, Piece, cut, pieces};
use std::alloc::{AllocError, Global};

/// Messages of so many partners: how many each of them sends, of how many the pieces come mixed,
/// and how often all of them are taken in a round.
#[derive(Clone, Copy)]
pub struct Load {
    pub partners: u8,
    pub messages: u32,
    pub mixed: u32,
    pub turns: u32,
}

/// The messages of a load, and the same bytes in pieces.
#[derive(Drop)]
pub struct Traffic {
    pub bodies: Vec<[u8; 5632]>,
    pub heard: Vec<Piece>,
}

/// Appends a piece of a message, if the message has so many.
fn push_piece(
    heard: &mut Vec<Piece>,
    from: u8,
    message: u32,
    body: &[u8],
    i: u8,
) -> Result<(), AllocError> {
    if body.len() > MESSAGE_LIMIT || i >= pieces(body.len()) {
        return Ok(());
    }
    heard.push(cut(from, 100, 0, message, body, i))?;
    Ok(())
}

/// The bytes of a message: all are the last of its number.
fn body_of(message: u32) -> [u8; 5632] {
    [(message % 256) as u8; 5632]
}

/// Appends the same piece of each partner's message with this number.
fn push_turn(heard: &mut Vec<Piece>, partners: u8, message: u32, i: u8) -> Result<(), AllocError> {
    let body = body_of(message);
    for from in 0..partners {
        push_piece(heard, from, message, &body, i)?;
    }
    Ok(())
}

impl Traffic {
    pub fn of(alloc: Global, load: Load) -> Result<Traffic, AllocError> {
        let mut traffic = Traffic {
            bodies: Vec::new(alloc),
            heard: Vec::new(alloc),
        };
        let mixed = load.mixed.max(1);
        for group in 0..load.messages / mixed {
            let first = group.saturating_mul(mixed);
            traffic.add(load.partners, first, first.saturating_add(mixed))?;
        }
        Ok(traffic)
    }

    /// Adds the messages from `first` to before `end` of each partner. Their pieces come mixed:
    /// those at the first place of all of them, then those at the next, to the last.
    fn add(&mut self, partners: u8, first: u32, end: u32) -> Result<(), AllocError> {
        for message in first..end {
            self.add_bodies(partners, message)?;
        }
        for i in 0..64u8 {
            self.add_places(partners, first, end, i)?;
        }
        Ok(())
    }

    fn add_bodies(&mut self, partners: u8, message: u32) -> Result<(), AllocError> {
        let body = body_of(message);
        for _ in 0..partners {
            self.bodies.push(body)?;
        }
        Ok(())
    }

    fn add_places(&mut self, partners: u8, first: u32, end: u32, i: u8) -> Result<(), AllocError> {
        for message in first..end {
            push_turn(&mut self.heard, partners, message, i)?;
        }
        Ok(())
    }
}
