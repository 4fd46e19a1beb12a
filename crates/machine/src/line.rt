use events::{Body, Stream};
use frame::SendRefused;
use levels::Party;

/// A line that a party is told.
#[derive(Debug, Drop)]
pub enum OutLine {
    /// A send was accepted, as the message of this number in its stream.
    Sent { to: Party, message: u32 },
    /// A send was refused.
    Refused { to: Party, why: SendRefused },
    /// A message was given.
    From { from: Party, body: Body },
}

/// A frame, and the piece that is sealed in it.
#[derive(Debug, Drop)]
pub struct FrameRow {
    pub stream: Stream,
    pub message: u32,
    pub piece: u8,
    pub bytes: [u8; 128],
}
