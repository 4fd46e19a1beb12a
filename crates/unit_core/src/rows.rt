use frame::SendRefused;

/// What a send is answered: the message's number, or why it isn't sent.
#[derive(Clone, Copy, Debug, PartialEq, Eq)]
pub enum SendAnswer {
    Sent(u32),
    Refused(SendRefused),
}

/// What a frame is to the unit that it was handed to.
#[derive(Clone, Copy, Debug, PartialEq, Eq)]
pub enum FrameKind {
    /// It doesn't begin with the header of the unit's partition.
    Foreign,
    /// What stands behind the header doesn't open.
    Closed,
    /// What it opens to is no piece of the partition, or has another nonce.
    Malformed,
    /// Its piece is to another address, or from no partner.
    NotMine,
    Ours,
}

/// A message that was given.
#[derive(Clone, Copy, Debug, PartialEq, Eq)]
pub struct GivenRow {
    /// The index of the frame that completed it.
    pub frame: u16,
    pub from: u8,
    /// Its number in the stream.
    pub message: u32,
    /// Where its bytes begin among the bodies of the turn.
    pub start: u32,
    pub length: u16,
}
