use frame::Piece;

/// What the bytes of a frame are to a unit.
#[derive(Clone, Copy, Debug, PartialEq, Eq)]
pub enum Inbound {
    /// They don't begin with the header of the unit's partition.
    Foreign,
    /// What stands behind the header doesn't open.
    Closed,
    /// What it opens to is no piece of the partition, or has another nonce.
    Malformed,
    /// The piece is to another address, or from no partner.
    NotMine,
    Ours(Piece),
}
