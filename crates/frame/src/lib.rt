//! Messages, the pieces that they are cut into, the frames of pieces, and why a message isn't sent.
#![tactic(auto)]

mod laws;
mod piece;
mod sealed;

pub use laws::{each_piece_has_a_frame_of_its_own, pieces_carry_their_message};
pub use piece::{MESSAGE_LIMIT, PIECE_SIZE, Piece, cut, pieces, read_plain, write_plain};
pub use refused::SendRefused;
pub use sealed::{Opening, open_frame, seal_frame};

mod refused;
#[cfg(test)]
mod tests;
