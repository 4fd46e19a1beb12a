use frame::{PIECE_SIZE, Piece};

/// How many rows each sender has: its messages take them in turn.
pub const KEPT: usize = 4;

/// The row of a piece's message.
fn row_of(piece: &Piece) -> usize {
    KEPT * usize::from(piece.from()) + piece.message() as usize % KEPT
}

/// Copies a piece to its place in its message's row, and the row out if the piece is its message's
/// last.
fn copy_piece(rows: &mut [[u8; 5632]], piece: &Piece, out: &mut [u8; 5632]) {
    let Some(row) = rows.get_mut(row_of(piece)) else {
        return;
    };
    let start = PIECE_SIZE * usize::from(piece.piece());
    row[start..start + PIECE_SIZE].copy_from_slice(piece.payload());
    if piece.piece() == piece.last() {
        out.copy_from_slice(row);
    }
}

/// The copying of a window that takes all these pieces in order.
pub fn copy_pieces(rows: &mut [[u8; 5632]], heard: &[Piece], out: &mut [u8; 5632]) {
    for piece in heard {
        copy_piece(rows, piece, out);
    }
}

pub fn copy_bodies(bodies: &[[u8; 5632]], out: &mut [u8; 5632]) {
    for body in bodies {
        out.copy_from_slice(body);
    }
}
