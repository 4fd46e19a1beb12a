ghost use Rattle.std.specs.Prelude.{◌≡◌, ◌↔◌, IsTrue, length, drop};
ghost use Rattle.frame.specs.Pieces.{PieceView};
ghost use Rattle.frame.specs.Frames.{header, nonce_of, frame_of, IsFrame, HasHeader, Opens};
ghost use Rattle.frame.specs.inside.Openings.{PartHolds};

use crate::piece::{Piece, read_plain, write_plain};
use seal_core::{KeyPair, Nonce, Seal, is_same_block};

/// How many bytes of a frame stand before its sealed part.
const HEADER: usize = 8;

/// What a frame holds, for the unit of a partition.
#[derive(Clone, Copy, Debug, PartialEq, Eq)]
pub enum Opening {
    /// It doesn't begin with the partition's header.
    Foreign,
    /// What stands behind the header doesn't open.
    Closed,
    /// What it opens to is no piece of the partition, or has another nonce.
    Malformed,
    Opened(Piece),
}

fn header(partition: u8) -> [u8; 8]
    ensures { result ≡ header partition }
{
    [0x44, 0x53, 1, partition, 0, 0, 0, 0]
}

fn nonce_of(plain: &[u8; 104]) -> Nonce
    ensures { result ≡ nonce_of plain.now }
{
    let mut nonce = [0; 8];
    nonce[..7].copy_from_slice(&plain[..7]);
    nonce
}

/// Writes the frame of a piece, sealed under its partition's keys.
pub fn seal_frame<S: Seal>(seal: &S, keys: &KeyPair, piece: &Piece, out: &mut [u8; 128])
    ensures { out.new ≡ frame_of S.sealed_text keys.now piece.now }
{
    let mut plain = [0; 104];
    write_plain(piece, &mut plain);
    out[..HEADER].copy_from_slice(&header(piece.partition()));
    seal.seal(keys, nonce_of(&plain), &plain, &mut out[HEADER..]);
}

/// What the sealed part of a frame holds.
fn open_part<S: Seal>(seal: &S, keys: &KeyPair, partition: u8, text: &[u8]) -> Opening
    requires { length text.now ≡ 120 }
    ensures { PartHolds S.sealed_text keys.now partition text.now result }
{
    let mut plain = [0; 104];
    let Some(nonce) = seal.open(keys, text, &mut plain) else {
        return Opening::Closed;
    };
    if !is_same_block(&nonce, &nonce_of(&plain)) {
        return Opening::Malformed;
    }
    match read_plain(&plain) {
        Some(piece) if piece.partition() == partition => Opening::Opened(piece),
        _ => Opening::Malformed,
    }
}

/// Opens a frame under the keys of a partition.
pub fn open_frame<S: Seal>(seal: &S, keys: &KeyPair, partition: u8, bytes: &[u8; 128]) -> Opening
    ensures foreign { (result ≡ Opening.Foreign) ↔ (¬ HasHeader partition bytes.now) }
    ensures closed { (result ≡ Opening.Closed) ↔
        (HasHeader partition bytes.now × (¬ Opens S.sealed_text keys.now (drop 8 bytes.now))) }
    ensures malformed { (result ≡ Opening.Malformed) ↔
        (HasHeader partition bytes.now
        × Opens S.sealed_text keys.now (drop 8 bytes.now)
        × ((x : PieceView) → ¬ IsFrame S.sealed_text keys.now partition bytes.now x)) }
    ensures opened { (x : PieceView) →
        (result ≡ Opening.Opened x) ↔ IsFrame S.sealed_text keys.now partition bytes.now x }
{
    let mut first = [0; HEADER];
    first.copy_from_slice(&bytes[..HEADER]);
    if !is_same_block(&first, &header(partition)) {
        return Opening::Foreign;
    }
    open_part(seal, keys, partition, &bytes[HEADER..])
}
