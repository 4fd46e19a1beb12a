ghost use Rattle.std.specs.Prelude.{◌≡◌, ◌<◌, ◌≤◌, ◌↔◌, IsTrue, Some, length, take, drop, replicate};
ghost use Rattle.frame.specs.Pieces.{PieceView, piece_count, piece_bytes, padded, piece_of, IsPiece};
ghost use Rattle.frame.specs.Frames.{plain_of, Spells};
ghost use Rattle.frame.specs.inside.Rules.{Fits, KeepsRules};

use std::marker::Model;

/// The most bytes of a message.
pub const MESSAGE_LIMIT: usize = 5632;

/// The bytes of a piece that is full.
pub const PIECE_SIZE: usize = 88;

/// How many bytes of a plain text stand before the payload.
const FIELDS: usize = 16;

/// As many zeros as a plain text has bytes.
const ZEROS: [u8; 104] = [0; 104];

/// A part of a message, as it goes from a sender to a receiver of one partition.
#[derive(Clone, Copy, Debug, PartialEq, Eq)]
pub struct Piece {
    from: u8,
    to: u8,
    message: u32,
    piece: u8,
    last: u8,
    used: u8,
    partition: u8,
    payload: [u8; 88],
}

impl Model for Piece {
    ghost use Rattle.frame.specs.Pieces.{PieceView, IsPiece};

    ghost Value = { PieceView };

    ghost use Rattle.frame.specs.inside.Fields.{fields_of, inside_of};

    ghost view = { fields_of };

    ghost invariant = { λ a. IsPiece (fields_of a) };

    ghost inverse = { inside_of };
}

impl Piece {
    /// The sender's address, 0 for the manager unit.
    pub fn from(&self) -> u8
        ensures from { result ≡ self.now.from }
        ensures kept { IsPiece self.now }
    {
        self.from
    }

    /// The receiver's address, 0 for the manager unit.
    pub fn to(&self) -> u8
        ensures to { result ≡ self.now.to }
        ensures kept { IsPiece self.now }
    {
        self.to
    }

    /// The number of the message in its stream.
    pub fn message(&self) -> u32
        ensures message { result ≡ self.now.message }
        ensures kept { IsPiece self.now }
    {
        self.message
    }

    /// The number of this piece, from 0.
    pub fn piece(&self) -> u8
        ensures piece { result ≡ self.now.piece }
        ensures kept { IsPiece self.now }
    {
        self.piece
    }

    /// The number of the message's last piece.
    pub fn last(&self) -> u8
        ensures last { result ≡ self.now.last }
        ensures kept { IsPiece self.now }
    {
        self.last
    }

    /// How many bytes of the payload are the message's.
    pub fn used(&self) -> u8
        ensures used { result ≡ self.now.used }
        ensures kept { IsPiece self.now }
    {
        self.used
    }

    pub fn partition(&self) -> u8
        ensures partition { result ≡ self.now.partition }
        ensures kept { IsPiece self.now }
    {
        self.partition
    }

    /// The bytes, and zeros behind the used ones.
    pub fn payload(&self) -> &[u8; 88]
        ensures payload { result.now ≡ self.now.payload }
        ensures kept { IsPiece self.now }
    {
        &self.payload
    }
}

/// How many pieces a message of so many bytes has.
#[tactic(auto, unfolding(crate::specs::Pieces::piece_count))]
pub fn pieces(len: usize) -> u8
    requires { len ≤ MESSAGE_LIMIT }
    ensures count { result ≡ piece_count len }
    ensures some { 0 < result }
    ensures few { result ≤ 64 }
{
    (len.div_ceil(PIECE_SIZE) as u8).max(1)
}

/// The bytes of the i-th piece.
fn piece_bytes(body: &[u8], i: u8) -> &[u8]
    requires { i < piece_count (length body.now) }
    ensures bytes { result.now ≡ piece_bytes body.now i }
    ensures short { length result.now ≤ PIECE_SIZE }
{
    let rest = &body[PIECE_SIZE * i as usize..];
    &rest[..rest.len().min(PIECE_SIZE)]
}

/// The bytes, and zeros behind them.
fn padded(bytes: &[u8]) -> [u8; 88]
    requires { length bytes.now ≤ PIECE_SIZE }
    ensures { result ≡ padded bytes.now }
{
    let mut payload = [0u8; 88];
    payload[..bytes.len()].copy_from_slice(bytes);
    payload
}

/// The i-th piece of a message, from 0.
pub fn cut(from: u8, to: u8, partition: u8, message: u32, body: &[u8], i: u8) -> Piece
    requires length { length body.now ≤ MESSAGE_LIMIT }
    requires piece { i < piece_count (length body.now) }
    ensures { result ≡ piece_of from to partition message body.now i }
{
    let bytes = piece_bytes(body, i);
    Piece {
        from,
        to,
        message,
        piece: i,
        last: pieces(body.len()) - 1,
        used: bytes.len() as u8,
        partition,
        payload: padded(bytes),
    }
}

/// Writes the plain text of a piece.
pub fn write_plain(piece: &Piece, out: &mut [u8; 104])
    ensures { out.new ≡ plain_of piece.now }
{
    let [first, second, third, fourth] = piece.message.to_be_bytes();
    out[..FIELDS].copy_from_slice(&[
        piece.from,
        piece.to,
        first,
        second,
        third,
        fourth,
        piece.piece,
        piece.last,
        piece.used,
        piece.partition,
        0,
        0,
        0,
        0,
        0,
        0,
    ]);
    out[FIELDS..].copy_from_slice(&piece.payload);
}

/// Whether a piece at this place may carry so many bytes.
fn fits(place: u8, last: u8, used: u8) -> bool
    ensures { IsTrue result ↔ Fits place last used }
{
    let is_filled = if place < last {
        used == 88
    } else {
        used <= 88 && (used > 0 || last == 0)
    };
    place <= last && last <= 63 && is_filled
}

fn are_zeros(bytes: &[u8]) -> bool
    requires { length bytes.now ≤ 104 }
    ensures { IsTrue result ↔ (bytes.now ≡ replicate (length bytes.now) 0) }
{
    bytes == &ZEROS[..bytes.len()]
}

/// Whether no byte between the fields and the payload says anything.
fn is_unused(plain: &[u8; 104]) -> bool
    ensures { IsTrue result ↔ (take 6 (drop 10 plain.now) ≡ replicate 6 0) }
{
    matches!(&plain[10..FIELDS], [0, 0, 0, 0, 0, 0])
}

/// Whether a plain text keeps the rules of a piece.
fn keeps_rules(plain: &[u8; 104]) -> bool
    ensures { IsTrue result ↔ KeepsRules plain.now }
{
    let used = plain[8];
    fits(plain[6], plain[7], used)
        && is_unused(plain)
        && are_zeros(&plain[FIELDS + usize::from(used)..])
}

/// The piece that a plain text spells.
pub fn read_plain(plain: &[u8; 104]) -> Option<Piece>
    ensures { (x : PieceView) → (result ≡ Some x) ↔ Spells plain.now x }
{
    if !keeps_rules(plain) {
        return None;
    }
    let message = u32::from_be_bytes([plain[2], plain[3], plain[4], plain[5]]);
    let mut payload = [0; PIECE_SIZE];
    payload.copy_from_slice(&plain[FIELDS..]);
    Some(Piece {
        from: plain[0],
        to: plain[1],
        message,
        piece: plain[6],
        last: plain[7],
        used: plain[8],
        partition: plain[9],
        payload,
    })
}
