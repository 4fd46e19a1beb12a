ghost use Rattle.std.specs.Prelude.{◌≡◌, ℕ, ◌*◌, ◌≤◌, ◌<◌, List, length};
ghost use Rattle.std.specs.List.{range_with_len, flat_map};
ghost use Rattle.seal_core.specs.Sealing.{Sealer, IsSealing};
ghost use Rattle.frame.specs.Pieces.{PieceView, pieces, piece_bytes, piece_of, used_bytes, IsPiece};
ghost use Rattle.frame.specs.Frames.{frame_of};

use seal_core::KeyPair;

/// A message has a piece at least. Each piece carries its part of the bytes. The parts joined are
/// the message, where they reach its end, and all its pieces reach it.
pub fn pieces_carry_their_message()
    ensures some { (body : List ℕ) → 0 < pieces body }
    ensures each { (from to partition message : ℕ) (body : List ℕ) (i : ℕ) →
        used_bytes (piece_of from to partition message body i) ≡ piece_bytes body i }
    ensures joined { (body : List ℕ) (n : ℕ) → length body ≤ 88 * n →
        flat_map (piece_bytes body) (range_with_len 0 n) ≡ body }
    ensures reached { (body : List ℕ) → length body ≤ 88 * pieces body }
{}

/// A frame has 128 bytes. In one partition different pieces have different frames.
pub fn each_piece_has_a_frame_of_its_own()
    ensures length { (sealed : Sealer) (keys : KeyPair) (x : PieceView) → IsSealing sealed →
        IsPiece x → length (frame_of sealed keys x) ≡ 128 }
    ensures apart { (sealed : Sealer) (keys : KeyPair) (x y : PieceView) → IsSealing sealed →
        IsPiece x → IsPiece y → frame_of sealed keys x ≡ frame_of sealed keys y → x ≡ y }
{}
