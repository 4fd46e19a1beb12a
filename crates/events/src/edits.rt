ghost use Rattle.std.specs.Prelude.{◌≡◌, ◌<◌, All, ◌↔◌, IsTrue, IsSome, IfSome};
ghost use Rattle.events.specs.Edits.{AreEdits};
ghost use Rattle.events.specs.inside.Edits.{rise_from};

use std::marker::Model;

/// The most pairs of a list of edits.
const EDIT_LIMIT: usize = 8;

/// The bytes of a frame.
const FRAME_SIZE: u8 = 128;

/// Changes of a frame's bytes: one to eight pairs of an offset and what the byte there is changed
/// by, by exclusive or.
#[derive(Debug, Drop)]
pub struct Edits {
    length: u8,
    pairs: [(u8, u8); 8],
}

impl Model for Edits {
    ghost use Rattle.std.specs.Prelude.{List, ℕ};

    ghost Value = { List (ℕ × ℕ) };

    ghost use Rattle.events.specs.inside.Edits.{pairs_of, IsKept};

    ghost view = { pairs_of };

    ghost invariant = { IsKept };
}

/// Whether the offsets rise strictly below 128, and each byte is changed.
fn are_rising(pairs: &[(u8, u8)]) -> bool
    ensures rising { result ≡ rise_from 0 pairs.now }
    ensures bytes { IsTrue result → All (λ pair. pair.1 < 256) pairs.now }
{
    let mut least = 0;
    for (offset, xor) in pairs {
        if *offset < least || *offset >= FRAME_SIZE || *xor == 0 {
            return false;
        }
        least = *offset + 1;
    }
    true
}

fn are_edits(pairs: &[(u8, u8)]) -> bool
    ensures { IsTrue result ↔ AreEdits pairs.now }
{
    !pairs.is_empty() && pairs.len() <= EDIT_LIMIT && are_rising(pairs)
}

impl Edits {
    /// The edits of these pairs, each an offset and what the byte there is changed by: one to eight
    /// pairs, the offsets strictly rising below 128, none changed by 0. It takes no memory.
    pub fn new(pairs: &[(u8, u8)]) -> Option<Edits>
        ensures some { IsSome result ↔ AreEdits pairs.now }
        ensures edits { IfSome result (λ edits. edits ≡ pairs.now) }
    {
        if !are_edits(pairs) {
            return None;
        }
        let mut kept = [(0, 0); 8];
        kept[..pairs.len()].copy_from_slice(pairs);
        Some(Edits {
            length: pairs.len() as u8,
            pairs: kept,
        })
    }

    /// The pairs of an offset and what the byte there is changed by.
    pub fn pairs(&self) -> &[(u8, u8)]
        ensures pairs { result.now ≡ self.now }
        ensures edits { AreEdits self.now }
    {
        &self.pairs[..self.length as usize]
    }
}
