ghost use Rattle.std.specs.Prelude.{◌≡◌, ◌<◌, ◌∷◌, [], length, MatchOption, IfSome};
ghost use Rattle.script.specs.inside.Readers.{parts_at};

use crate::search::before;

/// What stands before the first mark in a text, and what stands behind it.
pub fn cut(text: &[u8], mark: u8) -> Option<(&[u8], &[u8])>
    ensures parts { MatchOption result
        (parts_at mark text.now ≡ text.now ∷ [])
        (λ cut. parts_at mark text.now ≡ cut.0.now ∷ parts_at mark cut.1.now) }
    ensures shorter { IfSome result (λ cut. length cut.1.now < length text.now) }
{
    let place = before(text, mark);
    if place == text.len() {
        return None;
    }
    Some((&text[..place], &text[place + 1..]))
}
