ghost use Rattle.std.specs.Prelude.{◌≡◌, ◌≤◌, IfSome};
ghost use Rattle.script.specs.inside.Readers.{edit_read, edits_read, words};

use crate::bytes::change_word;
use crate::number::small_number;
use crate::words::{first_word, two_parts};
use events::Edits;

/// The greatest offset of a byte of a frame.
const OFFSET_LIMIT: u8 = 127;

/// An offset, the least one or a later one, and what the byte there is changed by.
#[tactic(auto, unfolding(crate::specs::inside::Readers::edit_read))]
fn edit_word(word: &[u8], least: u8) -> Option<(u8, u8)>
    ensures edit { result ≡ edit_read least word.now }
    ensures most { IfSome result (λ edit. edit.0 ≤ 127) }
{
    let (offset, xor) = two_parts(word, b'^')?;
    let offset = small_number(offset, least, OFFSET_LIMIT)?;
    let xor = change_word(xor)?;
    Some((offset, xor))
}

/// The edits that the words of a text say: one to eight, whose offsets rise.
pub fn edit_words(text: &[u8]) -> Option<Edits>
    ensures { result ≡ edits_read 8 0 (words text.now) }
{
    let mut pairs = [(0, 0); 8];
    let mut least = 0;
    let mut rest = text;
    for i in 0..8 {
        let (word, behind) = first_word(rest);
        let (offset, xor) = edit_word(word, least)?;
        pairs[i] = (offset, xor);
        least = offset + 1;
        match behind {
            None => return Edits::new(&pairs[..i + 1]),
            Some(more) => rest = more,
        }
    }
    None
}
