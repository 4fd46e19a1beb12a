ghost use Rattle.std.specs.Prelude.{◌≡◌, ◌<◌, length, false, true, MatchOption};
ghost use Rattle.file_calls.specs.Names.{name_of};
ghost use Rattle.script.specs.inside.Readers.{Gives, sized_read, content_read, change_read};

use crate::message::{are_lower_digits, message_bytes};
use crate::refusal::{Reason, Stop};
use file_calls::{Content, Name};
use std::alloc::Global;

/// Fills all of `out` with the bytes that a word spells in hex, if it spells so many.
fn decode_all(word: &[u8], out: &mut [u8]) -> bool
    requires { 0 < length out.old }
    ensures { MatchOption (sized_read (length out.old) word.now)
        (result ≡ false)
        (λ bytes. (result ≡ true) × (out.new ≡ bytes)) }
{
    are_lower_digits(word) && hex::decode_to_slice(word, out).is_ok()
}

/// A key.
pub fn key_word(word: &[u8]) -> Option<[u8; 8]>
    ensures { result ≡ sized_read 8 word.now }
{
    let mut key = [0; 8];
    if !decode_all(word, &mut key) {
        return None;
    }
    Some(key)
}

/// The bytes of a frame.
pub fn frame_word(word: &[u8]) -> Option<[u8; 128]>
    ensures { result ≡ sized_read 128 word.now }
{
    let mut frame = [0; 128];
    if !decode_all(word, &mut frame) {
        return None;
    }
    Some(frame)
}

/// What a byte is changed by: a byte other than 0.
#[tactic(auto, unfolding(crate::specs::inside::Readers::change_read))]
pub fn change_word(word: &[u8]) -> Option<u8>
    ensures { result ≡ change_read word.now }
{
    let mut bytes = [0; 1];
    if !decode_all(word, &mut bytes) {
        return None;
    }
    let [xor] = bytes;
    if xor == 0 { None } else { Some(xor) }
}

/// The name of a file.
pub fn file_word(alloc: Global, word: &[u8]) -> Result<Name, Stop>
    ensures { Gives (λ name. name) result (name_of word.now) }
{
    let name = Name::new(alloc, word)?;
    name.ok_or(Stop::Refused(Reason::Form))
}

/// The content of a file.
#[tactic(auto, unfolding(crate::specs::inside::Readers::content_read))]
pub fn content_word(alloc: Global, word: &[u8]) -> Result<Content, Stop>
    ensures { Gives (λ content. content) result (content_read word.now) }
{
    let bytes = message_bytes(alloc, word)?;
    let content = Content::new(alloc, bytes.bytes())?;
    content.ok_or(Stop::Refused(Reason::Form))
}
