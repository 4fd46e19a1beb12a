ghost use Rattle.std.specs.Prelude.{◌≡◌};
ghost use Rattle.std.specs.List.{list_all};
ghost use Rattle.script.specs.inside.Readers.{Gives, hex_read, is_lower_digit};

use crate::refusal::{Reason, Stop};
use events::Body;
use hex::FromHexError;
use std::alloc::Global;

pub fn are_lower_digits(word: &[u8]) -> bool
    ensures { result ≡ list_all is_lower_digit word.now }
{
    // No early exit, so that many digits are looked at together.
    let mut all = true;
    for digit in word {
        all &= digit.is_ascii_digit() || (*digit >= b'a' && *digit <= b'f');
    }
    all
}

/// The bytes of a message that a word spells in hex.
#[tactic(auto, unfolding(crate::specs::inside::Readers::hex_read))]
pub fn message_bytes(alloc: Global, word: &[u8]) -> Result<Body, Stop>
    ensures { Gives (λ body. body) result (hex_read word.now) }
{
    if word == b"-".as_slice() {
        return Ok(Body::from(Vec::new(alloc)));
    }
    if !are_lower_digits(word) {
        return Err(Stop::Refused(Reason::Form));
    }
    if word.is_empty() {
        return Err(Stop::Refused(Reason::Form));
    }
    match hex::decode(alloc, word) {
        Ok(bytes) => Ok(Body::from(bytes)),
        Err(FromHexError::OutOfMemory) => Err(Stop::OutOfMemory),
        Err(_) => Err(Stop::Refused(Reason::Form)),
    }
}
