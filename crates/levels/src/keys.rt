ghost use Rattle.std.specs.Prelude.{◌≡◌, ◌+◌, ◌<◌};
ghost use Rattle.std.specs.List.{list_any};
ghost use Rattle.seal_core.specs.Blocks.{IsBlock};
ghost use Rattle.des_cbc.specs.Parity.{weak_keys};
ghost use Rattle.levels.specs.Keys.{clear_pair, keys_of, listed, is_same_key};

use des_cbc::{is_weak, same_key};
use seal_core::KeyPair;

/// The key pair under clear sealing whose check key has this byte eight times.
pub fn clear_pair(byte: u8) -> KeyPair
    ensures { result ≡ clear_pair byte }
{
    KeyPair {
        main: [0; 8],
        check: [byte; 8],
    }
}

/// Whether two keys agree on all bits but the parity bits.
pub fn is_same_key(a: &[u8; 8], b: &[u8; 8]) -> bool
    ensures { result ≡ is_same_key a.now b.now }
{
    same_key(a, b)
}

/// Whether a key is weak; it has eight bytes.
pub fn is_weak_key(key: &[u8; 8]) -> bool
    ensures weak { result ≡ list_any (is_same_key key.now) weak_keys }
    ensures block { IsBlock key.now }
{
    is_weak(key)
}

/// Whether a key is the same as one of these pairs' keys.
pub fn is_key_of(pairs: &[KeyPair], key: &[u8; 8]) -> bool
    ensures { result ≡ list_any (is_same_key key.now) (keys_of pairs.now) }
{
    for pair in pairs {
        if is_same_key(key, &pair.main) || is_same_key(key, &pair.check) {
            return true;
        }
    }
    false
}

pub fn is_key_of_guard(guard: &Option<KeyPair>, key: &[u8; 8]) -> bool
    ensures { result ≡ list_any (is_same_key key.now) (keys_of (listed guard.now)) }
{
    match guard {
        Some(pair) => is_same_key(key, &pair.main) || is_same_key(key, &pair.check),
        None => false,
    }
}
