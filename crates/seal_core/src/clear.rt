ghost use Rattle.std.specs.Prelude.{◌≡◌, ◌+◌, ◌++◌, ◌≤◌, length, take, drop};
ghost use Rattle.seal_core.specs.Blocks.{block_word};
ghost use Rattle.seal_core.specs.Clear.{clear_check, clear_text};
ghost use Rattle.seal_core.specs.ClearLaws.{clear_laws};

use crate::{KeyPair, Nonce, Seal, is_same_block};

/// A sealing that hides and protects nothing, for scripts and tests: the check block is the
/// exclusive or of the nonce, the plain text's blocks and the check key.
#[derive(Clone, Copy, Debug, PartialEq, Eq)]
pub struct ClearSeal;

fn check_block(key: &[u8; 8], nonce: &Nonce, plain: &[u8]) -> [u8; 8]
    ensures { result ≡ clear_check key.now nonce.now plain.now }
{
    let mut sum = u64::from_be_bytes(*key) ^ u64::from_be_bytes(*nonce);
    let (blocks, _) = plain.as_chunks::<8>();
    for block in blocks {
        sum ^= u64::from_be_bytes(*block);
    }
    sum.to_be_bytes()
}

impl Seal for ClearSeal {
    ghost sealed_text = { clear_text };

    ghost laws = { clear_laws };

    fn seal(&self, keys: &KeyPair, nonce: Nonce, plain: &[u8], out: &mut [u8]) {
        let end = 8 + plain.len();
        out[..8].copy_from_slice(&nonce);
        out[8..end].copy_from_slice(plain);
        out[end..].copy_from_slice(&check_block(&keys.check, &nonce, plain));
    }

    fn open(&self, keys: &KeyPair, sealed: &[u8], plain: &mut [u8]) -> Option<Nonce> {
        let end = 8 + plain.len();
        let mut nonce = [0; 8];
        nonce.copy_from_slice(&sealed[..8]);
        plain.copy_from_slice(&sealed[8..end]);
        let check = check_block(&keys.check, &nonce, plain);
        let mut last = [0; 8];
        last.copy_from_slice(&sealed[end..]);
        if is_same_block(&last, &check) {
            return Some(nonce);
        }
        plain.fill(0);
        None
    }
}
