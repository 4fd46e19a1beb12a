//! Sealing: one sealed text for each key pair, nonce and plain text.
#![tactic(auto)]

ghost use Rattle.std.specs.Prelude.{◌≡◌, ℕ, ◌+◌, ◌%◌, ◌<◌, ◌↔◌, IsTrue, List, length, replicate, IfSome, IfNone, Some};
ghost use Rattle.seal_core.specs.Sealing.{Sealer, OpensTo, IsSealing};

mod clear;

pub use clear::ClearSeal;

/// A number that is used for one sealed text.
pub type Nonce = [u8; 8];

/// Whether two blocks are one.
pub fn is_same_block(a: &[u8; 8], b: &[u8; 8]) -> bool
    ensures { IsTrue result ↔ (a.now ≡ b.now) }
{
    u64::from_be_bytes(*a) == u64::from_be_bytes(*b)
}

/// The two keys of a partition: one for the text and one for its check block.
#[derive(Clone, Copy, Debug, PartialEq, Eq)]
pub struct KeyPair {
    pub main: [u8; 8],
    pub check: [u8; 8],
}

/// A way to seal plain texts of whole blocks of eight bytes. A sealed text is 16 bytes longer than
/// its plain text: it begins with the nonce and ends with a block that checks the others.
pub trait Seal: Drop {
    /// The sealed text of a nonce and a plain text under a key pair.
    ghost sealed_text: { Sealer };

    /// Writes the sealed text over all of `out`.
    fn seal(&self, keys: &KeyPair, nonce: Nonce, plain: &[u8], out: &mut [u8])
        requires some { 0 < length plain.now }
        requires whole { length plain.now % 8 ≡ 0 }
        requires room { length out.old ≡ length plain.now + 16 }
        ensures { out.new ≡ sealed_text keys.now nonce plain.now };

    /// The nonce of a sealed text, with its plain text in `plain`; None where the text is no sealed
    /// text under these keys.
    fn open(&self, keys: &KeyPair, sealed: &[u8], plain: &mut [u8]) -> Option<Nonce>
        requires some { 0 < length plain.old }
        requires whole { length plain.old % 8 ≡ 0 }
        requires room { length sealed.now ≡ length plain.old + 16 }
        ensures opened { IfSome result (λ nonce. OpensTo sealed_text keys.now sealed.now nonce
            plain.new) }
        ensures alone { (nonce body : List ℕ) → OpensTo sealed_text keys.now sealed.now nonce body
            → (result ≡ Some nonce) × (plain.new ≡ body) }
        ensures zeros { IfNone result (plain.new ≡ replicate (length plain.old) 0) };

    ghost laws: { IsSealing sealed_text };
}

#[cfg(test)]
mod tests;
