ghost use Rattle.std.specs.Prelude.{◌≡◌, ℕ, ◌<◌, ◌≤◌, ◌%◌, ◌^◌, ◌↔◌, ◌+◌, length, vec_len, IfOk, IfSome, MatchOption, IsTrue};
ghost use Rattle.guarantor.specs.Records.{record_of};
ghost use Rattle.guarantor.specs.declared.guarantor.CheckStop.TheVariants.{OutOfMemory};

use crate::plain::{content_at, is_same, record_nonce, record_plain};
use file_calls::{Content, Name};
use seal_core::{KeyPair, Nonce, Seal};
use std::alloc::{AllocError, Global};
use std::marker::Model;

/// Why a text is not the record that is looked for.
#[derive(Clone, Copy, Debug, PartialEq, Eq)]
pub enum Damage {
    /// It doesn't open.
    Closed,
    /// It opens to something else.
    Other,
}

/// Why there is no content.
#[derive(Clone, Copy, Debug, PartialEq, Eq)]
pub enum CheckStop {
    Damage(Damage),
    OutOfMemory,
}

impl From<AllocError> for CheckStop {
    ghost from_gives = { λ _ stop. stop ≡ OutOfMemory };

    fn from(_failed: AllocError) -> CheckStop {
        CheckStop::OutOfMemory
    }
}

/// Seals the records of a file manager, and checks them.
#[derive(Drop)]
pub struct Guarantor<S: Seal> {
    seal: S,
    keys: KeyPair,
    alloc: Global,
}

impl<S: Seal> Model for Guarantor<S> {
    ghost use Rattle.seal_core.specs.declared.KeyPair.{KeyPair};

    ghost Value = { KeyPair };

    ghost view = { λ a. a.keys };
}

/// Whether a record can be so long.
fn is_record_length(length: usize) -> bool
    ensures { IsTrue result ↔ (64 ≤ length) × (length ≤ 4160) × (length % 8 ≡ 0) }
{
    64 <= length && length <= 4160 && length % 8 == 0
}

/// What a text opened to.
#[derive(Drop)]
struct Opened {
    nonce: Nonce,
    plain: Vec<u8>,
}

impl<S: Seal> Guarantor<S> {
    ghost use Rattle.guarantor.specs.Checks.{OpensAs, IsOpen, Checks};

    pub fn open(alloc: Global, seal: S, keys: KeyPair) -> Guarantor<S>
        ensures { result ≡ keys }
    {
        Guarantor { seal, keys, alloc }
    }

    /// The record of a block: of a level's file, with the block's number, version and content.
    pub fn seal_record(
        &self,
        level: u8,
        name: &Name,
        block: u8,
        version: u64,
        content: &[u8],
    ) -> Result<Vec<u8>, AllocError>
        requires content { length content.now ≤ 4096 }
        requires block { block ≤ 63 }
        requires version { version < 2 ^ 56 }
        ensures { IfOk result (λ text. text.items
            ≡ record_of S.sealed_text self.now level name.now block version content.now) }
    {
        let plain = record_plain(self.alloc, level, name.bytes(), block, version, content)?;
        let mut text = vec![in self.alloc; 0u8; plain.len() + 16]?;
        let nonce = record_nonce(level, version);
        self.seal.seal(&self.keys, nonce, &plain, &mut text);
        Ok(text)
    }

    /// The nonce and the plain text of a text, where that has a record's length and opens.
    fn open_text(&self, sealed: &[u8]) -> Result<Option<Opened>, AllocError>
        ensures open { IfOk result (λ opened. MatchOption opened
            (¬ IsOpen S.sealed_text self.now sealed.now)
            (λ o. OpensAs S.sealed_text self.now sealed.now o.nonce o.plain.items)) }
        ensures length { IfOk result (λ opened. IfSome opened
            (λ o. vec_len o.plain + 16 ≡ length sealed.now)) }
    {
        if !is_record_length(sealed.len()) {
            return Ok(None);
        }
        let mut plain = vec![in self.alloc; 0u8; sealed.len() - 16]?;
        match self.seal.open(&self.keys, sealed, &mut plain) {
            Some(nonce) => Ok(Some(Opened { nonce, plain })),
            None => Ok(None),
        }
    }

    /// The content of a block, where the text is its record.
    pub fn check(
        &self,
        sealed: &[u8],
        level: u8,
        name: &Name,
        block: u8,
        version: u64,
    ) -> Result<Content, CheckStop>
        requires block { block ≤ 63 }
        requires version { version < 2 ^ 56 }
        ensures { Checks S.sealed_text self.now level name.now block version sealed.now result }
    {
        let Some(opened) = self.open_text(sealed)? else {
            return Err(CheckStop::Damage(Damage::Closed));
        };
        let name = name.bytes();
        if !is_same(&opened.nonce, &record_nonce(level, version)) {
            return Err(CheckStop::Damage(Damage::Other));
        }
        let Some(content) = Content::new(self.alloc, content_at(&opened.plain))? else {
            return Err(CheckStop::Damage(Damage::Other));
        };
        let own = record_plain(self.alloc, level, name, block, version, content.bytes())?;
        if !is_same(&own, &opened.plain) {
            return Err(CheckStop::Damage(Damage::Other));
        }
        Ok(content)
    }
}
