ghost use Rattle.std.specs.Prelude.{◌≡◌, ℕ, ◌+◌, ◌≤◌, ◌++◌, ◌↔◌, length, replicate, IfOk, OnOk, IsTrue, true};
ghost use Rattle.file_calls.specs.Names.{is_name};
ghost use Rattle.guarantor.specs.Records.{record_nonce, record_plain};
ghost use Rattle.guarantor.specs.inside.Parts.{content_at};

use seal_core::Nonce;
use std::alloc::{AllocError, Global};

/// The bytes in front of a record's content.
const FRONT: usize = 48;

/// The bytes of a name's field.
const NAME_FIELD: usize = 32;

/// Whether two texts are the same.
pub fn is_same(a: &[u8], b: &[u8]) -> bool
    ensures { IsTrue result ↔ (a.now ≡ b.now) }
{
    a == b
}

/// The nonce of a record.
#[tactic(auto, unfolding(crate::specs::Records::record_nonce))]
pub fn record_nonce(level: u8, version: u64) -> Nonce
    ensures { result ≡ record_nonce level version }
{
    let [_, a, b, c, d, e, f, g] = version.to_be_bytes();
    [level, a, b, c, d, e, f, g]
}

/// Appends bytes and zeros behind them.
fn push_padded(text: &mut Vec<u8>, bytes: &[u8], zeros: usize) -> Result<(), AllocError>
    requires { zeros ≤ NAME_FIELD }
    ensures { OnOk result (text.new.items ≡ text.old.items ++ (bytes.now ++ replicate zeros 0)) }
{
    text.extend_from_slice(bytes)?;
    text.extend_from_slice(&[0; NAME_FIELD][..zeros])?;
    Ok(())
}

/// The plain text of a record.
#[tactic(auto, unfolding(crate::specs::Records::record_plain))]
pub fn record_plain(
    alloc: Global,
    level: u8,
    name: &[u8],
    block: u8,
    version: u64,
    content: &[u8],
) -> Result<Vec<u8>, AllocError>
    requires name { is_name name.now ≡ true }
    requires content { length content.now ≤ 4096 }
    ensures { IfOk result
        (λ plain. plain.items ≡ record_plain level name.now block version content.now) }
{
    let mut plain = Vec::new(alloc);
    plain.extend_from_slice(&[level, name.len() as u8])?;
    plain.extend_from_slice(&(content.len() as u16).to_be_bytes())?;
    plain.extend_from_slice(&[block, 0, 0, 0])?;
    plain.extend_from_slice(&version.to_be_bytes())?;
    push_padded(&mut plain, name, NAME_FIELD - name.len())?;
    push_padded(&mut plain, content, (8 - content.len() % 8) % 8)?;
    Ok(plain)
}

/// What stands where a record has its content, by the length that it says.
pub fn content_at(plain: &[u8]) -> &[u8]
    requires { FRONT ≤ length plain.now }
    ensures content { result.now ≡ content_at plain.now }
    ensures short { FRONT + length result.now ≤ length plain.now }
{
    let size = u16::from_be_bytes([plain[2], plain[3]]) as usize;
    let rest = &plain[FRONT..];
    if size < rest.len() {
        &rest[..size]
    } else {
        rest
    }
}
