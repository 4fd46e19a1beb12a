ghost use Rattle.std.specs.Prelude.{◌≡◌, ◌+◌, ◌%◌, ◌↔◌, length, map, reverse, IsTrue};
ghost use Rattle.des_cbc.specs.Bits.{bits, text_bits, text_bytes};
ghost use Rattle.des_cbc.specs.Chaining.{unchain};
ghost use Rattle.des_cbc.specs.Sealing.{sealed_blocks, des_text};
ghost use Rattle.des_cbc.specs.ChainLaws.{des_laws};
ghost use Rattle.des_cbc.specs.inside.Words.{round_key, IsUnsealed};

use crate::rounds::{RoundKeys, encipher, encipher_two, reversed};
use crate::schedule::Schedule;
use crate::words::{load, store};
use seal_core::{KeyPair, Nonce, Seal};

/// The DES sealing: the nonce, and then the plain text and its check block in one chain. The check
/// block is the last output of a chain of the same blocks under the check key.
#[derive(Clone, Copy, Debug, PartialEq, Eq)]
pub struct DesSeal;

/// Writes the plain text and its check block as one chain, the two chains side by side.
fn seal_blocks(main: &RoundKeys, check: &RoundKeys, nonce: u64, plain: &[u8], out: &mut [u8])
    requires whole { length plain.now % 8 ≡ 0 }
    requires room { length out.old ≡ length plain.now + 8 }
    ensures { let main_keys = map round_key main.now in
        let check_keys = map round_key check.now in
        out.new ≡ text_bytes (sealed_blocks main_keys check_keys (bits 64 nonce)
        (text_bits plain.now)) }
{
    let mut before = nonce;
    let mut check_before = encipher(check, nonce);
    for i in 0..plain.len() / 8 {
        let block = load(plain, 8 * i);
        let (output, check_output) = encipher_two(
            main,
            check,
            block ^ before,
            block ^ check_before,
        );
        store(out, 8 * i, output);
        before = output;
        check_before = check_output;
    }
    store(out, plain.len(), encipher(main, check_before ^ before));
}

/// Deciphers a chain into the plain text, the check chain beside it, and says whether the last
/// block is the check block.
fn open_blocks(
    backward: &RoundKeys,
    check: &RoundKeys,
    nonce: u64,
    text: &[u8],
    plain: &mut [u8],
) -> bool
    requires whole { length plain.old % 8 ≡ 0 }
    requires room { length text.now ≡ length plain.old + 8 }
    ensures { let main_keys = map round_key backward.now in
        let check_keys = map round_key check.now in
        IsUnsealed main_keys check_keys (bits 64 nonce) text.now plain.new result }
{
    let mut before = nonce;
    let mut check_input = nonce;
    for i in 0..plain.len() / 8 {
        let block = load(text, 8 * i);
        let (output, check_output) = encipher_two(backward, check, block, check_input);
        store(plain, 8 * i, output ^ before);
        check_input = output ^ before ^ check_output;
        before = block;
    }
    let last = load(text, plain.len());
    let (output, check_output) = encipher_two(backward, check, last, check_input);
    output ^ before == check_output
}

impl Seal for DesSeal {
    ghost sealed_text = { des_text };

    ghost laws = { des_laws };

    fn seal(&self, keys: &KeyPair, nonce: Nonce, plain: &[u8], out: &mut [u8]) {
        let main = Schedule::new(&keys.main);
        let check = Schedule::new(&keys.check);
        out[..8].copy_from_slice(&nonce);
        let rest = &mut out[8..];
        seal_blocks(
            main.keys(),
            check.keys(),
            u64::from_be_bytes(nonce),
            plain,
            rest,
        );
    }

    fn open(&self, keys: &KeyPair, sealed: &[u8], plain: &mut [u8]) -> Option<Nonce> {
        let backward = reversed(Schedule::new(&keys.main).keys());
        let check = Schedule::new(&keys.check);
        let mut nonce = [0; 8];
        nonce.copy_from_slice(&sealed[..8]);
        let start = u64::from_be_bytes(nonce);
        if open_blocks(&backward, check.keys(), start, &sealed[8..], plain) {
            return Some(nonce);
        }
        plain.fill(0);
        None
    }
}
