//! The amounts of work that are measured.

ghost use Rattle.std.specs.Prelude.{◌≡◌, ◌%◌, ◌<◌, ◌≤◌};

use crate::draws::{Checksum, Draws};
use des_cbc::{DesSeal, Schedule, cbc_decrypt, cbc_encrypt};
use seal_core::{KeyPair, Seal};
use std::alloc::{AllocError, Global};
use std::io;

/// The bytes that are enciphered at a time.
const BUFFER: usize = 8192;

/// The bytes of a frame's plain text, and of its sealed text.
const PLAIN: usize = 104;

const SEALED: usize = 120;

/// Enciphers one stream of `size` buffers, each beginning where the one before ended.
fn chain_of(alloc: Global, size: u64, buffer: usize) -> Result<u64, AllocError>
    requires some { 8 ≤ buffer }
    requires whole { buffer % 8 ≡ 0 }
{
    let mut draws = Draws::new(1);
    let schedule = Schedule::new(&draws.block());
    let mut iv = draws.block();
    let mut plain = vec![in alloc; 0u8; buffer]?;
    let mut sealed = vec![in alloc; 0u8; buffer]?;
    draws.fill(&mut plain);
    let mut sum = Checksum::new();
    for _ in 0..size {
        cbc_encrypt(&schedule, iv, &plain, &mut sealed);
        iv.copy_from_slice(&sealed[buffer - 8..]);
        sum.add(&iv);
    }
    Ok(sum.value())
}

pub fn chain(alloc: Global, size: u64) -> Result<u64, AllocError> {
    chain_of(alloc, size, BUFFER)
}

fn key_pair(draws: &mut Draws) -> KeyPair {
    let main = draws.block();
    let check = draws.block();
    KeyPair { main, check }
}

/// Seals `size` frames, each under keys that are given as bytes.
pub fn seal(size: u64) -> u64 {
    let mut draws = Draws::new(2);
    let keys = key_pair(&mut draws);
    let mut plain = [0u8; PLAIN];
    draws.fill(&mut plain);
    let mut text = [0u8; SEALED];
    let mut sum = Checksum::new();
    for i in 0..size {
        DesSeal.seal(&keys, i.to_be_bytes(), &plain, &mut text);
        sum.add(&text[SEALED - 8..SEALED]);
    }
    sum.value()
}

/// Opens one frame `size` times, with a byte of it changed at every other time.
pub fn open(size: u64) -> u64 {
    let mut draws = Draws::new(3);
    let keys = key_pair(&mut draws);
    let mut plain = [0u8; PLAIN];
    draws.fill(&mut plain);
    let mut text = [0u8; SEALED];
    DesSeal.seal(&keys, draws.block(), &plain, &mut text);
    let mut sum = Checksum::new();
    for i in 0..size {
        if i % 2 == 1 {
            text[64] ^= 1;
        }
        match DesSeal.open(&keys, &text, &mut plain) {
            None => sum.add(&[0]),
            Some(nonce) => sum.add(&nonce),
        }
    }
    sum.value()
}

/// One case: what is made of a plain text of `len` bytes.
fn print_case(rt: &impl Print, alloc: Global, draws: &mut Draws, len: usize) -> io::Result<()>
    requires some { 0 < len }
    requires whole { len % 8 ≡ 0 }
    requires fits { len ≤ 104 }
{
    let keys = key_pair(draws);
    let nonce = draws.block();
    let mut plain = vec![in alloc; 0u8; len]?;
    draws.fill(&mut plain);
    let schedule = Schedule::new(&keys.main);
    let mut enciphered = vec![in alloc; 0u8; len]?;
    cbc_encrypt(&schedule, nonce, &plain, &mut enciphered);
    let mut deciphered = vec![in alloc; 0u8; len]?;
    cbc_decrypt(&schedule, nonce, &plain, &mut deciphered);
    let mut sealed = vec![in alloc; 0u8; len + 16]?;
    DesSeal.seal(&keys, nonce, &plain, &mut sealed);
    let mut opened = vec![in alloc; 0u8; len]?;
    let back = DesSeal.open(&keys, &sealed, &mut opened) == Some(nonce);
    let same = back && opened == plain;
    print!(rt;
        "{} {} ",
        hex::encode(alloc, keys.main)?,
        hex::encode(alloc, keys.check)?
    )?;
    print!(rt;
        "{} {} ",
        hex::encode(alloc, nonce)?,
        hex::encode(alloc, plain)?
    )?;
    print!(rt;
        "{} {} ",
        hex::encode(alloc, enciphered)?,
        hex::encode(alloc, deciphered)?
    )?;
    println!(rt; "{} {same}", hex::encode(alloc, sealed)?)?;
    Ok(())
}

/// Prints `size` cases of keys, nonces and texts that look random, for another implementation to
/// compute again. A line has the two keys, the nonce, the plain text, that text enciphered and
/// deciphered in a chain under the first key from the nonce, the sealed text, and whether it opened
/// to the nonce and the plain text.
pub fn cases(rt: &impl Print, alloc: Global, size: u64, seed: u64) -> io::Result<()> {
    let mut draws = Draws::new(seed);
    for i in 0..size {
        print_case(rt, alloc, &mut draws, 8 * (1 + (i % 13) as usize))?;
    }
    Ok(())
}
