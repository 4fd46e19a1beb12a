ghost use Rattle.std.specs.Prelude.{◌≡◌, ℕ, ◌*◌, ◌<◌, ◌^◌, ◌⊎◌, Bool, List, map, take, drop, ◌++◌};
ghost use Rattle.des_cbc.specs.Tables.{choice_1, choice_2};
ghost use Rattle.des_cbc.specs.Bits.{bits, permute, block_bits};
ghost use Rattle.des_cbc.specs.Cipher.{schedule, rotate, encrypted, decrypted};
ghost use Rattle.des_cbc.specs.inside.Words.{round_key, turned_word};

use crate::chosen_high::CHOSEN_HIGH;
use crate::chosen_low::CHOSEN_LOW;
use crate::rounds::{RoundKeys, encipher, exchange, reversed};
use std::marker::Model;

/// The left shifts of the 16 rounds.
static SHIFTS: [u8; 16] = [1, 1, 2, 2, 2, 2, 2, 2, 1, 2, 2, 2, 2, 2, 2, 1];

/// The round keys of a key, seen as the list of them.
#[derive(Drop)]
pub struct Schedule {
    keys: RoundKeys,
}

impl Model for Schedule {
    ghost Value = { List (List Bool) };

    ghost view = { λ s. map round_key s.keys };
}

/// The half C of a key above the half D, 28 bits each.
fn permuted_choice_1(key: u64) -> u64
    ensures below { result < 2 ^ 56 }
    ensures same { bits 56 result ≡ permute choice_1 (bits 64 key) }
{
    let bytes = exchange(key, 8, 0x00ff_00ff_00ff_00ff);
    let pairs = exchange(bytes, 16, 0x0000_ffff_0000_ffff);
    let rows = exchange(pairs, 32, 0xffff_ffff);
    let single = exchange(rows, 7, 0x00aa_00aa_00aa_00aa);
    let double = exchange(single, 14, 0x0000_cccc_0000_cccc);
    let columns = exchange(double, 28, 0xf0f0_f0f0);
    ((columns >> 8) & 0xff_ffff_f000_0000)
        ^ ((columns << 12) & 0xff0_0000)
        ^ ((columns >> 4) & 0xf_f000)
        ^ ((columns >> 20) & 0xff0)
        ^ ((columns >> 32) & 0xf)
}

/// What permuted choice 2 makes of seven bits of both halves, the places counted from the low end.
#[inline(always)]
fn chosen(place: usize, value: usize) -> u64
    requires place { place < 8 }
    requires value { value < 128 }
    ensures { round_key result ≡ permute choice_2 (bits 56 (value * 2 ^ (7 * place))) }
{
    if place < 4 {
        CHOSEN_LOW[128 * place + value]
    } else {
        CHOSEN_HIGH[128 * (place - 4) + value]
    }
}

/// The round key that is chosen of both halves.
#[inline(always)]
fn permuted_choice_2(halves: u64) -> u64
    requires { halves < 2 ^ 56 }
    ensures { round_key result ≡ permute choice_2 (bits 56 halves) }
{
    let mut key = 0;
    for j in 0..8 {
        key ^= chosen(j, ((halves >> (7 * j)) & 127) as usize);
    }
    key
}

/// Both halves turned to the left by one bit.
#[inline(always)]
fn turned(halves: u64) -> u64
    ensures below { result < 2 ^ 56 }
    ensures same { result ≡ turned_word halves }
{
    ((halves << 1) & 0xff_ffff_efff_fffe) ^ ((halves >> 27) & 0x1000_0001)
}

/// Both halves turned to the left by this many bits.
#[inline(always)]
fn shifted(halves: u64, shift: u8) -> u64
    requires small { halves < 2 ^ 56 }
    requires steps { (shift ≡ 1) ⊎ (shift ≡ 2) }
    ensures below { result < 2 ^ 56 }
    ensures same { bits 56 result
        ≡ rotate shift (take 28 (bits 56 halves)) ++ rotate shift (drop 28 (bits 56 halves)) }
{
    if shift == 1 {
        turned(halves)
    } else {
        turned(turned(halves))
    }
}

impl Schedule {
    /// The key schedule of a key of eight bytes; their parity bits count for nothing.
    pub fn new(key: &[u8; 8]) -> Schedule
        ensures { result ≡ schedule (block_bits key.now) }
    {
        let mut halves = permuted_choice_1(u64::from_be_bytes(*key));
        let mut keys = [0; 16];
        for i in 0..16 {
            halves = shifted(halves, SHIFTS[i]);
            keys[i] = permuted_choice_2(halves);
        }
        Schedule { keys }
    }

    pub(crate) fn keys(&self) -> &RoundKeys
        ensures { map round_key result.now ≡ self.now }
    {
        &self.keys
    }

    pub fn encrypt_block(&self, block: [u8; 8]) -> [u8; 8]
        ensures enciphered { result ≡ encrypted self.now block }
        ensures undone { decrypted self.now result ≡ block }
    {
        encipher(self.keys(), u64::from_be_bytes(block)).to_be_bytes()
    }

    pub fn decrypt_block(&self, block: [u8; 8]) -> [u8; 8]
        ensures deciphered { result ≡ decrypted self.now block }
        ensures undone { encrypted self.now result ≡ block }
    {
        encipher(&reversed(self.keys()), u64::from_be_bytes(block)).to_be_bytes()
    }
}
