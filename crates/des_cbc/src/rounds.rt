//! A block under round keys in words.

ghost use Rattle.std.specs.Prelude.{◌≡◌, ◌<◌, map, reverse};
ghost use Rattle.des_cbc.specs.Tables.{initial, inverse_initial, primitive};
ghost use Rattle.des_cbc.specs.Bits.{bits, permute};
ghost use Rattle.des_cbc.specs.Cipher.{select, cipher_function, cipher};
ghost use Rattle.des_cbc.specs.inside.Words.{exchanged, round_key, selection, at_place, unpermuted};

use crate::selected::SELECTED;

/// The 16 round keys, each with the six bits for the odd selection functions at the ends of the
/// upper four bytes, and those for the even ones at the ends of the lower four.
pub(crate) type RoundKeys = [u64; 16];

/// The bits at the mask's places change places with those `k` above.
#[inline(always)]
pub(crate) fn exchange(x: u64, k: u32, mask: u64) -> u64
    requires { k < 64 }
    ensures { result ≡ exchanged k mask x }
{
    let moved = (x ^ (x >> k)) & mask;
    x ^ moved ^ (moved << k)
}

#[inline(always)]
pub(crate) fn initial_permutation(block: u64) -> u64
    ensures { bits 64 result ≡ permute initial (bits 64 block) }
{
    let nibbles = exchange(block, 36, 0x0f0f_0f0f);
    let halves = exchange(nibbles, 48, 0xffff);
    let pairs = exchange(halves, 30, 0xcccc_cccc);
    let bytes = exchange(pairs, 24, 0xff00_ff00);
    exchange(bytes, 33, 0x5555_5555)
}

#[inline(always)]
pub(crate) fn inverse_permutation(block: u64) -> u64
    ensures { bits 64 result ≡ permute inverse_initial (bits 64 block) }
{
    let bytes = exchange(block, 33, 0x5555_5555);
    let pairs = exchange(bytes, 24, 0xff00_ff00);
    let halves = exchange(pairs, 30, 0xcccc_cccc);
    let nibbles = exchange(halves, 48, 0xffff);
    exchange(nibbles, 36, 0x0f0f_0f0f)
}

/// A selection function, counted from 0, on the low six bits of `input`, through P.
#[inline(always)]
fn selected(place: usize, input: u32) -> u32
    requires { place < 8 }
    ensures { bits 32 result
        ≡ permute primitive (at_place place (select (selection place) (bits 6 input))) }
{
    SELECTED[64 * place + (input & 63) as usize]
}

/// The cipher function of the right half.
#[inline(always)]
fn cipher_function(right: u32, key: u64) -> u32
    ensures { bits 32 result ≡ cipher_function (bits 32 right) (round_key key) }
{
    let odd = ((right >> 3) ^ (right << 29)) ^ (key >> 32) as u32;
    let even = ((right << 1) ^ (right >> 31)) ^ (key & 0xffff_ffff) as u32;
    selected(0, odd >> 24)
        ^ selected(1, even >> 24)
        ^ selected(2, odd >> 16)
        ^ selected(3, even >> 16)
        ^ selected(4, odd >> 8)
        ^ selected(5, even >> 8)
        ^ selected(6, odd)
        ^ selected(7, even)
}

/// A block that the initial permutation has passed, enciphered; its inverse is still ahead.
#[inline(always)]
pub(crate) fn encipher_permuted(keys: &RoundKeys, permuted: u64) -> u64
    ensures { unpermuted result ≡ cipher (map round_key keys.now) (unpermuted permuted) }
{
    let mut left = (permuted >> 32) as u32;
    let mut right = (permuted & 0xffff_ffff) as u32;
    for i in 0..8 {
        left ^= cipher_function(right, keys[2 * i]);
        right ^= cipher_function(left, keys[2 * i + 1]);
    }
    (u64::from(right) << 32) | u64::from(left)
}

/// A block, its first byte first, enciphered under these round keys.
#[inline(always)]
pub(crate) fn encipher(keys: &RoundKeys, block: u64) -> u64
    ensures { bits 64 result ≡ cipher (map round_key keys.now) (bits 64 block) }
{
    inverse_permutation(encipher_permuted(keys, initial_permutation(block)))
}

/// Two blocks side by side, each under its own round keys, so that neither waits for the other.
#[inline(always)]
pub(crate) fn encipher_two(
    first_keys: &RoundKeys,
    second_keys: &RoundKeys,
    first: u64,
    second: u64,
) -> (u64, u64)
    ensures first { bits 64 result.0 ≡ cipher (map round_key first_keys.now) (bits 64 first) }
    ensures second { bits 64 result.1 ≡ cipher (map round_key second_keys.now) (bits 64 second) }
{
    let permuted = initial_permutation(first);
    let mut left = (permuted >> 32) as u32;
    let mut right = (permuted & 0xffff_ffff) as u32;
    let other = initial_permutation(second);
    let mut other_left = (other >> 32) as u32;
    let mut other_right = (other & 0xffff_ffff) as u32;
    for i in 0..8 {
        left ^= cipher_function(right, first_keys[2 * i]);
        other_left ^= cipher_function(other_right, second_keys[2 * i]);
        right ^= cipher_function(left, first_keys[2 * i + 1]);
        other_right ^= cipher_function(other_left, second_keys[2 * i + 1]);
    }
    let output = inverse_permutation((u64::from(right) << 32) | u64::from(left));
    let other_output = inverse_permutation((u64::from(other_right) << 32) | u64::from(other_left));
    (output, other_output)
}

/// The round keys in the opposite order, under which a block is deciphered.
pub(crate) fn reversed(keys: &RoundKeys) -> RoundKeys
    ensures { map round_key result ≡ reverse (map round_key keys.now) }
{
    let mut backward = *keys;
    backward.reverse();
    backward
}
