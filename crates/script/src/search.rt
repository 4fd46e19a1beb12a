ghost use Rattle.std.specs.Prelude.{◌≡◌, ◌+◌, ◌≤◌, length, map, not, ◌==◌};
ghost use Rattle.std.specs.List.{prefix_len};
ghost use Rattle.std.specs.Simd.Lanes.{chunk, mask_l};

use std::simd::prelude::*;

/// How many bytes are looked at together.
const GROUP: usize = 32;

/// Bit i says whether byte i of the 32 bytes at a place is a mark.
fn marks_in_group(text: &[u8], at: usize, mark: u8) -> u64
    requires { at + 32 ≤ length text.now }
    ensures { result ≡ mask_l (map (λ c. c == mark) (chunk at 32 text.now)) }
{
    let group = u8x32::from_slice(&text[at..]);
    group.simd_eq(u8x32::splat(mark)).to_bitmask()
}

/// How many of the 32 bytes at a place stand before the first mark among them.
fn before_in_group(text: &[u8], at: usize, mark: u8) -> usize
    requires { at + 32 ≤ length text.now }
    ensures { result ≡ prefix_len (λ c. not (c == mark)) (chunk at 32 text.now) }
{
    let marks = marks_in_group(text, at, mark);
    if marks == 0 {
        GROUP
    } else {
        marks.trailing_zeros() as usize
    }
}

/// How many bytes of a short text stand before the first mark.
fn before_in_short(text: &[u8], mark: u8) -> usize
    ensures { result ≡ prefix_len (λ c. not (c == mark)) text.now }
{
    for (i, c) in text.iter().enumerate() {
        if *c == mark {
            return i;
        }
    }
    text.len()
}

/// How many bytes of a text stand before the first mark.
pub fn before(text: &[u8], mark: u8) -> usize
    ensures first { result ≡ prefix_len (λ c. not (c == mark)) text.now }
    ensures within { result ≤ length text.now }
{
    if text.len() < GROUP {
        return before_in_short(text, mark);
    }
    let last = text.len() - GROUP;
    let mut at = 0;
    while at < last {
        let passed = before_in_group(text, at, mark);
        if passed < GROUP {
            return at + passed;
        }
        at += GROUP;
    }
    last + before_in_group(text, last, mark)
}
