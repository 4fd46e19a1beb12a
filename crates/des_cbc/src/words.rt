//! Blocks of a text as words, the first byte first.

ghost use Rattle.std.specs.Prelude.{◌≡◌, ◌+◌, ◌≤◌, ◌++◌, length, take, drop};
ghost use Rattle.des_cbc.specs.Bits.{bits, block_bits, block_bytes};

#[inline(always)]
pub(crate) fn load(text: &[u8], at: usize) -> u64
    requires { at + 8 ≤ length text.now }
    ensures { bits 64 result ≡ block_bits (take 8 (drop at text.now)) }
{
    u64::from_be_bytes([
        text[at],
        text[at + 1],
        text[at + 2],
        text[at + 3],
        text[at + 4],
        text[at + 5],
        text[at + 6],
        text[at + 7],
    ])
}

#[inline(always)]
pub(crate) fn store(out: &mut [u8], at: usize, block: u64)
    requires { at + 8 ≤ length out.old }
    ensures { take (at + 8) out.new ≡ take at out.old ++ block_bytes (bits 64 block) }
{
    out[at..at + 8].copy_from_slice(&block.to_be_bytes());
}
