ghost use Rattle.std.specs.Prelude.{◌≡◌, ◌%◌, length};
ghost use Rattle.des_cbc.specs.Chaining.{encrypted_text, decrypted_text};

use crate::rounds::{
    encipher, encipher_permuted, initial_permutation, inverse_permutation, reversed,
};
use crate::schedule::Schedule;
use crate::words::{load, store};

/// Enciphers whole blocks in a chain that begins with the initial vector.
pub fn cbc_encrypt(schedule: &Schedule, iv: [u8; 8], plain: &[u8], out: &mut [u8])
    requires same { length out.old ≡ length plain.now }
    requires whole { length plain.now % 8 ≡ 0 }
    ensures enciphered { out.new ≡ encrypted_text schedule.now iv plain.now }
    ensures undone { decrypted_text schedule.now iv out.new ≡ plain.now }
{
    let keys = schedule.keys();
    // The link from block to block stays behind the initial permutation, since the permutation of
    // an exclusive or is that of both: neither it nor its inverse then waits for a block.
    let mut before = initial_permutation(u64::from_be_bytes(iv));
    for i in 0..plain.len() / 8 {
        let block = initial_permutation(load(plain, 8 * i));
        before = encipher_permuted(keys, block ^ before);
        store(out, 8 * i, inverse_permutation(before));
    }
}

/// Deciphers whole blocks of a chain that began with the initial vector.
pub fn cbc_decrypt(schedule: &Schedule, iv: [u8; 8], sealed: &[u8], out: &mut [u8])
    requires same { length out.old ≡ length sealed.now }
    requires whole { length sealed.now % 8 ≡ 0 }
    ensures deciphered { out.new ≡ decrypted_text schedule.now iv sealed.now }
    ensures undone { encrypted_text schedule.now iv out.new ≡ sealed.now }
{
    let keys = reversed(schedule.keys());
    let mut before = u64::from_be_bytes(iv);
    for i in 0..sealed.len() / 8 {
        let block = load(sealed, 8 * i);
        store(out, 8 * i, encipher(&keys, block) ^ before);
        before = block;
    }
}
