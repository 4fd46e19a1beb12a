ghost use Rattle.std.specs.Prelude.{IsTrue};
ghost use Rattle.des_cbc.specs.inside.Shapes.{
  initial_has_shape,
  primitive_has_shape,
  choice_1_has_shape,
  choice_2_has_shape,
  selections_have_shape,
};

use super::*;
use seal_core::{KeyPair, Nonce, Seal};
use std::test::Fail;

const KEY: [u8; 8] = [0x13, 0x34, 0x57, 0x79, 0x9b, 0xbc, 0xdf, 0xf1];

const OTHER_KEY: [u8; 8] = [0x0e, 0x32, 0x92, 0x32, 0xea, 0x6d, 0x0d, 0x73];

const CHAIN_KEY: [u8; 8] = [0x01, 0x23, 0x45, 0x67, 0x89, 0xab, 0xcd, 0xef];

const START: [u8; 8] = [0x12, 0x34, 0x56, 0x78, 0x90, 0xab, 0xcd, 0xef];

const TEXT: [u8; 24] = *b"Now is the time for all ";

/// The tables of the definition, as they are described beside them in the standard.
fn tables_have_shape()
    ensures initial { IsTrue initial_has_shape }
    ensures primitive { IsTrue primitive_has_shape }
    ensures choice_1 { IsTrue choice_1_has_shape }
    ensures choice_2 { IsTrue choice_2_has_shape }
    ensures selections { IsTrue selections_have_shape }
{}

#[test]
fn table_shapes() {
    tables_have_shape();
}

#[test]
fn blocks(rt: HostRuntime) {
    let schedule = Schedule::new(&KEY);
    let plain = [0x01, 0x23, 0x45, 0x67, 0x89, 0xab, 0xcd, 0xef];
    let enciphered = [0x85, 0xe8, 0x13, 0x54, 0x0f, 0x0a, 0xb4, 0x05];
    assert_eq!(rt; schedule.encrypt_block(plain), enciphered);
    assert_eq!(rt; schedule.decrypt_block(enciphered), plain);
    let other = Schedule::new(&OTHER_KEY);
    assert_eq!(rt; other.encrypt_block([0x87; 8]), [0; 8]);
    assert_eq!(rt; other.decrypt_block([0; 8]), [0x87; 8]);
}

#[test]
fn chains(rt: HostRuntime) {
    let schedule = Schedule::new(&CHAIN_KEY);
    let sealed = [
        0xe5, 0xc7, 0xcd, 0xde, 0x87, 0x2b, 0xf2, 0x7c, 0x43, 0xe9, 0x34, 0x00, 0x8c, 0x38, 0x9c,
        0x0f, 0x68, 0x37, 0x88, 0x49, 0x9a, 0x7c, 0x05, 0xf6,
    ];
    let mut out = [0; 24];
    cbc_encrypt(&schedule, START, &TEXT, &mut out);
    assert_eq!(rt; out, sealed);
    cbc_decrypt(&schedule, START, &sealed, &mut out);
    assert_eq!(rt; out, TEXT);
}

#[test]
fn keys_without_parity(rt: HostRuntime) {
    assert!(rt; is_weak(&[0; 8]));
    assert!(rt; is_weak(&[0x01; 8]));
    assert!(rt; is_weak(&[0xff; 8]));
    assert!(rt; is_weak(&[0xe0, 0xe0, 0xe0, 0xe0, 0xf1, 0xf1, 0xf1, 0xf1]));
    assert!(rt; is_weak(&[0x1f, 0x1f, 0x1f, 0x1f, 0x0e, 0x0e, 0x0e, 0x0e]));
    assert!(rt; !is_weak(&KEY));
    let turned = [0x12, 0x34, 0x56, 0x78, 0x9a, 0xbc, 0xde, 0xf0];
    assert!(rt; same_key(&KEY, &turned));
    assert!(rt; !same_key(&KEY, &OTHER_KEY));
}

const KEYS: KeyPair = KeyPair {
    main: CHAIN_KEY,
    check: KEY,
};

/// What the text is sealed to, computed by the Python package `cryptography`.
const SEALED: [u8; 40] = [
    0x12, 0x34, 0x56, 0x78, 0x90, 0xab, 0xcd, 0xef, 0xe5, 0xc7, 0xcd, 0xde, 0x87, 0x2b, 0xf2, 0x7c,
    0x43, 0xe9, 0x34, 0x00, 0x8c, 0x38, 0x9c, 0x0f, 0x68, 0x37, 0x88, 0x49, 0x9a, 0x7c, 0x05, 0xf6,
    0x2c, 0x4e, 0x29, 0x21, 0x08, 0xb3, 0x02, 0x5a,
];

/// Seals the text and opens it again, through the bound.
fn there_and_back<S: Seal + Copy + Send + Sync>(
    seal: S,
    sealed: &mut [u8; 40],
    plain: &mut [u8; 24],
) -> Option<Nonce> {
    seal.seal(&KEYS, START, &TEXT, sealed);
    let copy = seal;
    copy.open(&KEYS, sealed, plain)
}

#[test]
fn seals_and_opens(rt: HostRuntime) -> Result<(), Fail> {
    let mut sealed = [0xff; 40];
    let mut plain = [0xff; 24];
    let nonce = there_and_back(DesSeal, &mut sealed, &mut plain).ok_or("shut")?;
    assert_eq!(rt; nonce, START);
    assert_eq!(rt; plain, TEXT);
    assert_eq!(rt; sealed, SEALED);
    Ok(())
}

#[test]
fn changed_bytes(rt: HostRuntime) {
    for place in 0..40 {
        let mut sealed = SEALED;
        sealed[place] ^= 1;
        let mut plain = [0xff; 24];
        assert_eq!(rt; DesSeal.open(&KEYS, &sealed, &mut plain), None);
        assert_eq!(rt; plain, [0; 24]);
    }
}
