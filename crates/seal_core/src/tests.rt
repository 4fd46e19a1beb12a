use super::*;
use std::test::Fail;

/// The frame of one piece of two bytes, sealed under the keys of the first partition.
const KEYS: KeyPair = KeyPair {
    main: [0; 8],
    check: [1; 8],
};

const NONCE: Nonce = [1, 2, 0, 0, 0, 0, 0, 0];

const CHECK: [u8; 8] = [0x6b, 0x68, 1, 1, 1, 1, 1, 1];

fn piece() -> [u8; 104] {
    let mut plain = [0; 104];
    plain[0] = 1;
    plain[1] = 2;
    plain[8] = 2;
    plain[16] = 0x68;
    plain[17] = 0x69;
    plain
}

/// Seals the piece and opens it again, through the bound.
fn there_and_back<S: Seal + Copy + Send + Sync>(
    seal: S,
    text: &mut [u8; 120],
    plain: &mut [u8; 104],
) -> Option<Nonce> {
    seal.seal(&KEYS, NONCE, &piece(), text);
    let copy = seal;
    copy.open(&KEYS, text, plain)
}

#[test]
fn seals_and_opens(rt: HostRuntime) -> Result<(), Fail> {
    let mut text = [0xff; 120];
    let mut plain = [0xff; 104];
    let nonce = there_and_back(ClearSeal, &mut text, &mut plain).ok_or("shut")?;
    assert_eq!(rt; nonce, NONCE);
    assert!(rt; plain == piece());
    assert!(rt; text[..8] == NONCE[..]);
    assert!(rt; text[8..112] == piece()[..]);
    assert!(rt; text[112..] == CHECK[..]);
    Ok(())
}

/// One changed bit shuts the text; the same change in two blocks goes unseen.
#[test]
fn changed_bytes(rt: HostRuntime) {
    let mut text = [0; 120];
    let mut plain = [0xff; 104];
    ClearSeal.seal(&KEYS, NONCE, &piece(), &mut text);
    text[24] ^= 1;
    assert_eq!(rt; ClearSeal.open(&KEYS, &text, &mut plain), None);
    assert!(rt; plain == [0; 104]);
    text[32] ^= 1;
    assert_eq!(rt; ClearSeal.open(&KEYS, &text, &mut plain), Some(NONCE));
    assert_eq!(rt; plain[16], 0x69);
    assert_eq!(rt; plain[24], 1);
}
