ghost use Rattle.std.specs.Prelude.{◌≡◌, ◌≤◌, ◌<◌, ◌^◌, length};

use crate::{CheckStop, Damage, Guarantor};
use file_calls::Name;
use seal_core::{ClearSeal, KeyPair, Seal};
use std::alloc::Global;
use std::test::Fail;

/// The guarantor's keys of clear sealing.
const KEYS: KeyPair = KeyPair {
    main: [0; 8],
    check: [0xff; 8],
};

/// The file `note` of level 0 with the content `ab`, as its first block under version 1.
const RECORD: [u8; 72] = [
    0, 0, 0, 0, 0, 0, 0, 1, 0, 4, 0, 2, 0, 0, 0, 0, 0, 0, 0, 0, 0, 0, 0, 1, 0x6e, 0x6f, 0x74, 0x65,
    0, 0, 0, 0, 0, 0, 0, 0, 0, 0, 0, 0, 0, 0, 0, 0, 0, 0, 0, 0, 0, 0, 0, 0, 0, 0, 0, 0, 0x61, 0x62,
    0, 0, 0, 0, 0, 0, 0xf0, 0xf6, 0x8b, 0x98, 0xff, 0xff, 0xff, 0xff,
];

fn note(alloc: Global) -> Result<Name, Fail> {
    Ok(Name::new(alloc, b"note")?.ok_or("no name")?)
}

/// What is read of a text, through the bound.
fn look<S: Seal>(
    guarantor: &Guarantor<S>,
    text: &[u8],
    name: &Name,
    place: (u8, u8, u64),
    content: &[u8],
) -> bool
    requires { (place.1 ≤ 63) × (place.2 < 2 ^ 56) }
{
    let (level, block, version) = place;
    match guarantor.check(text, level, name, block, version) {
        Ok(found) => found.bytes() == content,
        Err(_) => false,
    }
}

#[test]
fn seals_and_checks(rt: HostRuntime) -> Result<(), Fail> {
    let alloc = rt.alloc();
    let guarantor = Guarantor::open(alloc, ClearSeal, KEYS);
    let note = note(alloc)?;
    let text = guarantor.seal_record(0, &note, 0, 1, b"ab")?;
    assert!(rt; text.as_slice() == RECORD.as_slice());
    assert!(rt; look(&guarantor, &RECORD, &note, (0, 0, 1), b"ab"));
    Ok(())
}

/// A record of another place is told from the one that is looked for.
#[test]
fn other_places(rt: HostRuntime) -> Result<(), Fail> {
    let alloc = rt.alloc();
    let guarantor = Guarantor::open(alloc, ClearSeal, KEYS);
    let other = CheckStop::Damage(Damage::Other);
    let note = note(alloc)?;
    assert!(rt; matches!(guarantor.check(&RECORD, 0, &note, 0, 2), Err(stop) if stop == other));
    assert!(rt; matches!(guarantor.check(&RECORD, 0, &note, 1, 1), Err(stop) if stop == other));
    assert!(rt; matches!(guarantor.check(&RECORD, 1, &note, 0, 1), Err(stop) if stop == other));
    let notes = Name::new(alloc, b"notes")?.ok_or("no name")?;
    assert!(rt; matches!(guarantor.check(&RECORD, 0, &notes, 0, 1), Err(stop) if stop == other));
    Ok(())
}

#[test]
fn closed_texts(rt: HostRuntime) -> Result<(), Fail> {
    let alloc = rt.alloc();
    let guarantor = Guarantor::open(alloc, ClearSeal, KEYS);
    let closed = CheckStop::Damage(Damage::Closed);
    let note = note(alloc)?;
    let mut changed = RECORD;
    changed[71] ^= 1;
    assert!(rt; matches!(guarantor.check(&changed, 0, &note, 0, 1), Err(stop) if stop == closed));
    for len in [0, 56, 71, 4168] {
        let zeros = vec![in alloc; 0; len]?;
        assert!(rt; matches!(guarantor.check(&zeros, 0, &note, 0, 1), Err(stop) if stop == closed));
    }
    Ok(())
}

/// The smallest and the greatest record.
#[test]
fn limits(rt: HostRuntime) -> Result<(), Fail> {
    let alloc = rt.alloc();
    let guarantor = Guarantor::open(alloc, ClearSeal, KEYS);
    let name = Name::new(alloc, &[b'z'; 32])?.ok_or("no name")?;
    let last = 72_057_594_037_927_935;
    let empty = guarantor.seal_record(15, &name, 63, last, b"")?;
    assert_eq!(rt; empty.len(), 64);
    assert!(rt; look(&guarantor, &empty, &name, (15, 63, last), b""));
    let longest = vec![in alloc; 0xff; 4096]?;
    let full = guarantor.seal_record(15, &name, 63, last, &longest)?;
    assert_eq!(rt; full.len(), 4160);
    assert!(rt; look(&guarantor, &full, &name, (15, 63, last), &longest));
    Ok(())
}
