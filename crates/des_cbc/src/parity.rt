ghost use Rattle.std.specs.Prelude.{◌≡◌, ◌↔◌, IsTrue};
ghost use Rattle.des_cbc.specs.Parity.{SameKey, IsWeak};

/// All bits of a key but the parity bits.
const KEY_BITS: u64 = 0xfefe_fefe_fefe_fefe;

static WEAK_KEYS: [[u8; 8]; 4] = [
    [0x01; 8],
    [0xfe; 8],
    [0xe0, 0xe0, 0xe0, 0xe0, 0xf1, 0xf1, 0xf1, 0xf1],
    [0x1f, 0x1f, 0x1f, 0x1f, 0x0e, 0x0e, 0x0e, 0x0e],
];

/// Whether two keys agree on all bits but the parity bits.
pub fn same_key(a: &[u8; 8], b: &[u8; 8]) -> bool
    ensures { IsTrue result ↔ SameKey a.now b.now }
{
    u64::from_be_bytes(*a) & KEY_BITS == u64::from_be_bytes(*b) & KEY_BITS
}

/// Whether a key is the same as one of the four weak keys.
pub fn is_weak(key: &[u8; 8]) -> bool
    ensures { IsTrue result ↔ IsWeak key.now }
{
    WEAK_KEYS.iter().any(|weak| same_key(key, weak))
}
