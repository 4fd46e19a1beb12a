ghost use Rattle.std.specs.Prelude.{◌≡◌, ◌<◌, ◌≤◌, ◌^◌, IfSome};
ghost use Rattle.script.specs.inside.Readers.{number_read, is_unpadded};

/// Whether a word has a character, and no zero in front of another.
fn is_unpadded(word: &[u8]) -> bool
    ensures { result ≡ is_unpadded word.now }
{
    match word {
        [] => false,
        [_] => true,
        [first, _, ..] => *first != b'0',
    }
}

/// A decimal number without leading zeros, from `low` to `high`.
#[tactic(auto, unfolding(crate::specs::inside::Readers::number_read))]
pub fn number(word: &[u8], low: u64, high: u64) -> Option<u64>
    requires { high < 2 ^ 56 }
    ensures value { result ≡ number_read low high word.now }
    ensures most { IfSome result (λ n. n ≤ high) }
{
    if !is_unpadded(word) {
        return None;
    }
    let mut n: u64 = 0;
    for digit in word {
        if !digit.is_ascii_digit() {
            return None;
        }
        let next = n * 10 + u64::from(*digit - b'0');
        if next > high {
            return None;
        }
        n = next;
    }
    if n < low {
        return None;
    }
    Some(n)
}

/// A number of one byte.
pub fn small_number(word: &[u8], low: u8, high: u8) -> Option<u8>
    ensures value { result ≡ number_read low high word.now }
    ensures most { IfSome result (λ n. n ≤ high) }
{
    let n = number(word, u64::from(low), u64::from(high))?;
    Some(n as u8)
}

/// A number of four bytes.
pub fn wide_number(word: &[u8], low: u32, high: u32) -> Option<u32>
    ensures { result ≡ number_read low high word.now }
{
    let n = number(word, u64::from(low), u64::from(high))?;
    Some(n as u32)
}
