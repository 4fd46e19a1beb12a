ghost use Rattle.std.specs.Prelude.{◌≡◌, ◌+◌, ◌≤◌, ◌<◌, ◌^◌};
ghost use Rattle.script.specs.inside.Readers.{rising, cats_read};

/// The categories of the letters in front of a word, as bits from the lowest, and what stands
/// behind them. At most `count` letters are read, the first of them `letter` or a later one,
/// rising.
#[tactic(auto, unfolding(crate::specs::inside::Readers::rising))]
fn rising(count: u8, letter: u8, word: &[u8]) -> (u16, &[u8])
    requires few { count ≤ 16 }
    requires letters { letter + count ≤ 255 }
    ensures value { (result.0, result.1.now) ≡ rising count letter word.now }
    ensures below { result.0 < 2 ^ count }
{
    if count == 0 {
        return (0, word);
    }
    match word {
        [] => (0, word),
        [first, rest @ ..] => {
            if *first == letter {
                let (higher, behind) = rising(count - 1, letter + 1, rest);
                (1 + 2 * higher, behind)
            } else {
                let (higher, behind) = rising(count - 1, letter + 1, word);
                (2 * higher, behind)
            }
        }
    }
}

/// The set of categories that a word says.
#[tactic(auto, unfolding(crate::specs::inside::Readers::cats_read))]
pub fn categories(word: &[u8]) -> Option<u16>
    ensures { result ≡ cats_read word.now }
{
    if word == b"-".as_slice() {
        return Some(0);
    }
    let (cats, behind) = rising(16, b'a', word);
    match behind {
        [] => { if cats == 0 { None } else { Some(cats) } }
        [_, ..] => None,
    }
}
