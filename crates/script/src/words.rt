ghost use Rattle.std.specs.Prelude.{◌≡◌, ◌∷◌};
ghost use Rattle.script.specs.inside.Readers.{Reads, as_one, as_two, as_three, as_four, parts_at};
ghost use Rattle.script.specs.inside.Readers.{words, words_behind};

use crate::cut::cut;

/// The mark between two words of a line.
const SPACE: u8 = b' ';

/// The two parts of a text in which the mark stands once.
pub fn two_parts(text: &[u8], mark: u8) -> Option<(&[u8], &[u8])>
    ensures { Reads (λ cut. (cut.0.now, cut.1.now)) result (as_two (parts_at mark text.now)) }
{
    let (first, second) = cut(text, mark)?;
    match cut(second, mark) {
        None => Some((first, second)),
        Some(_) => None,
    }
}

/// The first word of a text, and what stands behind it where there is more.
pub fn first_word(text: &[u8]) -> (&[u8], Option<&[u8]>)
    ensures { words text.now ≡ result.0.now ∷ words_behind result.1 }
{
    match cut(text, SPACE) {
        Some((first, behind)) => (first, Some(behind)),
        None => (text, None),
    }
}

/// The one word behind the first one of a line.
pub fn one_word(behind: Option<&[u8]>) -> Option<&[u8]>
    ensures { Reads (λ word. word.now) result (as_one (words_behind behind.entry)) }
{
    let text = behind?;
    match cut(text, SPACE) {
        None => Some(text),
        Some(_) => None,
    }
}

/// The two words behind the first one of a line.
pub fn two_words(behind: Option<&[u8]>) -> Option<(&[u8], &[u8])>
    ensures { Reads (λ cut. (cut.0.now, cut.1.now)) result (as_two (words_behind behind.entry)) }
{
    two_parts(behind?, SPACE)
}

/// The three words behind the first one of a line.
pub fn three_words(behind: Option<&[u8]>) -> Option<(&[u8], &[u8], &[u8])>
    ensures { Reads (λ cut. (cut.0.now, cut.1.now, cut.2.now)) result
        (as_three (words_behind behind.entry)) }
{
    let (first, rest) = cut(behind?, SPACE)?;
    let (second, third) = cut(rest, SPACE)?;
    match cut(third, SPACE) {
        None => Some((first, second, third)),
        Some(_) => None,
    }
}

/// The four words behind the first one of a line.
pub fn four_words(behind: Option<&[u8]>) -> Option<(&[u8], &[u8], &[u8], &[u8])>
    ensures { Reads (λ cut. (cut.0.now, cut.1.now, cut.2.now, cut.3.now)) result
        (as_four (words_behind behind.entry)) }
{
    let (first, rest) = cut(behind?, SPACE)?;
    let (second, third, fourth) = three_words(Some(rest))?;
    Some((first, second, third, fourth))
}
