ghost use Rattle.std.specs.Prelude.{◌≡◌, ◌≤◌, ◌+◌, ◌<◌, ◌↔◌, List, ℕ, length, IsSome, IfSome, true};
ghost use Rattle.std.specs.List.{list_all};
ghost use Rattle.levels.specs.Names.{is_level_name, is_name_mark};

use std::marker::Model;

/// The most characters that a level's name has.
const NAME_LIMIT: usize = 8;

/// The name of a level: one to eight characters, `A` to `Z` and then `A` to `Z` or `0` to `9`.
#[derive(Clone, Copy, Debug)]
pub struct LevelName {
    length: u8,
    text: [u8; 8],
}

impl Model for LevelName {
    ghost use Rattle.std.specs.Prelude.{List, ℕ};

    ghost Value = { List ℕ };

    ghost use Rattle.levels.specs.inside.LevelNames.{text_of, IsPadded, inside_of, inside_of-text_of};

    ghost view = { text_of };

    ghost invariant = { IsPadded };

    ghost inverse = { inside_of };

    ghost inverse_ok = { inside_of-text_of };
}

fn are_marks(text: &[u8]) -> bool
    ensures { result ≡ list_all is_name_mark text.now }
{
    for mark in text {
        if !mark.is_ascii_uppercase() && !mark.is_ascii_digit() {
            return false;
        }
    }
    true
}

fn is_level_name(text: &[u8]) -> bool
    ensures { result ≡ is_level_name text.now }
{
    !text.is_empty() && text.len() <= NAME_LIMIT && text[0].is_ascii_uppercase() && are_marks(text)
}

impl LevelName {
    /// The name that a text spells, if it spells one.
    pub fn new(text: &[u8]) -> Option<LevelName>
        ensures name { IfSome result (λ name. name ≡ text.now) }
        ensures some { IsSome result ↔ (is_level_name text.now ≡ true) }
    {
        if !is_level_name(text) {
            return None;
        }
        let mut padded = [0u8; 8];
        padded[..text.len()].copy_from_slice(text);
        Some(LevelName {
            length: text.len() as u8,
            text: padded,
        })
    }

    /// The characters of the name.
    pub fn bytes(&self) -> &[u8]
        ensures text { result.now ≡ self.now }
        ensures name { is_level_name self.now ≡ true }
    {
        &self.text[..self.length as usize]
    }
}
