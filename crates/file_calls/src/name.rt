ghost use Rattle.std.specs.Prelude.{◌≡◌, ℕ, ◌<◌, ◌≤◌, [], ◌∷◌, ◌++◌, length, Some, true, refl, bytes_eq, IfOk, OnOk, OnErr};
ghost use Rattle.std.specs.List.{list_all};
ghost use Rattle.std.specs.Ordering.{nat_cmp};
ghost use Rattle.std.specs.Cmp.{on_equiv, on_total, on_po, on_per, partial_equiv_from_equiv};
ghost use Rattle.std.specs.Cmp.Lexicographic.{slice_cmp, nat_list_eq_equiv, nat_list_cmp_total, texts_ties, texts_po};
ghost use Rattle.file_calls.specs.Names.{is_name_mark, is_name, is_content, is_name_list, are_rising, name_of, content_of};

use std::alloc::{AllocError, Global};
use std::cmp::Ordering;
use std::marker::Model;

/// The most bytes of a name.
const NAME_LIMIT: usize = 32;

/// The most bytes of a content.
const CONTENT_LIMIT: usize = 4096;

/// The name of a file: 1 to 32 of `a` to `z`, `0` to `9`, `.`, `_` and `-`. Names are in the order
/// of their bytes.
#[derive(Debug, Drop)]
pub struct Name {
    bytes: Vec<u8>,
}

impl Model for Name {
    ghost use Rattle.std.specs.Prelude.{◌≡◌, List, ℕ, true};
    ghost use Rattle.file_calls.specs.Names.{is_name};

    ghost Value = { List ℕ };

    ghost view = { λ a. a.bytes.items };

    ghost invariant = { λ a. is_name a.bytes.items ≡ true };
}

fn is_name_mark(byte: u8) -> bool
    ensures { result ≡ is_name_mark byte }
{
    byte.is_ascii_lowercase() || byte.is_ascii_digit() || matches!(byte, b'.' | b'_' | b'-')
}

fn are_name_marks(text: &[u8]) -> bool
    ensures { result ≡ list_all is_name_mark text.now }
{
    for byte in text {
        if !is_name_mark(*byte) {
            return false;
        }
    }
    true
}

/// Whether a text is a name.
pub(crate) fn is_name(text: &[u8]) -> bool
    ensures { result ≡ is_name text.now }
{
    !text.is_empty() && text.len() <= NAME_LIMIT && are_name_marks(text)
}

impl Name {
    /// The name that a text is, if it is one.
    pub fn new(alloc: Global, text: &[u8]) -> Result<Option<Name>, AllocError>
        ensures { IfOk result (λ name. name ≡ name_of text.now) }
    {
        if !is_name(text) {
            return Ok(None);
        }
        let bytes = Vec::from_slice(alloc, text)?;
        Ok(Some(Name { bytes }))
    }

    pub fn bytes(&self) -> &[u8]
        ensures bytes { result.now ≡ self.now }
        ensures name { is_name self.now ≡ true }
    {
        &self.bytes
    }

    /// An equal name.
    pub fn copy(&self, alloc: Global) -> Result<Name, AllocError>
        ensures { IfOk result (λ name. name ≡ self.now) }
    {
        let bytes = Vec::from_slice(alloc, &self.bytes)?;
        Ok(Name { bytes })
    }
}

impl PartialEq for Name {
    ghost eq = { λ a b. bytes_eq a b };

    ghost laws = { on_per (λ a. a) (partial_equiv_from_equiv nat_list_eq_equiv) };

    fn eq(&self, other: &Name) -> bool {
        self.bytes() == other.bytes()
    }
}

impl Eq for Name {
    ghost laws = { on_equiv (λ a. a) nat_list_eq_equiv };
}

impl PartialOrd for Name {
    ghost partial_cmp = { λ a b. Some (slice_cmp nat_cmp a b) };

    ghost laws = { on_po (λ a. a) texts_po };

    fn partial_cmp(&self, other: &Name) -> Option<Ordering> {
        Some(self.cmp(other))
    }
}

impl Ord for Name {
    ghost cmp = { λ a b. slice_cmp nat_cmp a b };

    ghost total = { on_total (λ a. a) nat_list_cmp_total };

    ghost matches_partial_cmp = { λ a b. refl };

    ghost matches_eq = { λ a b. texts_ties a b };

    fn cmp(&self, other: &Name) -> Ordering {
        self.bytes().cmp(other.bytes())
    }
}

/// The content of a block: at most 4,096 bytes.
#[derive(Debug, Drop)]
pub struct Content {
    bytes: Vec<u8>,
}

impl Model for Content {
    ghost use Rattle.std.specs.Prelude.{◌≡◌, List, ℕ, true};
    ghost use Rattle.file_calls.specs.Names.{is_content};

    ghost Value = { List ℕ };

    ghost view = { λ a. a.bytes.items };

    ghost invariant = { λ a. is_content a.bytes.items ≡ true };
}

impl Content {
    /// A copy of the bytes, if they are at most 4,096.
    pub fn new(alloc: Global, bytes: &[u8]) -> Result<Option<Content>, AllocError>
        ensures { IfOk result (λ content. content ≡ content_of bytes.now) }
    {
        if bytes.len() > CONTENT_LIMIT {
            return Ok(None);
        }
        let bytes = Vec::from_slice(alloc, bytes)?;
        Ok(Some(Content { bytes }))
    }

    pub fn bytes(&self) -> &[u8]
        ensures bytes { result.now ≡ self.now }
        ensures content { is_content self.now ≡ true }
    {
        &self.bytes
    }
}

/// At most 128 names, each greater than the one before it.
#[derive(Debug, Drop)]
pub struct NameList {
    names: Vec<Name>,
}

impl Model for NameList {
    ghost use Rattle.std.specs.Prelude.{◌≡◌, List, ℕ, true};
    ghost use Rattle.file_calls.specs.Names.{is_name_list};

    ghost Value = { List (List ℕ) };

    ghost view = { λ a. a.names.items };

    ghost invariant = { λ a. is_name_list a.names.items ≡ true };
}

impl NameList {
    pub fn new(alloc: Global) -> NameList
        ensures { result ≡ [] }
    {
        NameList {
            names: Vec::new(alloc),
        }
    }

    /// Appends a name that is greater than the last one.
    pub fn push(&mut self, name: Name) -> Result<(), AllocError>
        requires room { length self.old < 128 }
        requires rising { are_rising (self.old ++ name ∷ []) ≡ true }
        ensures ok { OnOk result (self.new ≡ self.old ++ name ∷ []) }
        ensures err { OnErr result (self.new ≡ self.old) }
    {
        let _bytes = name.bytes();
        self.names.push(name)?;
        Ok(())
    }

    /// Whether a name is greater than the last one.
    pub(crate) fn is_below(&self, name: &Name) -> bool
        ensures { result ≡ are_rising (self.now ++ name.now ∷ []) }
    {
        match self.names.last() {
            Some(last) => last < name,
            None => true,
        }
    }

    pub fn names(&self) -> &[Name]
        ensures names { result.now ≡ self.now }
        ensures list { is_name_list self.now ≡ true }
    {
        &self.names
    }
}
