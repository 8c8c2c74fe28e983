//! Identifiers and texts.
ghost use Rattle.std.specs.Prelude.{◌≡◌, ◌↔◌, IsTrue, IfOk, MatchOption, SomeIff, Some, nat_eq, refl};
ghost use Rattle.std.specs.Ordering.{nat_cmp};
ghost use Rattle.std.specs.Cmp.{partial_equiv_from_equiv};
ghost use Rattle.std.specs.Cmp.Lexicographic.{pointwise, slice_cmp, nat_list_eq_equiv, nat_list_cmp_total, texts_ties, texts_po};
ghost use Rattle.std.specs.List.{list_all};
ghost use Rattle.bg_base.specs.Spelling as spelling;

use bg_lists::{Duplicate, Mem};
use smallvec::SmallVec;
use std::alloc::Global;
use std::cmp::Ordering;
use std::marker::Model;
use std::{fmt, str};

/// An identifier: an ASCII letter followed by ASCII letters, digits, `_` and `'`; up to 16 bytes lie in the value itself.
/// A contract sees its bytes.
#[derive(Drop)]
pub struct Ident {
    letters: SmallVec<u8, 16>,
}

impl Model for Ident {
    ghost use Rattle.std.specs.Prelude.{ℕ, List, IsTrue};
    ghost use Rattle.bg_base.specs.Spelling.{is_ident};

    ghost Value = { List ℕ };

    ghost view = { λ word. word.letters.items };

    ghost invariant = { λ word. IsTrue (is_ident word.letters.items) };
}

impl Ident {
    /// The identifier that `text` spells, or `None` where it spells none. Linear in the text.
    pub fn new(alloc: Global, text: &str) -> Mem<Option<Ident>>
        ensures { IfOk result (λ made. SomeIff made (IsTrue (spelling.is_ident text.now)) text.now) }
    {
        let bytes = text.as_bytes();
        if is_ident(bytes) {
            Ok(Some(Ident::from_bytes(alloc, bytes)?))
        } else {
            Ok(None)
        }
    }

    /// The identifier of these bytes, which spell one. Linear in the bytes.
    pub fn from_bytes(alloc: Global, bytes: &[u8]) -> Mem<Ident>
        requires { IsTrue (spelling.is_ident bytes.now) }
        ensures { IfOk result (λ made. made ≡ bytes.now) }
    {
        let letters = SmallVec::from_slice(alloc, bytes)?;
        Ok(Ident { letters })
    }

    /// The bytes of the identifier.
    pub fn as_bytes(&self) -> &[u8]
        ensures same { result.now ≡ self.now }
        ensures spelled { IsTrue (spelling.is_ident self.now) }
    {
        self.letters.as_slice()
    }

    /// The text of the identifier.
    pub fn as_str(&self) -> &str
        ensures same { result.now ≡ self.now }
        ensures spelled { IsTrue (spelling.is_ident self.now) }
    {
        str::from_utf8(self.as_bytes()).unwrap()
    }
}

impl Duplicate for Ident {
    fn copy(&self, alloc: Global) -> Mem<Ident> {
        Ident::from_bytes(alloc, self.as_bytes())
    }
}

/// A text: bytes from 0x20 to 0x7E other than `"`. It may be empty.
/// A contract sees its bytes.
#[derive(Drop)]
pub struct Text {
    text: String,
}

impl Model for Text {
    ghost use Rattle.std.specs.Prelude.{ℕ, List, IsTrue};
    ghost use Rattle.std.specs.String.{string_bytes};
    ghost use Rattle.bg_base.specs.Spelling.{is_text};

    ghost Value = { List ℕ };

    ghost view = { λ words. string_bytes words.text };

    ghost invariant = { λ words. IsTrue (is_text (string_bytes words.text)) };
}

impl Text {
    /// The text of these characters, or `None` where one of them may not stand in a text. Linear in the text.
    pub fn new(alloc: Global, text: &str) -> Mem<Option<Text>>
        ensures { IfOk result (λ made. SomeIff made (IsTrue (spelling.is_text text.now)) text.now) }
    {
        if is_text(text.as_bytes()) {
            let text = String::from_str(alloc, text)?;
            Ok(Some(Text { text }))
        } else {
            Ok(None)
        }
    }

    /// The text of these bytes, each of which may stand in a text. Linear in the bytes.
    pub fn from_bytes(alloc: Global, bytes: &[u8]) -> Mem<Text>
        requires { IsTrue (spelling.is_text bytes.now) }
        ensures { IfOk result (λ made. made ≡ bytes.now) }
    {
        let text = String::from_str(alloc, str::from_utf8(bytes).unwrap())?;
        Ok(Text { text })
    }

    /// The characters of the text.
    pub fn as_str(&self) -> &str
        ensures same { result.now ≡ self.now }
        ensures spelled { IsTrue (spelling.is_text self.now) }
    {
        self.text.as_str()
    }
}

impl Duplicate for Text {
    fn copy(&self, _alloc: Global) -> Mem<Text> {
        let text = self.text.clone()?;
        Ok(Text { text })
    }
}

/// Whether the bytes spell an identifier. Linear.
pub fn is_ident(bytes: &[u8]) -> bool
    ensures { result ≡ spelling.is_ident bytes.now }
{
    match bytes.split_first() {
        None => false,
        Some((first, rest)) => is_letter(*first) && are_word_bytes(rest),
    }
}

/// Whether the bytes may stand in a text. Linear.
pub fn is_text(bytes: &[u8]) -> bool
    ensures { result ≡ spelling.is_text bytes.now }
{
    bytes.iter().all(|byte| is_text_byte(*byte))
}

fn are_word_bytes(bytes: &[u8]) -> bool
    ensures { result ≡ list_all spelling.is_word_byte bytes.now }
{
    bytes.iter().all(|byte| is_word_byte(*byte))
}

fn is_letter(byte: u8) -> bool
    ensures { result ≡ spelling.is_letter byte }
{
    matches!(byte, b'A'..=b'Z' | b'a'..=b'z')
}

/// Whether the byte is a letter, a digit, `_` or `'`.
pub fn is_word_byte(byte: u8) -> bool
    ensures { result ≡ spelling.is_word_byte byte }
{
    matches!(byte, b'A'..=b'Z' | b'a'..=b'z' | b'0'..=b'9' | b'_' | b'\'')
}

/// Whether the byte may stand in a text.
pub fn is_text_byte(byte: u8) -> bool
    ensures { result ≡ spelling.is_text_byte byte }
{
    byte >= 32 && byte <= 126 && byte != b'"'
}

impl PartialEq for Ident {
    ghost eq = { pointwise nat_eq };

    ghost laws = { partial_equiv_from_equiv nat_list_eq_equiv };

    fn eq(&self, other: &Self) -> bool {
        self.as_bytes() == other.as_bytes()
    }
}

impl Eq for Ident {
    ghost laws = { nat_list_eq_equiv };
}

impl PartialOrd for Ident {
    ghost partial_cmp = { λ x y. Some (slice_cmp nat_cmp x y) };

    ghost laws = { texts_po };

    fn partial_cmp(&self, other: &Self) -> Option<Ordering> {
        Some(self.cmp(other))
    }
}

impl Ord for Ident {
    ghost cmp = { slice_cmp nat_cmp };

    ghost total = { nat_list_cmp_total };

    ghost matches_partial_cmp = { λ x y. refl };

    ghost matches_eq = { texts_ties };

    fn cmp(&self, other: &Self) -> Ordering {
        self.as_bytes().cmp(&other.as_bytes())
    }
}

impl fmt::Debug for Ident {
    fn fmt<W: fmt::Write>(&self, f: &mut fmt::Formatter<W>) -> fmt::Result {
        self.as_str().fmt(f)
    }
}

impl PartialEq for Text {
    ghost eq = { pointwise nat_eq };

    ghost laws = { partial_equiv_from_equiv nat_list_eq_equiv };

    fn eq(&self, other: &Self) -> bool {
        self.text == other.text
    }
}

impl Eq for Text {
    ghost laws = { nat_list_eq_equiv };
}

impl PartialOrd for Text {
    ghost partial_cmp = { λ x y. Some (slice_cmp nat_cmp x y) };

    ghost laws = { texts_po };

    fn partial_cmp(&self, other: &Self) -> Option<Ordering> {
        Some(self.cmp(other))
    }
}

impl Ord for Text {
    ghost cmp = { slice_cmp nat_cmp };

    ghost total = { nat_list_cmp_total };

    ghost matches_partial_cmp = { λ x y. refl };

    ghost matches_eq = { texts_ties };

    fn cmp(&self, other: &Self) -> Ordering {
        self.text.cmp(&other.text)
    }
}

impl fmt::Debug for Text {
    fn fmt<W: fmt::Write>(&self, f: &mut fmt::Formatter<W>) -> fmt::Result {
        self.text.fmt(f)
    }
}
